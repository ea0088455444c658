// A page is handed on as its own 32 bytes of the image.
ghost use Rattle.std.specs.Prelude.{◌≡◌};
ghost use Rattle.chip_memory.specs.Image.{page_bytes};
ghost use Rattle.chip_memory.specs.Page.{is_blank, copied};
ghost use Rattle.base_crc.specs.Crc.{crc16_of};

use base_types::address::Page;

// The part of the image from 32p to 32p + 32.
pub fn part(image: &[u8], p: Page) -> &[u8]
    ensures { result.now ≡ page_bytes image.now p.0 }
{
    let start = (32 * p.0 as usize).min(image.len());
    let end = (start + 32).min(image.len());
    &image[start..end]
}

// The page's bytes are all FFh.
pub fn is_blank(page: &[u8]) -> bool
    ensures { result ≡ is_blank page.now }
{
    page.iter().all(|b| *b == 0xFF)
}

// The CRC-16 of a page's bytes.
pub fn crc(page: &[u8]) -> u16
    ensures { result ≡ crc16_of page.now }
{
    base_crc::crc16::of(page)
}

// The page's bytes into a buffer, as far as both go. Byte by byte: where a caller in C lends both, copy_from_slice is a call of memmove,
// which the C library does without (docs/C-INTERFACE.md).
pub fn copy(page: &[u8], buffer: &mut [u8])
    ensures { buffer.new ≡ copied page.now buffer.old }
{
    for i in 0..page.len().min(buffer.len()) {
        buffer[i] = page[i];
    }
}
