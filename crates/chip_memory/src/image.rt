// The bytes of an image, by their addresses.
ghost use Rattle.std.specs.Prelude.{◌≡◌, ◌≤◌, get_or};
ghost use Rattle.chip_memory.specs.Image.{data_byte, status_byte, target_byte, page_bit, redirection_of, page_bytes};
ghost use Rattle.chip_memory.specs.Layout.{page_count, data_size};
ghost use Rattle.chip_memory.specs.Memory.{bytes, pages};

use crate::layout::Field;
use crate::{layout, page};
use base_types::address::{DataAddress, Page, Redirection, StatusAddress, Target};
use base_types::bits;

// The byte at an index, 0 past the end.
pub fn byte_at(image: &[u8], i: usize) -> u8
    ensures { result ≡ get_or image.now i 0 }
{
    image.get(i).copied().unwrap_or(0)
}

// An image with the chip that it is of, which is known by its last page. Methods and functions take it by reference: so a clause says
// `memory.now`, where it would need `.entry` for a value that holds a borrow.
#[derive(Clone, Copy)]
pub struct Memory<'a> {
    pub image: &'a [u8],
    pub last: Page,
}

impl<'a> Memory<'a> {
    // How many pages: at most 256, since a page's number is a byte, which the check sees where the page is taken apart.
    pub fn page_count(&self) -> usize
        ensures is { result ≡ pages self.now }
        ensures bound { result ≤ 256 }
    {
        let Page(last) = self.last;
        layout::page_count(Page(last))
    }

    // How many data bytes.
    pub fn data_size(&self) -> usize
        ensures is { result ≡ data_size (pages self.now) }
        ensures bound { result ≤ 8192 }
    {
        32 * self.page_count()
    }

    // The byte of a data address.
    #[tactic(auto, unfolding(crate::specs::Image::data_byte))]
    pub fn data_byte(&self, a: DataAddress) -> u8
        ensures { result ≡ data_byte (pages self.now) (bytes self.now) a.0 }
    {
        let i = a.0 as usize;
        if i < self.data_size() {
            byte_at(self.image, i)
        } else {
            0xFF
        }
    }

    // The byte of a status address. A gap reads FFh.
    #[tactic(auto, unfolding(crate::specs::Image::status_byte))]
    pub fn status_byte(&self, a: StatusAddress) -> u8
        ensures { result ≡ status_byte (pages self.now) (bytes self.now) a.0 }
    {
        if layout::is_held(self.last, a) {
            byte_at(self.image, layout::status_index(self.last, a))
        } else {
            0xFF
        }
    }

    // The byte of either kind of address.
    #[tactic(auto, unfolding(crate::specs::Image::target_byte))]
    pub fn target_byte(&self, t: Target) -> u8
        ensures { result ≡ target_byte (pages self.now) (bytes self.now) t }
    {
        match t {
            Target::Data(a) => self.data_byte(a),
            Target::Status(a) => self.status_byte(a),
        }
    }

    // The bit of a page in a field of bits: bit p modulo 8 of byte p divided by 8.
    #[tactic(auto, unfolding(crate::specs::Image::page_bit, crate::specs::Layout::first_address))]
    pub fn page_bit(&self, field: Field, p: Page) -> bool
        ensures { result ≡ page_bit (pages self.now) field (bytes self.now) p.0 }
    {
        let a = StatusAddress(layout::first_address(field) + (p.0 >> 3) as u16);
        bits::at(byte_at(self.image, layout::status_index(self.last, a)), p.0)
    }

    // The redirection byte of a page.
    #[tactic(auto, unfolding(crate::specs::Image::redirection_of))]
    pub fn redirection_of(&self, p: Page) -> Redirection
        ensures { result.0 ≡ redirection_of (pages self.now) (bytes self.now) p.0 }
    {
        let a = StatusAddress(layout::REDIRECTION_BYTES + p.0 as u16);
        Redirection(byte_at(self.image, layout::status_index(self.last, a)))
    }

    // A page's own 32 bytes.
    pub fn page(&self, p: Page) -> &'a [u8]
        ensures { result.now ≡ page_bytes (bytes self.now) p.0 }
    {
        page::part(self.image, p)
    }
}
