// A page's own 32 bytes.
ghost use Rattle.std.specs.Prelude.{◌≡◌};
ghost use Rattle.base_types.specs.Outcome.{outcome_of};
ghost use Rattle.chip_images.specs.Page.{page_answer, page_part, copy_answer, copy_buffer};

use base_types::address::Page;
use base_types::refusal::Refusal;
use chip_memory::layout;

// Whether an image has a page. Refused: 1, 3.
#[tactic(auto, unfolding(crate::specs::Page::page_answer))]
pub fn judge(image: &[u8], page: Page) -> Result<(), Refusal>
    ensures { outcome_of result ≡ page_answer 64 image.now page.0 }
{
    if !layout::is_image(image, layout::DS2505) {
        return Err(Refusal::ImageLength);
    }
    if !layout::is_page(layout::DS2505, page) {
        return Err(Refusal::PageNumber);
    }
    Ok(())
}

// The page, as the part of the image that is its own 32 bytes; where judge refuses, the empty part.
#[tactic(auto, unfolding(crate::specs::Page::page_part))]
pub fn part(image: &[u8], page: Page) -> &[u8]
    ensures { result.now ≡ page_part 64 image.now page.0 }
{
    match judge(image, page) {
        Ok(()) => chip_memory::page::part(image, page),
        Err(_) => &[],
    }
}

// The page into a buffer of 32 bytes. Refused: 1, 10, 3, and the buffer is then untouched.
#[tactic(auto, unfolding(crate::specs::Page::copy_answer, crate::specs::Page::copy_buffer))]
pub fn copy(image: &[u8], page: Page, buffer: &mut [u8]) -> Result<(), Refusal>
    ensures answer { outcome_of result ≡ copy_answer 64 image.now page.0 buffer.old }
    ensures buffer { buffer.new ≡ copy_buffer 64 image.now page.0 buffer.old }
{
    if !layout::is_image(image, layout::DS2505) {
        return Err(Refusal::ImageLength);
    }
    if buffer.len() != 32 {
        return Err(Refusal::BufferLength);
    }
    if !layout::is_page(layout::DS2505, page) {
        return Err(Refusal::PageNumber);
    }
    chip_memory::page::copy(chip_memory::page::part(image, page), buffer);
    Ok(())
}
