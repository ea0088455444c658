// On an image: walk, page, free page.
ghost use Rattle.std.specs.Prelude.{◌≡◌};
ghost use Rattle.base_types.specs.Outcome.{outcome_of};
ghost use Rattle.chip_images.specs.Page.{copy_answer, copy_buffer};
ghost use Rattle.plug_answers.specs.Answers.{told_by, page_values, final_values};
ghost use Rattle.plug_image_calls.specs.Image.{walk_values, free_values};

use crate::lent;
use base_types::address::Page;
use base_types::refusal::Refusal;
use base_types::verdict::Verdict;
use plug_answers::{answer, calls};

// The walk from a page, once the buffers are judged: the final page, and the hops to it.
#[tactic(auto, using(crate::proofs::Pages::walk_same), unfolding(crate::specs::Image::walk_values))]
pub fn walk(image: &[u8], page: u32, answer: &[u8]) -> Result<(Page, u8), Refusal>
    ensures { told_by final_values result ≡ walk_values 64 image.now page answer.now }
{
    lent(image, answer::is_answer(answer))?;
    match chip_images::walk::walk(image, calls::page(page))? {
        Verdict::Final(last, hops) => Ok((last, hops)),
        Verdict::Loop => Err(Refusal::Loop),
        Verdict::Outside(x) => Err(Refusal::Outside(x)),
    }
}

// A page's 32 bytes into a buffer.
#[tactic(auto, using(crate::proofs::Pages::copy_same, crate::proofs::Pages::copied_same))]
pub fn page(image: &[u8], page: u32, buffer: &mut [u8]) -> Result<(), Refusal>
    ensures answer { outcome_of result ≡ copy_answer 64 image.now page buffer.old }
    ensures buffer { buffer.new ≡ copy_buffer 64 image.now page buffer.old }
{
    chip_images::page::copy(image, calls::page(page), buffer)
}

// The lowest free page other than the one given, once the buffers are judged.
#[tactic(auto, using(crate::proofs::Pages::free_same), unfolding(crate::specs::Image::free_values))]
pub fn free_page(image: &[u8], other: u32, answer: &[u8]) -> Result<Page, Refusal>
    ensures { told_by page_values result ≡ free_values 64 image.now other answer.now }
{
    lent(image, answer::is_answer(answer))?;
    chip_images::free::lowest(image, calls::page(other))
}
