// Free pages, and how many there are.
ghost use Rattle.std.specs.Prelude.{◌≡◌};
ghost use Rattle.base_types.specs.Outcome.{outcome_of};
ghost use Rattle.chip_images.specs.Free.{free_answer, counts_answer};

use crate::page;
use base_types::address::Page;
use base_types::refusal::Refusal;
use chip_memory::image::Memory;
use chip_memory::layout;

// The lowest free page other than the one given. Refused: 1, 3, 8.
pub fn lowest(image: &[u8], other: Page) -> Result<Page, Refusal>
    ensures { outcome_of result ≡ free_answer 64 image.now other.0 }
{
    page::judge(image, other)?;
    let last = layout::DS2505;
    chip_chain::free::lowest_free(&Memory { image, last }, other).ok_or(Refusal::NoFreePage)
}

#[derive(Clone, Copy)]
pub struct PageCounts {
    pub redirected: usize,
    pub free: usize,
}

// How many pages are redirected, and how many are free. Refused: 1.
#[tactic(auto, unfolding(crate::specs::Free::counts_answer))]
pub fn counts(image: &[u8]) -> Result<PageCounts, Refusal>
    ensures { outcome_of result ≡ counts_answer 64 image.now }
{
    let last = layout::DS2505;
    if !layout::is_image(image, last) {
        return Err(Refusal::ImageLength);
    }
    let memory = Memory { image, last };
    Ok(PageCounts {
        redirected: chip_chain::count::redirected_count(&memory),
        free: chip_chain::count::free_count(&memory),
    })
}
