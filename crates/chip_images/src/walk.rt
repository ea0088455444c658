// The walk from a page.
ghost use Rattle.std.specs.Prelude.{◌≡◌};
ghost use Rattle.base_types.specs.Outcome.{outcome_of};
ghost use Rattle.chip_images.specs.Walk.{walk_answer};

use crate::page;
use base_types::address::Page;
use base_types::refusal::Refusal;
use base_types::verdict::Verdict;
use chip_memory::image::Memory;
use chip_memory::layout;

// How the walk from a page ends. Refused: 1, 3.
pub fn walk(image: &[u8], page: Page) -> Result<Verdict, Refusal>
    ensures { outcome_of result ≡ walk_answer 64 image.now page.0 }
{
    page::judge(image, page)?;
    let last = layout::DS2505;
    Ok(chip_chain::walk::walk(&Memory { image, last }, page))
}
