// The work of the entries that keep no state: on an image, on stored sheets, and on the variation. Each returns what it tells, and takes the
// answer's buffer only to judge it.
#![tactic(auto)]

ghost use Rattle.std.specs.Prelude.{◌≡◌, true};
ghost use Rattle.base_types.specs.Outcome.{outcome_of, in_order};
ghost use Rattle.chip_memory.specs.Layout.{is_image};

use base_types::refusal;
use base_types::refusal::Refusal;
use chip_memory::layout;

pub mod image;
pub mod lookup;
pub mod sheet;

// The image, and the buffer beside it, by their lengths. Refused: 1, 10.
fn lent(image: &[u8], beside: bool) -> Result<(), Refusal>
    ensures { outcome_of result ≡ in_order (is_image 64 image.now) true beside }
{
    refusal::in_order(layout::is_image(image, layout::DS2505), true, beside)
}
