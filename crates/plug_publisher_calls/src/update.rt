// A whole update on the image of a chip.
#![tactic(auto, using(crate::proofs::Starts::choice_same), unfolding(crate::specs::Update::update_judged, crate::specs::Update::update_values, crate::specs::Update::update_image))]

ghost use Rattle.std.specs.Prelude.{◌≡◌};
ghost use Rattle.plug_answers.specs.Answers.{told_by, update_pages};
ghost use Rattle.plug_publisher_calls.specs.Update.{update_values, update_image};

use base_types::address::Page;
use base_types::refusal;
use base_types::refusal::Refusal;
use chip_memory::layout;
use master_plan::kind::UpdateKind;
use plug_answers::{answer, calls};

// The update of a page, of a kind, on the image of a chip with this number, cut after so many events.
pub fn update_in(
    kind: UpdateKind,
    image: &mut [u8],
    number: &[u8],
    new: &[u8],
    page: u32,
    events: u32,
    answer: &[u8],
) -> Result<(Page, Page), Refusal>
    ensures told { told_by update_pages result ≡ update_values 64 kind image.old number.now new.now page answer.now }
    ensures image { image.new ≡ update_image 64 kind image.old number.now new.now page events answer.now }
{
    refusal::in_order(
        layout::is_image(image, layout::DS2505),
        true,
        answer::is_answer(answer) && answer::is_number(number),
    )?;
    master_update::update(
        kind,
        image,
        answer::eight_of(number),
        new,
        calls::page(page),
        events,
    )
}
