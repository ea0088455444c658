// The work of the chip's entries: a whole run from power-up, and step by step with the state in 24 bytes that the caller lends.
#![tactic(auto)]

ghost use Rattle.std.specs.Prelude.{◌≡◌};
ghost use Rattle.base_types.specs.Outcome.{outcome_of};
ghost use Rattle.plug_chip_calls.specs.Chip.{whole_answer, whole_image, whole_replies, power_answer, power_state, events_answer, events_state, events_image, events_replies};

use base_types::refusal;
use base_types::refusal::Refusal;
use chip_entries::event;
use chip_memory::layout;
use plug_answers::answer;
use plug_chip_packing::chip_state;

// From power-up. A number of another length draws 10, after 1 and 2.
#[tactic(auto, using(crate::proofs::Judged::whole_judged), unfolding(crate::specs::Chip::whole_answer, crate::specs::Chip::whole_image, crate::specs::Chip::whole_replies))]
pub fn run(
    number: &[u8],
    events: &[u8],
    image: &mut [u8],
    replies: &mut [u8],
) -> Result<(), Refusal>
    ensures answer { outcome_of result ≡ whole_answer 64 number.now events.now image.old replies.old }
    ensures image { image.new ≡ whole_image 64 number.now events.now image.old replies.old }
    ensures replies { replies.new ≡ whole_replies 64 number.now events.now image.old replies.old }
{
    if !answer::is_number(number) {
        return refusal::in_order(
            layout::is_image(image, layout::DS2505),
            event::are_events(events),
            false,
        );
    }
    let start = event::power_up(answer::eight_of(number));
    event::run(start, events, image, replies).answer
}

// The state at power-up.
#[tactic(auto, unfolding(crate::specs::Chip::power_answer, crate::specs::Chip::power_state))]
pub fn power_up(number: &[u8], state: &mut [u8]) -> Result<(), Refusal>
    ensures answer { outcome_of result ≡ power_answer number.now state.old }
    ensures state { state.new ≡ power_state number.now state.old }
{
    if !answer::is_number(number) {
        return Err(Refusal::BufferLength);
    }
    chip_state::pack(event::power_up(answer::eight_of(number)), state)
}

// Events on the state that bytes hold, which then hold the state after them. An image of another length draws 1, whatever these bytes are.
#[tactic(auto, using(crate::proofs::Judged::packed_back), unfolding(crate::specs::Chip::events_answer, crate::specs::Chip::chip_left, crate::specs::Chip::events_state, crate::specs::Chip::events_image, crate::specs::Chip::events_replies, plug_chip_packing::specs::Chip::chip_judged))]
pub fn events(
    state: &mut [u8],
    events: &[u8],
    image: &mut [u8],
    replies: &mut [u8],
) -> Result<(), Refusal>
    ensures answer { outcome_of result ≡ events_answer 64 state.old events.now image.old replies.old }
    ensures state { state.new ≡ events_state 64 state.old events.now image.old replies.old }
    ensures image { image.new ≡ events_image 64 state.old events.now image.old replies.old }
    ensures replies { replies.new ≡ events_replies 64 state.old events.now image.old replies.old }
{
    if !layout::is_image(image, layout::DS2505) {
        return Err(Refusal::ImageLength);
    }
    let held = chip_state::unpack(state);
    held.answer?;
    let ran = event::run(held.state, events, image, replies);
    ran.answer?;
    chip_state::pack(ran.state, state)
}
