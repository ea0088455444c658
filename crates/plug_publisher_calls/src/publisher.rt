// The publisher: fed a list of replies, and step by step with its state in 48 bytes that the caller lends.
#![tactic(auto, using(crate::proofs::Starts::starts, crate::proofs::Starts::choice_same), unfolding(crate::specs::Publisher::publisher_run_judged, crate::specs::Publisher::publisher_run_outcome, crate::specs::Publisher::publisher_run_events, master_runs::specs::Publisher::publisher_fed_judged, master_runs::specs::Publisher::publisher_fed_outcome, master_runs::specs::Publisher::publisher_fed_events, crate::specs::Publisher::publisher_started, crate::specs::Publisher::publisher_start_state, plug_master_packing::specs::Publisher::publisher_packed, plug_fields::specs::Fields::buffer_outcome, crate::specs::Publisher::publisher_call_judged, crate::specs::Publisher::publisher_call_outcome, crate::specs::Publisher::publisher_call_state, plug_answers::specs::Calls::reply_judged, plug_master_packing::specs::Publisher::publisher_judged, plug_master_packing::specs::Publisher::is_publisher_state, plug_fields::specs::Fields::is_copy))]

ghost use Rattle.std.specs.Prelude.{◌≡◌};
ghost use Rattle.base_types.specs.Outcome.{outcome_of};
ghost use Rattle.master_publisher.specs.Call.{turn_outcome};
ghost use Rattle.plug_publisher_calls.specs.Publisher.{publisher_run_outcome, publisher_run_events, publisher_started, publisher_start_state};
ghost use Rattle.plug_publisher_calls.specs.Publisher.{publisher_call_outcome, publisher_call_state};

use base_types::address::Page;
use base_types::refusal;
use base_types::refusal::Refusal;
use bus_events::Next;
use chip_memory::layout;
use master_plan::kind::UpdateKind;
use plug_answers::{answer, calls};
use plug_master_packing::publisher_state;

// The update of a page, of a kind, by a publisher fed these replies, once all is judged.
pub fn run_in(
    kind: UpdateKind,
    image: &[u8],
    new: &[u8],
    page: u32,
    replies: &[u8],
    events: &mut [u8],
    answer: &[u8],
) -> Result<Next<(Page, Page)>, Refusal>
    ensures told { turn_outcome result ≡ publisher_run_outcome 64 kind image.now new.now page replies.now events.old answer.now }
    ensures events { events.new ≡ publisher_run_events 64 kind image.now new.now page replies.now events.old answer.now }
{
    if !layout::is_image(image, layout::DS2505) {
        return Err(Refusal::ImageLength);
    }
    let started = master_publisher::start(kind, image, new, calls::page(page));
    master_runs::publish::judge(started.state, replies, events)?;
    calls::judge_answer(answer)?;
    started.answer?;
    master_runs::publish::run(started.state, replies, events).answer
}

// The state before the first call of an update of a kind.
pub fn start_in(
    kind: UpdateKind,
    image: &[u8],
    new: &[u8],
    page: u32,
    state: &mut [u8],
    answer: &[u8],
) -> Result<(), Refusal>
    ensures told { outcome_of result ≡ publisher_started 64 kind image.now new.now page state.old answer.now }
    ensures state { state.new ≡ publisher_start_state 64 kind image.now new.now page state.old answer.now }
{
    refusal::in_order(
        layout::is_image(image, layout::DS2505),
        true,
        answer::is_answer(answer) && state.len() == 48,
    )?;
    let started = master_publisher::start(kind, image, new, calls::page(page));
    started.answer?;
    publisher_state::pack(started.state, state)
}

// One call on the bytes of a state, once these and the reply are judged.
pub fn call(state: &mut [u8], reply: u32, answer: &[u8]) -> Result<Next<(Page, Page)>, Refusal>
    ensures told { turn_outcome result ≡ publisher_call_outcome 64 state.old reply answer.now }
    ensures state { state.new ≡ publisher_call_state 64 state.old reply answer.now }
{
    let held = publisher_state::unpack(state);
    held.answer?;
    let before = held.state;
    calls::judge_reply(
        master_publisher::in_range(layout::DS2505, before),
        reply,
        answer,
    )?;
    let stepped = master_publisher::call(before, reply == 1);
    publisher_state::pack(stepped.state, state)?;
    stepped.answer
}
