// The number read: fed a list of replies, and step by step with its state in 24 bytes that the caller lends.
#![tactic(auto, unfolding(crate::specs::Number::number_run_judged, crate::specs::Number::number_run_outcome, crate::specs::Number::number_run_events, master_runs::specs::Number::number_fed_judged, master_runs::specs::Number::number_fed_outcome, master_runs::specs::Number::number_fed_events, master_number::specs::NumberRead::number_phase_in_range, crate::specs::Number::number_call_judged, crate::specs::Number::number_call_outcome, crate::specs::Number::number_call_state, plug_answers::specs::Calls::reply_judged, plug_master_packing::specs::Number::number_judged, plug_master_packing::specs::Number::is_number_state, plug_fields::specs::Fields::is_copy, plug_master_packing::specs::Number::number_packed, plug_fields::specs::Fields::buffer_outcome))]

ghost use Rattle.std.specs.Prelude.{◌≡◌};
ghost use Rattle.base_types.specs.Outcome.{outcome_of};
ghost use Rattle.master_number.specs.NumberRead.{number_begun, answer_outcome};
ghost use Rattle.plug_master_packing.specs.Number.{number_packed, number_buffer};
ghost use Rattle.plug_reader_calls.specs.Number.{number_run_outcome, number_run_events, number_call_outcome, number_call_state};

use base_types::refusal::Refusal;
use bus_events::Next;
use plug_answers::calls;
use plug_master_packing::number_state;

// The read fed these replies, once all is judged.
pub fn run(replies: &[u8], events: &mut [u8], answer: &[u8]) -> Result<Next<[u8; 8]>, Refusal>
    ensures told { answer_outcome result ≡ number_run_outcome replies.now events.old answer.now }
    ensures events { events.new ≡ number_run_events replies.now events.old answer.now }
{
    let start = master_number::start();
    master_runs::number::judge(start, replies, events)?;
    calls::judge_answer(answer)?;
    master_runs::number::run(start, replies, events).answer
}

// The state before the first call.
pub fn start(state: &mut [u8]) -> Result<(), Refusal>
    ensures told { outcome_of result ≡ number_packed state.old }
    ensures state { state.new ≡ number_buffer number_begun state.old }
{
    number_state::pack(master_number::start(), state)
}

// One call on the bytes of a state, once these and the reply are judged.
pub fn call(state: &mut [u8], reply: u32, answer: &[u8]) -> Result<Next<[u8; 8]>, Refusal>
    ensures told { answer_outcome result ≡ number_call_outcome state.old reply answer.now }
    ensures state { state.new ≡ number_call_state state.old reply answer.now }
{
    let held = number_state::unpack(state);
    held.answer?;
    let before = held.state;
    calls::judge_reply(master_number::in_range(before), reply, answer)?;
    let stepped = master_number::call(before, reply == 1);
    number_state::pack(stepped.state, state)?;
    stepped.answer
}
