// The number read: fed a list of replies, and step by step with its state in 24 bytes that the caller lends.
ghost use Rattle.std.specs.Prelude.{◌≡◌};
ghost use Rattle.master_number.specs.NumberRead.{number_begun};
ghost use Rattle.plug_master_packing.specs.Number.{number_packed, number_buffer};
ghost use Rattle.plug_answers.specs.Answers.{code_in};
ghost use Rattle.plug_reader_calls.specs.Number.{number_run_outcome, number_run_events, number_run_told, number_call_outcome, number_call_state, number_call_told};

use plug_answers::answer;
use plug_reader_calls::number;

// The read fed these replies: a byte for each call, its event or FFh, and what the last call told. Refused: 2, 10.
#[tactic(auto, unfolding(plug_reader_calls::specs::Number::number_run_told))]
#[unsafe(no_mangle)]
pub extern "C" fn plug_number_run(replies: &[u8], events: &mut [u8], answer: &mut [u8]) -> u32
    ensures code { result ≡ code_in (number_run_outcome replies.now events.old answer.old) }
    ensures events { events.new ≡ number_run_events replies.now events.old answer.old }
    ensures answer { answer.new ≡ number_run_told replies.now events.old answer.old }
{
    answer::tell_next(number::run(replies, events, answer), answer)
}

// The state before the first call. Refused: 10.
#[unsafe(no_mangle)]
pub extern "C" fn plug_number_start(state: &mut [u8]) -> u32
    ensures code { result ≡ code_in (number_packed state.old) }
    ensures state { state.new ≡ number_buffer number_begun state.old }
{
    answer::code(number::start(state))
}

// One call with a reply, 0 or 1: the next event, or the end with the number's eight bytes. Refused: 2, 10, 13, 14, 15.
#[tactic(auto, unfolding(plug_reader_calls::specs::Number::number_call_told))]
#[unsafe(no_mangle)]
pub extern "C" fn plug_number_call(state: &mut [u8], reply: u32, answer: &mut [u8]) -> u32
    ensures code { result ≡ code_in (number_call_outcome state.old reply answer.old) }
    ensures state { state.new ≡ number_call_state state.old reply answer.old }
    ensures answer { answer.new ≡ number_call_told state.old reply answer.old }
{
    answer::tell_next(number::call(state, reply, answer), answer)
}
