// The page read: fed a list of replies, and step by step with its state in 48 bytes that the caller lends.
ghost use Rattle.std.specs.Prelude.{◌≡◌};
ghost use Rattle.plug_answers.specs.Answers.{code_in};
ghost use Rattle.plug_reader_calls.specs.Page.{page_run_outcome, page_run_events, page_run_buffer, page_run_told, page_start_judged, page_start_state};
ghost use Rattle.plug_reader_calls.specs.Page.{page_call_outcome, page_call_state, page_call_buffer, page_call_told};

use plug_answers::answer;
use plug_reader_calls::page;

// The read of a page fed these replies: a byte for each call, its event or FFh, and what the last call told. The buffer gets the page's
// bytes where Final is told. Refused: 2, 10, 3.
#[tactic(auto, unfolding(plug_reader_calls::specs::Page::page_run_told))]
#[unsafe(no_mangle)]
pub extern "C" fn plug_page_run(
    page: u32,
    replies: &[u8],
    events: &mut [u8],
    buffer: &mut [u8],
    answer: &mut [u8],
) -> u32
    ensures code { result ≡ code_in (page_run_outcome 64 page replies.now events.old buffer.old answer.old) }
    ensures events { events.new ≡ page_run_events 64 page replies.now events.old buffer.old answer.old }
    ensures buffer { buffer.new ≡ page_run_buffer 64 page replies.now events.old buffer.old answer.old }
    ensures answer { answer.new ≡ page_run_told 64 page replies.now events.old buffer.old answer.old }
{
    answer::tell_next(page::run(page, replies, events, buffer, answer), answer)
}

// The state before the first call. Refused: 10, 3.
#[unsafe(no_mangle)]
pub extern "C" fn plug_page_start(page: u32, state: &mut [u8]) -> u32
    ensures code { result ≡ code_in (page_start_judged 64 page state.old) }
    ensures state { state.new ≡ page_start_state 64 page state.old }
{
    answer::code(page::start(page, state))
}

// One call with a reply, 0 or 1: the next event, or Final with the page and the hops, and then the buffer has the page's bytes.
// Refused: 2, 10, 13, 6, 4, 5.
#[tactic(auto, unfolding(plug_reader_calls::specs::Page::page_call_told))]
#[unsafe(no_mangle)]
pub extern "C" fn plug_page_call(
    state: &mut [u8],
    reply: u32,
    buffer: &mut [u8],
    answer: &mut [u8],
) -> u32
    ensures code { result ≡ code_in (page_call_outcome 64 state.old reply buffer.old answer.old) }
    ensures state { state.new ≡ page_call_state 64 state.old reply buffer.old answer.old }
    ensures buffer { buffer.new ≡ page_call_buffer 64 state.old reply buffer.old answer.old }
    ensures answer { answer.new ≡ page_call_told 64 state.old reply buffer.old answer.old }
{
    answer::tell_next(page::call(state, reply, buffer, answer), answer)
}
