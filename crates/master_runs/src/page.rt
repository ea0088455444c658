// The page read fed a list of replies.
ghost use Rattle.std.specs.Prelude.{◌≡◌, map, length};
ghost use Rattle.base_types.specs.Outcome.{outcome_of};
ghost use Rattle.master_page.specs.PageRead.{read_outcome};
ghost use Rattle.master_page.specs.Held.{page_held, page_told, page_called};
ghost use Rattle.master_runs.specs.Calls.{call_code, last_from, to_come, fed_calls, fed_answers};
ghost use Rattle.master_runs.specs.Page.{page_fed_judged, page_fed_outcome, page_fed, page_fed_events};

use crate::calls;
use base_types::address::Page;
use base_types::refusal::Refusal;
use base_types::stepped::Stepped;
use bus_events::Next;
use chip_memory::layout;
use master_page::PageRead;

// Whether the read can be fed these replies. Refused: 2 for a state outside its ranges and for a byte that is no reply, 10 for an
// events' buffer that has not a byte for each reply and for a page's buffer that is not 32 bytes.
#[tactic(auto, unfolding(crate::specs::Page::page_fed_judged))]
pub fn judge(start: PageRead, replies: &[u8], events: &[u8], buffer: &[u8]) -> Result<(), Refusal>
    ensures { outcome_of result ≡ page_fed_judged 64 (page_held start buffer.now) replies.now events.now }
{
    calls::judge(
        master_page::in_range(layout::DS2505, start),
        replies,
        events.len() == replies.len() && buffer.len() == 32,
    )
}

// A feed of its own, since this read is lent a buffer: with the buffer in a master's state each call copied both, and a read and the chip's
// run for it took 1.2 times as long.
#[tactic(auto, unfolding(crate::specs::Calls::last_from))]
fn feed(
    start: PageRead,
    replies: &[u8],
    events: &mut [u8],
    buffer: &mut [u8],
) -> Stepped<Result<Next<(Page, u8)>, Refusal>, PageRead>
    requires { length events.old ≡ length replies.now }
    ensures state { page_held result.state buffer.new ≡ fed_calls (page_called 64) (page_told 64) (page_held start buffer.old) replies.now }
    ensures answer { read_outcome result.answer ≡ last_from to_come (fed_answers (page_called 64) (page_told 64) (page_held start buffer.old) replies.now) }
    ensures events { events.new ≡ map call_code (fed_answers (page_called 64) (page_told 64) (page_held start buffer.old) replies.now) }
{
    let mut last = Stepped {
        answer: Ok(Next::Send(bus_events::reset())),
        state: start,
    };
    for (i, reply) in replies.iter().enumerate() {
        last = master_page::call(last.state, *reply == 1, buffer);
        events[i] = calls::code(&last.answer);
    }
    last
}

// The state and the caller's buffer after the calls, and the last answer; with no call, the reset to come. Refused: 2, 10, with the
// same state.
#[tactic(auto, unfolding(crate::specs::Page::page_fed_judged, crate::specs::Page::page_fed_outcome, crate::specs::Page::page_fed, crate::specs::Page::page_fed_events))]
pub fn run(
    start: PageRead,
    replies: &[u8],
    events: &mut [u8],
    buffer: &mut [u8],
) -> Stepped<Result<Next<(Page, u8)>, Refusal>, PageRead>
    ensures state { page_held result.state buffer.new ≡ page_fed 64 (page_held start buffer.old) replies.now events.old }
    ensures answer { read_outcome result.answer ≡ page_fed_outcome 64 (page_held start buffer.old) replies.now events.old }
    ensures events { events.new ≡ page_fed_events 64 (page_held start buffer.old) replies.now events.old }
{
    match judge(start, replies, events, buffer) {
        Ok(()) => feed(start, replies, events, buffer),
        Err(refusal) => Stepped {
            answer: Err(refusal),
            state: start,
        },
    }
}
