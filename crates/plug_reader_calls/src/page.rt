// The page read: fed a list of replies, and step by step with its state in 48 bytes that the caller lends.
#![tactic(auto, using(crate::proofs::Pages::starts, crate::proofs::Pages::start_same, crate::proofs::Pages::state_same, crate::proofs::Pages::page_same), unfolding(crate::specs::Page::page_run_judged, crate::specs::Page::page_run_outcome, crate::specs::Page::page_run_events, crate::specs::Page::page_run_buffer, master_runs::specs::Page::page_fed_judged, master_runs::specs::Page::page_fed_outcome, master_runs::specs::Page::page_fed, master_runs::specs::Page::page_fed_events, crate::specs::Page::page_start_judged, crate::specs::Page::page_start_state, plug_master_packing::specs::Page::page_packed, plug_fields::specs::Fields::buffer_outcome, master_page::specs::PageRead::start_answer, crate::specs::Page::page_call_judged, crate::specs::Page::page_call_outcome, crate::specs::Page::page_call_state, crate::specs::Page::page_call_buffer, plug_answers::specs::Calls::reply_judged, plug_master_packing::specs::Page::page_judged, plug_master_packing::specs::Page::is_page_state, plug_fields::specs::Fields::is_copy))]

ghost use Rattle.std.specs.Prelude.{◌≡◌};
ghost use Rattle.base_types.specs.Outcome.{outcome_of};
ghost use Rattle.master_page.specs.PageRead.{read_outcome};
ghost use Rattle.plug_reader_calls.specs.Page.{page_run_outcome, page_run_events, page_run_buffer, page_start_judged, page_start_state};
ghost use Rattle.plug_reader_calls.specs.Page.{page_call_outcome, page_call_state, page_call_buffer};

use base_types::address::Page;
use base_types::refusal::Refusal;
use bus_events::Next;
use chip_memory::layout;
use plug_answers::calls;
use plug_master_packing::page_state;

// The read of a page fed these replies, once all is judged.
pub fn run(
    page: u32,
    replies: &[u8],
    events: &mut [u8],
    buffer: &mut [u8],
    answer: &[u8],
) -> Result<Next<(Page, u8)>, Refusal>
    ensures told { read_outcome result ≡ page_run_outcome 64 page replies.now events.old buffer.old answer.now }
    ensures events { events.new ≡ page_run_events 64 page replies.now events.old buffer.old answer.now }
    ensures buffer { buffer.new ≡ page_run_buffer 64 page replies.now events.old buffer.old answer.now }
{
    let started = master_page::start(calls::page(page));
    master_runs::page::judge(started.state, replies, events, buffer)?;
    calls::judge_answer(answer)?;
    started.answer?;
    master_runs::page::run(started.state, replies, events, buffer).answer
}

// The state before the first call.
pub fn start(page: u32, state: &mut [u8]) -> Result<(), Refusal>
    ensures told { outcome_of result ≡ page_start_judged 64 page state.old }
    ensures state { state.new ≡ page_start_state 64 page state.old }
{
    if state.len() != 48 {
        return Err(Refusal::BufferLength);
    }
    let started = master_page::start(calls::page(page));
    started.answer?;
    page_state::pack(started.state, state)
}

// One call on the bytes of a state, once these and the reply are judged.
pub fn call(
    state: &mut [u8],
    reply: u32,
    buffer: &mut [u8],
    answer: &[u8],
) -> Result<Next<(Page, u8)>, Refusal>
    ensures told { read_outcome result ≡ page_call_outcome 64 state.old reply buffer.old answer.now }
    ensures state { state.new ≡ page_call_state 64 state.old reply buffer.old answer.now }
    ensures buffer { buffer.new ≡ page_call_buffer 64 state.old reply buffer.old answer.now }
{
    let held = page_state::unpack(state);
    held.answer?;
    let before = held.state;
    calls::judge_reply(master_page::in_range(layout::DS2505, before), reply, answer)?;
    let stepped = master_page::call(before, reply == 1, buffer);
    page_state::pack(stepped.state, state)?;
    stepped.answer
}
