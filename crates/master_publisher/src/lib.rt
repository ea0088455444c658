// The publisher: a master that supersedes a page. Its start is lent the image and the new bytes; later calls go by the plan.
// The state counts the events that were returned. Each bit that is read is compared with the one that is wanted as it comes, and the
// CRC or byte is judged at its last bit.
#![tactic(auto)]

ghost use Rattle.std.specs.Prelude.{◌≡◌, Ok, replicate};
ghost use Rattle.bus_events.specs.declared.Next.TheVariants.{End};
ghost use Rattle.chip_memory.specs.Layout.{page_count};
ghost use Rattle.chip_memory.specs.Memory.{bytes, pages};
ghost use Rattle.chip_memory.specs.Page.{copied};
ghost use Rattle.master_publisher.specs.Stop.{publisher_refusal};
ghost use Rattle.master_publisher.specs.Start.{target_by, choice_of, bitmap_byte, ready, stopped_by, start_outcome};
ghost use Rattle.master_publisher.specs.Start.{publisher_answer, publisher_state};
ghost use Rattle.master_publisher.specs.Code.Turn.{plan_in, total_in, step_of, wanted_of, judged_last, judged_of, at_stage, gone_on, turn_of};
ghost use Rattle.master_publisher.specs.Call.{reads_crc, stop_in_range, stage_in_range, publisher_in_range, turn_outcome, call_answer, call_state};

use base_types::address::Page;
use base_types::refusal::Refusal;
use base_types::stepped::Stepped;
use base_types::verdict::Verdict;
use base_types::write_mode::WriteMode;
use bus_events::Next;
use chip_memory::image::Memory;
use chip_memory::layout::Field;
use chip_memory::{image, layout};
use master_plan::kind::{Placement, UpdateKind};
use master_plan::{Step, Wanted, kind};

// What can stop a publisher.
#[derive(Clone, Copy)]
pub enum PublisherStop {
    ImageLength,
    PageNumber,
    Loop,
    Outside(u8),
    Crc16,
    ReadBack,
    NoFreePage,
    RedirectionProtected(Page),
    BufferLength,
    NoPresence,
    DataProtected(Page),
}

// The refusal that tells it.
impl From<PublisherStop> for Refusal {
    ghost from_gives = { λ stop refusal. refusal ≡ publisher_refusal stop };

    fn from(stop: PublisherStop) -> Refusal {
        match stop {
            PublisherStop::ImageLength => Refusal::ImageLength,
            PublisherStop::PageNumber => Refusal::PageNumber,
            PublisherStop::Loop => Refusal::Loop,
            PublisherStop::Outside(x) => Refusal::Outside(x),
            PublisherStop::Crc16 => Refusal::Crc16,
            PublisherStop::ReadBack => Refusal::ReadBack,
            PublisherStop::NoFreePage => Refusal::NoFreePage,
            PublisherStop::RedirectionProtected(l) => Refusal::RedirectionProtected(l),
            PublisherStop::BufferLength => Refusal::BufferLength,
            PublisherStop::NoPresence => Refusal::NoPresence,
            PublisherStop::DataProtected(l) => Refusal::DataProtected(l),
        }
    }
}

// Running: so many events have been returned; the bits of the present CRC or byte have agreed so far.
#[derive(Clone, Copy)]
pub enum Stage {
    Running(u16, bool),
    Done,
    Stopped(PublisherStop),
}

// What the update goes by; L, the page that is superseded; T, the page that takes its place; T's bitmap byte as found; the new bytes.
#[derive(Clone, Copy)]
pub struct Publisher {
    pub kind: UpdateKind,
    pub stage: Stage,
    pub superseded: Page,
    pub target: Page,
    pub used: u8,
    pub new: [u8; 32],
}

// What a later call tells, and the state after it.
pub type Turn = Stepped<Result<Next<(Page, Page)>, Refusal>, Publisher>;

// ---- the start

// T, by the placement.
fn target(memory: &Memory<'_>, placement: Placement, l: Page) -> Option<Page>
    ensures { result ≡ target_by placement (pages memory.now) (bytes memory.now) l.0 }
{
    match placement {
        Placement::LowestFree => chip_chain::free::lowest_free(memory, l),
    }
}

// L and T, or why there is no update.
#[tactic(auto, unfolding(crate::specs::Start::choice_of, crate::specs::Start::choice_walked, crate::specs::Start::choice_final, crate::specs::Start::choice_free, crate::specs::Start::found_choice))]
fn choose(
    memory: &Memory<'_>,
    placement: Placement,
    new: &[u8],
    page: Page,
) -> Result<(Page, Page), PublisherStop>
    ensures { result ≡ choice_of (pages memory.now) placement (bytes memory.now) new.now page.0 }
{
    if !layout::is_image(memory.image, memory.last) {
        return Err(PublisherStop::ImageLength);
    }
    if new.len() != 32 {
        return Err(PublisherStop::BufferLength);
    }
    if !layout::is_page(memory.last, page) {
        return Err(PublisherStop::PageNumber);
    }
    let l = match chip_chain::walk::walk(memory, page) {
        Verdict::Final(l, _) => l,
        Verdict::Loop => return Err(PublisherStop::Loop),
        Verdict::Outside(x) => return Err(PublisherStop::Outside(x)),
    };
    if !memory.page_bit(Field::DataProtection, l) {
        return Err(PublisherStop::DataProtected(l));
    }
    if !memory.page_bit(Field::RedirectionProtection, l) {
        return Err(PublisherStop::RedirectionProtected(l));
    }
    let t = target(memory, placement, l).ok_or(PublisherStop::NoFreePage)?;
    Ok((l, t))
}

// The byte with the bitmap bit of a page.
#[tactic(auto, unfolding(crate::specs::Start::bitmap_byte))]
fn bitmap_byte(memory: &Memory<'_>, t: Page) -> u8
    ensures { result ≡ bitmap_byte (pages memory.now) (bytes memory.now) t.0 }
{
    image::byte_at(
        memory.image,
        layout::status_index(memory.last, master_plan::bitmap_address(t)),
    )
}

fn kept(new: &[u8]) -> [u8; 32]
    ensures { result ≡ copied new.now (replicate 32 0) }
{
    let mut bytes = [0u8; 32];
    chip_memory::page::copy(new, &mut bytes);
    bytes
}

#[tactic(auto, unfolding(crate::specs::Start::ready))]
fn make_ready(memory: &Memory<'_>, kind: UpdateKind, new: &[u8], l: Page, t: Page) -> Publisher
    ensures { result ≡ ready (pages memory.now) kind (bytes memory.now) new.now l t }
{
    Publisher {
        kind,
        stage: Stage::Running(0, true),
        superseded: l,
        target: t,
        used: bitmap_byte(memory, t),
        new: kept(new),
    }
}

#[tactic(auto, unfolding(crate::specs::Start::stopped_by))]
fn make_stopped(kind: UpdateKind, stop: PublisherStop) -> Publisher
    ensures { result ≡ stopped_by kind stop }
{
    Publisher {
        kind,
        stage: Stage::Stopped(stop),
        superseded: Page(0),
        target: Page(0),
        used: 0,
        new: [0u8; 32],
    }
}

// The start reads the image and the new bytes, writes neither, and gives a state and no event.
// Refused, in every kind: 1, 10, 3, 4, 5, 20, 9, 8; the state then repeats that.
#[tactic(auto, unfolding(crate::specs::Start::choice_state))]
pub fn start(
    kind: UpdateKind,
    image: &[u8],
    new: &[u8],
    page: Page,
) -> Stepped<Result<(), Refusal>, Publisher>
    ensures answer { start_outcome result.answer ≡ publisher_answer 64 kind image.now new.now page.0 }
    ensures state { result.state ≡ publisher_state 64 kind image.now new.now page.0 }
{
    let memory = Memory {
        image,
        last: layout::DS2505,
    };
    match choose(&memory, kind.placement, new, page) {
        Ok((l, t)) => Stepped {
            answer: Ok(()),
            state: make_ready(&memory, kind, new, l, t),
        },
        Err(stop) => Stepped {
            answer: Err(Refusal::from(stop)),
            state: make_stopped(kind, stop),
        },
    }
}

// ---- a reply

// The last bit of what is judged: on, with no bit so far that differs; or what stops it.
#[tactic(auto, unfolding(crate::specs::Code::Turn::judged_last))]
fn judge_last(good: bool, stop: PublisherStop) -> Result<bool, PublisherStop>
    ensures { result ≡ judged_last good stop }
{
    if good { Ok(true) } else { Err(stop) }
}

// What a reply leads to: on, with whether the bits so far agree; or what stops it.
#[tactic(auto, unfolding(crate::specs::Code::Turn::judged_of, crate::specs::Code::Turn::judged_last))]
fn judge(wanted: Wanted, good: bool, reply: bool) -> Result<bool, PublisherStop>
    ensures { result ≡ judged_of wanted good reply }
{
    match wanted {
        Wanted::Anything => Ok(true),
        Wanted::Presence => judge_last(!reply, PublisherStop::NoPresence),
        Wanted::Bit(b) => Ok(good && b == reply),
        Wanted::LastCrcBit(b) => judge_last(good && b == reply, PublisherStop::Crc16),
        Wanted::LastBackBit(b) => judge_last(good && b == reply, PublisherStop::ReadBack),
    }
}

// ---- a later call

// Event number k of the state's plan, counted from 0.
#[tactic(auto, unfolding(crate::specs::Code::Turn::step_of))]
fn step_of(s: Publisher, k: u16) -> Step
    ensures { result ≡ step_of (plan_in s) k }
{
    master_plan::step_at(s.kind, s.superseded, s.target, s.used, s.new, k)
}

// What the reply that comes after k events has to be.
#[tactic(auto, unfolding(crate::specs::Code::Turn::wanted_of))]
fn wanted_of(s: Publisher, k: u16) -> Wanted
    ensures { result ≡ wanted_of (plan_in s) k }
{
    if k == 0 {
        Wanted::Anything
    } else {
        step_of(s, k - 1).wanted
    }
}

fn at_stage(s: Publisher, stage: Stage) -> Publisher
    ensures { result ≡ at_stage s stage }
{
    Publisher { stage, ..s }
}

// The end tells L and T.
fn published(s: Publisher) -> Result<Next<(Page, Page)>, Refusal>
    ensures { result ≡ Ok (End (s.superseded, s.target)) }
{
    Ok(Next::End((s.superseded, s.target)))
}

// The next event, or the end.
#[tactic(auto, unfolding(crate::specs::Code::Turn::gone_on))]
fn go_on(s: Publisher, k: u16, good: bool) -> Turn
    ensures { result ≡ gone_on (total_in s) (plan_in s) s k good }
{
    if k < kind::total(s.kind) {
        Stepped {
            answer: Ok(Next::Send(step_of(s, k).event)),
            state: at_stage(s, Stage::Running(k + 1, good)),
        }
    } else {
        Stepped {
            answer: published(s),
            state: at_stage(s, Stage::Done),
        }
    }
}

#[tactic(auto, unfolding(crate::specs::Code::Turn::turn_of, crate::specs::Code::Turn::judged_turn))]
fn turn(s: Publisher, reply: bool) -> Turn
    ensures { result ≡ turn_of (total_in s) (plan_in s) s s.stage reply }
{
    match s.stage {
        Stage::Running(k, good) => match judge(wanted_of(s, k), good, reply) {
            Ok(good) => go_on(s, k, good),
            Err(stop) => Stepped {
                answer: Err(Refusal::from(stop)),
                state: at_stage(s, Stage::Stopped(stop)),
            },
        },
        Stage::Done => Stepped {
            answer: published(s),
            state: s,
        },
        Stage::Stopped(stop) => Stepped {
            answer: Err(Refusal::from(stop)),
            state: s,
        },
    }
}

// ---- ranges

// A mode in which CRCs are read.
fn reads_crc(mode: WriteMode) -> bool
    ensures { result ≡ reads_crc mode }
{
    mode == WriteMode::Ordinary
}

// What a stopped state can hold: 5 with a number that is no page, 9 and 20 with a page, and 6 where CRCs are read.
fn stop_in_range(mode: WriteMode, last: Page, stop: PublisherStop) -> bool
    ensures { result ≡ stop_in_range mode (page_count last) stop }
{
    match stop {
        PublisherStop::Outside(x) => !layout::is_page(last, Page(x)),
        PublisherStop::Crc16 => reads_crc(mode),
        PublisherStop::RedirectionProtected(l) | PublisherStop::DataProtected(l) => {
            layout::is_page(last, l)
        }
        PublisherStop::ImageLength
        | PublisherStop::PageNumber
        | PublisherStop::Loop
        | PublisherStop::ReadBack
        | PublisherStop::NoFreePage
        | PublisherStop::BufferLength
        | PublisherStop::NoPresence => true,
    }
}

fn stage_in_range(kind: UpdateKind, last: Page, stage: Stage) -> bool
    ensures { result ≡ stage_in_range kind (page_count last) stage }
{
    match stage {
        Stage::Running(k, _) => k <= kind::total(kind),
        Stage::Done => true,
        Stage::Stopped(stop) => stop_in_range(kind.mode, last, stop),
    }
}

// Whether a state is within its ranges; one that is not draws 2.
#[tactic(auto, unfolding(crate::specs::Call::publisher_in_range))]
pub fn in_range(last: Page, s: Publisher) -> bool
    ensures { result ≡ publisher_in_range (page_count last) s }
{
    layout::is_page(last, s.superseded)
        && layout::is_page(last, s.target)
        && stage_in_range(s.kind, last, s.stage)
}

// A later call takes the reply to the last event and gives the next one, or L and T, or a refusal; an end repeats when asked again.
// Refused: 2, with the same state; 13, 6 (in the ordinary mode only), 7, with the stopped state.
#[tactic(auto, unfolding(crate::specs::Call::call_answer, crate::specs::Call::call_state))]
pub fn call(
    state: Publisher,
    reply: bool,
) -> Stepped<Result<Next<(Page, Page)>, Refusal>, Publisher>
    ensures answer { turn_outcome result.answer ≡ call_answer 64 state reply }
    ensures state { result.state ≡ call_state 64 state reply }
{
    if !in_range(layout::DS2505, state) {
        return Stepped {
            answer: Err(Refusal::StateRange),
            state,
        };
    }
    turn(state, reply)
}
