// The page read: a master that follows the redirection bytes to the final page and reads its 32 bytes.
// For each visited page: reset, CCh, A5h, the address 32p, redirection byte, CRC. At FFh: data, CRC, closing reset.
// The state says which event was last sent, so a call's answer is a function of the state that the reply leads to. A CRC is computed
// from the bytes as received when its last bit is in. A chip is known by its last page, 63 for the DS2505.
#![tactic(auto)]

ghost use Rattle.std.specs.Prelude.{if◌then◌else◌, [], ◌∷◌, ◌++◌, ◌≡◌, ◌*◌};
ghost use Rattle.chip_memory.specs.Layout.{page_count};
ghost use Rattle.master_page.specs.Page.{address_low, address_high, command_bytes, crc_sent, page_stop};
ghost use Rattle.master_page.specs.Code.PageSteps.{command_byte, command_bit, word_shift_in, page_with, page_stopped, after_extended_read};
ghost use Rattle.master_page.specs.Code.PageSteps.{hopped, page_named, byte_followed, redirection_judged, next_data, page_stored, data_judged, part_in};
ghost use Rattle.master_page.specs.Code.PageSteps.{page_bit_in, page_next, page_phase_answer};
ghost use Rattle.master_page.specs.PageRead.{part_in_range, part_width, page_receive_in_range, page_phase_in_range, page_in_range, page_begun};
ghost use Rattle.master_page.specs.PageRead.{start_outcome, start_answer, start_state, read_outcome, read_answer, read_state, read_buffer};

use base_types::address::{DataAddress, Page, Redirection};
use base_types::bits;
use base_types::refusal::Refusal;
use base_types::stepped::Stepped;
use bus_events::Next;
use chip_memory::layout;

// What is being received: a redirection byte, its CRC, byte k of the page, the page's CRC.
#[derive(Clone, Copy, Debug, PartialEq, Eq)]
pub enum Part {
    Redirection,
    RedirectionCrc(Redirection),
    Data(u8),
    DataCrc,
}

// What was last sent, and what its reply is for: nothing yet; the reset before a command; bit i of the command; a read slot, with so
// many bits of its part still out, itself included, and those that are in; the closing reset. Or the end.
#[derive(Clone, Copy, Debug, PartialEq, Eq)]
pub enum Phase {
    Begin,
    Presence,
    Command(u8),
    Receive(Part, u8, u16),
    Closing,
    Done,
    Stopped(PageStop),
}

// What can stop a page read. The number outside is above the last page.
#[derive(Clone, Copy, Debug, PartialEq, Eq)]
pub enum PageStop {
    PageNumber,
    Loop,
    Outside(u8),
    Crc16,
    NoPresence,
}

// The page being visited, the hops made to it, and the bytes that have come in of the final page.
#[derive(Clone, Copy, Debug, PartialEq, Eq)]
pub struct PageRead {
    pub phase: Phase,
    pub page: Page,
    pub hops: u8,
    pub bytes: [u8; 32],
}

// The refusal that a stopped read tells.
impl From<PageStop> for Refusal {
    ghost from_gives = { λ cause refusal. refusal ≡ page_stop cause };

    fn from(cause: PageStop) -> Refusal {
        match cause {
            PageStop::PageNumber => Refusal::PageNumber,
            PageStop::Loop => Refusal::Loop,
            PageStop::Outside(x) => Refusal::Outside(x),
            PageStop::Crc16 => Refusal::Crc16,
            PageStop::NoPresence => Refusal::NoPresence,
        }
    }
}

// ---- what is sent

// The two bytes of the address of a page's first byte, as they are sent.
fn address_bytes(p: Page) -> [u8; 2]
    ensures { result ≡ address_low (32 * p.0) ∷ address_high (32 * p.0) ∷ [] }
{
    let address = DataAddress(32 * u16::from(p.0));
    address.0.to_le_bytes()
}

#[tactic(auto, unfolding(crate::specs::Code::PageSteps::command_byte))]
fn command_byte(p: Page, k: u8) -> u8
    ensures { result ≡ command_byte p.0 k }
{
    let [low, high] = address_bytes(p);
    match k {
        0 => 0xCC,
        1 => 0xA5,
        2 => low,
        _ => high,
    }
}

#[tactic(auto, unfolding(crate::specs::Code::PageSteps::command_bit))]
fn command_bit(p: Page, i: u8) -> bool
    ensures { result ≡ command_bit p.0 i }
{
    bits::at(command_byte(p, i >> 3), i)
}

// The CRC that follows the redirection byte of page p, as it is sent.
fn redirection_crc(p: Page, b: Redirection) -> u16
    ensures { result ≡ crc_sent (command_bytes p.0 ++ (b.0 ∷ [])) }
{
    let [low, high] = address_bytes(p);
    base_crc::crc16::word(base_crc::crc16::of(&[0xA5, low, high, b.0]))
}

// The one that follows a page's bytes.
fn data_crc(bytes: &[u8; 32]) -> u16
    ensures { result ≡ crc_sent bytes.now }
{
    base_crc::crc16::word(chip_memory::page::crc(bytes))
}

// ---- what a reply does

// The register that collects what is received: the newest bit on top.
fn shift_in(v: u16, bit: bool) -> u16
    ensures { result ≡ word_shift_in v bit }
{
    if bit { (v >> 1) | 0x8000 } else { v >> 1 }
}

#[tactic(auto, unfolding(crate::specs::Code::PageSteps::after_extended_read))]
fn after_command(i: u8) -> Phase
    ensures { result ≡ after_extended_read i }
{
    if i < 31 {
        Phase::Command(i + 1)
    } else {
        Phase::Receive(Part::Redirection, 8, 0)
    }
}

#[tactic(auto, unfolding(crate::specs::Code::PageSteps::next_data))]
fn next_data(k: u8) -> Phase
    ensures { result ≡ next_data k }
{
    if k < 31 {
        Phase::Receive(Part::Data(k + 1), 8, 0)
    } else {
        Phase::Receive(Part::DataCrc, 16, 0)
    }
}

// What a reply does to a state, and what is told on the way into one.
impl PageRead {
    fn with_phase(self, phase: Phase) -> PageRead
        ensures { result ≡ page_with self phase }
    {
        PageRead { phase, ..self }
    }

    fn stop(self, cause: PageStop) -> PageRead
        ensures { result ≡ page_stopped self cause }
    {
        self.with_phase(Phase::Stopped(cause))
    }

    // The reply to a reset; with presence the read goes on.
    fn present(self, reply: bool, next: Phase) -> PageRead
        ensures { result ≡ (if reply then page_stopped self PageStop.NoPresence else page_with self next) }
    {
        if reply {
            self.stop(PageStop::NoPresence)
        } else {
            self.with_phase(next)
        }
    }

    // On to page x; but as many hops as there are other pages are the last.
    #[tactic(auto, unfolding(crate::specs::Code::PageSteps::hopped))]
    fn hop(self, last: Page, x: Page) -> PageRead
        ensures { result ≡ hopped (page_count last) self x.0 }
    {
        if self.hops < last.0 {
            PageRead {
                phase: Phase::Presence,
                page: x,
                hops: self.hops + 1,
                ..self
            }
        } else {
            self.stop(PageStop::Loop)
        }
    }

    #[tactic(auto, unfolding(crate::specs::Code::PageSteps::page_named))]
    fn go_on(self, last: Page, x: Page) -> PageRead
        ensures { result ≡ page_named (page_count last) self x.0 }
    {
        if layout::is_page(last, x) {
            self.hop(last, x)
        } else {
            self.stop(PageStop::Outside(x.0))
        }
    }

    // A redirection byte whose CRC agreed.
    #[tactic(auto, unfolding(crate::specs::Code::PageSteps::byte_followed))]
    fn follow(self, last: Page, b: Redirection) -> PageRead
        ensures { result ≡ byte_followed (page_count last) self b.0 }
    {
        if b.0 == 0xFF {
            self.with_phase(Phase::Receive(Part::Data(0), 8, 0))
        } else {
            self.go_on(last, chip_chain::walk::named_by(b))
        }
    }

    #[tactic(auto, unfolding(crate::specs::Code::PageSteps::redirection_judged))]
    fn judge(self, last: Page, b: Redirection, v: u16) -> PageRead
        ensures { result ≡ redirection_judged (page_count last) self b.0 v }
    {
        if v == redirection_crc(self.page, b) {
            self.follow(last, b)
        } else {
            self.stop(PageStop::Crc16)
        }
    }

    // By index, since a proof knows nothing of what is written through `get_mut` of an array.
    fn keep(mut self, k: u8, v: u8) -> PageRead
        ensures { result ≡ page_stored self k v }
    {
        let i = k as usize;
        if i < self.bytes.len() {
            self.bytes[i] = v;
        }
        self.with_phase(next_data(k))
    }

    #[tactic(auto, unfolding(crate::specs::Code::PageSteps::data_judged))]
    fn judge_data(self, v: u16) -> PageRead
        ensures { result ≡ data_judged self v }
    {
        if v == data_crc(&self.bytes) {
            self.with_phase(Phase::Closing)
        } else {
            self.stop(PageStop::Crc16)
        }
    }

    // All bits of a part are in. Those of a byte stand in the register's high half.
    #[tactic(auto, unfolding(crate::specs::Code::PageSteps::part_in))]
    fn part_in(self, last: Page, part: Part, v: u16) -> PageRead
        ensures { result ≡ part_in (page_count last) self part v }
    {
        let [_, byte] = v.to_le_bytes();
        match part {
            Part::Redirection => {
                let crc = Part::RedirectionCrc(Redirection(byte));
                self.with_phase(Phase::Receive(crc, 16, 0))
            }
            Part::RedirectionCrc(b) => self.judge(last, b, v),
            Part::Data(k) => self.keep(k, byte),
            Part::DataCrc => self.judge_data(v),
        }
    }

    #[tactic(auto, unfolding(crate::specs::Code::PageSteps::page_bit_in))]
    fn bit_in(self, last: Page, part: Part, left: u8, v: u16) -> PageRead
        ensures { result ≡ page_bit_in (page_count last) self part left v }
    {
        if 1 < left {
            self.with_phase(Phase::Receive(part, left - 1, v))
        } else {
            self.part_in(last, part, v)
        }
    }

    #[tactic(auto, unfolding(crate::specs::Code::PageSteps::page_next_at, crate::specs::Code::PageSteps::page_presence, crate::specs::Code::PageSteps::page_closed))]
    fn take(self, last: Page, reply: bool) -> PageRead
        ensures { result ≡ page_next (page_count last) self reply }
    {
        match self.phase {
            Phase::Begin => self.with_phase(Phase::Presence),
            Phase::Presence => self.present(reply, Phase::Command(0)),
            Phase::Command(i) => self.with_phase(after_command(i)),
            Phase::Receive(part, left, v) => self.bit_in(last, part, left, shift_in(v, reply)),
            Phase::Closing => self.present(reply, Phase::Done),
            Phase::Done | Phase::Stopped(_) => self,
        }
    }

    // The end hands over the page and the hops.
    #[tactic(auto, unfolding(crate::specs::Code::PageSteps::page_phase_answer))]
    fn answer(self) -> Result<Next<(Page, u8)>, Refusal>
        ensures { result ≡ page_phase_answer self.phase self.page self.hops }
    {
        match self.phase {
            Phase::Begin | Phase::Presence | Phase::Closing => Ok(Next::Send(bus_events::reset())),
            Phase::Command(i) => Ok(Next::Send(bus_events::slot(command_bit(self.page, i)))),
            Phase::Receive(..) => Ok(Next::Send(bus_events::read_slot())),
            Phase::Done => Ok(Next::End((self.page, self.hops))),
            Phase::Stopped(cause) => Err(Refusal::from(cause)),
        }
    }
}

// ---- ranges

fn part_in_range(part: Part) -> bool
    ensures { result ≡ part_in_range part }
{
    match part {
        Part::Redirection | Part::RedirectionCrc(_) | Part::DataCrc => true,
        Part::Data(k) => k < 32,
    }
}

// How many bits a part has.
fn width(part: Part) -> u8
    ensures { result ≡ part_width part }
{
    match part {
        Part::Redirection | Part::Data(_) => 8,
        Part::RedirectionCrc(_) | Part::DataCrc => 16,
    }
}

#[tactic(auto, unfolding(crate::specs::PageRead::page_receive_in_range))]
fn receive_in_range(part: Part, left: u8) -> bool
    ensures { result ≡ page_receive_in_range part left }
{
    1 <= left && left <= width(part) && part_in_range(part)
}

#[tactic(auto, unfolding(crate::specs::PageRead::page_phase_in_range, crate::specs::PageRead::page_stop_in_range))]
fn phase_in_range(last: Page, phase: Phase) -> bool
    ensures { result ≡ page_phase_in_range (page_count last) phase }
{
    match phase {
        Phase::Begin | Phase::Presence | Phase::Closing | Phase::Done => true,
        Phase::Command(i) => i < 32,
        Phase::Receive(part, left, _) => receive_in_range(part, left),
        Phase::Stopped(PageStop::Outside(x)) => !layout::is_page(last, Page(x)),
        Phase::Stopped(_) => true,
    }
}

// Whether a state is within its ranges; one that is not draws 2.
#[tactic(auto, unfolding(crate::specs::PageRead::page_in_range))]
pub fn in_range(last: Page, s: PageRead) -> bool
    ensures { result ≡ page_in_range (page_count last) s }
{
    layout::is_page(last, s.page) && s.hops <= last.0 && phase_in_range(last, s.phase)
}

// ---- the calls

#[tactic(auto, unfolding(crate::specs::PageRead::page_begun))]
fn begun(page: Page) -> PageRead
    ensures { result ≡ page_begun page.0 }
{
    PageRead {
        phase: Phase::Begin,
        page,
        hops: 0,
        bytes: [0u8; 32],
    }
}

// The start takes the page alone and gives a state and no event. Refused: 3; the state then repeats that.
#[tactic(auto, unfolding(crate::specs::PageRead::page_begun, crate::specs::PageRead::refused_start, crate::specs::PageRead::start_answer, crate::specs::PageRead::start_state))]
pub fn start(page: Page) -> Stepped<Result<(), Refusal>, PageRead>
    ensures answer { start_outcome result.answer ≡ start_answer 64 page.0 }
    ensures state { result.state ≡ start_state 64 page.0 }
{
    if !layout::is_page(layout::DS2505, page) {
        return Stepped {
            answer: Err(Refusal::PageNumber),
            state: begun(Page(0)).stop(PageStop::PageNumber),
        };
    }
    Stepped {
        answer: Ok(()),
        state: begun(page),
    }
}

// A later call takes the reply to the last event and gives the next one, or an end, which it repeats when asked again. The buffer is
// written in the one call that first tells Final: after the closing reset, with presence. Refused: 2 and 10, with the same state;
// 13, 6, 4, 5, with the stopped state.
#[tactic(auto, unfolding(crate::specs::PageRead::read_answer, crate::specs::PageRead::read_state, crate::specs::PageRead::read_buffer))]
pub fn call(
    state: PageRead,
    reply: bool,
    buffer: &mut [u8],
) -> Stepped<Result<Next<(Page, u8)>, Refusal>, PageRead>
    ensures answer { read_outcome result.answer ≡ read_answer 64 state reply buffer.old }
    ensures state { result.state ≡ read_state 64 state reply buffer.old }
    ensures buffer { buffer.new ≡ read_buffer 64 state reply buffer.old }
{
    if !in_range(layout::DS2505, state) {
        return Stepped {
            answer: Err(Refusal::StateRange),
            state,
        };
    }
    if buffer.len() != 32 {
        return Stepped {
            answer: Err(Refusal::BufferLength),
            state,
        };
    }
    if matches!(state.phase, Phase::Closing) && !reply {
        chip_memory::page::copy(&state.bytes, buffer);
    }
    let state = state.take(layout::DS2505, reply);
    Stepped {
        answer: state.answer(),
        state,
    }
}
