// The number read: a master that reads a chip's registration number. Reset, 33h, 64 read slots, closing reset.
// The state says which event was last sent, so a call's answer is a function of the state that the reply leads to.
#![tactic(auto)]

ghost use Rattle.std.specs.Prelude.{◌≡◌, if◌then◌else◌};
ghost use Rattle.master_number.specs.Code.NumberSteps.{number_with, number_stopped, after_read_rom, crc_judged};
ghost use Rattle.master_number.specs.Code.NumberSteps.{number_stored, number_byte_in, number_bit_in, number_next, number_phase_answer};
ghost use Rattle.master_number.specs.Number.{crc_fits, family_fits, number_stop};
ghost use Rattle.master_number.specs.NumberRead.{number_receive_in_range, is_number, number_in_range, number_begun};
ghost use Rattle.master_number.specs.NumberRead.{number_outcome, number_answer, number_state};

use base_types::bits;
use base_types::refusal::Refusal;
use base_types::stepped::Stepped;
use bus_events::Next;

// What was last sent, and what its reply is for: nothing yet; the reset; bit i of the command; a read slot of byte k, with so many bits
// of the byte still out, itself included, and those that are in; the closing reset. Or the end.
#[derive(Clone, Copy, Debug, PartialEq, Eq)]
pub enum Phase {
    Begin,
    Presence,
    Command(u8),
    Receive(u8, u8, u8),
    Closing,
    Done,
    Stopped(NumberStop),
}

// What can stop a number read.
#[derive(Clone, Copy, Debug, PartialEq, Eq)]
pub enum NumberStop {
    NoPresence,
    Crc8,
    Family,
}

#[derive(Clone, Copy, Debug, PartialEq, Eq)]
pub struct NumberRead {
    pub phase: Phase,
    pub bytes: [u8; 8],
}

// The refusal that a stopped read tells.
impl From<NumberStop> for Refusal {
    ghost from_gives = { λ cause refusal. refusal ≡ number_stop cause };

    fn from(cause: NumberStop) -> Refusal {
        match cause {
            NumberStop::NoPresence => Refusal::NoPresence,
            NumberStop::Crc8 => Refusal::Crc8,
            NumberStop::Family => Refusal::Family,
        }
    }
}

// ---- what a reply does

#[tactic(auto, unfolding(crate::specs::Code::NumberSteps::after_read_rom))]
fn after_command(i: u8) -> Phase
    ensures { result ≡ after_read_rom i }
{
    if i < 7 {
        Phase::Command(i + 1)
    } else {
        Phase::Receive(0, 8, 0)
    }
}

// The last byte is the CRC-8 of the others.
fn crc_agrees(bytes: &[u8; 8]) -> bool
    ensures { result ≡ crc_fits bytes.now }
{
    bytes[7] == base_crc::crc8::of(&bytes[..7])
}

fn is_family(bytes: &[u8; 8]) -> bool
    ensures { result ≡ family_fits bytes.now }
{
    bytes[0] == 0x0B
}

// What a reply does to a state, and what is told on the way into one.
impl NumberRead {
    fn with_phase(self, phase: Phase) -> NumberRead
        ensures { result ≡ number_with self phase }
    {
        NumberRead { phase, ..self }
    }

    fn stop(self, cause: NumberStop) -> NumberRead
        ensures { result ≡ number_stopped self cause }
    {
        self.with_phase(Phase::Stopped(cause))
    }

    // The reply to a reset; with presence the read goes on.
    fn present(self, reply: bool, next: Phase) -> NumberRead
        ensures { result ≡ (if reply then number_stopped self NumberStop.NoPresence else number_with self next) }
    {
        if reply {
            self.stop(NumberStop::NoPresence)
        } else {
            self.with_phase(next)
        }
    }

    // All 64 bits are in; the CRC-8 is judged before the family.
    #[tactic(auto, unfolding(crate::specs::Code::NumberSteps::crc_judged, crate::specs::Code::NumberSteps::family_judged))]
    fn judge(self) -> NumberRead
        ensures { result ≡ crc_judged self }
    {
        if !crc_agrees(&self.bytes) {
            self.stop(NumberStop::Crc8)
        } else if !is_family(&self.bytes) {
            self.stop(NumberStop::Family)
        } else {
            self.with_phase(Phase::Closing)
        }
    }

    // By index, since a proof knows nothing of what is written through `get_mut` of an array.
    fn keep(mut self, k: u8, v: u8) -> NumberRead
        ensures { result ≡ number_stored self k v }
    {
        let i = k as usize;
        if i < self.bytes.len() {
            self.bytes[i] = v;
        }
        self
    }

    // Byte k is in.
    #[tactic(auto, unfolding(crate::specs::Code::NumberSteps::number_byte_in))]
    fn byte_in(self, k: u8) -> NumberRead
        ensures { result ≡ number_byte_in self k }
    {
        if k < 7 {
            self.with_phase(Phase::Receive(k + 1, 8, 0))
        } else {
            self.judge()
        }
    }

    // One bit of byte k is in, and the register holds v.
    #[tactic(auto, unfolding(crate::specs::Code::NumberSteps::number_bit_in))]
    fn bit_in(self, k: u8, left: u8, v: u8) -> NumberRead
        ensures { result ≡ number_bit_in self k left v }
    {
        if 1 < left {
            self.with_phase(Phase::Receive(k, left - 1, v))
        } else {
            self.keep(k, v).byte_in(k)
        }
    }

    #[tactic(auto, unfolding(crate::specs::Code::NumberSteps::number_next_at, crate::specs::Code::NumberSteps::number_presence, crate::specs::Code::NumberSteps::number_closed))]
    fn take(self, reply: bool) -> NumberRead
        ensures { result ≡ number_next self reply }
    {
        match self.phase {
            Phase::Begin => self.with_phase(Phase::Presence),
            Phase::Presence => self.present(reply, Phase::Command(0)),
            Phase::Command(i) => self.with_phase(after_command(i)),
            Phase::Receive(k, left, v) => self.bit_in(k, left, bits::shift_in(v, reply)),
            Phase::Closing => self.present(reply, Phase::Done),
            Phase::Done | Phase::Stopped(_) => self,
        }
    }

    // The end hands over the number.
    #[tactic(auto, unfolding(crate::specs::Code::NumberSteps::number_phase_answer))]
    fn answer(self) -> Result<Next<[u8; 8]>, Refusal>
        ensures { result ≡ number_phase_answer self.phase self.bytes }
    {
        match self.phase {
            Phase::Begin | Phase::Presence | Phase::Closing => Ok(Next::Send(bus_events::reset())),
            Phase::Command(i) => Ok(Next::Send(bus_events::slot(bits::at(0x33, i)))),
            Phase::Receive(..) => Ok(Next::Send(bus_events::read_slot())),
            Phase::Done => Ok(Next::End(self.bytes)),
            Phase::Stopped(cause) => Err(Refusal::from(cause)),
        }
    }
}

// ---- ranges

#[tactic(auto, unfolding(crate::specs::NumberRead::number_receive_in_range))]
fn receive_in_range(k: u8, left: u8) -> bool
    ensures { result ≡ number_receive_in_range k left }
{
    1 <= left && left <= 8 && k < 8
}

// The bytes are a number that the read accepts.
#[tactic(auto, unfolding(crate::specs::NumberRead::is_number))]
fn is_number(bytes: &[u8; 8]) -> bool
    ensures { result ≡ is_number bytes.now }
{
    crc_agrees(bytes) && is_family(bytes)
}

// Whether a state is within its ranges; one that is not draws 2.
#[tactic(auto, unfolding(crate::specs::NumberRead::number_phase_in_range))]
pub fn in_range(s: NumberRead) -> bool
    ensures { result ≡ number_in_range s }
{
    match s.phase {
        Phase::Begin | Phase::Presence | Phase::Stopped(_) => true,
        Phase::Command(i) => i < 8,
        Phase::Receive(k, left, _) => receive_in_range(k, left),
        Phase::Closing | Phase::Done => is_number(&s.bytes),
    }
}

// ---- the calls

// The start gives a state and no event.
pub fn start() -> NumberRead
    ensures { result ≡ number_begun }
{
    NumberRead {
        phase: Phase::Begin,
        bytes: [0u8; 8],
    }
}

// A later call takes the reply to the last event and gives the next one, or an end, which it repeats when asked again.
// Refused: 2, with the same state; 13, 14, 15, with the stopped state.
#[tactic(auto, unfolding(crate::specs::NumberRead::number_answer, crate::specs::NumberRead::number_state))]
pub fn call(state: NumberRead, reply: bool) -> Stepped<Result<Next<[u8; 8]>, Refusal>, NumberRead>
    ensures answer { number_outcome result ≡ number_answer state reply }
    ensures state { result.state ≡ number_state state reply }
{
    if !in_range(state) {
        return Stepped {
            answer: Err(Refusal::StateRange),
            state,
        };
    }
    let state = state.take(reply);
    Stepped {
        answer: state.answer(),
        state,
    }
}
