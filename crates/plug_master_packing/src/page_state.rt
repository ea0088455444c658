// The page read's state as 48 bytes: specs/Page.antt has the layout.
ghost use Rattle.std.specs.Prelude.{◌≡◌, true, []};
ghost use Rattle.base_types.specs.Outcome.{outcome_of};
ghost use Rattle.plug_fields.specs.Fields.{front};
ghost use Rattle.plug_master_packing.specs.Page.{phase_bytes, part_of, page_stop_of, phase_of, page_read_bytes, page_read_of, is_page_state, page_judged};
ghost use Rattle.plug_master_packing.specs.Page.{page_packed, page_buffer};
ghost use Rattle.plug_master_packing.specs.Code.Page.{part_own, stop_own, phase_own};

use base_types::address::{Page, Redirection};
use base_types::refusal::Refusal;
use base_types::stepped::Stepped;
use master_page::{PageRead, PageStop, Part, Phase};
use plug_fields::{join, padded, word, zeros};

#[tactic(auto, unfolding(crate::specs::Page::phase_bytes, crate::specs::Page::part_bytes))]
fn front_of(phase: Phase) -> [u8; 16]
    ensures { result ≡ front 8 (phase_bytes phase) [] }
{
    match phase {
        Phase::Begin => [0; 16],
        Phase::Presence => padded(&[1]),
        Phase::Command(i) => padded(&[2, i]),
        Phase::Receive(part, left, register) => {
            let [l, h] = word(register);
            match part {
                Part::Redirection => padded(&[3, left, l, h]),
                Part::RedirectionCrc(b) => padded(&[3, left, l, h, 1, b.0]),
                Part::Data(k) => padded(&[3, left, l, h, 2, k]),
                Part::DataCrc => padded(&[3, left, l, h, 3]),
            }
        }
        Phase::Closing => padded(&[4]),
        Phase::Done => padded(&[5]),
        Phase::Stopped(cause) => {
            let [number, value] = plug_fields::refusal_bytes(Refusal::from(cause));
            padded(&[6, number, value])
        }
    }
}

// What stopped a read, by the number told and its value (another number counts as 13), and whether both are its own.
#[tactic(auto, unfolding(crate::specs::Code::Page::stop_own, crate::specs::Page::page_stop_of, plug_fields::specs::Fields::value_of))]
fn stop_of(number: u8, value: u8) -> (PageStop, bool)
    ensures stop { result.0 ≡ page_stop_of number value }
    ensures own { result.1 ≡ stop_own number value }
{
    match number {
        3 => (PageStop::PageNumber, value == 0),
        4 => (PageStop::Loop, value == 0),
        5 => (PageStop::Outside(value), true),
        6 => (PageStop::Crc16, value == 0),
        13 => (PageStop::NoPresence, value == 0),
        _ => (PageStop::NoPresence, false),
    }
}

// The part and the phase of any bytes (a tag that is that of none counts as another one), each with whether the bytes from its place to
// the end of the phase's eight are its own.
#[tactic(auto, using(crate::proofs::Page::part_rows), unfolding(crate::specs::Page::part_of))]
fn part_of(b: &[u8; 48]) -> (Part, bool)
    ensures part { result.0 ≡ part_of b.now }
    ensures own { result.1 ≡ part_own b.now }
{
    match b[4] {
        0 => (Part::Redirection, zeros(b, 5, 8)),
        1 => (Part::RedirectionCrc(Redirection(b[5])), zeros(b, 6, 8)),
        2 => (Part::Data(b[5]), zeros(b, 6, 8)),
        3 => (Part::DataCrc, zeros(b, 5, 8)),
        _ => (Part::DataCrc, false),
    }
}

#[tactic(auto, using(crate::proofs::Page::phase_rows), unfolding(crate::specs::Page::phase_of))]
fn phase_of(b: &[u8; 48]) -> (Phase, bool)
    ensures phase { result.0 ≡ phase_of b.now }
    ensures own { result.1 ≡ phase_own b.now }
{
    match b[0] {
        0 => (Phase::Begin, zeros(b, 1, 8)),
        1 => (Phase::Presence, zeros(b, 1, 8)),
        2 => (Phase::Command(b[1]), zeros(b, 2, 8)),
        3 => {
            let (part, own) = part_of(b);
            (Phase::Receive(part, b[1], join(b[2], b[3])), own)
        }
        4 => (Phase::Closing, zeros(b, 1, 8)),
        5 => (Phase::Done, zeros(b, 1, 8)),
        6 => {
            let (stop, own) = stop_of(b[1], b[2]);
            (Phase::Stopped(stop), own && zeros(b, 3, 8))
        }
        _ => (Phase::Begin, false),
    }
}

// ---- the entries

// The state of 48 bytes, and of any others. Refused: 2 for bytes of another length and for bytes that are those of no state. A state out
// of its ranges is no matter here: the page read refuses it.
#[tactic(auto, using(crate::proofs::Page::state_rows), unfolding(crate::specs::Page::page_judged))]
pub fn unpack(bytes: &[u8]) -> Stepped<Result<(), Refusal>, PageRead>
    ensures judged { outcome_of result.answer ≡ page_judged bytes.now }
    ensures state { result.state ≡ page_read_of bytes.now }
{
    let Ok(b) = <&[u8; 48]>::try_from(bytes) else {
        return Stepped {
            answer: Err(Refusal::StateRange),
            state: PageRead {
                phase: Phase::Begin,
                page: Page(0),
                hops: 0,
                bytes: [0; 32],
            },
        };
    };
    let (phase, own) = phase_of(b);
    let state = PageRead {
        phase,
        page: Page(b[8]),
        hops: b[9],
        bytes: plug_fields::rest_of(b),
    };
    let all = own && zeros(b, 10, 16);
    Stepped {
        answer: all.then_some(()).ok_or(Refusal::StateRange),
        state,
    }
}

// A state into a buffer of 48 bytes. Refused: 10. What is left there holds that state and is accepted by unpack.
#[tactic(auto, using(crate::proofs::Page::page_back, crate::proofs::Page::page_kept), unfolding(crate::specs::Page::page_packed, crate::specs::Page::page_buffer, crate::specs::Page::page_read_bytes))]
pub fn pack(state: PageRead, bytes: &mut [u8]) -> Result<(), Refusal>
    ensures answer { outcome_of result ≡ page_packed bytes.old }
    ensures bytes { bytes.new ≡ page_buffer state bytes.old }
    ensures back { page_read_of (page_read_bytes state) ≡ state }
    ensures kept { is_page_state (page_read_bytes state) ≡ true }
{
    let mut front = front_of(state.phase);
    front[8] = state.page.0;
    front[9] = state.hops;
    // By a name of its own: a loan of a part of the state copies the whole.
    let received = state.bytes;
    plug_fields::put(front, &received, bytes)
}
