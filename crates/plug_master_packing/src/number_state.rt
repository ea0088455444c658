// The number read's state as 24 bytes: specs/Number.antt has the layout.
ghost use Rattle.std.specs.Prelude.{◌≡◌, true, []};
ghost use Rattle.base_types.specs.Outcome.{outcome_of};
ghost use Rattle.plug_fields.specs.Fields.{front};
ghost use Rattle.plug_master_packing.specs.Number.{phase_bytes, number_stop_of, phase_of, number_bytes, number_read_of, is_number_state, number_judged};
ghost use Rattle.plug_master_packing.specs.Number.{number_packed, number_buffer};
ghost use Rattle.plug_master_packing.specs.Code.Number.{stop_own, phase_own};

use base_types::refusal::Refusal;
use base_types::stepped::Stepped;
use master_number::{NumberRead, NumberStop, Phase};
use plug_fields::{padded, zeros};

#[tactic(auto, unfolding(crate::specs::Number::phase_bytes))]
fn front_of(phase: Phase) -> [u8; 16]
    ensures { result ≡ front 8 (phase_bytes phase) [] }
{
    match phase {
        Phase::Begin => [0; 16],
        Phase::Presence => padded(&[1]),
        Phase::Command(i) => padded(&[2, i]),
        Phase::Receive(k, left, x) => padded(&[3, k, left, x]),
        Phase::Closing => padded(&[4]),
        Phase::Done => padded(&[5]),
        Phase::Stopped(cause) => {
            let [number, value] = plug_fields::refusal_bytes(Refusal::from(cause));
            padded(&[6, number, value])
        }
    }
}

// What stopped a read, by the number told (another number counts as 13), and whether the number and the value are its own.
#[tactic(auto, unfolding(crate::specs::Code::Number::stop_own, crate::specs::Number::number_stop_of, plug_fields::specs::Fields::value_of))]
fn stop_of(number: u8, value: u8) -> (NumberStop, bool)
    ensures stop { result.0 ≡ number_stop_of number }
    ensures own { result.1 ≡ stop_own number value }
{
    match number {
        13 => (NumberStop::NoPresence, value == 0),
        14 => (NumberStop::Crc8, value == 0),
        15 => (NumberStop::Family, value == 0),
        _ => (NumberStop::NoPresence, false),
    }
}

// The phase of any bytes (a tag that is that of none counts as another one), and whether its eight bytes are its own.
#[tactic(auto, using(crate::proofs::Number::phase_rows), unfolding(crate::specs::Number::phase_of))]
fn phase_of(b: &[u8; 24]) -> (Phase, bool)
    ensures phase { result.0 ≡ phase_of b.now }
    ensures own { result.1 ≡ phase_own b.now }
{
    match b[0] {
        0 => (Phase::Begin, zeros(b, 1, 8)),
        1 => (Phase::Presence, zeros(b, 1, 8)),
        2 => (Phase::Command(b[1]), zeros(b, 2, 8)),
        3 => (Phase::Receive(b[1], b[2], b[3]), zeros(b, 4, 8)),
        4 => (Phase::Closing, zeros(b, 1, 8)),
        5 => (Phase::Done, zeros(b, 1, 8)),
        6 => {
            let (stop, own) = stop_of(b[1], b[2]);
            (Phase::Stopped(stop), own && zeros(b, 3, 8))
        }
        _ => (Phase::Begin, false),
    }
}

// ---- the entries

// The state of 24 bytes, and of any others. Refused: 2 for bytes of another length and for bytes that are those of no state. A state out
// of its ranges is no matter here: the number read refuses it.
#[tactic(auto, using(crate::proofs::Number::state_rows), unfolding(crate::specs::Number::number_judged))]
pub fn unpack(bytes: &[u8]) -> Stepped<Result<(), Refusal>, NumberRead>
    ensures judged { outcome_of result.answer ≡ number_judged bytes.now }
    ensures state { result.state ≡ number_read_of bytes.now }
{
    let Ok(b) = <&[u8; 24]>::try_from(bytes) else {
        return Stepped {
            answer: Err(Refusal::StateRange),
            state: NumberRead {
                phase: Phase::Begin,
                bytes: [0; 8],
            },
        };
    };
    let (phase, own) = phase_of(b);
    let state = NumberRead {
        phase,
        bytes: plug_fields::rest_of(b),
    };
    let all = own && zeros(b, 8, 16);
    Stepped {
        answer: all.then_some(()).ok_or(Refusal::StateRange),
        state,
    }
}

// A state into a buffer of 24 bytes. Refused: 10. What is left there holds that state and is accepted by unpack.
#[tactic(auto, using(crate::proofs::Number::number_back, crate::proofs::Number::number_kept), unfolding(crate::specs::Number::number_packed, crate::specs::Number::number_buffer, crate::specs::Number::number_bytes))]
pub fn pack(state: NumberRead, bytes: &mut [u8]) -> Result<(), Refusal>
    ensures answer { outcome_of result ≡ number_packed bytes.old }
    ensures bytes { bytes.new ≡ number_buffer state bytes.old }
    ensures back { number_read_of (number_bytes state) ≡ state }
    ensures kept { is_number_state (number_bytes state) ≡ true }
{
    // By a name of its own: a loan of a part of the state copies the whole.
    let received = state.bytes;
    plug_fields::put(front_of(state.phase), &received, bytes)
}
