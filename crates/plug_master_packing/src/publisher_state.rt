// The publisher's state as 48 bytes: specs/Publisher.antt has the layout.
ghost use Rattle.std.specs.Prelude.{◌≡◌, true, []};
ghost use Rattle.base_types.specs.Outcome.{outcome_of};
ghost use Rattle.plug_fields.specs.Fields.{front};
ghost use Rattle.plug_master_packing.specs.Publisher.{stop_of, stage_bytes, stage_of, publisher_bytes, publisher_of, is_publisher_state, publisher_judged};
ghost use Rattle.plug_master_packing.specs.Publisher.{publisher_packed, publisher_buffer};
ghost use Rattle.plug_master_packing.specs.Code.Publisher.{stop_own, stage_own};

use base_types::address::Page;
use base_types::refusal::Refusal;
use base_types::stepped::Stepped;
use master_plan::kind;
use master_publisher::{Publisher, PublisherStop, Stage};
use plug_fields::{join, mode_byte, mode_of, padded, some_mode, word, zeros};

#[tactic(auto, unfolding(crate::specs::Publisher::stage_bytes))]
fn front_of(stage: Stage) -> [u8; 16]
    ensures { result ≡ front 8 (stage_bytes stage) [] }
{
    match stage {
        Stage::Running(k, good) => {
            let [l, h] = word(k);
            padded(&[0, l, h, u8::from(good)])
        }
        Stage::Done => padded(&[1]),
        Stage::Stopped(stop) => {
            let [number, value] = plug_fields::refusal_bytes(Refusal::from(stop));
            padded(&[2, number, value])
        }
    }
}

// What stopped it, of a refusal's number and value (a number that is that of none counts as 1), and whether both are its own.
#[tactic(auto, unfolding(crate::specs::Code::Publisher::stop_own, crate::specs::Publisher::stop_of, plug_fields::specs::Fields::value_of))]
fn stop_of(number: u8, value: u8) -> (PublisherStop, bool)
    ensures stop { result.0 ≡ stop_of number value }
    ensures own { result.1 ≡ stop_own number value }
{
    match number {
        1 => (PublisherStop::ImageLength, value == 0),
        3 => (PublisherStop::PageNumber, value == 0),
        4 => (PublisherStop::Loop, value == 0),
        5 => (PublisherStop::Outside(value), true),
        6 => (PublisherStop::Crc16, value == 0),
        7 => (PublisherStop::ReadBack, value == 0),
        8 => (PublisherStop::NoFreePage, value == 0),
        9 => (PublisherStop::RedirectionProtected(Page(value)), true),
        10 => (PublisherStop::BufferLength, value == 0),
        13 => (PublisherStop::NoPresence, value == 0),
        20 => (PublisherStop::DataProtected(Page(value)), true),
        _ => (PublisherStop::ImageLength, false),
    }
}

// The stage of any bytes (a tag that is that of none counts as another one), and whether its eight bytes are its own.
#[tactic(auto, using(crate::proofs::Publisher::stage_rows), unfolding(crate::specs::Publisher::stage_of))]
fn stage_of(b: &[u8; 48]) -> (Stage, bool)
    ensures stage { result.0 ≡ stage_of b.now }
    ensures own { result.1 ≡ stage_own b.now }
{
    match b[0] {
        0 => (
            Stage::Running(join(b[1], b[2]), b[3] == 1),
            b[3] < 2 && zeros(b, 4, 8),
        ),
        1 => (Stage::Done, zeros(b, 1, 8)),
        2 => {
            let (stop, own) = stop_of(b[1], b[2]);
            (Stage::Stopped(stop), own && zeros(b, 3, 8))
        }
        _ => (Stage::Done, false),
    }
}

// ---- the entries

// The state of 48 bytes, and of any others. Refused: 2 for bytes of another length and for bytes that are those of no state. A state out
// of its ranges is no matter here: the publisher refuses it.
#[tactic(auto, using(crate::proofs::Publisher::state_rows), unfolding(crate::specs::Publisher::publisher_judged))]
pub fn unpack(bytes: &[u8]) -> Stepped<Result<(), Refusal>, Publisher>
    ensures judged { outcome_of result.answer ≡ publisher_judged bytes.now }
    ensures state { result.state ≡ publisher_of bytes.now }
{
    let Ok(b) = <&[u8; 48]>::try_from(bytes) else {
        return Stepped {
            answer: Err(Refusal::StateRange),
            state: Publisher {
                kind: kind::ordinary(),
                stage: Stage::Done,
                superseded: Page(0),
                target: Page(0),
                used: 0,
                new: [0; 32],
            },
        };
    };
    let (stage, own) = stage_of(b);
    let state = Publisher {
        kind: kind::of_mode(mode_of(b[11])),
        stage,
        superseded: Page(b[8]),
        target: Page(b[9]),
        used: b[10],
        new: plug_fields::rest_of(b),
    };
    let all = own && some_mode(b[11]).is_some() && zeros(b, 12, 16);
    Stepped {
        answer: all.then_some(()).ok_or(Refusal::StateRange),
        state,
    }
}

// A state into a buffer of 48 bytes. Refused: 10. What is left there holds that state and is accepted by unpack.
#[tactic(auto, using(crate::proofs::Publisher::publisher_back, crate::proofs::Publisher::publisher_kept), unfolding(crate::specs::Publisher::publisher_packed, crate::specs::Publisher::publisher_buffer, crate::specs::Publisher::publisher_bytes))]
pub fn pack(state: Publisher, bytes: &mut [u8]) -> Result<(), Refusal>
    ensures answer { outcome_of result ≡ publisher_packed bytes.old }
    ensures bytes { bytes.new ≡ publisher_buffer state bytes.old }
    ensures back { publisher_of (publisher_bytes state) ≡ state }
    ensures kept { is_publisher_state (publisher_bytes state) ≡ true }
{
    let mut front = front_of(state.stage);
    front[8] = state.superseded.0;
    front[9] = state.target.0;
    front[10] = state.used;
    front[11] = mode_byte(state.kind.mode);
    // By a name of its own: a loan of a part of the state copies the whole.
    let new = state.new;
    plug_fields::put(front, &new, bytes)
}
