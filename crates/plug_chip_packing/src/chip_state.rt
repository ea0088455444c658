// The chip's state as 24 bytes: specs/Chip.antt has the layout.
ghost use Rattle.std.specs.Prelude.{◌≡◌, true, [], ◌∷◌};
ghost use Rattle.base_types.specs.Outcome.{outcome_of};
ghost use Rattle.plug_fields.specs.Fields.{front, padded, word};
ghost use Rattle.plug_chip_packing.specs.Chip.{command_tag, command_of, target_bytes, target_of, step_tag, rom_step_of};
ghost use Rattle.plug_chip_packing.specs.Chip.{incoming_bytes, outgoing_bytes, chip_stage_bytes, incoming_of, outgoing_of, chip_stage_of};
ghost use Rattle.plug_chip_packing.specs.Chip.{chip_bytes, chip_state_of, is_chip_state, chip_judged, chip_packed, chip_buffer};
ghost use Rattle.plug_chip_packing.specs.Code.Chip.{incoming_own, outgoing_own, chip_stage_own};

use base_types::address::{DataAddress, Space, StatusAddress, Target};
use base_types::refusal::Refusal;
use base_types::stepped::Stepped;
use base_types::write_mode::WriteMode;
use chip_entries::event::{Stage, State};
use chip_rom::{RomStage, RomStep};
use chip_stage::stage::{Command, Incoming, MemoryStage, Outgoing};
use plug_fields::{join, mode_byte, mode_of, padded, some_mode, word, zeros};

// ---- enums by a number, and the other way, where a number that is that of none counts as the last one's: no From, which the enums' own
// crates alone could have

#[tactic(auto, unfolding(crate::specs::Chip::command_tag, crate::specs::Chip::write_tag))]
fn command_tag(command: Command) -> u8
    ensures { result ≡ command_tag command }
{
    match command {
        Command::ReadMemory => 0,
        Command::ReadStatus => 1,
        Command::ExtendedRead => 2,
        Command::Write(WriteMode::Ordinary, Space::Data) => 3,
        Command::Write(WriteMode::Ordinary, Space::Status) => 4,
        Command::Write(WriteMode::Quick, Space::Data) => 5,
        Command::Write(WriteMode::Quick, Space::Status) => 6,
    }
}

#[tactic(auto, unfolding(crate::specs::Chip::command_of))]
fn command_of(number: u8) -> Command
    ensures { result ≡ command_of number }
{
    match number {
        0 => Command::ReadMemory,
        1 => Command::ReadStatus,
        2 => Command::ExtendedRead,
        3 => Command::Write(WriteMode::Ordinary, Space::Data),
        4 => Command::Write(WriteMode::Ordinary, Space::Status),
        5 => Command::Write(WriteMode::Quick, Space::Data),
        _ => Command::Write(WriteMode::Quick, Space::Status),
    }
}

#[tactic(auto, unfolding(crate::specs::Chip::step_tag))]
fn step_tag(step: RomStep) -> u8
    ensures { result ≡ step_tag step }
{
    match step {
        RomStep::Read => 0,
        RomStep::Match => 1,
        RomStep::SearchBit => 2,
        RomStep::SearchComplement => 3,
        RomStep::SearchTake => 4,
    }
}

#[tactic(auto, unfolding(crate::specs::Chip::rom_step_of))]
fn step_of(number: u8) -> RomStep
    ensures { result ≡ rom_step_of number }
{
    match number {
        0 => RomStep::Read,
        1 => RomStep::Match,
        2 => RomStep::SearchBit,
        3 => RomStep::SearchComplement,
        _ => RomStep::SearchTake,
    }
}

#[tactic(auto, unfolding(crate::specs::Chip::target_tag, crate::specs::Chip::target_address))]
fn target_bytes(target: Target) -> [u8; 3]
    ensures { result ≡ target_bytes target }
{
    let [l, h] = word(target.address());
    match target {
        Target::Data(_) => [0, l, h],
        Target::Status(_) => [1, l, h],
    }
}

#[tactic(auto, unfolding(crate::specs::Chip::target_of))]
fn target_of(number: u8, address: u16) -> Target
    ensures { result ≡ target_of number address }
{
    match number {
        0 => Target::Data(DataAddress(address)),
        _ => Target::Status(StatusAddress(address)),
    }
}

// ---- into bytes

// What comes in, and zeros.
#[tactic(auto, unfolding(crate::specs::Chip::incoming_bytes))]
fn incoming_bytes(incoming: Incoming) -> [u8; 5]
    ensures { result ≡ padded 5 (incoming_bytes incoming) }
{
    match incoming {
        Incoming::Command => [0; 5],
        Incoming::AddressLow(command) => [1, command_tag(command), 0, 0, 0],
        Incoming::AddressHigh(command, low) => [2, command_tag(command), low, 0, 0],
        Incoming::Data(mode, target) => {
            let [t, l, h] = target_bytes(target);
            [3, mode_byte(mode), t, l, h]
        }
    }
}

// A tag and an address, and zeros.
fn addressed(tag: u8, address: u16) -> [u8; 5]
    ensures { result ≡ padded 5 (tag ∷ word address) }
{
    let [l, h] = word(address);
    [tag, l, h, 0, 0]
}

// What is sent, and zeros.
#[tactic(auto, unfolding(crate::specs::Chip::outgoing_bytes))]
fn outgoing_bytes(outgoing: Outgoing) -> [u8; 5]
    ensures { result ≡ padded 5 (outgoing_bytes outgoing) }
{
    match outgoing {
        Outgoing::MemoryData(a) => addressed(0, a.0),
        Outgoing::MemoryCrc => addressed(1, 0),
        Outgoing::StatusData(a) => addressed(2, a.0),
        Outgoing::StatusCrc(a) => addressed(3, a.0),
        Outgoing::RedirectionByte(a) => addressed(4, a.0),
        Outgoing::RedirectionCrc(a) => addressed(5, a.0),
        Outgoing::PageData(a) => addressed(6, a.0),
        Outgoing::PageCrc(a) => addressed(7, a.0),
        Outgoing::WriteCrc(target, x) => {
            let [t, l, h] = target_bytes(target);
            [8, x, t, l, h]
        }
        Outgoing::ReadBack(mode, target) => {
            let [t, l, h] = target_bytes(target);
            [9, mode_byte(mode), t, l, h]
        }
    }
}

#[tactic(auto, using(crate::proofs::Chip::incoming_five, crate::proofs::Chip::outgoing_five), unfolding(crate::specs::Chip::chip_stage_bytes, crate::specs::Chip::rom_bytes, crate::specs::Chip::memory_bytes))]
fn front_of(stage: Stage) -> [u8; 16]
    ensures { result ≡ front 12 (chip_stage_bytes stage) [] }
{
    match stage {
        Stage::Memory(MemoryStage::Silent) => [0; 16],
        Stage::Rom(RomStage::Command(n, x)) => padded(&[1, n, x]),
        Stage::Rom(RomStage::Number(step, i)) => padded(&[2, step_tag(step), i]),
        Stage::Memory(MemoryStage::Receive(incoming, n, x, crc)) => {
            let [l, h] = word(crc);
            let [a, b, c, d, e] = incoming_bytes(incoming);
            padded(&[3, n, x, l, h, a, b, c, d, e])
        }
        Stage::Memory(MemoryStage::Send(outgoing, left, bits, crc)) => {
            let [low, high] = word(bits);
            let [l, h] = word(crc);
            let [a, b, c, d, e] = outgoing_bytes(outgoing);
            padded(&[4, left, low, high, l, h, a, b, c, d, e])
        }
        Stage::Memory(MemoryStage::Armed(mode, target, x)) => {
            let [t, l, h] = target_bytes(target);
            padded(&[5, x, mode_byte(mode), t, l, h])
        }
    }
}

// ---- out of bytes: what stands at a place of any bytes (a tag that is that of none counts as another one), and whether the bytes from
// there to the end of the stage's are its own

#[tactic(auto, using(crate::proofs::Chip::incoming_rows), unfolding(crate::specs::Chip::incoming_of))]
fn incoming_of(b: &[u8; 24]) -> (Incoming, bool)
    ensures incoming { result.0 ≡ incoming_of b.now }
    ensures own { result.1 ≡ incoming_own b.now }
{
    match b[5] {
        0 => (Incoming::Command, zeros(b, 6, 12)),
        1 => (
            Incoming::AddressLow(command_of(b[6])),
            b[6] < 7 && zeros(b, 7, 12),
        ),
        2 => (
            Incoming::AddressHigh(command_of(b[6]), b[7]),
            b[6] < 7 && zeros(b, 8, 12),
        ),
        3 => {
            let target = target_of(b[7], join(b[8], b[9]));
            let own = some_mode(b[6]).is_some() && b[7] < 2 && zeros(b, 10, 12);
            (Incoming::Data(mode_of(b[6]), target), own)
        }
        _ => (Incoming::Command, false),
    }
}

#[tactic(auto, using(crate::proofs::Chip::outgoing_rows), unfolding(crate::specs::Chip::outgoing_of, crate::specs::Chip::addressed_of))]
fn outgoing_of(b: &[u8; 24]) -> (Outgoing, bool)
    ensures outgoing { result.0 ≡ outgoing_of b.now }
    ensures own { result.1 ≡ outgoing_own b.now }
{
    let address = join(b[7], b[8]);
    match b[6] {
        0 => (Outgoing::MemoryData(DataAddress(address)), zeros(b, 9, 12)),
        1 => (Outgoing::MemoryCrc, zeros(b, 7, 12)),
        2 => (
            Outgoing::StatusData(StatusAddress(address)),
            zeros(b, 9, 12),
        ),
        3 => (Outgoing::StatusCrc(StatusAddress(address)), zeros(b, 9, 12)),
        4 => (
            Outgoing::RedirectionByte(DataAddress(address)),
            zeros(b, 9, 12),
        ),
        5 => (
            Outgoing::RedirectionCrc(DataAddress(address)),
            zeros(b, 9, 12),
        ),
        6 => (Outgoing::PageData(DataAddress(address)), zeros(b, 9, 12)),
        7 => (Outgoing::PageCrc(DataAddress(address)), zeros(b, 9, 12)),
        8 => {
            let target = target_of(b[8], join(b[9], b[10]));
            (
                Outgoing::WriteCrc(target, b[7]),
                b[8] < 2 && zeros(b, 11, 12),
            )
        }
        9 => {
            let target = target_of(b[8], join(b[9], b[10]));
            let own = some_mode(b[7]).is_some() && b[8] < 2 && zeros(b, 11, 12);
            (Outgoing::ReadBack(mode_of(b[7]), target), own)
        }
        _ => (Outgoing::MemoryCrc, false),
    }
}

#[tactic(auto, using(crate::proofs::Chip::stage_rows), unfolding(crate::specs::Chip::chip_stage_of, crate::specs::Chip::memory_of))]
fn stage_of(b: &[u8; 24]) -> (Stage, bool)
    ensures stage { result.0 ≡ chip_stage_of b.now }
    ensures own { result.1 ≡ chip_stage_own b.now }
{
    match b[0] {
        0 => (Stage::Memory(MemoryStage::Silent), zeros(b, 1, 12)),
        1 => (Stage::Rom(RomStage::Command(b[1], b[2])), zeros(b, 3, 12)),
        2 => (
            Stage::Rom(RomStage::Number(step_of(b[1]), b[2])),
            b[1] < 5 && zeros(b, 3, 12),
        ),
        3 => {
            let crc = join(b[3], b[4]);
            let (incoming, own) = incoming_of(b);
            let stage = MemoryStage::Receive(incoming, b[1], b[2], crc);
            (Stage::Memory(stage), own)
        }
        4 => {
            let bits = join(b[2], b[3]);
            let crc = join(b[4], b[5]);
            let (outgoing, own) = outgoing_of(b);
            let stage = MemoryStage::Send(outgoing, b[1], bits, crc);
            (Stage::Memory(stage), own)
        }
        5 => {
            let target = target_of(b[3], join(b[4], b[5]));
            let own = some_mode(b[2]).is_some() && b[3] < 2 && zeros(b, 6, 12);
            let stage = MemoryStage::Armed(mode_of(b[2]), target, b[1]);
            (Stage::Memory(stage), own)
        }
        _ => (Stage::Memory(MemoryStage::Silent), false),
    }
}

// ---- the entries

// The state of 24 bytes, and of any others. Refused: 2 for bytes of another length and for bytes that are those of no state. A state out
// of its ranges is no matter here: the chip refuses it.
#[tactic(auto, using(crate::proofs::Chip::state_rows), unfolding(crate::specs::Chip::chip_judged))]
pub fn unpack(bytes: &[u8]) -> Stepped<Result<(), Refusal>, State>
    ensures judged { outcome_of result.answer ≡ chip_judged bytes.now }
    ensures state { result.state ≡ chip_state_of bytes.now }
{
    let Ok(b) = <&[u8; 24]>::try_from(bytes) else {
        return Stepped {
            answer: Err(Refusal::StateRange),
            state: State {
                stage: Stage::Memory(MemoryStage::Silent),
                number: [0; 8],
            },
        };
    };
    let (stage, own) = stage_of(b);
    let state = State {
        stage,
        number: plug_fields::rest_of(b),
    };
    let all = own && zeros(b, 12, 16);
    Stepped {
        answer: all.then_some(()).ok_or(Refusal::StateRange),
        state,
    }
}

// A state into a buffer of 24 bytes. Refused: 10. What is left there holds that state and is accepted by unpack.
#[tactic(auto, using(crate::proofs::Chip::chip_back, crate::proofs::Chip::chip_kept), unfolding(crate::specs::Chip::chip_packed, crate::specs::Chip::chip_buffer, crate::specs::Chip::chip_bytes))]
pub fn pack(state: State, bytes: &mut [u8]) -> Result<(), Refusal>
    ensures answer { outcome_of result ≡ chip_packed bytes.old }
    ensures bytes { bytes.new ≡ chip_buffer state bytes.old }
    ensures back { chip_state_of (chip_bytes state) ≡ state }
    ensures kept { is_chip_state (chip_bytes state) ≡ true }
{
    // By a name of its own: a loan of a part of the state copies the whole.
    let number = state.number;
    plug_fields::put(front_of(state.stage), &number, bytes)
}
