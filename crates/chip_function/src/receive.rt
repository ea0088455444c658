// Bits that come in.
ghost use Rattle.std.specs.Prelude.{◌≡◌};
ghost use Rattle.chip_memory.specs.Layout.{page_count};
ghost use Rattle.chip_memory.specs.Memory.{bytes, pages};
ghost use Rattle.chip_function.specs.Functions.{beginning, memory_command, addressed, started_at, received, receive_bit};

use base_crc::crc16;
use base_types::address::{Page, Space};
use base_types::write_mode::WriteMode;
use chip_memory::image::Memory;
use chip_stage::stage::{Command, Incoming, MemoryStage};
use chip_stage::{limits, read, stage, write};

// A command that takes an address; its CRC starts cleared.
#[tactic(auto, unfolding(crate::specs::Functions::beginning))]
fn begin(c: Command, byte: u8) -> MemoryStage
    ensures { result ≡ beginning c byte }
{
    stage::receive(Incoming::AddressLow(c), crc16::byte(0, byte))
}

// A whole memory command byte is in.
#[tactic(auto, unfolding(crate::specs::Functions::memory_command))]
fn command(byte: u8) -> MemoryStage
    ensures { result ≡ memory_command byte }
{
    match byte {
        0xF0 => begin(Command::ReadMemory, 0xF0),
        0xAA => begin(Command::ReadStatus, 0xAA),
        0xA5 => begin(Command::ExtendedRead, 0xA5),
        0x0F => begin(Command::Write(WriteMode::Ordinary, Space::Data), 0x0F),
        0x55 => begin(Command::Write(WriteMode::Ordinary, Space::Status), 0x55),
        0xF3 => begin(Command::Write(WriteMode::Quick, Space::Data), 0xF3),
        0xF5 => begin(Command::Write(WriteMode::Quick, Space::Status), 0xF5),
        _ => MemoryStage::Silent,
    }
}

// A command and its whole address are in, and the CRC has taken them in.
#[tactic(auto, unfolding(crate::specs::Functions::addressed))]
fn address_in(memory: &Memory, c: Command, a: u16, crc: u16) -> MemoryStage
    ensures { result ≡ addressed (pages memory.now) c a crc (bytes memory.now) }
{
    match c {
        Command::ReadMemory => read::start_memory(memory, a, crc),
        Command::ReadStatus => read::start_status(memory, a, crc),
        Command::ExtendedRead => read::start_extended(memory, a, crc),
        Command::Write(mode, space) => write::start_write(memory.last, mode, space, a, crc),
    }
}

// A command starts at the address as the chip keeps it, and the CRC takes in the high byte as kept, not as sent.
#[tactic(auto, unfolding(crate::specs::Functions::started_at))]
fn start_at(memory: &Memory, c: Command, a: u16, crc: u16) -> MemoryStage
    ensures { result ≡ started_at (pages memory.now) c a crc (bytes memory.now) }
{
    let kept = limits::kept(memory.last, a);
    let [_, high] = kept.to_le_bytes();
    address_in(memory, c, kept, crc16::byte(crc, high))
}

// A whole byte is in.
#[tactic(auto, unfolding(crate::specs::Functions::received))]
fn byte_in(memory: &Memory, i: Incoming, byte: u8, crc: u16) -> MemoryStage
    ensures { result ≡ received (pages memory.now) i byte crc (bytes memory.now) }
{
    match i {
        Incoming::Command => command(byte),
        Incoming::AddressLow(c) => {
            stage::receive(Incoming::AddressHigh(c, byte), crc16::byte(crc, byte))
        }
        Incoming::AddressHigh(c, low) => {
            start_at(memory, c, u16::from_le_bytes([low, byte]), crc)
        }
        Incoming::Data(mode, t) => write::data_in(mode, t, byte, crc),
    }
}

// One bit more, after k of them; the register now holds v. The image and its chip are put together for a whole byte alone: a Memory at
// each bit makes writes dearer.
#[tactic(auto, unfolding(crate::specs::Functions::receive_bit))]
pub fn bit_in(last: Page, i: Incoming, k: u8, v: u8, crc: u16, image: &[u8]) -> MemoryStage
    ensures { result ≡ receive_bit (page_count last) i k v crc image.now }
{
    if k < 7 {
        MemoryStage::Receive(i, k + 1, v, crc)
    } else {
        byte_in(&Memory { image, last }, i, v, crc)
    }
}
