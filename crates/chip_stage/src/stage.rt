// The stages of the memory functions.
ghost use Rattle.std.specs.Prelude.{◌≡◌};
ghost use Rattle.chip_stage.specs.Stages.{receiving, sending_byte, sending_crc};

use base_crc::crc16;
use base_types::address::{DataAddress, Space, StatusAddress, Target};
use base_types::write_mode::WriteMode;

// A memory command that takes an address.
#[derive(Clone, Copy, Debug, PartialEq, Eq)]
pub enum Command {
    ReadMemory,
    ReadStatus,
    ExtendedRead,
    Write(WriteMode, Space),
}

// What a byte that comes in is.
#[derive(Clone, Copy, Debug, PartialEq, Eq)]
pub enum Incoming {
    Command,
    AddressLow(Command),
    AddressHigh(Command, u8),
    Data(WriteMode, Target),
}

// What is being sent. A data or status byte is named by its address, and a CRC by the last address that it covers. A CRC before a pulse
// is sent in the ordinary mode only.
#[derive(Clone, Copy, Debug, PartialEq, Eq)]
pub enum Outgoing {
    MemoryData(DataAddress),
    MemoryCrc,
    StatusData(StatusAddress),
    StatusCrc(StatusAddress),
    RedirectionByte(DataAddress),
    RedirectionCrc(DataAddress),
    PageData(DataAddress),
    PageCrc(DataAddress),
    WriteCrc(Target, u8),
    ReadBack(WriteMode, Target),
}

// Silent until reset. Receive: what comes, how many of its bits are in, the register that collects them, the CRC register.
// Send: what goes, how many bits are left, these bits, the CRC register. Armed: a pulse will write the byte.
#[derive(Clone, Copy, Debug, PartialEq, Eq)]
pub enum MemoryStage {
    Silent,
    Receive(Incoming, u8, u8, u16),
    Send(Outgoing, u8, u16, u16),
    Armed(WriteMode, Target, u8),
}

// Before the first bit of a byte that comes in.
#[tactic(auto, unfolding(crate::specs::Stages::receiving))]
pub fn receive(i: Incoming, crc: u16) -> MemoryStage
    ensures { result ≡ receiving i crc }
{
    MemoryStage::Receive(i, 0, 0, crc)
}

// Before the first bit of a byte that goes out, which the CRC takes in.
#[tactic(auto, unfolding(crate::specs::Stages::sending_byte))]
pub fn send_byte(o: Outgoing, v: u8, crc: u16) -> MemoryStage
    ensures { result ≡ sending_byte o v crc }
{
    MemoryStage::Send(o, 8, u16::from(v), crc16::byte(crc, v))
}

// Before the first bit of a CRC.
#[tactic(auto, unfolding(crate::specs::Stages::sending_crc))]
pub fn send_crc(o: Outgoing, crc: u16) -> MemoryStage
    ensures { result ≡ sending_crc o crc }
{
    MemoryStage::Send(o, 16, crc16::word(crc), crc)
}
