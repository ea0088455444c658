// The commands that write.
ghost use Rattle.std.specs.Prelude.{◌≡◌};
ghost use Rattle.chip_memory.specs.Layout.{page_count};
ghost use Rattle.chip_memory.specs.Write.{programmed};
ghost use Rattle.chip_stage.specs.Writes.{start_write, data_in, raised, next_write, reading_back};

use crate::stage::{Incoming, MemoryStage, Outgoing};
use crate::{limits, stage};
use base_crc::crc16;
use base_types::address::{Page, Space, Target};
use base_types::write_mode::WriteMode;
use chip_memory::image::Memory;
use chip_memory::write;

// An address is in.
#[tactic(auto, unfolding(crate::specs::Writes::start_write))]
pub fn start_write(last: Page, mode: WriteMode, space: Space, a: u16, crc: u16) -> MemoryStage
    ensures { result ≡ start_write (page_count last) mode space a crc }
{
    if limits::is_address(last, space, a) {
        stage::receive(Incoming::Data(mode, limits::target(space, a)), crc)
    } else {
        MemoryStage::Silent
    }
}

// A whole byte to write is in: its CRC is sent, or the chip is armed at once.
#[tactic(auto, unfolding(crate::specs::Writes::data_in))]
pub fn data_in(mode: WriteMode, t: Target, byte: u8, crc: u16) -> MemoryStage
    ensures { result ≡ data_in mode t byte crc }
{
    match mode {
        WriteMode::Ordinary => {
            stage::send_crc(Outgoing::WriteCrc(t, byte), crc16::byte(crc, byte))
        }
        WriteMode::Quick => MemoryStage::Armed(WriteMode::Quick, t, byte),
    }
}

// The address rises by one, and the CRC register is loaded with it.
#[tactic(auto, unfolding(crate::specs::Writes::raised, crate::specs::Limits::next_address))]
pub fn raise(last: Page, mode: WriteMode, space: Space, a: u16) -> MemoryStage
    ensures { result ≡ raised (page_count last) mode space a }
{
    match limits::next(last, space, a) {
        Some(next) => {
            stage::receive(
                Incoming::Data(mode, limits::target(space, next)),
                crc16::load(next),
            )
        }
        None => MemoryStage::Silent,
    }
}

// A byte has been read back.
#[tactic(auto, unfolding(crate::specs::Writes::next_write))]
pub fn next_write(last: Page, mode: WriteMode, t: Target) -> MemoryStage
    ensures { result ≡ next_write (page_count last) mode t }
{
    raise(last, mode, t.space(), t.address())
}

// A pulse on an armed chip: the byte is ANDed into its target, and the target is then sent.
#[tactic(auto, unfolding(crate::specs::Writes::reading_back))]
pub fn fire(last: Page, mode: WriteMode, t: Target, byte: u8, image: &mut [u8]) -> MemoryStage
    ensures image { image.new ≡ programmed (page_count last) image.old t byte }
    ensures stage { result ≡ reading_back (page_count last) mode t image.new }
{
    write::program(image, last, t, byte);
    let memory = Memory { image, last };
    stage::send_byte(Outgoing::ReadBack(mode, t), memory.target_byte(t), 0)
}
