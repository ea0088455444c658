// Bits that go out.
ghost use Rattle.std.specs.Prelude.{◌≡◌};
ghost use Rattle.chip_memory.specs.Layout.{page_count};
ghost use Rattle.chip_memory.specs.Memory.{bytes, pages};
ghost use Rattle.chip_function.specs.Functions.{sent, send_bit};

use base_types::address::Page;
use base_types::write_mode::WriteMode;
use chip_memory::image::Memory;
use chip_stage::stage::{MemoryStage, Outgoing};
use chip_stage::{read, stage, write};

// All bits of something are out.
#[tactic(auto, unfolding(crate::specs::Functions::sent))]
fn all_out(memory: &Memory, o: Outgoing, crc: u16) -> MemoryStage
    ensures { result ≡ sent (pages memory.now) o crc (bytes memory.now) }
{
    match o {
        Outgoing::MemoryData(a) => read::after_memory(memory, a, crc),
        Outgoing::MemoryCrc => MemoryStage::Silent,
        Outgoing::StatusData(a) => read::after_status(memory, a, crc),
        Outgoing::StatusCrc(a) => read::next_status(memory, a),
        Outgoing::RedirectionByte(a) => stage::send_crc(Outgoing::RedirectionCrc(a), crc),
        Outgoing::RedirectionCrc(a) => read::page_from(memory, a, 0),
        Outgoing::PageData(a) => read::after_page(memory, a, crc),
        Outgoing::PageCrc(a) => read::next_page(memory, a),
        Outgoing::WriteCrc(t, byte) => MemoryStage::Armed(WriteMode::Ordinary, t, byte),
        Outgoing::ReadBack(mode, t) => write::next_write(memory.last, mode, t),
    }
}

// One bit of v goes out, of which so many were left. As in receive::bit_in, a Memory is made for the last one alone.
#[tactic(auto, unfolding(crate::specs::Functions::send_bit))]
pub fn bit_out(last: Page, o: Outgoing, left: u8, v: u16, crc: u16, image: &[u8]) -> MemoryStage
    ensures { result ≡ send_bit (page_count last) o left v crc image.now }
{
    if 1 < left {
        MemoryStage::Send(o, left - 1, v >> 1, crc)
    } else {
        all_out(&Memory { image, last }, o, crc)
    }
}
