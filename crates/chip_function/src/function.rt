// A slot and a pulse.
ghost use Rattle.std.specs.Prelude.{◌≡◌};
ghost use Rattle.chip_memory.specs.Layout.{page_count};
ghost use Rattle.chip_function.specs.Functions.{memory_slot, memory_bit, pulse_image, pulse_stage};

use crate::{receive, send};
use base_types::address::Page;
use base_types::bits;
use chip_stage::stage::MemoryStage;
use chip_stage::write;

// One slot. One on an armed chip silences it.
#[tactic(auto, unfolding(crate::specs::Functions::memory_slot))]
pub fn slot(last: Page, stage: MemoryStage, bit: bool, image: &[u8]) -> MemoryStage
    ensures { result ≡ memory_slot (page_count last) stage bit image.now }
{
    match stage {
        MemoryStage::Receive(i, k, register, crc) => {
            receive::bit_in(last, i, k, bits::shift_in(register, bit), crc, image)
        }
        MemoryStage::Send(o, left, v, crc) => send::bit_out(last, o, left, v, crc, image),
        MemoryStage::Silent | MemoryStage::Armed(..) => MemoryStage::Silent,
    }
}

// The chip's bit in a slot, 1 where it is not sending.
#[tactic(auto, unfolding(crate::specs::Functions::memory_bit))]
pub fn chip_bit(stage: MemoryStage) -> bool
    ensures { result ≡ memory_bit stage }
{
    match stage {
        MemoryStage::Send(_, _, v, _) => bits::low(v),
        MemoryStage::Silent | MemoryStage::Receive(..) | MemoryStage::Armed(..) => true,
    }
}

// A pulse. Where the chip is not armed it changes nothing.
#[tactic(auto, unfolding(crate::specs::Functions::pulse_image, crate::specs::Functions::pulse_stage))]
pub fn pulse(last: Page, stage: MemoryStage, image: &mut [u8]) -> MemoryStage
    ensures image { image.new ≡ pulse_image (page_count last) stage image.old }
    ensures stage { result ≡ pulse_stage (page_count last) stage image.new }
{
    match stage {
        MemoryStage::Armed(mode, t, byte) => write::fire(last, mode, t, byte, image),
        MemoryStage::Silent | MemoryStage::Receive(..) | MemoryStage::Send(..) => stage,
    }
}
