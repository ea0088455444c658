// The ROM functions: Read, Match, Search and Skip over the 64-bit registration number. They are the same for each chip.
#![tactic(auto)]

ghost use Rattle.std.specs.Prelude.{◌≡◌};
ghost use Rattle.chip_rom.specs.Rom.{number_bit, rom_command, rom_command_bit, next_of, taken_of, number_slot, rom_slot, number_sent, rom_bit, rom_in_range};

use base_types::bits;

// What a chip does at a bit of its number.
#[derive(Clone, Copy, Debug, PartialEq, Eq)]
pub enum RomStep {
    Read,
    Match,
    SearchBit,
    SearchComplement,
    SearchTake,
}

// Where a chip stands between a reset and the end of its ROM command: so many bits of the command byte are in the register; or a step
// at a bit of the number.
#[derive(Clone, Copy, Debug, PartialEq, Eq)]
pub enum RomStage {
    Command(u8, u8),
    Number(RomStep, u8),
}

// What a slot leads to: another stage, the memory functions, or silence.
#[derive(Clone, Copy, Debug, PartialEq, Eq)]
pub enum RomOutcome {
    Stays(RomStage),
    Selected,
    Deselected,
}

// Bit i of the registration number.
#[tactic(auto, unfolding(crate::specs::Rom::number_bit))]
pub fn number_bit(number: [u8; 8], i: u8) -> bool
    ensures { result ≡ number_bit number i }
{
    number
        .get(usize::from(i >> 3))
        .is_some_and(|byte| bits::at(*byte, i))
}

// A whole ROM command byte is in.
#[tactic(auto, unfolding(crate::specs::Rom::rom_command))]
fn command(byte: u8) -> RomOutcome
    ensures { result ≡ rom_command byte }
{
    match byte {
        0x33 => RomOutcome::Stays(RomStage::Number(RomStep::Read, 0)),
        0x55 => RomOutcome::Stays(RomStage::Number(RomStep::Match, 0)),
        0xF0 => RomOutcome::Stays(RomStage::Number(RomStep::SearchBit, 0)),
        0xCC => RomOutcome::Selected,
        _ => RomOutcome::Deselected,
    }
}

// One bit more of the command byte, of which k were in; the register now holds v.
#[tactic(auto, unfolding(crate::specs::Rom::rom_command_bit))]
fn command_bit(k: u8, v: u8) -> RomOutcome
    ensures { result ≡ rom_command_bit k v }
{
    if k < 7 {
        RomOutcome::Stays(RomStage::Command(k + 1, v))
    } else {
        command(v)
    }
}

// Bit i of the number is done: the step at the next one, or the memory functions.
#[tactic(auto, unfolding(crate::specs::Rom::next_of))]
fn next(step: RomStep, i: u8) -> RomOutcome
    ensures { result ≡ next_of step i }
{
    if i < 63 {
        RomOutcome::Stays(RomStage::Number(step, i + 1))
    } else {
        RomOutcome::Selected
    }
}

// The master's bit at bit i, which has to agree with the number's.
#[tactic(auto, unfolding(crate::specs::Rom::taken_of))]
fn taken(agrees: bool, step: RomStep, i: u8) -> RomOutcome
    ensures { result ≡ taken_of agrees step i }
{
    if agrees {
        next(step, i)
    } else {
        RomOutcome::Deselected
    }
}

// One slot at bit i of the number.
#[tactic(auto, unfolding(crate::specs::Rom::number_slot))]
fn number_slot(step: RomStep, i: u8, bit: bool, number: [u8; 8]) -> RomOutcome
    ensures { result ≡ number_slot step i bit number }
{
    match step {
        RomStep::Read => next(RomStep::Read, i),
        RomStep::Match => taken(bit == number_bit(number, i), RomStep::Match, i),
        RomStep::SearchBit => RomOutcome::Stays(RomStage::Number(RomStep::SearchComplement, i)),
        RomStep::SearchComplement => RomOutcome::Stays(RomStage::Number(RomStep::SearchTake, i)),
        RomStep::SearchTake => taken(bit == number_bit(number, i), RomStep::SearchBit, i),
    }
}

// One slot.
#[tactic(auto, unfolding(crate::specs::Rom::rom_slot))]
pub fn slot(stage: RomStage, bit: bool, number: [u8; 8]) -> RomOutcome
    ensures { result ≡ rom_slot stage bit number }
{
    match stage {
        RomStage::Command(k, register) => command_bit(k, bits::shift_in(register, bit)),
        RomStage::Number(step, i) => number_slot(step, i, bit, number),
    }
}

// The bit that the chip sends at a step, where the number's is b; 1 where it is not sending.
fn number_sent(step: RomStep, b: bool) -> bool
    ensures { result ≡ number_sent step b }
{
    match step {
        RomStep::Read | RomStep::SearchBit => b,
        RomStep::SearchComplement => !b,
        RomStep::Match | RomStep::SearchTake => true,
    }
}

// The chip's bit in a slot.
#[tactic(auto, unfolding(crate::specs::Rom::rom_bit))]
pub fn chip_bit(stage: RomStage, number: [u8; 8]) -> bool
    ensures { result ≡ rom_bit stage number }
{
    match stage {
        RomStage::Command(_, _) => true,
        RomStage::Number(step, i) => number_sent(step, number_bit(number, i)),
    }
}

// The fields of a stage are within their ranges.
#[tactic(auto, unfolding(crate::specs::Rom::rom_in_range))]
pub fn in_range(stage: RomStage) -> bool
    ensures { result ≡ rom_in_range stage }
{
    match stage {
        RomStage::Command(k, _) => k < 8,
        RomStage::Number(_, i) => i < 64,
    }
}
