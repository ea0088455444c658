// What an update goes by, and how many events the parts of its plan have.
ghost use Rattle.std.specs.Prelude.{◌≡◌};
ghost use Rattle.master_plan.specs.Kind as kinds;
ghost use Rattle.master_plan.specs.Kind.{kind_of, selecting, head_count, crc_count, byte_count, write_count, total_of};

use base_types::write_mode::WriteMode;

// How the chip is selected after each reset but the closing one.
#[derive(Clone, Copy)]
pub enum Selection {
    SkipRom,
}

// How T, the page that takes L's place, is chosen.
#[derive(Clone, Copy)]
pub enum Placement {
    LowestFree,
}

// What an update goes by: the mode of all its writes, the selection, the placement.
#[derive(Clone, Copy)]
pub struct UpdateKind {
    pub mode: WriteMode,
    pub selection: Selection,
    pub placement: Placement,
}

// ---- the kinds there are, one for each mode

pub fn of_mode(mode: WriteMode) -> UpdateKind
    ensures { result ≡ kind_of mode }
{
    UpdateKind {
        mode,
        selection: Selection::SkipRom,
        placement: Placement::LowestFree,
    }
}

pub fn ordinary() -> UpdateKind
    ensures { result ≡ kinds.ordinary }
{
    of_mode(WriteMode::Ordinary)
}

pub fn quick() -> UpdateKind
    ensures { result ≡ kinds.quick }
{
    of_mode(WriteMode::Quick)
}

// ---- the bytes that select the chip

pub fn selecting(selection: Selection) -> &'static [u8]
    ensures { result.now ≡ selecting selection }
{
    match selection {
        Selection::SkipRom => &[0xCC],
    }
}

// ---- how many events there are

// Before the first byte of a write.
pub fn head_count(kind: UpdateKind) -> u16
    ensures { result ≡ head_count kind }
{
    25 + 8 * selecting(kind.selection).len() as u16
}

// In the CRC of a byte.
pub fn crc_count(mode: WriteMode) -> u16
    ensures { result ≡ crc_count mode }
{
    match mode {
        WriteMode::Ordinary => 16,
        WriteMode::Quick => 0,
    }
}

// In a byte.
pub fn byte_count(mode: WriteMode) -> u16
    ensures { result ≡ byte_count mode }
{
    17 + crc_count(mode)
}

// In a write of one byte.
pub fn one_byte_count(kind: UpdateKind) -> u16
    ensures { result ≡ write_count kind 1 }
{
    head_count(kind) + byte_count(kind.mode)
}

// In a write of a page.
pub fn full_page_count(kind: UpdateKind) -> u16
    ensures { result ≡ write_count kind 32 }
{
    head_count(kind) + 32 * byte_count(kind.mode)
}

// In a whole update.
pub fn total(kind: UpdateKind) -> u16
    ensures { result ≡ total_of kind }
{
    2 * one_byte_count(kind) + full_page_count(kind) + 1
}
