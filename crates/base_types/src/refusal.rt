ghost use Rattle.std.specs.Prelude.{◌≡◌, option_to_list};
ghost use Rattle.base_types.specs.Refusal.{numbered, number_of, values_of};
ghost use Rattle.base_types.specs.Outcome.{outcome_of, in_order};

use crate::address::Page;

// The refusals of documents 01 and 02, in the order of their numbers, each with the values that it gives back. A state is given back beside it.
#[derive(Clone, Copy, Debug, PartialEq, Eq)]
pub enum Refusal {
    ImageLength,
    StateRange,
    PageNumber,
    Loop,
    Outside(u8),
    Crc16,
    ReadBack,
    NoFreePage,
    RedirectionProtected(Page),
    BufferLength,
    Sheet,
    NoPresence,
    Crc8,
    Family,
    Header,
    Latitude,
    Column,
    NoValue,
    DataProtected(Page),
}

// A refusal by its number, with the value that it gives back, if there is one.
#[derive(Clone, Copy, Debug, PartialEq, Eq)]
pub struct Numbered(pub u8, pub Option<u8>);

impl Refusal {
    // The table.
    fn numbered(self) -> Numbered
        ensures { result ≡ numbered self }
    {
        match self {
            Refusal::ImageLength => Numbered(1, None),
            Refusal::StateRange => Numbered(2, None),
            Refusal::PageNumber => Numbered(3, None),
            Refusal::Loop => Numbered(4, None),
            Refusal::Outside(x) => Numbered(5, Some(x)),
            Refusal::Crc16 => Numbered(6, None),
            Refusal::ReadBack => Numbered(7, None),
            Refusal::NoFreePage => Numbered(8, None),
            Refusal::RedirectionProtected(l) => Numbered(9, Some(l.0)),
            Refusal::BufferLength => Numbered(10, None),
            Refusal::Sheet => Numbered(12, None),
            Refusal::NoPresence => Numbered(13, None),
            Refusal::Crc8 => Numbered(14, None),
            Refusal::Family => Numbered(15, None),
            Refusal::Header => Numbered(16, None),
            Refusal::Latitude => Numbered(17, None),
            Refusal::Column => Numbered(18, None),
            Refusal::NoValue => Numbered(19, None),
            Refusal::DataProtected(l) => Numbered(20, Some(l.0)),
        }
    }

    // The number of a refusal.
    pub fn number(self) -> u8
        ensures { result ≡ number_of self }
    {
        self.numbered().0
    }

    // The value that a refusal gives back, if there is one.
    pub fn value(self) -> Option<u8>
        ensures { option_to_list result ≡ values_of self }
    {
        self.numbered().1
    }
}

// The order of every entry that judges these: the image's length, ranges, the lengths of other buffers. Refused: 1, 2, 10.
pub fn in_order(image: bool, ranges: bool, lengths: bool) -> Result<(), Refusal>
    ensures { outcome_of result ≡ in_order image ranges lengths }
{
    if !image {
        return Err(Refusal::ImageLength);
    }
    if !ranges {
        return Err(Refusal::StateRange);
    }
    if !lengths {
        return Err(Refusal::BufferLength);
    }
    Ok(())
}
