// The ranges of the fields of a stage.
ghost use Rattle.std.specs.Prelude.{◌≡◌};
ghost use Rattle.chip_memory.specs.Layout.{page_count};
ghost use Rattle.chip_function.specs.Ranges.{incoming_in_range, outgoing_in_range, outgoing_width, receiving_in_range, send_in_range, memory_in_range};

use base_types::address::{Page, Space};
use chip_stage::limits;
use chip_stage::stage::{Incoming, MemoryStage, Outgoing};

#[tactic(auto, unfolding(crate::specs::Ranges::incoming_in_range))]
fn incoming_in_range(last: Page, i: Incoming) -> bool
    ensures { result ≡ incoming_in_range (page_count last) i }
{
    match i {
        Incoming::Command | Incoming::AddressLow(_) | Incoming::AddressHigh(..) => true,
        Incoming::Data(_, t) => limits::target_in_range(last, t),
    }
}

#[tactic(auto, unfolding(crate::specs::Ranges::outgoing_in_range))]
fn outgoing_in_range(last: Page, o: Outgoing) -> bool
    ensures { result ≡ outgoing_in_range (page_count last) o }
{
    match o {
        Outgoing::MemoryCrc => true,
        Outgoing::MemoryData(a)
        | Outgoing::RedirectionByte(a)
        | Outgoing::RedirectionCrc(a)
        | Outgoing::PageData(a)
        | Outgoing::PageCrc(a) => limits::is_address(last, Space::Data, a.0),
        Outgoing::StatusData(a) | Outgoing::StatusCrc(a) => {
            limits::is_address(last, Space::Status, a.0)
        }
        Outgoing::WriteCrc(t, _) | Outgoing::ReadBack(_, t) => limits::target_in_range(last, t),
    }
}

// How many bits it has.
fn width(o: Outgoing) -> u8
    ensures { result ≡ outgoing_width o }
{
    match o {
        Outgoing::MemoryData(_)
        | Outgoing::StatusData(_)
        | Outgoing::RedirectionByte(_)
        | Outgoing::PageData(_)
        | Outgoing::ReadBack(..) => 8,
        Outgoing::MemoryCrc
        | Outgoing::StatusCrc(_)
        | Outgoing::RedirectionCrc(_)
        | Outgoing::PageCrc(_)
        | Outgoing::WriteCrc(..) => 16,
    }
}

#[tactic(auto, unfolding(crate::specs::Ranges::receiving_in_range))]
fn receive_in_range(last: Page, i: Incoming, k: u8) -> bool
    ensures { result ≡ receiving_in_range (page_count last) i k }
{
    k < 8 && incoming_in_range(last, i)
}

#[tactic(auto, unfolding(crate::specs::Ranges::send_in_range))]
fn send_in_range(last: Page, o: Outgoing, left: u8) -> bool
    ensures { result ≡ send_in_range (page_count last) o left }
{
    1 <= left && left <= width(o) && outgoing_in_range(last, o)
}

#[tactic(auto, unfolding(crate::specs::Ranges::memory_in_range))]
pub fn in_range(last: Page, stage: MemoryStage) -> bool
    ensures { result ≡ memory_in_range (page_count last) stage }
{
    match stage {
        MemoryStage::Silent => true,
        MemoryStage::Receive(i, k, _, _) => receive_in_range(last, i, k),
        MemoryStage::Send(o, left, _, _) => send_in_range(last, o, left),
        MemoryStage::Armed(_, t, _) => limits::target_in_range(last, t),
    }
}
