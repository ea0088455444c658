// The addresses of each memory.
ghost use Rattle.std.specs.Prelude.{◌≡◌};
ghost use Rattle.chip_memory.specs.Layout.{page_count};
ghost use Rattle.chip_stage.specs.Limits.{limit_of, is_address, next_address, kept_address, target_at, target_in_range};

use base_types::address::{DataAddress, Page, Space, StatusAddress, Target};
use chip_memory::layout;

// How many addresses a memory has.
#[tactic(auto, unfolding(crate::specs::Limits::limit_of))]
pub fn limit(last: Page, space: Space) -> usize
    ensures { result ≡ limit_of (page_count last) space }
{
    match space {
        Space::Data => layout::data_size(last),
        Space::Status => usize::from(layout::status_size(last)),
    }
}

// A number is an address of a memory.
#[tactic(auto, unfolding(crate::specs::Limits::is_address))]
pub fn is_address(last: Page, space: Space, a: u16) -> bool
    ensures { result ≡ is_address (page_count last) space a }
{
    usize::from(a) < limit(last, space)
}

// The address after one, if the memory has it.
#[tactic(auto, using(crate::proofs::Addresses::limit_fits), unfolding(crate::specs::Limits::next_address, crate::specs::Limits::is_address))]
pub fn next(last: Page, space: Space, a: u16) -> Option<u16>
    ensures { result ≡ next_address (page_count last) space a }
{
    a.checked_add(1)
        .filter(|next| is_address(last, space, *next))
}

// A start address as the chip keeps it: its low 11 bits, or 13 where there are more than 64 pages.
#[tactic(auto, unfolding(crate::specs::Limits::kept_address, crate::specs::Limits::address_bits))]
pub fn kept(last: Page, a: u16) -> u16
    ensures { result ≡ kept_address (page_count last) a }
{
    if last.0 < 64 { a % 0x800 } else { a % 0x2000 }
}

// The byte at an address of a memory.
#[tactic(auto, unfolding(crate::specs::Limits::target_at))]
pub fn target(space: Space, a: u16) -> Target
    ensures { result ≡ target_at space a }
{
    match space {
        Space::Data => Target::Data(DataAddress(a)),
        Space::Status => Target::Status(StatusAddress(a)),
    }
}

// The address of a byte is one of its memory.
#[tactic(auto, unfolding(crate::specs::Limits::target_in_range))]
pub fn target_in_range(last: Page, t: Target) -> bool
    ensures { result ≡ target_in_range (page_count last) t }
{
    is_address(last, t.space(), t.address())
}
