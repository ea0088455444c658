// How many pages are free, and how many are redirected.
ghost use Rattle.std.specs.Prelude.{◌≡◌};
ghost use Rattle.chip_memory.specs.Memory.{bytes, pages};
ghost use Rattle.chip_chain.specs.Walk.{is_redirected, redirected_count};
ghost use Rattle.chip_chain.specs.Free.{free_count};

use crate::free;
use base_types::address::Page;
use chip_memory::image::Memory;

// A page is redirected.
fn is_redirected(memory: &Memory, p: Page) -> bool
    ensures { result ≡ is_redirected (pages memory.now) (bytes memory.now) p.0 }
{
    memory.redirection_of(p).0 != 0xFF
}

// How many pages are free.
pub fn free_count(memory: &Memory) -> usize
    ensures { result ≡ free_count (pages memory.now) (bytes memory.now) }
{
    (0..=memory.last.0)
        .filter(|p| free::is_free(memory, Page(*p)))
        .count()
}

// How many pages are redirected.
pub fn redirected_count(memory: &Memory) -> usize
    ensures { result ≡ redirected_count (pages memory.now) (bytes memory.now) }
{
    (0..=memory.last.0)
        .filter(|p| is_redirected(memory, Page(*p)))
        .count()
}
