// Free pages.
ghost use Rattle.std.specs.Prelude.{◌≡◌};
ghost use Rattle.chip_memory.specs.Memory.{bytes, pages};
ghost use Rattle.chip_chain.specs.Free.{names, is_unnamed, is_free, is_free_other, lowest_free};

use crate::walk;
use base_types::address::{Page, Redirection};
use chip_memory::image::Memory;
use chip_memory::layout::Field;
use chip_memory::page;

// A redirection byte names a page.
pub fn is_named_by(b: Redirection, p: Page) -> bool
    ensures { result ≡ names b.0 p.0 }
{
    b.0 != 0xFF && walk::named_by(b) == p
}

// No redirection byte names a page. A loop, which is faster here than `all`: each page is asked this about each other.
#[tactic(auto, using(crate::proofs::Pages::every_step), unfolding(crate::specs::Free::is_unnamed))]
pub fn is_unnamed(memory: &Memory, p: Page) -> bool
    ensures { result ≡ is_unnamed (pages memory.now) (bytes memory.now) p.0 }
{
    for q in 0..=memory.last.0 {
        if is_named_by(memory.redirection_of(Page(q)), p) {
            return false;
        }
    }
    true
}

// A page is free.
#[tactic(auto, unfolding(crate::specs::Free::is_free))]
pub fn is_free(memory: &Memory, p: Page) -> bool
    ensures { result ≡ is_free (pages memory.now) (bytes memory.now) p.0 }
{
    p.0 != 0
        && memory.page_bit(Field::UsedPages, p)
        && memory.page_bit(Field::DataProtection, p)
        && memory.redirection_of(p).0 == 0xFF
        && page::is_blank(memory.page(p))
        && is_unnamed(memory, p)
}

// A page is free, and is not the one given.
#[tactic(auto, unfolding(crate::specs::Free::is_free_other))]
pub fn is_free_other(memory: &Memory, other: Page, p: Page) -> bool
    ensures { result ≡ is_free_other (pages memory.now) (bytes memory.now) other.0 p.0 }
{
    p != other && is_free(memory, p)
}

// The lowest free page other than the one given.
pub fn lowest_free(memory: &Memory, other: Page) -> Option<Page>
    ensures { result ≡ lowest_free (pages memory.now) (bytes memory.now) other.0 }
{
    (0..=memory.last.0)
        .map(Page)
        .find(|p| is_free_other(memory, other, *p))
}
