// The walk along redirection bytes.
ghost use Rattle.std.specs.Prelude.{◌≡◌};
ghost use Rattle.chip_memory.specs.Memory.{bytes, pages};
ghost use Rattle.chip_chain.specs.Walk.{named_by, walk_of};

use base_types::address::{Page, Redirection};
use base_types::verdict::Verdict;
use chip_memory::image::Memory;
use chip_memory::layout;

// The page that a redirection byte names.
pub fn named_by(b: Redirection) -> Page
    ensures { result.0 ≡ named_by b.0 }
{
    Page(255 - b.0)
}

// The walk from a page.
#[tactic(auto, using(crate::proofs::Walks::steps), unfolding(crate::specs::Walk::walk_of, chip_memory::specs::Layout::is_page))]
pub fn walk(memory: &Memory, page: Page) -> Verdict
    ensures { result ≡ walk_of (pages memory.now) (bytes memory.now) page.0 }
{
    let mut at = page;
    for hops in 0..memory.page_count() {
        let b = memory.redirection_of(at);
        if b.0 == 0xFF {
            return Verdict::Final(at, hops as u8);
        }
        let next = named_by(b);
        if !layout::is_page(memory.last, next) {
            return Verdict::Outside(next.0);
        }
        at = next;
    }
    Verdict::Loop
}
