// The page at the end of a chain.
ghost use Rattle.std.specs.Prelude.{◌≡◌};
ghost use Rattle.base_types.specs.Outcome.{outcome_of};
ghost use Rattle.plug_lookup.specs.Lookup.{end_of};

use base_types::address::Page;
use base_types::refusal::Refusal;
use base_types::verdict::Verdict;

// Where the chain of a page ends. Refused: 1, 3, 4, 5.
#[tactic(auto, unfolding(crate::specs::Lookup::end_of))]
pub fn of(image: &[u8], page: Page) -> Result<Page, Refusal>
    ensures { outcome_of result ≡ end_of 64 image.now page.0 }
{
    match chip_images::walk::walk(image, page)? {
        Verdict::Final(q, _) => Ok(q),
        Verdict::Loop => Err(Refusal::Loop),
        Verdict::Outside(x) => Err(Refusal::Outside(x)),
    }
}
