// The variation at a latitude and a column, and the change from one value to another, once the buffers are judged.
ghost use Rattle.std.specs.Prelude.{◌≡◌, ◌/◌, ◌%◌, [], ◌∷◌};
ghost use Rattle.base_tenths.specs.Tenths.{low_bits};
ghost use Rattle.plug_answers.specs.Answers.{told_by};
ghost use Rattle.plug_image_calls.specs.Lookup.{variation_values, sheet_variation_values, change_values};

use crate::lent;
use base_types::refusal::Refusal;
use plug_answers::{answer, calls};

// Tenths of a degree in sixteen bits, low byte first.
fn bytes_of(tenths: i32) -> [u8; 2]
    ensures { result ≡ low_bits tenths % 256 ∷ low_bits tenths / 256 % 256 ∷ [] }
{
    base_tenths::low_bits(tenths).to_le_bytes()
}

// From an image.
#[tactic(auto, using(std::proofs::lemmas::Int::ints), unfolding(crate::specs::Lookup::variation_values))]
pub fn variation(
    image: &[u8],
    latitude: i32,
    column: u32,
    answer: &[u8],
) -> Result<[u8; 2], Refusal>
    ensures { told_by (λ bytes. bytes) result ≡ variation_values 64 image.now latitude column answer.now }
{
    lent(image, answer::is_answer(answer))?;
    plug_lookup::variation::at(image, latitude, column).map(bytes_of)
}

// From a stored sheet.
#[tactic(auto, using(std::proofs::lemmas::Int::ints), unfolding(crate::specs::Lookup::sheet_variation_values))]
pub fn sheet_variation(
    sheet: &[u8],
    latitude: i32,
    column: u32,
    answer: &[u8],
) -> Result<[u8; 2], Refusal>
    ensures { told_by (λ bytes. bytes) result ≡ sheet_variation_values 64 sheet.now latitude column answer.now }
{
    calls::judge_answer(answer)?;
    plug_sheet_lookup::variation(sheet, latitude, column).map(bytes_of)
}

// The change from an old value to a new one.
#[tactic(auto, using(std::proofs::lemmas::Int::ints), unfolding(crate::specs::Lookup::change_values))]
pub fn change(old: i32, new: i32, answer: &[u8]) -> Result<[u8; 2], Refusal>
    ensures { told_by (λ bytes. bytes) result ≡ change_values old new answer.now }
{
    calls::judge_answer(answer)?;
    base_tenths::change(old, new).map(bytes_of)
}
