// Entries on the variation at a latitude and a column, and on the change from one value to another.
ghost use Rattle.std.specs.Prelude.{◌≡◌};
ghost use Rattle.plug_answers.specs.Answers.{code_in, answered};
ghost use Rattle.plug_image_calls.specs.Lookup.{variation_values, sheet_variation_values, change_values};

use plug_answers::answer;
use plug_image_calls::lookup;

// The variation at a latitude and a column. Refused: 1, 10, 4, 5, 16, 17, 18, 4, 5, 19.
#[tactic(auto, using(std::proofs::lemmas::Int::ints))]
#[unsafe(no_mangle)]
pub extern "C" fn plug_variation(image: &[u8], latitude: i32, column: u32, answer: &mut [u8]) -> u32
    ensures code { result ≡ code_in (variation_values 64 image.now latitude column answer.old) }
    ensures answer { answer.new ≡ answered (variation_values 64 image.now latitude column answer.old) answer.old }
{
    answer::tell(lookup::variation(image, latitude, column, answer), answer)
}

// The same from a stored sheet. Refused: 10, 12, then as above from 4 on.
#[tactic(auto, using(std::proofs::lemmas::Int::ints))]
#[unsafe(no_mangle)]
pub extern "C" fn plug_sheet_variation(
    sheet: &[u8],
    latitude: i32,
    column: u32,
    answer: &mut [u8],
) -> u32
    ensures code { result ≡ code_in (sheet_variation_values 64 sheet.now latitude column answer.old) }
    ensures answer { answer.new ≡ answered (sheet_variation_values 64 sheet.now latitude column answer.old) answer.old }
{
    answer::tell(
        lookup::sheet_variation(sheet, latitude, column, answer),
        answer,
    )
}

// The change from an old value to a new one. Refused: 10, 19.
#[tactic(auto, using(std::proofs::lemmas::Int::ints))]
#[unsafe(no_mangle)]
pub extern "C" fn plug_change(old: i32, new: i32, answer: &mut [u8]) -> u32
    ensures code { result ≡ code_in (change_values old new answer.old) }
    ensures answer { answer.new ≡ answered (change_values old new answer.old) answer.old }
{
    answer::tell(lookup::change(old, new, answer), answer)
}
