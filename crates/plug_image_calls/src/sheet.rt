// On stored sheets.
ghost use Rattle.std.specs.Prelude.{◌≡◌};
ghost use Rattle.base_types.specs.Outcome.{outcome_of};
ghost use Rattle.plug_answers.specs.Answers.{told_by};
ghost use Rattle.plug_image_calls.specs.Sheet.{sheet_written, sheet_buffer, sheet_read, read_number, read_image, list_values, list_text};

use crate::lent;
use base_types::refusal::Refusal;
use chip_memory::page;
use plug_answers::{answer, calls};
use plug_sheet::{list, stored};

// The sheet of a number and an image.
#[tactic(auto, unfolding(crate::specs::Sheet::sheet_written, crate::specs::Sheet::sheet_buffer, plug_sheet::specs::Stored::write_buffer))]
pub fn write(number: &[u8], image: &[u8], sheet: &mut [u8]) -> Result<(), Refusal>
    ensures answer { outcome_of result ≡ sheet_written 64 number.now image.now sheet.old }
    ensures sheet { sheet.new ≡ sheet_buffer 64 number.now image.now sheet.old }
{
    lent(image, answer::is_number(number))?;
    stored::write(answer::eight_of(number), image, sheet)
}

// The number and the image of a sheet.
#[tactic(auto, using(crate::proofs::Sheets::number_copied, crate::proofs::Sheets::image_copied), unfolding(crate::specs::Sheet::sheet_read, crate::specs::Sheet::read_number, crate::specs::Sheet::read_image, plug_sheet::specs::Stored::sheet_answer))]
pub fn read(sheet: &[u8], number: &mut [u8], image: &mut [u8]) -> Result<(), Refusal>
    ensures answer { outcome_of result ≡ sheet_read 64 sheet.now number.old image.old }
    ensures number { number.new ≡ read_number 64 sheet.now number.old image.old }
    ensures image { image.new ≡ read_image 64 sheet.now number.old image.old }
{
    lent(image, answer::is_number(number))?;
    stored::judge(sheet)?;
    page::copy(stored::number(sheet), number);
    page::copy(stored::image(sheet), image);
    Ok(())
}

// The list of a sheet; what is told is the text's length, low byte first.
#[tactic(auto, unfolding(crate::specs::Sheet::list_values, crate::specs::Sheet::list_text, plug_sheet::specs::List::list_buffer))]
pub fn list(sheet: &[u8], text: &mut [u8], answer: &[u8]) -> Result<[u8; 2], Refusal>
    ensures answer { told_by (λ bytes. bytes) result ≡ list_values 64 sheet.now text.old answer.now }
    ensures text { text.new ≡ list_text 64 sheet.now text.old answer.now }
{
    calls::judge_answer(answer)?;
    let [low, high, ..] = list::write(sheet, text)?.to_le_bytes();
    Ok([low, high])
}
