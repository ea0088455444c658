// Entries on stored sheets.
ghost use Rattle.std.specs.Prelude.{◌≡◌};
ghost use Rattle.plug_answers.specs.Answers.{code_in, answered};
ghost use Rattle.plug_image_calls.specs.Sheet.{sheet_written, sheet_buffer, sheet_read, read_number, read_image, list_values, list_text};

use plug_answers::answer;
use plug_image_calls::sheet;

// The sheet of a number and an image, into a buffer of 2,392 bytes. Refused: 1, 10, 12.
#[unsafe(no_mangle)]
pub extern "C" fn plug_sheet_write(number: &[u8], image: &[u8], sheet: &mut [u8]) -> u32
    ensures code { result ≡ code_in (sheet_written 64 number.now image.now sheet.old) }
    ensures sheet { sheet.new ≡ sheet_buffer 64 number.now image.now sheet.old }
{
    answer::code(sheet::write(number, image, sheet))
}

// The number and the image of a sheet, into buffers of 8 and 2,368 bytes. Refused: 1, 10, 12.
#[unsafe(no_mangle)]
pub extern "C" fn plug_sheet_read(sheet: &[u8], number: &mut [u8], image: &mut [u8]) -> u32
    ensures code { result ≡ code_in (sheet_read 64 sheet.now number.old image.old) }
    ensures number { number.new ≡ read_number 64 sheet.now number.old image.old }
    ensures image { image.new ≡ read_image 64 sheet.now number.old image.old }
{
    answer::code(sheet::read(sheet, number, image))
}

// The list of a sheet, into a buffer of at least 1,576 bytes; the answer has the text's length. Refused: 10, 12.
#[unsafe(no_mangle)]
pub extern "C" fn plug_list(sheet: &[u8], text: &mut [u8], answer: &mut [u8]) -> u32
    ensures code { result ≡ code_in (list_values 64 sheet.now text.old answer.old) }
    ensures answer { answer.new ≡ answered (list_values 64 sheet.now text.old answer.old) answer.old }
    ensures text { text.new ≡ list_text 64 sheet.now text.old answer.old }
{
    answer::tell(sheet::list(sheet, text, answer), answer)
}
