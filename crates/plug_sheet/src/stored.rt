// The stored sheet: a header of counts and offsets, the registration number, the image.
ghost use Rattle.std.specs.Prelude.{◌≡◌, ◌||◌, ◌+◌, eqb, length, get_or, IsTrue, OnOk};
ghost use Rattle.base_types.specs.Outcome.{outcome_of};
ghost use Rattle.chip_memory.specs.Layout.{page_count, status_index, is_held};
ghost use Rattle.chip_memory.specs.Memory.{bytes, pages};
ghost use Rattle.plug_sheet.specs.Stored.{header_of, sheet_size, gaps_blank, is_sheet, sheet_answer, number_part, image_part, sheet_of, write_answer, write_buffer};

use base_types::address::{Page, StatusAddress};
use base_types::refusal::Refusal;
use chip_memory::image::Memory;
use chip_memory::{image, layout, page};

// Where the number and the image stand.
const NUMBER: usize = 16;

const IMAGE: usize = 24;

// How many bytes a sheet has.
fn sheet_size(last: Page) -> usize
    ensures { result ≡ sheet_size (page_count last) }
{
    IMAGE + layout::image_size(last)
}

// Counts and offsets, low byte first, and six zero bytes.
#[tactic(auto, unfolding(crate::specs::Stored::header_of))]
fn header(last: Page) -> [u8; 16]
    ensures { result ≡ header_of (page_count last) }
{
    let [p0, p1] = (layout::page_count(last) as u16).to_le_bytes();
    let [n0, n1] = (NUMBER as u16).to_le_bytes();
    let [i0, i1] = (IMAGE as u16).to_le_bytes();
    let [s0, s1] = ((IMAGE + layout::data_size(last)) as u16).to_le_bytes();
    let [e0, e1] = (sheet_size(last) as u16).to_le_bytes();
    [p0, p1, n0, n1, i0, i1, s0, s1, e0, e1, 0, 0, 0, 0, 0, 0]
}

// A status address is no gap, or holds FFh. Most bytes of a sheet's status are FFh, and then no field is looked for.
fn gap_blank(memory: &Memory<'_>, a: StatusAddress) -> bool
    ensures { result ≡ (is_held (pages memory.now) a.0 || eqb (get_or (bytes memory.now) (status_index (pages memory.now) a.0) 0) 0xFF) }
{
    image::byte_at(memory.image, layout::status_index(memory.last, a)) == 0xFF
        || layout::is_held(memory.last, a)
}

// An image holds FFh at every gap.
fn gaps_blank(memory: &Memory<'_>) -> bool
    ensures { result ≡ gaps_blank (pages memory.now) (bytes memory.now) }
{
    // Taken apart, so that the check sees a byte.
    let Page(last) = memory.last;
    (0..layout::status_size(Page(last))).all(|a| gap_blank(memory, StatusAddress(a)))
}

// The right length, the right header, and FFh at every gap.
#[tactic(auto, using(crate::proofs::Sheets::front_is), unfolding(crate::specs::Stored::is_sheet))]
pub(crate) fn is_sheet(sheet: &[u8], last: Page) -> bool
    ensures value { result ≡ is_sheet (page_count last) sheet.now }
    ensures size { IsTrue result → length sheet.now ≡ sheet_size (page_count last) }
{
    sheet.len() == sheet_size(last)
        && sheet.starts_with(&header(last))
        && gaps_blank(&Memory {
            image: &sheet[IMAGE..],
            last,
        })
}

// Whether bytes are the sheet of a DS2505. Refused: 12.
#[tactic(auto, unfolding(crate::specs::Stored::sheet_answer))]
pub fn judge(sheet: &[u8]) -> Result<(), Refusal>
    ensures answer { outcome_of result ≡ sheet_answer 64 sheet.now }
    ensures size { OnOk result (length sheet.now ≡ sheet_size 64) }
{
    if !is_sheet(sheet, layout::DS2505) {
        return Err(Refusal::Sheet);
    }
    Ok(())
}

// The registration number, as the part of the sheet that is its own eight bytes; where judge refuses, the empty part.
#[tactic(auto, unfolding(crate::specs::Stored::number_part))]
pub fn number(sheet: &[u8]) -> &[u8]
    ensures { result.now ≡ number_part 64 sheet.now }
{
    match judge(sheet) {
        Ok(()) => &sheet[NUMBER..IMAGE],
        Err(_) => &[],
    }
}

// The image, as its part of the sheet; where judge refuses, the empty part.
#[tactic(auto, unfolding(crate::specs::Stored::image_part))]
pub fn image(sheet: &[u8]) -> &[u8]
    ensures { result.now ≡ image_part 64 sheet.now }
{
    match judge(sheet) {
        Ok(()) => &sheet[IMAGE..],
        Err(_) => &[],
    }
}

// The header, the number and the image, one after the other.
fn fill(number: &[u8; 8], image: &[u8], sheet: &mut [u8], last: Page)
    requires { 24 + length image.now ≡ length sheet.old }
    ensures { sheet.new ≡ sheet_of (page_count last) number.now image.now }
{
    sheet[..NUMBER].copy_from_slice(&header(last));
    sheet[NUMBER..IMAGE].copy_from_slice(number);
    page::copy(image, &mut sheet[IMAGE..]);
}

// The sheet of a number and an image, into a buffer of 2,392 bytes. Refused: 1, 10, 12 for an image with anything but FFh at a gap; the
// buffer is then untouched.
#[tactic(auto, unfolding(chip_memory::specs::Layout::is_image, crate::specs::Stored::write_answer, crate::specs::Stored::write_buffer))]
pub fn write(number: [u8; 8], image: &[u8], sheet: &mut [u8]) -> Result<(), Refusal>
    ensures answer { outcome_of result ≡ write_answer 64 image.now sheet.old }
    ensures sheet { sheet.new ≡ write_buffer 64 number image.now sheet.old }
{
    let last = layout::DS2505;
    if !layout::is_image(image, last) {
        return Err(Refusal::ImageLength);
    }
    if sheet.len() != sheet_size(last) {
        return Err(Refusal::BufferLength);
    }
    if !gaps_blank(&Memory { image, last }) {
        return Err(Refusal::Sheet);
    }
    fill(&number, image, sheet, last);
    Ok(())
}
