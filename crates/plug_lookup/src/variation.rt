// The variation at a latitude and a column.
ghost use Rattle.std.specs.Prelude.{◌≡◌};
ghost use Rattle.base_types.specs.Outcome.{outcome_of};
ghost use Rattle.plug_lookup.specs.Lookup.{column_value, page_value, row_value, header_value, lookup_answer};

use crate::{end, header};
use base_types::address::Page;
use base_types::refusal::Refusal;

// How many pages the chip has, as its walk and its page say.
const PAGES: u16 = 64;

// The value of a column on a row page.
#[tactic(auto, using(std::proofs::lemmas::Int::ints), unfolding(crate::specs::Lookup::column_value))]
fn in_column(page: &[u8], column: u32) -> Result<i32, Refusal>
    ensures { outcome_of result ≡ column_value column page.now }
{
    let value = base_tenths::signed_of(header::word_at(page, column));
    if !base_tenths::is_value(value) {
        return Err(Refusal::NoValue);
    }
    Ok(value)
}

#[tactic(auto, using(std::proofs::lemmas::Int::ints), unfolding(crate::specs::Lookup::page_value))]
fn in_page(image: &[u8], column: u32, page: Page) -> Result<i32, Refusal>
    ensures { outcome_of result ≡ page_value 64 image.now column page.0 }
{
    let q = end::of(image, page)?;
    in_column(chip_images::page::part(image, q), column)
}

#[tactic(auto, using(std::proofs::lemmas::Int::ints), unfolding(crate::specs::Lookup::row_value))]
fn in_row(image: &[u8], header: &[u8], column: u32, i: u16) -> Result<i32, Refusal>
    ensures { outcome_of result ≡ row_value 64 image.now header.now column i }
{
    if column >= header::columns(header) as u32 {
        return Err(Refusal::Column);
    }
    in_page(image, column, header::row_page(header, i))
}

#[tactic(auto, using(std::proofs::lemmas::Int::ints), unfolding(crate::specs::Lookup::header_value))]
fn in_header(image: &[u8], latitude: i32, column: u32, header: &[u8]) -> Result<i32, Refusal>
    ensures { outcome_of result ≡ header_value 64 image.now latitude column header.now }
{
    let i = header::row_of(header, PAGES, latitude)?;
    in_row(image, header, column, i)
}

// The value in tenths of a degree. Rows and columns count from 0; the latitude is in tenths. Refused: 1, page 1's own 4 or 5, 16, 17, 18,
// the row page's own 4 or 5, 19.
#[tactic(auto, using(std::proofs::lemmas::Int::ints), unfolding(crate::specs::Lookup::lookup_answer))]
pub fn at(image: &[u8], latitude: i32, column: u32) -> Result<i32, Refusal>
    ensures { outcome_of result ≡ lookup_answer 64 image.now latitude column }
{
    let q = end::of(image, Page(1))?;
    in_header(image, latitude, column, chip_images::page::part(image, q))
}
