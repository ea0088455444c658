// The header, which says which page holds the row of a latitude. Each function takes any bytes; past their end they read 0.
ghost use Rattle.std.specs.Prelude.{◌≡◌, get_or};
ghost use Rattle.base_types.specs.Outcome.{outcome_of};
ghost use Rattle.plug_lookup.specs.Header.{word_at, rows_of, columns_of, edge_of, height_of, row_page, fields_right, pages_right, rest_blank, is_header};
ghost use Rattle.plug_lookup.specs.Header.{lower_edge, covers, row_from, row_answer};

use base_types::address::Page;
use base_types::refusal::Refusal;

// Byte i of a page.
fn byte_at(page: &[u8], i: usize) -> u8
    ensures { result ≡ get_or page.now i 0 }
{
    page.get(i).copied().unwrap_or(0)
}

// The 16-bit number k of a page.
#[tactic(auto, unfolding(crate::specs::Header::word_at))]
pub fn word_at(page: &[u8], k: u32) -> u16
    ensures { result ≡ word_at page.now k }
{
    let i = 2 * k as usize;
    base_tenths::word_of(byte_at(page, i), byte_at(page, i + 1))
}

// ---- the fields

#[tactic(auto, unfolding(crate::specs::Header::rows_of))]
pub fn rows(header: &[u8]) -> u16
    ensures { result ≡ rows_of header.now }
{
    word_at(header, 0)
}

#[tactic(auto, unfolding(crate::specs::Header::columns_of))]
pub fn columns(header: &[u8]) -> u16
    ensures { result ≡ columns_of header.now }
{
    word_at(header, 1)
}

#[tactic(auto, using(std::proofs::lemmas::Int::ints), unfolding(crate::specs::Header::edge_of))]
pub fn edge(header: &[u8]) -> i32
    ensures { result ≡ edge_of header.now }
{
    base_tenths::signed_of(word_at(header, 2))
}

#[tactic(auto, unfolding(crate::specs::Header::height_of))]
pub fn height(header: &[u8]) -> u16
    ensures { result ≡ height_of header.now }
{
    word_at(header, 3)
}

#[tactic(auto, unfolding(crate::specs::Header::row_page))]
pub fn row_page(header: &[u8], i: u16) -> Page
    ensures { result.0 ≡ row_page header.now i }
{
    Page(byte_at(header, 10 + i as usize))
}

// ---- what a header is

#[tactic(auto, unfolding(crate::specs::Header::is_between, crate::specs::Header::fields_right))]
fn are_fields_right(header: &[u8]) -> bool
    ensures { result ≡ fields_right header.now }
{
    matches!(rows(header), 1..=15)
        && matches!(columns(header), 1..=16)
        && 1 <= height(header)
        && word_at(header, 4) == 0
}

fn are_pages_right(header: &[u8], pages: u16) -> bool
    ensures { result ≡ pages_right pages header.now }
{
    (0..rows(header)).all(|i| (row_page(header, i).0 as u16) < pages)
}

fn is_rest_blank(header: &[u8]) -> bool
    ensures { result ≡ rest_blank header.now }
{
    (10 + rows(header) as usize..32).all(|k| byte_at(header, k) == 0xFF)
}

// The bytes are a header for a chip with so many pages.
#[tactic(auto, unfolding(crate::specs::Header::is_header))]
pub fn is_header(header: &[u8], pages: u16) -> bool
    ensures { result ≡ is_header pages header.now }
{
    are_fields_right(header) && are_pages_right(header, pages) && is_rest_blank(header)
}

// ---- the row of a latitude

// The lower edge of row i. Sixty-four bits hold it whatever the bytes are.
#[tactic(auto, using(std::proofs::lemmas::Int::ints), unfolding(crate::specs::Header::lower_edge))]
fn lower_edge(header: &[u8], i: u32) -> i64
    ensures { result ≡ lower_edge header.now i }
{
    let above = i as u64 * height(header) as u64;
    edge(header) as i64 + above as i64
}

#[tactic(auto, using(std::proofs::lemmas::Int::ints), unfolding(crate::specs::Header::covers))]
fn does_cover(header: &[u8], latitude: i32, i: u16) -> bool
    ensures { result ≡ covers header.now latitude i }
{
    lower_edge(header, i as u32) <= latitude as i64
        && (latitude as i64) < lower_edge(header, i as u32 + 1)
}

fn find_row(header: &[u8], latitude: i32) -> Result<u16, Refusal>
    ensures { outcome_of result ≡ row_from header.now latitude (rows_of header.now) 0 }
{
    (0..rows(header))
        .find(|i| does_cover(header, latitude, *i))
        .ok_or(Refusal::Latitude)
}

// The row of a latitude. Refused: 16, 17.
#[tactic(auto, using(std::proofs::lemmas::Int::ints), unfolding(crate::specs::Header::row_answer))]
pub fn row_of(header: &[u8], pages: u16, latitude: i32) -> Result<u16, Refusal>
    ensures { outcome_of result ≡ row_answer pages header.now latitude }
{
    if !is_header(header, pages) {
        return Err(Refusal::Header);
    }
    find_row(header, latitude)
}
