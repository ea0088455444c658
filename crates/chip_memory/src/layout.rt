// Where the parts of an image stand: the data of all pages, then the status bytes.
ghost use Rattle.std.specs.Prelude.{◌≡◌};
ghost use Rattle.chip_memory.specs.Layout.{first_address, page_count, data_size, status_index, status_size, image_size, is_image, is_page, field_size, is_within, is_held};

use base_types::address::{Page, StatusAddress};

// The last page of a DS2505.
pub const DS2505: Page = Page(63);

// The status address of page 0's redirection byte.
pub const REDIRECTION_BYTES: u16 = 0x100;

// The three fields of bits of the status memory.
#[derive(Clone, Copy)]
pub enum Field {
    DataProtection,
    RedirectionProtection,
    UsedPages,
}

// The first status address of a field of bits.
#[tactic(auto, unfolding(crate::specs::Layout::first_address))]
pub fn first_address(field: Field) -> u16
    ensures { result ≡ first_address field }
{
    match field {
        Field::DataProtection => 0x000,
        Field::RedirectionProtection => 0x020,
        Field::UsedPages => 0x040,
    }
}

// How many pages there are.
pub fn page_count(last: Page) -> usize
    ensures { result ≡ page_count last }
{
    last.0 as usize + 1
}

// How many data bytes.
pub fn data_size(last: Page) -> usize
    ensures { result ≡ data_size (page_count last) }
{
    32 * page_count(last)
}

// How many status addresses.
pub fn status_size(last: Page) -> u16
    ensures { result ≡ status_size (page_count last) }
{
    REDIRECTION_BYTES + (last.0 as u16 + 1)
}

// How many bytes an image has.
pub fn image_size(last: Page) -> usize
    ensures { result ≡ image_size (page_count last) }
{
    data_size(last) + status_size(last) as usize
}

// A slice is as long as an image.
#[tactic(auto, unfolding(crate::specs::Layout::is_image))]
pub fn is_image(image: &[u8], last: Page) -> bool
    ensures { result ≡ is_image (page_count last) image.now }
{
    image.len() == image_size(last)
}

// A page is one of the chip's.
#[tactic(auto, unfolding(crate::specs::Layout::is_page))]
pub fn is_page(last: Page, page: Page) -> bool
    ensures { result ≡ is_page (page_count last) page.0 }
{
    page <= last
}

// Where the byte of a status address stands in the image.
pub fn status_index(last: Page, a: StatusAddress) -> usize
    ensures { result ≡ status_index (page_count last) a.0 }
{
    data_size(last) + a.0 as usize
}

// An address is one of the size addresses from first on.
#[tactic(auto, unfolding(crate::specs::Layout::is_within))]
fn within(first: u16, size: u16, a: u16) -> bool
    ensures { result ≡ is_within first size a }
{
    a.checked_sub(first).is_some_and(|past| past < size)
}

// An address lies in a field of bits.
fn in_field(last: Page, field: Field, a: u16) -> bool
    ensures { result ≡ is_within (first_address field) (field_size (page_count last)) a }
{
    within(first_address(field), (last.0 as u16 + 1) / 8, a)
}

// A status address holds something; the others are gaps.
#[tactic(auto, unfolding(crate::specs::Layout::is_held))]
pub fn is_held(last: Page, a: StatusAddress) -> bool
    ensures { result ≡ is_held (page_count last) a.0 }
{
    let x = a.0;
    within(REDIRECTION_BYTES, last.0 as u16 + 1, x)
        || in_field(last, Field::DataProtection, x)
        || in_field(last, Field::RedirectionProtection, x)
        || in_field(last, Field::UsedPages, x)
}
