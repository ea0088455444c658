// What a write does to an image: bits only ever go from 1 to 0.
ghost use Rattle.std.specs.Prelude.{◌≡◌, set};
ghost use Rattle.chip_memory.specs.Layout.{page_count};
ghost use Rattle.chip_memory.specs.Memory.{bytes, pages};
ghost use Rattle.chip_memory.specs.Write.{bit_of, status_writable, is_writable, index_of, programmed};

use crate::image::Memory;
use crate::layout::Field;
use crate::{image, layout};
use base_types::address::{Page, StatusAddress, Target};

impl<'a> Memory<'a> {
    // The bit of one of the chip's pages in a field of bits; false where there is no such page.
    #[tactic(auto, unfolding(crate::specs::Write::bit_of, crate::specs::Layout::is_page))]
    fn bit_of(&self, field: Field, p: u16) -> bool
        ensures { result ≡ bit_of (pages self.now) field (bytes self.now) p }
    {
        p <= self.last.0 as u16 && self.page_bit(field, Page((p & 0xFF) as u8))
    }

    // A status byte can be written: it is no gap and no protected redirection byte.
    #[tactic(auto, unfolding(crate::specs::Write::status_writable))]
    pub fn is_status_writable(&self, a: StatusAddress) -> bool
        ensures { result ≡ status_writable (pages self.now) (bytes self.now) a.0 }
    {
        match a.0.checked_sub(layout::REDIRECTION_BYTES) {
            None => layout::is_held(self.last, a),
            Some(p) => self.bit_of(Field::RedirectionProtection, p),
        }
    }

    // A byte can be written: it is no gap and is not protected.
    #[tactic(auto, unfolding(crate::specs::Write::is_writable))]
    pub fn is_writable(&self, t: Target) -> bool
        ensures { result ≡ is_writable (pages self.now) (bytes self.now) t }
    {
        match t {
            Target::Data(a) => self.bit_of(Field::DataProtection, a.0 >> 5),
            Target::Status(a) => self.is_status_writable(a),
        }
    }
}

// Where a byte stands in the image.
#[tactic(auto, unfolding(crate::specs::Write::index_of))]
pub fn index_of(last: Page, t: Target) -> usize
    ensures { result ≡ index_of (page_count last) t }
{
    match t {
        Target::Data(a) => a.0 as usize,
        Target::Status(a) => layout::status_index(last, a),
    }
}

// A byte stored at an index, if there is such an index. By the index itself: std does not say what a slice holds after a write by `get_mut`.
fn put(image: &mut [u8], i: usize, v: u8)
    ensures { image.new ≡ set image.old i v }
{
    if i < image.len() {
        image[i] = v;
    }
}

// A byte is ANDed into its target, unless that is protected or a gap.
#[tactic(auto, unfolding(crate::specs::Write::programmed))]
pub fn program(image: &mut [u8], last: Page, t: Target, byte: u8)
    ensures { image.new ≡ programmed (page_count last) image.old t byte }
{
    let memory = Memory { image, last };
    if memory.is_writable(t) {
        let i = index_of(last, t);
        let old = image::byte_at(image, i);
        put(image, i, old & byte);
    }
}
