// The list of a stored chip.
ghost use Rattle.std.specs.Prelude.{◌≡◌, ◌≤◌, length};
ghost use Rattle.base_types.specs.Outcome.{outcome_of};
ghost use Rattle.chip_memory.specs.Layout.{page_count};
ghost use Rattle.plug_sheet.specs.Text.{digit_of, decimal};
ghost use Rattle.plug_sheet.specs.List.{pages_line, verdict_text, verdict_line, page_line, page_lines, counts_line, list_of, refused_line};
ghost use Rattle.plug_sheet.specs.List.{list_answer, list_buffer, refusal_answer, refusal_buffer};

use crate::stored;
use base_types::address::Page;
use base_types::refusal::Refusal;
use base_types::verdict::Verdict;
use chip_memory::image::Memory;
use chip_memory::{layout, page};

// Room that is enough for every list: 40 bytes, and 24 for each page.
const ROOM: usize = 1576;

// The last decimal digit of a number.
#[tactic(auto, unfolding(crate::specs::Text::digit_of))]
fn digit(x: usize) -> u8
    ensures { result ≡ digit_of x }
{
    b'0' + (x % 10) as u8
}

// A text in a buffer, as far as it goes. std's write! would print it too, but does not promise that it succeeds.
#[derive(Drop)]
struct Text<'a> {
    buffer: &'a mut [u8],
    size: usize,
    ghost within: { size ≤ length buffer.now },
}

impl<'a> Text<'a> {
    ghost use Rattle.chip_memory.specs.Memory.{bytes, pages};
    ghost use Rattle.plug_sheet.specs.Writer.{Gains};

    // Bytes, as far as the buffer goes.
    fn put(&mut self, text: &[u8])
        ensures { Gains self.old text.now self.new }
    {
        let rest = &mut self.buffer[self.size..];
        let n = text.len().min(rest.len());
        page::copy(text, rest);
        self.size += n;
    }

    // A number below 1,000, in decimal.
    #[tactic(auto, unfolding(crate::specs::Text::decimal))]
    fn put_decimal(&mut self, x: usize)
        ensures { Gains self.old (decimal x) self.new }
    {
        if x < 10 {
            self.put(&[digit(x)]);
        } else if x < 100 {
            self.put(&[digit(x / 10), digit(x)]);
        } else {
            self.put(&[digit(x / 100), digit(x / 10), digit(x)]);
        }
    }

    // ---- the lines

    fn put_pages(&mut self, last: Page)
        ensures { Gains self.old (pages_line (page_count last)) self.new }
    {
        self.put(b"pages ");
        self.put_decimal(layout::page_count(last));
        self.put(b"\n");
    }

    #[tactic(auto, unfolding(crate::specs::List::verdict_text))]
    fn put_verdict(&mut self, v: Verdict)
        ensures { Gains self.old (verdict_text v) self.new }
    {
        match v {
            Verdict::Final(q, hops) => {
                self.put(b" final ");
                self.put_decimal(q.0 as usize);
                self.put(b" hops ");
                self.put_decimal(hops as usize);
            }
            Verdict::Loop => self.put(b" loop"),
            Verdict::Outside(x) => {
                self.put(b" outside ");
                self.put_decimal(x as usize);
            }
        }
    }

    // A page and what its walk found.
    fn put_line(&mut self, p: Page, v: Verdict)
        ensures { Gains self.old (verdict_line p.0 v) self.new }
    {
        self.put_decimal(p.0 as usize);
        self.put_verdict(v);
        self.put(b"\n");
    }

    // The line of a page, if it is redirected.
    #[tactic(auto, using(crate::proofs::Puts::gains_nothing), unfolding(crate::specs::List::page_line))]
    fn put_page(&mut self, memory: &Memory, p: Page)
        ensures { Gains self.old (page_line (pages memory.now) (bytes memory.now) p.0) self.new }
    {
        if memory.redirection_of(p).0 != 0xFF {
            self.put_line(p, chip_chain::walk::walk(memory, p));
        }
    }

    // The lines of all pages.
    fn put_lines(&mut self, memory: &Memory)
        ensures { Gains self.old (page_lines (pages memory.now) (bytes memory.now) (pages memory.now) 0) self.new }
    {
        for p in 0..=memory.last.0 {
            self.put_page(memory, Page(p));
        }
    }

    fn put_counts(&mut self, memory: &Memory)
        ensures { Gains self.old (counts_line (pages memory.now) (bytes memory.now)) self.new }
    {
        self.put(b"redirected ");
        self.put_decimal(chip_chain::count::redirected_count(memory));
        self.put(b" free ");
        self.put_decimal(chip_chain::count::free_count(memory));
        self.put(b"\n");
    }

    // The whole list of an image.
    fn put_list(&mut self, memory: &Memory)
        ensures { Gains self.old (list_of (pages memory.now) (bytes memory.now)) self.new }
    {
        self.put_pages(memory.last);
        self.put_lines(memory);
        self.put_counts(memory);
    }

    // What is said of a refused sheet.
    fn put_refused(&mut self, number: u8)
        ensures { Gains self.old (refused_line number) self.new }
    {
        self.put(b"sheet refused ");
        self.put_decimal(number as usize);
        self.put(b"\n");
    }
}

// ---- the entries

// The list of a sheet, into a buffer of at least 1,576 bytes: the text's length. Refused: 10, 12; the buffer is then untouched.
#[tactic(auto, unfolding(crate::specs::List::list_answer, crate::specs::List::list_buffer, crate::specs::Stored::sheet_answer))]
pub fn write(sheet: &[u8], text: &mut [u8]) -> Result<usize, Refusal>
    ensures answer { outcome_of result ≡ list_answer 64 sheet.now text.old }
    ensures text { text.new ≡ list_buffer 64 sheet.now text.old }
{
    if text.len() < ROOM {
        return Err(Refusal::BufferLength);
    }
    // Not by judge and a `?`, which takes twice as long where a sheet is refused for its header.
    if !stored::is_sheet(sheet, layout::DS2505) {
        return Err(Refusal::Sheet);
    }
    let mut list = Text {
        buffer: text,
        size: 0,
    };
    list.put_list(&Memory {
        image: stored::image(sheet),
        last: layout::DS2505,
    });
    Ok(list.size)
}

// The line that says why a sheet was refused, into such a buffer: its length. Refused: 10.
#[tactic(auto, unfolding(crate::specs::List::refusal_answer, crate::specs::List::refusal_buffer))]
pub fn write_refusal(refusal: Refusal, text: &mut [u8]) -> Result<usize, Refusal>
    ensures answer { outcome_of result ≡ refusal_answer 64 refusal text.old }
    ensures text { text.new ≡ refusal_buffer 64 refusal text.old }
{
    if text.len() < ROOM {
        return Err(Refusal::BufferLength);
    }
    let mut line = Text {
        buffer: text,
        size: 0,
    };
    line.put_refused(refusal.number());
    Ok(line.size)
}
