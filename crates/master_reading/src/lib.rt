// A whole page read on a lent image: the page read's start, and its later calls joined to a chip, event by event, until it ends.
#![tactic(auto)]

ghost use Rattle.std.specs.Prelude.{true, ◌≡◌, length};
ghost use Rattle.base_types.specs.Outcome.{outcome_of};
ghost use Rattle.bus_scripts.specs.Script.{left_in};
ghost use Rattle.chip_chain.specs.Walk.{walk_of};
ghost use Rattle.chip_memory.specs.Layout.{is_image, is_page};
ghost use Rattle.master_page_laws.specs.Heard.{page_events_for};
ghost use Rattle.master_page_laws.specs.Laws.{verdict_outcome, verdict_bytes};
ghost use Rattle.master_reading.specs.Reading.{end_told, reading_judged, reading_end, reading_events, reading_buffer};

use base_types::address::Page;
use base_types::refusal::Refusal;
use bus_events::Next;
use chip_entries::event;
use chip_memory::layout;

// How a read ends, at the final page and after so many hops or with a refusal; and how many events reached the chip.
#[derive(Clone, Copy, Debug, PartialEq, Eq)]
pub struct Reading {
    pub end: Result<(Page, u8), Refusal>,
    pub events: u32,
}

fn judge(image: &[u8], page: Page, buffer: &[u8]) -> Result<(), Refusal>
    ensures { outcome_of result ≡ reading_judged 64 image.now page.0 buffer.now }
{
    if !layout::is_image(image, layout::DS2505) {
        return Err(Refusal::ImageLength);
    }
    if buffer.len() != 32 {
        return Err(Refusal::BufferLength);
    }
    if !layout::is_page(layout::DS2505, page) {
        return Err(Refusal::PageNumber);
    }
    Ok(())
}

// Each call gets the reply that the last event drew; the first reply is not looked at. A read ends after 3,921 events at the latest.
fn join(image: &mut [u8], number: [u8; 8], page: Page, buffer: &mut [u8]) -> Reading
    requires { (is_image 64 image.old ≡ true) × (length buffer.old ≡ 32) × (is_page 64 page.0 ≡ true) }
    ensures end { end_told result.end ≡ verdict_outcome (walk_of 64 image.old page.0) }
    ensures events { result.events ≡ length (page_events_for 64 image.old page.0) }
    ensures buffer { buffer.new ≡ left_in (verdict_bytes (walk_of 64 image.old page.0) image.old) buffer.old }
    ensures image { image.new ≡ image.old }
{
    let mut reader = master_page::start(page).state;
    let mut chip = event::power_up(number);
    let mut reply = true;
    let mut events: u32 = 0;
    let end = loop {
        let called = master_page::call(reader, reply, buffer);
        match called.answer {
            Ok(Next::Send(e)) => {
                let stepped = event::event(chip, e, image);
                reader = called.state;
                chip = stepped.state;
                reply = event::line_of(stepped.answer);
                events += 1;
            }
            Ok(Next::End(end)) => break Ok(end),
            Err(refusal) => break Err(refusal),
        }
    };
    Reading { end, events }
}

// The read of a page of the chip with this number whose memory is the image, into a buffer of 32 bytes. Refused, with no event: 1, 10, 3;
// after the events along the chain: 4, 5. The buffer is written under Final alone, and the image stays.
pub fn read(image: &mut [u8], number: [u8; 8], page: Page, buffer: &mut [u8]) -> Reading
    ensures end { end_told result.end ≡ reading_end 64 image.old page.0 buffer.old }
    ensures events { result.events ≡ reading_events 64 image.old page.0 buffer.old }
    ensures buffer { buffer.new ≡ reading_buffer 64 image.old page.0 buffer.old }
    ensures image { image.new ≡ image.old }
{
    match judge(image, page, buffer) {
        Ok(()) => join(image, number, page, buffer),
        Err(refusal) => Reading {
            end: Err(refusal),
            events: 0,
        },
    }
}
