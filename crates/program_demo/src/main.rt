// Shows what a plug on standard input does, page 5 above all: its list, two pages read over the bus, and an update cut after each event
// up to the visible one. Every page is read from the chip by the page read, event by event.
#![tactic(auto)]

use base_types::address::Page;
use base_types::refusal::Refusal;
use chip_memory::image::Memory;
use chip_memory::layout;
use master_plan::kind;
use master_reading::Reading;
use plug_sheet::stored;
use std::{fmt, io};

// The page that is asked for, and the page that is updated.
const ASKED: u8 = 5;

const UPDATED: u8 = 1;

// ---- text

// A refusal by its number, and what it gives back, in the list's words.
#[derive(Clone, Copy)]
struct Told(Refusal);

impl fmt::Display for Told {
    fn fmt<W: fmt::Write>(&self, f: &mut fmt::Formatter<W>) -> fmt::Result {
        write!(f, "refused {}", self.0.number())?;
        match self.0 {
            Refusal::Loop => write!(f, " loop"),
            Refusal::Outside(x) => write!(f, " outside {x}"),
            _ => Ok(()),
        }
    }
}

// How a read ended.
#[derive(Clone, Copy)]
struct End(Result<(Page, u8), Refusal>);

impl fmt::Display for End {
    fn fmt<W: fmt::Write>(&self, f: &mut fmt::Formatter<W>) -> fmt::Result {
        match self.0 {
            Ok((page, hops)) => write!(f, "final {} hops {hops}", page.0),
            Err(refusal) => write!(f, "{}", Told(refusal)),
        }
    }
}

// Which page a redirection byte names.
#[derive(Clone, Copy)]
struct Named(u8);

impl fmt::Display for Named {
    fn fmt<W: fmt::Write>(&self, f: &mut fmt::Formatter<W>) -> fmt::Result {
        match self.0 {
            0xFF => write!(f, "names no page"),
            byte => write!(f, "names page {}", 255 - byte),
        }
    }
}

// What is read after an update: how the read ended, and whose bytes they are.
#[derive(Clone, Copy)]
struct After {
    end: End,
    bytes: &'static str,
}

impl fmt::Display for After {
    fn fmt<W: fmt::Write>(&self, f: &mut fmt::Formatter<W>) -> fmt::Result {
        write!(f, "{}, {}", self.end, self.bytes)
    }
}

// ---- the chip of a sheet

#[derive(Clone, Copy)]
struct Plug {
    number: [u8; 8],
    image: [u8; 2368],
}

impl Plug {
    fn of(sheet: &[u8]) -> Plug {
        let mut number = [0u8; 8];
        chip_memory::page::copy(stored::number(sheet), &mut number);
        let mut image = [0xFFu8; 2368];
        chip_memory::page::copy(stored::image(sheet), &mut image);
        Plug { number, image }
    }

    // A page read over the bus.
    fn read(&self, page: u8, buffer: &mut [u8; 32]) -> Reading {
        let mut image = self.image;
        master_reading::read(&mut image, self.number, Page(page), buffer)
    }

    // The update, cut after so many events.
    fn update(&mut self, events: u32) -> Result<(Page, Page), Refusal> {
        let kind = kind::ordinary();
        master_update::update(
            kind,
            &mut self.image,
            self.number,
            &new_page(),
            Page(UPDATED),
            events,
        )
    }

    // The page read over the bus after an update that was cut after so many events.
    fn read_after(&self, events: u32, buffer: &mut [u8; 32]) -> Reading {
        let mut updated = *self;
        let _ = updated.update(events);
        updated.read(UPDATED, buffer)
    }

    fn is_old(&self, buffer: &[u8; 32]) -> bool {
        let mut old = [0u8; 32];
        self.read(UPDATED, &mut old);
        buffer == &old
    }

    fn after(&self, events: u32) -> After {
        let mut buffer = [0u8; 32];
        let reading = self.read_after(events, &mut buffer);
        let bytes = if self.is_old(&buffer) {
            "the old page"
        } else if buffer == new_page() {
            "the new page"
        } else {
            "neither page"
        };
        After {
            end: End(reading.end),
            bytes,
        }
    }

    fn reads_old(&self, events: u32) -> bool {
        let mut buffer = [0u8; 32];
        self.read_after(events, &mut buffer);
        self.is_old(&buffer)
    }

    // Every cut is tried, up to the last one before another page is read.
    fn last_old(&self) -> u32 {
        let end = whole();
        for k in 0..end {
            if !self.reads_old(k + 1) {
                return k;
            }
        }
        end
    }
}

// The page that is then to be read.
fn new_page() -> [u8; 32] {
    [0x22u8; 32]
}

// How many events a whole update has.
fn whole() -> u32 {
    kind::total(kind::ordinary()) as u32
}

// ---- what a page leads to

fn show_redirection(rt: &impl Print, sheet: &[u8]) -> io::Result<()> {
    let memory = Memory {
        image: stored::image(sheet),
        last: layout::DS2505,
    };
    let byte = memory.redirection_of(Page(ASKED)).0;
    let named = Named(byte);
    let last = memory.last.0;
    println!(rt; "page {ASKED}: redirection byte {byte:02x}h {named}, the last page is {last}")
}

fn show_read(rt: &impl Print, plug: &Plug, page: u8) -> io::Result<()> {
    let mut buffer = [0u8; 32];
    let reading = plug.read(page, &mut buffer);
    let (end, events) = (End(reading.end), reading.events);
    println!(rt; "page {page} read over the bus: {end}, after {events} events")
}

// ---- an update

fn show_cut(rt: &impl Print, plug: &Plug, events: u32) -> io::Result<()> {
    let after = plug.after(events);
    println!(rt; "update of page {UPDATED}, cut after event {events}: {after}")
}

// At the visible event, and at the one before it.
fn show_cuts(rt: &impl Print, plug: &Plug) -> io::Result<()> {
    let before = plug.last_old();
    if before < whole() {
        show_cut(rt, plug, before)?;
        show_cut(rt, plug, before + 1)?;
    }
    Ok(())
}

fn show_update(rt: &impl Print, plug: &Plug) -> io::Result<()> {
    let mut untouched = *plug;
    match untouched.update(0) {
        Err(refusal) => {
            let told = Told(refusal);
            println!(rt; "update of page {UPDATED}: {told}")
        }
        Ok(_) => {
            show_cuts(rt, plug)?;
            let events = whole();
            let after = plug.after(events);
            println!(rt; "update of page {UPDATED}, all {events} events: {after}")
        }
    }
}

fn show(rt: &impl Print, sheet: &[u8]) -> io::Result<()> {
    let plug = Plug::of(sheet);
    show_redirection(rt, sheet)?;
    program_listing::print(rt, sheet)?;
    show_read(rt, &plug, ASKED)?;
    show_read(rt, &plug, UPDATED)?;
    show_update(rt, &plug)
}

fn main(rt: HostRuntime) -> io::Result<()> {
    let mut input = [0u8; 2393];
    let sheet = program_listing::read(&mut rt.stdin(), &mut input)?;
    match stored::judge(sheet) {
        Ok(()) => show(&rt, sheet),
        Err(_) => program_listing::print(&rt, sheet),
    }
}
