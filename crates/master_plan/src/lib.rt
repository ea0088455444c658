// The plan of an update: its events in order, each with what its reply has to be. It goes by the kind of the update. Code gives the step
// at a position.
#![tactic(auto)]

ghost use Rattle.std.specs.Prelude.{◌≡◌, ◌+◌, ◌%◌, ◌<◌, get_or};
ghost use Rattle.base_types.specs.Bits.{bit_at};
ghost use Rattle.base_crc.specs.Crc.{crc16_of};
ghost use Rattle.master_plan.specs.Places.{bitmap_address, clearing, page_address, redirection_address, naming, address_of, head_of};
ghost use Rattle.master_plan.specs.Plan.{reset_step, pulse_step, plan_of};
ghost use Rattle.master_plan.specs.Code.At.{send_at, read_at, byte_at, head_byte, head_at, register_at, write_at, part_at};

use crate::kind::UpdateKind;
use base_crc::crc16;
use base_types::address::{DataAddress, Page, Redirection, StatusAddress, Target};
use base_types::bits;
use base_types::write_mode::WriteMode;
use bus_events::Event;
use chip_memory::layout;
use chip_memory::layout::Field;

pub mod kind;

// What the reply to an event has to be: it is not looked at; presence; this bit of a CRC or of a byte read back, which is judged at its
// last bit.
#[derive(Clone, Copy)]
pub enum Wanted {
    Anything,
    Presence,
    Bit(bool),
    LastCrcBit(bool),
    LastBackBit(bool),
}

#[derive(Clone, Copy)]
pub struct Step {
    pub event: Event,
    pub wanted: Wanted,
}

// ---- where an update writes, and what

// The status byte with the bitmap bit of a page.
#[tactic(auto, using(chip_memory::proofs::Sizes::first_low))]
pub fn bitmap_address(t: Page) -> StatusAddress
    ensures is { result ≡ bitmap_address t.0 }
    ensures low { result.0 < 32768 }
{
    StatusAddress(layout::first_address(Field::UsedPages) + (t.0 >> 3) as u16)
}

// The byte that clears that bit and keeps all others.
fn clearing(t: Page) -> u8
    ensures { result ≡ clearing t.0 }
{
    !(1u8 << (t.0 & 7))
}

// The first byte of a page.
fn page_address(t: Page) -> DataAddress
    ensures { result ≡ page_address t.0 }
{
    DataAddress(32 * (t.0 as u16))
}

// The redirection byte of a page.
fn redirection_address(l: Page) -> StatusAddress
    ensures { result ≡ redirection_address l.0 }
{
    StatusAddress(layout::REDIRECTION_BYTES + l.0 as u16)
}

// The redirection byte that names a page.
fn naming(t: Page) -> Redirection
    ensures { result ≡ naming t.0 }
{
    Redirection(255 - t.0)
}

// ---- a byte

// Bit k modulo 16 of a word.
fn word_bit(x: u16, k: u16) -> bool
    ensures { result ≡ bit_at x (k % 16) }
{
    (x >> (k & 15)) & 1 == 1
}

fn reset_step() -> Step
    ensures { result ≡ reset_step }
{
    Step {
        event: bus_events::reset(),
        wanted: Wanted::Presence,
    }
}

fn pulse_step() -> Step
    ensures { result ≡ pulse_step }
{
    Step {
        event: bus_events::pulse(),
        wanted: Wanted::Anything,
    }
}

// Bit i of a byte that is sent.
#[tactic(auto, unfolding(crate::specs::Code::At::send_at))]
fn send_at(b: u8, i: u16) -> Step
    ensures { result ≡ send_at b i }
{
    Step {
        event: bus_events::slot(bits::at(b, (i & 7) as u8)),
        wanted: Wanted::Anything,
    }
}

// Bit i of a number that is read, or, from its last bit on, what is judged.
#[tactic(auto, unfolding(crate::specs::Code::At::read_at))]
fn read_at(v: u16, i: u16, last: u16, judged: Wanted) -> Step
    ensures { result ≡ read_at v i last judged }
{
    let wanted = if i < last {
        Wanted::Bit(word_bit(v, i))
    } else {
        judged
    };
    Step {
        event: bus_events::read_slot(),
        wanted,
    }
}

// A byte, its CRC, its pulse, and the byte read back.
#[tactic(auto, unfolding(crate::specs::Code::At::byte_at))]
fn byte_at(mode: WriteMode, register: u16, old: u8, byte: u8, i: u16) -> Step
    ensures { result ≡ byte_at mode register old byte i }
{
    if i < 8 {
        return send_at(byte, i);
    }
    let after = i - 8;
    let crc = kind::crc_count(mode);
    if after < crc {
        let sent = crc16::word(crc16::byte(register, byte));
        return read_at(sent, after, 15, Wanted::LastCrcBit(word_bit(sent, 15)));
    }
    let rest = after - crc;
    if rest < 1 {
        pulse_step()
    } else {
        let back = u16::from(old & byte);
        read_at(back, rest - 1, 7, Wanted::LastBackBit(word_bit(back, 7)))
    }
}

// ---- a write

// What a write goes by, where it begins, and the byte over which each of its bytes goes.
#[derive(Clone, Copy)]
struct Write {
    kind: UpdateKind,
    target: Target,
    old: u8,
    ghost low: { address_of target < 32768 },
}

impl Write {
    // The bytes of command and address.
    fn head(self) -> [u8; 3]
        ensures { result ≡ head_of self.kind.mode self.target }
    {
        let [low, high] = self.target.address().to_le_bytes();
        [self.kind.mode.command(self.target.space()), low, high]
    }

    // Byte number j of those that select the chip and those of command and address.
    #[tactic(auto, unfolding(crate::specs::Code::At::head_byte))]
    fn head_byte(self, j: u16) -> u8
        ensures { result ≡ head_byte self.kind self.target j }
    {
        let first = kind::selecting(self.kind.selection);
        let head = self.head();
        let j = usize::from(j);
        match j.checked_sub(first.len()) {
            None => first[j],
            Some(k) => head.get(k).copied().unwrap_or(0),
        }
    }

    #[tactic(auto, unfolding(crate::specs::Code::At::head_at))]
    fn head_at(self, i: u16) -> Step
        ensures { result ≡ head_at self.kind self.target i }
    {
        if i < 1 {
            reset_step()
        } else {
            send_at(self.head_byte((i - 1) / 8), i - 1)
        }
    }

    // The CRC register after command and address. Byte by byte, since `crc16::of` copies the whole table, which made a step a fifth slower.
    #[tactic(auto, unfolding(base_crc::specs::Crc::crc_bytes))]
    fn head_register(self) -> u16
        ensures { result ≡ crc16_of (head_of self.kind.mode self.target) }
    {
        let [command, low, high] = self.head();
        crc16::byte(crc16::byte(crc16::byte(0, command), low), high)
    }

    // The register before byte number j: that of command and address, and then the raised address, loaded.
    #[tactic(auto, unfolding(crate::specs::Code::At::register_at))]
    fn register_at(self, j: u16) -> u16
        requires { j < 32768 }
        ensures { result ≡ register_at (address_of self.target) (crc16_of (head_of self.kind.mode self.target)) j }
    {
        if j < 1 {
            self.head_register()
        } else {
            crc16::load(self.target.address() + j)
        }
    }

    // Event i, where these are the bytes that are written.
    #[tactic(auto, unfolding(crate::specs::Code::At::write_at))]
    fn at(self, bytes: &[u8], i: u16) -> Step
        ensures { result ≡ write_at self.kind self.target self.old bytes.now i }
    {
        let head = kind::head_count(self.kind);
        if i < head {
            return self.head_at(i);
        }
        let count = kind::byte_count(self.kind.mode);
        let j = (i - head) / count;
        let byte = bytes.get(usize::from(j)).copied().unwrap_or(0);
        byte_at(
            self.kind.mode,
            self.register_at(j),
            self.old,
            byte,
            (i - head) % count,
        )
    }
}

// ---- the three writes and the closing reset

// To which part of the plan an event belongs, and which it is of that part: the write of the bitmap byte, that of the new page, that of the
// redirection byte, and the closing reset.
#[derive(Clone, Copy)]
pub enum Part {
    Bitmap(u16),
    NewPage(u16),
    Link(u16),
    Closing,
}

#[tactic(auto, unfolding(crate::specs::Code::At::part_at))]
fn part_at(kind: UpdateKind, k: u16) -> Part
    ensures { result ≡ part_at kind k }
{
    let one = kind::one_byte_count(kind);
    let page = kind::full_page_count(kind);
    if k < one {
        return Part::Bitmap(k);
    }
    let data = k - one;
    if data < page {
        return Part::NewPage(data);
    }
    let link = data - page;
    if link < one {
        Part::Link(link)
    } else {
        Part::Closing
    }
}

// Event number k, counted from 0, of the plan that puts the bytes new into page t in the place of page l; used is t's bitmap byte.
#[tactic(auto, using(crate::proofs::At::plan_at))]
pub fn step_at(kind: UpdateKind, l: Page, t: Page, used: u8, new: [u8; 32], k: u16) -> Step
    ensures { result ≡ get_or (plan_of kind l.0 t.0 used new) k reset_step }
{
    match part_at(kind, k) {
        Part::Bitmap(i) => {
            let target = Target::Status(bitmap_address(t));
            let write = Write {
                kind,
                target,
                old: used,
            };
            write.at(&[clearing(t)], i)
        }
        Part::NewPage(i) => {
            let target = Target::Data(page_address(t));
            let write = Write {
                kind,
                target,
                old: 255,
            };
            write.at(&new, i)
        }
        Part::Link(i) => {
            let target = Target::Status(redirection_address(l));
            let write = Write {
                kind,
                target,
                old: 255,
            };
            write.at(&[naming(t).0], i)
        }
        Part::Closing => reset_step(),
    }
}
