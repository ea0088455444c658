// The three commands that read.
ghost use Rattle.std.specs.Prelude.{◌≡◌};
ghost use Rattle.chip_memory.specs.Memory.{bytes, pages};
ghost use Rattle.chip_stage.specs.Reads.{memory_from, status_from, redirection_from, page_from, start_memory, start_status, start_extended, after_memory, after_status, next_status, after_page, next_page};

use crate::stage::{MemoryStage, Outgoing};
use crate::{limits, stage};
use base_types::address::{DataAddress, Page, Space, StatusAddress};
use chip_memory::image::Memory;

// ---- the next byte to send

#[tactic(auto, unfolding(crate::specs::Reads::memory_from))]
pub fn memory_from(memory: &Memory, a: DataAddress, crc: u16) -> MemoryStage
    ensures { result ≡ memory_from (pages memory.now) a crc (bytes memory.now) }
{
    stage::send_byte(Outgoing::MemoryData(a), memory.data_byte(a), crc)
}

#[tactic(auto, unfolding(crate::specs::Reads::status_from))]
pub fn status_from(memory: &Memory, a: StatusAddress, crc: u16) -> MemoryStage
    ensures { result ≡ status_from (pages memory.now) a crc (bytes memory.now) }
{
    stage::send_byte(Outgoing::StatusData(a), memory.status_byte(a), crc)
}

// The redirection byte of the page that an address lies in.
#[tactic(auto, unfolding(crate::specs::Reads::redirection_from))]
pub fn redirection_from(memory: &Memory, a: DataAddress, crc: u16) -> MemoryStage
    ensures { result ≡ redirection_from (pages memory.now) a crc (bytes memory.now) }
{
    let p = Page((a.0 >> 5).to_le_bytes()[0]);
    let b = memory.redirection_of(p);
    stage::send_byte(Outgoing::RedirectionByte(a), b.0, crc)
}

#[tactic(auto, unfolding(crate::specs::Reads::page_from))]
pub fn page_from(memory: &Memory, a: DataAddress, crc: u16) -> MemoryStage
    ensures { result ≡ page_from (pages memory.now) a crc (bytes memory.now) }
{
    stage::send_byte(Outgoing::PageData(a), memory.data_byte(a), crc)
}

// ---- an address is in

#[tactic(auto, unfolding(crate::specs::Reads::start_memory))]
pub fn start_memory(memory: &Memory, a: u16, crc: u16) -> MemoryStage
    ensures { result ≡ start_memory (pages memory.now) a crc (bytes memory.now) }
{
    if limits::is_address(memory.last, Space::Data, a) {
        memory_from(memory, DataAddress(a), crc)
    } else {
        MemoryStage::Silent
    }
}

#[tactic(auto, unfolding(crate::specs::Reads::start_status))]
pub fn start_status(memory: &Memory, a: u16, crc: u16) -> MemoryStage
    ensures { result ≡ start_status (pages memory.now) a crc (bytes memory.now) }
{
    if limits::is_address(memory.last, Space::Status, a) {
        status_from(memory, StatusAddress(a), crc)
    } else {
        MemoryStage::Silent
    }
}

#[tactic(auto, unfolding(crate::specs::Reads::start_extended))]
pub fn start_extended(memory: &Memory, a: u16, crc: u16) -> MemoryStage
    ensures { result ≡ start_extended (pages memory.now) a crc (bytes memory.now) }
{
    if limits::is_address(memory.last, Space::Data, a) {
        redirection_from(memory, DataAddress(a), crc)
    } else {
        MemoryStage::Silent
    }
}

// ---- a byte or a CRC has gone out

#[tactic(auto, unfolding(crate::specs::Reads::after_memory, crate::specs::Limits::next_address, crate::specs::Limits::limit_of))]
pub fn after_memory(memory: &Memory, a: DataAddress, crc: u16) -> MemoryStage
    ensures { result ≡ after_memory (pages memory.now) a crc (bytes memory.now) }
{
    match limits::next(memory.last, Space::Data, a.0) {
        Some(next) => memory_from(memory, DataAddress(next), crc),
        None => stage::send_crc(Outgoing::MemoryCrc, crc),
    }
}

#[tactic(auto, unfolding(crate::specs::Reads::after_status))]
pub fn after_status(memory: &Memory, a: StatusAddress, crc: u16) -> MemoryStage
    ensures { result ≡ after_status (pages memory.now) a crc (bytes memory.now) }
{
    if a.0 % 8 < 7 {
        status_from(memory, StatusAddress(a.0 + 1), crc)
    } else {
        stage::send_crc(Outgoing::StatusCrc(a), crc)
    }
}

#[tactic(auto, unfolding(crate::specs::Reads::next_status, crate::specs::Limits::next_address, crate::specs::Limits::limit_of))]
pub fn next_status(memory: &Memory, a: StatusAddress) -> MemoryStage
    ensures { result ≡ next_status (pages memory.now) a (bytes memory.now) }
{
    match limits::next(memory.last, Space::Status, a.0) {
        Some(next) => status_from(memory, StatusAddress(next), 0),
        None => MemoryStage::Silent,
    }
}

#[tactic(auto, unfolding(crate::specs::Reads::after_page))]
pub fn after_page(memory: &Memory, a: DataAddress, crc: u16) -> MemoryStage
    ensures { result ≡ after_page (pages memory.now) a crc (bytes memory.now) }
{
    if a.0 % 32 < 31 {
        page_from(memory, DataAddress(a.0 + 1), crc)
    } else {
        stage::send_crc(Outgoing::PageCrc(a), crc)
    }
}

#[tactic(auto, unfolding(crate::specs::Reads::next_page, crate::specs::Limits::next_address, crate::specs::Limits::limit_of))]
pub fn next_page(memory: &Memory, a: DataAddress) -> MemoryStage
    ensures { result ≡ next_page (pages memory.now) a (bytes memory.now) }
{
    match limits::next(memory.last, Space::Data, a.0) {
        Some(next) => redirection_from(memory, DataAddress(next), 0),
        None => MemoryStage::Silent,
    }
}
