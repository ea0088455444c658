// The library for programs in C and Rust: numbers and byte slices alone. Every function judges what it is given. A code is 0, or the
// number of a refusal; docs/C-INTERFACE.md has the codes, the bytes of an answer and the bytes of each state.
#![tactic(auto)]

ghost use Rattle.std.specs.Prelude.{◌≡◌};
ghost use Rattle.base_crc.specs.Crc.{crc8_from, crc16_from};

pub mod event_entries;
pub mod image_entries;
pub mod lookup_entries;
pub mod number_entries;
pub mod page_entries;
pub mod publisher_entries;
pub mod sheet_entries;
pub mod update_entries;

// The CRC-8 register after so many more bytes; a cleared one is 0.
#[unsafe(no_mangle)]
pub extern "C" fn plug_crc8(register: u8, bytes: &[u8]) -> u8
    ensures { result ≡ crc8_from register bytes.now }
{
    base_crc::crc8::run(register, bytes)
}

// The CRC-16 register after so many more bytes; it is sent with every bit turned over, low byte first.
#[unsafe(no_mangle)]
pub extern "C" fn plug_crc16(register: u16, bytes: &[u8]) -> u16
    ensures { result ≡ crc16_from register bytes.now }
{
    base_crc::crc16::run(register, bytes)
}
