// CRC-16, x^16 + x^15 + x^2 + 1. The register is cleared first, or loaded with an address, and is sent complemented, low byte first.
ghost use Rattle.std.specs.Prelude.{◌≡◌};
ghost use Rattle.base_crc.specs.Crc.{crc16_byte, crc16_from, crc16_of, crc16_load, crc16_word, crc16_sent};
ghost use Rattle.base_crc.specs.Polynomial.{crc16_polynomial};
ghost use Rattle.base_crc.specs.Table.{table_of, low_nibbles_of, high_nibbles_of, step_by_nibbles};

use crate::crc16_table;

// What is sent of a register: first the low byte, then the high one.
#[derive(Clone, Copy)]
pub struct SentBytes(pub u8, pub u8);

// ---- the table. A constant stands in no memory of its own: each function that names it makes a copy.

// All of it.
fn table() -> [u16; 256]
    ensures { result ≡ table_of crc16_polynomial }
{
    crc16_table::ENTRIES
}

// Its entries at the bytes whose high nibble is 0.
fn low_nibbles() -> [u16; 16]
    ensures { result ≡ low_nibbles_of crc16_polynomial }
{
    crc16_table::LOW_NIBBLES
}

// Its entries at the bytes whose low nibble is 0.
fn high_nibbles() -> [u16; 16]
    ensures { result ≡ high_nibbles_of crc16_polynomial }
{
    crc16_table::HIGH_NIBBLES
}

// ---- the register after more bytes

// One more byte, by the nibbles' entries.
fn step_by_nibbles(low: &[u16; 16], high: &[u16; 16], reg: u16, byte: u8) -> u16
    ensures { result ≡ step_by_nibbles low.now high.now reg byte }
{
    let [place, _] = (reg ^ byte as u16).to_le_bytes();
    (reg >> 8) ^ (low[(place & 15) as usize] ^ high[(place >> 4) as usize])
}

// The register after one more byte. For a single look the whole table would be copied, so this takes the nibbles' entries.
pub fn byte(reg: u16, byte: u8) -> u16
    ensures { result ≡ crc16_byte reg byte }
{
    let low = low_nibbles();
    let high = high_nibbles();
    step_by_nibbles(&low, &high, reg, byte)
}

// The register after so many more bytes. It is kept as a rest and the place of the entry that is still to be xored into it, so that the
// next place waits for one xor after the entry is read, and not for two.
pub fn run(reg: u16, bytes: &[u8]) -> u16
    ensures { result ≡ crc16_from reg bytes.now }
{
    let entries = table();
    let mut rest = reg;
    let mut place = 0u8;
    for b in bytes {
        let next = rest ^ *b as u16;
        let entry = entries[place as usize];
        place = (next ^ entry).to_le_bytes()[0];
        rest = (rest ^ entry) >> 8;
    }
    rest ^ entries[place as usize]
}

// The register after the bytes, from a cleared one.
pub fn of(bytes: &[u8]) -> u16
    ensures { result ≡ crc16_of bytes.now }
{
    run(0, bytes)
}

// The register loaded with an address, which is not shifted in.
pub fn load(address: u16) -> u16
    ensures { result ≡ crc16_load address }
{
    address
}

// The sixteen bits that are sent of a register, as a number: every bit turned over.
pub fn word(reg: u16) -> u16
    ensures { result ≡ crc16_word reg }
{
    !reg
}

// The same as two bytes.
pub fn sent(reg: u16) -> SentBytes
    ensures { result ≡ crc16_sent reg }
{
    let [low, high] = word(reg).to_le_bytes();
    SentBytes(low, high)
}
