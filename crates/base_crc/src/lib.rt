// The two CRCs of Application Note 27, least significant bit first: CRC-16 by a table, a byte at a time, and CRC-8 a bit at a time.
#![tactic(auto)]

pub mod crc16;
mod crc16_table;
pub mod crc8;
