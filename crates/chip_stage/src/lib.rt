// The stages of the memory functions of the DS2505: the addresses of each memory, and what a command sends or writes next.
// The CRC takes in a byte when the byte is put out to be sent, or is whole.
#![tactic(auto)]

pub mod limits;
pub mod read;
pub mod stage;
pub mod write;
