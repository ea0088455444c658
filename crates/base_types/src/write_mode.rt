// The two modes of a write, and the command byte of each.
ghost use Rattle.std.specs.Prelude.{◌≡◌};
ghost use Rattle.base_types.specs.WriteMode.{write_command};

use crate::address::Space;

// Ordinary: a CRC is sent before each pulse. Quick: none is, the data sheet's speed-programming mode.
#[derive(Clone, Copy, Debug, PartialEq, Eq)]
pub enum WriteMode {
    Ordinary,
    Quick,
}

impl WriteMode {
    // The command byte that writes a memory.
    pub fn command(self, space: Space) -> u8
        ensures { result ≡ write_command self space }
    {
        match (self, space) {
            (WriteMode::Ordinary, Space::Data) => 0x0F,
            (WriteMode::Ordinary, Space::Status) => 0x55,
            (WriteMode::Quick, Space::Data) => 0xF3,
            (WriteMode::Quick, Space::Status) => 0xF5,
        }
    }
}
