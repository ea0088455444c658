// The bits of a number, by shift and mask. All bytes go least significant bit first.
ghost use Rattle.std.specs.Prelude.{◌≡◌, ◌%◌};
ghost use Rattle.base_types.specs.Bits.{odd, bit_at, shift_in};

// The lowest bit of a 16-bit register.
pub fn low(x: u16) -> bool
    ensures { result ≡ odd x }
{
    x & 1 == 1
}

// Bit k modulo 8 of a byte.
pub fn at(x: u8, k: u8) -> bool
    ensures { result ≡ bit_at x (k % 8) }
{
    (x >> (k & 7)) & 1 == 1
}

// The register that collects a byte: it shifts right, and the new bit comes in on top.
pub fn shift_in(register: u8, bit: bool) -> u8
    ensures { result ≡ shift_in register bit }
{
    if bit {
        (register >> 1) | 0x80
    } else {
        register >> 1
    }
}
