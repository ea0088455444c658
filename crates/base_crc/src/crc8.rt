// CRC-8, x^8 + x^5 + x^4 + 1. The register is cleared first, and is sent as it is.
ghost use Rattle.std.specs.Prelude.{◌≡◌};
ghost use Rattle.base_crc.specs.Crc.{crc8_bit, crc8_byte, crc8_from, crc8_of};

// The register after one more bit.
pub fn bit(reg: u8, bit: bool) -> u8
    ensures { result ≡ crc8_bit reg bit }
{
    if (reg & 1 == 1) == bit {
        reg >> 1
    } else {
        (reg >> 1) ^ 0x8C
    }
}

// The register after one more byte.
pub fn byte(reg: u8, byte: u8) -> u8
    ensures { result ≡ crc8_byte reg byte }
{
    let mut r = reg;
    let mut b = byte;
    for _ in 0..8u8 {
        r = bit(r, b & 1 == 1);
        b = b >> 1;
    }
    r
}

// The register after so many more bytes.
pub fn run(reg: u8, bytes: &[u8]) -> u8
    ensures { result ≡ crc8_from reg bytes.now }
{
    bytes.iter().fold(reg, |r, b| byte(r, *b))
}

// The register after the bytes, from a cleared one.
pub fn of(bytes: &[u8]) -> u8
    ensures { result ≡ crc8_of bytes.now }
{
    run(0, bytes)
}
