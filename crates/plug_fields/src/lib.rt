// States as bytes, the kinds of fields: a 16-bit number, an enum by a number, zeros, an array; and the whole in a buffer.
#![tactic(auto)]

ghost use Rattle.std.specs.Prelude.{◌≡◌, ◌++◌, ◌+◌, ◌-◌, length, nat_lt, replicate};
ghost use Rattle.std.specs.Bool.{then_some};
ghost use Rattle.base_types.specs.Outcome.{outcome_of};
ghost use Rattle.plug_fields.specs.Fields.{word, joined, padded, same, rest_at, buffer_outcome, buffer_after, refusal_bytes, mode_byte, mode_of};

use base_types::refusal::Refusal;
use base_types::write_mode::WriteMode;
use chip_memory::{image, page};

// ---- numbers

// The two bytes of a number, low byte first, in the words of the layouts.
pub fn word(x: u16) -> [u8; 2]
    ensures { result ≡ word x }
{
    x.to_le_bytes()
}

// The number of two bytes.
pub fn join(l: u8, h: u8) -> u16
    ensures { result ≡ joined l h }
{
    u16::from_le_bytes([l, h])
}

// The bytes from a place up to another are 0; those past the end count as 0.
pub fn zeros(b: &[u8], from: usize, to: usize) -> bool
    ensures { result ≡ same from (replicate (to - from) 0) b.now }
{
    (from..to.min(b.len())).all(|i| image::byte_at(b, i) == 0)
}

// ---- the mode of a write: no From, which its own crate alone could have

#[tactic(auto, unfolding(crate::specs::Fields::mode_byte))]
pub fn mode_byte(mode: WriteMode) -> u8
    ensures { result ≡ mode_byte mode }
{
    match mode {
        WriteMode::Ordinary => 0,
        WriteMode::Quick => 1,
    }
}

// The mode of a byte; one that is that of none counts as that of the quick mode.
#[tactic(auto, unfolding(crate::specs::Fields::mode_of))]
pub fn mode_of(number: u8) -> WriteMode
    ensures { result ≡ mode_of number }
{
    match number {
        0 => WriteMode::Ordinary,
        _ => WriteMode::Quick,
    }
}

// The mode of a byte, if it is that of one.
pub fn some_mode(number: u8) -> Option<WriteMode>
    ensures { result ≡ then_some (nat_lt number 2) (mode_of number) }
{
    (number < 2).then_some(mode_of(number))
}

// ---- arrays

// So many bytes: these, as far as they go, and zeros.
#[tactic(auto, using(crate::proofs::Laws::padded_is))]
pub fn padded<const N: usize>(bytes: &[u8]) -> [u8; N]
    ensures { result ≡ padded N bytes.now }
{
    let mut all = [0; N];
    page::copy(bytes, &mut all);
    all
}

// The bytes after the front; those past the end count as 0.
#[tactic(auto, using(crate::proofs::Laws::rest_is))]
pub fn rest_of<const N: usize>(bytes: &[u8]) -> [u8; N]
    ensures { result ≡ rest_at N bytes.now }
{
    padded(&bytes[bytes.len().min(16)..])
}

// ---- the whole

// A front and the rest into a buffer as long as both. Refused: 10.
#[tactic(auto, unfolding(crate::specs::Fields::buffer_outcome, crate::specs::Fields::buffer_after))]
pub fn put(front: [u8; 16], rest: &[u8], bytes: &mut [u8]) -> Result<(), Refusal>
    ensures answer { outcome_of result ≡ buffer_outcome (16 + length rest.now) bytes.old }
    ensures bytes { bytes.new ≡ buffer_after (16 + length rest.now) (front ++ rest.now) bytes.old }
{
    if bytes.len() != 16 + rest.len() {
        return Err(Refusal::BufferLength);
    }
    let (head, tail) = bytes.split_at_mut(16);
    head.copy_from_slice(&front);
    tail.copy_from_slice(rest);
    Ok(())
}

// ---- a refusal: its number, and the value that it gives back, 0 where there is none

#[tactic(auto, unfolding(crate::specs::Fields::value_of))]
pub fn refusal_bytes(refusal: Refusal) -> [u8; 2]
    ensures { result ≡ refusal_bytes refusal }
{
    [refusal.number(), refusal.value().unwrap_or(0)]
}
