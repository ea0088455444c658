// Signed tenths of a degree: decoded from two bytes, judged, and the change from one to another.
#![tactic(auto)]

ghost use Rattle.std.specs.Prelude.{◌≡◌, ℤ, ◌-ℤ◌};
ghost use Rattle.base_types.specs.Outcome.{accepted, outcome_of};
ghost use Rattle.base_tenths.specs.Tenths.{word_of, signed_of, low_bits, is_value, Folds, fold_of, change_answer};

use base_types::refusal::Refusal;

// The 16-bit number of two bytes, low byte first.
#[tactic(auto, unfolding(crate::specs::Tenths::word_of))]
pub fn word_of(low: u8, high: u8) -> u16
    ensures { result ≡ word_of low high }
{
    u16::from_le_bytes([low, high])
}

// A 16-bit number as a signed one.
#[tactic(auto, using(std::proofs::lemmas::Int::ints), unfolding(crate::specs::Tenths::signed_of))]
pub fn signed_of(x: u16) -> i32
    ensures { result ≡ signed_of x }
{
    x.cast_signed() as i32
}

// The low sixteen bits of a number.
#[tactic(auto, using(std::proofs::lemmas::Int::ints), unfolding(crate::specs::Tenths::low_bits))]
pub fn low_bits(v: i32) -> u16
    ensures { result ≡ low_bits v }
{
    (v.cast_unsigned() % 0x10000) as u16
}

// Tenths that are a value: from -1800 to 1799.
#[tactic(auto, using(std::proofs::lemmas::Int::ints), unfolding(crate::specs::Tenths::is_value))]
pub fn is_value(v: i32) -> bool
    ensures { result ≡ is_value v }
{
    -1800 <= v && v <= 1799
}

// A difference of two values, brought into -1800 to 1799 by 3600.
#[tactic(auto, using(std::proofs::lemmas::Int::ints), unfolding(crate::specs::Tenths::fold_of))]
pub fn fold(difference: i32) -> i32
    ensures { result ≡ fold_of difference }
{
    if difference < -1800 {
        return difference + 3600;
    }
    if difference > 1799 {
        return difference - 3600;
    }
    difference
}

// The change from an old value to a new one. Refused: 19.
#[tactic(auto, using(std::proofs::lemmas::Int::ints), unfolding(crate::specs::Tenths::change_answer))]
pub fn change(old: i32, new: i32) -> Result<i32, Refusal>
    ensures answer { outcome_of result ≡ change_answer old new }
    ensures turns { (d : ℤ) → outcome_of result ≡ accepted d → Folds (new -ℤ old) d }
{
    if is_value(old) && is_value(new) {
        Ok(fold(new - old))
    } else {
        Err(Refusal::NoValue)
    }
}
