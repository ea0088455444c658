// Decimal numbers, read from text.
ghost use Rattle.std.specs.Prelude.{◌≡◌, ◌<◌, ◌≤◌, ◌^◌, IfSome, length};
ghost use Rattle.program_text.specs.Numeral.{digits_from, natural_of, integer_of};

// The number of at most nine digits, which thirty-two bits hold.
#[tactic(auto, using(crate::proofs::Numerals::digits_step, crate::proofs::Numerals::digits_end), unfolding(crate::specs::Numeral::is_digit))]
fn digits(text: &[u8]) -> Option<u32>
    requires { length text.now ≤ 9 }
    ensures value { result ≡ digits_from 0 text.now }
    ensures below { IfSome result (λ x. x < 10 ^ length text.now) }
{
    let mut value: u32 = 0;
    for byte in text {
        if !byte.is_ascii_digit() {
            return None;
        }
        value = 10 * value + (*byte - b'0') as u32;
    }
    Some(value)
}

// A number without a sign, of one to nine digits. The standard library's parse takes a plus sign and ten digits too.
#[tactic(auto, unfolding(crate::specs::Numeral::natural_of))]
pub fn natural(text: &[u8]) -> Option<u32>
    ensures value { result ≡ natural_of text.now }
    ensures below { IfSome result (λ x. x < 10 ^ 9) }
{
    if text.is_empty() || 9 < text.len() {
        return None;
    }
    digits(text)
}

// A number of one to nine digits, with a minus in front or without.
#[tactic(auto, using(crate::proofs::Numerals::minus_first, crate::proofs::Numerals::minus_not_first))]
pub fn integer(text: &[u8]) -> Option<i32>
    ensures { result ≡ integer_of text.now }
{
    match text.strip_prefix(b"-") {
        Some(digits) => natural(digits).map(|x| -(x as i32)),
        None => natural(text).map(|x| x as i32),
    }
}
