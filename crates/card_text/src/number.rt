// Reads decimal numbers and hexadecimal bytes.
ghost use Rattle.std.specs.Prelude.{◌≡◌};
ghost use Rattle.card_text.specs.Numbers.{number_of, byte_of};

/// The number that decimal digits write, and nothing for another text.
pub fn number(digits: &[u8]) -> Option<u64>
    ensures { result ≡ number_of digits.now }
{
    if digits.is_empty() {
        return None;
    }
    let mut number = 0_u64;
    for digit in digits {
        if !digit.is_ascii_digit() {
            return None;
        }
        number = number.checked_mul(10)?.checked_add((*digit - b'0') as u64)?;
    }
    Some(number)
}

/// The byte that two hexadecimal digits write, and nothing for another text.
#[tactic(auto, unfolding(crate::specs::Numbers::byte_of))]
pub fn byte(digits: &[u8]) -> Option<u8>
    ensures { result ≡ byte_of digits.now }
{
    if digits.len() != 2 {
        return None;
    }
    let high = char::from(digits[0]).to_digit(16)?;
    let low = char::from(digits[1]).to_digit(16)?;
    Some((16 * high + low) as u8)
}
