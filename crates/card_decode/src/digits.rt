// Reads hexadecimal digits of either case, with an optional `0x` in front and white space anywhere after it.
ghost use Rattle.std.specs.Prelude.{◌≡◌, ◌++◌, count_by, filter, position, replicate, IfErr, IfOk};
ghost use Rattle.hex.specs.Hex.{decode_of, is_hex_digit};
ghost use Rattle.card_decode.specs.Digits.{has_prefix, is_stray, is_white, stray_in, without_prefix};
ghost use Rattle.card_decode.specs.declared.fault.HexFault.TheVariants.{NoMemory};

use crate::fault::HexFault;
use std::alloc::{AllocError, Global};
use std::iter::repeat_n;

// A space, a tab, a line feed or a carriage return.
fn is_white(byte: u8) -> bool
    ensures { result ≡ is_white byte }
{
    matches!(byte, b' ' | b'\t' | b'\n' | b'\r')
}

// A hexadecimal digit of either case.
fn is_digit(byte: u8) -> bool
    ensures { result ≡ is_hex_digit byte }
{
    matches!(byte, b'0'..=b'9' | b'a'..=b'f' | b'A'..=b'F')
}

// Neither of them.
fn is_stray(byte: u8) -> bool
    ensures { result ≡ is_stray byte }
{
    !is_white(byte) && !is_digit(byte)
}

/// Whether `0x` stands in front.
pub(crate) fn has_prefix(text: &[u8]) -> bool
    ensures { result ≡ has_prefix text.now }
{
    matches!(text, [b'0', b'x' | b'X', ..])
}

/// What stands after a leading `0x`.
pub(crate) fn without_prefix(text: &[u8]) -> &[u8]
    ensures { result.now ≡ without_prefix text.now }
{
    match text {
        [b'0', b'x' | b'X', digits @ ..] => digits,
        _ => text,
    }
}

// Where the first character stands that is no digit and no white space.
fn stray_place(digits: &[u8]) -> Option<usize>
    ensures { result ≡ position is_stray digits.now }
{
    digits.iter().position(|byte| is_stray(*byte))
}

/// The first character that may not stand in a text, as a fault.
#[tactic(auto, unfolding(crate::specs::Digits::stray_in))]
pub(crate) fn stray_in(text: &[u8]) -> Option<HexFault>
    ensures { result ≡ stray_in text.now }
{
    let digits = without_prefix(text);
    match stray_place(digits) {
        Some(after) => {
            let place = text.len() - digits.len() + after;
            let byte = text[place];
            Some(HexFault::Character { byte, place })
        }
        None => None,
    }
}

/// How many digits there are.
pub(crate) fn digit_count(text: &[u8]) -> usize
    ensures { result ≡ count_by is_hex_digit text.now }
{
    text.iter().filter(|byte| is_digit(**byte)).count()
}

// The digits alone, after so many zeros.
fn digits_of(alloc: Global, zeros: usize, text: &[u8]) -> Result<Vec<u8>, AllocError>
    ensures { IfOk result (λ digits. digits.items ≡ replicate zeros 48 ++ filter is_hex_digit text.now) }
{
    let digits = text.iter().copied().filter(|byte| is_digit(*byte));
    repeat_n(b'0', zeros).chain(digits).collect(alloc)
}

/// The bytes that the digits of a text write, after so many zeros.
///
/// # Errors
/// `NoMemory` where memory is refused. Where their number is even nothing else goes wrong.
pub(crate) fn bytes_of(alloc: Global, zeros: usize, text: &[u8]) -> Result<Vec<u8>, HexFault>
    ensures ok { IfOk result (λ bytes. decode_of (replicate zeros 48 ++ filter is_hex_digit text.now) ≡ Ok bytes.items) }
    ensures err { IfErr result (λ fault. fault ≡ NoMemory) }
{
    let digits = digits_of(alloc, zeros, text)?;
    match hex::decode(alloc, digits) {
        Ok(bytes) => Ok(bytes),
        Err(_) => Err(HexFault::NoMemory),
    }
}
