// Reads registers in hexadecimal digits.
ghost use Rattle.std.specs.Prelude.{◌≡◌};
ghost use Rattle.card_text.specs.Hexadecimal.{bytes_of};

use hex::FromHex;

/// The bytes that `N` pairs of digits of either case write, the first pair the first byte, and nothing for another
/// text.
#[tactic(auto, unfolding(crate::specs::Hexadecimal::bytes_of))]
pub fn bytes<const N: usize>(digits: &[u8]) -> Option<[u8; N]>
    ensures { result ≡ bytes_of N digits.now }
{
    <[u8; N] as FromHex>::from_hex(digits).ok()
}
