// What commands and responses have in common: six bytes, with the argument between the first byte and the check.
ghost use Rattle.std.specs.Prelude.{◌≡◌, true};
ghost use Rattle.mmc_frame.specs.Field.{field};
ghost use Rattle.mmc_frame.specs.Frame.{argument_in, is_sound, number};

use crate::check::check_of;
use byteorder::{BigEndian, ByteOrder};

/// Whether the check of a frame fits the bits that it covers.
pub fn is_sound_frame(frame: &[u8; 6]) -> bool
    ensures { result ≡ is_sound frame.now }
{
    check_of(&frame[..5]) == frame[5] / 2
}

/// The 32 bits between the first byte and the check.
pub fn argument_of(frame: &[u8; 6]) -> u32
    ensures { result ≡ argument_in frame.now }
{
    BigEndian::read_u32(&frame[1..5])
}

/// The frame with this first byte and argument, with its check and its end bit.
pub fn framed(first: u8, argument: u32) -> [u8; 6]
    ensures first { field 47 40 (number result) ≡ first }
    ensures argument { argument_in result ≡ argument }
    ensures sound { is_sound result ≡ true }
    ensures end_bit { field 0 0 (number result) ≡ 1 }
{
    let mut bytes = [0; 4];
    BigEndian::write_u32(&mut bytes, argument);
    let [a, b, c, d] = bytes;
    let check = check_of(&[first, a, b, c, d]);
    [first, a, b, c, d, check * 2 + 1]
}
