// Writes bytes in hexadecimal digits.
ghost use Rattle.std.specs.Prelude.{◌≡◌, ◌<◌, [], ◌∷◌};
ghost use Rattle.text_out.specs.Hex.{hex_digit, hex_text};
ghost use Rattle.text_out.specs.Writing.{Writes};

use crate::put::put;
use std::io::{self, Write};

/// The lower case hexadecimal digit of a number below 16.
pub(crate) fn digit_of(number: u8) -> u8
    requires { number < 16 }
    ensures { result ≡ hex_digit number }
{
    if number < 10 {
        b'0' + number
    } else {
        b'a' - 10 + number
    }
}

// Writes a byte in two digits.
fn put_byte<W: Write>(out: &mut W, byte: u8) -> io::Result<()>
    ensures { Writes (W.contents out.old) (W.contents out.new) result (hex_text (byte ∷ [])) }
{
    put(out, &[digit_of(byte / 16), digit_of(byte % 16)])
}

/// Writes bytes in lower case hexadecimal digits, two a byte.
pub(crate) fn put_hex<W: Write>(out: &mut W, bytes: &[u8]) -> io::Result<()>
    ensures { Writes (W.contents out.old) (W.contents out.new) result (hex_text bytes.now) }
{
    for byte in bytes {
        put_byte(out, *byte)?;
    }
    Ok(())
}
