// Writes bytes and numbers.
ghost use Rattle.std.specs.Fmt.{decimal};
ghost use Rattle.text_out.specs.Writing.{Writes};

use itoa::Buffer;
use std::io::{self, ErrorKind, Write};

/// Writes all of the bytes.
///
/// An `Err` of a write, as an interrupted one, is passed on. A write that takes no bytes is `WriteZero`.
pub fn put<W: Write>(out: &mut W, bytes: &[u8]) -> io::Result<()>
    ensures { Writes (W.contents out.old) (W.contents out.new) result bytes.now }
{
    let mut rest = bytes;
    while !rest.is_empty() {
        match out.write(rest) {
            Ok(0) => return Err(ErrorKind::WriteZero.into()),
            Ok(count) => rest = &rest[count..],
            Err(fault) => return Err(fault),
        }
    }
    Ok(())
}

/// Writes a number in decimal digits.
pub fn put_number<W: Write>(out: &mut W, number: u64) -> io::Result<()>
    ensures { Writes (W.contents out.old) (W.contents out.new) result (decimal number) }
{
    put(out, Buffer::new().format(number).as_bytes())
}
