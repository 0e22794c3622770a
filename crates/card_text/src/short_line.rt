// A short line of the output, which is put together before it is written: a write costs more than the bytes of a line.
ghost use Rattle.std.specs.Prelude.{◌≡◌, ◌≤◌, ◌+◌, ◌++◌, length};
ghost use Rattle.std.specs.Fmt.{decimal};

use arrayvec::ArrayVec;
use itoa::Buffer;

/// The most bytes of a short line: two numbers, and some words.
pub const MAX_SHORT: usize = 80;

/// The bytes of a short line, or of its front.
pub type ShortLine = ArrayVec<u8, MAX_SHORT>;

/// Goes on with these bytes.
pub fn add_text(line: &mut ShortLine, text: &[u8])
    requires room { length line.old.items + length text.now ≤ MAX_SHORT }
    ensures { line.new.items ≡ line.old.items ++ text.now }
{
    let _ = line.try_extend_from_slice(text);
}

/// Goes on with a number in decimal digits, which are twenty at most.
pub fn add_number(line: &mut ShortLine, number: u64)
    requires room { length line.old.items + 20 ≤ MAX_SHORT }
    ensures text { line.new.items ≡ line.old.items ++ decimal number }
    ensures short { length line.new.items ≤ length line.old.items + 20 }
{
    let mut digits = Buffer::new();
    let _ = line.try_extend_from_slice(digits.format(number).as_bytes());
}
