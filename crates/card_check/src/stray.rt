// What an editor may have put into a line.
ghost use Rattle.std.specs.Prelude.{◌≡◌};
ghost use Rattle.card_check.specs.Strays.{begins_with_mark, ends_with_return, has_tab, stray_in, stray_words};

/// What an editor may have put into a line: bytes like any other, which no line of a file may have there.
#[derive(Clone, Copy, Debug, PartialEq, Eq)]
pub enum Stray {
    /// A carriage return at its end.
    CarriageReturn,
    /// A byte order mark at its front.
    ByteOrderMark,
    /// A tab.
    Tab,
}

// Whether a line ends with a carriage return.
fn ends_with_return(line: &[u8]) -> bool
    ensures { result ≡ ends_with_return line.now }
{
    match line.last() {
        Some(byte) => *byte == b'\r',
        None => false,
    }
}

// Whether a line begins with a byte order mark.
fn begins_with_mark(line: &[u8]) -> bool
    ensures { result ≡ begins_with_mark line.now }
{
    line.starts_with(b"\xef\xbb\xbf")
}

// Whether a line has a tab.
fn has_tab(line: &[u8]) -> bool
    ensures { result ≡ has_tab line.now }
{
    line.contains(&b'\t')
}

/// What a line has of these, the first of them in this order.
pub(crate) fn stray_in(line: &[u8]) -> Option<Stray>
    ensures { result ≡ stray_in line.now }
{
    if ends_with_return(line) {
        Some(Stray::CarriageReturn)
    } else if begins_with_mark(line) {
        Some(Stray::ByteOrderMark)
    } else if has_tab(line) {
        Some(Stray::Tab)
    } else {
        None
    }
}

/// What is wrong then, and what was expected.
pub(crate) fn stray_words(stray: Stray) -> &'static [u8]
    ensures { result.now ≡ stray_words stray }
{
    match stray {
        Stray::CarriageReturn => {
            b"it ends with a carriage return (0d); lines end with a line feed alone"
        }
        Stray::ByteOrderMark => {
            b"it begins with a byte order mark (ef bb bf), which an editor put there; a file has none"
        }
        Stray::Tab => b"it has a tab (09); one space stands between two fields",
    }
}
