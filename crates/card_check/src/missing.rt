// Keys that a card file lacks.
ghost use Rattle.std.specs.Prelude.{◌≡◌};
ghost use Rattle.std.specs.List.{list_any};
ghost use Rattle.text_out.specs.Writing.{Writes};
ghost use Rattle.card_text.specs.Script.{lines};
ghost use Rattle.card_check.specs.Missing.{begins_with, missing_registers, missing_scr, missing_text, missing_texts};

use crate::key::Key;
use card_text::cut::cut;
use std::io::{self, Write};
use text_out::{Piece, put_pieces};

// Whether the first field of a line is this name.
fn begins_with(line: &[u8], name: &[u8]) -> bool
    ensures { result ≡ begins_with name.now line.now }
{
    let (field, _) = cut(line, b' ');
    field == name
}

// Whether some line of a text begins with this name.
fn has_key(text: &[u8], name: &[u8]) -> bool
    ensures { result ≡ list_any (begins_with name.now) (lines text.now) }
{
    let mut rest = Some(text);
    while let Some(text) = rest {
        let (first, others) = cut(text, b'\n');
        if begins_with(first, name) {
            return true;
        }
        rest = others;
    }
    false
}

// That the key of this name is missing, where no line begins with it.
fn put_if_missing<W: Write>(out: &mut W, text: &[u8], name: &[u8], key: Key) -> io::Result<()>
    ensures { Writes (W.contents out.old) (W.contents out.new) result (missing_text (lines text.now) name.now key) }
{
    if has_key(text, name) {
        return Ok(());
    }
    let expected = key.expected();
    put_pieces(
        out,
        &[
            Piece::Text(b"card: a line is missing: "),
            Piece::Text(expected),
            Piece::Text(b"\n"),
        ],
    )
}

// The registers that each card has.
fn put_missing_registers<W: Write>(out: &mut W, text: &[u8]) -> io::Result<()>
    ensures { Writes (W.contents out.old) (W.contents out.new) result (missing_registers (lines text.now)) }
{
    put_if_missing(out, text, b"ocr", Key::Ocr)?;
    put_if_missing(out, text, b"cid", Key::Cid)?;
    put_if_missing(out, text, b"csd", Key::Csd)
}

// The SCR, where the card is an SD card.
fn put_missing_scr<W: Write>(out: &mut W, text: &[u8], is_sd: bool) -> io::Result<()>
    ensures { Writes (W.contents out.old) (W.contents out.new) result (missing_scr is_sd (lines text.now)) }
{
    if is_sd {
        put_if_missing(out, text, b"scr", Key::Scr)
    } else {
        Ok(())
    }
}

/// Writes a line for each key that a card file must have and hasn't; SCR is of SD cards alone.
///
/// # Errors
/// The fault of a write; a front of the lines went out then.
pub fn put_missing<W: Write>(out: &mut W, text: &[u8], is_sd: bool) -> io::Result<()>
    ensures { Writes (W.contents out.old) (W.contents out.new) result (missing_texts is_sd (lines text.now)) }
{
    put_if_missing(out, text, b"kind", Key::Kind)?;
    put_missing_registers(out, text)?;
    put_if_missing(out, text, b"sectors", Key::Sectors)?;
    put_missing_scr(out, text, is_sd)
}
