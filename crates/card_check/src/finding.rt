// The lines that say what is wrong.
ghost use Rattle.std.specs.Prelude.{IfOk, OnOk, codes, ◌++◌, ◌≡◌};
ghost use Rattle.card_check.specs.Findings.{byte_text, cause_words, end_words, found_text, place_text, quoted_text, wrong_line};
ghost use Rattle.text_out.specs.Writing.{Writes};

use crate::cause::Cause;
use crate::fault::CheckFault;
use crate::stray::stray_words;
use mmc_frame::Kind;
use std::alloc::{AllocError, Global};
use std::io::Write;
use text_out::put::put;
use text_out::{Piece, put_pieces};

/// The most bytes of a line that are shown.
pub(crate) const MAX_SHOWN: usize = 80;

/// A line that is wrong.
#[derive(Clone, Copy, Debug, PartialEq, Eq)]
pub struct Finding<'a> {
    /// Its number, counted from 1.
    pub line: u64,
    /// The line itself.
    pub found: &'a [u8],
    /// What is wrong with it.
    pub cause: Cause,
}

// A byte of a line: itself where it is printable, and `\xHH` otherwise.
fn say_byte(line: &mut Vec<u8>, byte: u8) -> Result<(), AllocError>
    ensures { OnOk result (line.new.items ≡ line.old.items ++ byte_text byte) }
{
    if (b' '..b'\x7f').contains(&byte) {
        line.push(byte)?;
        return Ok(());
    }
    let bytes = [byte];
    match put_pieces(line, &[Piece::Text(b"\\x"), Piece::Hex(&bytes)]) {
        Ok(()) => Ok(()),
        Err(_) => Err(AllocError),
    }
}

// These bytes, so that each of them can be read.
fn say_quoted(line: &mut Vec<u8>, bytes: &[u8]) -> Result<(), AllocError>
    ensures { OnOk result (line.new.items ≡ line.old.items ++ quoted_text bytes.now) }
{
    for byte in bytes {
        say_byte(line, *byte)?;
    }
    Ok(())
}

// What stands after the front of a line.
fn end_words(after: &[u8]) -> &'static [u8]
    ensures { result.now ≡ end_words after.now }
{
    if after.is_empty() { b"\"" } else { b"\".." }
}

// The front of a line in quotes, with dots where it goes on.
#[tactic(auto, unfolding(crate::specs::Findings::found_text))]
fn say_found(line: &mut Vec<u8>, found: &[u8]) -> Result<(), AllocError>
    ensures { OnOk result (line.new.items ≡ line.old.items ++ found_text found.now) }
{
    let (front, after) = found.split_at(found.len().min(MAX_SHOWN));
    line.extend_from_slice(b"\"")?;
    say_quoted(line, front)?;
    let end = end_words(after);
    line.extend_from_slice(end)?;
    Ok(())
}

// Which line of which file it is.
#[tactic(auto, unfolding(crate::specs::Findings::place_text))]
fn say_place(line: &mut Vec<u8>, file: &[u8], number: u64) -> Result<(), AllocError>
    ensures { OnOk result (line.new.items ≡ line.old.items ++ place_text file.now number) }
{
    line.extend_from_slice(file)?;
    match put_pieces(
        line,
        &[
            Piece::Text(b" line "),
            Piece::Number(number),
            Piece::Text(b": "),
        ],
    ) {
        Ok(()) => Ok(()),
        Err(_) => Err(AllocError),
    }
}

// What is wrong, and what was expected.
fn cause_words(cause: Cause) -> &'static [u8]
    ensures { result.now ≡ cause_words cause }
{
    match cause {
        Cause::Stray(stray) => stray_words(stray),
        Cause::UnknownKey =>
            b"no such key; the keys are kind, ocr, cid, csd, sectors, ready, busy, early, length, stop, slow-status, late-status, long-ready, long-busy, long-slow-status, goes-on, locked, fault, scr, rca, cmd8, highspeed, r6-app, ext and ext-changes, each with a space behind it",
        Cause::Value(key) => key.expected(),
        Cause::OtherKind(Kind::Sd) => b"an SD card has no such line, and kind is sd",
        Cause::OtherKind(Kind::Mmc) => b"an eMMC device has no such line, and kind is mmc",
        Cause::Repeated => b"a line above gives the same key, or a fault for the same exchange",
        Cause::TooManyFaults => b"256 faults are planned above, and no more can be",
    }
}

// What is wrong with a line of a file: its number, what was found, and what was expected.
fn wrong_line(
    alloc: Global,
    file: &[u8],
    number: u64,
    found: &[u8],
    words: &[u8],
) -> Result<Vec<u8>, AllocError>
    ensures { IfOk result (λ line. line.items ≡ wrong_line file.now number found.now words.now) }
{
    let mut line = Vec::new(alloc);
    say_place(&mut line, file, number)?;
    say_found(&mut line, found)?;
    line.extend_from_slice(b": ")?;
    line.extend_from_slice(words)?;
    line.push(b'\n')?;
    Ok(line)
}

/// Writes a line that says what is wrong with a line of a file.
///
/// # Errors
/// `NoMemory`; `Write` where a write failed, and a front of the line went out then.
pub(crate) fn put_wrong_line<W: Write>(
    alloc: Global,
    out: &mut W,
    file: &[u8],
    number: u64,
    found: &[u8],
    words: &[u8],
) -> Result<(), CheckFault>
    ensures { Writes (W.contents out.old) (W.contents out.new) result (wrong_line file.now number found.now words.now) }
{
    let line = wrong_line(alloc, file, number, found, words)?;
    put(out, line.as_slice())?;
    Ok(())
}

/// Writes such a line for a finding in a card file.
///
/// # Errors
/// `NoMemory`; `Write` where a write failed, and a front of the line went out then.
pub fn put_finding<W: Write>(
    alloc: Global,
    out: &mut W,
    finding: &Finding<'_>,
) -> Result<(), CheckFault>
    ensures { Writes (W.contents out.old) (W.contents out.new) result
        (wrong_line (codes "card") finding.now.line finding.now.found.now (cause_words finding.now.cause)) }
{
    let words = cause_words(finding.cause);
    put_wrong_line(alloc, out, b"card", finding.line, finding.found, words)
}
