// Writes what a value stands for, and ends the line.
ghost use Rattle.std.specs.Prelude.{codes, ◌≡◌, ◌==◌, ◌<◌, ◌≤◌, false, find, map};
ghost use Rattle.card_decode.specs.Fields.{is_wide};
ghost use Rattle.card_decode.specs.Words.{IsSmall, characters_text, counted_text, either_date_text, ending_text, has_bit, listed_text, mmc_date_text};
ghost use Rattle.card_decode.specs.Words.{name_in, power_text, printable, product_text, revision_text, said, said_date, set_text};
ghost use Rattle.text_out.specs.Writing.{Writes};

use crate::field::{Meaning, Name, Scale};
use std::io::{self, Write};
use text_out::put::put;
use text_out::{Piece, put_pieces};

// Writes `: TEXT` and a line feed.
fn put_said<W: Write>(out: &mut W, text: &[u8]) -> io::Result<()>
    ensures { Writes (W.contents out.old) (W.contents out.new) result (said text.now) }
{
    put_pieces(
        out,
        &[Piece::Text(b": "), Piece::Text(text), Piece::Text(b"\n")],
    )
}

// Writes so many of a unit.
#[tactic(auto, unfolding(crate::specs::Words::counted_text))]
fn put_counted<W: Write>(out: &mut W, count: u64, unit: &[u8]) -> io::Result<()>
    ensures { Writes (W.contents out.old) (W.contents out.new) result (counted_text count unit.now) }
{
    put_pieces(
        out,
        &[
            Piece::Text(b": "),
            Piece::Number(count),
            Piece::Text(b" "),
            Piece::Text(unit),
            Piece::Text(b"\n"),
        ],
    )
}

// Writes 2 to the power of the value of a unit.
fn put_power<W: Write>(out: &mut W, unit: &[u8], value: u64) -> io::Result<()>
    ensures { Writes (W.contents out.old) (W.contents out.new) result (power_text unit.now value) }
{
    if value < 64 {
        put_counted(out, 1 << value, unit)
    } else {
        put_said(out, b"reserved")
    }
}

// Writes a mantissa times a scale.
fn put_product<W: Write>(out: &mut W, mantissa: Option<u64>, scale: Option<Scale>) -> io::Result<()>
    ensures { Writes (W.contents out.old) (W.contents out.new) result (product_text mantissa scale) }
{
    let (Some(mantissa), Some(scale)) = (mantissa, scale) else {
        return put_said(out, b"reserved");
    };
    match mantissa.checked_mul(scale.factor) {
        Some(count) if mantissa > 0 => put_counted(out, count, scale.unit),
        _ => put_said(out, b"reserved"),
    }
}

// The name of a value.
fn name_in(names: &'static [Name], value: u64) -> &'static [u8]
    ensures { result.now ≡ name_in names.now value }
{
    for name in names {
        if name.value == value {
            return name.text;
        }
    }
    b"reserved"
}

// The name of a value, where one is known.
fn known_name(names: &'static [Name], value: u64) -> Option<Name>
    ensures { result ≡ find (λ name. name.value == value) names.now }
{
    names.iter().copied().find(|name| name.value == value)
}

// Writes the name of a value, where one is known.
fn put_listed<W: Write>(out: &mut W, names: &'static [Name], value: u64) -> io::Result<()>
    ensures { Writes (W.contents out.old) (W.contents out.new) result (listed_text names.now value) }
{
    match known_name(names, value) {
        Some(name) => put_said(out, name.text),
        None => put(out, b"\n"),
    }
}

// Whether a value has this bit, the lowest at 0.
fn has_bit(value: u64, place: u64) -> bool
    ensures { result ≡ has_bit place value }
{
    place < 64 && (value >> place) % 2 == 1
}

// Writes the names of the bits that are set.
fn put_set<W: Write>(out: &mut W, names: &[Name], value: u64) -> io::Result<()>
    ensures { Writes (W.contents out.old) (W.contents out.new) result (set_text (codes ": ") names.now value) }
{
    let mut separator: &[u8] = b": ";
    for name in names {
        if has_bit(value, name.value) {
            put_pieces(out, &[Piece::Text(separator), Piece::Text(name.text)])?;
            separator = b", ";
        }
    }
    put(out, b"\n")
}

// Writes a value in two numbers of four bits.
#[tactic(auto, unfolding(crate::specs::Words::revision_text))]
fn put_revision<W: Write>(out: &mut W, value: u64) -> io::Result<()>
    ensures { Writes (W.contents out.old) (W.contents out.new) result (revision_text value) }
{
    put_pieces(
        out,
        &[
            Piece::Text(b": "),
            Piece::Number(value / 16),
            Piece::Text(b"."),
            Piece::Number(value % 16),
            Piece::Text(b"\n"),
        ],
    )
}

// A character that can be printed stands for itself, another one is a question mark.
fn printable(byte: u8) -> u8
    ensures { result ≡ printable byte }
{
    if (b'!'..=b'~').contains(&byte) {
        byte
    } else {
        b'?'
    }
}

// Puts a question mark in place of each character that can't be printed.
fn make_printable(text: &mut [u8])
    ensures { text.new ≡ map printable text.old }
{
    for byte in text.iter_mut() {
        *byte = printable(*byte);
    }
}

// Writes the characters in so many bytes of a value.
fn put_characters<W: Write>(out: &mut W, count: usize, value: u64) -> io::Result<()>
    requires { count ≤ 8 }
    ensures { Writes (W.contents out.old) (W.contents out.new) result (characters_text count value) }
{
    let mut text = value.to_be_bytes();
    make_printable(&mut text);
    put_said(out, &text[8 - count..])
}

// Writes a month and a year.
#[tactic(auto, unfolding(crate::specs::Words::said_date))]
fn put_date<W: Write>(out: &mut W, month: u64, year: u64) -> io::Result<()>
    ensures { Writes (W.contents out.old) (W.contents out.new) result (said_date month year) }
{
    put_pieces(
        out,
        &[
            Piece::Text(b": "),
            Piece::Number(month),
            Piece::Text(b"/"),
            Piece::Number(year),
            Piece::Text(b"\n"),
        ],
    )
}

// Writes a month of one of two years.
#[tactic(auto, unfolding(crate::specs::Words::either_date_text))]
fn put_either_date<W: Write>(out: &mut W, month: u64, year: u64) -> io::Result<()>
    requires { year < 2010 }
    ensures { Writes (W.contents out.old) (W.contents out.new) result (either_date_text month year) }
{
    put_pieces(
        out,
        &[
            Piece::Text(b": "),
            Piece::Number(month),
            Piece::Text(b"/"),
            Piece::Number(year),
            Piece::Text(b", or "),
            Piece::Number(month),
            Piece::Text(b"/"),
            Piece::Number(year + 16),
            Piece::Text(b" where EXT_CSD_REV is 5 or more\n"),
        ],
    )
}

// Writes the date of an eMMC device.
#[tactic(auto, unfolding(crate::specs::Words::mmc_date_text))]
fn put_mmc_date<W: Write>(out: &mut W, month: u64, year: u64) -> io::Result<()>
    ensures { Writes (W.contents out.old) (W.contents out.new) result (mmc_date_text month year) }
{
    if year < 2010 {
        put_either_date(out, month, year)
    } else {
        put_date(out, month, year)
    }
}

/// Writes what the value of a field stands for, and a line feed.
#[tactic(auto, unfolding(crate::specs::Words::ending_text))]
pub(crate) fn put_ending<W: Write>(out: &mut W, meaning: Meaning, value: u64) -> io::Result<()>
    requires small { IsSmall meaning value }
    requires narrow { is_wide meaning ≡ false }
    ensures { Writes (W.contents out.old) (W.contents out.new) result (ending_text meaning value) }
{
    match meaning {
        Meaning::Number => put(out, b"\n"),
        Meaning::Flag(text) => {
            if value == 0 {
                put(out, b"\n")
            } else {
                put_said(out, text)
            }
        }
        Meaning::Named(names) => put_said(out, name_in(names, value)),
        Meaning::Listed(names) => put_listed(out, names, value),
        Meaning::Bits(names) => put_set(out, names, value),
        Meaning::Scaled(scale) => {
            put_counted(out, (value + scale.offset) * scale.factor, scale.unit)
        }
        Meaning::Power(unit) => put_power(out, unit, value),
        Meaning::Product(mantissas, scales) => {
            let mantissa = mantissas.get((value / 8) as usize).copied();
            let scale = scales.get((value % 8) as usize).copied();
            put_product(out, mantissa, scale)
        }
        Meaning::Text(count) => put_characters(out, count, value),
        Meaning::Revision => put_revision(out, value),
        Meaning::Date => put_date(out, value % 16, value / 16 + 2000),
        Meaning::MmcDate => put_mmc_date(out, value / 16, value % 16 + 1997),
        Meaning::Hexadecimal | Meaning::Reserved => unreachable!(),
    }
}
