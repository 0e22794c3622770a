// Writes the line of a field.
ghost use Rattle.std.specs.Prelude.{◌≡◌, ◌==◌, ◌&&◌, ◌+◌, ◌-◌, ◌*◌, ◌<◌, ◌≤◌, length, true};
ghost use Rattle.std.specs.Int.{byte_at};
ghost use Rattle.mmc_frame.specs.Field.{field};
ghost use Rattle.card_decode.specs.Fields.{can_say, fits, high_bit, is_reserved, low_bit};
ghost use Rattle.card_decode.specs.Registers.{number_of, register_len};
ghost use Rattle.card_decode.specs.Words.{digits_text, ending_text, field_text, label_text, value_text};
ghost use Rattle.text_out.specs.Writing.{Writes};

use crate::bits::{bits, is_zero};
use crate::field::{Field, Meaning};
use crate::meaning::put_ending;
use crate::register::Register;
use std::io::{self, Write};
use text_out::put::{put, put_number};
use text_out::{Piece, put_pieces};

// The highest and the lowest bit of a field.
fn span(register: Register, field: &Field) -> (u16, u16)
    requires { fits register field.now ≡ true }
    ensures high { result.0 ≡ high_bit register field.now }
    ensures low { result.1 ≡ low_bit register field.now }
{
    if register.is_low_first() {
        (8 * field.high + 7, 8 * field.low)
    } else {
        (field.high, field.low)
    }
}

// Writes the name and the place.
#[tactic(auto, unfolding(crate::specs::Words::label_text))]
fn put_label<W: Write>(out: &mut W, field: &Field) -> io::Result<()>
    ensures { Writes (W.contents out.old) (W.contents out.new) result (label_text field.now) }
{
    if field.high == field.low {
        put_pieces(
            out,
            &[
                Piece::Text(field.name),
                Piece::Text(b" ["),
                Piece::Number(u64::from(field.high)),
                Piece::Text(b"] "),
            ],
        )
    } else {
        put_pieces(
            out,
            &[
                Piece::Text(field.name),
                Piece::Text(b" ["),
                Piece::Number(u64::from(field.high)),
                Piece::Text(b":"),
                Piece::Number(u64::from(field.low)),
                Piece::Text(b"] "),
            ],
        )
    }
}

// The byte of a field at this place, the lowest at 0.
fn byte_of(register: Register, bytes: &[u8], high: u16, low: u16, place: u16) -> u8
    requires inside { high < 8 * length bytes.now }
    requires small { high < 4096 }
    requires within { low + 8 * place ≤ high }
    ensures { result ≡ byte_at place (field high low (number_of register bytes.now)) }
{
    let bottom = low + 8 * place;
    bits(register, bytes, high.min(bottom + 7), bottom) as u8
}

// Writes the bytes of a field in hexadecimal digits, the highest first.
fn put_digits<W: Write>(
    out: &mut W,
    register: Register,
    bytes: &[u8],
    high: u16,
    low: u16,
) -> io::Result<()>
    requires ordered { low ≤ high }
    requires inside { high < 8 * length bytes.now }
    requires small { high < 4096 }
    ensures { Writes (W.contents out.old) (W.contents out.new) result (digits_text (high + 1 - low)
        (field high low (number_of register bytes.now))) }
{
    let count = (high - low) / 8 + 1;
    for written in 0..count {
        let byte = byte_of(register, bytes, high, low, count - 1 - written);
        put_pieces(out, &[Piece::Hex(&[byte])])?;
    }
    Ok(())
}

// Writes the value of a field.
#[tactic(auto, unfolding(crate::specs::Words::value_text))]
fn put_value<W: Write>(
    out: &mut W,
    meaning: Meaning,
    register: Register,
    bytes: &[u8],
    high: u16,
    low: u16,
) -> io::Result<()>
    requires ordered { low ≤ high }
    requires inside { high < 8 * length bytes.now }
    requires small { high < 4096 }
    requires said { can_say (high + 1 - low) meaning ≡ true }
    ensures { Writes (W.contents out.old) (W.contents out.new) result (value_text (high + 1 - low) meaning
        (field high low (number_of register bytes.now))) }
{
    if meaning.is_hexadecimal() {
        put(out, b"0x")?;
        put_digits(out, register, bytes, high, low)
    } else {
        put_number(out, bits(register, bytes, high, low))
    }
}

// Writes what the value of a field stands for, and a line feed.
#[tactic(auto, unfolding(crate::specs::Words::ending_text))]
fn put_meaning<W: Write>(
    out: &mut W,
    meaning: Meaning,
    register: Register,
    bytes: &[u8],
    high: u16,
    low: u16,
) -> io::Result<()>
    requires ordered { low ≤ high }
    requires inside { high < 8 * length bytes.now }
    requires said { can_say (high + 1 - low) meaning ≡ true }
    ensures { Writes (W.contents out.old) (W.contents out.new) result (ending_text meaning
        (field high low (number_of register bytes.now))) }
{
    match meaning {
        Meaning::Reserved => put(out, b": not zero\n"),
        Meaning::Hexadecimal => put(out, b"\n"),
        _ => put_ending(out, meaning, bits(register, bytes, high, low)),
    }
}

// Whether a field has no line: it is reserved, and 0.
fn is_silent(meaning: Meaning, register: Register, bytes: &[u8], high: u16, low: u16) -> bool
    requires ordered { low ≤ high }
    requires inside { high < 8 * length bytes.now }
    ensures { result ≡ (is_reserved meaning && (field high low (number_of register bytes.now) == 0)) }
{
    meaning.is_reserved() && is_zero(register, bytes, high, low)
}

/// Writes the line of a field, and nothing for reserved bits that are 0.
pub(crate) fn put_field<W: Write>(
    out: &mut W,
    field: &Field,
    register: Register,
    bytes: &[u8],
) -> io::Result<()>
    requires sized { length bytes.now ≡ register_len register }
    requires fitting { fits register field.now ≡ true }
    ensures { Writes (W.contents out.old) (W.contents out.new) result (field_text register
        (number_of register bytes.now) field.now) }
{
    let (high, low) = span(register, field);
    if is_silent(field.meaning, register, bytes, high, low) {
        return Ok(());
    }
    put_label(out, field)?;
    put_value(out, field.meaning, register, bytes, high, low)?;
    put_meaning(out, field.meaning, register, bytes, high, low)
}
