// The lines of a register as objects.
ghost use Rattle.std.specs.Prelude.{◌++◌, ◌-◌, ◌≡◌, OnOk, drop, length, option_map, take};
ghost use Rattle.card_text.specs.Parts.{without_feed};
ghost use Rattle.card_text.specs.Script.{lines};
ghost use Rattle.card_json.specs.Fields.{field_said, fields_text, line_said, meaning_of, past, place, upto, words_said};
ghost use Rattle.card_json.specs.Objects.{data_of, object_line};

use crate::object::put_object;
use crate::said::{Member, Said};
use card_text::cut::{cut, without_feed};
use std::alloc::{AllocError, Global};

// Where the first byte `at` of a text stands.
fn place(text: &[u8], at: u8) -> Option<usize>
    ensures { result ≡ place at text.now }
{
    text.iter().position(|byte| *byte == at)
}

// What stands before the first byte `at`, or all where there is none.
fn upto(text: &[u8], at: u8) -> &[u8]
    ensures { result.now ≡ upto (place at text.now) text.now }
{
    match place(text, at) {
        Some(place) => &text[..place],
        None => text,
    }
}

// What stands after the first byte `at`, where there is one.
fn past(text: &[u8], at: u8) -> Option<&[u8]>
    ensures { option_map (λ rest. rest.now) result ≡ past (place at text.now) text.now }
{
    match place(text, at) {
        Some(place) => Some(&text[place + 1..]),
        None => None,
    }
}

// A text without its first byte.
fn without_first(text: &[u8]) -> &[u8]
    ensures { result.now ≡ drop 1 text.now }
{
    if text.is_empty() { text } else { &text[1..] }
}

// A text without its last byte.
fn without_last(text: &[u8]) -> &[u8]
    ensures { result.now ≡ take (length text.now - 1) text.now }
{
    &text[..text.len().saturating_sub(1)]
}

// Writes a line as it is.
fn put_words(alloc: Global, out: &mut Vec<u8>, line: &[u8]) -> Result<(), AllocError>
    ensures { OnOk result (out.new.items ≡ out.old.items ++ object_line (words_said line.now)) }
{
    let words = Member {
        name: "words",
        said: Said::Text(line),
    };
    put_object(alloc, out, &[words])
}

// What a value stands for.
fn meaning(tail: &[u8]) -> Said<'_>
    ensures { data_of result ≡ meaning_of tail.now }
{
    match past(tail, b':') {
        Some(meaning) => Said::Text(without_first(meaning)),
        None => Said::Nothing,
    }
}

// Writes the line of a field: its name and a space, its bits between brackets, and a space with its value and what that stands for.
fn put_field<'a>(
    alloc: Global,
    out: &mut Vec<u8>,
    front: &'a [u8],
    bits: &'a [u8],
    tail: &'a [u8],
) -> Result<(), AllocError>
    ensures { OnOk result (out.new.items ≡ out.old.items ++ object_line (field_said front.now bits.now tail.now)) }
{
    let members = [
        Member {
            name: "field",
            said: Said::Text(without_last(front)),
        },
        Member {
            name: "bits",
            said: Said::Text(bits),
        },
        Member {
            name: "value",
            said: Said::Text(without_first(upto(tail, b':'))),
        },
        Member {
            name: "meaning",
            said: meaning(tail),
        },
    ];
    put_object(alloc, out, &members)
}

// Writes a line.
fn put_line(alloc: Global, out: &mut Vec<u8>, line: &[u8]) -> Result<(), AllocError>
    ensures { OnOk result (out.new.items ≡ out.old.items ++ object_line (line_said line.now)) }
{
    let Some(rest) = past(line, b'[') else {
        return put_words(alloc, out, line);
    };
    match past(rest, b']') {
        Some(tail) => put_field(alloc, out, upto(line, b'['), upto(rest, b']'), tail),
        None => put_words(alloc, out, line),
    }
}

// Writes an object for each line of a text.
fn put_lines(alloc: Global, out: &mut Vec<u8>, text: &[u8]) -> Result<(), AllocError>
    ensures { OnOk result (out.new.items ≡ out.old.items ++ fields_text (lines text.now)) }
{
    let mut rest = Some(text);
    while let Some(text) = rest {
        let (line, others) = cut(text, b'\n');
        put_line(alloc, out, line)?;
        rest = others;
    }
    Ok(())
}

/// Writes each line of what `decode` prints of a register or a frame as an object on a line: that of a field has its name as `field`,
/// its `bits`, of an EXT_CSD its bytes, its `value` and, where there is one, its `meaning`, all as the line has them; another line is
/// `words`.
///
/// # Errors
/// `AllocError` where memory is refused.
pub fn put_fields(alloc: Global, out: &mut Vec<u8>, text: &[u8]) -> Result<(), AllocError>
    ensures { OnOk result (out.new.items ≡ out.old.items ++ fields_text (lines (without_feed text.now))) }
{
    put_lines(alloc, out, without_feed(text))
}
