// The words of a line, and its other parts.
ghost use Rattle.std.specs.Prelude.{◌≡◌, drop, option_map, slice_get};
ghost use Rattle.card_text.specs.Parts.{left_parts, parts};
ghost use Rattle.card_json.specs.Objects.{data_of};
ghost use Rattle.card_json.specs.Words.{is_word, number_at, text_at};

use crate::said::Said;
use card_text::cut::cut;
use card_text::number::number;

// What stands after the first word.
fn after_word(rest: Option<&[u8]>) -> Option<&[u8]>
    ensures { left_parts 32 result ≡ drop 1 (left_parts 32 rest.entry) }
{
    match rest {
        Some(text) => cut(text, b' ').1,
        None => None,
    }
}

// What stands after the first `n` words.
fn after_words(line: &[u8], n: usize) -> Option<&[u8]>
    ensures { left_parts 32 result ≡ drop n (parts 32 line.now) }
{
    let mut rest = Some(line);
    for _word in 0..n {
        rest = after_word(rest);
    }
    rest
}

// Word `n` of a line, counted from 0, where it has so many.
fn word(line: &[u8], n: usize) -> Option<&[u8]>
    ensures { option_map (λ word. word.now) result ≡ slice_get (parts 32 line.now) n }
{
    match after_words(line, n) {
        Some(text) => Some(cut(text, b' ').0),
        None => None,
    }
}

/// Whether word `n` of a line is this one.
pub(crate) fn is_word(line: &[u8], n: usize, word_there: &[u8]) -> bool
    ensures { result ≡ is_word (parts 32 line.now) n word_there.now }
{
    match word(line, n) {
        Some(word) => word == word_there,
        None => false,
    }
}

/// Word `n` of a line as a text.
pub(crate) fn text_at(line: &[u8], n: usize) -> Said<'_>
    ensures { data_of result ≡ text_at (parts 32 line.now) n }
{
    match word(line, n) {
        Some(word) => Said::Text(word),
        None => Said::Nothing,
    }
}

/// Word `n` of a line as a number.
pub(crate) fn number_at(line: &[u8], n: usize) -> Said<'static>
    ensures { data_of result ≡ number_at (parts 32 line.now) n }
{
    match word(line, n) {
        Some(word) => match number(word) {
            Some(number) => Said::Number(number),
            None => Said::Nothing,
        },
        None => Said::Nothing,
    }
}
