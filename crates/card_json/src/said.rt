// What a member of an object says.
ghost use Rattle.std.specs.Prelude.{◌≡◌, IfOk, option_map};
ghost use Rattle.serde_json.specs.View.{view};
ghost use Rattle.card_json.specs.Objects.{data_of, shown};

use serde_json::Value;
use std::alloc::{AllocError, Global};
use std::str;

/// What a member of an object says.
#[derive(Clone, Copy, Debug, PartialEq, Eq)]
pub enum Said<'a> {
    /// A word.
    Word(&'a str),
    /// A text, or a question mark where it isn't UTF-8.
    Text(&'a [u8]),
    /// Bytes in lower case hexadecimal digits, two a byte.
    Hex(&'a [u8]),
    /// A number.
    Number(u64),
    /// Whether something holds.
    Truth(bool),
    /// Nothing: the object has no such member.
    Nothing,
}

/// A member of an object.
#[derive(Clone, Copy, Debug, PartialEq, Eq)]
pub struct Member<'a> {
    /// Its name.
    pub name: &'a str,
    /// What it says.
    pub said: Said<'a>,
}

// A text, or a question mark where it isn't UTF-8.
fn shown(text: &[u8]) -> &str
    ensures { result.now ≡ shown text.now }
{
    match str::from_utf8(text) {
        Ok(text) => text,
        Err(_) => "?",
    }
}

/// The value of a member, where it has one.
///
/// # Errors
/// `AllocError` where memory is refused.
pub(crate) fn value_of(alloc: Global, said: Said<'_>) -> Result<Option<Value>, AllocError>
    ensures { IfOk result (λ value. option_map view value ≡ data_of said.entry) }
{
    match said {
        Said::Word(word) => Ok(Some(Value::try_from_str(alloc, word)?)),
        Said::Text(text) => Ok(Some(Value::try_from_str(alloc, shown(text))?)),
        Said::Hex(bytes) => Ok(Some(Value::from(hex::encode(alloc, bytes)?))),
        Said::Number(number) => Ok(Some(Value::from(number))),
        Said::Truth(truth) => Ok(Some(Value::from(truth))),
        Said::Nothing => Ok(None),
    }
}
