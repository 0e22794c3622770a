// What is wrong with a line.
ghost use Rattle.std.specs.Prelude.{◌≡◌};
ghost use Rattle.card_check.specs.Causes.{cause_of_bad, why_unfit, wrong_with};

use crate::key::Key;
use crate::stray::{Stray, stray_in};
use card_text::card_file::{has_room, is_repeated};
use card_text::card_line::{CardLine, card_line};
use card_text::cut::cut;
use card_text::text_line::Line;
use mmc_frame::Kind;

/// What is wrong with a line of a card file.
#[derive(Clone, Copy, Debug, PartialEq, Eq)]
pub enum Cause {
    /// It has what an editor may have put there.
    Stray(Stray),
    /// It begins with no key.
    UnknownKey,
    /// What stands after the key isn't what has to.
    Value(Key),
    /// No card of this kind has it.
    OtherKind(Kind),
    /// A line above it gives the same.
    Repeated,
    /// It plans one fault too many.
    TooManyFaults,
}

// What is wrong with a line that isn't of the grammar.
fn cause_of_bad(line: &[u8]) -> Cause
    ensures { result ≡ cause_of_bad line.now }
{
    if let Some(stray) = stray_in(line) {
        return Cause::Stray(stray);
    }
    let (key, _) = cut(line, b' ');
    match Key::by(key) {
        Some(key) => Cause::Value(key),
        None => Cause::UnknownKey,
    }
}

// Why what a line says can't stand below those above it, where it can't.
fn why_unfit(kind: Option<Kind>, above: &[CardLine], line: &CardLine) -> Option<Cause>
    ensures { result ≡ why_unfit kind above.now line.now }
{
    match kind {
        Some(kind) if !line.is_of(kind) => return Some(Cause::OtherKind(kind)),
        _ => {}
    }
    if is_repeated(above, line) {
        Some(Cause::Repeated)
    } else if has_room(above, line) {
        None
    } else {
        Some(Cause::TooManyFaults)
    }
}

/// What is wrong with a line below the good ones above it, in a card file of this kind, where something is.
pub fn wrong_with(kind: Option<Kind>, above: &[CardLine], line: &[u8]) -> Option<Cause>
    ensures { result ≡ wrong_with kind above.now line.now }
{
    match card_line(line) {
        Line::Bad => Some(cause_of_bad(line)),
        Line::Skipped => None,
        Line::Says(said) => why_unfit(kind, above, &said),
    }
}
