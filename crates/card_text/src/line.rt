// Reads one line of a script.
ghost use Rattle.std.specs.Prelude.{◌≡◌, ◌<◌, [], ◌∷◌, IfNone, IfOk, IfSome, length, map};
ghost use Rattle.card_text.specs.Parts.{parts};
ghost use Rattle.card_text.specs.Lines.{part_of, client_of, event_of};

use crate::cut::cut;
use crate::data::data;
use crate::event::ScriptEvent;
use crate::number::number;
use arrayvec::ArrayVec;
use mmc_block::Request;
use mmc_bus::Part;
use std::alloc::{AllocError, Global};

/// The words of a line between spaces, where there are at most six.
pub fn fields(line: &[u8]) -> Option<ArrayVec<&[u8], 6>>
    ensures some { IfSome result (λ fields. map (λ f. f.now) fields.items ≡ parts 32 line.now) }
    ensures none { IfNone result (6 < length (parts 32 line.now)) }
{
    let mut fields = ArrayVec::new();
    let mut rest = Some(line);
    while let Some(text) = rest {
        if fields.is_full() {
            return None;
        }
        let (first, others) = cut(text, b' ');
        fields.push(first);
        rest = others;
    }
    Some(fields)
}

// The partition of this name.
#[tactic(auto, unfolding(crate::specs::Lines::part_of))]
fn part(text: &[u8]) -> Option<Part>
    ensures { result ≡ part_of text.now }
{
    if text == b"user".as_slice() {
        Some(Part::User)
    } else if text == b"boot1".as_slice() {
        Some(Part::Boot1)
    } else if text == b"boot2".as_slice() {
        Some(Part::Boot2)
    } else if text == b"gp1".as_slice() {
        Some(Part::Gp1)
    } else if text == b"gp2".as_slice() {
        Some(Part::Gp2)
    } else if text == b"gp3".as_slice() {
        Some(Part::Gp3)
    } else if text == b"gp4".as_slice() {
        Some(Part::Gp4)
    } else {
        None
    }
}

// The client of this number, below 2^32.
#[tactic(auto, unfolding(crate::specs::Lines::client_of))]
fn client(text: &[u8]) -> Option<u32>
    ensures { result ≡ client_of text.now }
{
    u32::try_from(number(text)?).ok()
}

// An event that one word says.
#[tactic(auto, unfolding(crate::specs::Lines::event_of))]
fn simple(word: &[u8]) -> Option<ScriptEvent>
    ensures { result ≡ event_of (word.now ∷ []) }
{
    if word == b"turn".as_slice() {
        Some(ScriptEvent::Turn)
    } else if word == b"run".as_slice() {
        Some(ScriptEvent::Run)
    } else {
        None
    }
}

// A cancellation.
#[tactic(auto, unfolding(crate::specs::Lines::event_of))]
fn cancellation(word: &[u8], ticket: &[u8]) -> Option<ScriptEvent>
    ensures { result ≡ event_of (word.now ∷ ticket.now ∷ []) }
{
    if word != b"cancel".as_slice() {
        return None;
    }
    let ticket = number(ticket)?;
    Some(ScriptEvent::Cancel { ticket })
}

// The submission of a request that gives no bytes.
#[tactic(auto, unfolding(crate::specs::Lines::event_of))]
fn submission(
    client_text: &[u8],
    verb: &[u8],
    part_text: &[u8],
    start: &[u8],
    count: &[u8],
) -> Option<ScriptEvent>
    ensures { result ≡ event_of (client_text.now ∷ verb.now ∷ part_text.now ∷ start.now ∷ count.now ∷ []) }
{
    let client = client(client_text)?;
    let part = part(part_text)?;
    let start = number(start)?;
    let count = number(count)?;
    let request = if verb == b"read".as_slice() {
        Request::Read { part, start, count }
    } else if verb == b"erase".as_slice() {
        Request::Erase { part, start, count }
    } else if verb == b"trim".as_slice() {
        Request::Trim { part, start, count }
    } else {
        return None;
    };
    Some(ScriptEvent::Submit { client, request })
}

// The submission of a write.
#[tactic(auto, unfolding(crate::specs::Lines::event_of))]
fn write(
    alloc: Global,
    client_text: &[u8],
    verb: &[u8],
    part_text: &[u8],
    start: &[u8],
    count: &[u8],
    bytes: &[u8],
) -> Result<Option<ScriptEvent>, AllocError>
    ensures { IfOk result (λ e. e ≡ event_of (client_text.now ∷ verb.now ∷ part_text.now ∷ start.now ∷ count.now ∷ bytes.now ∷ [])) }
{
    if verb != b"write".as_slice() {
        return Ok(None);
    }
    let (Some(client), Some(part), Some(start), Some(count)) = (
        client(client_text),
        part(part_text),
        number(start),
        number(count),
    ) else {
        return Ok(None);
    };
    let Some(bytes) = data(alloc, bytes)? else {
        return Ok(None);
    };
    Ok(Some(ScriptEvent::Submit {
        client,
        request: Request::Write {
            part,
            start,
            count,
            bytes,
        },
    }))
}

/// What the fields of a line say, and nothing where they are not of the grammar.
#[tactic(auto, unfolding(crate::specs::Lines::event_of))]
pub fn event(alloc: Global, line: &[u8]) -> Result<Option<ScriptEvent>, AllocError>
    ensures { IfOk result (λ e. e ≡ event_of (parts 32 line.now)) }
{
    let Some(fields) = fields(line) else {
        return Ok(None);
    };
    match fields.as_slice() {
        [word] => Ok(simple(word)),
        [word, ticket] => Ok(cancellation(word, ticket)),
        [client, verb, part, start, count] => Ok(submission(client, verb, part, start, count)),
        [client, verb, part, start, count, bytes] => write(
            alloc, client, verb, part, start, count, bytes,
        ),
        _ => Ok(None),
    }
}
