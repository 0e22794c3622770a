// What clients and the driver said to each other, by the lines of the answers.
ghost use Rattle.std.specs.Prelude.{◌≤◌, length};
ghost use Rattle.card_picture.specs.declared.sequence.TheConstants.{MAX_ROWS};

use crate::answers::Kept;
use card_explain::Step;
use card_picture::{MAX_ROWS, Message};
use std::alloc::{AllocError, Global};

// The most bytes of a line that are shown.
const MOST: usize = 35;

// Whether a line is an answer to a request: its fourth word says what became of it.
fn is_answer(line: &[u8]) -> bool {
    match line.split(|byte| *byte == b' ').nth(3) {
        Some(word) => {
            word == b"done".as_slice() || word == b"data".as_slice() || word == b"failed".as_slice()
        },
        None => false,
    }
}

// The message of a line that was written after so many exchanges.
fn message(line: &[u8], after: u64) -> Message<'_> {
    Message {
        after,
        is_answer: is_answer(line),
        words: line,
    }
}

/// The message with as much of its line as is shown.
pub fn shown(message: Message<'_>) -> Message<'_> {
    Message {
        words: &message.words[..message.words.len().min(MOST)],
        ..message
    }
}

// The line between these places, or a part of it that is there.
fn line_between(text: &[u8], begin: usize, end: usize) -> &[u8] {
    let end = end.min(text.len());
    &text[begin.min(end)..end]
}

/// A message for each line that was kept.
///
/// # Errors
/// `AllocError` where memory is refused.
pub fn said<'a>(alloc: Global, kept: &'a Kept) -> Result<Vec<Message<'a>>, AllocError> {
    let mut said = Vec::new(alloc);
    let mut begin = 0;
    for line in kept.lines.as_slice() {
        let words = line_between(kept.text.as_slice(), begin, line.end);
        said.push(message(words, line.count))?;
        begin = line.end.saturating_add(1);
    }
    Ok(said)
}

/// The messages that were said between the exchanges before the first of these and after the last of them.
///
/// # Errors
/// `AllocError` where memory is refused.
pub fn messages<'a>(
    alloc: Global,
    kept: &'a Kept,
    steps: &[Step],
) -> Result<Vec<Message<'a>>, AllocError> {
    let mut messages = Vec::new(alloc);
    let (Some(first), Some(last)) = (steps.first(), steps.last()) else {
        return Ok(messages);
    };
    let all = said(alloc, kept)?;
    for message in all.as_slice() {
        let is_shown = first.numbered.number <= message.after
            && message.after <= last.numbered.number.saturating_add(1);
        if is_shown {
            messages.push(shown(*message))?;
        }
    }
    Ok(messages)
}

/// As many of these messages as a diagram has room for.
pub fn few<'a>(messages: &'a [Message<'a>]) -> &'a [Message<'a>]
    ensures { length result.now ≤ MAX_ROWS }
{
    &messages[..messages.len().min(MAX_ROWS)]
}
