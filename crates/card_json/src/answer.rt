// The lines of answers as objects.
ghost use Rattle.std.specs.Prelude.{◌++◌, ◌≡◌, OnOk};
ghost use Rattle.card_text.specs.Parts.{parts};
ghost use Rattle.card_json.specs.Answers.{answer_said, cancelled_said, code_of, data_word, given_said, refused_said};
ghost use Rattle.card_json.specs.Objects.{data_of, object_line};

use crate::object::put_object;
use crate::said::{Member, Said};
use crate::words::{is_word, number_at, text_at};
use std::alloc::{AllocError, Global};

// Writes `WHO N refused NO NAME`.
fn put_refused<'a>(
    alloc: Global,
    out: &mut Vec<u8>,
    who: &'a str,
    line: &'a [u8],
    after: u64,
) -> Result<(), AllocError>
    ensures { OnOk result (out.new.items ≡ out.old.items ++ object_line (refused_said who.now (parts 32 line.now) after)) }
{
    let members = [
        Member {
            name: who,
            said: number_at(line, 1),
        },
        Member {
            name: "answer",
            said: text_at(line, 2),
        },
        Member {
            name: "code",
            said: number_at(line, 3),
        },
        Member {
            name: "cause",
            said: text_at(line, 4),
        },
        Member {
            name: "after",
            said: Said::Number(after),
        },
    ];
    put_object(alloc, out, &members)
}

// The bytes of a read.
fn data_word(line: &[u8]) -> Said<'_>
    ensures { data_of result ≡ data_word (parts 32 line.now) }
{
    if is_word(line, 3, b"data") {
        text_at(line, 4)
    } else {
        Said::Nothing
    }
}

// The number of the cause of a failure.
fn code_of(line: &[u8]) -> Said<'static>
    ensures { data_of result ≡ code_of (parts 32 line.now) }
{
    if is_word(line, 3, b"data") {
        Said::Nothing
    } else {
        number_at(line, 4)
    }
}

// Writes `T client C` and what the request was answered.
fn put_given(alloc: Global, out: &mut Vec<u8>, line: &[u8], after: u64) -> Result<(), AllocError>
    ensures { OnOk result (out.new.items ≡ out.old.items ++ object_line (given_said (parts 32 line.now) after)) }
{
    let members = [
        Member {
            name: "ticket",
            said: number_at(line, 0),
        },
        Member {
            name: "client",
            said: number_at(line, 2),
        },
        Member {
            name: "answer",
            said: text_at(line, 3),
        },
        Member {
            name: "data",
            said: data_word(line),
        },
        Member {
            name: "code",
            said: code_of(line),
        },
        Member {
            name: "cause",
            said: text_at(line, 5),
        },
        Member {
            name: "after",
            said: Said::Number(after),
        },
    ];
    put_object(alloc, out, &members)
}

// Writes `T cancelled`.
fn put_cancelled(
    alloc: Global,
    out: &mut Vec<u8>,
    line: &[u8],
    after: u64,
) -> Result<(), AllocError>
    ensures { OnOk result (out.new.items ≡ out.old.items ++ object_line (cancelled_said (parts 32 line.now) after)) }
{
    let members = [
        Member {
            name: "ticket",
            said: number_at(line, 0),
        },
        Member {
            name: "answer",
            said: text_at(line, 1),
        },
        Member {
            name: "after",
            said: Said::Number(after),
        },
    ];
    put_object(alloc, out, &members)
}

/// Writes the line of an answer, without its line feed, as an object on a line: `ticket`, `client`, the `answer` (`queued`, `refused`,
/// `done`, `data`, `failed` or `cancelled`), and after how many exchanges it came; of a read the `data` as the line has them; of what
/// was refused or failed the number of the cause as `code`, and its name as `cause`. A cancellation that was refused has its ticket as
/// `cancel`.
///
/// # Errors
/// `AllocError` where memory is refused.
pub fn put_answer(
    alloc: Global,
    out: &mut Vec<u8>,
    line: &[u8],
    after: u64,
) -> Result<(), AllocError>
    ensures { OnOk result (out.new.items ≡ out.old.items ++ object_line (answer_said (parts 32 line.now) after)) }
{
    if is_word(line, 0, b"client") {
        put_refused(alloc, out, "client", line, after)
    } else if is_word(line, 0, b"cancel") {
        put_refused(alloc, out, "cancel", line, after)
    } else if is_word(line, 1, b"client") {
        put_given(alloc, out, line, after)
    } else {
        put_cancelled(alloc, out, line, after)
    }
}
