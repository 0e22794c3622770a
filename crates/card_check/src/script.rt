// Whatever is wrong with a script.
ghost use Rattle.std.specs.Prelude.{IfOk, IsSome, false, true, ℕ, ◌≡◌};
ghost use Rattle.card_text.specs.Script.{IsFirstBadLine, events_in, line_of, lines};
ghost use Rattle.text_out.specs.Writing.{Writes};
ghost use Rattle.card_check.specs.Scripts.{event_words};
ghost use Rattle.card_check.specs.WrongLines.{Prints, bad_text, bad_texts};

use crate::fault::CheckFault;
use crate::finding::put_wrong_line;
use crate::stray::{stray_in, stray_words};
use card_text::cut::cut;
use card_text::fault::ScriptFault;
use card_text::script::{read_script, script_line};
use card_text::text_line::Line;
use std::alloc::Global;
use std::io::Write;

// What was expected of a line that isn't of the grammar.
fn event_words(line: &[u8]) -> &'static [u8]
    ensures { result.now ≡ event_words line.now }
{
    match stray_in(line) {
        Some(stray) => stray_words(stray),
        None =>
            b"a line is CLIENT read|erase|trim PART START COUNT, CLIENT write PART START COUNT HH*N,HH*N.., cancel TICKET, turn or run; PART is user, boot1, boot2 or gp1 to gp4, and one space stands between two fields",
    }
}

// A line for the line of this number, where it isn't of the grammar.
fn put_if_bad<W: Write>(
    alloc: Global,
    out: &mut W,
    number: u64,
    line: &[u8],
) -> Result<(), CheckFault>
    ensures { Writes (W.contents out.old) (W.contents out.new) result (bad_text number line.now (line_of line.now)) }
{
    match script_line(alloc, line)? {
        Line::Bad => {
            let words = event_words(line);
            put_wrong_line(alloc, out, b"script", number, line, words)
        }
        Line::Skipped => Ok(()),
        Line::Says(_) => Ok(()),
    }
}

// A line for each line that is wrong.
fn put_findings<W: Write>(alloc: Global, text: &[u8], out: &mut W) -> Result<(), CheckFault>
    ensures { Writes (W.contents out.old) (W.contents out.new) result (bad_texts 1 (lines text.now)) }
{
    let mut rest = Some(text);
    let mut number = 0u64;
    while let Some(text) = rest {
        let (first, others) = cut(text, b'\n');
        number += 1;
        put_if_bad(alloc, out, number, first)?;
        rest = others;
    }
    Ok(())
}

/// Writes a line for each line of a script that isn't of its grammar, with its number, what was found and what was expected.
/// The answer is true where none is.
///
/// # Errors
/// `NoMemory`; `Write` where a write failed, and a front of the lines went out then.
pub fn check_script<W: Write>(alloc: Global, text: &[u8], out: &mut W) -> Result<bool, CheckFault>
    ensures good { IfOk result (λ good. good ≡ true → IsSome (events_in (lines text.now))) }
    ensures bad { IfOk result (λ good. good ≡ false → (n : ℕ) × IsFirstBadLine (lines text.now) n) }
    ensures said { Prints (W.contents out.old) (W.contents out.new) result (bad_texts 1 (lines text.now)) }
{
    put_findings(alloc, text, out)?;
    match read_script(alloc, text) {
        Ok(_) => Ok(true),
        Err(ScriptFault::BadLine { .. }) => Ok(false),
        Err(ScriptFault::NoMemory) => Err(CheckFault::NoMemory),
    }
}
