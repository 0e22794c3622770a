// The planned faults that fit no exchange of the card, which is no mistake of its file.
ghost use Rattle.std.specs.Prelude.{◌≡◌, false};
ghost use Rattle.text_out.specs.Writing.{Writes};
ghost use Rattle.card_text.specs.CardLines.{card_line_of};
ghost use Rattle.card_text.specs.Script.{lines};
ghost use Rattle.card_check.specs.Notes.{FitsNothing, can_fall, fault_note, fault_notes, planned_in, planned_note, unfit_line, unfit_words};

use card_text::card_line::{CardLine, card_line};
use card_text::cut::cut;
use card_text::text_line::Line;
use mmc_card_sim::{Fault, is_flip, is_of_execution};
use mmc_frame::Kind;
use std::io::{self, Write};
use text_out::{Piece, put_pieces};

/// Whether a fault may fit an exchange of a card of this kind.
pub fn can_fall(kind: Kind, fault: Fault) -> bool
    ensures value { result ≡ can_fall kind fault }
    ensures never { result ≡ false → FitsNothing kind fault }
{
    match fault {
        Fault::FailSwitch | Fault::FailSwitchLate | Fault::LoseFailedSwitch => kind == Kind::Mmc,
        Fault::FlipCommand(flips) => is_flip(flips, 48),
        Fault::FlipReply(flips) => is_flip(flips, 136),
        Fault::ShowError(bits)
        | Fault::FindError(bits)
        | Fault::FailWith(_, bits)
        | Fault::FailEarly(_, bits)
        | Fault::FailUnseen(_, bits) => is_of_execution(bits),
        _ => true,
    }
}

// Why it can't.
fn unfit_words(fault: Fault) -> &'static [u8]
    ensures { result.now ≡ unfit_words fault }
{
    match fault {
        Fault::FlipCommand(_) | Fault::FlipReply(_) => {
            b"a position is past the frame, or the same one stands twice"
        }
        Fault::FailWith(_, _) | Fault::FailEarly(_, _) | Fault::FailUnseen(_, _) => {
            b"these bits aren't errors of programming"
        }
        Fault::ShowError(_) | Fault::FindError(_) => b"these bits aren't errors of execution",
        _ => b"an SD card has no CMD6 that writes a byte",
    }
}

// That the fault in the line of this number can't fall.
#[tactic(auto, unfolding(crate::specs::Notes::unfit_line))]
fn put_unfit<W: Write>(out: &mut W, number: u64, words: &'static [u8]) -> io::Result<()>
    ensures { Writes (W.contents out.old) (W.contents out.new) result (unfit_line number words.now) }
{
    put_pieces(
        out,
        &[
            Piece::Text(b"note: card line "),
            Piece::Number(number),
            Piece::Text(b": the fault can't fall: "),
            Piece::Text(words),
            Piece::Text(b"\n"),
        ],
    )
}

// The fault that a line plans.
fn planned(line: &[u8]) -> Option<Fault>
    ensures { result ≡ planned_in (card_line_of line.now) }
{
    match card_line(line) {
        Line::Says(CardLine::Fault { exchange: _, fault }) => Some(fault),
        _ => None,
    }
}

// The note on a line that plans a fault, where it can't fall.
fn put_note<W: Write>(
    out: &mut W,
    kind: Kind,
    number: u64,
    planned: Option<Fault>,
) -> io::Result<()>
    ensures { Writes (W.contents out.old) (W.contents out.new) result (planned_note kind number planned) }
{
    match planned {
        Some(fault) if !can_fall(kind, fault) => put_unfit(out, number, unfit_words(fault)),
        Some(_) => Ok(()),
        None => Ok(()),
    }
}

// The same of a line.
fn put_of_line<W: Write>(out: &mut W, kind: Kind, number: u64, line: &[u8]) -> io::Result<()>
    ensures { Writes (W.contents out.old) (W.contents out.new) result (fault_note kind number line.now) }
{
    put_note(out, kind, number, planned(line))
}

/// Writes a note for each fault of a card file of this kind that can't fall.
///
/// # Errors
/// The fault of a write; a front of the notes went out then.
pub fn put_fault_notes<W: Write>(out: &mut W, kind: Kind, text: &[u8]) -> io::Result<()>
    ensures { Writes (W.contents out.old) (W.contents out.new) result (fault_notes kind (lines text.now)) }
{
    let mut rest = Some(text);
    let mut number = 0u64;
    while let Some(text) = rest {
        let (first, others) = cut(text, b'\n');
        number += 1;
        put_of_line(out, kind, number, first)?;
        rest = others;
    }
    Ok(())
}
