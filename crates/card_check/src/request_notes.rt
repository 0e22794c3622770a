// The requests of a script that a device refuses, which is no mistake of the script.
ghost use Rattle.std.specs.Prelude.{◌≡◌, ℕ};
ghost use Rattle.mmc_card.specs.Made.{Made};
ghost use Rattle.mmc_card.specs.declared.exchange.Lines.{Lines};
ghost use Rattle.mmc_switch.specs.Info.{IsInfo};
ghost use Rattle.mmc_switch.specs.declared.info.Info.{Info};
ghost use Rattle.mmc_queue.specs.declared.request.Request.{Request};
ghost use Rattle.text_out.specs.Writing.{Writes};
ghost use Rattle.card_text.specs.Script.{line_of, lines};
ghost use Rattle.mmc_block.specs.Refusal.{first_refusal, refused_for};
ghost use Rattle.card_check.specs.Notes.{event_note, note_front, refused_note, request_note, request_notes, said_note};

use crate::fault::CheckFault;
use card_text::cut::cut;
use card_text::event::ScriptEvent;
use card_text::output::put_refused;
use card_text::script::script_line;
use card_text::text_line::Line;
use mmc_block::{Info, Refused, Request};
use mmc_requests::{MAX_COUNT, Refused as Reason, change_refusal, sectors_refusal};
use std::alloc::Global;
use std::io::{self, Write};
use text_out::{Piece, put_pieces};

// The device's name of a reason for which any request is refused.
fn refused_for(reason: Reason) -> Refused
    ensures { result ≡ refused_for reason }
{
    match reason {
        Reason::NoSuchPartition => Refused::NoSuchPartition,
        Reason::Empty => Refused::Empty,
        Reason::TooLong => Refused::TooLong,
        Reason::OutOfRange => Refused::OutOfRange,
        Reason::ReadOnly => Refused::ReadOnly,
        Reason::NotInPartition => Refused::NotInPartition,
        Reason::NoTrim => Refused::NoTrim,
        Reason::Unaligned => Refused::Unaligned,
    }
}

/// Why a device for which nothing waits refuses a request, where it does: by the rules of all requests, and a write without its
/// bytes.
pub fn refusal(info: &Info, request: &Request) -> Option<Refused>
    ensures { result ≡ first_refusal info.now 0 0 request.now }
{
    let (kind, part) = (request.kind(), request.part());
    let (start, count) = (request.start(), request.count());
    if let Some(reason) = sectors_refusal(MAX_COUNT, kind, info, part, start, count) {
        Some(refused_for(reason))
    } else if !request.has_its_bytes() {
        Some(Refused::WrongLength)
    } else {
        change_refusal(kind, info, part, start, count).map(refused_for)
    }
}

/// A law: whatever lines hosts have, they refuse the same requests of a card that tells them the same of its write protection.
pub fn hosts_refuse_alike()
    ensures { (l m : Lines) (made : Made) (a b : Info) → IsInfo l made a → IsInfo m made b → a.read_only ≡ b.read_only
        → (waiting next : ℕ) (request : Request) → first_refusal a waiting next request ≡ first_refusal b waiting next request }
{}

// What stands in front of a note.
#[tactic(auto, unfolding(crate::specs::Notes::note_front))]
fn put_front<W: Write>(out: &mut W, number: u64) -> io::Result<()>
    ensures { Writes (W.contents out.old) (W.contents out.new) result (note_front number) }
{
    put_pieces(
        out,
        &[
            Piece::Text(b"note: line "),
            Piece::Number(number),
            Piece::Text(b": "),
        ],
    )
}

// That the request in the line of this number is refused.
fn put_note<W: Write>(
    out: &mut W,
    number: u64,
    client: u32,
    refused: Option<Refused>,
) -> io::Result<()>
    ensures { Writes (W.contents out.old) (W.contents out.new) result (refused_note number client refused) }
{
    match refused {
        Some(refused) => {
            put_front(out, number)?;
            put_refused(out, client, refused)
        }
        None => Ok(()),
    }
}

// The note on an event, where it is a request that is refused.
fn put_of_event<W: Write>(
    out: &mut W,
    info: &Info,
    number: u64,
    event: ScriptEvent,
) -> io::Result<()>
    ensures { Writes (W.contents out.old) (W.contents out.new) result (event_note info.now number event) }
{
    match event {
        ScriptEvent::Submit { client, request } => {
            put_note(out, number, client, refusal(info, &request))
        }
        ScriptEvent::Cancel { .. } => Ok(()),
        ScriptEvent::Turn => Ok(()),
        ScriptEvent::Run => Ok(()),
    }
}

// The same of what a line says.
fn put_of_said<W: Write>(
    out: &mut W,
    info: &Info,
    number: u64,
    said: Line<ScriptEvent>,
) -> io::Result<()>
    ensures { Writes (W.contents out.old) (W.contents out.new) result (said_note info.now number said) }
{
    match said {
        Line::Says(event) => put_of_event(out, info, number, event),
        Line::Skipped => Ok(()),
        Line::Bad => Ok(()),
    }
}

// And of a line.
fn put_of_line<W: Write>(
    alloc: Global,
    out: &mut W,
    info: &Info,
    number: u64,
    line: &[u8],
) -> Result<(), CheckFault>
    ensures { Writes (W.contents out.old) (W.contents out.new) result (request_note info.now number line.now) }
{
    let said = script_line(alloc, line)?;
    put_of_said(out, info, number, said)?;
    Ok(())
}

/// Writes a note for each request of a script that a device with this card refuses.
///
/// # Errors
/// `NoMemory`; `Write` where a write failed, and a front of the notes went out then.
pub fn put_request_notes<W: Write>(
    alloc: Global,
    out: &mut W,
    info: &Info,
    text: &[u8],
) -> Result<(), CheckFault>
    ensures { Writes (W.contents out.old) (W.contents out.new) result (request_notes info.now (lines text.now)) }
{
    let mut rest = Some(text);
    let mut number = 0u64;
    while let Some(text) = rest {
        let (first, others) = cut(text, b'\n');
        number += 1;
        put_of_line(alloc, out, info, number, first)?;
        rest = others;
    }
    Ok(())
}
