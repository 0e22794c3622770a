// The lines of the output.
ghost use Rattle.std.specs.Fmt.{decimal};
ghost use Rattle.std.specs.Prelude.{◌≡◌, ◌≤◌, ◌++◌, ◌∷◌, [], codes, length};
ghost use Rattle.mmc_block.specs.Answers.{any_failed};
ghost use Rattle.text_out.specs.Repeats.{repeats_text};
ghost use Rattle.text_out.specs.Writing.{Writes};
ghost use Rattle.card_text.specs.Output.{cancel_fault_text, cancelled_text, cause_text, completion_text, completions_text, queued_text, refusal_text, refused_text, uncancelled_text};

use crate::short_line::{ShortLine, add_number, add_text};
use arrayvec::ArrayVec;
use mmc_block::{Answer, CancelFault, Cause, Completion, Refused, Ticket};
use std::io::{self, Write};
use text_out::put::put;
use text_out::{Piece, put_pieces};

// The number and the name of a refusal.
fn refusal_name(refused: Refused) -> &'static [u8]
    ensures { result.now ≡ refusal_text refused }
{
    match refused {
        Refused::NoSuchPartition => b"1 NoSuchPartition",
        Refused::Empty => b"2 Empty",
        Refused::TooLong => b"3 TooLong",
        Refused::OutOfRange => b"4 OutOfRange",
        Refused::WrongLength => b"5 WrongLength",
        Refused::ReadOnly => b"6 ReadOnly",
        Refused::NotInPartition => b"7 NotInPartition",
        Refused::NoTrim => b"8 NoTrim",
        Refused::Unaligned => b"9 Unaligned",
        Refused::Full => b"10 Full",
        Refused::NoMemory => b"11 NoMemory",
    }
}

// The number and the name of a cause.
fn cause_name(cause: Cause) -> &'static [u8]
    ensures { result.now ≡ cause_text cause }
{
    match cause {
        Cause::Answer => b"1 Answer",
        Cause::Data => b"2 Data",
        Cause::Status => b"3 Status",
        Cause::Busy => b"4 Busy",
        Cause::Recovery => b"5 Recovery",
    }
}

// `T client C`, and these bytes after it.
fn client_line(ticket: Ticket, client: u32, then: &[u8]) -> ShortLine
    requires { length then.now ≤ 32 }
    ensures { result.items ≡ decimal ticket ++ (codes " client " ++ (decimal client ++ then.now)) }
{
    let mut line = ArrayVec::new();
    add_number(&mut line, ticket);
    add_text(&mut line, b" client ");
    add_number(&mut line, client as u64);
    add_text(&mut line, then);
    line
}

/// Writes `T client C queued`.
#[tactic(auto, unfolding(crate::specs::Output::queued_text))]
pub fn put_queued<W: Write>(out: &mut W, ticket: Ticket, client: u32) -> io::Result<()>
    ensures { Writes (W.contents out.old) (W.contents out.new) result (queued_text ticket client) }
{
    put(out, client_line(ticket, client, b" queued\n").as_slice())
}

/// Writes `client C refused NO NAME`.
#[tactic(auto, unfolding(crate::specs::Output::refused_text))]
pub fn put_refused<W: Write>(out: &mut W, client: u32, refused: Refused) -> io::Result<()>
    ensures { Writes (W.contents out.old) (W.contents out.new) result (refused_text client refused) }
{
    let name = refusal_name(refused);
    put_pieces(
        out,
        &[
            Piece::Text(b"client "),
            Piece::Number(client as u64),
            Piece::Text(b" refused "),
            Piece::Text(name),
            Piece::Text(b"\n"),
        ],
    )
}

// Writes the bytes of a read, in the line that begins with `front`.
fn put_data<W: Write>(out: &mut W, front: &[u8], bytes: &[u8]) -> io::Result<()>
    ensures { Writes (W.contents out.old) (W.contents out.new) result (front.now ++ (repeats_text bytes.now ++ (10 ∷ []))) }
{
    put(out, front)?;
    put_pieces(out, &[Piece::Repeats(bytes), Piece::Text(b"\n")])
}

// Writes a cause, in the line that begins with `front`.
fn put_failed<W: Write>(out: &mut W, front: &[u8], cause: Cause) -> io::Result<()>
    ensures { Writes (W.contents out.old) (W.contents out.new) result (front.now ++ (cause_text cause ++ (10 ∷ []))) }
{
    let name = cause_name(cause);
    put_pieces(
        out,
        &[Piece::Text(front), Piece::Text(name), Piece::Text(b"\n")],
    )
}

// Writes `T client C done`, `T client C data DATA` or `T client C failed NO NAME`.
#[tactic(auto, unfolding(crate::specs::Output::completion_text))]
fn put_completion<W: Write>(out: &mut W, completion: &Completion) -> io::Result<()>
    ensures { Writes (W.contents out.old) (W.contents out.new) result (completion_text completion.now) }
{
    let Completion {
        ticket,
        client,
        answer,
    } = completion;
    match answer {
        Answer::Done => put(out, client_line(*ticket, *client, b" done\n").as_slice()),
        Answer::Data(bytes) => {
            let front = client_line(*ticket, *client, b" data ");
            put_data(out, front.as_slice(), bytes.as_slice())
        }
        Answer::Failed(cause) => {
            let front = client_line(*ticket, *client, b" failed ");
            put_failed(out, front.as_slice(), *cause)
        }
    }
}

// The number and the name of a cancellation's refusal.
fn cancel_fault_name(fault: CancelFault) -> &'static [u8]
    ensures { result.now ≡ cancel_fault_text fault }
{
    match fault {
        CancelFault::Unknown => b"1 Unknown",
        CancelFault::InService => b"2 InService",
    }
}

/// Writes `T cancelled`.
#[tactic(auto, unfolding(crate::specs::Output::cancelled_text))]
pub fn put_cancelled<W: Write>(out: &mut W, ticket: Ticket) -> io::Result<()>
    ensures { Writes (W.contents out.old) (W.contents out.new) result (cancelled_text ticket) }
{
    put_pieces(out, &[Piece::Number(ticket), Piece::Text(b" cancelled\n")])
}

/// Writes `cancel T refused NO NAME`.
#[tactic(auto, unfolding(crate::specs::Output::uncancelled_text))]
pub fn put_uncancelled<W: Write>(out: &mut W, ticket: Ticket, fault: CancelFault) -> io::Result<()>
    ensures { Writes (W.contents out.old) (W.contents out.new) result (uncancelled_text ticket fault) }
{
    let name = cancel_fault_name(fault);
    put_pieces(
        out,
        &[
            Piece::Text(b"cancel "),
            Piece::Number(ticket),
            Piece::Text(b" refused "),
            Piece::Text(name),
            Piece::Text(b"\n"),
        ],
    )
}

/// Writes a line for each completion.
pub fn put_completions<W: Write>(out: &mut W, completions: &[Completion]) -> io::Result<()>
    ensures { Writes (W.contents out.old) (W.contents out.new) result (completions_text completions.now) }
{
    for completion in completions {
        put_completion(out, completion)?;
    }
    Ok(())
}

/// Whether some request failed.
pub fn has_failure(completions: &[Completion]) -> bool
    ensures { result ≡ any_failed completions.now }
{
    completions
        .iter()
        .any(|completion| completion.answer.is_failed())
}
