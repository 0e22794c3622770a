// A line of a trace with words after it.
ghost use Rattle.std.specs.Prelude.{IfOk, OnOk, Some, ◌++◌, ◌≡◌};
ghost use Rattle.mmc_bus.specs.ExchangeText.{exchange_text};
ghost use Rattle.card_explain.specs.Explained.{explained, front_of, note_words, padded, phase_words};

use crate::exchange::{KnownCard, put_exchange};
use crate::fault::put_fault;
use crate::settling::Phase;
use crate::step::Step;
use crate::words::say;
use mmc_bus::{Exchange, write_exchange};
use mmc_card_sim::Fault;
use std::alloc::{AllocError, Global};
use text_out::Piece;

/// How many characters a line of a trace is filled up to, before a space and its words.
pub const COLUMN: usize = 36;

/// A fault that is planned for an exchange.
#[derive(Clone, Copy, Debug, PartialEq, Eq)]
pub struct Note {
    /// The fault.
    pub fault: Fault,
    /// Whether it fell: one that doesn't fit its exchange does nothing.
    pub fell: bool,
}

/// An exchange that is explained.
#[derive(Clone, Copy, Debug, PartialEq, Eq)]
pub struct Numbered {
    /// Its number, the first of a card is 0, as faults are planned by it.
    pub number: u64,
    /// The exchange.
    pub exchange: Exchange,
    /// The fault that is planned for it.
    pub note: Option<Note>,
}

// The line of an exchange without its line feed, filled up with spaces.
fn front(alloc: Global, exchange: &Exchange) -> Result<Vec<u8>, AllocError>
    ensures { IfOk result (λ line. line.items ≡ padded COLUMN (front_of (exchange_text exchange.now))) }
{
    let mut line = Vec::new(alloc);
    if write_exchange(exchange, &mut line).is_err() {
        return Err(AllocError);
    }
    let _line_feed = line.pop();
    let columns = line.len().max(COLUMN);
    line.resize(columns, b' ')?;
    Ok(line)
}

// What is said of a planned fault.
#[tactic(auto, unfolding(crate::specs::Explained::note_words))]
fn put_note(out: &mut Vec<u8>, note: Option<Note>) -> Result<(), AllocError>
    ensures { OnOk result (out.new.items ≡ out.old.items ++ note_words note) }
{
    let Some(note) = note else {
        return Ok(());
    };
    let words = if note.fell {
        b"; fault: ".as_slice()
    } else {
        b"; doesn't fit: ".as_slice()
    };
    say(out, &[Piece::Text(words)])?;
    put_fault(out, note.fault)
}

// What is said of the phase of an exchange, which may be the first one after settling.
fn phase_words(phase: Phase, is_settled: bool) -> &'static [u8]
    ensures { result.now ≡ phase_words phase is_settled }
{
    match phase {
        Phase::Settling => b"settling: ",
        Phase::Identification | Phase::Transfer if is_settled => b"settled: ",
        Phase::Identification | Phase::Transfer => b"",
    }
}

/// Writes the line of an exchange as a trace has it, with its number, whether the card is settled by it or was before it, the exchange in words after
/// that, and the fault that was planned for it.
///
/// # Errors
/// `AllocError` where memory is refused.
#[tactic(auto, unfolding(crate::specs::Explained::explained))]
pub fn put_line(
    alloc: Global,
    out: &mut Vec<u8>,
    card: KnownCard,
    step: &Step,
) -> Result<(), AllocError>
    ensures { OnOk result (out.new.items ≡ out.old.items ++ explained card step.now) }
{
    let line = front(alloc, &step.numbered.exchange)?;
    say(
        out,
        &[
            Piece::Text(line.as_slice()),
            Piece::Text(b" #"),
            Piece::Number(step.numbered.number),
            Piece::Text(b" "),
        ],
    )?;
    out.extend_from_slice(phase_words(step.phase, step.is_settled))?;
    put_exchange(out, card, step.is_app, &step.numbered.exchange)?;
    put_note(out, step.numbered.note)?;
    say(out, &[Piece::Text(b"\n")])
}
