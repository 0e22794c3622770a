// The trace with words after each of its lines, and what was met and healed.
use crate::answers::Kept;
use crate::messages::{said, shown};
use crate::more::Served;
use card_explain::{KnownCard, Note, Numbered, put_lines};
use card_picture::Message;
use card_rules::{RuledCard, addressing_of};
use card_served::{ServeFault, put_healed};
use mmc_block::Healed;
use mmc_bus::{Bus, Exchange, TraceBus, write_exchange};
use mmc_card_sim::{CardSpec, Fault, Planned};
use std::alloc::Global;
use std::io::{self, Write};
use text_out::put::put;
use text_out::{Piece, put_pieces};

/// What is known of the card of a spec.
pub fn known_card(spec: &CardSpec) -> KnownCard {
    KnownCard {
        kind: spec.registers.kind(),
        addressing: addressing_of(spec),
    }
}

/// The exchanges that a bus has kept, the oldest first.
pub fn kept_exchanges<B: Bus>(
    alloc: Global,
    bus: &TraceBus<B>,
) -> Result<Vec<Exchange>, ServeFault> {
    let mut kept = Vec::new(alloc);
    for i in 0..bus.len() {
        if let Some(exchange) = bus.exchange(i) {
            kept.push(exchange)?;
        }
    }
    Ok(kept)
}

// The fault that fell in an exchange, or was planned for it in the card file.
fn note_at(exchange: u64, plan: &[(u64, Fault)], fell: &[Planned]) -> Option<Note> {
    if let Some(planned) = fell.iter().find(|planned| planned.exchange == exchange) {
        return Some(Note {
            fault: planned.fault,
            fell: true,
        });
    }
    let (_, fault) = plan.iter().find(|planned| planned.0 == exchange)?;
    Some(Note {
        fault: *fault,
        fell: false,
    })
}

// These exchanges, the last of so many, each with its number and the fault that is planned for it.
fn with_notes(
    alloc: Global,
    kept: &[Exchange],
    count: u64,
    plan: &[(u64, Fault)],
    fell: &[Planned],
) -> Result<Vec<Numbered>, ServeFault> {
    let mut noted = Vec::new(alloc);
    let mut number = count.saturating_sub(kept.len() as u64);
    for exchange in kept {
        noted.push(Numbered {
            number,
            exchange: *exchange,
            note: note_at(number, plan, fell),
        })?;
        number = number.saturating_add(1);
    }
    Ok(noted)
}

/// The exchanges that were kept, each with its number and the fault that is planned for it, where any are.
///
/// # Errors
/// `NoMemory`.
pub fn kept_with_notes(
    alloc: Global,
    served: &Served<RuledCard>,
    plan: &[(u64, Fault)],
) -> Result<Option<Vec<Numbered>>, ServeFault> {
    let Some(kept) = &served.kept else {
        return Ok(None);
    };
    let count = served.bus.card.exchanges();
    let fell = served.bus.fell.as_slice();
    match with_notes(alloc, kept.as_slice(), count, plan, fell) {
        Ok(noted) => Ok(Some(noted)),
        Err(fault) => Err(fault),
    }
}

// Writes `trace K`.
fn put_count<W: Write>(out: &mut W, count: u64) -> io::Result<()> {
    put_pieces(
        out,
        &[
            Piece::Text(b"trace "),
            Piece::Number(count),
            Piece::Text(b"\n"),
        ],
    )
}

// Writes `trace K` and these lines, then what was met and healed.
fn put_all<W: Write>(out: &mut W, count: u64, lines: &[u8], healed: Healed) -> io::Result<()> {
    put_count(out, count)?;
    put(out, lines)?;
    put_healed(out, healed)
}

/// Writes `trace K` and a line for each of the last `most` of these exchanges, with words after it and the fault that fell in it or
/// was planned for it; then what was met and healed.
///
/// # Errors
/// `NoMemory`; `Write` where a write failed, and a front of the lines went out then.
pub fn put_explained<W: Write>(
    alloc: Global,
    known: KnownCard,
    noted: &[Numbered],
    most: usize,
    healed: Healed,
    out: &mut W,
) -> Result<(), ServeFault> {
    let mut lines = Vec::new(alloc);
    put_lines(alloc, &mut lines, known, noted, most)?;
    let count = noted.len().min(most) as u64;
    match put_all(out, count, lines.as_slice(), healed) {
        Ok(()) => Ok(()),
        Err(_) => Err(ServeFault::Write),
    }
}

// Writes the last exchange before an answer, and the front of its line.
fn put_moment<W: Write>(out: &mut W, answer: &Message<'_>) -> io::Result<()> {
    put_pieces(
        out,
        &[
            Piece::Text(b"after #"),
            Piece::Number(answer.after.saturating_sub(1)),
            Piece::Text(b": "),
            Piece::Text(answer.words),
            Piece::Text(b"\n"),
        ],
    )
}

/// Writes for each answer after which exchange it came.
///
/// # Errors
/// `NoMemory`; `Write`, and a front of the lines went out then.
pub fn put_moments<W: Write>(
    alloc: Global,
    answers: &Option<Kept>,
    out: &mut W,
) -> Result<(), ServeFault> {
    let Some(kept) = answers else {
        return Ok(());
    };
    let said = said(alloc, kept)?;
    for message in said.as_slice() {
        if message.is_answer && put_moment(out, &shown(*message)).is_err() {
            return Err(ServeFault::Write);
        }
    }
    Ok(())
}

// Writes `trace K` and a line for each of these exchanges.
fn put_plain<W: Write>(out: &mut W, noted: &[Numbered]) -> io::Result<()> {
    put_count(out, noted.len() as u64)?;
    for numbered in noted {
        write_exchange(&numbered.exchange, out)?;
    }
    Ok(())
}

/// Writes `trace K` and a line for each of these exchanges, without words.
///
/// # Errors
/// `Write`, and a front of the lines went out then.
pub fn put_unexplained<W: Write>(out: &mut W, noted: &[Numbered]) -> Result<(), ServeFault> {
    match put_plain(out, noted) {
        Ok(()) => Ok(()),
        Err(_) => Err(ServeFault::Write),
    }
}
