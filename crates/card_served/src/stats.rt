// What was met while a card was served, in words.
ghost use Rattle.text_out.specs.Writing.{Writes};
ghost use Rattle.card_served.specs.Stats.{fell_text, healed_text};

use card_rules::RuledCard;
use mmc_block::Healed;
use std::alloc::Global;
use std::io::{self, Write};
use text_out::put::put;
use text_out::{Piece, put_pieces};

/// Writes in a line what was met and healed: attempts, those that failed by each cause, settlings, and resets.
///
/// # Errors
/// The fault of a write; a front of the line went out then.
#[tactic(auto, unfolding(crate::specs::Stats::healed_text))]
pub fn put_healed<W: Write>(out: &mut W, healed: Healed) -> io::Result<()>
    ensures { Writes (W.contents out.old) (W.contents out.new) result (healed_text healed) }
{
    put_pieces(
        out,
        &[
            Piece::Text(b"attempts "),
            Piece::Number(healed.attempts),
            Piece::Text(b", failed by Answer "),
            Piece::Number(healed.by_answer),
            Piece::Text(b", Data "),
            Piece::Number(healed.by_data),
            Piece::Text(b", Status "),
            Piece::Number(healed.by_status),
            Piece::Text(b", Busy "),
            Piece::Number(healed.by_busy),
            Piece::Text(b", Recovery "),
            Piece::Number(healed.by_recovery),
            Piece::Text(b"; settled "),
            Piece::Number(healed.settlings),
            Piece::Text(b", reset "),
            Piece::Number(healed.resets),
            Piece::Text(b"\n"),
        ],
    )
}

/// Writes how many exchanges there were with a card, and how many of the faults that were planned fell.
///
/// # Errors
/// The fault of a write; a front of the text went out then.
#[tactic(auto, unfolding(crate::specs::Stats::fell_text))]
pub fn put_fell<W: Write>(out: &mut W, exchanges: u64, fell: u64, planned: u64) -> io::Result<()>
    ensures { Writes (W.contents out.old) (W.contents out.new) result (fell_text exchanges fell planned) }
{
    put_pieces(
        out,
        &[
            Piece::Text(b"exchanges "),
            Piece::Number(exchanges),
            Piece::Text(b", faults that fell "),
            Piece::Number(fell),
            Piece::Text(b" of "),
            Piece::Number(planned),
            Piece::Text(b" planned"),
        ],
    )
}

// What happened, in a line.
fn stats_line(
    alloc: Global,
    card: &RuledCard,
    planned: u64,
    healed: Healed,
) -> io::Result<Vec<u8>> {
    let mut line = Vec::new(alloc);
    put(&mut line, b"cardtool: ")?;
    put_fell(
        &mut line,
        card.card.exchanges(),
        card.card.faults(),
        planned,
    )?;
    put(&mut line, b"; ")?;
    put_healed(&mut line, healed)?;
    Ok(line)
}

/// Says on standard error in a line what happened to a card for which a card file planned so many faults.
pub fn put_stats(
    rt: &(impl Eprint + AllocGlobal),
    card: &RuledCard,
    in_file: usize,
    healed: Healed,
) {
    let planned = card.planned.saturating_add(in_file as u64);
    let Ok(line) = stats_line(rt.alloc(), card, planned, healed) else {
        return;
    };
    if let Ok(line) = str::from_utf8(line.as_slice()) {
        let _ = eprint!(rt; "{line}");
    }
}
