// Exchanges in words, as rows of a table in HTML.
ghost use Rattle.std.specs.Prelude.{OnOk, ◌++◌, ◌≡◌};
ghost use Rattle.mmc_bus.specs.ExchangeText.{exchange_text};
ghost use Rattle.card_picture.specs.Table.{cell_text, number_cell, phase_name, table_row, table_rows};

use crate::escape::put_escaped;
use crate::fault::{has_fallen, put_fault_words};
use crate::words::say;
use card_explain::{KnownCard, Phase, Step, put_exchange};
use mmc_bus::{Exchange, write_exchange};
use std::alloc::{AllocError, Global};
use text_out::Piece;

// A cell with words.
#[tactic(auto, unfolding(crate::specs::Table::cell_text))]
fn put_cell(out: &mut Vec<u8>, words: &[u8]) -> Result<(), AllocError>
    ensures { OnOk result (out.new.items ≡ out.old.items ++ cell_text words.now) }
{
    say(out, &[Piece::Text(b"<td>")])?;
    put_escaped(out, words)?;
    say(out, &[Piece::Text(b"</td>")])
}

// What a row is called by its phase.
fn phase_name(phase: Phase) -> &'static [u8]
    ensures { result.now ≡ phase_name phase }
{
    match phase {
        Phase::Identification => b"identification",
        Phase::Transfer => b"transfer",
        Phase::Settling => b"settling",
    }
}

// The beginning of a row, with the number of its exchange.
#[tactic(auto, unfolding(crate::specs::Table::number_cell))]
fn put_number_cell(out: &mut Vec<u8>, step: &Step) -> Result<(), AllocError>
    ensures { OnOk result (out.new.items ≡ out.old.items ++ number_cell step.now) }
{
    let phase = phase_name(step.phase);
    let end = if has_fallen(step.numbered.note) {
        b" f'><td>".as_slice()
    } else {
        b"'><td>".as_slice()
    };
    say(
        out,
        &[
            Piece::Text(b"<tr class='"),
            Piece::Text(phase),
            Piece::Text(end),
            Piece::Number(step.numbered.number),
            Piece::Text(b"</td>"),
        ],
    )
}

// The line of an exchange in a trace.
fn put_line_cell(alloc: Global, out: &mut Vec<u8>, exchange: &Exchange) -> Result<(), AllocError>
    ensures { OnOk result (out.new.items ≡ out.old.items ++ cell_text (exchange_text exchange.now)) }
{
    let mut line = Vec::new(alloc);
    if write_exchange(exchange, &mut line).is_err() {
        return Err(AllocError);
    }
    put_cell(out, line.as_slice())
}

// The row of an exchange.
#[tactic(auto, unfolding(crate::specs::Table::table_row))]
fn put_table_row(
    alloc: Global,
    out: &mut Vec<u8>,
    card: KnownCard,
    step: &Step,
) -> Result<(), AllocError>
    ensures { OnOk result (out.new.items ≡ out.old.items ++ table_row card step.now) }
{
    let mut words = Vec::new(alloc);
    put_exchange(&mut words, card, step.is_app, &step.numbered.exchange)?;
    let mut fault = Vec::new(alloc);
    put_fault_words(&mut fault, step.numbered.note)?;
    put_number_cell(out, step)?;
    put_line_cell(alloc, out, &step.numbered.exchange)?;
    put_cell(out, words.as_slice())?;
    put_cell(out, fault.as_slice())?;
    say(out, &[Piece::Text(b"</tr>\n")])
}

/// Writes a row for each of these exchanges: its number, its line in a trace, its words, and the fault that was planned for it.
///
/// # Errors
/// `AllocError` where memory is refused.
#[tactic(auto, unfolding(crate::specs::Table::table_rows))]
pub(crate) fn put_table_rows(
    alloc: Global,
    out: &mut Vec<u8>,
    card: KnownCard,
    steps: &[Step],
) -> Result<(), AllocError>
    ensures { OnOk result (out.new.items ≡ out.old.items ++ table_rows card steps.now) }
{
    for step in steps {
        put_table_row(alloc, out, card, step)?;
    }
    Ok(())
}
