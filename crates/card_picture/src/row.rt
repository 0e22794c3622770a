// The row of an exchange in a sequence diagram.
ghost use Rattle.std.specs.Prelude.{OnOk, ◌++◌, ◌≡◌, ◌<◌, codes};
ghost use Rattle.card_explain.specs.Halves.{command_half, reply_half};
ghost use Rattle.card_picture.specs.Rows.{band_text, command_row, data_front, data_row, exchange_row, fault_label, number_text};
ghost use Rattle.card_picture.specs.Rows.{label_text, open_text, row_text};
ghost use Rattle.card_picture.specs.declared.sequence.TheConstants.{ROWS};

use crate::arrow::{command_arrow, data_arrow, is_unseen, reply_arrow};
use crate::fault::{has_fallen, put_fault_words};
use crate::label::put_label;
use crate::sequence::ROWS;
use crate::words::say;
use card_explain::{KnownCard, Note, Phase, Step, put_command_half, put_exchange, put_reply_half};
use mmc_bus::{Exchange, Reply, Want};
use std::alloc::{AllocError, Global};
use text_out::Piece;

/// Where the first row begins, from the top.
pub(crate) const TOP: u64 = 44;

/// How high a row is.
pub(crate) const HEIGHT: u64 = 46;

/// Writes the beginning of a row.
///
/// # Errors
/// `AllocError` where memory is refused.
#[tactic(auto, unfolding(crate::specs::Rows::open_text))]
pub(crate) fn put_open(out: &mut Vec<u8>, place: u64, fell: bool) -> Result<(), AllocError>
    requires { place < ROWS }
    ensures { OnOk result (out.new.items ≡ out.old.items ++ open_text place fell) }
{
    let end = if fell {
        b")' class='f'>".as_slice()
    } else {
        b")'>".as_slice()
    };
    say(
        out,
        &[
            Piece::Text(b"<g transform='translate(0,"),
            Piece::Number(TOP + HEIGHT * place),
            Piece::Text(end),
        ],
    )
}

// The band behind a row.
fn band_text(phase: Phase) -> &'static [u8]
    ensures { result.now ≡ band_text phase }
{
    match phase {
        Phase::Identification => b"<use href='#identification'/>",
        Phase::Transfer => b"",
        Phase::Settling => b"<use href='#settling'/>",
    }
}

// The number of an exchange.
#[tactic(auto, unfolding(crate::specs::Rows::number_text))]
fn put_number(out: &mut Vec<u8>, number: u64) -> Result<(), AllocError>
    ensures { OnOk result (out.new.items ≡ out.old.items ++ number_text number) }
{
    say(
        out,
        &[
            Piece::Text(b"<text x='84' y='25' class='n'>#"),
            Piece::Number(number),
            Piece::Text(b"</text>"),
        ],
    )
}

// A command with its words.
fn put_sent(
    alloc: Global,
    out: &mut Vec<u8>,
    card: KnownCard,
    is_app: bool,
    frame: &[u8; 6],
) -> Result<(), AllocError>
    ensures { OnOk result (out.new.items ≡ out.old.items ++ label_text (codes "<text x='342' y='15'>") (command_half card is_app frame.now)) }
{
    let mut words = Vec::new(alloc);
    put_command_half(&mut words, card, is_app, frame)?;
    put_label(out, b"<text x='342' y='15'>", words.as_slice())
}

// What came back of it with its words.
fn put_came(
    alloc: Global,
    out: &mut Vec<u8>,
    card: KnownCard,
    is_app: bool,
    frame: &[u8; 6],
    reply: &Reply,
) -> Result<(), AllocError>
    ensures { OnOk result (out.new.items ≡ out.old.items ++ label_text (codes "<text x='818' y='34' class='e'>") (reply_half card is_app frame.now reply.now)) }
{
    let mut words = Vec::new(alloc);
    put_reply_half(&mut words, card, is_app, frame, reply)?;
    put_label(out, b"<text x='818' y='34' class='e'>", words.as_slice())
}

// A command and what came back of it.
#[tactic(auto, unfolding(crate::specs::Rows::command_row))]
fn put_command_row(
    alloc: Global,
    out: &mut Vec<u8>,
    card: KnownCard,
    step: &Step,
    frame: &[u8; 6],
    want: Want,
    reply: &Reply,
) -> Result<(), AllocError>
    ensures { OnOk result (out.new.items ≡ out.old.items ++ command_row card step.now frame.now want reply.now) }
{
    let is_unseen = is_unseen(step.numbered.note);
    let to = command_arrow(is_unseen);
    let from = reply_arrow(is_unseen, want, reply);
    say(out, &[Piece::Text(to)])?;
    put_sent(alloc, out, card, step.is_app, frame)?;
    say(out, &[Piece::Text(from)])?;
    put_came(alloc, out, card, step.is_app, frame, reply)
}

// What stands before the words of a block or a poll.
fn data_front(exchange: &Exchange) -> &'static [u8]
    ensures { result.now ≡ data_front exchange.now }
{
    match exchange {
        Exchange::Out { .. } => b"<text x='342' y='22'>",
        _ => b"<text x='818' y='22' class='e'>",
    }
}

// A block or a poll.
#[tactic(auto, unfolding(crate::specs::Rows::data_row))]
fn put_data_row(
    alloc: Global,
    out: &mut Vec<u8>,
    card: KnownCard,
    step: &Step,
) -> Result<(), AllocError>
    ensures { OnOk result (out.new.items ≡ out.old.items ++ data_row card step.now) }
{
    let exchange = &step.numbered.exchange;
    let mut words = Vec::new(alloc);
    put_exchange(&mut words, card, step.is_app, exchange)?;
    say(out, &[Piece::Text(data_arrow(exchange))])?;
    put_label(out, data_front(exchange), words.as_slice())
}

// An exchange with its words.
fn put_exchange_row(
    alloc: Global,
    out: &mut Vec<u8>,
    card: KnownCard,
    step: &Step,
) -> Result<(), AllocError>
    ensures { OnOk result (out.new.items ≡ out.old.items ++ exchange_row card step.now step.now.numbered.exchange) }
{
    match &step.numbered.exchange {
        Exchange::Command { frame, want, reply } => {
            put_command_row(alloc, out, card, step, frame, *want, reply)
        }
        _ => put_data_row(alloc, out, card, step),
    }
}

// The fault that was planned for an exchange.
#[tactic(auto, unfolding(crate::specs::Rows::fault_label))]
fn put_fault_label(alloc: Global, out: &mut Vec<u8>, note: Option<Note>) -> Result<(), AllocError>
    ensures { OnOk result (out.new.items ≡ out.old.items ++ fault_label note) }
{
    if note.is_none() {
        return Ok(());
    }
    let mut words = Vec::new(alloc);
    put_fault_words(&mut words, note)?;
    put_label(out, b"<text x='844' y='26' class='w'>", words.as_slice())
}

/// Writes the row at this place, counted from 0: the exchange with its number, its words, its phase, and the fault that was planned
/// for it.
///
/// # Errors
/// `AllocError` where memory is refused.
#[tactic(auto, unfolding(crate::specs::Rows::row_text))]
pub(crate) fn put_row(
    alloc: Global,
    out: &mut Vec<u8>,
    card: KnownCard,
    place: u64,
    step: &Step,
) -> Result<(), AllocError>
    requires { place < ROWS }
    ensures { OnOk result (out.new.items ≡ out.old.items ++ row_text card place step.now) }
{
    put_open(out, place, has_fallen(step.numbered.note))?;
    let band = band_text(step.phase);
    say(out, &[Piece::Text(band)])?;
    put_number(out, step.numbered.number)?;
    put_exchange_row(alloc, out, card, step)?;
    put_fault_label(alloc, out, step.numbered.note)?;
    say(out, &[Piece::Text(b"</g>\n")])
}
