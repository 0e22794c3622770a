// The column of an exchange in a timing diagram: what it shows of the lines CMD and DAT.
ghost use Rattle.std.specs.Prelude.{OnOk, ◌++◌, ◌≡◌, ◌<◌, codes};
ghost use Rattle.card_explain.specs.Exchanges.{card_explain};
ghost use Rattle.card_picture.specs.Columns.{column_band, column_body, column_end, column_front, column_head, column_text};
ghost use Rattle.card_picture.specs.Columns.{command_box, command_column, poll_box, received_box, reply_box, response_box, sent_box, silence_box};
ghost use Rattle.card_picture.specs.Columns.{up_to};
ghost use Rattle.card_picture.specs.Faults.{fault_words};
ghost use Rattle.card_picture.specs.Rows.{label_text};
ghost use Rattle.card_picture.specs.declared.sequence.TheConstants.{MAX_ROWS};

use crate::escape::put_escaped;
use crate::fault::{has_fallen, put_fault_words};
use crate::label::put_label;
use crate::sequence::MAX_ROWS;
use crate::words::say;
use card_explain::{KnownCard, Note, Phase, Step, put_command_half, put_exchange, put_reply_half};
use mmc_bus::{DataIn, DataOut, Exchange, Reply, Want};
use std::alloc::{AllocError, Global};
use text_out::Piece;

/// Where the first column begins, from the left.
pub(crate) const LEFT: u64 = 52;

/// How wide a column is.
pub(crate) const WIDTH: u64 = 150;

// A text up to the first such byte.
fn up_to(end: u8, text: &[u8]) -> &[u8]
    ensures { result.now ≡ up_to end text.now }
{
    for (count, byte) in text.iter().enumerate() {
        if *byte == end {
            return &text[..count];
        }
    }
    text
}

// The beginning of a column.
#[tactic(auto, unfolding(crate::specs::Columns::column_front))]
fn put_front(out: &mut Vec<u8>, place: u64, fell: bool) -> Result<(), AllocError>
    requires { place < MAX_ROWS }
    ensures { OnOk result (out.new.items ≡ out.old.items ++ column_front place fell) }
{
    let end = if fell {
        b"' width='150' class='f'>".as_slice()
    } else {
        b"' width='150'>".as_slice()
    };
    say(
        out,
        &[
            Piece::Text(b"<svg x='"),
            Piece::Number(LEFT + WIDTH * place),
            Piece::Text(end),
        ],
    )
}

// The band behind a column.
fn column_band(phase: Phase) -> &'static [u8]
    ensures { result.now ≡ column_band phase }
{
    match phase {
        Phase::Identification => b"<use href='#t-identification'/>",
        Phase::Transfer => b"",
        Phase::Settling => b"<use href='#t-settling'/>",
    }
}

// The number of an exchange, and its words.
#[tactic(auto, unfolding(crate::specs::Columns::column_head))]
fn put_head(out: &mut Vec<u8>, number: u64, words: &[u8]) -> Result<(), AllocError>
    ensures { OnOk result (out.new.items ≡ out.old.items ++ column_head number words.now) }
{
    say(out, &[Piece::Text(b"<title>")])?;
    put_escaped(out, words)?;
    say(
        out,
        &[
            Piece::Text(b"</title><text x='6' y='16' class='n'>#"),
            Piece::Number(number),
            Piece::Text(b"</text>"),
        ],
    )
}

// The number of an exchange with its words.
fn put_words(
    alloc: Global,
    out: &mut Vec<u8>,
    card: KnownCard,
    step: &Step,
) -> Result<(), AllocError>
    ensures { OnOk result (out.new.items ≡ out.old.items ++ column_head step.now.numbered.number (card_explain card step.now.is_app step.now.numbered.exchange)) }
{
    let mut words = Vec::new(alloc);
    put_exchange(&mut words, card, step.is_app, &step.numbered.exchange)?;
    put_head(out, step.numbered.number, words.as_slice())
}

// Where a response was awaited and none came.
fn silence_box(want: Want) -> &'static [u8]
    ensures { result.now ≡ silence_box want }
{
    match want {
        Want::Nothing => b"",
        Want::Short | Want::Long => b"<use href='#t-lost'/>",
    }
}

// A response, by the first of its words.
fn put_response(out: &mut Vec<u8>, words: &[u8]) -> Result<(), AllocError>
    ensures { OnOk result (out.new.items ≡ out.old.items ++ response_box words.now) }
{
    let name = up_to(b':', words);
    put_label(out, b"<use href='#t-response'/><text x='92' y='47'>", name)
}

// What came back of a command.
fn put_reply(out: &mut Vec<u8>, want: Want, reply: &Reply, words: &[u8]) -> Result<(), AllocError>
    ensures { OnOk result (out.new.items ≡ out.old.items ++ reply_box want reply.now words.now) }
{
    match reply {
        Reply::Silent => {
            let silence = silence_box(want);
            say(out, &[Piece::Text(silence)])
        }
        Reply::Short(_) | Reply::Long(_) => put_response(out, words),
    }
}

// A command, by the first of its words.
fn put_command(out: &mut Vec<u8>, words: &[u8]) -> Result<(), AllocError>
    ensures { OnOk result (out.new.items ≡ out.old.items ++ command_box words.now) }
{
    let name = up_to(b' ', words);
    put_label(out, b"<use href='#t-command'/><text x='12' y='47'>", name)
}

// A command and what came back of it.
#[tactic(auto, unfolding(crate::specs::Columns::command_column))]
fn put_command_column(
    alloc: Global,
    out: &mut Vec<u8>,
    card: KnownCard,
    is_app: bool,
    frame: &[u8; 6],
    want: Want,
    reply: &Reply,
) -> Result<(), AllocError>
    ensures { OnOk result (out.new.items ≡ out.old.items ++ command_column card is_app frame.now want reply.now) }
{
    let mut asked = Vec::new(alloc);
    put_command_half(&mut asked, card, is_app, frame)?;
    let mut came = Vec::new(alloc);
    put_reply_half(&mut came, card, is_app, frame, reply)?;
    put_command(out, asked.as_slice())?;
    put_reply(out, want, reply, came.as_slice())
}

// A block that was read.
fn received_box(got: DataIn) -> &'static [u8]
    ensures { result.now ≡ received_box got }
{
    match got {
        DataIn::Good => b"<use href='#t-in'/>",
        DataIn::Bad => b"<use href='#t-bad'/>",
        DataIn::Nothing => b"<use href='#t-missing'/>",
    }
}

// A block that was written, and the CRC status after it.
fn sent_box(got: DataOut) -> &'static [u8]
    ensures { result.now ≡ sent_box got }
{
    match got {
        DataOut::Accepted => b"<use href='#t-out'/><use href='#t-accepted'/>",
        DataOut::Rejected => b"<use href='#t-out'/><use href='#t-rejected'/>",
        DataOut::Nothing => b"<use href='#t-out'/><use href='#t-unsaid'/>",
    }
}

// A poll.
fn poll_box(yes: bool) -> &'static [u8]
    ensures { result.now ≡ poll_box yes }
{
    if yes {
        b"<use href='#t-busy'/>"
    } else {
        b"<use href='#t-idle'/>"
    }
}

// What an exchange shows of the lines.
fn put_body(
    alloc: Global,
    out: &mut Vec<u8>,
    card: KnownCard,
    is_app: bool,
    exchange: &Exchange,
) -> Result<(), AllocError>
    ensures { OnOk result (out.new.items ≡ out.old.items ++ column_body card is_app exchange.now) }
{
    match exchange {
        Exchange::Command { frame, want, reply } => {
            put_command_column(alloc, out, card, is_app, frame, *want, reply)
        }
        Exchange::In { got, .. } => {
            let block = received_box(*got);
            say(out, &[Piece::Text(block)])
        }
        Exchange::Out { got } => {
            let block = sent_box(*got);
            say(out, &[Piece::Text(block)])
        }
        Exchange::Busy { yes } => {
            let poll = poll_box(*yes);
            say(out, &[Piece::Text(poll)])
        }
    }
}

// The fault that was planned for an exchange.
fn put_fault(alloc: Global, out: &mut Vec<u8>, note: Option<Note>) -> Result<(), AllocError>
    ensures { OnOk result (out.new.items ≡ out.old.items ++ label_text (codes "<text x='6' y='116' class='w'>") (fault_words note)) }
{
    let mut words = Vec::new(alloc);
    put_fault_words(&mut words, note)?;
    put_label(out, b"<text x='6' y='116' class='w'>", words.as_slice())
}

// The same, and the end of the column.
#[tactic(auto, unfolding(crate::specs::Columns::column_end))]
fn put_end(alloc: Global, out: &mut Vec<u8>, note: Option<Note>) -> Result<(), AllocError>
    ensures { OnOk result (out.new.items ≡ out.old.items ++ column_end note) }
{
    put_fault(alloc, out, note)?;
    say(out, &[Piece::Text(b"</svg>\n")])
}

/// Writes the column at this place, counted from 0: what the exchange shows of the lines, with its number, its phase, and the fault
/// that was planned for it.
///
/// # Errors
/// `AllocError` where memory is refused.
#[tactic(auto, unfolding(crate::specs::Columns::column_text))]
pub(crate) fn put_column(
    alloc: Global,
    out: &mut Vec<u8>,
    card: KnownCard,
    place: u64,
    step: &Step,
) -> Result<(), AllocError>
    requires { place < MAX_ROWS }
    ensures { OnOk result (out.new.items ≡ out.old.items ++ column_text card place step.now) }
{
    put_front(out, place, has_fallen(step.numbered.note))?;
    let band = column_band(step.phase);
    say(out, &[Piece::Text(band)])?;
    put_words(alloc, out, card, step)?;
    put_body(alloc, out, card, step.is_app, &step.numbered.exchange)?;
    put_end(alloc, out, step.numbered.note)
}
