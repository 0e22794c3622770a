// A sequence diagram.
ghost use Rattle.std.specs.Prelude.{OnOk, ◌++◌, ◌<◌, ◌≡◌, ◌≤◌, length};
ghost use Rattle.card_picture.specs.Sequence.{exchanges_before, front_text, messages_before, messages_from, rows_from, sequence_text};

use crate::message::{Message, put_message};
use crate::row::{HEIGHT, TOP, put_row};
use crate::words::say;
use card_explain::{KnownCard, Step};
use std::alloc::{AllocError, Global};
use text_out::Piece;

/// The most exchanges of a diagram, and the most messages.
pub const MAX_ROWS: usize = 65_536;

/// More than the rows of a diagram.
pub(crate) const ROWS: usize = 2 * MAX_ROWS + 1;

// The element of the picture, up to its height.
pub(crate) const HEAD: &[u8] =
    b"<svg xmlns='http://www.w3.org/2000/svg' role='img' width='1050' height='";

// What the rows draw with: clients are at 100, the driver at 330, the card at 830.
pub(crate) const SYMBOLS: &[u8] = b"' font-family='system-ui,sans-serif' font-size='12' fill='#222'>
<title>Exchanges between a driver and a card</title>
<style>use{fill:none;stroke:#222}.f>use{stroke:#c00}.n{fill:#777;text-anchor:end}.e{text-anchor:end}.w{fill:#777}.f>.w{fill:#c00}</style>
<defs>
<g id='settling' stroke='none'><rect x='8' width='1034' height='46' fill='#fb4' fill-opacity='.27'/><text x='84' y='40' font-size='9' fill='#850' text-anchor='end'>settling</text></g>
<g id='identification' stroke='none'><rect x='8' width='1034' height='46' fill='#48c' fill-opacity='.12'/><text x='84' y='40' font-size='9' fill='#357' text-anchor='end'>identification</text></g>
<path id='asks' d='M101 30H328m-7-4 7 4-7 4'/>
<path id='answers' d='M329 30H102m7-4-7 4 7 4'/>
<path id='command' d='M331 19H828m-7-4 7 4-7 4'/>
<path id='unseen' d='M331 19H634m-6-6 12 12m0-12-12 12'/>
<path id='response' d='M829 38H332m7-4-7 4 7 4'/>
<path id='lost' d='M829 38H526m-6-6 12 12m0-12-12 12'/>
<path id='in' d='M829 28H334m8-6-8 6 8 6' stroke-width='3'/>
<g id='bad' stroke-width='3'><path d='M829 28H338' stroke-dasharray='9 4'/><path d='m342 22-8 6 8 6'/></g>
<path id='missing' d='M829 28H526m-6-6 12 12m0-12-12 12' stroke-width='3'/>
<path id='out' d='M331 28H826m-8-6 8 6-8 6' stroke-width='3'/>
<path id='rejected' d='M331 28H814m-6-6 12 12m0-12-12 12' stroke-width='3'/>
<g id='unsaid' stroke-width='3'><path d='M331 28H822' stroke-dasharray='9 4'/><path d='m818 22 8 6-8 6'/></g>
<g id='poll'><path d='M829 28H334' stroke-dasharray='2 3'/><path d='m338 24-6 4 6 4'/></g>
</defs>
<rect width='100%' height='100%' fill='#fff'/>
<g text-anchor='middle' font-weight='bold'><text x='100' y='20'>clients</text><text x='330' y='20'>driver</text><text x='830' y='20'>card</text></g>
<path d='M100 30V9999999M330 30V9999999M830 30V9999999' stroke='#999'/>
";

// The element of the picture, with its size, and what the rows draw with.
#[tactic(auto, unfolding(crate::specs::Sequence::front_text))]
fn put_front(out: &mut Vec<u8>, rows: u64) -> Result<(), AllocError>
    requires { rows < ROWS }
    ensures { OnOk result (out.new.items ≡ out.old.items ++ front_text rows) }
{
    let height = TOP + (HEIGHT * rows + 12);
    say(
        out,
        &[
            Piece::Text(HEAD),
            Piece::Number(height),
            Piece::Text(b"' viewBox='0 0 1050 "),
            Piece::Number(height),
            Piece::Text(SYMBOLS),
        ],
    )
}

// How many messages stand before the exchange with this number.
fn messages_before(messages: &[Message<'_>], number: u64) -> u64
    ensures count { result ≡ messages_before messages.now number }
    ensures few { result ≤ length messages.now }
{
    let mut count = 0;
    for message in messages {
        if message.after <= number {
            count += 1;
        }
    }
    count
}

// How many exchanges stand before a message.
fn exchanges_before(steps: &[Step], after: u64) -> u64
    ensures count { result ≡ exchanges_before steps.now after }
    ensures few { result ≤ length steps.now }
{
    let mut count = 0;
    for step in steps {
        if step.numbered.number < after {
            count += 1;
        }
    }
    count
}

// A row for each exchange.
#[tactic(auto, unfolding(crate::specs::Sequence::rows_from))]
fn put_rows(
    alloc: Global,
    out: &mut Vec<u8>,
    card: KnownCard,
    steps: &[Step],
    messages: &[Message<'_>],
) -> Result<(), AllocError>
    requires steps { length steps.now ≤ MAX_ROWS }
    requires messages { length messages.now ≤ MAX_ROWS }
    ensures { OnOk result (out.new.items ≡ out.old.items ++ rows_from card messages.now 0 steps.now) }
{
    for (place, step) in steps.iter().enumerate() {
        let before = messages_before(messages, step.numbered.number);
        put_row(alloc, out, card, place as u64 + before, step)?;
    }
    Ok(())
}

// A row for each message.
#[tactic(auto, unfolding(crate::specs::Sequence::messages_from))]
fn put_messages(
    out: &mut Vec<u8>,
    steps: &[Step],
    messages: &[Message<'_>],
) -> Result<(), AllocError>
    requires steps { length steps.now ≤ MAX_ROWS }
    requires messages { length messages.now ≤ MAX_ROWS }
    ensures { OnOk result (out.new.items ≡ out.old.items ++ messages_from steps.now 0 messages.now) }
{
    for (place, message) in messages.iter().enumerate() {
        let before = exchanges_before(steps, message.after);
        put_message(out, place as u64 + before, message)?;
    }
    Ok(())
}

/// Draws exchanges, which follow each other, as a sequence diagram in SVG 2: a row for each, in order, with its number, and lines
/// for clients, the driver and the card from the first to the last. An exchange for which a fault was planned has it beside it, in
/// red where it fell, and those of a phase that isn't transfer a band behind them. Each message stands at its place among them.
///
/// # Errors
/// `AllocError` where memory is refused.
#[tactic(auto, unfolding(crate::specs::Sequence::sequence_text))]
pub fn put_sequence(
    alloc: Global,
    out: &mut Vec<u8>,
    card: KnownCard,
    steps: &[Step],
    messages: &[Message<'_>],
) -> Result<(), AllocError>
    requires steps { length steps.now ≤ MAX_ROWS }
    requires messages { length messages.now ≤ MAX_ROWS }
    ensures { OnOk result (out.new.items ≡ out.old.items ++ sequence_text card steps.now messages.now) }
{
    put_front(out, steps.len() as u64 + messages.len() as u64)?;
    put_rows(alloc, out, card, steps, messages)?;
    put_messages(out, steps, messages)?;
    say(out, &[Piece::Text(b"</svg>\n")])
}
