// A trace with words after its lines.
ghost use Rattle.std.specs.Prelude.{[], IfOk, OnOk, false, ◌++◌, ◌∷◌, ◌≡◌};
ghost use Rattle.card_explain.specs.Explained.{padded};
ghost use Rattle.card_explain.specs.declared.line.TheConstants.{COLUMN};
ghost use Rattle.card_text.specs.Script.{lines};
ghost use Rattle.card_trace.specs.TraceText.{object_of, read_on, said_from, said_of, trace_text, words_of};

use crate::exchange_line::read_exchange;
use crate::known::known_after;
use card_explain::{COLUMN, KnownCard, announces_application_command, put_exchange};
use card_text::cut::{cut, without_feed};
use mmc_bus::Exchange;
use std::alloc::{AllocError, Global};

/// In which form the exchanges of a trace are said.
#[derive(Clone, Copy, Debug, PartialEq, Eq)]
pub enum Form {
    /// Each line with words after it.
    Words,
    /// JSON: an object on a line for each exchange.
    Objects,
}

/// What the lines so far tell of what comes.
#[derive(Clone, Copy)]
struct Reading {
    // The card.
    card: KnownCard,
    // Whether the next command is an application command.
    is_app: bool,
}

impl Reading {
    // After a line that says this.
    fn after(self, exchange: Option<Exchange>) -> Reading
        ensures { result ≡ read_on self exchange }
    {
        match exchange {
            None => self,
            Some(exchange) => Reading {
                card: known_after(self.card, &exchange),
                is_app: announces_application_command(&exchange),
            },
        }
    }
}

// A line filled up with spaces, as `--explain` fills it.
fn padded(alloc: Global, line: &[u8]) -> Result<Vec<u8>, AllocError>
    ensures { IfOk result (λ text. text.items ≡ padded COLUMN line.now) }
{
    let mut text = Vec::new(alloc);
    text.extend_from_slice(line)?;
    let columns = text.len().max(COLUMN);
    text.resize(columns, b' ')?;
    Ok(text)
}

// A line, and after it the exchange in words, where it is one.
fn put_words(
    alloc: Global,
    out: &mut Vec<u8>,
    reading: Reading,
    line: &[u8],
    exchange: Option<Exchange>,
) -> Result<(), AllocError>
    ensures { OnOk result (out.new.items ≡ out.old.items ++ words_of reading line.now exchange) }
{
    let Some(exchange) = exchange else {
        out.extend_from_slice(line)?;
        return Ok(());
    };
    let front = padded(alloc, line)?;
    out.extend_from_slice(front.as_slice())?;
    out.push(b' ')?;
    let card = known_after(reading.card, &exchange);
    put_exchange(out, card, reading.is_app, &exchange)
}

// A line as words, with a line feed.
fn put_words_line(
    alloc: Global,
    out: &mut Vec<u8>,
    reading: Reading,
    line: &[u8],
    exchange: Option<Exchange>,
) -> Result<(), AllocError>
    ensures { OnOk result (out.new.items ≡ out.old.items ++ (words_of reading line.now exchange ++ 10 ∷ [])) }
{
    put_words(alloc, out, reading, line, exchange)?;
    out.push(b'\n')?;
    Ok(())
}

// An exchange as an object.
fn put_object(
    alloc: Global,
    out: &mut Vec<u8>,
    reading: Reading,
    exchange: Option<Exchange>,
) -> Result<(), AllocError>
    ensures { OnOk result (out.new.items ≡ out.old.items ++ object_of reading exchange) }
{
    match exchange {
        None => Ok(()),
        Some(exchange) => {
            let card = known_after(reading.card, &exchange);
            card_json::put_exchange(alloc, out, card, reading.is_app, &exchange)
        }
    }
}

// What is said of a line in a form.
#[tactic(auto, unfolding(crate::specs::TraceText::said_of))]
fn put_said(
    alloc: Global,
    out: &mut Vec<u8>,
    form: Form,
    reading: Reading,
    line: &[u8],
    exchange: Option<Exchange>,
) -> Result<(), AllocError>
    ensures { OnOk result (out.new.items ≡ out.old.items ++ said_of form reading line.now exchange) }
{
    match form {
        Form::Words => put_words_line(alloc, out, reading, line, exchange),
        Form::Objects => put_object(alloc, out, reading, exchange),
    }
}

// The same of the lines of a text.
fn put_lines(
    alloc: Global,
    out: &mut Vec<u8>,
    form: Form,
    card: KnownCard,
    text: &[u8],
) -> Result<(), AllocError>
    ensures { OnOk result (out.new.items ≡ out.old.items ++ said_from form (record { card = card; is_app = false }) (lines text.now)) }
{
    let mut reading = Reading {
        card,
        is_app: false,
    };
    let mut rest = Some(text);
    while let Some(text) = rest {
        let (line, others) = cut(text, b'\n');
        let exchange = read_exchange(line);
        put_said(alloc, out, form, reading, line, exchange)?;
        reading = reading.after(exchange);
        rest = others;
    }
    Ok(())
}

/// Writes what is said of a trace: each line of a text, and after it, where it is that of an exchange, the exchange in words, as
/// `serve --explain` says them; or an object for each line that is one. What isn't told of the card by the lines before is as `card`
/// says.
///
/// # Errors
/// `AllocError` where memory is refused.
pub fn put_trace(
    alloc: Global,
    out: &mut Vec<u8>,
    form: Form,
    card: KnownCard,
    text: &[u8],
) -> Result<(), AllocError>
    ensures { OnOk result (out.new.items ≡ out.old.items ++ trace_text form card text.now) }
{
    put_lines(alloc, out, form, card, without_feed(text))
}
