// Reads a line of a trace, as `mmc_bus::write_exchange` writes it, without its line feed.
ghost use Rattle.std.specs.Prelude.{◌≡◌, ◌∷◌, []};
ghost use Rattle.card_text.specs.Parts.{parts};
ghost use Rattle.card_trace.specs.ExchangeLines.{command_of, ended_of, exchange_of, received_of, reply_of, sent_of, want_of};

use card_text::card_line::choice;
use card_text::hexadecimal::bytes;
use card_text::line::fields;
use card_text::number::number;
use mmc_bus::{DataIn, DataOut, Exchange, Reply, Want};

// A response: `none`, or the digits of six bytes or of seventeen.
#[tactic(auto, unfolding(crate::specs::ExchangeLines::reply_of))]
fn reply(text: &[u8]) -> Option<Reply>
    ensures { result ≡ reply_of text.now }
{
    if text == b"none".as_slice() {
        return Some(Reply::Silent);
    }
    if text.len() == 12 {
        return Some(Reply::Short(bytes::<6>(text)?));
    }
    Some(Reply::Long(bytes::<17>(text)?))
}

// The response that was wanted, as far as what came shows it.
fn want(reply: Reply) -> Want
    ensures { result ≡ want_of reply }
{
    match reply {
        Reply::Silent => Want::Nothing,
        Reply::Short(_) => Want::Short,
        Reply::Long(_) => Want::Long,
    }
}

// What became of a block that was to be read.
#[tactic(auto, unfolding(crate::specs::ExchangeLines::received_of))]
fn received(text: &[u8]) -> Option<DataIn>
    ensures { result ≡ received_of text.now }
{
    if text == b"good".as_slice() {
        Some(DataIn::Good)
    } else if text == b"bad".as_slice() {
        Some(DataIn::Bad)
    } else if text == b"nothing".as_slice() {
        Some(DataIn::Nothing)
    } else {
        None
    }
}

// What became of a block that was written.
#[tactic(auto, unfolding(crate::specs::ExchangeLines::sent_of))]
fn sent(text: &[u8]) -> Option<DataOut>
    ensures { result ≡ sent_of text.now }
{
    if text == b"accepted".as_slice() {
        Some(DataOut::Accepted)
    } else if text == b"rejected".as_slice() {
        Some(DataOut::Rejected)
    } else if text == b"nothing".as_slice() {
        Some(DataOut::Nothing)
    } else {
        None
    }
}

// A block that was written, or a poll.
#[tactic(auto, unfolding(crate::specs::ExchangeLines::ended_of))]
fn ended(key: &[u8], end: &[u8]) -> Option<Exchange>
    ensures { result ≡ ended_of key.now end.now }
{
    if key == b"out".as_slice() {
        Some(Exchange::Out { got: sent(end)? })
    } else if key == b"busy".as_slice() {
        Some(Exchange::Busy { yes: choice(end)? })
    } else {
        None
    }
}

// A block that was to be read.
#[tactic(auto, unfolding(crate::specs::ExchangeLines::exchange_of))]
fn read(key: &[u8], len: &[u8], got: &[u8]) -> Option<Exchange>
    ensures { result ≡ exchange_of (key.now ∷ len.now ∷ got.now ∷ []) }
{
    if key != b"in".as_slice() {
        return None;
    }
    let len = number(len)? as usize;
    let got = received(got)?;
    Some(Exchange::In { len, got })
}

// A command.
#[tactic(auto, unfolding(crate::specs::ExchangeLines::command_of))]
fn command(frame: &[u8], text: &[u8]) -> Option<Exchange>
    ensures { result ≡ command_of frame.now text.now }
{
    let frame = bytes::<6>(frame)?;
    let reply = reply(text)?;
    Some(Exchange::Command {
        frame,
        want: want(reply),
        reply,
    })
}

// A command, where the words around its bytes are there.
#[tactic(auto, unfolding(crate::specs::ExchangeLines::exchange_of))]
fn asked(key: &[u8], frame: &[u8], word: &[u8], text: &[u8]) -> Option<Exchange>
    ensures { result ≡ exchange_of (key.now ∷ frame.now ∷ word.now ∷ text.now ∷ []) }
{
    if key != b"cmd".as_slice() || word != b"rsp".as_slice() {
        return None;
    }
    command(frame, text)
}

/// The exchange of a line of a trace, without its line feed, and nothing of another line. The response that was wanted doesn't
/// stand there: it is taken for what came.
#[tactic(auto, unfolding(crate::specs::ExchangeLines::exchange_of))]
pub fn read_exchange(line: &[u8]) -> Option<Exchange>
    ensures { result ≡ exchange_of (parts 32 line.now) }
{
    let fields = fields(line)?;
    match fields.as_slice() {
        [key, end] => ended(key, end),
        [key, len, got] => read(key, len, got),
        [key, frame, word, text] => asked(key, frame, word, text),
        _ => None,
    }
}
