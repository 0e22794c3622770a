// Writes exchanges as lines.
ghost use Rattle.std.specs.Prelude.{◌≡◌};
ghost use Rattle.mmc_bus.specs.ExchangeText.{exchange_text, poll_text, received_text, reply_text, sent_text};
ghost use Rattle.text_out.specs.Pieces.{piece_text};
ghost use Rattle.text_out.specs.Writing.{Writes};

use mmc_card::{DataIn, DataOut, Exchange, Reply};
use std::io::{self, Write};
use text_out::{Piece, put_pieces};

// What a reply is in a line.
fn reply_piece(reply: &Reply) -> Piece<'_>
    ensures { piece_text result ≡ reply_text reply.now }
{
    match reply {
        Reply::Silent => Piece::Text(b"none"),
        Reply::Short(frame) => Piece::Hex(frame),
        Reply::Long(frame) => Piece::Hex(frame),
    }
}

// What became of a block that was read.
fn received_name(got: DataIn) -> &'static [u8]
    ensures { result.now ≡ received_text got }
{
    match got {
        DataIn::Good => b"good",
        DataIn::Bad => b"bad",
        DataIn::Nothing => b"nothing",
    }
}

// What became of a block that was written.
fn sent_name(got: DataOut) -> &'static [u8]
    ensures { result.now ≡ sent_text got }
{
    match got {
        DataOut::Accepted => b"accepted",
        DataOut::Rejected => b"rejected",
        DataOut::Nothing => b"nothing",
    }
}

// What a poll was answered.
fn poll_name(yes: bool) -> &'static [u8]
    ensures { result.now ≡ poll_text yes }
{
    if yes { b"yes" } else { b"no" }
}

/// Writes an exchange as a line: `cmd HEX rsp HEX` (or `rsp none`), `in LEN good|bad|nothing`,
/// `out accepted|rejected|nothing` or `busy yes|no`.
///
/// # Errors
/// The fault of a write; a prefix of the line went out then.
#[tactic(auto, unfolding(crate::specs::ExchangeText::exchange_text))]
pub fn write_exchange<W: Write>(exchange: &Exchange, out: &mut W) -> io::Result<()>
    ensures { Writes (W.contents out.old) (W.contents out.new) result (exchange_text exchange.now) }
{
    match exchange {
        Exchange::Command { frame, reply, .. } => {
            let answer = reply_piece(reply);
            put_pieces(
                out,
                &[
                    Piece::Text(b"cmd "),
                    Piece::Hex(frame),
                    Piece::Text(b" rsp "),
                    answer,
                    Piece::Text(b"\n"),
                ],
            )
        }
        Exchange::In { len, got } => {
            let name = received_name(*got);
            put_pieces(
                out,
                &[
                    Piece::Text(b"in "),
                    Piece::Number(*len as u64),
                    Piece::Text(b" "),
                    Piece::Text(name),
                    Piece::Text(b"\n"),
                ],
            )
        }
        Exchange::Out { got } => {
            let name = sent_name(*got);
            put_pieces(
                out,
                &[Piece::Text(b"out "), Piece::Text(name), Piece::Text(b"\n")],
            )
        }
        Exchange::Busy { yes } => {
            let name = poll_name(*yes);
            put_pieces(
                out,
                &[Piece::Text(b"busy "), Piece::Text(name), Piece::Text(b"\n")],
            )
        }
    }
}
