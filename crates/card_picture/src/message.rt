// What a client and the driver say to each other, in a sequence diagram.
ghost use Rattle.std.specs.Prelude.{OnOk, ◌++◌, ◌<◌, ◌≡◌};
ghost use Rattle.card_picture.specs.Messages.{message_arrow, message_row};
ghost use Rattle.card_picture.specs.declared.sequence.TheConstants.{ROWS};

use crate::label::put_label;
use crate::row::put_open;
use crate::sequence::ROWS;
use crate::words::say;
use std::alloc::AllocError;
use text_out::Piece;

/// A submission or a cancellation of a client, or an answer to it.
#[derive(Clone, Copy, Debug, PartialEq, Eq)]
pub struct Message<'a> {
    /// How many exchanges there had been with the card.
    pub after: u64,
    /// Whether it is an answer.
    pub is_answer: bool,
    /// Its words.
    pub words: &'a [u8],
}

// The arrow of a message, with the beginning of its words.
fn message_arrow(is_answer: bool) -> &'static [u8]
    ensures { result.now ≡ message_arrow is_answer }
{
    if is_answer {
        b"<use href='#answers'/><text x='318' y='25' class='e'>"
    } else {
        b"<use href='#asks'/><text x='112' y='25'>"
    }
}

/// Writes the row of a message at this place, counted from 0.
///
/// # Errors
/// `AllocError` where memory is refused.
#[tactic(auto, unfolding(crate::specs::Messages::message_row))]
pub(crate) fn put_message(
    out: &mut Vec<u8>,
    place: u64,
    message: &Message<'_>,
) -> Result<(), AllocError>
    requires { place < ROWS }
    ensures { OnOk result (out.new.items ≡ out.old.items ++ message_row place message.now) }
{
    let arrow = message_arrow(message.is_answer);
    put_open(out, place, false)?;
    put_label(out, arrow, message.words)?;
    say(out, &[Piece::Text(b"</g>\n")])
}
