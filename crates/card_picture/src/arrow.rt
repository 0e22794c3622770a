// The arrow of an exchange, by its name in the picture.
ghost use Rattle.std.specs.Prelude.{◌≡◌};
ghost use Rattle.card_picture.specs.Arrows.{command_arrow, data_arrow, is_unseen, received_arrow, reply_arrow, sent_arrow};

use card_explain::Note;
use mmc_bus::{DataIn, DataOut, Exchange, Reply, Want};
use mmc_card_sim::Fault;

/// Whether a command was lost on its way to the card.
pub(crate) fn is_unseen(note: Option<Note>) -> bool
    ensures { result ≡ is_unseen note }
{
    match note {
        Some(
            Note {
                fault: Fault::LoseCommand,
                fell,
            },
        ) => fell,
        _ => false,
    }
}

/// That of a command.
pub(crate) fn command_arrow(is_unseen: bool) -> &'static [u8]
    ensures { result.now ≡ command_arrow is_unseen }
{
    if is_unseen {
        b"<use href='#unseen'/>"
    } else {
        b"<use href='#command'/>"
    }
}

/// That of a response: none where none is wanted, or the card hasn't seen the command.
pub(crate) fn reply_arrow(is_unseen: bool, want: Want, reply: &Reply) -> &'static [u8]
    ensures { result.now ≡ reply_arrow is_unseen want reply.now }
{
    match reply {
        Reply::Short(_) | Reply::Long(_) => b"<use href='#response'/>",
        Reply::Silent if is_unseen => b"",
        Reply::Silent => match want {
            Want::Nothing => b"",
            Want::Short | Want::Long => b"<use href='#lost'/>",
        },
    }
}

// That of a block that was read.
fn received_arrow(got: DataIn) -> &'static [u8]
    ensures { result.now ≡ received_arrow got }
{
    match got {
        DataIn::Good => b"<use href='#in'/>",
        DataIn::Bad => b"<use href='#bad'/>",
        DataIn::Nothing => b"<use href='#missing'/>",
    }
}

// That of a block that was written.
fn sent_arrow(got: DataOut) -> &'static [u8]
    ensures { result.now ≡ sent_arrow got }
{
    match got {
        DataOut::Accepted => b"<use href='#out'/>",
        DataOut::Rejected => b"<use href='#rejected'/>",
        DataOut::Nothing => b"<use href='#unsaid'/>",
    }
}

/// That of a block or a poll.
pub(crate) fn data_arrow(exchange: &Exchange) -> &'static [u8]
    ensures { result.now ≡ data_arrow exchange.now }
{
    match exchange {
        Exchange::In { got, .. } => received_arrow(*got),
        Exchange::Out { got } => sent_arrow(*got),
        Exchange::Busy { .. } => b"<use href='#poll'/>",
        Exchange::Command { .. } => b"",
    }
}
