// A command and what came back of it, each for itself.
ghost use Rattle.std.specs.Prelude.{OnOk, ◌++◌, ◌≡◌};
ghost use Rattle.card_explain.specs.Halves.{command_half, reply_half};

use crate::argument::put_argument;
use crate::command::put_command;
use crate::exchange::{KnownCard, meant};
use crate::response::put_reply;
use crate::words::say;
use mmc_bus::Reply;
use mmc_frame::read_command;
use std::alloc::AllocError;
use text_out::Piece;

/// Writes a command by its number, its name and what it asks for, as `CMD17 READ_SINGLE_BLOCK, sector 1`. `is_app` says that the
/// exchange before it announced an application command.
///
/// # Errors
/// `AllocError` where memory is refused.
#[tactic(auto, unfolding(crate::specs::Halves::command_half))]
pub fn put_command_half(
    out: &mut Vec<u8>,
    card: KnownCard,
    is_app: bool,
    frame: &[u8; 6],
) -> Result<(), AllocError>
    ensures { OnOk result (out.new.items ≡ out.old.items ++ command_half card is_app frame.now) }
{
    match read_command(frame) {
        None => say(out, &[Piece::Text(b"no sound command")]),
        Some((index, argument)) => {
            let command = meant(card.kind, is_app, index, argument);
            put_command(out, card.kind, command, is_app, index)?;
            put_argument(out, card.addressing, command, argument)
        }
    }
}

/// Writes what came back of a command, as `put_reply` does; of no sound command nothing.
///
/// # Errors
/// `AllocError` where memory is refused.
#[tactic(auto, unfolding(crate::specs::Halves::reply_half))]
pub fn put_reply_half(
    out: &mut Vec<u8>,
    card: KnownCard,
    is_app: bool,
    frame: &[u8; 6],
    reply: &Reply,
) -> Result<(), AllocError>
    ensures { OnOk result (out.new.items ≡ out.old.items ++ reply_half card is_app frame.now reply.now) }
{
    match read_command(frame) {
        None => Ok(()),
        Some((index, argument)) => {
            let command = meant(card.kind, is_app, index, argument);
            put_reply(out, card.kind, command, index, reply)
        }
    }
}
