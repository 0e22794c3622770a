// An exchange in words.
ghost use Rattle.std.specs.Prelude.{OnOk, ◌++◌, ◌≡◌};
ghost use Rattle.card_explain.specs.Exchanges.{announces, asked_words, card_explain, known_words, meant};

use crate::argument::put_argument;
use crate::block::{poll_words, received_words, sent_words};
use crate::command::put_command;
use crate::response::put_reply;
use crate::words::say;
use mmc_bus::{Exchange, Reply};
use mmc_card::Command;
use mmc_card_rows::command_of;
use mmc_frame::commands::{APP_CMD, SEND_IF_COND};
use mmc_frame::{Addressing, Kind, read_command, read_r1};
use std::alloc::AllocError;
use text_out::Piece;

/// What is known of the card by its registers.
#[derive(Clone, Copy, Debug, PartialEq, Eq)]
pub struct KnownCard {
    /// Its kind.
    pub kind: Kind,
    /// How its commands name sectors.
    pub addressing: Addressing,
}

/// Whether the command after this exchange is an application command: CMD55 was answered by an R1 that has bit 5, APP_CMD
/// (SD Physical Layer 6.00, section 4.3.9).
pub fn announces_application_command(exchange: &Exchange) -> bool
    ensures { result ≡ announces exchange.now }
{
    match exchange {
        Exchange::Command {
            reply: Reply::Short(response),
            ..
        } => read_r1(response, APP_CMD).is_ok_and(|status| status / 32 % 2 == 1),
        _ => false,
    }
}

/// The command that a host means, whichever kind the card turns out to be: CMD8 with an argument is SD's (SD Physical Layer 6.00,
/// section 4.3.13; JESD84-B51, section 6.10.4).
pub(crate) fn meant(kind: Kind, is_app: bool, index: u8, argument: u32) -> Command
    ensures { result ≡ meant kind is_app index argument }
{
    match kind {
        Kind::Mmc if index == SEND_IF_COND && argument != 0 => Command::SendIfCond,
        _ => command_of(kind, is_app, index),
    }
}

// A command with its response.
#[tactic(auto, unfolding(crate::specs::Exchanges::known_words))]
fn put_known(
    out: &mut Vec<u8>,
    card: KnownCard,
    command: Command,
    is_app: bool,
    index: u8,
    argument: u32,
    reply: &Reply,
) -> Result<(), AllocError>
    ensures { OnOk result (out.new.items ≡ out.old.items ++ known_words card command is_app index argument reply.now) }
{
    put_command(out, card.kind, command, is_app, index)?;
    put_argument(out, card.addressing, command, argument)?;
    say(out, &[Piece::Text(b"; ")])?;
    put_reply(out, card.kind, command, index, reply)
}

// A frame with its response.
#[tactic(auto, unfolding(crate::specs::Exchanges::asked_words))]
fn put_asked(
    out: &mut Vec<u8>,
    card: KnownCard,
    is_app: bool,
    frame: &[u8; 6],
    reply: &Reply,
) -> Result<(), AllocError>
    ensures { OnOk result (out.new.items ≡ out.old.items ++ asked_words card is_app frame.now reply.now) }
{
    match read_command(frame) {
        None => say(out, &[Piece::Text(b"no sound command")]),
        Some((index, argument)) => {
            let command = meant(card.kind, is_app, index, argument);
            put_known(out, card, command, is_app, index, argument, reply)
        }
    }
}

/// Writes an exchange in words: a command by its number, its name and what it asks for, with what its response tells; what
/// became of a block; what a poll was answered. `is_app` says that the exchange before it announced an application command.
///
/// # Errors
/// `AllocError` where memory is refused.
#[tactic(auto, unfolding(crate::specs::Exchanges::card_explain))]
pub fn put_exchange(
    out: &mut Vec<u8>,
    card: KnownCard,
    is_app: bool,
    exchange: &Exchange,
) -> Result<(), AllocError>
    ensures { OnOk result (out.new.items ≡ out.old.items ++ card_explain card is_app exchange.now) }
{
    match exchange {
        Exchange::Command { frame, reply, .. } => put_asked(out, card, is_app, frame, reply),
        Exchange::In { got, .. } => {
            let words = received_words(*got);
            say(out, &[Piece::Text(words)])
        }
        Exchange::Out { got } => {
            let words = sent_words(*got);
            say(out, &[Piece::Text(words)])
        }
        Exchange::Busy { yes } => {
            let words = poll_words(*yes);
            say(out, &[Piece::Text(words)])
        }
    }
}
