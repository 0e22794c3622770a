// The phases of a session: identification, transfer, and settling.
ghost use Rattle.std.specs.Prelude.{◌≡◌};
ghost use Rattle.mmc_frame.specs.Frame.{command_in};
ghost use Rattle.card_explain.specs.Settling.{fails, own_errors, phase_after, phase_of, reply_fails, response_fails, sends, settles};

use bitflags::Flags;
use mmc_bus::{DataIn, DataOut, Exchange, Reply, Want};
use mmc_frame::commands::{
    GO_IDLE_STATE, SEND_RELATIVE_ADDR, SEND_STATUS, SET_BLOCKLEN, STOP_TRANSMISSION,
};
use mmc_frame::{Kind, errors, own_status, read_command, read_r1, read_r2};

/// A phase of a session.
#[derive(Clone, Copy, Debug, PartialEq, Eq)]
pub enum Phase {
    /// From CMD0 to CMD3 (SD Physical Layer 6.00, section 4.2; JESD84-B51, section 6.4). A card that doesn't know a command is
    /// silent then.
    Identification,
    /// All that a host does else.
    Transfer,
    /// What a host does after an exchange that failed, to bring the card back in order: polls, CMD12, CMD13 and CMD16.
    Settling,
}

// Whether an exchange is a command with this index.
#[tactic(auto, unfolding(crate::specs::Settling::sends))]
fn sends(index: u8, exchange: &Exchange) -> bool
    ensures { result ≡ sends index exchange.now }
{
    match exchange {
        Exchange::Command { frame, .. } => match read_command(frame) {
            Some((sent, _)) => sent == index,
            None => false,
        },
        _ => false,
    }
}

// The errors of a status, but for those of an earlier command, and after CMD12 for OUT_OF_RANGE.
fn own_errors(kind: Kind, index: u8, status: u32) -> u32
    ensures { result ≡ own_errors kind index status }
{
    let errors = errors(kind, own_status(status)).bits();
    if index == STOP_TRANSMISSION {
        errors % 0x8000_0000
    } else {
        errors
    }
}

// Whether the response to a command is unsound, or reports an error of it.
fn response_fails(kind: Kind, frame: &[u8; 6], response: &[u8; 6]) -> bool
    ensures { result ≡ response_fails kind (command_in frame.now) response.now }
{
    let Some((index, _)) = read_command(frame) else {
        return true;
    };
    match read_r1(response, index) {
        Ok(status) => own_errors(kind, index, status) != 0,
        Err(_) => true,
    }
}

// Whether a response is missing, though one is wanted, or fails.
fn reply_fails(kind: Kind, frame: &[u8; 6], want: Want, reply: &Reply) -> bool
    ensures { result ≡ reply_fails kind frame.now want reply.now }
{
    match reply {
        Reply::Short(response) => response_fails(kind, frame, response),
        Reply::Long(response) => read_r2(response).is_err(),
        Reply::Silent => match want {
            Want::Nothing => false,
            Want::Short | Want::Long => true,
        },
    }
}

/// Whether an exchange fails: a response that is wanted is missing, it is unsound, or its status reports an error, but for those
/// of an earlier command, and for OUT_OF_RANGE after CMD12, which a read up to the last block may leave; a block doesn't come, comes with a bad check, or isn't accepted.
#[tactic(auto, unfolding(crate::specs::Settling::fails))]
pub fn fails(kind: Kind, exchange: &Exchange) -> bool
    ensures { result ≡ fails kind exchange.now }
{
    match exchange {
        Exchange::Command { frame, want, reply } => reply_fails(kind, frame, *want, reply),
        Exchange::In { got, .. } => match got {
            DataIn::Good => false,
            DataIn::Bad | DataIn::Nothing => true,
        },
        Exchange::Out { got } => match got {
            DataOut::Accepted => false,
            DataOut::Rejected | DataOut::Nothing => true,
        },
        Exchange::Busy { .. } => false,
    }
}

// Whether a host settles a card by this exchange.
#[tactic(auto, unfolding(crate::specs::Settling::settles))]
fn settles(exchange: &Exchange) -> bool
    ensures { result ≡ settles exchange.now }
{
    match exchange {
        Exchange::Busy { .. } => true,
        _ => sends(STOP_TRANSMISSION, exchange)
            || sends(SEND_STATUS, exchange)
            || sends(SET_BLOCKLEN, exchange),
    }
}

/// The phase of an exchange, by the phase in which those before it leave the card.
#[tactic(auto, unfolding(crate::specs::Settling::phase_of))]
pub fn phase_of(left: Phase, exchange: &Exchange) -> Phase
    ensures { result ≡ phase_of left exchange.now }
{
    if sends(GO_IDLE_STATE, exchange) {
        return Phase::Identification;
    }
    match left {
        Phase::Settling if !settles(exchange) => Phase::Transfer,
        _ => left,
    }
}

/// The phase in which an exchange leaves a card of this kind, by the phase of the exchange.
#[tactic(auto, unfolding(crate::specs::Settling::phase_after))]
pub fn phase_after(kind: Kind, phase: Phase, exchange: &Exchange) -> Phase
    ensures { result ≡ phase_after kind phase exchange.now }
{
    match phase {
        Phase::Identification if sends(SEND_RELATIVE_ADDR, exchange) => Phase::Transfer,
        Phase::Transfer if fails(kind, exchange) => Phase::Settling,
        _ => phase,
    }
}
