// What a host heard: the reply that a bus gives for it, and how long the card is left alone then.
ghost use Rattle.std.specs.Prelude.{◌<◌, ◌≡◌};
ghost use Rattle.mmc_card.specs.Faults.{Spells};
ghost use Rattle.mmc_host.specs.Hosts.{answer_heard};
ghost use Rattle.mmc_host.specs.Pace.{pause_after, shows_work};

use crate::response::Response;
use crate::told::{Heard, HostCommand, ResponseFault};
use mmc_card::Reply;
use mmc_frame::commands::{SD_SEND_OP_COND, SEND_OP_COND, SEND_STATUS};
use mmc_frame::{encode_r2, encode_r3, encode_response, with_check};

// An OCR says so once the card is ready.
const READY: u32 = 0x8000_0000;

const BETWEEN_INQUIRIES: u32 = 64_000;

const BETWEEN_STATUSES: u32 = 32_000;

/// The reply to a command, with its checks.
pub fn spelled(command: HostCommand, heard: Result<Heard, ResponseFault>) -> Reply
    requires { command.index < 64 }
    ensures { Spells (answer_heard command.response command.index heard) result }
{
    let Ok(heard) = heard else {
        return Reply::Silent;
    };
    match (command.response, heard) {
        (Response::R2, Heard::Register(bytes)) => Reply::Long(encode_r2(&with_check(&bytes))),
        (Response::R3, Heard::Word(ocr)) => Reply::Short(encode_r3(ocr)),
        (Response::R1 | Response::R1b | Response::R6 | Response::R7, Heard::Word(argument)) =>
            Reply::Short(encode_response(command.index, argument)),
        _ => Reply::Silent,
    }
}

/// For how many microseconds the card is left alone after this was heard.
pub fn pause_after(is_app: bool, command: HostCommand, heard: Result<Heard, ResponseFault>) -> u32
    ensures { result ≡ pause_after is_app command heard }
{
    let Ok(Heard::Word(word)) = heard else {
        return 0;
    };
    match command.index {
        SEND_OP_COND if word < READY => BETWEEN_INQUIRIES,
        SD_SEND_OP_COND if is_app && word < READY => BETWEEN_INQUIRIES,
        SEND_STATUS if shows_work(word) => BETWEEN_STATUSES,
        _ => 0,
    }
}

// Whether a card status shows the card at work: prg, or tran without READY_FOR_DATA.
fn shows_work(status: u32) -> bool
    ensures { result ≡ shows_work status }
{
    let state = status / 512 % 16;
    state == 7 || state == 4 && status / 256 % 2 == 0
}
