// What a response tells.
ghost use Rattle.std.specs.Prelude.{OnOk, ◌++◌, ◌≡◌};
ghost use Rattle.card_explain.specs.Responses.{fault_words, ocr_words, r1_name, r1_words, r2_words, r3_told, r3_words, r6_words, r7_words, rca_told};
ghost use Rattle.card_explain.specs.Responses.{register_name, reply_words, short_words, silence_words};

use crate::status::put_status;
use crate::words::say;
use mmc_bus::Reply;
use mmc_card::Command;
use mmc_frame::{FrameFault, Kind, read_r1, read_r2, read_r3, read_r6, read_r7};
use mmc_host::{Response, response_of};
use std::alloc::AllocError;
use text_out::Piece;

// Why a response is refused.
fn fault_words(fault: FrameFault) -> &'static [u8]
    ensures { result.now ≡ fault_words fault }
{
    match fault {
        FrameFault::FixedBits => b"a response with a wrong fixed bit",
        FrameFault::Check => b"a response whose check doesn't fit",
        FrameFault::Index => b"a response to another command",
    }
}

// The name of a response with a card status.
fn r1_name(response: Response) -> &'static [u8]
    ensures { result.now ≡ r1_name response }
{
    match response {
        Response::R1b => b"R1b: ",
        _ => b"R1: ",
    }
}

// An R1 or R1b.
fn put_r1(
    out: &mut Vec<u8>,
    kind: Kind,
    response: Response,
    index: u8,
    frame: &[u8; 6],
) -> Result<(), AllocError>
    ensures { OnOk result (out.new.items ≡ out.old.items ++ r1_words kind response index frame.now) }
{
    match read_r1(frame, index) {
        Ok(status) => {
            let name = r1_name(response);
            say(out, &[Piece::Text(name)])?;
            put_status(out, kind, status)
        }
        Err(fault) => {
            let words = fault_words(fault);
            say(out, &[Piece::Text(words)])
        }
    }
}

// Bit 31 of an OCR: whether the card has powered up.
fn ocr_words(ocr: u32) -> &'static [u8]
    ensures { result.now ≡ ocr_words ocr }
{
    if ocr / 0x8000_0000 == 1 {
        b", powered up"
    } else {
        b", not powered up yet"
    }
}

// An OCR, and whether the card has powered up.
fn put_ocr(out: &mut Vec<u8>, ocr: u32) -> Result<(), AllocError>
    ensures { OnOk result (out.new.items ≡ out.old.items ++ r3_told ocr) }
{
    let ready = ocr_words(ocr);
    let bytes = ocr.to_be_bytes();
    say(
        out,
        &[
            Piece::Text(b"R3: OCR "),
            Piece::Hex(&bytes),
            Piece::Text(ready),
        ],
    )
}

/// An R3, with the OCR.
pub(crate) fn put_r3(out: &mut Vec<u8>, frame: &[u8; 6]) -> Result<(), AllocError>
    ensures { OnOk result (out.new.items ≡ out.old.items ++ r3_words frame.now) }
{
    match read_r3(frame) {
        Ok(ocr) => put_ocr(out, ocr),
        Err(fault) => {
            let words = fault_words(fault);
            say(out, &[Piece::Text(words)])
        }
    }
}

// The RCA of an R6.
#[tactic(auto, unfolding(crate::specs::Responses::rca_told))]
fn put_rca(out: &mut Vec<u8>, rca: u16) -> Result<(), AllocError>
    ensures { OnOk result (out.new.items ≡ out.old.items ++ rca_told rca) }
{
    let rca = u64::from(rca);
    say(
        out,
        &[
            Piece::Text(b"R6: RCA "),
            Piece::Number(rca),
            Piece::Text(b", "),
        ],
    )
}

/// An R6, with the RCA.
pub(crate) fn put_r6(out: &mut Vec<u8>, kind: Kind, frame: &[u8; 6]) -> Result<(), AllocError>
    ensures { OnOk result (out.new.items ≡ out.old.items ++ r6_words kind frame.now) }
{
    match read_r6(frame) {
        Ok(r6) => {
            put_rca(out, r6.rca)?;
            put_status(out, kind, r6.status)
        }
        Err(fault) => {
            let words = fault_words(fault);
            say(out, &[Piece::Text(words)])
        }
    }
}

/// An R7, with the voltage and the check pattern.
pub(crate) fn put_r7(out: &mut Vec<u8>, frame: &[u8; 6]) -> Result<(), AllocError>
    ensures { OnOk result (out.new.items ≡ out.old.items ++ r7_words frame.now) }
{
    match read_r7(frame) {
        Ok(r7) => {
            let pattern = [r7.pattern];
            say(
                out,
                &[
                    Piece::Text(b"R7: voltage "),
                    Piece::Number(u64::from(r7.voltage)),
                    Piece::Text(b", check pattern "),
                    Piece::Hex(&pattern),
                ],
            )
        }
        Err(fault) => {
            let words = fault_words(fault);
            say(out, &[Piece::Text(words)])
        }
    }
}

// A response of 48 bits, as that to the command.
fn put_short(
    out: &mut Vec<u8>,
    kind: Kind,
    command: Command,
    index: u8,
    frame: &[u8; 6],
) -> Result<(), AllocError>
    ensures { OnOk result (out.new.items ≡ out.old.items ++ short_words kind command index frame.now) }
{
    let response = response_of(command);
    match response {
        Response::R3 => put_r3(out, frame),
        Response::R6 => put_r6(out, kind, frame),
        Response::R7 => put_r7(out, frame),
        _ => put_r1(out, kind, response, index, frame),
    }
}

// The register that an R2 carries.
fn register_name(command: Command) -> &'static [u8]
    ensures { result.now ≡ register_name command }
{
    match command {
        Command::SendCsd => b"R2: CSD",
        _ => b"R2: CID",
    }
}

// A response of 136 bits.
fn put_long(out: &mut Vec<u8>, command: Command, frame: &[u8; 17]) -> Result<(), AllocError>
    ensures { OnOk result (out.new.items ≡ out.old.items ++ r2_words command frame.now) }
{
    let words = match read_r2(frame) {
        Ok(_) => register_name(command),
        Err(fault) => fault_words(fault),
    };
    say(out, &[Piece::Text(words)])
}

// That nothing came, or that nothing is to come.
fn silence_words(command: Command) -> &'static [u8]
    ensures { result.now ≡ silence_words command }
{
    match response_of(command) {
        Response::Nothing => b"no response is sent",
        _ => b"no response came",
    }
}

/// Writes what came back of the command with this index: the kind of its response with what it tells, as `R1: tran, ready, no
/// error`, or why it is refused, or that none came (SD Physical Layer 6.00, section 4.9; JESD84-B51, section 6.12).
///
/// # Errors
/// `AllocError` where memory is refused.
#[tactic(auto, unfolding(crate::specs::Responses::reply_words))]
pub fn put_reply(
    out: &mut Vec<u8>,
    kind: Kind,
    command: Command,
    index: u8,
    reply: &Reply,
) -> Result<(), AllocError>
    ensures { OnOk result (out.new.items ≡ out.old.items ++ reply_words kind command index reply.now) }
{
    match reply {
        Reply::Silent => {
            let words = silence_words(command);
            say(out, &[Piece::Text(words)])
        }
        Reply::Short(frame) => put_short(out, kind, command, index, frame),
        Reply::Long(frame) => put_long(out, command, frame),
    }
}
