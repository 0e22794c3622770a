// A frame of 48 bits, field by field.
ghost use Rattle.std.specs.Prelude.{OnOk, ◌++◌, ◌<◌, ◌≡◌};
ghost use Rattle.card_explain.specs.Frames.{argument_text, back_text, check_text, direction_words, end_bit_text, fields_text, fit_text, fixed_text, frame_text};
ghost use Rattle.card_explain.specs.Frames.{head_text, index_text, meaning_words, right_check, start_bit_text, start_text, tail_text, transmission_text};
ghost use Rattle.card_explain.specs.Frames.{r1_meaning, remainder_of, response_words, verdict_text};

use crate::command::put_command;
use crate::response::{put_r3, put_r6, put_r7};
use crate::status::put_status;
use crate::words::say;
use mmc_card_rows::command_of;
use mmc_frame::{Kind, with_check};
use std::alloc::AllocError;
use text_out::Piece;

/// Who sends the frame, by its transmission bit.
pub(crate) fn direction_words(first: u8) -> &'static [u8]
    ensures { result.now ≡ direction_words first }
{
    if first / 64 % 2 == 1 {
        b": from the host"
    } else {
        b": from the card"
    }
}

// A card status, as an R1 has it.
fn put_r1_meaning(out: &mut Vec<u8>, kind: Kind, argument: u32) -> Result<(), AllocError>
    ensures { OnOk result (out.new.items ≡ out.old.items ++ r1_meaning kind argument) }
{
    say(out, &[Piece::Text(b"R1: ")])?;
    put_status(out, kind, argument)
}

// A response, by its index: R3 has 63, and of an SD card R6 has that of CMD3 and R7 that of CMD8; all others are R1s.
fn put_response(
    out: &mut Vec<u8>,
    kind: Kind,
    frame: &[u8; 6],
    argument: u32,
) -> Result<(), AllocError>
    ensures { OnOk result (out.new.items ≡ out.old.items ++ response_words kind frame.now argument) }
{
    match (kind, frame[0] % 64) {
        (_, 63) => put_r3(out, frame),
        (Kind::Sd, 3) => put_r6(out, kind, frame),
        (Kind::Sd, 8) => put_r7(out, frame),
        _ => put_r1_meaning(out, kind, argument),
    }
}

// What the frame means: the command, or a response.
#[tactic(auto, unfolding(crate::specs::Frames::meaning_words))]
fn put_meaning(
    out: &mut Vec<u8>,
    kind: Kind,
    frame: &[u8; 6],
    argument: u32,
) -> Result<(), AllocError>
    ensures { OnOk result (out.new.items ≡ out.old.items ++ meaning_words kind frame.now argument) }
{
    if frame[0] / 64 % 2 == 1 {
        let index = frame[0] % 64;
        let command = command_of(kind, false, index);
        put_command(out, kind, command, false, index)
    } else {
        put_response(out, kind, frame, argument)
    }
}

// The start bit.
#[tactic(auto, unfolding(crate::specs::Frames::start_text))]
fn put_start(out: &mut Vec<u8>, first: u8) -> Result<(), AllocError>
    ensures { OnOk result (out.new.items ≡ out.old.items ++ start_text first) }
{
    let bit = u64::from(first / 128);
    say(out, &[Piece::Text(b"start bit [47] "), Piece::Number(bit)])
}

// The transmission bit.
#[tactic(auto, unfolding(crate::specs::Frames::transmission_text))]
fn put_transmission(out: &mut Vec<u8>, first: u8) -> Result<(), AllocError>
    ensures { OnOk result (out.new.items ≡ out.old.items ++ transmission_text first) }
{
    let bit = u64::from(first / 64 % 2);
    let direction = direction_words(first);
    say(
        out,
        &[
            Piece::Text(b"\ntransmission bit [46] "),
            Piece::Number(bit),
            Piece::Text(direction),
        ],
    )
}

// The index.
#[tactic(auto, unfolding(crate::specs::Frames::index_text))]
fn put_index(out: &mut Vec<u8>, first: u8) -> Result<(), AllocError>
    ensures { OnOk result (out.new.items ≡ out.old.items ++ index_text first) }
{
    let index = u64::from(first % 64);
    say(
        out,
        &[
            Piece::Text(b"\ncommand index [45:40] "),
            Piece::Number(index),
        ],
    )
}

// The argument.
#[tactic(auto, unfolding(crate::specs::Frames::argument_text))]
fn put_argument_bytes(out: &mut Vec<u8>, bytes: &[u8]) -> Result<(), AllocError>
    ensures { OnOk result (out.new.items ≡ out.old.items ++ argument_text bytes.now) }
{
    say(
        out,
        &[
            Piece::Text(b"\nargument [39:8] 0x"),
            Piece::Hex(bytes),
            Piece::Text(b": "),
        ],
    )
}

/// The fields of the last byte: CRC7 and end bit.
#[tactic(auto, unfolding(crate::specs::Frames::back_text))]
pub(crate) fn put_back(out: &mut Vec<u8>, last: u8) -> Result<(), AllocError>
    ensures { OnOk result (out.new.items ≡ out.old.items ++ back_text last) }
{
    let check = [last / 2 % 128];
    say(
        out,
        &[
            Piece::Text(b"\nCRC7 [7:1] 0x"),
            Piece::Hex(&check),
            Piece::Text(b"\nend bit [0] "),
            Piece::Number(u64::from(last % 2)),
            Piece::Text(b"\n"),
        ],
    )
}

// The fields of the first byte.
#[tactic(auto, unfolding(crate::specs::Frames::head_text))]
fn put_head(out: &mut Vec<u8>, first: u8) -> Result<(), AllocError>
    ensures { OnOk result (out.new.items ≡ out.old.items ++ head_text first) }
{
    put_start(out, first)?;
    put_transmission(out, first)?;
    put_index(out, first)
}

// Those after it.
#[tactic(auto, unfolding(crate::specs::Frames::tail_text))]
fn put_tail(
    out: &mut Vec<u8>,
    kind: Kind,
    frame: &[u8; 6],
    bytes: &[u8],
    argument: u32,
) -> Result<(), AllocError>
    ensures { OnOk result (out.new.items ≡ out.old.items ++ tail_text kind frame.now bytes.now argument) }
{
    put_argument_bytes(out, bytes)?;
    put_meaning(out, kind, frame, argument)?;
    put_back(out, frame[5])
}

// All fields.
fn put_fields(out: &mut Vec<u8>, kind: Kind, frame: &[u8; 6]) -> Result<(), AllocError>
    ensures { OnOk result (out.new.items ≡ out.old.items ++ fields_text kind frame.now) }
{
    let argument = u32::from_be_bytes([frame[1], frame[2], frame[3], frame[4]]);
    put_head(out, frame[0])?;
    put_tail(out, kind, frame, &frame[1..5], argument)
}

// The check that fits a frame's first five bytes with a start bit of 0. Zeros before them change no remainder.
fn remainder_of(frame: &[u8; 6]) -> u8
    ensures { result ≡ remainder_of frame.now }
{
    let first = frame[0] % 128;
    let bytes = [
        0, 0, 0, 0, 0, 0, 0, 0, 0, 0, first, frame[1], frame[2], frame[3], frame[4],
    ];
    let register = with_check(&bytes);
    register[15] / 2
}

// The same; an R3, from the card with index 63, has seven ones there.
fn right_check(frame: &[u8; 6]) -> u8
    ensures { result ≡ right_check frame.now }
{
    if frame[0] % 128 == 63 {
        127
    } else {
        remainder_of(frame)
    }
}

/// Whether a check is the right one.
pub(crate) fn put_check(out: &mut Vec<u8>, check: u8, right: u8) -> Result<(), AllocError>
    ensures { OnOk result (out.new.items ≡ out.old.items ++ check_text check right) }
{
    if check == right {
        return say(out, &[Piece::Text(b"check: it fits\n")]);
    }
    let right = [right];
    say(
        out,
        &[
            Piece::Text(b"check: it doesn't fit; 0x"),
            Piece::Hex(&right),
            Piece::Text(b" would\n"),
        ],
    )
}

/// Says what a field has to be that has one value in every frame, where it has another.
pub(crate) fn put_fixed<'a>(
    out: &mut Vec<u8>,
    name: &'a [u8],
    value: u8,
    right: u8,
    digits: &'a [u8],
) -> Result<(), AllocError>
    ensures { OnOk result (out.new.items ≡ out.old.items ++ fixed_text name.now value right digits.now) }
{
    if value == right {
        return Ok(());
    }
    say(
        out,
        &[
            Piece::Text(name),
            Piece::Text(b": wrong; it has to be "),
            Piece::Text(digits),
            Piece::Text(b"\n"),
        ],
    )
}

/// Says that the start bit is wrong, where it is.
#[tactic(auto, unfolding(crate::specs::Frames::start_bit_text))]
pub(crate) fn put_start_bit(out: &mut Vec<u8>, first: u8) -> Result<(), AllocError>
    ensures { OnOk result (out.new.items ≡ out.old.items ++ start_bit_text first) }
{
    put_fixed(out, b"start bit", first / 128, 0, b"0")
}

/// Says that the end bit is wrong, where it is.
#[tactic(auto, unfolding(crate::specs::Frames::end_bit_text))]
pub(crate) fn put_end_bit(out: &mut Vec<u8>, last: u8) -> Result<(), AllocError>
    ensures { OnOk result (out.new.items ≡ out.old.items ++ end_bit_text last) }
{
    put_fixed(out, b"end bit", last % 2, 1, b"1")
}

// Whether the check fits.
fn put_fit(out: &mut Vec<u8>, frame: &[u8; 6]) -> Result<(), AllocError>
    ensures { OnOk result (out.new.items ≡ out.old.items ++ fit_text frame.now) }
{
    put_check(out, frame[5] / 2, right_check(frame))
}

// The same, and which of the start bit and the end bit is wrong.
#[tactic(auto, unfolding(crate::specs::Frames::verdict_text))]
fn put_verdict(out: &mut Vec<u8>, frame: &[u8; 6]) -> Result<(), AllocError>
    ensures { OnOk result (out.new.items ≡ out.old.items ++ verdict_text frame.now) }
{
    put_fit(out, frame)?;
    put_start_bit(out, frame[0])?;
    put_end_bit(out, frame[5])
}

/// Writes the fields of a frame of 48 bits, a line each, with its command, or with what it tells as a response; and after
/// them whether its check fits, and that the start bit or the end bit is wrong, where it is (SD Physical Layer 6.00, sections 4.7.2
/// and 4.9; JESD84-B51, sections 6.10.1 and 6.12).
///
/// # Errors
/// `AllocError` where memory is refused.
pub fn put_frame(out: &mut Vec<u8>, kind: Kind, frame: &[u8; 6]) -> Result<(), AllocError>
    ensures { OnOk result (out.new.items ≡ out.old.items ++ frame_text kind frame.now) }
{
    put_fields(out, kind, frame)?;
    put_verdict(out, frame)
}
