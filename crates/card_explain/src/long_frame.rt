// A frame of 136 bits, field by field.
ghost use Rattle.std.specs.Prelude.{OnOk, ◌++◌, ◌≡◌};
ghost use Rattle.card_explain.specs.LongFrames.{long_fields_text, long_frame_text, long_head_text, long_start_text, long_transmission_text};
ghost use Rattle.card_explain.specs.LongFrames.{long_verdict_text, register_check, register_fit_text, register_text, reserved_bits_text};
ghost use Rattle.card_explain.specs.LongFrames.{reserved_text, transmission_bit_text};

use crate::frame::{direction_words, put_back, put_check, put_end_bit, put_fixed, put_start_bit};
use crate::words::say;
use mmc_frame::with_check;
use std::alloc::AllocError;
use text_out::Piece;

// The start bit.
#[tactic(auto, unfolding(crate::specs::LongFrames::long_start_text))]
fn put_start(out: &mut Vec<u8>, first: u8) -> Result<(), AllocError>
    ensures { OnOk result (out.new.items ≡ out.old.items ++ long_start_text first) }
{
    let bit = u64::from(first / 128);
    say(out, &[Piece::Text(b"start bit [135] "), Piece::Number(bit)])
}

// The transmission bit.
#[tactic(auto, unfolding(crate::specs::LongFrames::long_transmission_text))]
fn put_transmission(out: &mut Vec<u8>, first: u8) -> Result<(), AllocError>
    ensures { OnOk result (out.new.items ≡ out.old.items ++ long_transmission_text first) }
{
    let bit = u64::from(first / 64 % 2);
    let direction = direction_words(first);
    say(
        out,
        &[
            Piece::Text(b"\ntransmission bit [134] "),
            Piece::Number(bit),
            Piece::Text(direction),
        ],
    )
}

// The reserved bits.
#[tactic(auto, unfolding(crate::specs::LongFrames::reserved_bits_text))]
fn put_reserved_bits(out: &mut Vec<u8>, first: u8) -> Result<(), AllocError>
    ensures { OnOk result (out.new.items ≡ out.old.items ++ reserved_bits_text first) }
{
    let bits = [first % 64];
    say(
        out,
        &[Piece::Text(b"\nreserved [133:128] 0x"), Piece::Hex(&bits)],
    )
}

// The fields of the first byte.
#[tactic(auto, unfolding(crate::specs::LongFrames::long_head_text))]
fn put_head(out: &mut Vec<u8>, first: u8) -> Result<(), AllocError>
    ensures { OnOk result (out.new.items ≡ out.old.items ++ long_head_text first) }
{
    put_start(out, first)?;
    put_transmission(out, first)?;
    put_reserved_bits(out, first)
}

// The register, and what decodes it.
#[tactic(auto, unfolding(crate::specs::LongFrames::register_text))]
fn put_register(out: &mut Vec<u8>, register: &[u8]) -> Result<(), AllocError>
    ensures { OnOk result (out.new.items ≡ out.old.items ++ register_text register.now) }
{
    say(
        out,
        &[
            Piece::Text(b"\nregister [127:0] 0x"),
            Piece::Hex(register),
            Piece::Text(
                b"\nR2: a CID after CMD2 or CMD10, a CSD after CMD9; decode these digits as cid or csd",
            ),
        ],
    )
}

// All fields.
#[tactic(auto, unfolding(crate::specs::LongFrames::long_fields_text))]
fn put_fields(out: &mut Vec<u8>, frame: &[u8; 17]) -> Result<(), AllocError>
    ensures { OnOk result (out.new.items ≡ out.old.items ++ long_fields_text frame.now) }
{
    put_head(out, frame[0])?;
    put_register(out, &frame[1..17])?;
    put_back(out, frame[16])
}

// The check that fits the register's first fifteen bytes.
fn register_check(frame: &[u8; 17]) -> u8
    ensures { result ≡ register_check frame.now }
{
    let mut covered = [0; 15];
    covered.copy_from_slice(&frame[1..16]);
    let register = with_check(&covered);
    register[15] / 2
}

// Says that the transmission bit is wrong, where it is: a response has 0.
#[tactic(auto, unfolding(crate::specs::LongFrames::transmission_bit_text))]
fn put_transmission_bit(out: &mut Vec<u8>, first: u8) -> Result<(), AllocError>
    ensures { OnOk result (out.new.items ≡ out.old.items ++ transmission_bit_text first) }
{
    put_fixed(out, b"transmission bit", first / 64 % 2, 0, b"0")
}

// Says that the reserved bits are wrong, where they are: an R2 has ones.
#[tactic(auto, unfolding(crate::specs::LongFrames::reserved_text))]
fn put_reserved(out: &mut Vec<u8>, first: u8) -> Result<(), AllocError>
    ensures { OnOk result (out.new.items ≡ out.old.items ++ reserved_text first) }
{
    put_fixed(out, b"reserved", first % 64, 63, b"0x3f")
}

// Whether the register's check fits.
fn put_fit(out: &mut Vec<u8>, frame: &[u8; 17]) -> Result<(), AllocError>
    ensures { OnOk result (out.new.items ≡ out.old.items ++ register_fit_text frame.now) }
{
    put_check(out, frame[16] / 2, register_check(frame))
}

// The same, and which of the other fields is wrong.
#[tactic(auto, unfolding(crate::specs::LongFrames::long_verdict_text))]
fn put_verdict(out: &mut Vec<u8>, frame: &[u8; 17]) -> Result<(), AllocError>
    ensures { OnOk result (out.new.items ≡ out.old.items ++ long_verdict_text frame.now) }
{
    put_fit(out, frame)?;
    put_start_bit(out, frame[0])?;
    put_transmission_bit(out, frame[0])?;
    put_reserved(out, frame[0])?;
    put_end_bit(out, frame[16])
}

/// Writes the fields of a frame of 136 bits, an R2, a line each, with the CID or CSD that it carries as digits; and after them
/// whether the register's check fits, and which of start bit, transmission bit, reserved bits and end bit is wrong, where one is
/// (SD Physical Layer 6.00, section 4.9.3; JESD84-B51, section 6.12).
///
/// # Errors
/// `AllocError` where memory is refused.
pub fn put_long_frame(out: &mut Vec<u8>, frame: &[u8; 17]) -> Result<(), AllocError>
    ensures { OnOk result (out.new.items ≡ out.old.items ++ long_frame_text frame.now) }
{
    put_fields(out, frame)?;
    put_verdict(out, frame)
}
