// The card status in words.
ghost use Rattle.std.specs.Prelude.{OnOk, ◌++◌, ◌<◌, ◌≡◌, map};
ghost use Rattle.std.specs.List.{All};
ghost use Rattle.mmc_frame.specs.StatusBits.{named};
ghost use Rattle.card_explain.specs.Statuses.{bit_words, errors_words, is_set, locked_words, ready_words, state_name};
ghost use Rattle.card_explain.specs.Statuses.{status_words};

use crate::words::say;
use bitflags::Flags;
use mmc_frame::status_bits::{StatusBit, status_bits};
use mmc_frame::{Kind, errors};
use std::alloc::AllocError;
use text_out::Piece;

// Whether a bit of a number is 1.
fn is_set(number: u32, bit: u8) -> bool
    requires { bit < 32 }
    ensures { result ≡ is_set number bit }
{
    (number >> bit) % 2 == 1
}

// A bit with a comma before it, where it is set.
fn put_bit(out: &mut Vec<u8>, errors: u32, bit: &StatusBit) -> Result<(), AllocError>
    requires { bit.now.place < 32 }
    ensures { OnOk result (out.new.items ≡ out.old.items ++ bit_words errors (named bit.now)) }
{
    if is_set(errors, bit.place) {
        say(out, &[Piece::Text(b", "), Piece::Text(bit.name)])
    } else {
        Ok(())
    }
}

// Those of these bits that are set.
fn put_bits(out: &mut Vec<u8>, errors: u32, bits: &[StatusBit]) -> Result<(), AllocError>
    requires { All (λ bit. bit.place < 32) bits.now }
    ensures { OnOk result (out.new.items ≡ out.old.items ++ errors_words errors (map named bits.now)) }
{
    for bit in bits {
        put_bit(out, errors, bit)?;
    }
    Ok(())
}

// The name of the state, bits 12 to 9.
fn state_name(status: u32) -> &'static [u8]
    ensures { result.now ≡ state_name status }
{
    match status / 512 % 16 {
        0 => b"idle",
        1 => b"ready",
        2 => b"ident",
        3 => b"stby",
        4 => b"tran",
        5 => b"data",
        6 => b"rcv",
        7 => b"prg",
        8 => b"dis",
        _ => b"a reserved state",
    }
}

// Bit 8.
fn ready_words(status: u32) -> &'static [u8]
    ensures { result.now ≡ ready_words status }
{
    if status / 256 % 2 == 1 {
        b", ready"
    } else {
        b", not ready"
    }
}

// Bit 25.
fn locked_words(status: u32) -> &'static [u8]
    ensures { result.now ≡ locked_words status }
{
    if status / 0x0200_0000 % 2 == 1 {
        b", locked"
    } else {
        b""
    }
}

/// Writes a card status: its state, whether it is ready for data, and each error by its name, as `tran, ready, no error`
/// (SD Physical Layer 6.00, section 4.10.1; JESD84-B51, section 6.13).
///
/// # Errors
/// `AllocError` where memory is refused.
#[tactic(auto, unfolding(crate::specs::Statuses::status_words))]
pub fn put_status(out: &mut Vec<u8>, kind: Kind, status: u32) -> Result<(), AllocError>
    ensures { OnOk result (out.new.items ≡ out.old.items ++ status_words kind status) }
{
    let state = state_name(status);
    let ready = ready_words(status);
    let locked = locked_words(status);
    say(
        out,
        &[Piece::Text(state), Piece::Text(ready), Piece::Text(locked)],
    )?;
    let errors = errors(kind, status).bits();
    if errors == 0 {
        say(out, &[Piece::Text(b", no error")])
    } else {
        put_bits(out, errors, status_bits())
    }
}
