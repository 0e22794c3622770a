// Reads a register or a frame from hexadecimal digits.
ghost use Rattle.std.specs.Prelude.{◌≡◌, ◌⊎◌, ◌+◌, ◌*◌, ◌<◌, length, false, true, IfErr, IfOk};
ghost use Rattle.card_decode.specs.Digits.{digits_in, stray_in};
ghost use Rattle.card_decode.specs.Reading.{frame_bytes, frame_may_have, frame_reading_of, may_have, reading_of, register_digits, register_of};
ghost use Rattle.card_decode.specs.Reading.{zeros_left_out};
ghost use Rattle.card_decode.specs.Registers.{register_len};
ghost use Rattle.card_decode.specs.declared.fault.HexFault.{HexFault};
ghost use Rattle.card_decode.specs.declared.fault.HexFault.TheVariants.{Length, NoMemory};

use crate::digits::{bytes_of, digit_count, has_prefix, stray_in, without_prefix};
use crate::fault::HexFault;
use crate::frame::Frame;
use crate::register::Register;
use std::alloc::Global;

// The first byte of an R2: start bit, transmission bit and six ones.
const R2_FIRST_BYTE: u8 = 0x3f;

// How many leading zeros a number after `0x` leaves out, which has so many digits.
fn zeros_left_out(register: Register, text: &[u8], count: usize) -> usize
    requires { count ≡ length (digits_in text.now) }
    ensures zeros { result ≡ zeros_left_out register text.now }
    ensures whole { 0 < result → result + count ≡ 2 * register_len register }
{
    if has_prefix(text) && register.is_number() && count > 0 {
        (2 * register.size()).saturating_sub(count)
    } else {
        0
    }
}

// Whether a register may have so many digits: a CID or CSD may come without its last byte, or in an R2.
fn may_have(register: Register, count: usize) -> bool
    ensures { result ≡ may_have register count }
{
    count == 2 * register.size() || register.is_in_r2() && matches!(count, 30 | 34)
}

// The register in these bytes, with a check of 0 where it is missing.
fn register_of(register: Register, mut bytes: Vec<u8>) -> Result<Vec<u8>, HexFault>
    requires { may_have register (2 * length bytes.items) ≡ true }
    ensures ok { IfOk result (λ whole. register_of bytes.items ≡ Ok whole.items) }
    ensures size { IfOk result (λ whole. length whole.items ≡ register_len register) }
    ensures refused { (fault : HexFault) → register_of bytes.items ≡ Err fault → result ≡ Err fault }
    ensures err { IfErr result (λ fault. (fault ≡ NoMemory) ⊎ (register_of bytes.items ≡ Err fault)) }
{
    if bytes.len() == 15 {
        bytes.push(0)?;
    } else if bytes.len() == 17 {
        let byte = bytes.remove(0);
        if byte != R2_FIRST_BYTE {
            return Err(HexFault::FirstByte { byte });
        }
    }
    Ok(bytes)
}

/// The bytes of a register, which hexadecimal digits of either case write, with an optional `0x` in front and white
/// space anywhere after it: spaces, tabs, line feeds and carriage returns. An OCR or a card status with `0x` may leave
/// leading zeros out. A CID or CSD may come without its last byte, the check, as some show it; that byte is 0 then. Or
/// it comes in an R2, the first of whose 17 bytes is 3Fh and no part of it (SD Physical Layer 6.00, section 4.9.3).
///
/// # Errors
/// The first that holds: `Character` where a character is neither a digit nor white space, `Length` where there are
/// more or fewer digits than the register has, `NoMemory` where memory is refused, `FirstByte` where 17 bytes don't
/// begin as an R2.
pub fn read_register(alloc: Global, register: Register, text: &[u8]) -> Result<Vec<u8>, HexFault>
    ensures read { IfOk result (λ bytes. reading_of register text.now ≡ Ok bytes.items) }
    ensures size { IfOk result (λ bytes. length bytes.items ≡ register_len register) }
    ensures err { IfErr result (λ fault. (fault ≡ NoMemory) ⊎ (reading_of register text.now ≡ Err fault)) }
    ensures stray { (fault : HexFault) → stray_in text.now ≡ Some fault → result ≡ Err fault }
    ensures counted { stray_in text.now ≡ None → (let found = length (register_digits register text.now) in
        may_have register found ≡ false → result ≡ Err (Length found (2 * register_len register))) }
{
    match stray_in(text) {
        Some(fault) => return Err(fault),
        None => {}
    }
    let digits = without_prefix(text);
    let count = digit_count(digits);
    let zeros = zeros_left_out(register, text, count);
    let found = zeros + count;
    if !may_have(register, found) {
        let expected = 2 * register.size();
        return Err(HexFault::Length { found, expected });
    }
    let bytes = bytes_of(alloc, zeros, digits)?;
    register_of(register, bytes)
}

// Whether a frame has so many digits.
fn frame_may_have(count: usize) -> bool
    ensures { result ≡ frame_may_have count }
{
    matches!(count, 12 | 34)
}

// The frame that six or seventeen bytes are.
fn frame_of(bytes: &[u8]) -> Frame
    requires { frame_may_have (2 * length bytes.now) ≡ true }
    ensures { frame_bytes result ≡ bytes.now }
{
    if bytes.len() == 6 {
        let mut frame = [0; 6];
        frame.copy_from_slice(bytes);
        Frame::Short(frame)
    } else {
        let mut frame = [0; 17];
        frame.copy_from_slice(bytes);
        Frame::Long(frame)
    }
}

/// The frame of 48 or 136 bits that hexadecimal digits write, as `read_register` reads them.
///
/// # Errors
/// The first that holds: `Character` where a character is neither a digit nor white space, `FrameLength` where there
/// are neither 12 digits nor 34, `NoMemory` where memory is refused.
pub fn read_frame(alloc: Global, text: &[u8]) -> Result<Frame, HexFault>
    ensures read { IfOk result (λ frame. frame_reading_of text.now ≡ Ok (frame_bytes frame)) }
    ensures refused { (fault : HexFault) → frame_reading_of text.now ≡ Err fault → result ≡ Err fault }
    ensures err { IfErr result (λ fault. (fault ≡ NoMemory) ⊎ (frame_reading_of text.now ≡ Err fault)) }
{
    match stray_in(text) {
        Some(fault) => return Err(fault),
        None => {}
    }
    let digits = without_prefix(text);
    let found = digit_count(digits);
    if !frame_may_have(found) {
        return Err(HexFault::FrameLength { found });
    }
    let bytes = bytes_of(alloc, 0, digits)?;
    Ok(frame_of(bytes.as_slice()))
}
