// The two responses without an index: R2 with a CID or a CSD, R3 with the OCR.
ghost use Rattle.std.specs.Prelude.{◌≡◌, slice_range, true, Ok};
ghost use Rattle.mmc_frame.specs.RegisterFrame.{has_end_bit, is_sound_register, ocr_frame, ocr_in, register_frame, register_in};
ghost use Rattle.mmc_frame.specs.RegisterFrame.{with_check};

use crate::check::check_of;
use crate::fault::FrameFault;
use crate::frame::argument_of;
use byteorder::{BigEndian, ByteOrder};

// Start bit, transmission bit and six ones.
const FIRST_BYTE: u8 = 0x3f;

/// Whether the CRC7 in bits 7 to 1 of a CID or CSD, given as its sixteen bytes, fits bits 127 to 8.
///
/// Bit 0, the end bit, isn't looked at.
pub fn check_fits(register: &[u8; 16]) -> bool
    ensures { result ≡ is_sound_register register.now }
{
    check_of(&register[..15]) == register[15] / 2
}

/// The CID or CSD with these bits 127 to 8, the highest byte first: its check and the end bit stand after them.
pub fn with_check(bytes: &[u8; 15]) -> [u8; 16]
    ensures value { result ≡ with_check bytes.now }
    ensures sound { is_sound_register result ≡ true }
    ensures end_bit { has_end_bit result ≡ true }
{
    let mut register = [check_of(bytes) * 2 + 1; 16];
    register[..15].copy_from_slice(bytes);
    register
}

// The sixteen bytes after the first.
fn after_first(frame: &[u8; 17]) -> [u8; 16]
    ensures { result ≡ slice_range frame.now 1 17 }
{
    let mut register = [0; 16];
    register.copy_from_slice(&frame[1..17]);
    register
}

/// The R2 of a register, which is given as its sixteen bytes: the end bit is sent in place of bit 0.
pub fn encode_r2(register: &[u8; 16]) -> [u8; 17]
    ensures sent { result ≡ register_frame register.now }
    ensures read { is_sound_register register.now ≡ true → has_end_bit register.now ≡ true
        → register_in result ≡ Ok register.now }
{
    let mut frame = [FIRST_BYTE; 17];
    frame[1..17].copy_from_slice(register);
    frame[16] = frame[16] / 2 * 2 + 1;
    frame
}

/// The register in an R2, a CID or a CSD, as its sixteen bytes.
///
/// # Errors
/// The first that holds: `FixedBits` where the eight bits before the register or the end bit are wrong, `Check` where the
/// register's CRC7 doesn't fit. An R2 has no index.
pub fn read_r2(frame: &[u8; 17]) -> Result<[u8; 16], FrameFault>
    ensures { result ≡ register_in frame.now }
{
    if frame[0] != FIRST_BYTE || frame[16] % 2 != 1 {
        return Err(FrameFault::FixedBits);
    }
    let register = after_first(frame);
    if !check_fits(&register) {
        return Err(FrameFault::Check);
    }
    Ok(register)
}

/// The R3 of an OCR.
pub fn encode_r3(ocr: u32) -> [u8; 6]
    ensures sent { result ≡ ocr_frame ocr }
    ensures read { ocr_in result ≡ Ok ocr }
{
    let mut bytes = [0; 4];
    BigEndian::write_u32(&mut bytes, ocr);
    let [a, b, c, d] = bytes;
    [FIRST_BYTE, a, b, c, d, 0xff]
}

/// The OCR in an R3.
///
/// # Errors
/// `FixedBits` where a bit beside the OCR is wrong. An R3 has no check and no index, so flipped bits of the OCR pass.
pub fn read_r3(frame: &[u8; 6]) -> Result<u32, FrameFault>
    ensures { result ≡ ocr_in frame.now }
{
    if frame[0] != FIRST_BYTE || frame[5] != 0xff {
        return Err(FrameFault::FixedBits);
    }
    Ok(argument_of(frame))
}
