// The responses that carry an index and an argument: R1, R6 and R7.
ghost use Rattle.std.specs.Prelude.{◌≡◌, ◌<◌, Ok};
ghost use Rattle.mmc_frame.specs.Frame.{response_in};
ghost use Rattle.mmc_frame.specs.ResponseFields.{r6_in, r7_in, status_in_r6};

use crate::commands::{SEND_IF_COND, SEND_RELATIVE_ADDR};
use crate::fault::FrameFault;
use crate::frame::{argument_of, framed, is_sound_frame};

/// What an R6 tells, the answer of an SD card to CMD3.
#[derive(Clone, Copy, Debug, PartialEq, Eq)]
pub struct R6 {
    /// The relative card address that the card has published.
    pub rca: u16,
    /// Bits 23, 22, 19 and 12 to 0 of the card status; the other bits are 0.
    pub status: u32,
}

/// What an R7 tells, the answer of an SD card to CMD8.
#[derive(Clone, Copy, Debug, PartialEq, Eq)]
pub struct R7 {
    /// The voltage that the card accepts, below 16: 1 stands for 2.7 to 3.6 V.
    pub voltage: u8,
    /// The check pattern, which a card echoes from its command.
    pub pattern: u8,
}

/// The frame of the response to the command with this index (0 to 63): of R1 the argument is the card status.
pub fn encode_response(index: u8, arg: u32) -> [u8; 6]
    requires { index < 64 }
    ensures { response_in result index ≡ Ok arg }
{
    framed(index, arg)
}

/// The card status in the R1 that answers the command with this index.
///
/// # Errors
/// The first that holds: `FixedBits` where start, transmission or end bit is wrong, `Check` where the CRC7 doesn't fit,
/// `Index` where the frame answers another command.
pub fn read_r1(frame: &[u8; 6], index: u8) -> Result<u32, FrameFault>
    ensures { result ≡ response_in frame.now index }
{
    if frame[0] / 64 != 0 || frame[5] % 2 != 1 {
        return Err(FrameFault::FixedBits);
    }
    if !is_sound_frame(frame) {
        return Err(FrameFault::Check);
    }
    if frame[0] % 64 != index {
        return Err(FrameFault::Index);
    }
    Ok(argument_of(frame))
}

// The status bits of an R6 in their places.
fn status_of_r6(argument: u32) -> u32
    ensures { result ≡ status_in_r6 argument }
{
    argument / 0x4000 % 4 * 0x40_0000 + argument / 0x2000 % 2 * 0x8_0000 + argument % 0x2000
}

/// What the R6 tells that answers CMD3.
///
/// # Errors
/// As `read_r1` for index 3.
pub fn read_r6(frame: &[u8; 6]) -> Result<R6, FrameFault>
    ensures { result ≡ r6_in frame.now }
{
    let argument = read_r1(frame, SEND_RELATIVE_ADDR)?;
    Ok(R6 {
        rca: (argument / 0x1_0000) as u16,
        status: status_of_r6(argument),
    })
}

/// What the R7 tells that answers CMD8. Its bits 31 to 12 aren't judged.
///
/// # Errors
/// As `read_r1` for index 8.
pub fn read_r7(frame: &[u8; 6]) -> Result<R7, FrameFault>
    ensures { result ≡ r7_in frame.now }
{
    let argument = read_r1(frame, SEND_IF_COND)?;
    Ok(R7 {
        voltage: (argument / 0x100 % 0x10) as u8,
        pattern: (argument % 0x100) as u8,
    })
}
