use thiserror::Error;

/// Why a frame is refused. Where several hold, the first in this order is named.
#[derive(Clone, Copy, Debug, PartialEq, Eq, Error)]
pub enum FrameFault {
    /// The start bit, the transmission bit or the end bit isn't as it has to be, or, of R2 and R3, another fixed bit.
    #[error("a fixed bit of the frame is wrong")]
    FixedBits,
    /// The CRC7 doesn't fit the bits that it covers.
    #[error("the check of the frame doesn't fit")]
    Check,
    /// The frame answers another command.
    #[error("the frame has another index")]
    Index,
}
