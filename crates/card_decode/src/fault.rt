// Why a text is no register, or no frame.
ghost use Rattle.std.specs.Prelude.{◌≡◌};

use std::alloc::{AllocError, AllocFailed};
use thiserror::Error;

/// Why a register or a frame isn't read from a text.
#[derive(Clone, Copy, Debug, PartialEq, Eq, Error)]
pub enum HexFault {
    /// A character that is no hexadecimal digit and no white space.
    #[error("byte {byte:#04x} at place {place} isn't a hexadecimal digit")]
    Character {
        /// The first such character.
        byte: u8,
        /// Its place in the text, the first at 0.
        place: usize,
    },
    /// The text has another number of digits than the register.
    #[error("{found} hexadecimal digits, where the register has {expected}")]
    Length {
        /// How many digits the text has.
        found: usize,
        /// How many the register has.
        expected: usize,
    },
    /// The text has another number of digits than a frame of 48 or 136 bits.
    #[error("{found} hexadecimal digits, where a frame has 12, or 34 with a CID or a CSD in it")]
    FrameLength {
        /// How many digits the text has.
        found: usize,
    },
    /// The text has the digits of an R2, but doesn't begin as one.
    #[error("34 hexadecimal digits are a response, which begins with 0x3f, not with {byte:#04x}")]
    FirstByte {
        /// The first byte.
        byte: u8,
    },
    /// Memory was refused.
    #[error("no memory")]
    NoMemory,
}

impl From<AllocError> for HexFault {
    ghost use Rattle.card_decode.specs.declared.fault.HexFault.TheVariants.{NoMemory};

    ghost from_gives = { λ _ e. e ≡ NoMemory };

    fn from(_error: AllocError) -> HexFault {
        HexFault::NoMemory
    }
}

impl<T: Drop> From<AllocFailed<T>> for HexFault {
    ghost use Rattle.card_decode.specs.declared.fault.HexFault.TheVariants.{NoMemory};

    ghost from_gives = { λ _ e. e ≡ NoMemory };

    fn from(_error: AllocFailed<T>) -> HexFault {
        HexFault::NoMemory
    }
}
