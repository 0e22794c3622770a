// Why a text isn't read.
ghost use Rattle.std.specs.Prelude.{◌≡◌};

use std::alloc::{AllocError, AllocFailed};
use thiserror::Error;

/// Why a card file isn't read.
#[derive(Clone, Copy, Debug, PartialEq, Eq, Error)]
pub enum CardFault {
    /// A line, counted from 1, isn't of the grammar, or can't stand below those above it.
    #[error("line {line}")]
    BadLine {
        /// The first such line.
        line: u64,
    },
    /// A line that the file must have is missing.
    #[error("incomplete")]
    Incomplete,
    /// Memory was refused.
    #[error("no memory")]
    NoMemory,
}

impl From<AllocError> for CardFault {
    ghost use Rattle.card_text.specs.declared.fault.CardFault.TheVariants.{NoMemory};

    ghost from_gives = { λ _ e. e ≡ NoMemory };

    fn from(_error: AllocError) -> CardFault {
        CardFault::NoMemory
    }
}

impl<T: Drop> From<AllocFailed<T>> for CardFault {
    ghost use Rattle.card_text.specs.declared.fault.CardFault.TheVariants.{NoMemory};

    ghost from_gives = { λ _ e. e ≡ NoMemory };

    fn from(_error: AllocFailed<T>) -> CardFault {
        CardFault::NoMemory
    }
}

/// Why a script isn't read.
#[derive(Clone, Copy, Debug, PartialEq, Eq, Error)]
pub enum ScriptFault {
    /// A line, counted from 1, isn't of the grammar.
    #[error("line {line}")]
    BadLine {
        /// The first such line.
        line: u64,
    },
    /// Memory was refused.
    #[error("no memory")]
    NoMemory,
}

impl From<AllocError> for ScriptFault {
    ghost use Rattle.card_text.specs.declared.fault.ScriptFault.TheVariants.{NoMemory};

    ghost from_gives = { λ _ e. e ≡ NoMemory };

    fn from(_error: AllocError) -> ScriptFault {
        ScriptFault::NoMemory
    }
}

impl<T: Drop> From<AllocFailed<T>> for ScriptFault {
    ghost use Rattle.card_text.specs.declared.fault.ScriptFault.TheVariants.{NoMemory};

    ghost from_gives = { λ _ e. e ≡ NoMemory };

    fn from(_error: AllocFailed<T>) -> ScriptFault {
        ScriptFault::NoMemory
    }
}
