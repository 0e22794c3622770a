// Why a check doesn't come to its end.
ghost use Rattle.std.specs.Prelude.{◌≡◌};
ghost use Rattle.card_check.specs.declared.fault.CheckFault.TheVariants.{NoMemory, Write};

use std::alloc::{AllocError, AllocFailed};
use std::io;
use thiserror::Error;

/// Why a check doesn't come to its end.
#[derive(Clone, Copy, Debug, PartialEq, Eq, Error)]
pub enum CheckFault {
    /// Memory was refused.
    #[error("no memory")]
    NoMemory,
    /// The output couldn't be written.
    #[error("write")]
    Write,
}

impl From<AllocError> for CheckFault {
    ghost from_gives = { λ _ e. e ≡ NoMemory };

    fn from(_error: AllocError) -> CheckFault {
        CheckFault::NoMemory
    }
}

impl<T: Drop> From<AllocFailed<T>> for CheckFault {
    ghost from_gives = { λ _ e. e ≡ NoMemory };

    fn from(_error: AllocFailed<T>) -> CheckFault {
        CheckFault::NoMemory
    }
}

impl From<io::Error> for CheckFault {
    ghost from_gives = { λ _ e. e ≡ Write };

    fn from(_error: io::Error) -> CheckFault {
        CheckFault::Write
    }
}
