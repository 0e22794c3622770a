// Why a card isn't served as a block device, or not to the end.
ghost use Rattle.std.specs.Prelude.{◌≡◌};
ghost use Rattle.card_nbd.specs.declared.fault.NbdFault.TheVariants.{Unserved};
ghost use Rattle.card_served.specs.declared.fault.ServeFault.TheVariants.{NoMemory};

use card_served::ServeFault;
use clap::error::ErrorKind;
use nbd_server::SessionFault;
use std::alloc::AllocError;
use thiserror::Error;

/// Why a card isn't served as a block device, or not to the end. Each shows as one line on standard error.
#[derive(Clone, Copy, Debug, PartialEq, Eq, Error)]
pub enum NbdFault {
    /// The words aren't those of the command: a line with its usage shows in place of this one.
    #[error("usage")]
    Usage,
    /// `--part` isn't the name of a partition that the card has.
    #[error("--part is a partition of the card: user, boot1, boot2, gp1, gp2, gp3 or gp4")]
    NoPart,
    /// The card isn't served, as it wouldn't be by any command.
    #[error("{0}")]
    Unserved(ServeFault),
    /// The session ended before the client ended it.
    #[error("{0}")]
    Session(SessionFault),
}

impl From<ServeFault> for NbdFault {
    ghost from_gives = { λ fault e. e ≡ Unserved fault };

    fn from(fault: ServeFault) -> NbdFault {
        NbdFault::Unserved(fault)
    }
}

impl From<AllocError> for NbdFault {
    ghost from_gives = { λ _ e. e ≡ Unserved NoMemory };

    fn from(_error: AllocError) -> NbdFault {
        NbdFault::Unserved(ServeFault::NoMemory)
    }
}

impl From<clap::Error> for NbdFault {
    ghost use Rattle.clap.specs.Values.{kind_of};
    ghost use Rattle.card_nbd.specs.Faults.{of_words};

    ghost from_gives = { λ error e. e ≡ of_words (kind_of error) };

    fn from(error: clap::Error) -> NbdFault {
        match error.kind() {
            ErrorKind::OutOfMemory => NbdFault::Unserved(ServeFault::NoMemory),
            _ => NbdFault::Usage,
        }
    }
}
