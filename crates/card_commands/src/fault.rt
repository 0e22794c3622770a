// Why a command prints nothing.
ghost use Rattle.std.specs.Prelude.{◌≡◌};
ghost use Rattle.card_commands.specs.declared.fault.CommandFault.TheVariants.{NoMemory, Unread, Write};

use card_check::CheckFault;
use card_decode::HexFault;
use card_maker::MakeFault;
use card_nbd::NbdFault;
use card_served::ServeFault;
use clap::error::ErrorKind;
use std::alloc::{AllocError, AllocFailed};
use std::io;
use thiserror::Error;

/// Why a command ends with status 2. Each shows as one line on standard error.
#[derive(Clone, Copy, Debug, PartialEq, Eq, Error)]
pub enum CommandFault {
    /// The words aren't those of the command: a line with its usage shows in place of this one.
    #[error("usage")]
    Usage,
    /// An option has another value than it may have.
    #[error("--{option} is {expected}")]
    Value {
        /// The option.
        option: &'static str,
        /// What it may be.
        expected: &'static str,
    },
    /// Nothing that is decoded has this name.
    #[error("what is decoded are ocr, cid, csd, scr, ext_csd, status, switch, frame and trace")]
    NoRegister,
    /// No line of what is to be a trace is an exchange.
    #[error("no line is an exchange, as: cmd 510000000055 rsp none, in 512 good, out accepted, or busy no")]
    NoExchange,
    /// A file or standard input wasn't read.
    #[error("{0}")]
    Unread(ServeFault),
    /// The digits aren't those of the register or of a frame.
    #[error("{0}")]
    Hex(HexFault),
    /// No card is as it is wanted.
    #[error("{0}")]
    Make(MakeFault),
    /// A card wasn't served as a block device, or not to the end.
    #[error("{0}")]
    Nbd(NbdFault),
    /// Memory was refused.
    #[error("no memory")]
    NoMemory,
    /// The output couldn't be written.
    #[error("write")]
    Write,
}

impl From<AllocError> for CommandFault {
    ghost from_gives = { λ _ e. e ≡ NoMemory };

    fn from(_error: AllocError) -> CommandFault {
        CommandFault::NoMemory
    }
}

impl<T: Drop> From<AllocFailed<T>> for CommandFault {
    ghost from_gives = { λ _ e. e ≡ NoMemory };

    fn from(_error: AllocFailed<T>) -> CommandFault {
        CommandFault::NoMemory
    }
}

impl From<clap::Error> for CommandFault {
    ghost use Rattle.clap.specs.Values.{kind_of};
    ghost use Rattle.card_commands.specs.Faults.{of_words};

    ghost from_gives = { λ error e. e ≡ of_words (kind_of error) };

    fn from(error: clap::Error) -> CommandFault {
        match error.kind() {
            ErrorKind::OutOfMemory => CommandFault::NoMemory,
            _ => CommandFault::Usage,
        }
    }
}

impl From<ServeFault> for CommandFault {
    ghost from_gives = { λ fault e. e ≡ Unread fault };

    fn from(fault: ServeFault) -> CommandFault {
        CommandFault::Unread(fault)
    }
}

impl From<NbdFault> for CommandFault {
    ghost use Rattle.card_commands.specs.Faults.{of_nbd};

    ghost from_gives = { λ fault e. e ≡ of_nbd fault };

    fn from(fault: NbdFault) -> CommandFault {
        match fault {
            NbdFault::Usage => CommandFault::Usage,
            fault => CommandFault::Nbd(fault),
        }
    }
}

impl From<io::Error> for CommandFault {
    ghost from_gives = { λ _ e. e ≡ Write };

    fn from(_error: io::Error) -> CommandFault {
        CommandFault::Write
    }
}
