// Why a session ends.
ghost use Rattle.std.specs.Prelude.{◌≡◌};
ghost use Rattle.nbd_server.specs.declared.fault.SessionFault.TheVariants.{Input, Output};

use thiserror::Error;

/// Why no message could be read.
#[derive(Clone, Copy, Debug, PartialEq, Eq, Error)]
pub enum InputFault {
    /// The input couldn't be read.
    #[error("the input can't be read")]
    Reader,
    /// The input ended in the middle of a message.
    #[error("the input ends in the middle of a message")]
    Cut,
    /// The input isn't of the protocol: another magic number, or flags that aren't known.
    #[error("the input isn't of the protocol")]
    Junk,
}

/// The output couldn't be written: the client has gone.
#[derive(Clone, Copy, Debug, PartialEq, Eq, Error)]
#[error("the output can't be written")]
pub struct OutputFault;

/// Why a session ended before the client ended it. Each shows as one line.
#[derive(Clone, Copy, Debug, PartialEq, Eq, Error)]
pub enum SessionFault {
    /// No message could be read.
    #[error("{0}")]
    Input(InputFault),
    /// An option has more than `MAX_OPTION` bytes of data.
    #[error("an option is too long")]
    OptionTooLong,
    /// `ExportName` named no export; the protocol has no reply for that.
    #[error("no such export")]
    UnknownExport,
    /// The output couldn't be written.
    #[error("{0}")]
    Output(OutputFault),
    /// Memory was refused.
    #[error("no memory")]
    NoMemory,
}

impl From<InputFault> for SessionFault {
    ghost from_gives = { λ fault e. e ≡ Input fault };

    fn from(fault: InputFault) -> SessionFault {
        SessionFault::Input(fault)
    }
}

impl From<OutputFault> for SessionFault {
    ghost from_gives = { λ fault e. e ≡ Output fault };

    fn from(fault: OutputFault) -> SessionFault {
        SessionFault::Output(fault)
    }
}
