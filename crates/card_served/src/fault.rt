// Why a command doesn't serve a card, or not to the end.
ghost use Rattle.std.specs.Prelude.{◌≡◌};
ghost use Rattle.card_served.specs.declared.fault.ServeFault.TheVariants.{NoMemory};

use card_rules::RuleFault;
use card_text::fault::{CardFault, ScriptFault};
use mmc_block::OpenFault;
use mmc_card_sim::BuildFault;
use std::alloc::{AllocError, AllocFailed};
use thiserror::Error;

/// Why a command doesn't serve a card, or not to the end. Each shows as one line on standard error.
#[derive(Clone, Copy, Debug, PartialEq, Eq, Error)]
pub enum ServeFault {
    /// A line of the card file, counted from 1, isn't of its grammar.
    #[error("card line {line}")]
    CardLine {
        /// The first such line.
        line: u64,
    },
    /// The card file lacks a line that it must have.
    #[error("card incomplete")]
    CardIncomplete,
    /// A line of the script, counted from 1, isn't of its grammar.
    #[error("script line {line}")]
    ScriptLine {
        /// The first such line.
        line: u64,
    },
    /// The card file couldn't be read.
    #[error("read card")]
    ReadCard,
    /// The script couldn't be read.
    #[error("read script")]
    ReadScript,
    /// The image couldn't be read.
    #[error("read image")]
    ReadImage,
    /// Standard input couldn't be read.
    #[error("read input")]
    ReadInput,
    /// A file or standard input is longer than it may be.
    #[error("too long")]
    TooLong,
    /// A register of the card is refused, or its number of sectors isn't the registers'.
    #[error("register")]
    Register,
    /// The partitions have too many sectors together, or the image has another size than they.
    #[error("image size")]
    ImageSize,
    /// Memory was refused.
    #[error("no memory")]
    NoMemory,
    /// No card answered, or it didn't answer soundly.
    #[error("no card")]
    NoCard,
    /// The card doesn't work at 3.3 V.
    #[error("voltage")]
    Voltage,
    /// The driver refuses the card's registers, or they don't go together.
    #[error("unsupported")]
    Unsupported,
    /// The card is locked by a password.
    #[error("locked")]
    Locked,
    /// The output couldn't be written.
    #[error("write")]
    Write,
    /// The file of `--vcd` is there already, or couldn't be written.
    #[error("the file of --vcd is there already, or can't be written")]
    Vcd,
    /// The file of `--save` is there already, or couldn't be written.
    #[error("the file of --save is there already, or can't be written")]
    Save,
    /// The file of `--svg` is there already, or couldn't be written.
    #[error("the file of --svg is there already, or can't be written")]
    Svg,
    /// The file of `--html` is there already, or couldn't be written.
    #[error("the file of --html is there already, or can't be written")]
    Html,
    /// The file of `--timing` is there already, or couldn't be written.
    #[error("the file of --timing is there already, or can't be written")]
    Timing,
    /// A rule of `--fault` or the number of `--seed` isn't of its grammar.
    #[error("a rule of --fault, or --seed")]
    Rule,
}

impl From<RuleFault> for ServeFault {
    fn from(fault: RuleFault) -> ServeFault {
        match fault {
            RuleFault::BadRule => ServeFault::Rule,
            RuleFault::NoMemory => ServeFault::NoMemory,
        }
    }
}

impl From<CardFault> for ServeFault {
    ghost use Rattle.card_served.specs.Faults.{of_card};

    ghost from_gives = { λ fault e. e ≡ of_card fault };

    fn from(fault: CardFault) -> ServeFault {
        match fault {
            CardFault::BadLine { line } => ServeFault::CardLine { line },
            CardFault::Incomplete => ServeFault::CardIncomplete,
            CardFault::NoMemory => ServeFault::NoMemory,
        }
    }
}

impl From<ScriptFault> for ServeFault {
    ghost use Rattle.card_served.specs.Faults.{of_script};

    ghost from_gives = { λ fault e. e ≡ of_script fault };

    fn from(fault: ScriptFault) -> ServeFault {
        match fault {
            ScriptFault::BadLine { line } => ServeFault::ScriptLine { line },
            ScriptFault::NoMemory => ServeFault::NoMemory,
        }
    }
}

impl From<BuildFault> for ServeFault {
    ghost use Rattle.card_served.specs.Faults.{building_fault};

    ghost from_gives = { λ fault e. e ≡ building_fault fault };

    fn from(fault: BuildFault) -> ServeFault {
        match fault {
            BuildFault::Register => ServeFault::Register,
            BuildFault::ImageSize => ServeFault::ImageSize,
            BuildFault::NoMemory => ServeFault::NoMemory,
        }
    }
}

impl From<OpenFault> for ServeFault {
    ghost use Rattle.card_served.specs.Faults.{opening_fault};

    ghost from_gives = { λ fault e. e ≡ opening_fault fault };

    fn from(fault: OpenFault) -> ServeFault {
        match fault {
            OpenFault::NoMemory => ServeFault::NoMemory,
            OpenFault::NoCard => ServeFault::NoCard,
            OpenFault::Voltage => ServeFault::Voltage,
            OpenFault::Unsupported => ServeFault::Unsupported,
            OpenFault::Locked => ServeFault::Locked,
        }
    }
}

impl From<AllocError> for ServeFault {
    ghost from_gives = { λ _ e. e ≡ NoMemory };

    fn from(_error: AllocError) -> ServeFault {
        ServeFault::NoMemory
    }
}

impl<T: Drop> From<AllocFailed<T>> for ServeFault {
    ghost from_gives = { λ _ e. e ≡ NoMemory };

    fn from(_error: AllocFailed<T>) -> ServeFault {
        ServeFault::NoMemory
    }
}
