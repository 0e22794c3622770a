ghost use Rattle.std.specs.Prelude.{◌≡◌};
ghost use Rattle.mmc_block.specs.OpenFaults as told;
ghost use Rattle.mmc_block.specs.declared.open_fault.OpenFault.TheVariants.{NoMemory};

use mmc_identify::IdentFault;
use mmc_switch::{InitializationFault, SwitchFault};
use thiserror::Error;

/// Why a card isn't opened. After three rounds it is told by the last one.
#[derive(Clone, Copy, Debug, PartialEq, Eq, Error)]
pub enum OpenFault {
    /// Memory was refused, before any exchange. Opening takes none today.
    #[error("no memory")]
    NoMemory,
    /// No card answered, or it didn't answer soundly.
    #[error("no card")]
    NoCard,
    /// The card doesn't work at 3.3 V.
    #[error("the card doesn't work at this voltage")]
    Voltage,
    /// The card's registers are refused, or don't go together.
    #[error("the card isn't supported")]
    Unsupported,
    /// The card is locked by a password.
    #[error("the card is locked")]
    Locked,
}

/// What an initialization that failed says of the card.
pub fn of_initialization(fault: InitializationFault) -> OpenFault
    ensures told { result ≡ told.of_initialization fault }
    ensures memory { result ≡ NoMemory → ⊥ }
{
    match fault {
        InitializationFault::Identification(fault) => match fault {
            IdentFault::NoAnswer => OpenFault::NoCard,
            IdentFault::Voltage => OpenFault::Voltage,
            IdentFault::Register | IdentFault::Mismatch => OpenFault::Unsupported,
            IdentFault::Locked => OpenFault::Locked,
        },
        InitializationFault::Widening(fault) => match fault {
            SwitchFault::Exchange => OpenFault::NoCard,
            SwitchFault::Register => OpenFault::Unsupported,
        },
    }
}
