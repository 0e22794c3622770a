// From anywhere to a card that is ready: identification, and then width and speed.
ghost use Rattle.std.specs.Prelude.{◌≡◌, ◌+◌, ◌≤◌, IfOk, IsOk, Some};
ghost use Rattle.mmc_card.specs.Profile.{InProfile};
ghost use Rattle.mmc_card.specs.declared.part.Part.TheVariants.{User};
ghost use Rattle.mmc_bus.specs.Work.{Moves};
ghost use Rattle.mmc_switch.specs.Place.{IsInitialized};

use crate::fault::SwitchFault;
use crate::session::Session;
use crate::widening::widen;
use mmc_bus::Bus;
use mmc_identify::{IdentFault, identify};
use thiserror::Error;

/// Why a card wasn't initialized. Of a card in profile each needs a fault on the wire.
#[derive(Clone, Copy, Debug, PartialEq, Eq, Error)]
pub enum InitializationFault {
    /// It wasn't identified.
    #[error("{0}")]
    Identification(IdentFault),
    /// It didn't take its width or speed.
    #[error("{0}")]
    Widening(SwitchFault),
}

/// The most exchanges of an initialization.
pub const EXCHANGES_OF_AN_INITIALIZATION: u64 = 98;

/// Initializes the card, whatever became of it before: it is ready then, with the user partition selected.
///
/// # Errors
/// What the fault says; of a card in profile only where a fault fell.
pub fn initialize<B: Bus>(bus: &mut B) -> Result<Session, InitializationFault>
    ensures bounded { (B.view bus.new).exchanges ≤ (B.view bus.old).exchanges + EXCHANGES_OF_AN_INITIALIZATION }
    ensures user { IfOk result (λ session. session.selected ≡ Some User) }
    ensures moves { Moves
        (λ old new. IfOk result (λ session. IsInitialized session new))
        (λ old new. InProfile old.card.made → IsOk result)
        (B.view bus.old) (B.view bus.new) }
{
    match identify(bus) {
        Ok(found) => match widen(bus, found) {
            Ok(session) => Ok(session),
            Err(fault) => Err(InitializationFault::Widening(fault)),
        },
        Err(fault) => Err(InitializationFault::Identification(fault)),
    }
}
