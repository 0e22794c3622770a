// Opening a card: some rounds, each from anywhere to a card that is ready. A lost command may make a good card look like another
// one, so that any failure leads to the next round.
ghost use Rattle.std.specs.Prelude.{◌*◌, ◌+◌, ◌<◌, ◌≡◌, ◌≤◌, IfOk, IsErr, IsOk, Some, true};
ghost use Rattle.mmc_card.specs.Profile.{InProfile};
ghost use Rattle.mmc_card.specs.declared.part.Part.TheVariants.{User};
ghost use Rattle.mmc_bus.specs.Work.{Moves};
ghost use Rattle.mmc_switch.specs.Place.{IsInitialized};

use crate::initialization::{EXCHANGES_OF_AN_INITIALIZATION, InitializationFault, initialize};
use crate::session::Session;
use mmc_bus::Bus;
use mmc_identify::IdentFault;

/// The most rounds of an opening.
pub const ROUNDS_OF_AN_OPENING: u64 = 3;

/// The most exchanges of an opening.
pub const EXCHANGES_OF_AN_OPENING: u64 = ROUNDS_OF_AN_OPENING * EXCHANGES_OF_AN_INITIALIZATION;

/// Initializes the card, whatever became of it before, in so many rounds at most: it is ready then, with the user partition selected.
///
/// # Errors
/// What the last round says; of a card in profile only where as many faults fell as there are rounds.
pub fn initialize_in<B: Bus>(bus: &mut B, rounds: u64) -> Result<Session, InitializationFault>
    requires some { 0 < rounds }
    ensures bounded { (B.view bus.new).exchanges ≤ (B.view bus.old).exchanges + rounds * EXCHANGES_OF_AN_INITIALIZATION }
    ensures user { IfOk result (λ session. session.selected ≡ Some User) }
    ensures moves { Moves
        (λ old new. IfOk result (λ session. IsInitialized session new))
        (λ old new. InProfile old.card.made → IsOk result)
        (B.view bus.old) (B.view bus.new) }
    ensures refused { (B.view bus.new).is_kept ≡ true → InProfile (B.view bus.old).card.made → IsErr result
        → (B.view bus.old).faults + rounds ≤ (B.view bus.new).faults }
{
    let mut failed = InitializationFault::Identification(IdentFault::NoAnswer);
    for _rounds in 0..rounds {
        match initialize(bus) {
            Ok(session) => return Ok(session),
            Err(fault) => failed = fault,
        }
    }
    Err(failed)
}

/// Opens the card, whatever became of it before: it is ready then, with the user partition selected.
///
/// # Errors
/// What the last of three rounds says; of a card in profile only where three faults fell.
pub fn open_card<B: Bus>(bus: &mut B) -> Result<Session, InitializationFault>
    ensures bounded { (B.view bus.new).exchanges ≤ (B.view bus.old).exchanges + EXCHANGES_OF_AN_OPENING }
    ensures user { IfOk result (λ session. session.selected ≡ Some User) }
    ensures moves { Moves
        (λ old new. IfOk result (λ session. IsInitialized session new))
        (λ old new. InProfile old.card.made → IsOk result)
        (B.view bus.old) (B.view bus.new) }
    ensures refused { (B.view bus.new).is_kept ≡ true → InProfile (B.view bus.old).card.made → IsErr result
        → (B.view bus.old).faults + 3 ≤ (B.view bus.new).faults }
{
    initialize_in(bus, ROUNDS_OF_AN_OPENING)
}
