// A reset: the card is initialized again, and has to be the one that it was, under whatever RCA it publishes now
// and at whatever speed it takes.
ghost use Rattle.std.specs.Prelude.{◌*◌, ◌+◌, ◌<◌, ◌≡◌, ◌≤◌, IfErr, IfOk, IsOk, Some};
ghost use Rattle.mmc_card.specs.Profile.{InProfile};
ghost use Rattle.mmc_card.specs.declared.part.Part.TheVariants.{User};
ghost use Rattle.mmc_bus.specs.Work.{Moves};
ghost use Rattle.mmc_switch.specs.Info.{lasting};
ghost use Rattle.mmc_switch.specs.Place.{Knows};
ghost use Rattle.mmc_switch.specs.declared.initialization.TheConstants.{EXCHANGES_OF_AN_INITIALIZATION};
ghost use Rattle.mmc_recovery.specs.Settled.{Leaves, given_up, rounds_with};

use crate::order::Patience;
use mmc_bus::Bus;
use mmc_switch::{Broken, Session, initialize_in};

/// The most rounds of a reset with patience.
pub const ROUNDS_OF_A_PATIENT_RESET: u64 = 8;

// The most rounds of a reset.
fn rounds_with(patience: Patience) -> u64
    ensures rounds { result ≡ rounds_with patience }
    ensures some { 0 < result }
{
    match patience {
        Patience::Once => 1,
        Patience::Twice => ROUNDS_OF_A_PATIENT_RESET,
    }
}

/// Resets the card, whatever became of it, in as many rounds as patience has. What wasn't used of it before isn't used after, and it
/// is written as before, though its CSD may say by now that it is write protected.
///
/// # Errors
/// What is left, where the card isn't initialized or is another one; of a card in profile only where a fault fell.
pub fn reset<B: Bus>(bus: &mut B, broken: Broken, patience: Patience) -> Result<Session, Broken>
    ensures bounded { (B.view bus.new).exchanges ≤ (B.view bus.old).exchanges
        + rounds_with patience * EXCHANGES_OF_AN_INITIALIZATION }
    ensures ok { IfOk result (λ session. (lasting session.info ≡ lasting broken.session.info)
        × (session.selected ≡ Some User)) }
    ensures err { IfErr result (λ left. left ≡ given_up broken) }
    ensures moves { Moves
        (λ old new. Knows broken.session old → Leaves result new)
        (λ old new. InProfile old.card.made → Knows broken.session old → IsOk result)
        (B.view bus.old) (B.view bus.new) }
{
    let Ok(session) = initialize_in(bus, rounds_with(patience)) else {
        return Err(broken.give_up());
    };
    if session.info().is_same(broken.info()) {
        Ok(session.used_as(broken.info()))
    } else {
        Err(broken.give_up())
    }
}
