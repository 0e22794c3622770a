// Opening a card.
ghost use Rattle.std.specs.Prelude.{◌+◌, ◌≡◌, ◌≤◌, IfErr, IfOk, IsOk, true};
ghost use Rattle.mmc_bus.specs.Work.{Moves};
ghost use Rattle.mmc_card.specs.Profile.{InProfile};
ghost use Rattle.mmc_recovery.specs.Healed.{none_met};
ghost use Rattle.mmc_direct.specs.Opened.{IsReadyAs};
ghost use Rattle.mmc_direct.specs.declared.opening.TheConstants.{EXCHANGES_OF_AN_OPENING, ROUNDS_OF_AN_OPENING};

use mmc_bus::Bus;
use mmc_record::{CardRecord, note};
use mmc_recovery::Healed;
use mmc_switch::{EXCHANGES_OF_AN_INITIALIZATION, InitializationFault, initialize_in};

/// The most rounds of an opening. Where each tenth command is lost a round of sixteen commands fails four times in five.
pub const ROUNDS_OF_AN_OPENING: u64 = 24;

/// The most exchanges of an opening.
pub const EXCHANGES_OF_AN_OPENING: u64 = ROUNDS_OF_AN_OPENING * EXCHANGES_OF_AN_INITIALIZATION;

/// Opens the card, whatever became of it before, and notes it: no sector may hold more than before. Until it is open the record is
/// that of no card. What is met and healed is counted from here on. What cards of its make are known to do wrong isn't used: trims of
/// some eMMC devices, and CMD23 of some SD cards.
///
/// # Errors
/// What the last round says; of a card in profile only where as many faults fell as there are rounds.
pub fn open<B: Bus>(
    bus: &mut B,
    card: &mut CardRecord,
    healed: &mut Healed,
) -> Result<(), InitializationFault>
    ensures bounded { (B.view bus.new).exchanges ≤ (B.view bus.old).exchanges + EXCHANGES_OF_AN_OPENING }
    ensures moves { Moves
        (λ old new. IfOk result (λ _. IsReadyAs card.new new))
        (λ old new. InProfile old.card.made → IsOk result)
        (B.view bus.old) (B.view bus.new) }
    ensures healed { healed.new ≡ none_met }
    ensures not_open { IfErr result (λ _. card.new ≡ record card.old { state = 0 }) }
    ensures refused { (B.view bus.new).is_kept ≡ true → InProfile (B.view bus.old).card.made
        → IfErr result (λ _. (B.view bus.old).faults + ROUNDS_OF_AN_OPENING ≤ (B.view bus.new).faults) }
{
    card.state = 0;
    *healed = Healed::new();
    match initialize_in(bus, ROUNDS_OF_AN_OPENING) {
        Ok(session) => {
            *card = note(&session.heeding_known_faults());
            Ok(())
        }
        Err(fault) => Err(fault),
    }
}
