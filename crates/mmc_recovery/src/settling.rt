// Bringing a card back in order after a failure (SD Physical Layer 6.00, section 4.3; JESD84-B51, section 6.6).
//
// 1. A card that has to be reset is: rule 4.
// 2. CMD13. In data or rcv the transfer is ended by CMD12, and then, as in prg at once, the card is polled until it isn't
//    busy, sixteen times at most. In tran there is nothing to end; any other state leads to rule 4.
// 3. CMD16 with 512 bytes, CMD13, and a second CMD13, which has to be clean. What any earlier status says else is ignored.
//    A missing or unsound response, a status that isn't clean, or a card that is busy still leads to rule 4. With patience
//    the first response to CMD12 or CMD13 that is missing or unsound leads to rule 2 once more: a card goes on by itself,
//    and one that showed data may be in tran when CMD12 comes, which may be illegal there, and then isn't answered.
// 4. Identification, and width and speed: all that is known of the card then has to be what was known before, but for the
//    RCA, which an SD card may publish anew (SD Physical Layer 6.00, section 4.2.2), and its speed, since it may refuse
//    high speed then (section 4.3.10). The user partition is selected now. With patience there are more rounds of that, since a
//    card that has lost its power is reset by nothing else. A failure here is given up: nothing but another reset may help, and
//    which partition is selected isn't known.
ghost use Rattle.std.specs.Prelude.{◌*◌, ◌+◌, ◌<◌, ◌≡◌, ◌≤◌, ◌⊎◌, IfErr, IfOk, IsErr, Some, true};
ghost use Rattle.mmc_card.specs.Profile.{InProfile};
ghost use Rattle.mmc_card.specs.declared.part.Part.TheVariants.{User};
ghost use Rattle.mmc_bus.specs.Learned.{Stays};
ghost use Rattle.mmc_bus.specs.Work.{Narrows};
ghost use Rattle.mmc_switch.specs.Info.{lasting};
ghost use Rattle.mmc_switch.specs.Place.{IsBroken};
ghost use Rattle.mmc_recovery.specs.Settled.{Leaves, TellsReset, given_up, restoring, rounds_with, session_of};
ghost use Rattle.mmc_switch.specs.declared.initialization.TheConstants.{EXCHANGES_OF_AN_INITIALIZATION};

use crate::order::{
    EXCHANGES_OF_A_PATIENT_RESTORATION, EXCHANGES_OF_A_RESTORATION, Patience, restore_with,
};
use crate::reopening::{ROUNDS_OF_A_PATIENT_RESET, reset};
use mmc_bus::Bus;
use mmc_switch::{Broken, EXCHANGES_OF_AN_INITIALIZATION, Session};

/// The most exchanges of a settle: a restoration that fails, and a reset.
pub const EXCHANGES_OF_A_SETTLE: u64 = EXCHANGES_OF_A_RESTORATION + EXCHANGES_OF_AN_INITIALIZATION;

/// The most exchanges of a settle with patience: two restorations that fail, and a reset in some rounds.
pub const EXCHANGES_OF_A_PATIENT_SETTLE: u64 = EXCHANGES_OF_A_PATIENT_RESTORATION
    + ROUNDS_OF_A_PATIENT_RESET * EXCHANGES_OF_AN_INITIALIZATION;

/// Brings the card back in order: it is ready then, as its session says, or after a reset with the user partition
/// selected. No sector may hold more after it; those of a write that was unfinished are each old or new.
///
/// # Errors
/// What is left has to be reset, with the cause `Recovery`; of a card in profile only where a fault fell.
pub fn settle<B: Bus>(bus: &mut B, broken: Broken) -> Result<Session, Broken>
    ensures bounded { (B.view bus.new).exchanges ≤ (B.view bus.old).exchanges + EXCHANGES_OF_A_SETTLE }
    ensures ok { IfOk result (λ session. (lasting session.info ≡ lasting broken.session.info)
        × ((session ≡ broken.session) ⊎ (session.selected ≡ Some User))) }
    ensures err { IfErr result (λ left. left ≡ given_up broken) }

    ensures kept { (B.view bus.new).is_kept ≡ true → (B.view bus.old).is_kept ≡ true }
    ensures stays { (B.view bus.new).is_kept ≡ true
        → Stays (B.view bus.old) (B.view bus.new) × Narrows (B.view bus.old) (B.view bus.new) }
    ensures settled { (B.view bus.new).is_kept ≡ true → IsBroken broken (B.view bus.old) → Leaves result (B.view bus.new) }
    ensures refused { (B.view bus.new).is_kept ≡ true → IsBroken broken (B.view bus.old)
        → InProfile (B.view bus.old).card.made → IsErr result → (B.view bus.old).faults < (B.view bus.new).faults }
{
    settle_with(bus, broken, Patience::Once).0
}

/// The same, with so much patience, and whether the card was reset, which a host counts.
///
/// # Errors
/// Those of `settle`; the card was reset then.
pub fn settle_with<B: Bus>(
    bus: &mut B,
    broken: Broken,
    patience: Patience,
) -> (Result<Session, Broken>, bool)
    ensures bounded { (B.view bus.new).exchanges ≤ (B.view bus.old).exchanges
        + (restoring patience + rounds_with patience * EXCHANGES_OF_AN_INITIALIZATION) }
    ensures ok { IfOk result.0 (λ session. (lasting session.info ≡ lasting broken.session.info)
        × ((session ≡ broken.session) ⊎ (session.selected ≡ Some User))) }
    ensures err { IfErr result.0 (λ left. left ≡ given_up broken) }
    ensures told { TellsReset patience broken (B.view bus.old) (session_of result.0) result.1
        (B.view bus.new) }

    ensures kept { (B.view bus.new).is_kept ≡ true → (B.view bus.old).is_kept ≡ true }
    ensures stays { (B.view bus.new).is_kept ≡ true
        → Stays (B.view bus.old) (B.view bus.new) × Narrows (B.view bus.old) (B.view bus.new) }
    ensures settled { (B.view bus.new).is_kept ≡ true → IsBroken broken (B.view bus.old) → Leaves result.0 (B.view bus.new) }
    ensures refused { (B.view bus.new).is_kept ≡ true → IsBroken broken (B.view bus.old)
        → InProfile (B.view bus.old).card.made → IsErr result.0 → (B.view bus.old).faults < (B.view bus.new).faults }
{
    if broken.must_reset() {
        return (reset(bus, broken, patience), true);
    }
    match restore_with(bus, broken.info(), patience) {
        Ok(()) => (Ok(broken.into_session()), false),
        Err(_) => (reset(bus, broken, patience), true),
    }
}
