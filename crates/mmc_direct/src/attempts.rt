// Attempts at a request. Each settles the card where something has failed, selects the partition where another one is selected,
// and makes the run. A request has four.
ghost use Rattle.std.specs.Prelude.{◌≡◌, ◌+◌, ◌≤◌, Bool, IfErr, IfOk, IsSome, None, Some, true};
ghost use Rattle.mmc_card.specs.Card.{holds};
ghost use Rattle.mmc_switch.specs.Info.{lasting, sectors_of};
ghost use Rattle.mmc_recovery.specs.Healed.{with_settling};
ghost use Rattle.mmc_recovery.specs.Settled.{TellsReset, session_of};
ghost use Rattle.mmc_recovery.specs.declared.order.Patience.TheVariants.{Twice};
ghost use Rattle.mmc_direct.specs.Attempts.{HasPrepared, HasTried, exchanges_of};
ghost use Rattle.mmc_direct.specs.Healing.{HasSettled};
ghost use Rattle.mmc_direct.specs.Refusal.{refusal_of};
ghost use Rattle.mmc_direct.specs.Served.{IsCausedIn};
ghost use Rattle.mmc_switch.specs.Stands.{StandsIn, info_of, stands_of};
ghost use Rattle.mmc_switch.specs.Place.{IsBroken};
ghost use Rattle.mmc_switch.specs.declared.stands.Stands.TheVariants as Stands;
ghost use Rattle.mmc_direct.specs.declared.attempts.TheConstants.{EXCHANGES_BESIDE_A_RUN};

use crate::request::Request;
use mmc_bus::{Bus, Part};
use mmc_recovery::{EXCHANGES_OF_A_PATIENT_SETTLE, Healed, Patience, settle_with};
use mmc_switch::{Broken, EXCHANGES_OF_A_SWITCH, Session, Stands, select};

/// The most exchanges of an attempt beside those of its run: a settle and a select.
pub const EXCHANGES_BESIDE_A_RUN: u64 = EXCHANGES_OF_A_PATIENT_SETTLE + EXCHANGES_OF_A_SWITCH;

// Settles a card with which something has failed, with patience.
fn settled<B: Bus>(bus: &mut B, healed: &mut Healed, broken: Broken) -> Result<Session, Broken>
    ensures info { lasting (info_of (stands_of result)) ≡ lasting broken.session.info }
    ensures bounded { (B.view bus.new).exchanges ≤ (B.view bus.old).exchanges + EXCHANGES_OF_A_PATIENT_SETTLE }
    ensures kept { (B.view bus.new).is_kept ≡ true → (B.view bus.old).is_kept ≡ true }
    ensures cause { IfErr result (λ left. IsCausedIn 0 left (B.view bus.old) (B.view bus.new)) }
    ensures told { (was_reset : Bool) × (healed.new ≡ with_settling was_reset healed.old)
        × TellsReset Twice broken (B.view bus.old) (session_of result) was_reset
        (B.view bus.new) }
    ensures healed { HasSettled (Stands.Broken broken) healed.old healed.new }
    ensures prepared { (B.view bus.new).is_kept ≡ true → IsBroken broken (B.view bus.old)
        → HasPrepared (B.view bus.old) result (B.view bus.new) }
{
    let (outcome, was_reset) = settle_with(bus, broken, Patience::Twice);
    *healed = healed.settled(was_reset);
    outcome
}

// Settles the card where something has failed, and selects the partition.
fn prepared<B: Bus>(
    bus: &mut B,
    healed: &mut Healed,
    stands: Stands,
    part: Part,
) -> Result<Session, Broken>
    requires exists { IsSome (sectors_of (info_of stands) part) }
    ensures info { lasting (info_of (stands_of result)) ≡ lasting (info_of stands) }
    ensures selected { IfOk result (λ session. session.selected ≡ Some part) }
    ensures bounded { (B.view bus.new).exchanges ≤ (B.view bus.old).exchanges + EXCHANGES_BESIDE_A_RUN }
    ensures kept { (B.view bus.new).is_kept ≡ true → (B.view bus.old).is_kept ≡ true }
    ensures cause { IfErr result (λ broken. IsCausedIn 0 broken (B.view bus.old) (B.view bus.new)) }
    ensures healed { HasSettled stands healed.old healed.new }
    ensures prepared { (B.view bus.new).is_kept ≡ true → StandsIn stands (B.view bus.old)
        → HasPrepared (B.view bus.old) result (B.view bus.new) }
{
    match stands {
        Stands::Ready(session) => select(bus, session, part),
        Stands::Broken(broken) => {
            let session = settled(bus, healed, broken)?;
            select(bus, session, part)
        }
    }
}

/// One attempt at a request that isn't refused.
///
/// # Errors
/// `Broken` where the card couldn't be settled or selected, or the run failed; its cause is that of the exchange. Each sector of
/// the change is old or new then.
pub fn attempt<B: Bus, R: Request>(
    bus: &mut B,
    healed: &mut Healed,
    stands: Stands,
    request: &mut R,
) -> Result<Session, Broken>
    requires served { refusal_of (info_of stands) (R.asked request.old) ≡ None }
    ensures leaves { R.leaves request.old request.new }
    ensures info { lasting (info_of (stands_of result)) ≡ lasting (info_of stands) }
    ensures bounded { (B.view bus.new).exchanges ≤ (B.view bus.old).exchanges + exchanges_of (R.asked request.old) }
    ensures kept { (B.view bus.new).is_kept ≡ true → (B.view bus.old).is_kept ≡ true }
    ensures cause { IfErr result (λ broken. IsCausedIn 0 broken (B.view bus.old) (B.view bus.new)) }
    ensures healed { HasSettled stands healed.old healed.new }
    ensures tried { (B.view bus.new).is_kept ≡ true → StandsIn stands (B.view bus.old)
        → HasTried 1 (R.change (info_of stands) request.old) (B.view bus.old) result (B.view bus.new) }
    ensures has { (B.view bus.new).is_kept ≡ true → StandsIn stands (B.view bus.old)
        → IfOk result (λ session. R.has (holds (B.view bus.new).card) request.new) }
{
    let session = prepared(bus, healed, stands, request.asked().part)?;
    request.run(bus, session)
}
