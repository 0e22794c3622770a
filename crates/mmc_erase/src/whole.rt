// Whole runs, as loops over their turns.
ghost use Rattle.std.specs.Prelude.{◌≡◌, ◌+◌, ◌≤◌, IfErr, IsSome, Some, false, true};
ghost use Rattle.mmc_card.specs.Sectors.{is_boot};
ghost use Rattle.mmc_bus.specs.Heard.{cause_of};
ghost use Rattle.mmc_switch.specs.Place.{IsReady};
ghost use Rattle.mmc_switch.specs.UnderWay.{IsSameSession, part_of, room_of};
ghost use Rattle.mmc_erase.specs.Job.{suits};
ghost use Rattle.mmc_erase.specs.Whole.{HasErased};
ghost use Rattle.mmc_erase.specs.declared.turns.TheConstants.{EXCHANGES_OF_AN_ERASE};

use crate::how::How;
use crate::run::EraseRun;
use mmc_bus::{Bus, card_laws};
use mmc_switch::{Broken, Session, Standing};

/// Erases or trims so many sectors, 1 at least, from this one of the selected partition on, as `EraseRun::begin` has it. It
/// makes at most `EXCHANGES_OF_AN_ERASE` exchanges.
///
/// # Errors
/// What is left, with the cause of the last exchange. Each sector that is named is as before or erased then, and no other
/// has changed.
pub fn erase_run<B: Bus>(
    bus: &mut B,
    session: Session,
    start: u64,
    count: u64,
    how: How,
) -> Result<Session, Broken>
    requires selected { IsSome session.selected }
    requires some { 1 ≤ count }
    requires inside { start + count ≤ room_of session }
    requires erasable { is_boot (part_of session) ≡ false }
    requires suits { suits how session.info (room_of session) start count ≡ true }
    requires writable { session.info.read_only ≡ false }
    ensures bounded { (B.view bus.new).exchanges ≤ (B.view bus.old).exchanges + EXCHANGES_OF_AN_ERASE }
    ensures kept { (B.view bus.new).is_kept ≡ true → (B.view bus.old).is_kept ≡ true }
    ensures same { IsSameSession session result }
    ensures cause { IfErr result (λ broken. cause_of (B.view bus.new).last ≡ Some broken.cause) }
    ensures run { (B.view bus.new).is_kept ≡ true → IsReady session (B.view bus.old)
        → HasErased session start count (B.view bus.old) result (B.view bus.new) }
{
    card_laws::a_card_at_rest_holds_what_it_stores();
    let mut run = EraseRun::begin(session, start, count, how);
    loop {
        match run.turn(bus) {
            Standing::GoesOn => {}
            Standing::Done => return Ok(run.into_session()),
            Standing::Failed(cause) => return Err(run.into_session().break_off(cause)),
        }
    }
}
