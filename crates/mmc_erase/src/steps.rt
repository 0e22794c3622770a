// The exchanges of a run, and what comes after each.
//
// 1. CMD32 or CMD35 names the first sector, CMD33 or CMD36 the last one, and CMD38 erases or trims them.
// 2. The run ends with polls and a clean status.
// 3. Anything else ends it at once.
ghost use Rattle.std.specs.Prelude.{◌≡◌, ◌<◌, IfOk, IfSome, IsTrue, true, ℕ};
ghost use Rattle.mmc_bus.specs.Work.{Ends};
ghost use Rattle.mmc_switch.specs.Turns.{left_after};
ghost use Rattle.mmc_erase.specs.Fits.{phase_fits, phase_left};
ghost use Rattle.mmc_erase.specs.Running.{IsIn, Turned};
ghost use Rattle.mmc_erase.specs.declared.phase.Phase.TheVariants.{End, Erase, First, Last};

use crate::commands::{erase, hold_first, hold_last};
use crate::job::Job;
use crate::phase::Phase;
use mmc_bus::{Bus, Cause, card_laws};
use mmc_switch::Ending;

/// The exchange of this phase, and the phase after it, or `None` where the run is done.
///
/// # Errors
/// The cause of the exchange: `Answer`, `Status` or `Busy`.
pub fn step<B: Bus>(bus: &mut B, job: &Job, phase: Phase) -> Result<Option<Phase>, Cause>
    requires fits { IsTrue (phase_fits phase) }
    ensures ends { Ends 1 (B.view bus.old) result (B.view bus.new) }
    ensures kept { (B.view bus.new).is_kept ≡ true → (B.view bus.old).is_kept ≡ true }
    ensures fits { IfOk result (λ next. IfSome next (λ phase. IsTrue (phase_fits phase))) }
    ensures lowers { IfOk result (λ next. left_after phase_left next < phase_left phase) }
    ensures turned { (B.view bus.new).is_kept ≡ true → (faults : ℕ) → IsIn job.now phase faults (B.view bus.old)
        → Turned job.now faults (B.view bus.old) result (B.view bus.new) }
{
    card_laws::programming_carries_a_change_out();
    let kind = job.session.kind();
    match phase {
        Phase::First => {
            hold_first(bus, kind, job.first())?;
            Ok(Some(Phase::Last))
        }
        Phase::Last => {
            hold_last(bus, kind, job.last())?;
            Ok(Some(Phase::Erase))
        }
        Phase::Erase => {
            erase(bus, kind, job.how.argument())?;
            Ok(Some(Phase::End(Ending::Wait { polls: 0 })))
        }
        Phase::End(ending) => Ok(ending.step(bus, &job.session)?.map(Phase::End)),
    }
}
