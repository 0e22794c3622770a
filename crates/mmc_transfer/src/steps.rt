// The phases of a run that move no block: one exchange each, and what comes after it.
//
// 1. A run of several blocks begins with CMD23, where the card knows it, and the command follows.
// 2. After each block that is written the card is polled until it isn't busy, at most sixteen times.
// 3. Where the card doesn't know the number of blocks, CMD12 ends the transfer.
// 4. The run ends with polls and a clean status, but for a read whose number of blocks the card knows.
// 5. Anything else ends it at once.
ghost use Rattle.std.specs.Prelude.{◌≡◌, IsTrue, List, length, true, ℕ};
ghost use Rattle.mmc_bus.specs.Work.{Ends};
ghost use Rattle.mmc_card.specs.Sectors.{Sector};
ghost use Rattle.mmc_transfer.specs.Fits.{step_fits};
ghost use Rattle.mmc_transfer.specs.Next.{NextFits, NextIsNearer};
ghost use Rattle.mmc_transfer.specs.Running.{IsIn, Turned};
ghost use Rattle.mmc_transfer.specs.declared.phase.Phase.TheVariants.{Other};
ghost use Rattle.mmc_transfer.specs.declared.phase.Step.TheVariants.{Command, End, Pause, Preset, Stop};

use crate::commands::{preset, start, stop};
use crate::job::Job;
use crate::phase::{Phase, Step};
use mmc_bus::{Bus, Cause, card_laws, poll};
use mmc_switch::{Ending, one_more};

/// The exchange of this phase, and the phase after it, or `None` where the run is done.
///
/// # Errors
/// The cause of the exchange: `Answer`, `Status` or `Busy`.
pub fn step<B: Bus>(bus: &mut B, job: &Job, phase: Step) -> Result<Option<Phase>, Cause>
    requires fits { IsTrue (step_fits job.now.count job.now.session.info.cmd23 phase) }
    ensures ends { Ends 1 (B.view bus.old) result (B.view bus.new) }
    ensures kept { (B.view bus.new).is_kept ≡ true → (B.view bus.old).is_kept ≡ true }
    ensures fits { NextFits job.now result }
    ensures lowers { NextIsNearer job.now (Other phase) result }
    ensures turned { (B.view bus.new).is_kept ≡ true → (blocks : List Sector) (faults : ℕ) → length blocks ≡ job.now.count → IsIn job.now blocks (Other phase) faults (B.view bus.old)
        → Turned job.now blocks faults (B.view bus.old) result (B.view bus.new) }
{
    card_laws::programming_carries_a_change_out();
    let kind = job.session.kind();
    match phase {
        Step::Preset => {
            preset(bus, kind, job.count)?;
            Ok(Some(Phase::Other(Step::Command)))
        }
        Step::Command => {
            let count = job.count as u16;
            start(bus, kind, job.way, job.count == 1, job.address(), count)?;
            Ok(Some(Phase::Block { done: 0 }))
        }
        Step::Pause { done, polls } => {
            if poll(bus) {
                let polls = one_more(polls)?;
                Ok(Some(Phase::Other(Step::Pause { done, polls })))
            } else if done == job.count {
                Ok(Some(Phase::Other(Step::Stop)))
            } else {
                Ok(Some(Phase::Block { done }))
            }
        }
        Step::Stop => {
            stop(bus, kind, job.may_run_out())?;
            Ok(Some(Phase::Other(Step::End(Ending::Wait { polls: 0 }))))
        }
        Step::End(ending) => {
            let next = ending.step(bus, &job.session)?;
            Ok(next.map(Step::End).map(Phase::Other))
        }
    }
}
