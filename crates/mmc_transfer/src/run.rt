// Runs of blocks that are under way.
ghost use Rattle.std.specs.Prelude.{IsTrue};
ghost use Rattle.mmc_transfer.specs.Fits.{phase_fits};

use crate::job::Job;
use crate::phase::Phase;
use mmc_switch::Info;

/// A read or a write of blocks that is under way.
#[derive(Debug, Drop)]
pub struct Run {
    pub(crate) job: Job,
    pub(crate) phase: Phase,
    pub(crate) ghost fits: { IsTrue (phase_fits job.count job.session.info.cmd23 phase) },
}

impl Run {
    ghost use Rattle.std.specs.Prelude.{◌≡◌};

    /// What is known of the card.
    pub fn info(&self) -> &Info
        ensures { result.now ≡ self.now.job.session.info }
    {
        self.job.session.info()
    }
}
