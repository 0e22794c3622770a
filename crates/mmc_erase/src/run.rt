// Runs that are under way.
ghost use Rattle.std.specs.Prelude.{IsTrue};
ghost use Rattle.mmc_erase.specs.Fits.{phase_fits};

use crate::job::Job;
use crate::phase::Phase;
use mmc_switch::Info;

/// An erase or a trim that is under way.
#[derive(Debug, Drop)]
pub struct EraseRun {
    pub(crate) job: Job,
    pub(crate) phase: Phase,
    pub(crate) ghost fits: { IsTrue (phase_fits phase) },
}

impl EraseRun {
    ghost use Rattle.std.specs.Prelude.{◌≡◌};

    /// What is known of the card.
    pub fn info(&self) -> &Info
        ensures { result.now ≡ self.now.job.session.info }
    {
        self.job.session.info()
    }
}
