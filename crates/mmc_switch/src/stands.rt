// How a card stands between two runs.
ghost use Rattle.std.specs.Prelude.{◌≡◌};
ghost use Rattle.mmc_switch.specs.Stands.{info_of};

use crate::broken::Broken;
use crate::info::Info;
use crate::session::Session;

/// How a card stands between two runs, as far as the host knows.
#[derive(Debug, Drop)]
pub enum Stands {
    /// It is ready.
    Ready(Session),
    /// Something failed with it. What comes next settles it first.
    Broken(Broken),
}

impl Stands {
    /// What is known of the card.
    pub fn info(&self) -> &Info
        ensures { result.now ≡ info_of self.now }
    {
        match self {
            Stands::Ready(session) => session.info(),
            Stands::Broken(broken) => broken.info(),
        }
    }
}
