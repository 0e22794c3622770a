ghost use Rattle.std.specs.Prelude.{◌≡◌, None, true};
ghost use Rattle.mmc_card.specs.BusView.{BusView};
ghost use Rattle.mmc_bus.specs.declared.cause.Cause.TheVariants as Why;
ghost use Rattle.mmc_switch.specs.Place.{IsReady};

use crate::info::Info;
use crate::session::Session;
use mmc_bus::{Cause, Part};

/// A card that something failed with. It isn't ready until it was settled.
#[derive(Debug, Drop)]
pub struct Broken {
    // As it was when it failed.
    pub(crate) session: Session,
    pub(crate) cause: Cause,
    pub(crate) must_reset: bool,
}

impl Broken {
    /// What the host knows of the card.
    pub fn info(&self) -> &Info
        ensures { result.now ≡ self.now.session.info }
    {
        self.session.info()
    }

    /// The partition that was selected, or `None` where that isn't known.
    pub fn selected(&self) -> Option<Part>
        ensures { result ≡ self.now.session.selected }
    {
        self.session.selected()
    }

    /// Why it failed.
    pub fn cause(&self) -> Cause
        ensures { result ≡ self.now.cause }
    {
        self.cause
    }

    /// Whether nothing but CMD0 may help.
    pub fn must_reset(&self) -> bool
        ensures { result ≡ self.now.must_reset }
    {
        self.must_reset
    }

    /// The session as it was when something failed.
    pub fn session(&self) -> &Session
        ensures { result.now ≡ self.now.session }
    {
        &self.session
    }

    /// The session as it was, once the card was brought back in order: ready wherever the card is as that session says.
    /// Nothing here brings it in order; what does, says so in its own contract.
    pub fn into_session(self) -> Session
        ensures session { result ≡ self.session }
        ensures ready { (view : BusView) → IsReady self.session view → IsReady result view }
    {
        self.session
    }

    /// What is left where settling failed too: the card has to be reset, and which partition is selected isn't known.
    pub fn give_up(self) -> Broken
        ensures { result ≡ record { session = record self.session { selected = None }; cause = Why.Recovery; must_reset = true } }
    {
        Broken {
            session: Session {
                selected: None,
                ..self.session
            },
            cause: Cause::Recovery,
            must_reset: true,
        }
    }
}
