// The end of a write, of an erase, and of a read that CMD12 stops: what the card does then takes it a while, and whether it
// went well its status alone tells.
//
// 1. The card is polled until it isn't busy, at most `MAX_POLLS` times.
// 2. Then comes a CMD13 whose status has to be clean. One that shows the card still at work counts as a poll that was answered
//    yes, and CMD13 comes again.
ghost use Rattle.std.specs.Prelude.{◌≡◌, ◌+◌, ◌<◌, IfErr, IfOk, IfSome, IsTrue, true};
ghost use Rattle.mmc_bus.specs.Work.{Ends};
ghost use Rattle.mmc_bus.specs.declared.cause.Cause.TheVariants.{Busy};
ghost use Rattle.mmc_bus.specs.declared.wait.TheConstants.{MAX_POLLS};
ghost use Rattle.mmc_switch.specs.Ending.{EndingDid, ending_fits, ending_left};
ghost use Rattle.mmc_switch.specs.Turns.{left_after};

use crate::session::Session;
use mmc_bus::{Bus, Cause, Closing, MAX_POLLS, ask_closing, poll};

/// The most exchanges of an ending: polls and statuses that say that the card is at work, a poll that says no, and CMD13.
pub const EXCHANGES_OF_AN_ENDING: u64 = MAX_POLLS + 1;

/// The next exchange of an ending.
#[derive(Clone, Copy, Debug, PartialEq, Eq)]
pub enum Ending {
    /// A poll, after so many.
    Wait { polls: u64 },
    /// CMD13, after so many polls and statuses that said that the card is at work.
    Confirm { waits: u64 },
}

/// One poll more.
///
/// # Errors
/// `Busy` where the card was polled `MAX_POLLS` times then.
pub fn one_more(polls: u64) -> Result<u64, Cause>
    requires { polls < MAX_POLLS }
    ensures ok { IfOk result (λ more. (more ≡ polls + 1) × (more < MAX_POLLS)) }
    ensures err { IfErr result (λ cause. (cause ≡ Busy) × (polls + 1 ≡ MAX_POLLS)) }
{
    if polls + 1 == MAX_POLLS {
        Err(Cause::Busy)
    } else {
        Ok(polls + 1)
    }
}

impl Ending {
    /// How many exchanges it may still take at most.
    pub fn left(&self) -> u64
        requires { IsTrue (ending_fits self.now) }
        ensures { result ≡ ending_left self.now }
    {
        match self {
            Ending::Wait { polls } => EXCHANGES_OF_AN_ENDING - *polls,
            Ending::Confirm { waits } => MAX_POLLS - *waits,
        }
    }

    /// Its exchange, and what comes after it, or `None` where the card is ready.
    ///
    /// # Errors
    /// The cause of the exchange: `Busy` of a poll, and of CMD13 `Answer` or `Status`, also where it showed the card at work
    /// once too often.
    pub fn step<B: Bus>(self, bus: &mut B, session: &Session) -> Result<Option<Ending>, Cause>
        requires fits { IsTrue (ending_fits self) }
        ensures ends { Ends 1 (B.view bus.old) result (B.view bus.new) }
        ensures kept { (B.view bus.new).is_kept ≡ true → (B.view bus.old).is_kept ≡ true }
        ensures fits { IfOk result (λ next. IfSome next (λ ending. IsTrue (ending_fits ending))) }
        ensures lowers { IfOk result (λ next. left_after ending_left next < ending_left self) }
        ensures did { (B.view bus.new).is_kept ≡ true → EndingDid session.now self (B.view bus.old) result (B.view bus.new) }
    {
        match self {
            Ending::Wait { polls } => {
                if poll(bus) {
                    let polls = one_more(polls)?;
                    Ok(Some(Ending::Wait { polls }))
                } else {
                    Ok(Some(Ending::Confirm { waits: polls }))
                }
            }
            Ending::Confirm { waits } => match ask_closing(bus, session.kind(), session.rca())? {
                Closing::Clean => Ok(None),
                Closing::AtWork if waits + 1 < MAX_POLLS => {
                    Ok(Some(Ending::Confirm { waits: waits + 1 }))
                }
                Closing::AtWork => Err(Cause::Status),
            },
        }
    }
}
