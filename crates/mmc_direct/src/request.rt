// The trait of what is served: a read, a write, an erase or a trim.
ghost use Rattle.std.specs.Prelude.{◌≡◌, ◌+◌, ◌<◌, ◌≤◌, IfErr, IfOk, None, Some, true, ℕ};
ghost use Rattle.mmc_bus.specs.Heard.{cause_of};
ghost use Rattle.mmc_card.specs.Card.{holds};
ghost use Rattle.mmc_card.specs.Sectors.{Change, Sets};
ghost use Rattle.mmc_direct.specs.Asked.{exchanges_of_run};
ghost use Rattle.mmc_direct.specs.Refusal.{refusal_of};
ghost use Rattle.mmc_direct.specs.Runs.{HasMade};
ghost use Rattle.mmc_requests.specs.declared.asked.Asked.{Asked};
ghost use Rattle.mmc_switch.specs.Info.{lasting};
ghost use Rattle.mmc_switch.specs.Place.{IsReady};
ghost use Rattle.mmc_switch.specs.UnderWay.{IsSameSession};
ghost use Rattle.mmc_switch.specs.declared.info.Info.{Info};

use mmc_bus::Bus;
use mmc_requests::Asked;
use mmc_switch::{Broken, Session};

/// A request of one client, as it is served: what it asks for, and how a run of it is made. Where it moves blocks it has them.
pub trait Request {
    // What it asks for.
    ghost asked: { Self → Asked };

    // How many attempts it has.
    ghost attempts: { Self → ℕ };

    // Which sectors it changes, on a card of which this is known, and to what.
    ghost change: { Info → Self → Change };

    // Runs of the first may leave the second of it.
    ghost leaves: { Self → Self → Type 0 };

    // What is true of it once it is done, by what sectors may hold then.
    ghost has: { Sets → Self → Type 0 };

    /// What it asks for.
    fn asked(&self) -> Asked
        ensures { result ≡ asked self.now };

    /// How many attempts it has, one at least.
    fn attempts(&self) -> u64
        ensures attempts { result ≡ attempts self.now }
        ensures some { 0 < result };

    /// Makes one run of it, on a card by which it isn't refused and whose partition is selected.
    ///
    /// # Errors
    /// What is left, with the cause of the last exchange. Each sector of the change is old or new then, and no other has changed.
    fn run<B: Bus>(&mut self, bus: &mut B, session: Session) -> Result<Session, Broken>
        requires selected { session.selected ≡ Some (asked self.old).part }
        requires served { refusal_of session.info (asked self.old) ≡ None }
        ensures leaves { leaves self.old self.new }
        ensures bounded { (B.view bus.new).exchanges ≤ (B.view bus.old).exchanges + exchanges_of_run (asked self.old) }
        ensures kept { (B.view bus.new).is_kept ≡ true → (B.view bus.old).is_kept ≡ true }
        ensures same { IsSameSession session result }
        ensures cause { IfErr result (λ broken. cause_of (B.view bus.new).last ≡ Some broken.cause) }
        ensures made { (B.view bus.new).is_kept ≡ true → IsReady session (B.view bus.old)
            → HasMade (change session.info self.old) (B.view bus.old) result (B.view bus.new) }
        ensures has { (B.view bus.new).is_kept ≡ true → IsReady session (B.view bus.old)
            → IfOk result (λ ready. has (holds (B.view bus.new).card) self.new) };

    // Where no run is made it stays as it is.
    ghost unmoved: { (request : Self) → leaves request request };

    // Runs after runs are runs.
    ghost in_turn: { (first second third : Self) → leaves first second → leaves second third → leaves first third };

    // What is left of it asks for the same sectors.
    ghost asks_the_same: { (old new : Self) → leaves old new → asked new ≡ asked old };

    // It changes them to the same.
    ghost changes_the_same: { (info : Info) (old new : Self) → leaves old new → change info new ≡ change info old };

    // What it changes them to depends only on what is known of the card for good.
    ghost changes_by_lasting: { (now info : Info) (request : Self) → lasting now ≡ lasting info
        → change now request ≡ change info request };
}
