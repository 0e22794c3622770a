// Runs a turn at a time: each turn is one exchange.
ghost use Rattle.std.specs.Prelude.{◌≡◌, ◌+◌, ◌<◌, ◌≤◌, IfOk, IfSome, IsSome, IsTrue, false, true, ℕ};
ghost use Rattle.mmc_card.specs.BusView.{BusView};
ghost use Rattle.mmc_card.specs.Sectors.{is_boot};
ghost use Rattle.mmc_switch.specs.Place.{IsReady};
ghost use Rattle.mmc_switch.specs.UnderWay.{FailsBy, part_of, room_of};
ghost use Rattle.mmc_erase.specs.Fits.{phase_fits, phase_left};
ghost use Rattle.mmc_erase.specs.Job.{suits};
ghost use Rattle.mmc_erase.specs.Run.{HasProgressed, HasTurned, IsRunning, IsSameRun, Lowers, exchanges_left, run_then};

use crate::how::How;
use crate::job::Job;
use crate::phase::Phase;
use crate::run::EraseRun;
use crate::steps::step;
use mmc_bus::{Bus, Cause};
use mmc_switch::{EXCHANGES_OF_AN_ENDING, Session, Standing};

/// The most exchanges of a run: three commands, and those that end it.
pub const EXCHANGES_OF_AN_ERASE: u64 = EXCHANGES_OF_AN_ENDING + 3;

impl EraseRun {
    /// Begins to erase or trim so many sectors, 1 at least, from this one of the selected partition on, inside which they
    /// are, and which isn't a boot partition, of a card that isn't write protected. An erase is of whole erase units, but that the last one may end with the
    /// partition; a trim is of a card that trims. Nothing is sent yet.
    pub fn begin(session: Session, start: u64, count: u64, how: How) -> EraseRun
        requires selected { IsSome session.selected }
        requires some { 1 ≤ count }
        requires inside { start + count ≤ room_of session }
        requires erasable { is_boot (part_of session) ≡ false }
        requires suits { suits how session.info (room_of session) start count ≡ true }
        requires writable { session.info.read_only ≡ false }
        ensures session { result.job.session ≡ session }
        ensures start { result.job.start ≡ start }
        ensures count { result.job.count ≡ count }
        ensures how { result.job.how ≡ how }
        ensures bounded { exchanges_left result ≤ EXCHANGES_OF_AN_ERASE }
        ensures running { (view : BusView) → IsReady session view → IsRunning result 0 view }
    {
        EraseRun {
            job: Job {
                session,
                start,
                count,
                how,
            },
            phase: Phase::First,
        }
    }

    /// How many exchanges it may still take at most, of which each turn makes one: for a bound on the wait.
    pub fn exchanges_left(&self) -> u64
        ensures left { result ≡ exchanges_left self.now }
        ensures some { 0 < result }
        ensures bounded { result ≤ EXCHANGES_OF_AN_ERASE }
    {
        phase_left(self.phase)
    }

    /// The next exchange. Once it is done or has failed there is no other.
    pub fn turn<B: Bus>(&mut self, bus: &mut B) -> Standing
        ensures bounded { (B.view bus.new).exchanges ≤ (B.view bus.old).exchanges + 1 }
        ensures kept { (B.view bus.new).is_kept ≡ true → (B.view bus.old).is_kept ≡ true }
        ensures same { IsSameRun self.old (run_then self.new result) }
        ensures lowers { Lowers self.old (run_then self.new result) }
        ensures cause { FailsBy (run_then self.new result) (B.view bus.new) }
        ensures turned { (B.view bus.new).is_kept ≡ true → (faults : ℕ) → IsRunning self.old faults (B.view bus.old)
            → HasTurned self.old faults (B.view bus.old) (run_then self.new result) (B.view bus.new) }
    {
        let outcome = step(bus, &self.job, self.phase);
        self.stand(outcome)
    }

    /// The session that it was begun with, once it is over.
    pub fn into_session(self) -> Session
        ensures { result ≡ self.job.session }
    {
        self.job.session
    }

    // What an exchange makes of it.
    fn stand(&mut self, outcome: Result<Option<Phase>, Cause>) -> Standing
        requires fits { IfOk outcome (λ next. IfSome next (λ phase. IsTrue (phase_fits phase))) }
        ensures { HasProgressed self.old.job outcome (run_then self.new result) }
    {
        match outcome {
            Ok(Some(phase)) => {
                self.phase = phase;
                Standing::GoesOn
            }
            Ok(None) => Standing::Done,
            Err(cause) => Standing::Failed(cause),
        }
    }
}

// The exchanges that are left at most, from this phase on.
fn phase_left(phase: Phase) -> u64
    requires fits { IsTrue (phase_fits phase) }
    ensures left { result ≡ phase_left phase }
    ensures some { 0 < result }
    ensures bounded { result ≤ EXCHANGES_OF_AN_ERASE }
{
    match phase {
        Phase::First => EXCHANGES_OF_AN_ENDING + 3,
        Phase::Last => EXCHANGES_OF_AN_ENDING + 2,
        Phase::Erase => EXCHANGES_OF_AN_ENDING + 1,
        Phase::End(ending) => ending.left(),
    }
}
