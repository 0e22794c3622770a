// Runs of blocks, a turn at a time: each turn is one exchange.
ghost use Rattle.std.specs.Prelude.{◌≡◌, ◌*◌, ◌+◌, ◌<◌, ◌≤◌, IsSome, IsTrue, List, false, length, true, ℕ};
ghost use Rattle.mmc_card.specs.BusView.{BusView};
ghost use Rattle.mmc_card.specs.Sectors.{Sector};
ghost use Rattle.mmc_bus.specs.Lending.{IsRewritten};
ghost use Rattle.mmc_switch.specs.Place.{IsReady};
ghost use Rattle.mmc_switch.specs.UnderWay.{FailsBy, room_of};
ghost use Rattle.mmc_transfer.specs.declared.job.TheConstants.{MAX_BLOCKS};
ghost use Rattle.mmc_transfer.specs.declared.pace.Pace.TheVariants.{Exchange};
ghost use Rattle.mmc_transfer.specs.declared.way.Way.TheVariants.{Read, Write};
ghost use Rattle.mmc_transfer.specs.Run.{HasProgressed, HasTurned, IsRunning, IsSameRun, Lowers, exchanges_left, run_then};
ghost use Rattle.mmc_transfer.specs.First.{Nears};
ghost use Rattle.mmc_transfer.specs.Fits.{phase_fits, phase_left};
ghost use Rattle.mmc_transfer.specs.Next.{NextFits};

use crate::job::{Job, MAX_BLOCKS};
use crate::moves::{give, give_first, take, take_first};
use crate::pace::Pace;
use crate::phase::{Phase, Step};
use crate::run::Run;
use crate::steps::step;
use crate::way::Way;
use mmc_bus::{Blocks, BlocksMut, Bus, Cause, MAX_POLLS};
use mmc_switch::{EXCHANGES_OF_AN_ENDING, Session, Standing};

/// The most exchanges of a block: the block itself, and the polls after it.
pub const EXCHANGES_OF_A_BLOCK: u64 = MAX_POLLS + 1;

/// The most exchanges of a run beside those of its blocks: two commands, and those that end it.
pub const EXCHANGES_BESIDE_BLOCKS: u64 = EXCHANGES_OF_AN_ENDING + 2;

impl Run {
    /// Begins a run of so many blocks, 1 to `MAX_BLOCKS`, from this sector of the selected partition on, inside which they
    /// are; to write them the card isn't write protected. Nothing is sent yet.
    pub fn begin(session: Session, start: u64, count: u32, way: Way) -> Run
        requires selected { IsSome session.selected }
        requires some { 1 ≤ count }
        requires few { count ≤ MAX_BLOCKS }
        requires inside { start + count ≤ room_of session }
        requires writable { way ≡ Write → session.info.read_only ≡ false }
        ensures session { result.job.session ≡ session }
        ensures start { result.job.start ≡ start }
        ensures count { result.job.count ≡ count }
        ensures way { result.job.way ≡ way }
        ensures bounded { exchanges_left result ≤ EXCHANGES_OF_A_BLOCK * count + EXCHANGES_BESIDE_BLOCKS }
        ensures running { (view : BusView) (blocks : List Sector) → IsReady session view → IsRunning result blocks 0 view }
    {
        let job = Job {
            session,
            start,
            count,
            way,
        };
        let first = job.first_step();
        Run {
            job,
            phase: Phase::Other(first),
        }
    }

    /// How many exchanges it may still take at most, of which each turn makes one: for a bound on the wait.
    pub fn exchanges_left(&self) -> u64
        ensures left { result ≡ exchanges_left self.now }
        ensures some { 0 < result }
        ensures bounded { result ≤ EXCHANGES_OF_A_BLOCK * self.now.job.count + EXCHANGES_BESIDE_BLOCKS }
        ensures few { self.now.job.count ≤ MAX_BLOCKS }
    {
        phase_left(&self.job, self.phase)
    }

    /// The next exchange of a write, with the same blocks at each turn. Once it is done or has failed there is no other.
    pub fn write_turn<B: Bus, D: Blocks>(&mut self, bus: &mut B, blocks: &D) -> Standing
        requires way { self.old.job.way ≡ Write }
        requires count { length (D.blocks blocks.now) ≡ self.old.job.count }
        ensures bounded { (B.view bus.new).exchanges ≤ (B.view bus.old).exchanges + 1 }
        ensures kept { (B.view bus.new).is_kept ≡ true → (B.view bus.old).is_kept ≡ true }
        ensures same { IsSameRun self.old (run_then self.new result) }
        ensures lowers { Lowers self.old (run_then self.new result) }
        ensures cause { FailsBy (run_then self.new result) (B.view bus.new) }
        ensures turned { (B.view bus.new).is_kept ≡ true → (faults : ℕ) → IsRunning self.old (D.blocks blocks.now) faults (B.view bus.old)
            → HasTurned self.old (D.blocks blocks.now) faults (B.view bus.old) (run_then self.new result) (B.view bus.new) }
    {
        match self.phase {
            Phase::Block { done } => {
                let outcome = give(bus, &self.job, done, blocks);
                self.stand(outcome)
            }
            Phase::Other(other) => {
                let outcome = step(bus, &self.job, other);
                self.stand(outcome)
            }
        }
    }

    /// The next exchange of a write as `write_turn` makes it, or its command and all blocks that the bus moves with it.
    pub fn write_on<B: Bus, D: Blocks>(&mut self, bus: &mut B, blocks: &D, pace: Pace) -> Standing
        requires way { self.old.job.way ≡ Write }
        requires count { length (D.blocks blocks.now) ≡ self.old.job.count }
        ensures bounded { pace ≡ Exchange → (B.view bus.new).exchanges ≤ (B.view bus.old).exchanges + 1 }
        ensures nears { Nears self.old (B.view bus.old) (run_then self.new result) (B.view bus.new) }
        ensures kept { (B.view bus.new).is_kept ≡ true → (B.view bus.old).is_kept ≡ true }
        ensures same { IsSameRun self.old (run_then self.new result) }
        ensures lowers { Lowers self.old (run_then self.new result) }
        ensures cause { FailsBy (run_then self.new result) (B.view bus.new) }
        ensures turned { (B.view bus.new).is_kept ≡ true → (faults : ℕ) → IsRunning self.old (D.blocks blocks.now) faults (B.view bus.old)
            → HasTurned self.old (D.blocks blocks.now) faults (B.view bus.old) (run_then self.new result) (B.view bus.new) }
    {
        match self.phase {
            Phase::Other(Step::Command) if pace == Pace::Transfer => {
                let outcome = give_first(bus, &self.job, blocks);
                self.stand(outcome)
            }
            _ => self.write_turn(bus, blocks),
        }
    }

    /// The next exchange of a read, with the same blocks at each turn. What they hold is open until the read is done. Once it is
    /// done or has failed there is no other.
    pub fn read_turn<B: Bus, D: BlocksMut>(&mut self, bus: &mut B, blocks: &mut D) -> Standing
        requires way { self.old.job.way ≡ Read }
        requires count { length (D.blocks blocks.old) ≡ self.old.job.count }
        ensures bounded { (B.view bus.new).exchanges ≤ (B.view bus.old).exchanges + 1 }
        ensures kept { (B.view bus.new).is_kept ≡ true → (B.view bus.old).is_kept ≡ true }
        ensures same { IsSameRun self.old (run_then self.new result) }
        ensures count { length (D.blocks blocks.new) ≡ length (D.blocks blocks.old) }
        ensures lent { IsRewritten D.blocks D.with blocks.old blocks.new }
        ensures lowers { Lowers self.old (run_then self.new result) }
        ensures cause { FailsBy (run_then self.new result) (B.view bus.new) }
        ensures turned { (B.view bus.new).is_kept ≡ true → (faults : ℕ) → IsRunning self.old (D.blocks blocks.old) faults (B.view bus.old)
            → HasTurned self.old (D.blocks blocks.new) faults (B.view bus.old) (run_then self.new result) (B.view bus.new) }
    {
        match self.phase {
            Phase::Block { done } => {
                let outcome = take(bus, &self.job, done, blocks);
                self.stand(outcome)
            }
            Phase::Other(other) => {
                let outcome = step(bus, &self.job, other);
                self.stand(outcome)
            }
        }
    }

    /// The next exchange of a read as `read_turn` makes it, or its command and all blocks that the bus moves with it.
    pub fn read_on<B: Bus, D: BlocksMut>(
        &mut self,
        bus: &mut B,
        blocks: &mut D,
        pace: Pace,
    ) -> Standing
        requires way { self.old.job.way ≡ Read }
        requires count { length (D.blocks blocks.old) ≡ self.old.job.count }
        ensures bounded { pace ≡ Exchange → (B.view bus.new).exchanges ≤ (B.view bus.old).exchanges + 1 }
        ensures nears { Nears self.old (B.view bus.old) (run_then self.new result) (B.view bus.new) }
        ensures kept { (B.view bus.new).is_kept ≡ true → (B.view bus.old).is_kept ≡ true }
        ensures same { IsSameRun self.old (run_then self.new result) }
        ensures count { length (D.blocks blocks.new) ≡ length (D.blocks blocks.old) }
        ensures lent { IsRewritten D.blocks D.with blocks.old blocks.new }
        ensures lowers { Lowers self.old (run_then self.new result) }
        ensures cause { FailsBy (run_then self.new result) (B.view bus.new) }
        ensures turned { (B.view bus.new).is_kept ≡ true → (faults : ℕ) → IsRunning self.old (D.blocks blocks.old) faults (B.view bus.old)
            → HasTurned self.old (D.blocks blocks.new) faults (B.view bus.old) (run_then self.new result) (B.view bus.new) }
    {
        match self.phase {
            Phase::Other(Step::Command) if pace == Pace::Transfer => {
                let outcome = take_first(bus, &self.job, blocks);
                self.stand(outcome)
            }
            _ => self.read_turn(bus, blocks),
        }
    }

    /// The session that it was begun with, once it is over.
    pub fn into_session(self) -> Session
        ensures { result ≡ self.job.session }
    {
        self.job.session
    }

    // What an exchange makes of it.
    fn stand(&mut self, outcome: Result<Option<Phase>, Cause>) -> Standing
        requires fits { NextFits self.old.job outcome }
        ensures { HasProgressed self.old.job outcome (run_then self.new result) }
    {
        match outcome {
            Ok(Some(phase)) => {
                self.phase = phase;
                Standing::GoesOn
            }
            Ok(None) => Standing::Done,
            Err(cause) => Standing::Failed(cause),
        }
    }
}

// The exchanges that are left at most, from this phase on: those of the blocks to come, and what ends the run.
fn phase_left(job: &Job, phase: Phase) -> u64
    requires fits { IsTrue (phase_fits job.now.count job.now.session.info.cmd23 phase) }
    ensures { result ≡ phase_left job.now.count job.now.session.info.cmd23 phase }
{
    let count = u64::from(job.count);
    let end = if job.is_counted() {
        EXCHANGES_OF_AN_ENDING
    } else {
        EXCHANGES_OF_AN_ENDING + 1
    };
    match phase {
        Phase::Block { done } => EXCHANGES_OF_A_BLOCK * (count - u64::from(done)) + end,
        Phase::Other(step) => match step {
            Step::Preset => EXCHANGES_OF_A_BLOCK * count + end + 2,
            Step::Command => EXCHANGES_OF_A_BLOCK * count + end + 1,
            Step::Pause { done, polls } => EXCHANGES_OF_A_BLOCK * (count - u64::from(done))
                + end
                + (MAX_POLLS - polls),
            Step::Stop => EXCHANGES_OF_AN_ENDING + 1,
            Step::End(ending) => ending.left(),
        },
    }
}
