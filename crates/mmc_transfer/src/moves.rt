// The phases of a run that move a block: one exchange each, and what comes after it. The block is moved in place.
ghost use Rattle.std.specs.Prelude.{◌≡◌, ◌<◌, IfErr, Some, length, true, ℕ};
ghost use Rattle.mmc_bus.specs.Heard.{cause_of};
ghost use Rattle.mmc_bus.specs.Lending.{IsRewritten};
ghost use Rattle.mmc_bus.specs.Together.{MovesAtMost};
ghost use Rattle.mmc_bus.specs.Work.{Ends};
ghost use Rattle.mmc_transfer.specs.First.{CostsAtMost, judged};
ghost use Rattle.mmc_transfer.specs.Moves.{after_read, after_written, after_write_command};
ghost use Rattle.mmc_transfer.specs.Next.{NextFits, NextIsNearer};
ghost use Rattle.mmc_transfer.specs.Running.{IsIn, Turned};
ghost use Rattle.mmc_transfer.specs.declared.job.TheConstants.{MAX_BLOCKS};
ghost use Rattle.mmc_transfer.specs.declared.phase.Phase.TheVariants.{Block, Other};
ghost use Rattle.mmc_transfer.specs.declared.phase.Step.TheVariants.{Command};
ghost use Rattle.mmc_transfer.specs.declared.way.Way.TheVariants.{Read, Write};

use crate::commands::{start_reading, start_writing};
use crate::job::{Job, MAX_BLOCKS};
use crate::phase::{Phase, Step};
use mmc_bus::{Blocks, BlocksMut, Bus, Cause, Moved, offer, receive};
use mmc_switch::Ending;

// What comes once so many blocks are written: polls, or what ends the run where the card knows that it was the last block.
fn after_written(job: &Job, done: u32) -> Step
    ensures { result ≡ after_written job.now done }
{
    if done == job.count && job.is_counted() {
        Step::End(Ending::Wait { polls: 0 })
    } else {
        Step::Pause { done, polls: 0 }
    }
}

// What comes once so many blocks are read: the next one, nothing where the card knows that it was the last, or CMD12.
fn after_read(job: &Job, done: u32) -> Option<Phase>
    ensures { result ≡ after_read job.now done }
{
    if done < job.count {
        Some(Phase::Block { done })
    } else if job.is_counted() {
        None
    } else {
        Some(Phase::Other(Step::Stop))
    }
}

/// Writes the next block of a run, after so many.
///
/// # Errors
/// `Data` where the card doesn't accept it.
pub fn give<B: Bus, D: Blocks>(
    bus: &mut B,
    job: &Job,
    done: u32,
    blocks: &D,
) -> Result<Option<Phase>, Cause>
    requires way { job.now.way ≡ Write }
    requires more { done < job.now.count }
    requires count { length (D.blocks blocks.now) ≡ job.now.count }
    ensures ends { Ends 1 (B.view bus.old) result (B.view bus.new) }
    ensures kept { (B.view bus.new).is_kept ≡ true → (B.view bus.old).is_kept ≡ true }
    ensures fits { NextFits job.now result }
    ensures lowers { NextIsNearer job.now (Block done) result }
    ensures turned { (B.view bus.new).is_kept ≡ true → (faults : ℕ) → IsIn job.now (D.blocks blocks.now) (Block done) faults (B.view bus.old)
        → Turned job.now (D.blocks blocks.now) faults (B.view bus.old) result (B.view bus.new) }
{
    offer(bus, blocks.block(done as usize))?;
    Ok(Some(Phase::Other(after_written(job, done + 1))))
}

/// Reads the next block of a run, after so many, into its place.
///
/// # Errors
/// `Data` where it doesn't come with a good check. What the block's place holds is open then.
pub fn take<B: Bus, D: BlocksMut>(
    bus: &mut B,
    job: &Job,
    done: u32,
    blocks: &mut D,
) -> Result<Option<Phase>, Cause>
    requires way { job.now.way ≡ Read }
    requires more { done < job.now.count }
    requires count { length (D.blocks blocks.old) ≡ job.now.count }
    ensures ends { Ends 1 (B.view bus.old) result (B.view bus.new) }
    ensures kept { (B.view bus.new).is_kept ≡ true → (B.view bus.old).is_kept ≡ true }
    ensures count { length (D.blocks blocks.new) ≡ length (D.blocks blocks.old) }
    ensures lent { IsRewritten D.blocks D.with blocks.old blocks.new }
    ensures fits { NextFits job.now result }
    ensures lowers { NextIsNearer job.now (Block done) result }
    ensures turned { (B.view bus.new).is_kept ≡ true → (faults : ℕ) → IsIn job.now (D.blocks blocks.old) (Block done) faults (B.view bus.old)
        → Turned job.now (D.blocks blocks.new) faults (B.view bus.old) result (B.view bus.new) }
{
    receive(bus, blocks.block_mut(done as usize))?;
    Ok(after_read(job, done + 1))
}

// Judges what a command and the blocks after it came to: how many are moved.
fn judge<T: Copy>(started: Result<(), Cause>, moved: Moved<T>) -> Result<u32, Cause>
    requires few { MovesAtMost moved MAX_BLOCKS }
    ensures { result ≡ judged started moved }
{
    match (started, moved) {
        (_, Moved::Failed(_)) => Err(Cause::Data),
        (Ok(()), Moved::Good(good)) => Ok(good as u32),
        (Err(cause), Moved::Good(0)) => Err(cause),
        (Err(_), Moved::Good(_)) => Err(Cause::Data),
    }
}

/// Begins a read, and reads the first of its blocks into their places, as many as the bus moves with the command.
///
/// # Errors
/// `Answer` or `Status` where the command fails, `Data` where a block doesn't come with a good check, or some came after a
/// command that failed. What the blocks hold is open then.
pub fn take_first<B: Bus, D: BlocksMut>(
    bus: &mut B,
    job: &Job,
    blocks: &mut D,
) -> Result<Option<Phase>, Cause>
    requires way { job.now.way ≡ Read }
    requires count { length (D.blocks blocks.old) ≡ job.now.count }
    ensures costs { CostsAtMost job.now (Other Command) (B.view bus.old) result (B.view bus.new) }
    ensures cause { IfErr result (λ cause. cause_of (B.view bus.new).last ≡ Some cause) }
    ensures kept { (B.view bus.new).is_kept ≡ true → (B.view bus.old).is_kept ≡ true }
    ensures count { length (D.blocks blocks.new) ≡ length (D.blocks blocks.old) }
    ensures lent { IsRewritten D.blocks D.with blocks.old blocks.new }
    ensures fits { NextFits job.now result }
    ensures lowers { NextIsNearer job.now (Other Command) result }
    ensures turned { (B.view bus.new).is_kept ≡ true → (faults : ℕ) → IsIn job.now (D.blocks blocks.old) (Other Command) faults (B.view bus.old)
        → Turned job.now (D.blocks blocks.new) faults (B.view bus.old) result (B.view bus.new) }
{
    let (started, moved) = start_reading(
        bus,
        job.session.kind(),
        job.count == 1,
        job.address(),
        blocks,
    );
    match judge(started, moved) {
        Ok(good) => Ok(after_read(job, good)),
        Err(cause) => Err(cause),
    }
}

// What comes once so many blocks were written with the command.
fn after_write_command(job: &Job, done: u32) -> Phase
    ensures { result ≡ after_write_command job.now done }
{
    if done == 0 {
        Phase::Block { done: 0 }
    } else {
        Phase::Other(after_written(job, done))
    }
}

/// Begins a write, and writes the first of its blocks, as many as the bus moves with the command.
///
/// # Errors
/// `Answer` or `Status` where the command fails, `Data` where a block isn't accepted, or some went after a command that failed.
pub fn give_first<B: Bus, D: Blocks>(
    bus: &mut B,
    job: &Job,
    blocks: &D,
) -> Result<Option<Phase>, Cause>
    requires way { job.now.way ≡ Write }
    requires count { length (D.blocks blocks.now) ≡ job.now.count }
    ensures costs { CostsAtMost job.now (Other Command) (B.view bus.old) result (B.view bus.new) }
    ensures cause { IfErr result (λ cause. cause_of (B.view bus.new).last ≡ Some cause) }
    ensures kept { (B.view bus.new).is_kept ≡ true → (B.view bus.old).is_kept ≡ true }
    ensures fits { NextFits job.now result }
    ensures lowers { NextIsNearer job.now (Other Command) result }
    ensures turned { (B.view bus.new).is_kept ≡ true → (faults : ℕ) → IsIn job.now (D.blocks blocks.now) (Other Command) faults (B.view bus.old)
        → Turned job.now (D.blocks blocks.now) faults (B.view bus.old) result (B.view bus.new) }
{
    let (started, moved) = start_writing(
        bus,
        job.session.kind(),
        job.count == 1,
        job.address(),
        blocks,
    );
    match judge(started, moved) {
        Ok(good) => Ok(Some(after_write_command(job, good))),
        Err(cause) => Err(cause),
    }
}
