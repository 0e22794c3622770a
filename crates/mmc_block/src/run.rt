// Serving all that waits, for a user who has nothing else to do meanwhile.
ghost use Rattle.std.specs.Prelude.{◌≡◌, ◌*◌, ◌+◌, ◌++◌, ◌≤◌, [], IfOk, OnErr, OnOk, length, true, vec_capacity, vec_len};
ghost use Rattle.mmc_recovery.specs.declared.settling.TheConstants.{EXCHANGES_OF_A_SETTLE};
ghost use Rattle.mmc_block.specs.Service.{in_service_of};

use crate::completion::Completion;
use crate::conclude::Completions;
use crate::device::BlockDev;
use arrayvec::ArrayVec;
use mmc_bus::Bus;
use mmc_transfer::Pace;
use std::alloc::{AllocError, Global};

// Moves answers after others, for which there is room.
fn append(all: &mut Vec<Completion>, answers: &mut Completions)
    requires room { vec_len all.old + length answers.old.items ≤ vec_capacity all.old }
    ensures items { all.new.items ≡ all.old.items ++ answers.old.items }
    ensures len { vec_len all.new ≡ vec_len all.old + length answers.old.items }
    ensures capacity { vec_capacity all.old ≤ vec_capacity all.new }
    ensures none { answers.new.items ≡ [] }
{
    answers.reverse();
    while let Some(completion) = answers.pop() {
        let Ok(()) = all.push(completion) else {
            unreachable!()
        };
    }
}

impl<B: Bus> BlockDev<B> {
    ghost use Rattle.mmc_block.specs.Device.{Comes, unanswered_of, work_of};
    ghost use Rattle.mmc_block.specs.Execution.{Counted};
    ghost use Rattle.mmc_block.specs.Healing.{OnlyAdds};
    ghost use Rattle.mmc_block.specs.Run.{AreEachAnswered, TakesTurns};

    /// Takes turns until no request is without an answer, and gives the answers in the order in which they came. It takes the
    /// memory for them before the first turn.
    ///
    /// # Errors
    /// `AllocError` where there is no memory for the answers. No turn was taken then.
    pub fn run(&mut self, alloc: Global) -> Result<Vec<Completion>, AllocError>
        // Over a bus that is kept: turns of the sector machine.
        ensures machine { IfOk result (λ answers. (B.view self.new.bus).is_kept ≡ true
            → Comes B.view self.old (λ (c n : Counted). TakesTurns self.old.info c answers.items n) self.new) }
        ensures kept { (B.view self.new.bus).is_kept ≡ true → (B.view self.old.bus).is_kept ≡ true }

        // Over any bus.
        ensures each { IfOk result (λ answers. AreEachAnswered (self.old.waits ++ in_service_of self.old.service) answers.items) }
        ensures all { OnOk result (unanswered_of self.new ≡ 0) }
        ensures same { (self.new.info ≡ self.old.info) × (self.new.next ≡ self.old.next) }
        ensures bounded { (B.view self.new.bus).exchanges ≤ (B.view self.old.bus).exchanges + EXCHANGES_OF_A_SETTLE * work_of self.old }
        ensures healed { OnlyAdds self.old.healed self.new.healed }
        ensures no_memory { OnErr result (self.new ≡ self.old) }
    {
        let mut answers = Vec::with_capacity(alloc, self.waiting())?;
        let mut given = ArrayVec::new();
        while self.work_left() > 0 {
            self.turn_at(Pace::Transfer, &mut given);
            append(&mut answers, &mut given);
        }
        Ok(answers)
    }
}
