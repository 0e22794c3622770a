// What the card in memory does in a fault: a function for each row of the card relation that leaves the card otherwise
// than a faithful step.
ghost use Rattle.std.specs.Prelude.{◌&&◌, ◌/◌, ◌^◌, ◌≡◌, ◌≤◌, false, if◌then◌else◌, length, not, true};
ghost use Rattle.mmc_frame.specs.declared.card_state.State.TheVariants.{Prg, Tran};
ghost use Rattle.mmc_card_rows.specs.FaultErrors.{are_of_execution, error_bit};
ghost use Rattle.mmc_card_rows.specs.Store.{lands_by};

use crate::chip::Chip;
use crate::fault::{CommandError, Outcome};
use bitflags::Flags;
use mmc_frame::{State, Status};

impl Chip {
    ghost use Rattle.mmc_card.specs.Blocks.{fallen_early, fallen_short, next_written, programmed, rejected};
    ghost use Rattle.mmc_card.specs.Card.{stored};
    ghost use Rattle.mmc_card.specs.CardAnswer.{busied, garbled, left_with, raised, reset};
    ghost use Rattle.mmc_card.specs.ErrorBits.{card_ecc_failed, general_error};
    ghost use Rattle.mmc_card_rows.specs.Chip.{card_of};

    /// A command with a bad check: the card notes that, and drops a preset count.
    #[tactic(auto, using(mmc_card::proofs::Cards::among_more, crate::proofs::ChipLemmas::or_held))]
    pub fn garble(&mut self)
        ensures { card_of self.new ≡ garbled false (card_of self.old) }
    {
        self.command_errors |= Status::COM_CRC_ERROR.bits();
        self.count = 0;
    }

    /// The card has an error of an earlier command left over.
    #[tactic(auto, using(mmc_card::proofs::Cards::among_more, crate::proofs::ChipLemmas::or_held))]
    pub fn leave_over(&mut self, error: CommandError)
        ensures { card_of self.new ≡ left_with (error_bit error) (card_of self.old) }
    {
        match error {
            CommandError::ComCrc => self.command_errors |= Status::COM_CRC_ERROR.bits(),
            CommandError::Illegal => self.command_errors |= Status::ILLEGAL_COMMAND.bits(),
        }
    }

    /// The card can't correct the block that it was asked for.
    pub fn fail_to_read(&mut self)
        ensures { card_of self.new ≡ raised card_ecc_failed (card_of self.old) }
    {
        self.raise(Status::CARD_ECC_FAILED);
    }

    /// A block is rejected: a write of one block is over then, at once or after a busy time, and one of several goes on, or all
    /// further blocks are ignored.
    pub fn reject(&mut self, ignores: bool, is_busy: bool)
        ensures { card_of self.new ≡ rejected (ignores && not self.old.is_single) is_busy (card_of self.old) }
    {
        if self.is_single {
            self.store.drop_values();
            self.leave_rcv(is_busy);
        } else if ignores {
            self.left = Some(0);
        }
    }

    // A write of one block is over, at once or after a busy time.
    fn leave_rcv(&mut self, is_busy: bool)
        ensures { card_of self.new
            ≡ (if is_busy then record (busied (card_of self.old)) { state = Prg }
            else record (card_of self.old) { state = Tran }) }
    {
        if is_busy {
            self.make_busy();
            self.state = State::Prg;
        } else {
            self.state = State::Tran;
        }
    }

    /// Programming of a write or an erase fails.
    pub fn fail(&mut self, outcome: Outcome)
        ensures { card_of self.new ≡ raised general_error (programmed (lands_by outcome) (card_of self.old)) }
    {
        self.store.settle(self.part, outcome);
        self.state = State::Tran;
        self.is_busy = false;
        self.lags = true;
        self.raise(Status::ERROR);
    }

    /// So it does with these error bits.
    #[tactic(auto, using(crate::proofs::ChipLemmas::execution_is_error))]
    pub fn fail_with(&mut self, outcome: Outcome, bits: u32)
        requires { are_of_execution bits ≡ true }
        ensures { card_of self.new ≡ raised (bits / 2 ^ 13) (programmed (lands_by outcome) (card_of self.old)) }
    {
        self.store.settle(self.part, outcome);
        self.state = State::Tran;
        self.is_busy = false;
        self.lags = true;
        self.raise_bits(bits);
    }

    /// Programming fails with these error bits, and the card is busy still.
    #[tactic(auto, using(crate::proofs::ChipLemmas::execution_is_error))]
    pub fn fail_early(&mut self, outcome: Outcome, bits: u32)
        requires { are_of_execution bits ≡ true }
        ensures { card_of self.new ≡ raised (bits / 2 ^ 13) (fallen_early (lands_by outcome) (card_of self.old)) }
    {
        self.store.settle(self.part, outcome);
        self.raise_bits(bits);
    }

    /// Programming of an earlier block fails, with these error bits, and the write goes on after what has come so far.
    #[tactic(auto, using(crate::proofs::ChipLemmas::execution_is_error))]
    pub fn fall_short(&mut self, outcome: Outcome, bits: u32)
        requires bits { are_of_execution bits ≡ true }
        requires inside { next_written (card_of self.old) ≤ length (stored (card_of self.old) self.old.part) }
        ensures { card_of self.new ≡ raised (bits / 2 ^ 13) (fallen_short (lands_by outcome) (card_of self.old)) }
    {
        self.store.settle_so_far(self.part, outcome);
        self.is_busy = false;
        self.polled = 0;
        self.raise_bits(bits);
    }

    /// The power fails: the card is as after CMD0.
    pub fn lose_power(&mut self, outcome: Outcome, keeps_length: bool)
        ensures { card_of self.new ≡ reset (lands_by outcome) keeps_length (card_of self.old) }
    {
        self.store.settle(self.part, outcome);
        self.start_over(keeps_length);
    }
}
