// Blocks, judged.
ghost use Rattle.std.specs.Prelude.{◌≡◌, ◌↔◌, IfErr, IsOk, Some, false, length, true};
ghost use Rattle.mmc_card.specs.Blocks.{accepted, can_accept, can_send, next_block, sent};
ghost use Rattle.mmc_card.specs.CardAnswer.{Choice};
ghost use Rattle.mmc_card.specs.declared.exchange.DataIn.TheVariants.{Good};
ghost use Rattle.mmc_card.specs.declared.exchange.DataOut.TheVariants.{Accepted};
ghost use Rattle.mmc_bus.specs.declared.cause.Cause.TheVariants as Why;
ghost use Rattle.mmc_bus.specs.Learned.{IsAccepted};
ghost use Rattle.mmc_bus.specs.Work.{Ends, Narrows, NarrowsBut, Works};

use crate::bus::Bus;
use crate::cause::Cause;
use crate::host::{read_block, write_block};
use mmc_card::{DataIn, DataOut};

// Judges a block that was read: it has to come with a good check.
fn check_read(got: DataIn) -> Result<(), Cause>
    ensures good { IsOk result ↔ (got ≡ Good) }
    ensures cause { IfErr result (λ cause. cause ≡ Why.Data) }
{
    match got {
        DataIn::Good => Ok(()),
        DataIn::Bad | DataIn::Nothing => Err(Cause::Data),
    }
}

// Judges a block that was written: the card has to accept it.
fn check_write(got: DataOut) -> Result<(), Cause>
    ensures accepted { IsOk result ↔ (got ≡ Accepted) }
    ensures cause { IfErr result (λ cause. cause ≡ Why.Data) }
{
    match got {
        DataOut::Accepted => Ok(()),
        DataOut::Rejected | DataOut::Nothing => Err(Cause::Data),
    }
}

/// Reads the block that the card sends, of the buffer's length. A card that is busy may send none.
///
/// # Errors
/// `Data` where it doesn't come with a good check; what the buffer holds is open then.
pub fn receive<B: Bus>(bus: &mut B, buffer: &mut [u8]) -> Result<(), Cause>
    ensures ends { Ends 1 (B.view bus.old) result (B.view bus.new) }
    ensures works { Works Narrows
        (λ old new. IsOk result → (can_send old.lines (length buffer.old) old.card ≡ true)
        × (next_block old.card ≡ Some buffer.new) × ((choice : Choice) × (new.card ≡ sent choice old.card)))
        (λ old new. can_send old.lines (length buffer.old) old.card ≡ true → old.card.is_busy ≡ false → IsOk result)
        (B.view bus.old) (B.view bus.new) }
{
    check_read(read_block(bus, buffer))
}

/// Offers a block to the card, which has to accept it.
///
/// # Errors
/// `Data` where it doesn't.
pub fn offer<B: Bus>(bus: &mut B, block: &[u8; 512]) -> Result<(), Cause>
    ensures ends { Ends 1 (B.view bus.old) result (B.view bus.new) }
    ensures works { Works (NarrowsBut block.now)
        (λ old new. IsOk result → IsAccepted block.now old new)
        (λ old new. can_accept old.lines old.card ≡ true → IsOk result × (new.card ≡ accepted block.now old.card))
        (B.view bus.old) (B.view bus.new) }
{
    check_write(write_block(bus, block))
}
