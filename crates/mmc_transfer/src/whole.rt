// Whole runs, as loops over their turns.
ghost use Rattle.std.specs.Prelude.{◌≡◌, ◌*◌, ◌+◌, ◌≤◌, IfErr, IsSome, Some, false, length, true};
ghost use Rattle.mmc_bus.specs.Heard.{cause_of};
ghost use Rattle.mmc_bus.specs.Lending.{IsRewritten};
ghost use Rattle.mmc_switch.specs.Place.{IsReady};
ghost use Rattle.mmc_switch.specs.UnderWay.{IsSameSession, room_of};
ghost use Rattle.mmc_transfer.specs.declared.job.TheConstants.{MAX_BLOCKS};
ghost use Rattle.mmc_transfer.specs.declared.turns.TheConstants.{EXCHANGES_BESIDE_BLOCKS, EXCHANGES_OF_A_BLOCK};
ghost use Rattle.mmc_transfer.specs.declared.way.Way.TheVariants.{Read, Write};
ghost use Rattle.mmc_transfer.specs.Whole.{HasRun};

use crate::pace::Pace;
use crate::run::Run;
use crate::way::Way;
use mmc_bus::{Blocks, BlocksMut, Bus, card_laws};
use mmc_switch::{Broken, Session, Standing};

/// Writes these blocks, 1 to `MAX_BLOCKS`, from this sector of the selected partition on, inside which they are, to a card
/// that isn't write protected. It makes at most `EXCHANGES_OF_A_BLOCK` exchanges a block and `EXCHANGES_BESIDE_BLOCKS` more.
///
/// # Errors
/// What is left, with the cause of the last exchange. Each sector that is named is old or new then, and no other has
/// changed.
pub fn write_run<B: Bus, D: Blocks>(
    bus: &mut B,
    session: Session,
    start: u64,
    blocks: &D,
) -> Result<Session, Broken>
    requires selected { IsSome session.selected }
    requires some { 1 ≤ length (D.blocks blocks.now) }
    requires few { length (D.blocks blocks.now) ≤ MAX_BLOCKS }
    requires inside { start + length (D.blocks blocks.now) ≤ room_of session }
    requires writable { session.info.read_only ≡ false }
    ensures bounded { (B.view bus.new).exchanges ≤ (B.view bus.old).exchanges + (EXCHANGES_OF_A_BLOCK * length (D.blocks blocks.now) + EXCHANGES_BESIDE_BLOCKS) }
    ensures kept { (B.view bus.new).is_kept ≡ true → (B.view bus.old).is_kept ≡ true }
    ensures same { IsSameSession session result }
    ensures cause { IfErr result (λ broken. cause_of (B.view bus.new).last ≡ Some broken.cause) }
    ensures run { (B.view bus.new).is_kept ≡ true → IsReady session (B.view bus.old)
        → HasRun session start Write (D.blocks blocks.now) (B.view bus.old) result (B.view bus.new) }
{
    card_laws::a_card_at_rest_holds_what_it_stores();
    let mut run = Run::begin(session, start, blocks.len() as u32, Way::Write);
    loop {
        match run.write_on(bus, blocks, Pace::Transfer) {
            Standing::GoesOn => {}
            Standing::Done => return Ok(run.into_session()),
            Standing::Failed(cause) => return Err(run.into_session().break_off(cause)),
        }
    }
}

/// Reads these blocks, 1 to `MAX_BLOCKS`, from this sector of the selected partition on, inside which they are. It makes at
/// most as many exchanges as a write.
///
/// # Errors
/// What is left, with the cause of the last exchange. What the blocks hold is open then, and no sector has changed.
pub fn read_run<B: Bus, D: BlocksMut>(
    bus: &mut B,
    session: Session,
    start: u64,
    blocks: &mut D,
) -> Result<Session, Broken>
    requires selected { IsSome session.selected }
    requires some { 1 ≤ length (D.blocks blocks.old) }
    requires few { length (D.blocks blocks.old) ≤ MAX_BLOCKS }
    requires inside { start + length (D.blocks blocks.old) ≤ room_of session }
    ensures bounded { (B.view bus.new).exchanges ≤ (B.view bus.old).exchanges + (EXCHANGES_OF_A_BLOCK * length (D.blocks blocks.old) + EXCHANGES_BESIDE_BLOCKS) }
    ensures count { length (D.blocks blocks.new) ≡ length (D.blocks blocks.old) }
    ensures lent { IsRewritten D.blocks D.with blocks.old blocks.new }
    ensures kept { (B.view bus.new).is_kept ≡ true → (B.view bus.old).is_kept ≡ true }
    ensures same { IsSameSession session result }
    ensures cause { IfErr result (λ broken. cause_of (B.view bus.new).last ≡ Some broken.cause) }
    ensures run { (B.view bus.new).is_kept ≡ true → IsReady session (B.view bus.old)
        → HasRun session start Read (D.blocks blocks.new) (B.view bus.old) result (B.view bus.new) }
{
    card_laws::a_card_at_rest_holds_what_it_stores();
    let mut run = Run::begin(session, start, blocks.len() as u32, Way::Read);
    loop {
        match run.read_on(bus, blocks, Pace::Transfer) {
            Standing::GoesOn => {}
            Standing::Done => return Ok(run.into_session()),
            Standing::Failed(cause) => return Err(run.into_session().break_off(cause)),
        }
    }
}
