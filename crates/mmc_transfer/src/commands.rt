// The commands of a run, each with its R1 judged (SD Physical Layer 6.00, section 4.3; JESD84-B51, section 6.6).
ghost use Rattle.std.specs.Prelude.{◌<◌, ◌^◌, ◌≡◌, ◌⊎◌, IfErr, IsOk, Ok, false, length, true, ℕ};
ghost use Rattle.mmc_frame.specs.Status.{error_bits};
ghost use Rattle.mmc_card.specs.Card.{NoAddress, is_selected};
ghost use Rattle.mmc_card.specs.RowsTransfer.{preset_to};
ghost use Rattle.mmc_card.specs.Laws.{AfterAnyTime, IsStill};
ghost use Rattle.mmc_bus.specs.Heard.{cause_of_response, is_inquiry_index};
ghost use Rattle.mmc_bus.specs.Lending.{IsRewritten};
ghost use Rattle.mmc_bus.specs.Together.{MovesAtMost};
ghost use Rattle.mmc_bus.specs.Work.{Ends, Narrows, Works};
ghost use Rattle.mmc_transfer.specs.Commands.{Begins, CanPreset, CanStop, EndsIt, index_of};
ghost use Rattle.mmc_transfer.specs.First.{StartedReading, StartedWriting};

use crate::way::Way;
use bitflags::Flags;
use mmc_bus::{
    Blocks, BlocksMut, Bus, Cause, DataIn, DataOut, Moved, Unheard, ask, ask_moving, ask_reading,
    ask_writing, card_laws, check_r1, transfer_laws,
};
use mmc_frame::commands::{
    READ_MULTIPLE_BLOCK, READ_SINGLE_BLOCK, SET_BLOCK_COUNT, STOP_TRANSMISSION, WRITE_BLOCK,
    WRITE_MULTIPLE_BLOCK,
};
use mmc_frame::{Kind, Status, errors};

/// Presets the count of the next transfer (CMD23).
///
/// # Errors
/// `Answer` where no sound response was heard, `Status` where it shows an error.
pub fn preset<B: Bus>(bus: &mut B, kind: Kind, count: u32) -> Result<(), Cause>
    ensures ends { Ends 1 (B.view bus.old) result (B.view bus.new) }
    ensures works { Works Narrows
        (λ old new. IsOk result → IsStill old.card → old.card.erase ≡ NoAddress → new.card ≡ preset_to old.card count)
        (λ old new. CanPreset kind old.card → IsOk result)
        (B.view bus.old) (B.view bus.new) }
{
    transfer_laws::cmd23_presets_the_count();
    card_laws::a_status_tells_of_its_card();
    check_r1(kind, ask(bus, SET_BLOCK_COUNT, count))
}

// The command that begins a transfer.
fn command_of(way: Way, is_single: bool) -> u8
    ensures named { result ≡ index_of way is_single }
    ensures below { result < 64 }
    ensures checked { is_inquiry_index result ≡ false }
{
    match way {
        Way::Read if is_single => READ_SINGLE_BLOCK,
        Way::Read => READ_MULTIPLE_BLOCK,
        Way::Write if is_single => WRITE_BLOCK,
        Way::Write => WRITE_MULTIPLE_BLOCK,
    }
}

/// Begins a transfer at this address, of one block (CMD17, CMD24) or of several (CMD18, CMD25). So many will be moved.
///
/// # Errors
/// `Answer` where no sound response was heard, `Status` where it shows an error.
pub fn start<B: Bus>(
    bus: &mut B,
    kind: Kind,
    way: Way,
    is_single: bool,
    address: u32,
    count: u16,
) -> Result<(), Cause>
    ensures ends { Ends 1 (B.view bus.old) result (B.view bus.new) }
    ensures works { Begins kind way is_single address (B.view bus.old) result (B.view bus.new) }
{
    transfer_laws::cmd17_begins_a_read();
    transfer_laws::cmd18_begins_a_read_of_blocks();
    transfer_laws::cmd24_begins_a_write();
    transfer_laws::cmd25_begins_a_write_of_blocks();
    card_laws::a_status_tells_of_its_card();
    check_r1(
        kind,
        ask_moving(bus, command_of(way, is_single), address, count),
    )
}

/// Begins a read, of one block (CMD17) or of several (CMD18), and reads the first of its blocks into their places, as many as the
/// bus moves with the command.
///
/// # Errors
/// As `start`.
pub fn start_reading<B: Bus, D: BlocksMut>(
    bus: &mut B,
    kind: Kind,
    is_single: bool,
    address: u32,
    blocks: &mut D,
) -> (Result<(), Cause>, Moved<DataIn>)
    ensures started { StartedReading D.blocks D.with kind is_single address (B.view bus.old) blocks.old result.0 result.1 blocks.new
        (B.view bus.new) }
    ensures few { MovesAtMost result.1 (length (D.blocks blocks.old)) }
    ensures count { length (D.blocks blocks.new) ≡ length (D.blocks blocks.old) }
    ensures lent { IsRewritten D.blocks D.with blocks.old blocks.new }
{
    transfer_laws::cmd17_begins_a_read();
    transfer_laws::cmd18_begins_a_read_of_blocks();
    card_laws::a_status_tells_of_its_card();
    let (heard, moved) = ask_reading(bus, command_of(Way::Read, is_single), address, blocks);
    (check_r1(kind, heard), moved)
}

/// Begins a write, of one block (CMD24) or of several (CMD25), and writes the first of its blocks, as many as the bus moves with the
/// command.
///
/// # Errors
/// As `start`.
pub fn start_writing<B: Bus, D: Blocks>(
    bus: &mut B,
    kind: Kind,
    is_single: bool,
    address: u32,
    blocks: &D,
) -> (Result<(), Cause>, Moved<DataOut>)
    ensures started { StartedWriting kind is_single address (D.blocks blocks.now) (B.view bus.old) result.0 result.1 (B.view bus.new) }
    ensures few { MovesAtMost result.1 (length (D.blocks blocks.now)) }
{
    transfer_laws::cmd24_begins_a_write();
    transfer_laws::cmd25_begins_a_write_of_blocks();
    card_laws::a_status_tells_of_its_card();
    let (heard, moved) = ask_writing(bus, command_of(Way::Write, is_single), address, blocks);
    (check_r1(kind, heard), moved)
}

// Judges the R1 of CMD12, in which OUT_OF_RANGE alone may be no error.
fn check_stop(kind: Kind, may_run_out: bool, heard: Result<u32, Unheard>) -> Result<(), Cause>
    ensures ok { IsOk result → (status : ℕ) × (heard ≡ Ok status)
        × ((error_bits kind status ≡ 0) ⊎ ((may_run_out ≡ true) × (error_bits kind status ≡ 2 ^ 31))) }
    ensures all { (status : ℕ) → heard ≡ Ok status
        → (error_bits kind status ≡ 0) ⊎ ((may_run_out ≡ true) × (error_bits kind status ≡ 2 ^ 31)) → IsOk result }
    ensures cause { IfErr result (λ cause. cause ≡ cause_of_response heard) }
{
    let status = heard.map_err(|_| Cause::Answer)?;
    let errors = errors(kind, status);
    if errors.is_empty() || may_run_out && errors == Status::OUT_OF_RANGE {
        Ok(())
    } else {
        Err(Cause::Status)
    }
}

/// Ends a transfer (CMD12). Where a read may run out of the partition, OUT_OF_RANGE alone is no error.
///
/// # Errors
/// `Answer` where no sound response was heard, `Status` where it shows an error.
pub fn stop<B: Bus>(bus: &mut B, kind: Kind, may_run_out: bool) -> Result<(), Cause>
    ensures ends { Ends 1 (B.view bus.old) result (B.view bus.new) }
    ensures works { Works Narrows
        (λ old new. IsOk result → (is_selected old.card.state ≡ true)
        × (old.card.erase ≡ NoAddress → EndsIt old new) × (may_run_out ≡ false → old.card.errors ≡ 0))
        (λ old new. AfterAnyTime old (CanStop kind may_run_out) → IsOk result)
        (B.view bus.old) (B.view bus.new) }
{
    transfer_laws::cmd12_ends_a_transfer();
    card_laws::a_status_tells_of_its_card();
    check_stop(kind, may_run_out, ask(bus, STOP_TRANSMISSION, 0))
}
