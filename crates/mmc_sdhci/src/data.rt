// Blocks, by programmed I/O through the Buffer Data Port.
ghost use Rattle.std.specs.Prelude.{◌≡◌, false, length, true};
ghost use Rattle.mmc_card.specs.declared.exchange.DataIn.TheVariants as Came;
ghost use Rattle.mmc_card.specs.declared.exchange.DataOut.TheVariants as Went;
ghost use Rattle.mmc_sdhci.specs.declared.watching.Sought.TheVariants as Sought;
ghost use Rattle.mmc_sdhci.specs.DataLooks.{came};
ghost use Rattle.mmc_sdhci.specs.Accesses.{IsAtRest};
ghost use Rattle.mmc_sdhci.specs.Moving.{FindsRoom, IsComing, IsGoing, IsSeeking};
ghost use Rattle.mmc_sdhci.specs.Moving.{ReadsBlock, SeesGone, SeesGood, WritesBlock};

use crate::command::reset_data;
use crate::following::{Following, following_of};
use crate::registers::Registers;
use crate::watching::{Sought, watch};
use mmc_card::{DataIn, DataOut};
use mmc_host::Data;

/// Whether it is a good block.
pub fn is_good(got: DataIn) -> bool
    ensures yes { result ≡ true → got ≡ Came.Good }
    ensures no { result ≡ false → got ≡ Came.Good → ⊥ }
{
    match got {
        DataIn::Good => true,
        DataIn::Bad | DataIn::Nothing => false,
    }
}

/// Whether the block was accepted.
pub fn is_accepted(got: DataOut) -> bool
    ensures yes { result ≡ true → got ≡ Went.Accepted }
    ensures no { result ≡ false → got ≡ Went.Accepted → ⊥ }
{
    match got {
        DataOut::Accepted => true,
        DataOut::Rejected | DataOut::Nothing => false,
    }
}

/// Why no good block came, by the error interrupts.
pub fn came(bits: u32) -> DataIn
    ensures { result ≡ came bits }
{
    if bits / 0x20_0000 % 2 == 1 || bits / 0x40_0000 % 2 == 1 {
        DataIn::Bad
    } else {
        DataIn::Nothing
    }
}

// Looks until nothing can be wrong any more with the block that was taken. Where something is, the data line is reset.
fn see_good<R: Registers>(registers: &mut R, following: Following) -> DataIn
    requires { IsSeeking (Sought.Good following) (R.view registers.old) }
    ensures { SeesGood (R.view registers.old) result (R.view registers.new) }
{
    let Some(seen) = watch(registers, Sought::Good(following)) else {
        reset_data(registers);
        return DataIn::Nothing;
    };
    if seen.is_error() {
        reset_data(registers);
        return came(seen.bits);
    }
    DataIn::Good
}

/// Reads the next block of the data that is under way. A bad one ends the data, and so does none; then the data line is reset.
pub fn read_block<R: Registers>(registers: &mut R, under_way: Data, block: &mut [u8]) -> DataIn
    requires rest { IsAtRest (R.view registers.old) }
    requires coming { IsComing under_way (length block.old) (R.view registers.old) }
    ensures rest { IsAtRest (R.view registers.new) }
    ensures read { ReadsBlock (R.view registers.old) (length block.old) result block.new (R.view registers.new) }
{
    let Some(seen) = watch(registers, Sought::Block) else {
        reset_data(registers);
        return DataIn::Nothing;
    };
    if seen.is_error() {
        reset_data(registers);
        return came(seen.bits);
    }
    registers.read_port(block);
    see_good(registers, following_of(under_way))
}

// Looks until there is room for a block. Where there isn't, the data line is reset.
fn find_room<R: Registers>(registers: &mut R) -> bool
    requires { IsSeeking Sought.Room (R.view registers.old) }
    ensures { FindsRoom (R.view registers.old) result (R.view registers.new) }
{
    let Some(seen) = watch(registers, Sought::Room) else {
        reset_data(registers);
        return false;
    };
    if seen.is_error() {
        reset_data(registers);
        return false;
    }
    true
}

// Looks until the block in the buffer has gone. Where it hasn't, the data line is reset.
fn see_gone<R: Registers>(registers: &mut R, following: Following) -> DataOut
    requires { IsSeeking (Sought.Gone following) (R.view registers.old) }
    ensures { SeesGone (R.view registers.old) result (R.view registers.new) }
{
    let Some(seen) = watch(registers, Sought::Gone(following)) else {
        reset_data(registers);
        return DataOut::Nothing;
    };
    if seen.is_error() {
        reset_data(registers);
        return DataOut::Nothing;
    }
    DataOut::Accepted
}

/// Writes the next block of the data that is under way. `Accepted` says that it has gone without an error; otherwise the data line is
/// reset, which ends the data.
pub fn write_block<R: Registers>(registers: &mut R, under_way: Data, block: &[u8; 512]) -> DataOut
    requires rest { IsAtRest (R.view registers.old) }
    requires going { IsGoing under_way (R.view registers.old) }
    ensures rest { IsAtRest (R.view registers.new) }
    ensures written { WritesBlock (R.view registers.old) block.now result (R.view registers.new) }
{
    if !find_room(registers) {
        return DataOut::Nothing;
    }
    registers.write_port(block);
    see_gone(registers, following_of(under_way))
}
