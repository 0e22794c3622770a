// The sizes that cards have.
ghost use Rattle.std.specs.Prelude.{◌≡◌, ◌+◌, ◌-◌, ◌*◌, ◌%◌, ◌^◌, ◌<◌, ◌≤◌, IfErr, OnOk};
ghost use Rattle.card_maker.specs.Sizes.{IsByteCount, IsCount, IsMost, IsSizeFault, NamesMultiples, SaysCount};

use crate::csd::Blocks;
use crate::fault::MakeFault;
use mmc_frame::Kind;

/// The most sectors of a card with byte addresses: 2 GiB.
pub const MOST_BY_BYTES: u64 = 4_194_304;

// The fewest sectors of a card.
const LEAST: u64 = 4;

// 2^exponent.
fn power_of_two(exponent: u8) -> u64
    requires { exponent ≤ 10 }
    ensures value { result ≡ 2 ^ exponent }
    ensures small { result ≤ 1024 }
    ensures some { 1 ≤ result }
{
    1 << exponent
}

// The smallest exponent, from 2 on, with which so many sectors are at most 4,096 times 2^exponent.
fn exponent_of(sectors: u64) -> u8
    requires { sectors ≤ MOST_BY_BYTES }
    ensures least { 2 ≤ result }
    ensures most { result ≤ 10 }
    ensures enough { sectors ≤ 4096 * 2 ^ result }
    ensures needed { 2 < result → 4096 * 2 ^ (result - 1) < sectors }
{
    let mut exponent = 2;
    while exponent < 10 && sectors > 4096 * power_of_two(exponent) {
        exponent += 1;
    }
    exponent
}

// Judges a size that isn't above 2 GiB.
fn judge_by_bytes(kind: Kind, sectors: u64) -> Result<(), MakeFault>
    requires least { LEAST ≤ sectors }
    requires most { sectors ≤ MOST_BY_BYTES }
    ensures ok { OnOk result (IsCount kind sectors) }
    ensures err { IfErr result (λ fault. IsSizeFault (IsCount kind) sectors fault) }
{
    judge_unit(sectors, power_of_two(exponent_of(sectors)))
}

// The largest size of a card.
fn most_sectors(kind: Kind) -> u64
    ensures most { IsMost (IsCount kind) result }
    ensures small { result ≤ 2 ^ 32 }
{
    match kind {
        Kind::Sd => 1 << 32,
        Kind::Mmc => (1 << 32) - 1,
    }
}

// Judges a size whose neighbours are the multiples of this unit.
fn judge_unit(sectors: u64, unit: u64) -> Result<(), MakeFault>
    requires some { 1 ≤ unit }
    requires small { sectors + unit < 2 ^ 64 }
    ensures ok { OnOk result (sectors % unit ≡ 0) }
    ensures err { IfErr result (λ fault. NamesMultiples sectors unit fault) }
{
    let over = sectors % unit;
    if over == 0 {
        return Ok(());
    }
    let below = sectors - over;
    Err(MakeFault::NotASize {
        sectors,
        below,
        above: below + unit,
    })
}

/// Judges the size of a user partition in sectors.
///
/// # Errors
/// `TooSmall`, `TooLarge` or `NotASize` where no card of this kind has it.
pub fn judge_size(kind: Kind, sectors: u64) -> Result<(), MakeFault>
    ensures ok { OnOk result (IsCount kind sectors) }
    ensures err { IfErr result (λ fault. IsSizeFault (IsCount kind) sectors fault) }
{
    if sectors < LEAST {
        return Err(MakeFault::TooSmall {
            sectors,
            least: LEAST,
        });
    }
    let most = most_sectors(kind);
    if sectors > most {
        return Err(MakeFault::TooLarge { sectors, most });
    }
    if sectors <= MOST_BY_BYTES {
        return judge_by_bytes(kind, sectors);
    }
    match kind {
        Kind::Sd => judge_unit(sectors, 1024),
        Kind::Mmc => Ok(()),
    }
}

// READ_BL_LEN for so many times 2^exponent sectors: 10 where C_SIZE_MULT would be too large with 9.
fn block_length(exponent: u8) -> u8
    requires least { 2 ≤ exponent }
    requires most { exponent ≤ 10 }
    ensures least { 9 ≤ result }
    ensures most { result ≤ 10 }
    ensures enough { exponent ≤ result }
    ensures within { result ≤ exponent + 7 }
{
    if exponent == 10 { 10 } else { 9 }
}

/// The fields of a CSD for a size with byte addresses.
pub fn blocks_of(sectors: u64) -> Blocks
    requires { IsByteCount sectors }
    ensures { SaysCount result.read_bl_len result.c_size result.c_size_mult sectors }
{
    let exponent = exponent_of(sectors);
    let read_bl_len = block_length(exponent);
    let count = sectors / power_of_two(exponent);
    Blocks {
        read_bl_len,
        c_size: (count - 1) as u16,
        c_size_mult: exponent + 7 - read_bl_len,
    }
}
