// Makes cards.
ghost use Rattle.std.specs.Prelude.{◌≡◌, ◌≤◌, false, IfErr, IfOk, OnOk, None};
ghost use Rattle.mmc_card_sim.specs.CardSpec.{refusal_of, sizes_of};
ghost use Rattle.mmc_card_sim.specs.Sizes.{total};
ghost use Rattle.mmc_card_sim.specs.declared.spec.TheConstants.{MAX_SECTORS};
ghost use Rattle.mmc_regs.specs.Register.{checked_register};
ghost use Rattle.card_maker.specs.NewRegisters.{mmc_registers, new_scr, sd_classes, sd_registers};
ghost use Rattle.card_maker.specs.Plain.{HasFirstRca, IsPlain};
ghost use Rattle.card_maker.specs.Sizes.{IsByteCount, IsCount, IsSectorCount};
ghost use Rattle.mmc_ext_csd.specs.Partition.{addressable_sectors};
ghost use Rattle.card_maker.specs.Wanted.{addressing_by, HasWanted, IsAsWanted, IsMakeFault, IsMmcBeside, IsSdBeside, TakesPartitions};

use crate::csd::{Blocks, checked_register, csd_mmc, csd_v1, csd_v2};
use crate::ext_csd::ext_csd;
use crate::fault::MakeFault;
use crate::sizes::{MOST_BY_BYTES, blocks_of, judge_size};
use crate::wanted::Wanted;
use mmc_card_sim::{CardSpec, KindRegisters, MmcRegisters, Registers, SdRegisters};
use mmc_frame::Kind;

// All voltages from 2.7 to 3.6 V.
const SD_VOLTAGES: u32 = 0x00ff_8000;

// The same, and those of an eMMC device from 1.7 to 1.95 V.
const MMC_VOLTAGES: u32 = 0x00ff_8080;

// CCS of an SD card; access mode 2 of an eMMC device.
const SECTOR_ADDRESSES: u32 = 0x4000_0000;

// No manufacturer, product CARD0, revision 1.0, serial number 1, October 2024.
const SD_CID: u128 = 0x0000_0043_4152_4430_1000_0000_0101_8a00;

// The same of an eMMC device, whose product is DEVICE.
const MMC_CID: u128 = 0x0000_0044_4556_4943_4510_0000_0001_ab00;

// Classes 0, 2, 4, 5, 6 and 7.
const MMC_CLASSES: u16 = 0x0f5;

// Classes 0, 2, 4, 5, 7 and 8, and 10 of a card that has CMD6.
fn sd_classes(high_speed: bool) -> u16
    ensures { result ≡ sd_classes high_speed }
{
    if high_speed { 0x5b5 } else { 0x1b5 }
}

// SD_SPEC 2, the bus widths, and CMD_SUPPORT.
fn scr(four_lines: bool, cmd23: bool) -> [u8; 8]
    ensures { result ≡ new_scr four_lines cmd23 }
{
    let widths = if four_lines { 0x05 } else { 0x01 };
    let commands = if cmd23 { 0x02 } else { 0x00 };
    [0x02, widths, 0, commands, 0, 0, 0, 0]
}

fn sd_registers(wanted: &Wanted, ocr: u32, csd: [u8; 16]) -> Registers
    ensures { result ≡ sd_registers ocr (checked_register SD_CID) csd
        (new_scr wanted.now.four_lines wanted.now.cmd23) wanted.now.high_speed }
{
    Registers {
        kind: KindRegisters::Sd(SdRegisters {
            scr: scr(wanted.four_lines, wanted.cmd23),
            rca: 1,
            rca_changes: false,
            answers_cmd8: true,
            has_high_speed: wanted.high_speed,
        }),
        ocr,
        cid: checked_register(SD_CID),
        csd,
        is_locked: false,
    }
}

fn mmc_registers(ocr: u32, csd: [u8; 16], ext_csd: [u8; 512]) -> Registers
    ensures { result ≡ mmc_registers ocr (checked_register MMC_CID) csd ext_csd }
{
    Registers {
        kind: KindRegisters::Mmc(MmcRegisters { ext_csd }),
        ocr,
        cid: checked_register(MMC_CID),
        csd,
        is_locked: false,
    }
}

// An SD card with byte addresses.
fn sd_by_bytes(wanted: &Wanted) -> Registers
    requires beside { IsSdBeside wanted.now }
    requires count { IsByteCount wanted.now.sectors }
    ensures wanted { HasWanted wanted.now result }
    ensures rca { HasFirstRca result.kind }
    ensures unlocked { result.is_locked ≡ false }
{
    let classes = sd_classes(wanted.high_speed);
    let blocks = blocks_of(wanted.sectors);
    let csd = csd_v1(classes, blocks, wanted.read_only);
    sd_registers(wanted, SD_VOLTAGES, csd)
}

// An SD card with sector addresses.
fn sd_by_sectors(wanted: &Wanted) -> Registers
    requires beside { IsSdBeside wanted.now }
    requires count { IsSectorCount Kind.Sd wanted.now.sectors }
    ensures wanted { HasWanted wanted.now result }
    ensures rca { HasFirstRca result.kind }
    ensures unlocked { result.is_locked ≡ false }
{
    let classes = sd_classes(wanted.high_speed);
    let c_size = (wanted.sectors / 1024 - 1) as u32;
    let csd = csd_v2(classes, c_size, wanted.read_only);
    sd_registers(wanted, SD_VOLTAGES + SECTOR_ADDRESSES, csd)
}

// An eMMC device with byte addresses, whose size stands in its CSD alone.
fn mmc_by_bytes(wanted: &Wanted) -> Registers
    requires beside { IsMmcBeside 8388608 wanted.now }
    requires count { IsByteCount wanted.now.sectors }
    ensures wanted { HasWanted wanted.now result }
    ensures rca { HasFirstRca result.kind }
    ensures unlocked { result.is_locked ≡ false }
{
    let boot = (wanted.boot / 256) as u8;
    let gp = (wanted.gp / 1024) as u32;
    let block = ext_csd(0, boot, gp, wanted.high_speed);
    let blocks = blocks_of(wanted.sectors);
    let csd = csd_mmc(MMC_CLASSES, blocks, wanted.read_only);
    mmc_registers(MMC_VOLTAGES, csd, block)
}

// An eMMC device with sector addresses, whose C_SIZE is FFFh.
fn mmc_by_sectors(wanted: &Wanted) -> Registers
    requires beside { IsMmcBeside 4294967296 wanted.now }
    requires count { IsSectorCount Kind.Mmc wanted.now.sectors }
    ensures wanted { HasWanted wanted.now result }
    ensures rca { HasFirstRca result.kind }
    ensures unlocked { result.is_locked ≡ false }
{
    let boot = (wanted.boot / 256) as u8;
    let gp = (wanted.gp / 1024) as u32;
    let block = ext_csd(wanted.sectors as u32, boot, gp, wanted.high_speed);
    let blocks = Blocks {
        read_bl_len: 9,
        c_size: 0xfff,
        c_size_mult: 7,
    };
    let csd = csd_mmc(MMC_CLASSES, blocks, wanted.read_only);
    mmc_registers(MMC_VOLTAGES + SECTOR_ADDRESSES, csd, block)
}

// The registers of a card whose sizes were judged.
fn registers(wanted: &Wanted) -> Registers
    requires beside { TakesPartitions wanted.now.kind wanted.now }
    requires count { IsCount wanted.now.kind wanted.now.sectors }
    ensures wanted { HasWanted wanted.now result }
    ensures rca { HasFirstRca result.kind }
    ensures unlocked { result.is_locked ≡ false }
{
    if wanted.sectors <= MOST_BY_BYTES {
        match wanted.kind {
            Kind::Sd => sd_by_bytes(wanted),
            Kind::Mmc => mmc_by_bytes(wanted),
        }
    } else {
        match wanted.kind {
            Kind::Sd => sd_by_sectors(wanted),
            Kind::Mmc => mmc_by_sectors(wanted),
        }
    }
}

// The largest general purpose partition whose last address fits a command.
fn most_gp(sectors: u64) -> u64
    ensures { result ≡ addressable_sectors (addressing_by sectors) }
{
    if sectors > MOST_BY_BYTES {
        1 << 32
    } else {
        1 << 23
    }
}

// Judges the partitions beside the user partition.
fn judge_partitions(wanted: &Wanted) -> Result<(), MakeFault>
    ensures ok { OnOk result (TakesPartitions wanted.now.kind wanted.now) }
    ensures err { IfErr result (λ fault. IsMakeFault wanted.now fault) }
{
    match wanted.kind {
        Kind::Sd => {
            if wanted.boot != 0 || wanted.gp != 0 {
                return Err(MakeFault::OfMmcAlone);
            }
        }
        Kind::Mmc => {
            if wanted.boot % 256 != 0 || wanted.boot > 65_280 {
                return Err(MakeFault::BootSize);
            }
            let most = most_gp(wanted.sectors);
            if wanted.gp % 1024 != 0 || wanted.gp > most {
                return Err(MakeFault::GpSize { most });
            }
        }
    }
    Ok(())
}

// Judges the user partition.
fn judge_user(wanted: &Wanted) -> Result<(), MakeFault>
    ensures ok { OnOk result (IsCount wanted.now.kind wanted.now.sectors) }
    ensures err { IfErr result (λ fault. IsMakeFault wanted.now fault) }
{
    judge_size(wanted.kind, wanted.sectors)
}

// A card that does nothing but what its registers say.
fn plain(registers: Registers, sectors: u64) -> CardSpec
    requires rca { HasFirstRca registers.kind }
    requires unlocked { registers.is_locked ≡ false }
    ensures registers { result.registers ≡ registers }
    ensures sectors { result.sectors ≡ sectors }
    ensures plain { IsPlain result }
{
    CardSpec {
        registers,
        sectors,
        ready: 0,
        busy: 0,
        early: None,
        keeps_length: true,
        refusal: None,
        stays_busy: false,
        lagging: 0,
        late: 0,
        goes_on: false,
        shows_app_cmd: false,
        ages: false,
        image: None,
    }
}

/// The card that is wanted, with the checks of its registers. It can be built in memory where all its partitions together
/// have at most 65,536 sectors.
///
/// # Errors
/// The first that holds: `OfMmcAlone`, `BootSize` or `GpSize` by the partitions beside the user partition; `TooSmall`,
/// `TooLarge` or `NotASize` where no card of this kind has a user partition of the wanted size, with the next sizes.
pub fn card_by(wanted: &Wanted) -> Result<CardSpec, MakeFault>
    ensures made { IfOk result (λ spec. IsAsWanted wanted.now spec) }
    ensures can_be_built { IfOk result
        (λ spec. total (sizes_of spec.registers) ≤ MAX_SECTORS → refusal_of spec ≡ None) }
    ensures refused { IfErr result (λ fault. IsMakeFault wanted.now fault) }
{
    judge_partitions(wanted)?;
    judge_user(wanted)?;
    Ok(plain(registers(wanted), wanted.sectors))
}
