// Why a card isn't opened, by what its card file says of it. Opening meets the reasons in this order: the voltage window and
// readiness, the lock, and then what the registers say (`mmc_identify` and `mmc_switch`).
ghost use Rattle.std.specs.Prelude.{◌≡◌, ◌≤◌, ◌⊎◌, IfNone, IfSome, IsNone, true};
ghost use Rattle.mmc_frame.specs.declared.kind.Kind.TheVariants.{Mmc, Sd};
ghost use Rattle.mmc_regs.specs.Csd.{has_block_length};
ghost use Rattle.mmc_regs.specs.CsdFields.{csd_structure, read_bl_len, write_bl_len};
ghost use Rattle.mmc_regs.specs.Ocr.{access_mode, card_capacity_status, window_at_3_3_volts};
ghost use Rattle.mmc_regs.specs.Register.{register_number};
ghost use Rattle.mmc_ext_csd.specs.ExtCsd.{ext_csd_rev, hc_erase_grp_size, sec_count};
ghost use Rattle.mmc_card.specs.Profile.{InProfile, IsByteAddressed, IsHighCapacity, IsStandardCapacity, MmcInProfile};
ghost use Rattle.mmc_card_sim.specs.Registers.{made_of};
ghost use Rattle.card_check.specs.Unopened.{IsPlain, IsWhy};

use byteorder::{BigEndian, ByteOrder};
use mmc_card_sim::{KindRegisters, Registers};
use mmc_ext_csd::ExtCsd;
use mmc_regs::Ocr;

/// Why a card isn't opened. Where several hold, the one that opening meets first is named.
#[derive(Clone, Copy, Debug, PartialEq, Eq)]
pub enum Unopened {
    /// Bits 21 and 20 of this OCR, 3.2 to 3.4 V, aren't both 1 (SD Physical Layer 6.00, section 5.1; JESD84-B51, section 7.1).
    Window { ocr: u32 },
    /// The OCR of an SD card says sector addresses and the card doesn't know CMD8: no host tells it HCS, without which it is
    /// never ready (SD Physical Layer 6.00, section 4.2.3).
    NeverReady { ocr: u32 },
    /// The card is locked by a password, which CARD_IS_LOCKED says (SD Physical Layer 6.00, section 4.10.1; JESD84-B51,
    /// section 6.13).
    Locked,
    /// CSD_STRUCTURE of an SD card is 2 or 3 (SD Physical Layer 6.00, section 5.3.1).
    Structure { structure: u8 },
    /// READ_BL_LEN of a CSD version 1.0, or of an eMMC device with byte addresses, isn't from 9 to 11, 512 to 2,048 bytes (SD
    /// Physical Layer 6.00, section 5.3.2; JESD84-B51, section 7.3).
    ReadLength { read: u8 },
    /// Nor is WRITE_BL_LEN of a CSD version 1.0.
    WriteLength { write: u8 },
    /// The OCR says sector addresses, and the CSD of an SD card is version 1.0 (SD Physical Layer 6.00, section 5.3.1).
    SectorsByOcr { ocr: u32 },
    /// The OCR says byte addresses, and the CSD of an SD card is version 2.0 (SD Physical Layer 6.00, section 5.3.1).
    BytesByOcr { ocr: u32 },
    /// The access mode of an eMMC device is 1 or 3 (JESD84-B51, section 7.1).
    AccessMode { ocr: u32 },
    /// EXT_CSD_REV of an eMMC device is below 5 (JESD84-B51, section 7.4).
    Revision { revision: u8 },
    /// HC_ERASE_GRP_SIZE of an eMMC device is 0 (JESD84-B51, section 7.4).
    NoEraseUnit,
    /// SEC_COUNT of an eMMC device with sector addresses is 0 (JESD84-B51, section 7.4).
    NoSectors,
}

// CSD_STRUCTURE.
fn csd_structure(csd: &[u8; 16]) -> u8
    ensures { result ≡ csd_structure (register_number csd.now) }
{
    ((BigEndian::read_u128(csd) >> 126) % 4) as u8
}

// READ_BL_LEN.
fn read_bl_len(csd: &[u8; 16]) -> u8
    ensures { result ≡ read_bl_len (register_number csd.now) }
{
    ((BigEndian::read_u128(csd) >> 80) % 16) as u8
}

// WRITE_BL_LEN.
fn write_bl_len(csd: &[u8; 16]) -> u8
    ensures { result ≡ write_bl_len (register_number csd.now) }
{
    ((BigEndian::read_u128(csd) >> 22) % 16) as u8
}

// Whether blocks of 2 to the power of this are of 512, 1,024 or 2,048 bytes.
fn has_block_length(exponent: u8) -> bool
    ensures { result ≡ has_block_length exponent }
{
    9 <= exponent && exponent <= 11
}

// Why a card is never ready.
fn why_unready(registers: &Registers) -> Option<Unopened>
    ensures why { IfSome result (IsWhy (made_of registers.now)) }
    ensures window { IfNone result (window_at_3_3_volts registers.now.ocr ≡ 3) }
    ensures told { IfNone result ((made_of registers.now).kind ≡ Sd → card_capacity_status registers.now.ocr ≡ 1
        → (made_of registers.now).answers_cmd8 ≡ true) }
{
    let ocr = registers.ocr;
    if !Ocr::new(ocr).accepts_3_3_volts() {
        return Some(Unopened::Window { ocr });
    }
    match registers.kind {
        KindRegisters::Sd(sd) if Ocr::new(ocr).has_sector_addresses() && !sd.answers_cmd8 => {
            Some(Unopened::NeverReady { ocr })
        }
        _ => None,
    }
}

// Why an SD card with a CSD version 1.0 isn't opened.
fn why_unfit_v1(registers: &Registers) -> Option<Unopened>
    requires sd { (made_of registers.now).kind ≡ Sd }
    requires version { csd_structure (register_number registers.now.csd) ≡ 0 }
    ensures why { IfSome result (IsWhy (made_of registers.now)) }
    ensures fit { IfNone result (IsStandardCapacity (made_of registers.now)) }
{
    let (read, write) = (read_bl_len(&registers.csd), write_bl_len(&registers.csd));
    let ocr = registers.ocr;
    if !has_block_length(read) {
        Some(Unopened::ReadLength { read })
    } else if !has_block_length(write) {
        Some(Unopened::WriteLength { write })
    } else if Ocr::new(ocr).has_sector_addresses() {
        Some(Unopened::SectorsByOcr { ocr })
    } else {
        None
    }
}

// Why an SD card isn't opened that gets ready and isn't locked.
fn why_unfit_sd(registers: &Registers) -> Option<Unopened>
    requires sd { (made_of registers.now).kind ≡ Sd }
    requires told { card_capacity_status registers.now.ocr ≡ 1 → (made_of registers.now).answers_cmd8 ≡ true }
    ensures why { IfSome result (IsWhy (made_of registers.now)) }
    ensures fit { IfNone result (IsStandardCapacity (made_of registers.now) ⊎ IsHighCapacity (made_of registers.now)) }
{
    let ocr = registers.ocr;
    match csd_structure(&registers.csd) {
        0 => why_unfit_v1(registers),
        1 if Ocr::new(ocr).has_sector_addresses() => None,
        1 => Some(Unopened::BytesByOcr { ocr }),
        structure => Some(Unopened::Structure { structure }),
    }
}

// Why the addresses of an eMMC device aren't taken.
fn why_unaddressed(registers: &Registers) -> Option<Unopened>
    requires mmc { (made_of registers.now).kind ≡ Mmc }
    ensures why { IfSome result (IsWhy (made_of registers.now)) }
    ensures fit { IfNone result (IsByteAddressed (made_of registers.now) ⊎ (access_mode registers.now.ocr ≡ 2)) }
{
    let ocr = registers.ocr;
    let read = read_bl_len(&registers.csd);
    match Ocr::new(ocr).access_mode() {
        0 if has_block_length(read) => None,
        0 => Some(Unopened::ReadLength { read }),
        2 => None,
        _ => Some(Unopened::AccessMode { ocr }),
    }
}

// Why the EXT_CSD isn't taken.
fn why_ext_csd(registers: &Registers, block: &[u8; 512]) -> Option<Unopened>
    requires mmc { (made_of registers.now).kind ≡ Mmc }
    requires its { (made_of registers.now).ext_csd ≡ block.now }
    ensures why { IfSome result (IsWhy (made_of registers.now)) }
    ensures revision { IfNone result (5 ≤ ext_csd_rev block.now) }
    ensures erase_group { IfNone result (hc_erase_grp_size block.now ≡ 0 → ⊥) }
    ensures counted { IfNone result (access_mode registers.now.ocr ≡ 2 → sec_count block.now ≡ 0 → ⊥) }
{
    let revision = block[192];
    if revision < 5 {
        Some(Unopened::Revision { revision })
    } else if block[224] == 0 {
        Some(Unopened::NoEraseUnit)
    } else if Ocr::new(registers.ocr).access_mode() == 2 && ExtCsd::new(block).sectors() == 0 {
        Some(Unopened::NoSectors)
    } else {
        None
    }
}

// Why an eMMC device isn't opened that gets ready and isn't locked.
#[tactic(auto, using(crate::proofs::UnopenedLemmas::mmc_in_profile))]
fn why_unfit_mmc(registers: &Registers, block: &[u8; 512]) -> Option<Unopened>
    requires mmc { (made_of registers.now).kind ≡ Mmc }
    requires its { (made_of registers.now).ext_csd ≡ block.now }
    ensures why { IfSome result (IsWhy (made_of registers.now)) }
    ensures fit { IfNone result (IsPlain (made_of registers.now) → MmcInProfile (made_of registers.now)) }
{
    match why_unaddressed(registers) {
        Some(why) => Some(why),
        None => why_ext_csd(registers, block),
    }
}

/// Why a card of these registers isn't opened, where it isn't. It names what never changes of the card; a fault that is planned
/// may keep a card from being opened too.
#[tactic(auto, using(crate::proofs::UnopenedLemmas::out_of_profile, crate::proofs::UnopenedLemmas::sd_within, crate::proofs::UnopenedLemmas::mmc_within))]
pub fn why_unopened(registers: &Registers) -> Option<Unopened>
    ensures why { IfSome result (IsWhy (made_of registers.now)) }
    ensures outside { IfSome result (λ why. InProfile (made_of registers.now) → ⊥) }
    ensures within { IfNone result (IsPlain (made_of registers.now) → InProfile (made_of registers.now)) }
{
    if let Some(why) = why_unready(registers) {
        return Some(why);
    }
    if registers.is_locked {
        return Some(Unopened::Locked);
    }
    match &registers.kind {
        KindRegisters::Sd(_) => why_unfit_sd(registers),
        KindRegisters::Mmc(mmc) => why_unfit_mmc(registers, &mmc.ext_csd),
    }
}
