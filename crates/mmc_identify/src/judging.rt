// What the host makes of what it heard.
//
// 1. Error bits aren't judged before the closing status; CARD_IS_LOCKED is in CMD7's response and in the closing status.
// 2. The voltage is judged at CMD8's response and at each OCR, unless its window is empty and the card isn't ready yet; an RCA
//    where it is published.
// 3. CID, CSD and addressing are judged when the card is in tran.
ghost use Rattle.std.specs.Prelude.{◌≡◌, Err, IfOk, Ok, ℕ};
ghost use Rattle.mmc_frame.specs.Field.{field};
ghost use Rattle.mmc_frame.specs.Status.{IsAtWork, IsClean, own_status};
ghost use Rattle.mmc_bus.specs.declared.host.Unheard.{Unheard};
ghost use Rattle.mmc_bus.specs.declared.status.Closing.TheVariants.{AtWork, Clean};
ghost use Rattle.mmc_identify.specs.declared.fault.IdentFault.TheVariants.{Locked, NoAnswer};
ghost use Rattle.mmc_identify.specs.Judged as judged;

use crate::fault::IdentFault;
use crate::found::Found;
use mmc_bus::{Closing, Unheard, check_closing};
use mmc_frame::{Addressing, Kind};
use mmc_regs::{Csd, Ocr, read_cid, read_csd};

/// CMD8: whether the card repeated voltage and pattern.
pub fn echoed(heard: Result<u32, Unheard>) -> Result<bool, IdentFault>
    ensures { result ≡ judged.echoed heard }
{
    match heard {
        Ok(told) => {
            if told % 0x1000 == 0x1aa {
                Ok(true)
            } else {
                Err(IdentFault::Voltage)
            }
        }
        Err(Unheard::Nothing) => Ok(false),
        Err(Unheard::Unsound) => Err(IdentFault::NoAnswer),
    }
}

/// CMD55: whether it was answered.
pub fn answered(heard: Result<u32, Unheard>) -> Result<bool, IdentFault>
    ensures { result ≡ judged.answered heard }
{
    match heard {
        Ok(_) => Ok(true),
        Err(Unheard::Nothing) => Ok(false),
        Err(Unheard::Unsound) => Err(IdentFault::NoAnswer),
    }
}

/// A readiness inquiry: the OCR of a card that is ready, which bit 31 says, or none yet (SD Physical Layer 6.00, section 5.1;
/// JESD84-B51, section 7.1). A card that isn't ready may leave its window, bits 23 to 0, empty.
///
/// # Errors
/// `NoAnswer` where no OCR was heard, and `Voltage` where the window lacks bit 21 or 20, 3.2 to 3.4 V.
pub fn inquired(heard: Result<u32, Unheard>) -> Result<Option<u32>, IdentFault>
    ensures { result ≡ judged.inquired heard }
{
    let ocr = heard.map_err(|_| IdentFault::NoAnswer)?;
    let is_ready = Ocr::new(ocr).is_ready();
    if !is_ready && ocr % 0x0100_0000 == 0 {
        return Ok(None);
    }
    if !Ocr::new(ocr).accepts_3_3_volts() {
        return Err(IdentFault::Voltage);
    }
    if is_ready { Ok(Some(ocr)) } else { Ok(None) }
}

/// CMD2 and CMD9: the register.
pub fn told_register(heard: Result<[u8; 16], Unheard>) -> Result<[u8; 16], IdentFault>
    ensures { result ≡ judged.told_register heard }
{
    heard.map_err(|_| IdentFault::NoAnswer)
}

/// CMD3 of SD: the RCA that is published, which isn't 0.
pub fn published(heard: Result<u32, Unheard>) -> Result<u16, IdentFault>
    ensures { result ≡ judged.published heard }
{
    let told = heard.map_err(|_| IdentFault::NoAnswer)?;
    let rca = (told / 0x1_0000) as u16;
    if rca == 0 {
        Err(IdentFault::Register)
    } else {
        Ok(rca)
    }
}

/// CMD3 of eMMC: the device has taken the RCA 1.
pub fn assigned(heard: Result<u32, Unheard>) -> Result<u16, IdentFault>
    ensures { result ≡ judged.assigned heard }
{
    match heard {
        Ok(_) => Ok(1),
        Err(_) => Err(IdentFault::NoAnswer),
    }
}

/// CMD7: whether the card is locked.
pub fn selected(heard: Result<u32, Unheard>) -> Result<(), IdentFault>
    ensures { result ≡ judged.selected heard }
{
    let status = heard.map_err(|_| IdentFault::NoAnswer)?;
    if status / 0x0200_0000 % 2 == 1 {
        Err(IdentFault::Locked)
    } else {
        Ok(())
    }
}

/// The closing CMD13: a clean status of a card that isn't locked, or one that shows it still at work, but for errors of an
/// earlier command.
pub fn confirmed(kind: Kind, heard: Result<u32, Unheard>) -> Result<Closing, IdentFault>
    ensures clean { result ≡ Ok Clean → (status : ℕ) × (heard ≡ Ok status) × IsClean kind (own_status status) }
    ensures at_work { result ≡ Ok AtWork → (status : ℕ) × (heard ≡ Ok status) × IsAtWork kind (own_status status) }
    ensures all_clean { (status : ℕ) → heard ≡ Ok status → field 25 25 status ≡ 0 → IsClean kind (own_status status)
        → result ≡ Ok Clean }
    ensures all_at_work { (status : ℕ) → heard ≡ Ok status → field 25 25 status ≡ 0
        → (IsClean kind (own_status status) → ⊥) → IsAtWork kind (own_status status) → result ≡ Ok AtWork }
    ensures locked { (status : ℕ) → heard ≡ Ok status → field 25 25 status ≡ 1 → result ≡ Err Locked }
    ensures unheard { (why : Unheard) → heard ≡ Err why → result ≡ Err NoAnswer }
{
    let status = heard.map_err(|_| IdentFault::NoAnswer)?;
    if status / 0x0200_0000 % 2 == 1 {
        return Err(IdentFault::Locked);
    }
    check_closing(kind, heard).map_err(|_| IdentFault::NoAnswer)
}

// The addressing of an SD card, which its CSD version has to confirm.
fn sd_addressing(ocr: Ocr, csd: &Csd) -> Result<Addressing, IdentFault>
    ensures { result ≡ judged.sd_addressing ocr csd.now }
{
    match (csd, ocr.has_sector_addresses()) {
        (Csd::V1(_), false) => Ok(Addressing::Bytes),
        (Csd::V2(_), true) => Ok(Addressing::Sectors),
        _ => Err(IdentFault::Mismatch),
    }
}

// The addressing of an eMMC device; of one that is addressed by bytes the block length of the CSD counts.
fn mmc_addressing(ocr: Ocr, csd: &Csd) -> Result<Addressing, IdentFault>
    ensures { result ≡ judged.mmc_addressing ocr csd.now }
{
    match ocr.access_mode() {
        0 if has_block_length(csd) => Ok(Addressing::Bytes),
        0 => Err(IdentFault::Register),
        2 => Ok(Addressing::Sectors),
        _ => Err(IdentFault::Mismatch),
    }
}

// Whether an eMMC device has blocks of 512, 1,024 or 2,048 bytes.
fn has_block_length(csd: &Csd) -> bool
    ensures { result ≡ judged.has_block_length_in csd.now }
{
    match csd {
        Csd::Mmc(csd) => {
            let length = csd.read_bl_len();
            9 <= length && length <= 11
        }
        _ => false,
    }
}

/// The registers, where their readers take them and the addressing is one.
pub fn found(
    kind: Kind,
    ocr: u32,
    rca: u16,
    cid: &[u8; 16],
    csd: &[u8; 16],
) -> Result<Found, IdentFault>
    ensures judged { result ≡ judged.found kind ocr rca cid.now csd.now }
    ensures kind { IfOk result (λ found. found.kind ≡ kind) }
{
    let cid = read_cid(cid).map_err(|_| IdentFault::Register)?;
    let csd = read_csd(kind, csd).map_err(|_| IdentFault::Register)?;
    let ocr = Ocr::new(ocr);
    let addressing = match kind {
        Kind::Sd => sd_addressing(ocr, &csd)?,
        Kind::Mmc => mmc_addressing(ocr, &csd)?,
    };
    Ok(Found {
        kind,
        addressing,
        rca,
        cid,
        csd,
    })
}
