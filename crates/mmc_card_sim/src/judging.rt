// What is judged of a spec before a card is built.
ghost use Rattle.std.specs.Prelude.{false, true, ◌≡◌, ◌≤◌, ◌*◌, ◌<◌, ◌^◌, IfErr, IfNone, IfOk, IfSome, None, OnOk};
ghost use Rattle.std.specs.Prelude.{length, slice_index_or};
ghost use Rattle.mmc_frame.specs.Flips.{AreBytes};
ghost use Rattle.mmc_regs.specs.Csd.{IsOfKind};
ghost use Rattle.mmc_regs.specs.CsdFields.{read_bl_len};
ghost use Rattle.mmc_regs.specs.Register.{register_number};
ghost use Rattle.mmc_card.specs.Card.{patience};
ghost use Rattle.mmc_card.specs.Made.{HasRegisters, erase_unit_of_card, is_read_only, named_block_length, sectors_in};
ghost use Rattle.mmc_card.specs.Sectors.{part_number};
ghost use Rattle.mmc_card.specs.declared.part.Part.{Part};
ghost use Rattle.mmc_card_sim.specs.CardSpec.{HasWidths, IsCsdOf, IsRefusalWithin, each_register_is_taken, has_ocr};
ghost use Rattle.mmc_card_sim.specs.CardSpec.{has_early_bits, has_short_waits, has_user_sectors, kind_is_taken};
ghost use Rattle.mmc_card_sim.specs.CardSpec.{refusal_within, sizes_of, takes_image_within};
ghost use Rattle.mmc_card_rows.specs.Registers.{made_of};
ghost use Rattle.mmc_card_rows.specs.Sizes.{total};
ghost use Rattle.mmc_card_rows.specs.declared.store.TheConstants.{MAX_LARGE};

use crate::spec::{BuildFault, CardSpec};
use byteorder::{BigEndian, ByteOrder};
use mmc_bus::Bytes;
use mmc_card_rows::{KindRegisters, PATIENCE, Registers};
use mmc_ext_csd::ExtCsd;
use mmc_regs::{Csd, Ocr, read_cid, read_csd};

/// What the registers of a spec come to.
#[derive(Clone, Copy, Debug, PartialEq, Eq)]
pub struct Judged {
    /// The seven partitions' sizes in sectors, in the order of `Part`, at most `MAX_LARGE` together.
    pub sizes: [usize; 7],
    /// The erase unit in sectors, 1 to 2^20.
    pub erase_unit: usize,
    /// Whether the CSD says that the card is write protected, for good or for now.
    pub is_read_only: bool,
    /// The block length that they name in bytes, 1 to 2^15.
    pub named_length: u32,
}

/// What the registers of a spec come to, where no rule refuses it, for a card of at most `limit` sectors.
///
/// # Errors
/// The first that holds: `Register` or `ImageSize`, as said there; never `NoMemory`.
pub fn judge(spec: &CardSpec, limit: usize) -> Result<Judged, BuildFault>
    requires { limit ≤ MAX_LARGE }
    ensures refused { IfErr result (λ why. IsRefusalWithin limit spec.now why) }
    ensures taken { OnOk result (refusal_within limit spec.now ≡ None) }
    ensures soon_ready { OnOk result (spec.now.ready ≤ patience) }
    ensures soon_rested { OnOk result (spec.now.busy ≤ patience) }
    ensures few { IfOk result (λ judged. total judged.sizes ≤ MAX_LARGE) }
    ensures image { IfOk result (λ judged. IfSome spec.now.image (λ bytes. length bytes ≡ 512 * total judged.sizes)) }
    ensures image_bytes { OnOk result (IfSome spec.now.image AreBytes) }
    ensures exist { IfOk result (λ judged. (part : Part)
        → slice_index_or judged.sizes (part_number part) 0 ≡ sectors_in (made_of spec.now.registers) part) }
    ensures sizes { IfOk result (λ judged. judged.sizes ≡ sizes_of spec.now.registers) }
    ensures unit { IfOk result (λ judged. judged.erase_unit ≡ erase_unit_of_card (made_of spec.now.registers)) }
    ensures some_unit { IfOk result (λ judged. 1 ≤ judged.erase_unit) }
    ensures small_unit { IfOk result (λ judged. judged.erase_unit ≤ 2 ^ 20) }
    ensures protected { IfOk result (λ judged. judged.is_read_only ≡ is_read_only (made_of spec.now.registers)) }
    ensures named_length { IfOk result
        (λ judged. judged.named_length ≡ named_block_length (made_of spec.now.registers)) }
    ensures registers { OnOk result (HasRegisters (made_of spec.now.registers)) }
{
    let registers = &spec.registers;
    let csd = read_registers(registers)?;
    let sizes = sizes_by(registers, &csd);
    if !has_short_waits(spec)
        || !has_early_bits(spec.early)
        || !has_user_sectors(sizes[0], spec.sectors)
    {
        return Err(BuildFault::Register);
    }
    if !takes_image(&sizes, &spec.image, limit) {
        return Err(BuildFault::ImageSize);
    }
    tell_image(&spec.image);
    Ok(Judged {
        sizes,
        erase_unit: erase_unit(registers, &csd),
        is_read_only: csd.read_only(),
        named_length: named_length(registers),
    })
}

// The CSD of a card whose registers are taken.
fn read_registers(registers: &Registers) -> Result<Csd, BuildFault>
    ensures refused { IfErr result (λ why. why ≡ BuildFault.Register) }
    ensures not_taken { IfErr result (λ why. each_register_is_taken registers.now ≡ false) }
    ensures taken { OnOk result (each_register_is_taken registers.now ≡ true) }
    ensures csd { IfOk result (λ csd. IsCsdOf registers.now csd) }
    ensures of_kind { IfOk result (λ csd. IsOfKind (made_of registers.now).kind csd) }
    ensures registers { OnOk result (HasRegisters (made_of registers.now)) }
{
    let Ok(_) = read_cid(&registers.cid) else {
        return Err(BuildFault::Register);
    };
    let Ok(csd) = read_csd(registers.kind(), &registers.csd) else {
        return Err(BuildFault::Register);
    };
    if !has_ocr(registers.ocr) || !kind_is_taken(&registers.kind, registers.ocr) {
        return Err(BuildFault::Register);
    }
    tell_widths(registers);
    Ok(csd)
}

// It does nothing, and its contract says what the types of the fields say.
fn tell_widths(registers: &Registers)
    ensures { HasWidths registers.now }
{
    let _ocr = registers.ocr;
    tell_bytes(&registers.cid);
    tell_bytes(&registers.csd);
    match &registers.kind {
        KindRegisters::Sd(sd) => tell_bytes(&sd.scr),
        KindRegisters::Mmc(mmc) => tell_bytes(&mmc.ext_csd),
    }
}

fn tell_bytes(bytes: &[u8])
    ensures { AreBytes bytes.now }
{}

fn tell_image(image: &Option<Bytes>)
    ensures { IfSome image.now AreBytes }
{
    if let Some(bytes) = image {
        tell_bytes(bytes.as_slice());
    }
}

fn has_ocr(ocr: u32) -> bool
    ensures { result ≡ has_ocr ocr }
{
    let ocr = Ocr::new(ocr);
    ocr.accepts_3_3_volts() && !ocr.is_ready()
}

fn kind_is_taken(kind: &KindRegisters, ocr: u32) -> bool
    ensures { result ≡ kind_is_taken kind.now ocr }
{
    match kind {
        KindRegisters::Sd(sd) => sd.rca != 0,
        KindRegisters::Mmc(mmc) => {
            let mode = Ocr::new(ocr).access_mode();
            (mode == 0 || mode == 2) && ExtCsd::new(&mmc.ext_csd).erase_unit() != 0
        }
    }
}

fn has_short_waits(spec: &CardSpec) -> bool
    ensures { result ≡ has_short_waits spec.now }
{
    spec.ready <= PATIENCE && spec.busy <= PATIENCE
}

fn has_early_bits(early: Option<u8>) -> bool
    ensures { result ≡ has_early_bits early }
{
    early.is_none_or(|early| early <= 3)
}

fn has_user_sectors(user: usize, wanted: u64) -> bool
    ensures { result ≡ has_user_sectors user wanted }
{
    user != 0 && user as u64 == wanted
}

// The partitions' sizes by the registers, among them this CSD.
fn sizes_by(registers: &Registers, csd: &Csd) -> [usize; 7]
    requires { IsCsdOf registers.now csd.now }
    ensures { result ≡ sizes_of registers.now }
{
    match registers.kind {
        KindRegisters::Sd(_) => [csd.sectors() as usize, 0, 0, 0, 0, 0, 0],
        KindRegisters::Mmc(mmc) => {
            let ext_csd = ExtCsd::new(&mmc.ext_csd);
            let user = if registers.has_sector_addresses() {
                ext_csd.sectors()
            } else {
                csd.sectors()
            };
            let boot = ext_csd.boot_sectors() as usize;
            [
                user as usize,
                boot,
                boot,
                ext_csd.gp_sectors(1) as usize,
                ext_csd.gp_sectors(2) as usize,
                ext_csd.gp_sectors(3) as usize,
                ext_csd.gp_sectors(4) as usize,
            ]
        }
    }
}

// The sum of these sizes, where it is at most `limit`.
fn total(sizes: &[usize; 7], limit: usize) -> Option<usize>
    ensures large { IfNone result (limit < total sizes.now) }
    ensures sum { IfSome result (λ sum. sum ≡ total sizes.now) }
    ensures small { IfSome result (λ sum. sum ≤ limit) }
{
    let mut sum = 0;
    for size in sizes {
        if *size > limit - sum {
            return None;
        }
        sum += *size;
    }
    Some(sum)
}

fn takes_image(sizes: &[usize; 7], image: &Option<Bytes>, limit: usize) -> bool
    requires { limit ≤ MAX_LARGE }
    ensures { result ≡ takes_image_within limit sizes.now image.now }
{
    let Some(sectors) = total(sizes, limit) else {
        return false;
    };
    match image {
        None => true,
        Some(bytes) => bytes.as_slice().len() == 512 * sectors,
    }
}

fn erase_unit(registers: &Registers, csd: &Csd) -> usize
    requires csd { IsCsdOf registers.now csd.now }
    requires of_kind { IsOfKind (made_of registers.now).kind csd.now }
    requires taken { each_register_is_taken registers.now ≡ true }
    requires registers { HasRegisters (made_of registers.now) }
    ensures unit { result ≡ erase_unit_of_card (made_of registers.now) }
    ensures some { 1 ≤ result }
    ensures small { result ≤ 2 ^ 20 }
{
    match registers.kind {
        KindRegisters::Sd(_) => csd.erase_unit() as usize,
        KindRegisters::Mmc(mmc) => ExtCsd::new(&mmc.ext_csd).erase_unit() as usize,
    }
}

// READ_BL_LEN, which stands in the same place in every version of the CSD.
fn read_bl_len(csd: &[u8; 16]) -> u8
    ensures { result ≡ read_bl_len (register_number csd.now) }
{
    ((BigEndian::read_u128(csd) >> 80) % 16) as u8
}

// The block length that the registers name, in bytes.
fn named_length(registers: &Registers) -> u32
    ensures { result ≡ named_block_length (made_of registers.now) }
{
    if registers.has_sector_addresses() {
        512
    } else {
        1 << read_bl_len(&registers.csd)
    }
}
