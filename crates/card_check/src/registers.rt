// Whatever contradicts in the registers of a card.
ghost use Rattle.std.specs.Prelude.{◌≡◌, ◌≤◌, IfOk, IfSome, None, [], is_none, is_some, true};
ghost use Rattle.mmc_card_sim.specs.CardSpec.{has_access_mode, has_early_bits, has_erase_unit, has_no_ready_bit, has_short_waits};
ghost use Rattle.mmc_card_sim.specs.CardSpec.{has_user_sectors, refusal_within, sizes_of, works_at_3_3_volts};
ghost use Rattle.mmc_card_rows.specs.Sizes.{total};
ghost use Rattle.mmc_card_rows.specs.declared.store.TheConstants.{MAX_LARGE};
ghost use Rattle.mmc_card_sim.specs.Registers.{kind_of};
ghost use Rattle.mmc_regs.specs.Csd.{csd_in};
ghost use Rattle.text_out.specs.Writing.{Writes};
ghost use Rattle.card_check.specs.Registers.{check_text, contradictions, csd_text, is_checked, kind_text, line_text, mmc_text, ocr_text};
ghost use Rattle.card_check.specs.Registers.{last_text, registers_text, right_check, right_text, sectors_line, sectors_text, sectors_told, teller_words, unless};
ghost use Rattle.card_check.specs.WrongLines.{Prints};

use crate::fault::CheckFault;
use mmc_card_sim::{BuildFault, CardSpec, KindRegisters, MAX_LARGE, Registers, judge};
use mmc_ext_csd::ExtCsd;
use mmc_frame::{check_fits, with_check};
use mmc_regs::{Ocr, RegFault, read_csd};
use std::io::{self, Write};
use text_out::{Piece, put_pieces};

// Whether the check of a CID or CSD fits, and its end bit is 1.
fn is_checked(register: &[u8; 16]) -> bool
    ensures { result ≡ is_checked register.now }
{
    check_fits(register) && register[15] % 2 == 1
}

// The last byte that fits a CID or CSD.
fn right_check(register: &[u8; 16]) -> u8
    ensures { result ≡ right_check register.now }
{
    let mut front = [0; 15];
    front.copy_from_slice(&register[..15]);
    with_check(&front)[15]
}

// The last byte of a CID or CSD.
#[tactic(auto, unfolding(crate::specs::Registers::last_text))]
fn put_last<W: Write>(out: &mut W, name: &'static [u8], register: &[u8; 16]) -> io::Result<()>
    ensures { Writes (W.contents out.old) (W.contents out.new) result (last_text name.now register.now) }
{
    let last = [register[15]];
    put_pieces(
        out,
        &[
            Piece::Text(b"card: the last byte of the "),
            Piece::Text(name),
            Piece::Text(b" is "),
            Piece::Hex(&last),
        ],
    )
}

// And the one that fits.
fn put_right<W: Write>(out: &mut W, register: &[u8; 16]) -> io::Result<()>
    ensures { Writes (W.contents out.old) (W.contents out.new) result (right_text register.now) }
{
    let right = [right_check(register)];
    put_pieces(
        out,
        &[
            Piece::Text(b", but its check and end bit are "),
            Piece::Hex(&right),
            Piece::Text(b"\n"),
        ],
    )
}

// The check of a CID or CSD, where it doesn't fit.
fn put_check<W: Write>(out: &mut W, name: &'static [u8], register: &[u8; 16]) -> io::Result<()>
    ensures { Writes (W.contents out.old) (W.contents out.new) result (check_text name.now register.now) }
{
    if is_checked(register) {
        return Ok(());
    }
    put_last(out, name, register)?;
    put_right(out, register)
}

// A line that says one thing.
fn put_line<W: Write>(out: &mut W, line: &'static [u8]) -> io::Result<()>
    ensures { Writes (W.contents out.old) (W.contents out.new) result (line_text line.now) }
{
    put_pieces(
        out,
        &[
            Piece::Text(b"card: "),
            Piece::Text(line),
            Piece::Text(b"\n"),
        ],
    )
}

// Such a line, where what it asks for isn't so.
fn put_unless<W: Write>(out: &mut W, is_so: bool, line: &'static [u8]) -> io::Result<()>
    ensures { Writes (W.contents out.old) (W.contents out.new) result (unless is_so (line_text line.now)) }
{
    if is_so {
        return Ok(());
    }
    put_line(out, line)
}

// The fields of a CSD whose check fits.
fn put_csd<W: Write>(out: &mut W, registers: &Registers) -> io::Result<()>
    ensures { Writes (W.contents out.old) (W.contents out.new) result
        (csd_text (csd_in (kind_of registers.now.kind) registers.now.csd)) }
{
    match read_csd(registers.kind(), &registers.csd) {
        Err(RegFault::Structure) => put_line(
            out,
            b"CSD_STRUCTURE, bits 127 and 126 of the CSD, has to be 0 or 1 of an SD card",
        ),
        Err(RegFault::Range) => put_line(
            out,
            b"READ_BL_LEN and WRITE_BL_LEN, bits 83 to 80 and 25 to 22 of the CSD, have to be from 9 to 11",
        ),
        Err(RegFault::Check) | Ok(_) => Ok(()),
    }
}

// Whether an OCR has the voltage window from 3.2 to 3.4 V.
fn works_at_3_3_volts(ocr: u32) -> bool
    ensures { result ≡ works_at_3_3_volts ocr }
{
    Ocr::new(ocr).accepts_3_3_volts()
}

// Whether it has no bit 31.
fn has_no_ready_bit(ocr: u32) -> bool
    ensures { result ≡ has_no_ready_bit ocr }
{
    !Ocr::new(ocr).is_ready()
}

// The OCR.
fn put_ocr<W: Write>(out: &mut W, ocr: u32) -> io::Result<()>
    ensures { Writes (W.contents out.old) (W.contents out.new) result (ocr_text ocr) }
{
    put_unless(
        out,
        works_at_3_3_volts(ocr),
        b"bits 21 and 20 of the OCR, 3.2 to 3.4 V, have to be 1",
    )?;
    put_unless(
        out,
        has_no_ready_bit(ocr),
        b"bit 31 of the OCR has to be 0: it is the card that sets it once it is ready",
    )
}

// Whether an eMMC device is addressed by sectors or by bytes.
fn has_access_mode(ocr: u32) -> bool
    ensures { result ≡ has_access_mode ocr }
{
    let mode = Ocr::new(ocr).access_mode();
    mode == 0 || mode == 2
}

// Whether it has an erase unit.
fn has_erase_unit(ext_csd: &[u8; 512]) -> bool
    ensures { result ≡ has_erase_unit ext_csd.now }
{
    ExtCsd::new(ext_csd).erase_unit() != 0
}

// The access mode and the erase unit of an eMMC device.
fn put_mmc<W: Write>(out: &mut W, ext_csd: &[u8; 512], ocr: u32) -> io::Result<()>
    ensures { Writes (W.contents out.old) (W.contents out.new) result (mmc_text ext_csd.now ocr) }
{
    put_unless(
        out,
        has_access_mode(ocr),
        b"bits 30 and 29 of the OCR have to be 2 for sector addresses, or 0 for byte addresses",
    )?;
    put_unless(
        out,
        has_erase_unit(ext_csd),
        b"byte 224 of the EXT_CSD, HC_ERASE_GRP_SIZE, has to be above 0 (ext 224)",
    )
}

// What a card has by its kind.
fn put_kind<W: Write>(out: &mut W, registers: &Registers) -> io::Result<()>
    ensures { Writes (W.contents out.old) (W.contents out.new) result (kind_text registers.now.kind registers.now.ocr) }
{
    match registers.kind {
        KindRegisters::Sd(sd) => put_unless(out, sd.rca != 0, b"rca has to be above 0"),
        KindRegisters::Mmc(mmc) => put_mmc(out, &mmc.ext_csd, registers.ocr),
    }
}

// How many sectors the registers give the user partition.
fn sectors_told(registers: &Registers) -> Option<u64>
    ensures { result ≡ sectors_told registers.now }
{
    match registers.kind {
        KindRegisters::Mmc(mmc) if registers.has_sector_addresses() => {
            Some(ExtCsd::new(&mmc.ext_csd).sectors())
        }
        _ => match read_csd(registers.kind(), &registers.csd) {
            Ok(csd) => Some(csd.sectors()),
            Err(_) => None,
        },
    }
}

// Which of them says so.
fn teller_words(registers: &Registers) -> &'static [u8]
    ensures { result.now ≡ teller_words registers.now }
{
    match registers.kind {
        KindRegisters::Mmc(_) if registers.has_sector_addresses() => {
            b"bytes 212 to 215 of the EXT_CSD say "
        }
        _ => b"the CSD says ",
    }
}

// Whether the user partition has sectors, and as many as are wanted.
fn has_user_sectors(sectors: u64, wanted: u64) -> bool
    ensures { result ≡ has_user_sectors sectors wanted }
{
    sectors != 0 && sectors == wanted
}

// That it has others.
fn put_other_sectors<W: Write>(out: &mut W, spec: &CardSpec, sectors: u64) -> io::Result<()>
    ensures { Writes (W.contents out.old) (W.contents out.new) result
        (sectors_line spec.now.sectors (teller_words spec.now.registers) sectors) }
{
    let teller = teller_words(&spec.registers);
    put_pieces(
        out,
        &[
            Piece::Text(b"card: sectors is "),
            Piece::Number(spec.sectors),
            Piece::Text(b", but "),
            Piece::Text(teller),
            Piece::Number(sectors),
            Piece::Text(b"\n"),
        ],
    )
}

// The size of the user partition, where the registers tell it.
fn put_sectors<W: Write>(out: &mut W, spec: &CardSpec) -> io::Result<()>
    ensures { Writes (W.contents out.old) (W.contents out.new) result (sectors_text spec.now) }
{
    match sectors_told(&spec.registers) {
        Some(sectors) if !has_user_sectors(sectors, spec.sectors) => {
            put_other_sectors(out, spec, sectors)
        }
        _ => Ok(()),
    }
}

// Each register for itself, and what they say of each other.
fn put_registers<W: Write>(out: &mut W, spec: &CardSpec) -> io::Result<()>
    ensures { Writes (W.contents out.old) (W.contents out.new) result (registers_text spec.now) }
{
    let registers = &spec.registers;
    put_check(out, b"CID", &registers.cid)?;
    put_check(out, b"CSD", &registers.csd)?;
    put_csd(out, registers)?;
    put_ocr(out, registers.ocr)?;
    put_kind(out, registers)?;
    put_sectors(out, spec)
}

// The sum of these sizes.
fn total(sizes: &[usize; 7]) -> usize
    requires { total sizes.now ≤ MAX_LARGE }
    ensures { result ≡ total sizes.now }
{
    let mut sum = 0;
    for size in sizes {
        sum += *size;
    }
    sum
}

/// Writes a line for each contradiction in the registers of a card, where no card is built by them, be it as large as `nbd` serves
/// one. Otherwise it gives the number of sectors that all partitions have together, at most `MAX_LARGE`.
///
/// # Errors
/// `Write` where a write failed, and a front of the lines went out then. `NoMemory` doesn't come.
#[tactic(auto, using(crate::proofs::RegisterLemmas::silent, crate::proofs::RegisterLemmas::spoken))]
pub fn check_registers<W: Write>(spec: &CardSpec, out: &mut W) -> Result<Option<usize>, CheckFault>
    ensures taken { IfOk result (λ checked. is_some checked ≡ is_none (refusal_within MAX_LARGE spec.now)) }
    ensures sectors { IfOk result (λ checked. IfSome checked (λ sectors. sectors ≡ total (sizes_of spec.now.registers))) }
    ensures few { IfOk result (λ checked. IfSome checked (λ sectors. sectors ≤ MAX_LARGE)) }
    ensures said { Prints (W.contents out.old) (W.contents out.new) result (contradictions spec.now) }

    // Nothing is said of a card that is built. Of one that isn't something is, unless it is one of its delays or its early bits
    // that is refused, which aren't registers.
    ensures silent { refusal_within MAX_LARGE spec.now ≡ None → contradictions spec.now ≡ [] }
    ensures spoken { has_short_waits spec.now ≡ true → has_early_bits spec.now.early ≡ true → contradictions spec.now ≡ []
        → refusal_within MAX_LARGE spec.now ≡ None }
{
    put_registers(out, spec)?;
    match judge(spec, MAX_LARGE) {
        Ok(judged) => Ok(Some(total(&judged.sizes))),
        Err(BuildFault::Register) => Ok(None),
        Err(BuildFault::ImageSize) => {
            put_line(
                out,
                b"the partitions have more than 4194304 sectors together",
            )?;
            Ok(None)
        }
        Err(BuildFault::NoMemory) => Err(CheckFault::NoMemory),
    }
}
