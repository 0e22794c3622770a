// Writes what follows from a register as a whole.
ghost use Rattle.std.specs.Prelude.{◌≡◌, length};
ghost use Rattle.card_decode.specs.Registers.{number_of, register_len};
ghost use Rattle.card_decode.specs.Summaries.{card_size_text, csd_text, erase_unit_text, ext_csd_text, partitions_text, scr_text, size_text};
ghost use Rattle.card_decode.specs.Summaries.{summary_text, version_name, version_text};
ghost use Rattle.card_decode.specs.declared.register.Register.TheVariants.{Scr};
ghost use Rattle.text_out.specs.Writing.{Writes};

use crate::bits::bits;
use crate::capacity::put_capacity;
use crate::check::{fitting_register, put_check};
use crate::register::Register;
use mmc_ext_csd::ExtCsd;
use mmc_frame::Kind;
use mmc_regs::{Csd, read_csd};
use std::io::{self, Write};
use text_out::put::put;
use text_out::{Piece, put_pieces};

// Writes the erase unit.
fn put_erase_unit<W: Write>(out: &mut W, sectors: u64) -> io::Result<()>
    ensures { Writes (W.contents out.old) (W.contents out.new) result (erase_unit_text sectors) }
{
    put_pieces(
        out,
        &[
            Piece::Text(b"erase unit: "),
            Piece::Number(sectors),
            Piece::Text(b" sectors\n"),
        ],
    )
}

// Writes the size and the erase unit of an SD card.
fn put_card_size<W: Write>(out: &mut W, sectors: u64, erase_unit: u64) -> io::Result<()>
    ensures { Writes (W.contents out.old) (W.contents out.new) result (card_size_text sectors erase_unit) }
{
    put_capacity(out, sectors)?;
    put_erase_unit(out, erase_unit)
}

// Writes the size of a card, and of an SD card its erase unit.
#[tactic(auto, unfolding(crate::specs::Summaries::size_text))]
fn put_size<W: Write>(out: &mut W, csd: &Csd) -> io::Result<()>
    ensures { Writes (W.contents out.old) (W.contents out.new) result (size_text csd.now) }
{
    match csd {
        Csd::V1(_) => put_card_size(out, csd.sectors(), csd.erase_unit()),
        Csd::V2(_) => put_card_size(out, csd.sectors(), csd.erase_unit()),
        Csd::Mmc(_) => put_capacity(out, csd.sectors()),
    }
}

// Writes what a CSD says of the card's size, whatever its check.
#[tactic(auto, unfolding(crate::specs::Summaries::size_if))]
fn put_csd<W: Write>(out: &mut W, kind: Kind, bytes: &[u8]) -> io::Result<()>
    requires { length bytes.now ≡ 16 }
    ensures { Writes (W.contents out.old) (W.contents out.new) result (csd_text kind bytes.now) }
{
    match read_csd(kind, &fitting_register(bytes)) {
        Ok(csd) => put_size(out, &csd),
        Err(_) => put(out, b"capacity: not known\n"),
    }
}

// Writes the sizes of the other partitions in an EXT_CSD, and the erase unit.
#[tactic(auto, unfolding(crate::specs::Summaries::partitions_text))]
fn put_partitions<W: Write>(out: &mut W, ext_csd: &ExtCsd) -> io::Result<()>
    ensures { Writes (W.contents out.old) (W.contents out.new) result (partitions_text ext_csd.now) }
{
    put_pieces(
        out,
        &[
            Piece::Text(b"boot partitions 1 and 2: "),
            Piece::Number(ext_csd.boot_sectors()),
            Piece::Text(b" sectors each\ngeneral purpose partition 1: "),
            Piece::Number(ext_csd.gp_sectors(1)),
            Piece::Text(b" sectors\ngeneral purpose partition 2: "),
            Piece::Number(ext_csd.gp_sectors(2)),
            Piece::Text(b" sectors\ngeneral purpose partition 3: "),
            Piece::Number(ext_csd.gp_sectors(3)),
            Piece::Text(b" sectors\ngeneral purpose partition 4: "),
            Piece::Number(ext_csd.gp_sectors(4)),
            Piece::Text(b" sectors\nerase unit: "),
            Piece::Number(ext_csd.erase_unit()),
            Piece::Text(b" sectors\n"),
        ],
    )
}

// Writes the sizes in an EXT_CSD.
fn put_ext_csd<W: Write>(out: &mut W, ext_csd: &ExtCsd) -> io::Result<()>
    ensures { Writes (W.contents out.old) (W.contents out.new) result (ext_csd_text ext_csd.now) }
{
    put_capacity(out, ext_csd.sectors())?;
    put_partitions(out, ext_csd)
}

// The EXT_CSD in these bytes.
fn ext_csd_in(bytes: &[u8]) -> ExtCsd
    requires { length bytes.now ≡ 512 }
    ensures { result ≡ bytes.now }
{
    let mut block = [0; 512];
    block.copy_from_slice(bytes);
    ExtCsd::new(&block)
}

// The name of the version.
fn version_name(spec: u64, spec3: u64, spec4: u64, specx: u64) -> &'static [u8]
    ensures { result.now ≡ version_name spec spec3 spec4 specx }
{
    match (spec, specx) {
        (0, _) => b"1.0 or 1.01",
        (1, _) => b"1.10",
        (2, _) if spec3 == 0 => b"2.00",
        (2, 0) if spec4 == 0 => b"3.0x",
        (2, 0) => b"4.xx",
        (2, 1) => b"5.xx",
        (2, 2) => b"6.xx",
        (2, 3) => b"7.xx",
        (2, 4) => b"8.xx",
        _ => b"not known",
    }
}

// Writes the version that an SCR tells.
#[tactic(auto, unfolding(crate::specs::Summaries::version_text))]
fn put_version<W: Write>(
    out: &mut W,
    spec: u64,
    spec3: u64,
    spec4: u64,
    specx: u64,
) -> io::Result<()>
    ensures { Writes (W.contents out.old) (W.contents out.new) result (version_text spec spec3 spec4 specx) }
{
    let name = version_name(spec, spec3, spec4, specx);
    put_pieces(
        out,
        &[
            Piece::Text(b"version: "),
            Piece::Text(name),
            Piece::Text(b"\n"),
        ],
    )
}

// Writes what follows from an SCR.
fn put_scr<W: Write>(out: &mut W, bytes: &[u8]) -> io::Result<()>
    requires { length bytes.now ≡ 8 }
    ensures { Writes (W.contents out.old) (W.contents out.new) result (scr_text (number_of Scr bytes.now)) }
{
    put_version(
        out,
        bits(Register::Scr, bytes, 59, 56),
        bits(Register::Scr, bytes, 47, 47),
        bits(Register::Scr, bytes, 42, 42),
        bits(Register::Scr, bytes, 41, 38),
    )
}

/// Writes what follows from a register as a whole: sizes, the version, and whether the check fits.
#[tactic(auto, unfolding(crate::specs::Summaries::summary_text))]
pub(crate) fn put_summary<W: Write>(out: &mut W, register: Register, bytes: &[u8]) -> io::Result<()>
    requires { length bytes.now ≡ register_len register }
    ensures { Writes (W.contents out.old) (W.contents out.new) result (summary_text register bytes.now) }
{
    match register {
        Register::Csd(kind) => {
            put_csd(out, kind, bytes)?;
            put_check(out, bytes)
        }
        Register::Cid(_) => put_check(out, bytes),
        Register::ExtCsd => put_ext_csd(out, &ext_csd_in(bytes)),
        Register::Scr => put_scr(out, bytes),
        Register::Ocr(_) | Register::CardStatus(_) | Register::SwitchStatus => Ok(()),
    }
}
