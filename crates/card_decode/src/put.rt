// Writes the lines of a register.
ghost use Rattle.std.specs.Prelude.{◌≡◌, false, length, true};
ghost use Rattle.card_decode.specs.Fields.{all_fit};
ghost use Rattle.card_decode.specs.Registers.{is_low_first, number_of, register_len};
ghost use Rattle.card_decode.specs.Summaries.{PutsFields, PutsRegister};
ghost use Rattle.card_decode.specs.Tables.{IsSdCsdTable, IsTable, covers_all};
ghost use Rattle.card_decode.specs.Words.{fields_text};
ghost use Rattle.card_decode.specs.declared.register.Register.TheVariants.{Csd, ExtCsd};
ghost use Rattle.mmc_frame.specs.declared.kind.Kind.TheVariants.{Sd};
ghost use Rattle.text_out.specs.Writing.{Writes};

use crate::bits::bits;
use crate::field::Field;
use crate::line::put_field;
use crate::register::Register;
use crate::summary::put_summary;
use crate::tables;
use crate::tables::ext_csd;
use mmc_frame::Kind;
use std::io::{self, Write};

/// Writes a line for each field of a register, which is given as its bytes; reserved bits that are 0 have none.
///
/// # Errors
/// The fault of a write; a prefix of the lines went out then.
pub fn put_fields<W: Write>(
    out: &mut W,
    fields: &[Field],
    register: Register,
    bytes: &[u8],
) -> io::Result<()>
    requires sized { length bytes.now ≡ register_len register }
    requires fitting { all_fit register fields.now ≡ true }
    ensures { Writes (W.contents out.old) (W.contents out.new) result (fields_text register
        (number_of register bytes.now) fields.now) }
{
    for field in fields {
        put_field(out, field, register, bytes)?;
    }
    Ok(())
}

// The fields of an SD card's CSD, by its version; where that is unknown, as version 1.0.
fn csd_fields(bytes: &[u8]) -> &'static [Field]
    requires { length bytes.now ≡ 16 }
    ensures covers { covers_all (Csd Sd) result.now ≡ true }
    ensures fits { all_fit (Csd Sd) result.now ≡ true }
    ensures version { IsSdCsdTable (number_of (Csd Sd) bytes.now) result.now }
{
    match bits(Register::Csd(Kind::Sd), bytes, 127, 126) {
        1 => tables::csd_v2(),
        2 => tables::csd_v3(),
        _ => tables::csd_v1(),
    }
}

// The fields of a register other than the EXT_CSD.
fn fields(register: Register, bytes: &[u8]) -> &'static [Field]
    requires sized { length bytes.now ≡ register_len register }
    requires other { is_low_first register ≡ false }
    ensures { IsTable register (number_of register bytes.now) result.now }
{
    match register {
        Register::Ocr(Kind::Sd) => tables::ocr_sd(),
        Register::Ocr(Kind::Mmc) => tables::ocr_mmc(),
        Register::Cid(Kind::Sd) => tables::cid_sd(),
        Register::Cid(Kind::Mmc) => tables::cid_mmc(),
        Register::Csd(Kind::Sd) => csd_fields(bytes),
        Register::Csd(Kind::Mmc) => tables::csd_mmc(),
        Register::Scr => tables::scr(),
        Register::CardStatus(Kind::Sd) => tables::status_sd(),
        Register::CardStatus(Kind::Mmc) => tables::status_mmc(),
        Register::SwitchStatus => tables::switch_status(),
        Register::ExtCsd => unreachable!(),
    }
}

// Writes the lines of an EXT_CSD, whose table has five parts.
fn put_ext_csd_fields<W: Write>(out: &mut W, bytes: &[u8]) -> io::Result<()>
    requires { length bytes.now ≡ 512 }
    ensures { PutsFields ExtCsd bytes.now (W.contents out.old) (W.contents out.new) result }
{
    let first = ext_csd::from_511();
    let second = ext_csd::from_253();
    let third = ext_csd::from_215();
    let fourth = ext_csd::from_180();
    let fifth = ext_csd::from_133();
    put_fields(out, first, Register::ExtCsd, bytes)?;
    put_fields(out, second, Register::ExtCsd, bytes)?;
    put_fields(out, third, Register::ExtCsd, bytes)?;
    put_fields(out, fourth, Register::ExtCsd, bytes)?;
    put_fields(out, fifth, Register::ExtCsd, bytes)
}

// Writes the lines of a register's fields.
fn put_table<W: Write>(out: &mut W, register: Register, bytes: &[u8]) -> io::Result<()>
    requires { length bytes.now ≡ register_len register }
    ensures { PutsFields register bytes.now (W.contents out.old) (W.contents out.new) result }
{
    if register.is_low_first() {
        put_ext_csd_fields(out, bytes)
    } else {
        put_fields(out, fields(register, bytes), register, bytes)
    }
}

/// Writes a line for each field of a register, and then what follows from it as a whole: the sizes of a CSD and an
/// EXT_CSD, the version of an SCR, and whether the check of a CID or CSD fits. Every bit of the register stands in one of the fields, and those
/// that the stack reads stand where it reads them; reserved bits that are 0 have no line.
///
/// # Errors
/// The fault of a write; a prefix of the text went out then.
pub fn put_register<W: Write>(out: &mut W, register: Register, bytes: &[u8]) -> io::Result<()>
    requires { length bytes.now ≡ register_len register }
    ensures { PutsRegister register bytes.now (W.contents out.old) (W.contents out.new) result }
{
    put_table(out, register, bytes)?;
    put_summary(out, register, bytes)
}
