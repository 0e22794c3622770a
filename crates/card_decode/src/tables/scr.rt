// The fields of an SCR (SD Physical Layer 6.00, section 5.6).
ghost use Rattle.std.specs.Prelude.{◌≡◌, true};
ghost use Rattle.card_decode.specs.Fields.{all_fit};
ghost use Rattle.card_decode.specs.Tables.{IsScr, covers_all};
ghost use Rattle.card_decode.specs.declared.register.Register.TheVariants.{Scr};

use crate::field::{Field, Meaning, Name};

const STRUCTURES: &[Name] = names![0 => b"version 1.0"];

const ERASED: &[Name] = names![0 => b"erased bytes are 00h", 1 => b"erased bytes are FFh"];

const SECURITIES: &[Name] = names![
    0 => b"none",
    1 => b"not used",
    2 => b"SDSC card, security version 1.01",
    3 => b"SDHC card, security version 2.00",
    4 => b"SDXC card, security version 3.xx",
];

const WIDTHS: &[Name] = names![0 => b"1 line", 2 => b"4 lines"];

const COMMANDS: &[Name] = names![
    0 => b"CMD20",
    1 => b"CMD23",
    2 => b"CMD48 and CMD49",
    3 => b"CMD58 and CMD59",
];

static SCR: [Field; 12] = [
    field!(b"SCR_STRUCTURE", 63, 60, Meaning::Named(STRUCTURES)),
    field!(b"SD_SPEC", 59, 56, Meaning::Number),
    field!(b"DATA_STAT_AFTER_ERASE", 55, 55, Meaning::Named(ERASED)),
    field!(b"SD_SECURITY", 54, 52, Meaning::Named(SECURITIES)),
    field!(b"SD_BUS_WIDTHS", 51, 48, Meaning::Bits(WIDTHS)),
    field!(b"SD_SPEC3", 47, 47, Meaning::Number),
    field!(b"EX_SECURITY", 46, 43, Meaning::Number),
    field!(b"SD_SPEC4", 42, 42, Meaning::Number),
    field!(b"SD_SPECX", 41, 38, Meaning::Number),
    reserved!(37, 36),
    field!(b"CMD_SUPPORT", 35, 32, Meaning::Bits(COMMANDS)),
    field!(b"manufacturer", 31, 0, Meaning::Hexadecimal),
];

/// The fields of an SCR.
pub(crate) fn scr() -> &'static [Field]
    ensures covers { covers_all Scr result.now ≡ true }
    ensures fits { all_fit Scr result.now ≡ true }
    ensures fields { IsScr result.now }
{
    &SCR
}
