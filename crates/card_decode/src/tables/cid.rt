// The fields of a CID (SD Physical Layer 6.00, section 5.2; JESD84-B51, section 7.2).
ghost use Rattle.std.specs.Prelude.{◌≡◌, true};
ghost use Rattle.mmc_frame.specs.declared.kind.Kind.TheVariants.{Mmc, Sd};
ghost use Rattle.card_decode.specs.Fields.{all_fit};
ghost use Rattle.card_decode.specs.Tables.{IsCid, covers_all};
ghost use Rattle.card_decode.specs.declared.register.Register.TheVariants.{Cid};

use crate::field::{Field, Meaning, Name};
use crate::tables::csd_common::ALWAYS_ONE;

const PACKAGES: &[Name] = names![
    0 => b"removable card",
    1 => b"discrete embedded device (BGA)",
    2 => b"package on package (POP)",
];

// Manufacturers of SD cards, from the lowest number up. SD-3C assigns the numbers, and no public standard lists them:
// these are the ones that cards are commonly known to have.
const SD_MAKERS: &[Name] = names![
    0x01 => b"Panasonic",
    0x02 => b"Toshiba/Kioxia",
    0x03 => b"SanDisk",
    0x1b => b"Samsung",
    0x1d => b"ADATA",
    0x27 => b"Phison",
    0x28 => b"Lexar",
    0x31 => b"Silicon Power",
    0x41 => b"Kingston",
    0x74 => b"Transcend",
    0x76 => b"Patriot",
    0x82 => b"Sony",
    0x9c => b"Angelbird",
];

// Manufacturers of eMMC devices, whose numbers JEDEC assigns: no public standard lists these either.
const MMC_MAKERS: &[Name] = names![
    0x02 => b"SanDisk",
    0x11 => b"Toshiba/Kioxia",
    0x13 => b"Micron",
    0x15 => b"Samsung",
    0x45 => b"SanDisk",
    0x70 => b"Kingston",
    0x90 => b"SK hynix",
    0xfe => b"Micron",
];

static CID_SD: [Field; 9] = [
    field!(b"MID", 127, 120, Meaning::Listed(SD_MAKERS)),
    field!(b"OID", 119, 104, Meaning::Text(2)),
    field!(b"PNM", 103, 64, Meaning::Text(5)),
    field!(b"PRV", 63, 56, Meaning::Revision),
    field!(b"PSN", 55, 24, Meaning::Hexadecimal),
    reserved!(23, 20),
    field!(b"MDT", 19, 8, Meaning::Date),
    field!(b"CRC", 7, 1, Meaning::Hexadecimal),
    field!(b"not used", 0, 0, Meaning::Named(ALWAYS_ONE)),
];

static CID_MMC: [Field; 10] = [
    field!(b"MID", 127, 120, Meaning::Listed(MMC_MAKERS)),
    reserved!(119, 114),
    field!(b"CBX", 113, 112, Meaning::Named(PACKAGES)),
    field!(b"OID", 111, 104, Meaning::Hexadecimal),
    field!(b"PNM", 103, 56, Meaning::Text(6)),
    field!(b"PRV", 55, 48, Meaning::Revision),
    field!(b"PSN", 47, 16, Meaning::Hexadecimal),
    field!(b"MDT", 15, 8, Meaning::MmcDate),
    field!(b"CRC", 7, 1, Meaning::Hexadecimal),
    field!(b"not used", 0, 0, Meaning::Named(ALWAYS_ONE)),
];

/// The fields of an SD card's CID.
pub(crate) fn cid_sd() -> &'static [Field]
    ensures covers { covers_all (Cid Sd) result.now ≡ true }
    ensures fits { all_fit (Cid Sd) result.now ≡ true }
    ensures fields { IsCid (Cid Sd) result.now }
{
    &CID_SD
}

/// The fields of an eMMC device's CID.
pub(crate) fn cid_mmc() -> &'static [Field]
    ensures covers { covers_all (Cid Mmc) result.now ≡ true }
    ensures fits { all_fit (Cid Mmc) result.now ≡ true }
    ensures fields { IsCid (Cid Mmc) result.now }
{
    &CID_MMC
}
