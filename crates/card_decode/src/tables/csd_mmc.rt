// The fields of an eMMC device's CSD (JESD84-B51, section 7.3).
ghost use Rattle.std.specs.Prelude.{◌≡◌, true};
ghost use Rattle.mmc_frame.specs.declared.kind.Kind.TheVariants.{Mmc};
ghost use Rattle.card_decode.specs.Fields.{all_fit};
ghost use Rattle.card_decode.specs.Tables.{IsCsdMmc, covers_all};
ghost use Rattle.card_decode.specs.declared.register.Register.TheVariants.{Csd};

use crate::field::{Field, Meaning, Name, Scale};
use crate::tables::csd_common::{
    C_SIZE, C_SIZE_MULT, CCC, COPY, CRC, DSR_IMP, FILE_FORMAT, FILE_FORMAT_GRP, NOT_USED, NSAC,
    PERM_WRITE_PROTECT, R2W_FACTOR, READ_BL_LEN, READ_BL_PARTIAL, READ_BLK_MISALIGN, TAAC,
    TMP_WRITE_PROTECT, VDD_R_CURR_MAX, VDD_R_CURR_MIN, VDD_W_CURR_MAX, VDD_W_CURR_MIN,
    WP_GRP_ENABLE, WRITE_BL_LEN, WRITE_BL_PARTIAL, WRITE_BLK_MISALIGN,
};

const STRUCTURES: &[Name] = names![
    0 => b"version 1.0",
    1 => b"version 1.1",
    2 => b"version 1.2",
    3 => b"version in the EXT_CSD",
];

const SPECIFICATIONS: &[Name] = names![
    0 => b"version 1.0 to 1.2",
    1 => b"version 1.4",
    2 => b"version 2.0 to 2.2",
    3 => b"version 3.1 to 3.31",
    4 => b"version 4.1 to 5.1",
];

// In tenths.
const CLOCK_VALUES: &[u64] = &[
    0, 10, 12, 13, 15, 20, 26, 30, 35, 40, 45, 52, 55, 60, 70, 80,
];

const CLOCK_UNITS: &[Scale] = &[
    Scale {
        offset: 0,
        factor: 10,
        unit: b"kHz",
    },
    Scale {
        offset: 0,
        factor: 100,
        unit: b"kHz",
    },
    Scale {
        offset: 0,
        factor: 1,
        unit: b"MHz",
    },
    Scale {
        offset: 0,
        factor: 10,
        unit: b"MHz",
    },
];

const CODES: &[Name] = names![0 => b"none", 1 => b"BCH (542, 512)"];

static CSD_MMC: [Field; 37] = [
    field!(b"CSD_STRUCTURE", 127, 126, Meaning::Named(STRUCTURES)),
    field!(b"SPEC_VERS", 125, 122, Meaning::Named(SPECIFICATIONS)),
    reserved!(121, 120),
    TAAC,
    NSAC,
    field!(
        b"TRAN_SPEED",
        103,
        96,
        Meaning::Product(CLOCK_VALUES, CLOCK_UNITS)
    ),
    CCC,
    READ_BL_LEN,
    READ_BL_PARTIAL,
    WRITE_BLK_MISALIGN,
    READ_BLK_MISALIGN,
    DSR_IMP,
    reserved!(75, 74),
    C_SIZE,
    VDD_R_CURR_MIN,
    VDD_R_CURR_MAX,
    VDD_W_CURR_MIN,
    VDD_W_CURR_MAX,
    C_SIZE_MULT,
    field!(b"ERASE_GRP_SIZE", 46, 42, Meaning::Number),
    field!(b"ERASE_GRP_MULT", 41, 37, Meaning::Number),
    field!(b"WP_GRP_SIZE", 36, 32, scaled!(1, 1, b"erase groups")),
    WP_GRP_ENABLE,
    field!(b"DEFAULT_ECC", 30, 29, Meaning::Named(CODES)),
    R2W_FACTOR,
    WRITE_BL_LEN,
    WRITE_BL_PARTIAL,
    reserved!(20, 17),
    field!(
        b"CONTENT_PROT_APP",
        16,
        16,
        Meaning::Flag(b"content protection is supported")
    ),
    FILE_FORMAT_GRP,
    COPY,
    PERM_WRITE_PROTECT,
    TMP_WRITE_PROTECT,
    FILE_FORMAT,
    field!(b"ECC", 9, 8, Meaning::Named(CODES)),
    CRC,
    NOT_USED,
];

/// The fields of an eMMC device's CSD.
pub(crate) fn csd_mmc() -> &'static [Field]
    ensures covers { covers_all (Csd Mmc) result.now ≡ true }
    ensures fits { all_fit (Csd Mmc) result.now ≡ true }
    ensures fields { IsCsdMmc result.now }
{
    &CSD_MMC
}
