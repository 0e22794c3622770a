// The fields of an SD card's CSD: versions 1.0 and 2.0 (SD Physical Layer 6.00, sections 5.3.2 and 5.3.3), and version
// 3.0 of a card of more than 2 TB (version 7.00, section 5.3.4).
ghost use Rattle.std.specs.Prelude.{◌≡◌, true};
ghost use Rattle.mmc_frame.specs.declared.kind.Kind.TheVariants.{Sd};
ghost use Rattle.card_decode.specs.Fields.{all_fit};
ghost use Rattle.card_decode.specs.Tables.{IsCsd, IsCsdV1, IsCsdV2, covers_all};
ghost use Rattle.card_decode.specs.declared.register.Register.TheVariants.{Csd};

use crate::field::{Field, Meaning, Name, Scale};
use crate::tables::csd_common::{
    C_SIZE, C_SIZE_MULT, CCC, COPY, CRC, DSR_IMP, FILE_FORMAT, FILE_FORMAT_GRP, NOT_USED, NSAC,
    PERM_WRITE_PROTECT, R2W_FACTOR, RATE_UNITS, READ_BL_LEN, READ_BL_PARTIAL, READ_BLK_MISALIGN,
    TAAC, TIME_VALUES, TMP_WRITE_PROTECT, VDD_R_CURR_MAX, VDD_R_CURR_MIN, VDD_W_CURR_MAX,
    VDD_W_CURR_MIN, WP_GRP_ENABLE, WRITE_BL_LEN, WRITE_BL_PARTIAL, WRITE_BLK_MISALIGN,
};

const STRUCTURES: &[Name] = names![0 => b"version 1.0", 1 => b"version 2.0", 2 => b"version 3.0"];

// The fields of a version, highest first, with those of its size among them.
macro_rules! csd_fields {
    ($($size:expr),* $(,)?) => {
        [
            field!(b"CSD_STRUCTURE", 127, 126, Meaning::Named(STRUCTURES)),
            reserved!(125, 120),
            TAAC,
            NSAC,
            field!(b"TRAN_SPEED", 103, 96, Meaning::Product(TIME_VALUES, RATE_UNITS)),
            CCC,
            READ_BL_LEN,
            READ_BL_PARTIAL,
            WRITE_BLK_MISALIGN,
            READ_BLK_MISALIGN,
            DSR_IMP,
            $($size,)*
            field!(b"ERASE_BLK_EN", 46, 46, Meaning::Flag(b"single blocks can be erased")),
            field!(b"SECTOR_SIZE", 45, 39, scaled!(1, 1, b"write blocks")),
            field!(b"WP_GRP_SIZE", 38, 32, scaled!(1, 1, b"erase sectors")),
            WP_GRP_ENABLE,
            reserved!(30, 29),
            R2W_FACTOR,
            WRITE_BL_LEN,
            WRITE_BL_PARTIAL,
            reserved!(20, 16),
            FILE_FORMAT_GRP,
            COPY,
            PERM_WRITE_PROTECT,
            TMP_WRITE_PROTECT,
            FILE_FORMAT,
            reserved!(9, 8),
            CRC,
            NOT_USED,
        ]
    };
}

static CSD_V1: [Field; 35] = csd_fields![
    reserved!(75, 74),
    C_SIZE,
    VDD_R_CURR_MIN,
    VDD_R_CURR_MAX,
    VDD_W_CURR_MIN,
    VDD_W_CURR_MAX,
    C_SIZE_MULT,
];

static CSD_V2: [Field; 31] = csd_fields![
    reserved!(75, 70),
    field!(b"C_SIZE", 69, 48, scaled!(1, 512, b"KiB")),
    reserved!(47, 47),
];

static CSD_V3: [Field; 30] = csd_fields![
    field!(b"C_SIZE", 75, 48, scaled!(1, 512, b"KiB")),
    reserved!(47, 47),
];

/// The fields of a CSD version 1.0.
pub(crate) fn csd_v1() -> &'static [Field]
    ensures covers { covers_all (Csd Sd) result.now ≡ true }
    ensures fits { all_fit (Csd Sd) result.now ≡ true }
    ensures fields { IsCsdV1 result.now }
{
    &CSD_V1
}

/// The fields of a CSD version 2.0.
pub(crate) fn csd_v2() -> &'static [Field]
    ensures covers { covers_all (Csd Sd) result.now ≡ true }
    ensures fits { all_fit (Csd Sd) result.now ≡ true }
    ensures fields { IsCsdV2 result.now }
{
    &CSD_V2
}

/// The fields of a CSD version 3.0.
pub(crate) fn csd_v3() -> &'static [Field]
    ensures covers { covers_all (Csd Sd) result.now ≡ true }
    ensures fits { all_fit (Csd Sd) result.now ≡ true }
    ensures fields { IsCsd (Csd Sd) result.now }
{
    &CSD_V3
}
