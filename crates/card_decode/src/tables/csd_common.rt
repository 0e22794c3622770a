// The fields that several versions of a CSD share, and what they stand for.
use crate::field::{Field, Meaning, Name, Scale};

/// The bit that is always sent last.
pub(crate) const ALWAYS_ONE: &[Name] = names![0 => b"should be 1", 1 => b"always 1"];

// The current at the minimum supply.
const LEAST_CURRENTS: &[Name] = names![
    0 => b"0.5 mA",
    1 => b"1 mA",
    2 => b"5 mA",
    3 => b"10 mA",
    4 => b"25 mA",
    5 => b"35 mA",
    6 => b"60 mA",
    7 => b"100 mA",
];

// The current at the maximum supply.
const MOST_CURRENTS: &[Name] = names![
    0 => b"1 mA",
    1 => b"5 mA",
    2 => b"10 mA",
    3 => b"25 mA",
    4 => b"35 mA",
    5 => b"45 mA",
    6 => b"80 mA",
    7 => b"200 mA",
];

// The classes of commands.
const CLASSES: &[Name] = names![
    0 => b"class 0",
    1 => b"class 1",
    2 => b"class 2",
    3 => b"class 3",
    4 => b"class 4",
    5 => b"class 5",
    6 => b"class 6",
    7 => b"class 7",
    8 => b"class 8",
    9 => b"class 9",
    10 => b"class 10",
    11 => b"class 11",
];

// What the card is laid out as, where FILE_FORMAT_GRP is 0.
const FILE_FORMATS: &[Name] = names![
    0 => b"hard disk with a partition table",
    1 => b"DOS FAT with a boot sector",
    2 => b"universal file format",
    3 => b"others or unknown",
];

/// The mantissas of a time or a rate, in tenths.
pub(crate) const TIME_VALUES: &[u64] = &[
    0, 10, 12, 13, 15, 20, 25, 30, 35, 40, 45, 50, 55, 60, 70, 80,
];

// The units of TAAC, with a tenth taken out.
const TIME_UNITS: &[Scale] = &[
    Scale {
        offset: 0,
        factor: 100,
        unit: b"ps",
    },
    Scale {
        offset: 0,
        factor: 1,
        unit: b"ns",
    },
    Scale {
        offset: 0,
        factor: 10,
        unit: b"ns",
    },
    Scale {
        offset: 0,
        factor: 100,
        unit: b"ns",
    },
    Scale {
        offset: 0,
        factor: 1,
        unit: b"us",
    },
    Scale {
        offset: 0,
        factor: 10,
        unit: b"us",
    },
    Scale {
        offset: 0,
        factor: 100,
        unit: b"us",
    },
    Scale {
        offset: 0,
        factor: 1,
        unit: b"ms",
    },
];

/// The units of an SD card's TRAN_SPEED, with a tenth taken out.
pub(crate) const RATE_UNITS: &[Scale] = &[
    Scale {
        offset: 0,
        factor: 10,
        unit: b"kbit/s",
    },
    Scale {
        offset: 0,
        factor: 100,
        unit: b"kbit/s",
    },
    Scale {
        offset: 0,
        factor: 1,
        unit: b"Mbit/s",
    },
    Scale {
        offset: 0,
        factor: 10,
        unit: b"Mbit/s",
    },
];

// The rows of these fields. `C_SIZE` and the currents are those of version 1.0 and of an eMMC device.

pub(crate) const TAAC: Field = field!(b"TAAC", 119, 112, Meaning::Product(TIME_VALUES, TIME_UNITS));

pub(crate) const NSAC: Field = field!(b"NSAC", 111, 104, scaled!(0, 100, b"clock cycles"));

pub(crate) const CCC: Field = field!(b"CCC", 95, 84, Meaning::Bits(CLASSES));

pub(crate) const READ_BL_LEN: Field = field!(b"READ_BL_LEN", 83, 80, Meaning::Power(b"bytes"));

pub(crate) const READ_BL_PARTIAL: Field = field!(
    b"READ_BL_PARTIAL",
    79,
    79,
    Meaning::Flag(b"parts of a block can be read")
);

pub(crate) const WRITE_BLK_MISALIGN: Field = field!(
    b"WRITE_BLK_MISALIGN",
    78,
    78,
    Meaning::Flag(b"a write may cross a block's end")
);

pub(crate) const READ_BLK_MISALIGN: Field = field!(
    b"READ_BLK_MISALIGN",
    77,
    77,
    Meaning::Flag(b"a read may cross a block's end")
);

pub(crate) const DSR_IMP: Field = field!(
    b"DSR_IMP",
    76,
    76,
    Meaning::Flag(b"the card has a driver stage register")
);

pub(crate) const C_SIZE: Field = field!(b"C_SIZE", 73, 62, Meaning::Number);

pub(crate) const VDD_R_CURR_MIN: Field = field!(
    b"VDD_R_CURR_MIN",
    61,
    59,
    Meaning::Named(LEAST_CURRENTS)
);

pub(crate) const VDD_R_CURR_MAX: Field = field!(
    b"VDD_R_CURR_MAX",
    58,
    56,
    Meaning::Named(MOST_CURRENTS)
);

pub(crate) const VDD_W_CURR_MIN: Field = field!(
    b"VDD_W_CURR_MIN",
    55,
    53,
    Meaning::Named(LEAST_CURRENTS)
);

pub(crate) const VDD_W_CURR_MAX: Field = field!(
    b"VDD_W_CURR_MAX",
    52,
    50,
    Meaning::Named(MOST_CURRENTS)
);

pub(crate) const C_SIZE_MULT: Field = field!(b"C_SIZE_MULT", 49, 47, Meaning::Number);

pub(crate) const WP_GRP_ENABLE: Field = field!(
    b"WP_GRP_ENABLE",
    31,
    31,
    Meaning::Flag(b"groups can be write protected")
);

pub(crate) const R2W_FACTOR: Field = field!(
    b"R2W_FACTOR",
    28,
    26,
    Meaning::Power(b"times the access time of a read")
);

pub(crate) const WRITE_BL_LEN: Field = field!(b"WRITE_BL_LEN", 25, 22, Meaning::Power(b"bytes"));

pub(crate) const WRITE_BL_PARTIAL: Field = field!(
    b"WRITE_BL_PARTIAL",
    21,
    21,
    Meaning::Flag(b"parts of a block can be written")
);

pub(crate) const FILE_FORMAT_GRP: Field = field!(b"FILE_FORMAT_GRP", 15, 15, Meaning::Number);

pub(crate) const COPY: Field = field!(b"COPY", 14, 14, Meaning::Flag(b"a copy"));

pub(crate) const PERM_WRITE_PROTECT: Field = field!(
    b"PERM_WRITE_PROTECT",
    13,
    13,
    Meaning::Flag(b"write protected for good")
);

pub(crate) const TMP_WRITE_PROTECT: Field = field!(
    b"TMP_WRITE_PROTECT",
    12,
    12,
    Meaning::Flag(b"write protected for now")
);

pub(crate) const FILE_FORMAT: Field = field!(b"FILE_FORMAT", 11, 10, Meaning::Named(FILE_FORMATS));

pub(crate) const CRC: Field = field!(b"CRC", 7, 1, Meaning::Hexadecimal);

pub(crate) const NOT_USED: Field = field!(b"not used", 0, 0, Meaning::Named(ALWAYS_ONE));
