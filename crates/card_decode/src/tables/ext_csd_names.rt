// What the values and the bits of an EXT_CSD's fields stand for (JESD84-B51, section 7.4).
use crate::field::Name;

/// How a command is interrupted.
pub(crate) const HPI_FEATURES: &[Name] = names![
    0 => b"supported",
    1 => b"by CMD12",
];

/// The modes besides the normal one.
pub(crate) const SUPPORTED_MODES: &[Name] = names![
    0 => b"field firmware update",
    1 => b"vendor specific mode",
];

/// How much of the device's life is used.
pub(crate) const LIFE_TIMES: &[Name] = names![
    0 => b"not defined",
    1 => b"0% to 10% used",
    2 => b"10% to 20% used",
    3 => b"20% to 30% used",
    4 => b"30% to 40% used",
    5 => b"40% to 50% used",
    6 => b"50% to 60% used",
    7 => b"60% to 70% used",
    8 => b"70% to 80% used",
    9 => b"80% to 90% used",
    10 => b"90% to 100% used",
    11 => b"exceeded",
];

/// How many reserved blocks are used.
pub(crate) const END_OF_LIFE: &[Name] = names![
    0 => b"not defined",
    1 => b"normal",
    2 => b"warning",
    3 => b"urgent",
];

/// Whether background operations are due.
pub(crate) const BKOPS_STATUSES: &[Name] = names![
    0 => b"not required",
    1 => b"outstanding, not critical",
    2 => b"outstanding, performance being impacted",
    3 => b"outstanding, critical",
];

/// What the device can erase.
pub(crate) const SECURITY_FEATURES: &[Name] = names![
    0 => b"secure purge",
    2 => b"automatic erase of retired blocks",
    4 => b"trim",
    6 => b"sanitize",
];

/// How the device boots.
pub(crate) const BOOT_MODES: &[Name] = names![
    0 => b"alternative boot",
    1 => b"dual data rate at boot",
    2 => b"high speed at boot",
];

/// Secure write protection.
pub(crate) const SECURE_PROTECTION: &[Name] = names![
    0 => b"supported",
    1 => b"on",
];

/// The driver strengths.
pub(crate) const DRIVER_TYPES: &[Name] = names![
    0 => b"type 0",
    1 => b"type 1",
    2 => b"type 2",
    3 => b"type 3",
    4 => b"type 4",
];

/// The timings that the device supports.
pub(crate) const DEVICE_TYPES: &[Name] = names![
    0 => b"high speed at 26 MHz",
    1 => b"high speed at 52 MHz",
    2 => b"dual data rate at 52 MHz, 1.8 V or 3 V",
    3 => b"dual data rate at 52 MHz, 1.2 V",
    4 => b"HS200 at 1.8 V",
    5 => b"HS200 at 1.2 V",
    6 => b"HS400 at 1.8 V",
    7 => b"HS400 at 1.2 V",
];

/// The version of the CSD.
pub(crate) const STRUCTURES: &[Name] = names![
    0 => b"version 1.0",
    1 => b"version 1.1",
    2 => b"version 1.2",
];

/// The version of the standard.
pub(crate) const REVISIONS: &[Name] = names![
    0 => b"version 4.0",
    1 => b"version 4.1",
    2 => b"version 4.2",
    3 => b"version 4.3",
    5 => b"version 4.41",
    6 => b"version 4.5 or 4.51",
    7 => b"version 5.0 or 5.01",
    8 => b"version 5.1",
];

/// The timing, and the driver type.
pub(crate) const TIMINGS: &[Name] = names![
    0 => b"backward compatible",
    1 => b"high speed",
    2 => b"HS200",
    3 => b"HS400",
    16 => b"backward compatible, driver type 1",
    17 => b"high speed, driver type 1",
    18 => b"HS200, driver type 1",
    19 => b"HS400, driver type 1",
    32 => b"backward compatible, driver type 2",
    33 => b"high speed, driver type 2",
    34 => b"HS200, driver type 2",
    35 => b"HS400, driver type 2",
    48 => b"backward compatible, driver type 3",
    49 => b"high speed, driver type 3",
    50 => b"HS200, driver type 3",
    51 => b"HS400, driver type 3",
    64 => b"backward compatible, driver type 4",
    65 => b"high speed, driver type 4",
    66 => b"HS200, driver type 4",
    67 => b"HS400, driver type 4",
];

/// The width of the bus.
pub(crate) const WIDTHS: &[Name] = names![
    0 => b"1 line",
    1 => b"4 lines",
    2 => b"8 lines",
    5 => b"4 lines, dual data rate",
    6 => b"8 lines, dual data rate",
    134 => b"8 lines, dual data rate, enhanced strobe",
];

/// What erased bytes hold.
pub(crate) const ERASED: &[Name] = names![
    0 => b"erased bytes are 00h",
    1 => b"erased bytes are FFh",
];

/// How the boot configuration is protected.
pub(crate) const BOOT_PROTECTION: &[Name] = names![
    0 => b"until the power is off",
    4 => b"for good",
];

/// How the boot partitions are write protected.
pub(crate) const BOOT_WRITE_PROTECTION: &[Name] = names![
    0 => b"B_PWR_WP_EN",
    1 => b"B_PWR_WP_SEC_SEL",
    2 => b"B_PERM_WP_EN",
    3 => b"B_PERM_WP_SEC_SEL",
    4 => b"B_PERM_WP_DIS",
    6 => b"B_PWR_WP_DIS",
    7 => b"B_SEC_WP_SEL",
];

/// How the user area is write protected.
pub(crate) const USER_WRITE_PROTECTION: &[Name] = names![
    0 => b"US_PWR_WP_EN",
    2 => b"US_PERM_WP_EN",
    3 => b"US_PWR_WP_DIS",
    4 => b"US_PERM_WP_DIS",
    6 => b"CD_PERM_WP_DIS",
    7 => b"PERM_PSWD_DIS",
];

/// The partitions that data is written to.
pub(crate) const PARTITIONS: &[Name] = names![
    0 => b"user area",
    1 => b"general purpose partition 1",
    2 => b"general purpose partition 2",
    3 => b"general purpose partition 3",
    4 => b"general purpose partition 4",
];

/// What can be written reliably.
pub(crate) const RELIABILITY: &[Name] = names![
    0 => b"HS_CTRL_REL",
    2 => b"EN_REL_WR",
    4 => b"EN_RPMB_REL_WR",
];

/// Which background operations are on.
pub(crate) const BKOPS_WAYS: &[Name] = names![
    0 => b"manual",
    1 => b"automatic",
];

/// The reset signal.
pub(crate) const RESETS: &[Name] = names![
    0 => b"off for now",
    1 => b"on for good",
    2 => b"off for good",
];

/// What can be partitioned.
pub(crate) const PARTITIONING: &[Name] = names![
    0 => b"partitions",
    1 => b"enhanced attribute",
    2 => b"extended attribute",
];

/// The size of a sector.
pub(crate) const SECTORS: &[Name] = names![
    0 => b"512 bytes",
    1 => b"4 KiB",
];

/// What the commands of class 6 do.
pub(crate) const CLASS_6: &[Name] = names![
    0 => b"write protection",
    1 => b"dynamic capacity",
];

/// The events that are reported.
pub(crate) const EVENTS: &[Name] = names![
    0 => b"URGENT_BKOPS",
    1 => b"DYNCAP_NEEDED",
    2 => b"SYSPOOL_EXHAUSTED",
    3 => b"PACKED_FAILURE",
    4 => b"EXTENDED_SECURITY_FAILURE",
];

/// What became of a packed command.
pub(crate) const PACKED_STATUSES: &[Name] = names![
    0 => b"error",
    1 => b"indexed error",
];

/// What the host tells of the power.
pub(crate) const NOTIFICATIONS: &[Name] = names![
    0 => b"NO_POWER_NOTIFICATION",
    1 => b"POWERED_ON",
    2 => b"POWER_OFF_SHORT",
    3 => b"POWER_OFF_LONG",
    4 => b"SLEEP_NOTIFICATION",
];

/// The mode.
pub(crate) const MODES: &[Name] = names![
    0 => b"normal",
    1 => b"field firmware update",
    16 => b"vendor specific mode",
];

/// What became of a firmware update.
pub(crate) const FFU_STATUSES: &[Name] = names![
    0 => b"success",
    16 => b"general error",
    17 => b"install error",
    18 => b"download error",
];
