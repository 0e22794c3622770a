// The fields of an EXT_CSD by their bytes, in five parts (JESD84-B51, section 7.4).
ghost use Rattle.std.specs.Prelude.{◌≡◌, true};
ghost use Rattle.card_decode.specs.Fields.{all_fit, spans};
ghost use Rattle.card_decode.specs.declared.register.Register.TheVariants.{ExtCsd};

use crate::field::{Field, Meaning, Scale};
use crate::tables::ext_csd_names::{
    BKOPS_STATUSES, BKOPS_WAYS, BOOT_MODES, BOOT_PROTECTION, BOOT_WRITE_PROTECTION, CLASS_6,
    DEVICE_TYPES, DRIVER_TYPES, END_OF_LIFE, ERASED, EVENTS, FFU_STATUSES, HPI_FEATURES,
    LIFE_TIMES, MODES, NOTIFICATIONS, PACKED_STATUSES, PARTITIONING, PARTITIONS, RELIABILITY,
    RESETS, REVISIONS, SECTORS, SECURE_PROTECTION, SECURITY_FEATURES, STRUCTURES, SUPPORTED_MODES,
    TIMINGS, USER_WRITE_PROTECTION, WIDTHS,
};

static FROM_511: [Field; 32] = [
    reserved!(511, 506),
    field!(b"EXT_SECURITY_ERR", 505, 505, Meaning::Hexadecimal),
    field!(b"S_CMD_SET", 504, 504, Meaning::Hexadecimal),
    field!(b"HPI_FEATURES", 503, 503, Meaning::Bits(HPI_FEATURES)),
    field!(b"BKOPS_SUPPORT", 502, 502, Meaning::Flag(b"supported")),
    field!(b"MAX_PACKED_READS", 501, 501, Meaning::Number),
    field!(b"MAX_PACKED_WRITES", 500, 500, Meaning::Number),
    field!(b"DATA_TAG_SUPPORT", 499, 499, Meaning::Flag(b"supported")),
    field!(b"TAG_UNIT_SIZE", 498, 498, Meaning::Number),
    field!(b"TAG_RES_SIZE", 497, 497, Meaning::Number),
    field!(b"CONTEXT_CAPABILITIES", 496, 496, Meaning::Hexadecimal),
    field!(b"LARGE_UNIT_SIZE_M1", 495, 495, Meaning::Number),
    field!(b"EXT_SUPPORT", 494, 494, Meaning::Hexadecimal),
    field!(b"SUPPORTED_MODES", 493, 493, Meaning::Bits(SUPPORTED_MODES)),
    field!(b"FFU_FEATURES", 492, 492, Meaning::Hexadecimal),
    field!(b"OPERATION_CODE_TIMEOUT", 491, 491, Meaning::Number),
    field!(b"FFU_ARG", 490, 487, Meaning::Hexadecimal),
    field!(b"BARRIER_SUPPORT", 486, 486, Meaning::Flag(b"supported")),
    reserved!(485, 309),
    field!(b"CMDQ_SUPPORT", 308, 308, Meaning::Flag(b"supported")),
    field!(b"CMDQ_DEPTH", 307, 307, scaled!(1, 1, b"tasks")),
    reserved!(306, 306),
    field!(
        b"NUMBER_OF_FW_SECTORS_CORRECTLY_PROGRAMMED",
        305,
        302,
        Meaning::Number
    ),
    field!(
        b"VENDOR_PROPRIETARY_HEALTH_REPORT",
        301,
        270,
        Meaning::Hexadecimal
    ),
    field!(
        b"DEVICE_LIFE_TIME_EST_TYP_B",
        269,
        269,
        Meaning::Named(LIFE_TIMES)
    ),
    field!(
        b"DEVICE_LIFE_TIME_EST_TYP_A",
        268,
        268,
        Meaning::Named(LIFE_TIMES)
    ),
    field!(b"PRE_EOL_INFO", 267, 267, Meaning::Named(END_OF_LIFE)),
    field!(b"OPTIMAL_READ_SIZE", 266, 266, Meaning::Number),
    field!(b"OPTIMAL_WRITE_SIZE", 265, 265, Meaning::Number),
    field!(b"OPTIMAL_TRIM_UNIT_SIZE", 264, 264, Meaning::Number),
    field!(b"DEVICE_VERSION", 263, 262, Meaning::Hexadecimal),
    field!(b"FIRMWARE_VERSION", 261, 254, Meaning::Hexadecimal),
];

static FROM_253: [Field; 32] = [
    field!(b"PWR_CL_DDR_200_360", 253, 253, Meaning::Hexadecimal),
    field!(b"CACHE_SIZE", 252, 249, Meaning::Number),
    field!(b"GENERIC_CMD6_TIME", 248, 248, scaled!(0, 10, b"ms")),
    field!(b"POWER_OFF_LONG_TIME", 247, 247, scaled!(0, 10, b"ms")),
    field!(b"BKOPS_STATUS", 246, 246, Meaning::Named(BKOPS_STATUSES)),
    field!(b"CORRECTLY_PRG_SECTORS_NUM", 245, 242, Meaning::Number),
    field!(b"INI_TIMEOUT_AP", 241, 241, scaled!(0, 100, b"ms")),
    field!(
        b"CACHE_FLUSH_POLICY",
        240,
        240,
        Meaning::Flag(b"first in, first out")
    ),
    field!(b"PWR_CL_DDR_52_360", 239, 239, Meaning::Hexadecimal),
    field!(b"PWR_CL_DDR_52_195", 238, 238, Meaning::Hexadecimal),
    field!(b"PWR_CL_200_195", 237, 237, Meaning::Hexadecimal),
    field!(b"PWR_CL_200_130", 236, 236, Meaning::Hexadecimal),
    field!(b"MIN_PERF_DDR_W_8_52", 235, 235, Meaning::Number),
    field!(b"MIN_PERF_DDR_R_8_52", 234, 234, Meaning::Number),
    reserved!(233, 233),
    field!(b"TRIM_MULT", 232, 232, scaled!(0, 300, b"ms")),
    field!(
        b"SEC_FEATURE_SUPPORT",
        231,
        231,
        Meaning::Bits(SECURITY_FEATURES)
    ),
    field!(b"SEC_ERASE_MULT", 230, 230, Meaning::Number),
    field!(b"SEC_TRIM_MULT", 229, 229, Meaning::Number),
    field!(b"BOOT_INFO", 228, 228, Meaning::Bits(BOOT_MODES)),
    reserved!(227, 227),
    field!(b"BOOT_SIZE_MULT", 226, 226, scaled!(0, 128, b"KiB")),
    field!(b"ACC_SIZE", 225, 225, Meaning::Number),
    field!(b"HC_ERASE_GRP_SIZE", 224, 224, scaled!(0, 512, b"KiB")),
    field!(b"ERASE_TIMEOUT_MULT", 223, 223, scaled!(0, 300, b"ms")),
    field!(b"REL_WR_SEC_C", 222, 222, scaled!(0, 1, b"sectors")),
    field!(b"HC_WP_GRP_SIZE", 221, 221, scaled!(0, 1, b"erase groups")),
    field!(b"S_C_VCC", 220, 220, Meaning::Number),
    field!(b"S_C_VCCQ", 219, 219, Meaning::Number),
    field!(
        b"PRODUCTION_STATE_AWARENESS_TIMEOUT",
        218,
        218,
        Meaning::Number
    ),
    field!(b"S_A_TIMEOUT", 217, 217, Meaning::Number),
    field!(b"SLEEP_NOTIFICATION_TIME", 216, 216, Meaning::Number),
];

static FROM_215: [Field; 32] = [
    field!(
        b"SEC_COUNT",
        215,
        212,
        scaled!(0, 1, b"sectors of 512 bytes")
    ),
    field!(
        b"SECURE_WP_INFO",
        211,
        211,
        Meaning::Bits(SECURE_PROTECTION)
    ),
    field!(b"MIN_PERF_W_8_52", 210, 210, Meaning::Number),
    field!(b"MIN_PERF_R_8_52", 209, 209, Meaning::Number),
    field!(b"MIN_PERF_W_8_26_4_52", 208, 208, Meaning::Number),
    field!(b"MIN_PERF_R_8_26_4_52", 207, 207, Meaning::Number),
    field!(b"MIN_PERF_W_4_26", 206, 206, Meaning::Number),
    field!(b"MIN_PERF_R_4_26", 205, 205, Meaning::Number),
    reserved!(204, 204),
    field!(b"PWR_CL_26_360", 203, 203, Meaning::Hexadecimal),
    field!(b"PWR_CL_52_360", 202, 202, Meaning::Hexadecimal),
    field!(b"PWR_CL_26_195", 201, 201, Meaning::Hexadecimal),
    field!(b"PWR_CL_52_195", 200, 200, Meaning::Hexadecimal),
    field!(b"PARTITION_SWITCH_TIME", 199, 199, scaled!(0, 10, b"ms")),
    field!(b"OUT_OF_INTERRUPT_TIME", 198, 198, scaled!(0, 10, b"ms")),
    field!(b"DRIVER_STRENGTH", 197, 197, Meaning::Bits(DRIVER_TYPES)),
    field!(b"DEVICE_TYPE", 196, 196, Meaning::Bits(DEVICE_TYPES)),
    reserved!(195, 195),
    field!(b"CSD_STRUCTURE", 194, 194, Meaning::Named(STRUCTURES)),
    reserved!(193, 193),
    field!(b"EXT_CSD_REV", 192, 192, Meaning::Named(REVISIONS)),
    field!(b"CMD_SET", 191, 191, Meaning::Number),
    reserved!(190, 190),
    field!(b"CMD_SET_REV", 189, 189, Meaning::Number),
    reserved!(188, 188),
    field!(b"POWER_CLASS", 187, 187, Meaning::Hexadecimal),
    reserved!(186, 186),
    field!(b"HS_TIMING", 185, 185, Meaning::Named(TIMINGS)),
    field!(
        b"STROBE_SUPPORT",
        184,
        184,
        Meaning::Flag(b"enhanced strobe")
    ),
    field!(b"BUS_WIDTH", 183, 183, Meaning::Named(WIDTHS)),
    reserved!(182, 182),
    field!(b"ERASED_MEM_CONT", 181, 181, Meaning::Named(ERASED)),
];

static FROM_180: [Field; 32] = [
    reserved!(180, 180),
    field!(b"PARTITION_CONFIG", 179, 179, Meaning::Hexadecimal),
    field!(
        b"BOOT_CONFIG_PROT",
        178,
        178,
        Meaning::Bits(BOOT_PROTECTION)
    ),
    field!(b"BOOT_BUS_CONDITIONS", 177, 177, Meaning::Hexadecimal),
    reserved!(176, 176),
    field!(
        b"ERASE_GROUP_DEF",
        175,
        175,
        Meaning::Flag(b"erase groups of HC_ERASE_GRP_SIZE")
    ),
    field!(b"BOOT_WP_STATUS", 174, 174, Meaning::Hexadecimal),
    field!(b"BOOT_WP", 173, 173, Meaning::Bits(BOOT_WRITE_PROTECTION)),
    reserved!(172, 172),
    field!(b"USER_WP", 171, 171, Meaning::Bits(USER_WRITE_PROTECTION)),
    reserved!(170, 170),
    field!(
        b"FW_CONFIG",
        169,
        169,
        Meaning::Flag(b"firmware updates are off")
    ),
    field!(b"RPMB_SIZE_MULT", 168, 168, scaled!(0, 128, b"KiB")),
    field!(b"WR_REL_SET", 167, 167, Meaning::Bits(PARTITIONS)),
    field!(b"WR_REL_PARAM", 166, 166, Meaning::Bits(RELIABILITY)),
    field!(b"SANITIZE_START", 165, 165, Meaning::Number),
    field!(b"BKOPS_START", 164, 164, Meaning::Number),
    field!(b"BKOPS_EN", 163, 163, Meaning::Bits(BKOPS_WAYS)),
    field!(b"RST_n_FUNCTION", 162, 162, Meaning::Named(RESETS)),
    field!(b"HPI_MGMT", 161, 161, Meaning::Flag(b"on")),
    field!(
        b"PARTITIONING_SUPPORT",
        160,
        160,
        Meaning::Bits(PARTITIONING)
    ),
    field!(
        b"MAX_ENH_SIZE_MULT",
        159,
        157,
        scaled!(0, 1, b"write protect groups")
    ),
    field!(b"PARTITIONS_ATTRIBUTE", 156, 156, Meaning::Bits(PARTITIONS)),
    field!(
        b"PARTITION_SETTING_COMPLETED",
        155,
        155,
        Meaning::Flag(b"done")
    ),
    field!(
        b"GP_SIZE_MULT_4",
        154,
        152,
        scaled!(0, 1, b"write protect groups")
    ),
    field!(
        b"GP_SIZE_MULT_3",
        151,
        149,
        scaled!(0, 1, b"write protect groups")
    ),
    field!(
        b"GP_SIZE_MULT_2",
        148,
        146,
        scaled!(0, 1, b"write protect groups")
    ),
    field!(
        b"GP_SIZE_MULT_1",
        145,
        143,
        scaled!(0, 1, b"write protect groups")
    ),
    field!(
        b"ENH_SIZE_MULT",
        142,
        140,
        scaled!(0, 1, b"write protect groups")
    ),
    field!(b"ENH_START_ADDR", 139, 136, Meaning::Number),
    reserved!(135, 135),
    field!(b"SEC_BAD_BLK_MGMNT", 134, 134, Meaning::Hexadecimal),
];

static FROM_133: [Field; 32] = [
    field!(b"PRODUCTION_STATE_AWARENESS", 133, 133, Meaning::Number),
    field!(b"TCASE_SUPPORT", 132, 132, Meaning::Hexadecimal),
    field!(b"PERIODIC_WAKEUP", 131, 131, Meaning::Hexadecimal),
    field!(
        b"PROGRAM_CID_CSD_DDR_SUPPORT",
        130,
        130,
        Meaning::Flag(b"supported")
    ),
    reserved!(129, 128),
    field!(b"VENDOR_SPECIFIC_FIELD", 127, 64, Meaning::Hexadecimal),
    field!(b"NATIVE_SECTOR_SIZE", 63, 63, Meaning::Named(SECTORS)),
    field!(
        b"USE_NATIVE_SECTOR",
        62,
        62,
        Meaning::Flag(b"the native size is used")
    ),
    field!(b"DATA_SECTOR_SIZE", 61, 61, Meaning::Named(SECTORS)),
    field!(b"INI_TIMEOUT_EMU", 60, 60, scaled!(0, 100, b"ms")),
    field!(b"CLASS_6_CTRL", 59, 59, Meaning::Named(CLASS_6)),
    field!(b"DYNCAP_NEEDED", 58, 58, Meaning::Number),
    field!(b"EXCEPTION_EVENTS_CTRL", 57, 56, Meaning::Hexadecimal),
    field!(b"EXCEPTION_EVENTS_STATUS", 55, 54, Meaning::Bits(EVENTS)),
    field!(b"EXT_PARTITIONS_ATTRIBUTE", 53, 52, Meaning::Hexadecimal),
    field!(b"CONTEXT_CONF", 51, 37, Meaning::Hexadecimal),
    field!(
        b"PACKED_COMMAND_STATUS",
        36,
        36,
        Meaning::Bits(PACKED_STATUSES)
    ),
    field!(b"PACKED_FAILURE_INDEX", 35, 35, Meaning::Number),
    field!(
        b"POWER_OFF_NOTIFICATION",
        34,
        34,
        Meaning::Named(NOTIFICATIONS)
    ),
    field!(b"CACHE_CTRL", 33, 33, Meaning::Flag(b"on")),
    field!(b"FLUSH_CACHE", 32, 32, Meaning::Number),
    field!(b"BARRIER_CTRL", 31, 31, Meaning::Flag(b"on")),
    field!(b"MODE_CONFIG", 30, 30, Meaning::Named(MODES)),
    field!(b"MODE_OPERATION_CODES", 29, 29, Meaning::Number),
    reserved!(28, 27),
    field!(b"FFU_STATUS", 26, 26, Meaning::Named(FFU_STATUSES)),
    field!(b"PRE_LOADING_DATA_SIZE", 25, 22, Meaning::Number),
    field!(b"MAX_PRE_LOADING_DATA_SIZE", 21, 18, Meaning::Number),
    field!(
        b"PRODUCT_STATE_AWARENESS_ENABLEMENT",
        17,
        17,
        Meaning::Hexadecimal
    ),
    field!(b"SECURE_REMOVAL_TYPE", 16, 16, Meaning::Hexadecimal),
    field!(b"CMDQ_MODE_EN", 15, 15, Meaning::Flag(b"on")),
    reserved!(14, 0),
];

/// The fields of bytes 511 to 254.
pub(crate) fn from_511() -> &'static [Field]
    ensures covers { spans 512 254 result.now ≡ true }
    ensures fits { all_fit ExtCsd result.now ≡ true }
{
    &FROM_511
}

/// The fields of bytes 253 to 216.
pub(crate) fn from_253() -> &'static [Field]
    ensures covers { spans 254 216 result.now ≡ true }
    ensures fits { all_fit ExtCsd result.now ≡ true }
{
    &FROM_253
}

/// The fields of bytes 215 to 181.
pub(crate) fn from_215() -> &'static [Field]
    ensures covers { spans 216 181 result.now ≡ true }
    ensures fits { all_fit ExtCsd result.now ≡ true }
{
    &FROM_215
}

/// The fields of bytes 180 to 134.
pub(crate) fn from_180() -> &'static [Field]
    ensures covers { spans 181 134 result.now ≡ true }
    ensures fits { all_fit ExtCsd result.now ≡ true }
{
    &FROM_180
}

/// The fields of bytes 133 to 0.
pub(crate) fn from_133() -> &'static [Field]
    ensures covers { spans 134 0 result.now ≡ true }
    ensures fits { all_fit ExtCsd result.now ≡ true }
{
    &FROM_133
}
