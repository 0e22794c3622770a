// The fields of a card status, whose named bits have their rows in `mmc_frame` (SD Physical Layer 6.00, section 4.10.1;
// JESD84-B51, section 6.13).
ghost use Rattle.std.specs.Prelude.{◌≡◌, true};
ghost use Rattle.mmc_frame.specs.declared.kind.Kind.TheVariants.{Mmc, Sd};
ghost use Rattle.card_decode.specs.Fields.{all_fit};
ghost use Rattle.card_decode.specs.Tables.{covers_all};
ghost use Rattle.card_decode.specs.declared.register.Register.TheVariants.{CardStatus};

use crate::field::{Field, Meaning, Name};
use mmc_frame::status_bit;

// A bit by its name in SD's standard.
macro_rules! sd_bit {
    ($place:literal, $name:literal, $mmc_name:literal, $standard:ident, $meaning:literal, $is_error:literal,
        $clearing:ident) => {
        field!($name, $place, $place, Meaning::Flag($meaning))
    };
}

// A bit by its name in eMMC's standard.
macro_rules! mmc_bit {
    ($place:literal, $name:literal, $mmc_name:literal, $standard:ident, $meaning:literal, $is_error:literal,
        $clearing:ident) => {
        field!($mmc_name, $place, $place, Meaning::Flag($meaning))
    };
}

const STATES_SD: &[Name] = names![
    0 => b"idle",
    1 => b"ready",
    2 => b"ident",
    3 => b"stby",
    4 => b"tran",
    5 => b"data",
    6 => b"rcv",
    7 => b"prg",
    8 => b"dis",
];

const STATES_MMC: &[Name] = names![
    0 => b"idle",
    1 => b"ready",
    2 => b"ident",
    3 => b"stby",
    4 => b"tran",
    5 => b"data",
    6 => b"rcv",
    7 => b"prg",
    8 => b"dis",
    9 => b"btst",
    10 => b"slp",
];

static STATUS_SD: [Field; 26] = [
    status_bit!(OUT_OF_RANGE, sd_bit),
    status_bit!(ADDRESS_ERROR, sd_bit),
    status_bit!(BLOCK_LEN_ERROR, sd_bit),
    status_bit!(ERASE_SEQ_ERROR, sd_bit),
    status_bit!(ERASE_PARAM, sd_bit),
    status_bit!(WP_VIOLATION, sd_bit),
    status_bit!(CARD_IS_LOCKED, sd_bit),
    status_bit!(LOCK_UNLOCK_FAILED, sd_bit),
    status_bit!(COM_CRC_ERROR, sd_bit),
    status_bit!(ILLEGAL_COMMAND, sd_bit),
    status_bit!(CARD_ECC_FAILED, sd_bit),
    status_bit!(CC_ERROR, sd_bit),
    status_bit!(ERROR, sd_bit),
    reserved!(18, 17),
    status_bit!(CSD_OVERWRITE, sd_bit),
    status_bit!(WP_ERASE_SKIP, sd_bit),
    status_bit!(CARD_ECC_DISABLED, sd_bit),
    status_bit!(ERASE_RESET, sd_bit),
    field!(b"CURRENT_STATE", 12, 9, Meaning::Named(STATES_SD)),
    status_bit!(READY_FOR_DATA, sd_bit),
    reserved!(7, 7),
    status_bit!(FX_EVENT, sd_bit),
    status_bit!(APP_CMD, sd_bit),
    reserved!(4, 4),
    status_bit!(AKE_SEQ_ERROR, sd_bit),
    reserved!(2, 0),
];

static STATUS_MMC: [Field; 26] = [
    status_bit!(OUT_OF_RANGE, mmc_bit),
    status_bit!(ADDRESS_ERROR, mmc_bit),
    status_bit!(BLOCK_LEN_ERROR, mmc_bit),
    status_bit!(ERASE_SEQ_ERROR, mmc_bit),
    status_bit!(ERASE_PARAM, mmc_bit),
    status_bit!(WP_VIOLATION, mmc_bit),
    status_bit!(CARD_IS_LOCKED, mmc_bit),
    status_bit!(LOCK_UNLOCK_FAILED, mmc_bit),
    status_bit!(COM_CRC_ERROR, mmc_bit),
    status_bit!(ILLEGAL_COMMAND, mmc_bit),
    status_bit!(CARD_ECC_FAILED, mmc_bit),
    status_bit!(CC_ERROR, mmc_bit),
    status_bit!(ERROR, mmc_bit),
    field!(b"obsolete", 18, 17, Meaning::Number),
    status_bit!(CSD_OVERWRITE, mmc_bit),
    status_bit!(WP_ERASE_SKIP, mmc_bit),
    reserved!(14, 14),
    status_bit!(ERASE_RESET, mmc_bit),
    field!(b"CURRENT_STATE", 12, 9, Meaning::Named(STATES_MMC)),
    status_bit!(READY_FOR_DATA, mmc_bit),
    status_bit!(SWITCH_ERROR, mmc_bit),
    status_bit!(EXCEPTION_EVENT, mmc_bit),
    status_bit!(APP_CMD, mmc_bit),
    reserved!(4, 4),
    field!(b"application", 3, 2, Meaning::Number),
    field!(b"manufacturer", 1, 0, Meaning::Number),
];

/// The bits of an SD card's status.
pub(crate) fn status_sd() -> &'static [Field]
    ensures covers { covers_all (CardStatus Sd) result.now ≡ true }
    ensures fits { all_fit (CardStatus Sd) result.now ≡ true }
{
    &STATUS_SD
}

/// The bits of an eMMC device's status.
pub(crate) fn status_mmc() -> &'static [Field]
    ensures covers { covers_all (CardStatus Mmc) result.now ≡ true }
    ensures fits { all_fit (CardStatus Mmc) result.now ≡ true }
{
    &STATUS_MMC
}
