//! The bits of the card status, a row each (SD Physical Layer 6.00, section 4.10.1, table 4-42; JESD84-B51, section 6.13,
//! table 68). CURRENT_STATE, bits 12 to 9, is `crate::State`.
ghost use Rattle.std.specs.Prelude.{◌≡◌, ◌<◌, map};
ghost use Rattle.std.specs.List.{All};
ghost use Rattle.mmc_frame.specs.Status.{error_mask};
ghost use Rattle.mmc_frame.specs.StatusBits.{bit_names, errors_among, named};
ghost use Rattle.mmc_frame.specs.declared.kind.Kind.{Kind};

/// Which standard defines a bit.
#[derive(Clone, Copy, Debug, PartialEq, Eq)]
pub enum Standard {
    /// Both.
    Both,
    /// SD's alone.
    Sd,
    /// eMMC's alone.
    Mmc,
}

/// How a bit is cleared.
#[derive(Clone, Copy, Debug, PartialEq, Eq)]
pub enum Clearing {
    /// It follows what the card does (clear condition A).
    ByState,
    /// It tells of the command before, and the next sound command clears it (clear condition B).
    ByCommand,
    /// A response that shows it clears it (clear condition C).
    ByReading,
}

/// A bit of the card status.
#[derive(Clone, Copy, Debug)]
pub struct StatusBit {
    /// Its place, the lowest at 0.
    pub place: u8,
    /// Its name in SD's standard, or in eMMC's where that alone defines it.
    pub name: &'static [u8],
    /// Its name in eMMC's standard, or in SD's where that alone defines it.
    pub mmc_name: &'static [u8],
    /// Who defines it.
    pub standard: Standard,
    /// What it says where it is 1.
    pub meaning: &'static [u8],
    /// Whether what shows it failed.
    pub is_error: bool,
    /// How it is cleared.
    pub clearing: Clearing,
}

/// Gives the row of a bit to a macro: its place, its names in SD's and in eMMC's standard, who defines it, its meaning, whether
/// it is an error, and how it is cleared. So a table of constants can take what it needs of a row.
#[macro_export]
macro_rules! status_bit {
    // The argument lies outside of the card.
    (OUT_OF_RANGE, $take:ident) => {
        $take!(31, b"OUT_OF_RANGE", b"ADDRESS_OUT_OF_RANGE", Both, b"error", true, ByReading)
    };
    // The address isn't one of a block's first byte.
    (ADDRESS_ERROR, $take:ident) => {
        $take!(30, b"ADDRESS_ERROR", b"ADDRESS_MISALIGN", Both, b"error", true, ByReading)
    };
    // The card doesn't have this length of a block, or the host sent another one.
    (BLOCK_LEN_ERROR, $take:ident) => {
        $take!(29, b"BLOCK_LEN_ERROR", b"BLOCK_LEN_ERROR", Both, b"error", true, ByReading)
    };
    // The commands of an erase came in a wrong order.
    (ERASE_SEQ_ERROR, $take:ident) => {
        $take!(28, b"ERASE_SEQ_ERROR", b"ERASE_SEQ_ERROR", Both, b"error", true, ByReading)
    };
    // What was to be erased can't be.
    (ERASE_PARAM, $take:ident) => {
        $take!(27, b"ERASE_PARAM", b"ERASE_PARAM", Both, b"error", true, ByReading)
    };
    // What was to be written is protected.
    (WP_VIOLATION, $take:ident) => {
        $take!(26, b"WP_VIOLATION", b"WP_VIOLATION", Both, b"error", true, ByReading)
    };
    // A password locks the card.
    (CARD_IS_LOCKED, $take:ident) => {
        $take!(25, b"CARD_IS_LOCKED", b"DEVICE_IS_LOCKED", Both, b"locked", false, ByState)
    };
    // Locking or unlocking the card failed.
    (LOCK_UNLOCK_FAILED, $take:ident) => {
        $take!(24, b"LOCK_UNLOCK_FAILED", b"LOCK_UNLOCK_FAILED", Both, b"error", true, ByReading)
    };
    // The check of the command before was bad.
    (COM_CRC_ERROR, $take:ident) => {
        $take!(23, b"COM_CRC_ERROR", b"COM_CRC_ERROR", Both, b"error", true, ByCommand)
    };
    // The command before isn't one for the card's state.
    (ILLEGAL_COMMAND, $take:ident) => {
        $take!(22, b"ILLEGAL_COMMAND", b"ILLEGAL_COMMAND", Both, b"error", true, ByCommand)
    };
    // The card's ECC couldn't correct what it read.
    (CARD_ECC_FAILED, $take:ident) => {
        $take!(21, b"CARD_ECC_FAILED", b"DEVICE_ECC_FAILED", Both, b"error", true, ByReading)
    };
    // The card's controller failed.
    (CC_ERROR, $take:ident) => {
        $take!(20, b"CC_ERROR", b"CC_ERROR", Both, b"error", true, ByReading)
    };
    // Some other error befell the card.
    (ERROR, $take:ident) => {
        $take!(19, b"ERROR", b"ERROR", Both, b"error", true, ByReading)
    };
    // What was to be written of the CSD (of eMMC also of the CID) can only be read, or doesn't fit.
    (CSD_OVERWRITE, $take:ident) => {
        $take!(16, b"CSD_OVERWRITE", b"CID/CSD_OVERWRITE", Both, b"error", true, ByReading)
    };
    // Protected blocks weren't erased.
    (WP_ERASE_SKIP, $take:ident) => {
        $take!(15, b"WP_ERASE_SKIP", b"WP_ERASE_SKIP", Both, b"error", true, ByReading)
    };
    // The command was carried out without the card's ECC.
    (CARD_ECC_DISABLED, $take:ident) => {
        $take!(14, b"CARD_ECC_DISABLED", b"CARD_ECC_DISABLED", Sd, b"without the internal ECC", false, ByState)
    };
    // Another command came between those of an erase.
    (ERASE_RESET, $take:ident) => {
        $take!(13, b"ERASE_RESET", b"ERASE_RESET", Both, b"an erase sequence was cleared", true, ByReading)
    };
    // The card's buffer is empty.
    (READY_FOR_DATA, $take:ident) => {
        $take!(8, b"READY_FOR_DATA", b"READY_FOR_DATA", Both, b"ready", false, ByState)
    };
    // The device didn't switch.
    (SWITCH_ERROR, $take:ident) => {
        $take!(7, b"SWITCH_ERROR", b"SWITCH_ERROR", Mmc, b"error", true, ByReading)
    };
    (FX_EVENT, $take:ident) => {
        $take!(6, b"FX_EVENT", b"FX_EVENT", Sd, b"an extension function has an event", false, ByState)
    };
    (EXCEPTION_EVENT, $take:ident) => {
        $take!(6, b"EXCEPTION_EVENT", b"EXCEPTION_EVENT", Mmc, b"an event in EXCEPTION_EVENTS_STATUS", false, ByState)
    };
    // The next command is an application command, or this one was.
    (APP_CMD, $take:ident) => {
        $take!(5, b"APP_CMD", b"APP_CMD", Both, b"an application command is expected", false, ByReading)
    };
    // The commands of an authentication came in a wrong order. The stack sends none, and doesn't judge the bit.
    (AKE_SEQ_ERROR, $take:ident) => {
        $take!(3, b"AKE_SEQ_ERROR", b"AKE_SEQ_ERROR", Sd, b"error", false, ByReading)
    };
}

macro_rules! row {
    ($place:literal, $name:literal, $mmc_name:literal, $standard:ident, $meaning:literal, $is_error:literal,
        $clearing:ident) => {
        StatusBit {
            place: $place,
            name: $name,
            mmc_name: $mmc_name,
            standard: Standard::$standard,
            meaning: $meaning,
            is_error: $is_error,
            clearing: Clearing::$clearing,
        }
    };
}

static STATUS_BITS: [StatusBit; 23] = [
    status_bit!(OUT_OF_RANGE, row),
    status_bit!(ADDRESS_ERROR, row),
    status_bit!(BLOCK_LEN_ERROR, row),
    status_bit!(ERASE_SEQ_ERROR, row),
    status_bit!(ERASE_PARAM, row),
    status_bit!(WP_VIOLATION, row),
    status_bit!(CARD_IS_LOCKED, row),
    status_bit!(LOCK_UNLOCK_FAILED, row),
    status_bit!(COM_CRC_ERROR, row),
    status_bit!(ILLEGAL_COMMAND, row),
    status_bit!(CARD_ECC_FAILED, row),
    status_bit!(CC_ERROR, row),
    status_bit!(ERROR, row),
    status_bit!(CSD_OVERWRITE, row),
    status_bit!(WP_ERASE_SKIP, row),
    status_bit!(CARD_ECC_DISABLED, row),
    status_bit!(ERASE_RESET, row),
    status_bit!(READY_FOR_DATA, row),
    status_bit!(SWITCH_ERROR, row),
    status_bit!(FX_EVENT, row),
    status_bit!(EXCEPTION_EVENT, row),
    status_bit!(APP_CMD, row),
    status_bit!(AKE_SEQ_ERROR, row),
];

/// All of them, the highest first.
pub fn status_bits() -> &'static [StatusBit]
    ensures places { All (λ bit. bit.place < 32) result.now }
    ensures names { map named result.now ≡ bit_names }
    ensures errors { (kind : Kind) → errors_among kind result.now ≡ error_mask kind }
{
    &STATUS_BITS
}
