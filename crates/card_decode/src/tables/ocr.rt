// The fields of an OCR (SD Physical Layer 6.00, section 5.1; JESD84-B51, section 7.1).
ghost use Rattle.std.specs.Prelude.{◌≡◌, true};
ghost use Rattle.mmc_frame.specs.declared.kind.Kind.TheVariants.{Mmc, Sd};
ghost use Rattle.card_decode.specs.Fields.{all_fit};
ghost use Rattle.card_decode.specs.Tables.{IsOcrMmc, IsOcrSd, covers_all};
ghost use Rattle.card_decode.specs.declared.register.Register.TheVariants.{Ocr};

use crate::field::{Field, Meaning, Name};

const POWER: &[Name] = names![0 => b"not ready", 1 => b"ready"];

const CAPACITIES: &[Name] = names![0 => b"byte addresses", 1 => b"sector addresses"];

const ACCESS_MODES: &[Name] = names![0 => b"byte addresses", 2 => b"sector addresses"];

const WINDOWS: &[Name] = names![
    0 => b"2.7 to 2.8 V",
    1 => b"2.8 to 2.9 V",
    2 => b"2.9 to 3.0 V",
    3 => b"3.0 to 3.1 V",
    4 => b"3.1 to 3.2 V",
    5 => b"3.2 to 3.3 V",
    6 => b"3.3 to 3.4 V",
    7 => b"3.4 to 3.5 V",
    8 => b"3.5 to 3.6 V",
];

const LOW_WINDOWS: &[Name] = names![
    0 => b"2.0 to 2.1 V",
    1 => b"2.1 to 2.2 V",
    2 => b"2.2 to 2.3 V",
    3 => b"2.3 to 2.4 V",
    4 => b"2.4 to 2.5 V",
    5 => b"2.5 to 2.6 V",
    6 => b"2.6 to 2.7 V",
];

static OCR_SD: [Field; 11] = [
    field!(b"busy", 31, 31, Meaning::Named(POWER)),
    field!(b"CCS", 30, 30, Meaning::Named(CAPACITIES)),
    field!(b"UHS-II", 29, 29, Meaning::Flag(b"a UHS-II card")),
    reserved!(28, 28),
    field!(b"CO2T", 27, 27, Meaning::Flag(b"more than 2 TB")),
    reserved!(26, 25),
    field!(
        b"S18A",
        24,
        24,
        Meaning::Flag(b"switching to 1.8 V is accepted")
    ),
    field!(b"VDD", 23, 15, Meaning::Bits(WINDOWS)),
    reserved!(14, 8),
    field!(b"low voltage range", 7, 7, Meaning::Number),
    reserved!(6, 0),
];

static OCR_MMC: [Field; 7] = [
    field!(b"busy", 31, 31, Meaning::Named(POWER)),
    field!(b"access mode", 30, 29, Meaning::Named(ACCESS_MODES)),
    reserved!(28, 24),
    field!(b"VDD", 23, 15, Meaning::Bits(WINDOWS)),
    field!(b"VDD", 14, 8, Meaning::Bits(LOW_WINDOWS)),
    field!(b"VDD", 7, 7, Meaning::Flag(b"1.70 to 1.95 V")),
    reserved!(6, 0),
];

/// The fields of an SD card's OCR.
pub(crate) fn ocr_sd() -> &'static [Field]
    ensures covers { covers_all (Ocr Sd) result.now ≡ true }
    ensures fits { all_fit (Ocr Sd) result.now ≡ true }
    ensures fields { IsOcrSd result.now }
{
    &OCR_SD
}

/// The fields of an eMMC device's OCR.
pub(crate) fn ocr_mmc() -> &'static [Field]
    ensures covers { covers_all (Ocr Mmc) result.now ≡ true }
    ensures fits { all_fit (Ocr Mmc) result.now ≡ true }
    ensures fields { IsOcrMmc result.now }
{
    &OCR_MMC
}
