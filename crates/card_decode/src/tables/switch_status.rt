// The fields of the switch status (SD Physical Layer 6.00, section 4.3.10.4).
ghost use Rattle.std.specs.Prelude.{◌≡◌, true};
ghost use Rattle.card_decode.specs.Fields.{all_fit};
ghost use Rattle.card_decode.specs.Tables.{covers_all};
ghost use Rattle.card_decode.specs.declared.register.Register.TheVariants.{SwitchStatus};

use crate::field::{Field, Meaning, Name, Scale};

const ACCESS_MODES: &[Name] = names![
    0 => b"default (SDR12)",
    1 => b"high speed (SDR25)",
    2 => b"SDR50",
    3 => b"SDR104",
    4 => b"DDR50",
];

const ACCESS_MODE: &[Name] = names![
    0 => b"default (SDR12)",
    1 => b"high speed (SDR25)",
    2 => b"SDR50",
    3 => b"SDR104",
    4 => b"DDR50",
    15 => b"none, or an error",
];

const SYSTEMS: &[Name] = names![
    0 => b"default",
    1 => b"for eC",
    3 => b"OTP",
    4 => b"ASSD",
];

const SYSTEM: &[Name] = names![
    0 => b"default",
    1 => b"for eC",
    3 => b"OTP",
    4 => b"ASSD",
    15 => b"none, or an error",
];

const STRENGTHS: &[Name] = names![
    0 => b"type B",
    1 => b"type A",
    2 => b"type C",
    3 => b"type D",
];

const STRENGTH: &[Name] = names![
    0 => b"type B",
    1 => b"type A",
    2 => b"type C",
    3 => b"type D",
    15 => b"none, or an error",
];

const LIMITS: &[Name] = names![
    0 => b"0.72 W",
    1 => b"1.44 W",
    2 => b"2.16 W",
    3 => b"2.88 W",
    4 => b"1.80 W",
];

const LIMIT: &[Name] = names![
    0 => b"0.72 W",
    1 => b"1.44 W",
    2 => b"2.16 W",
    3 => b"2.88 W",
    4 => b"1.80 W",
    15 => b"none, or an error",
];

const FUNCTIONS: &[Name] = names![
    0 => b"default",
];

const FUNCTION: &[Name] = names![
    0 => b"default",
    15 => b"none, or an error",
];

static SWITCH_STATUS: [Field; 21] = [
    field!(b"maximum current", 511, 496, scaled!(0, 1, b"mA")),
    field!(b"functions of group 6", 495, 480, Meaning::Bits(FUNCTIONS)),
    field!(b"functions of group 5", 479, 464, Meaning::Bits(FUNCTIONS)),
    field!(b"functions of group 4", 463, 448, Meaning::Bits(LIMITS)),
    field!(b"functions of group 3", 447, 432, Meaning::Bits(STRENGTHS)),
    field!(b"functions of group 2", 431, 416, Meaning::Bits(SYSTEMS)),
    field!(
        b"functions of group 1",
        415,
        400,
        Meaning::Bits(ACCESS_MODES)
    ),
    field!(b"selected of group 6", 399, 396, Meaning::Named(FUNCTION)),
    field!(b"selected of group 5", 395, 392, Meaning::Named(FUNCTION)),
    field!(b"selected of group 4", 391, 388, Meaning::Named(LIMIT)),
    field!(b"selected of group 3", 387, 384, Meaning::Named(STRENGTH)),
    field!(b"selected of group 2", 383, 380, Meaning::Named(SYSTEM)),
    field!(
        b"selected of group 1",
        379,
        376,
        Meaning::Named(ACCESS_MODE)
    ),
    field!(b"structure version", 375, 368, Meaning::Number),
    field!(b"busy functions of group 6", 367, 352, Meaning::Hexadecimal),
    field!(b"busy functions of group 5", 351, 336, Meaning::Hexadecimal),
    field!(b"busy functions of group 4", 335, 320, Meaning::Hexadecimal),
    field!(b"busy functions of group 3", 319, 304, Meaning::Hexadecimal),
    field!(b"busy functions of group 2", 303, 288, Meaning::Hexadecimal),
    field!(b"busy functions of group 1", 287, 272, Meaning::Hexadecimal),
    reserved!(271, 0),
];

/// The fields of the switch status.
pub(crate) fn switch_status() -> &'static [Field]
    ensures covers { covers_all SwitchStatus result.now ≡ true }
    ensures fits { all_fit SwitchStatus result.now ≡ true }
{
    &SWITCH_STATUS
}
