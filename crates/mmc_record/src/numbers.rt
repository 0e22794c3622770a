// The numbers that stand for what isn't a number.
ghost use Rattle.std.specs.Prelude.{◌≡◌, None, Option, Some};
ghost use Rattle.mmc_record.specs.Numbers.{addressing_of, cause_of, is_set, kind_of, part_of, timing_of, width_of};

use mmc_bus::{Cause, Part, Timing, Width};
use mmc_frame::{Addressing, Kind};

/// The partition with this number: 0 the user partition, 1 and 2 the boot partitions, 3 to 6 those of general purpose.
pub fn part_of(number: u8) -> Option<Part>
    ensures { result ≡ part_of number }
{
    match number {
        0 => Some(Part::User),
        1 => Some(Part::Boot1),
        2 => Some(Part::Boot2),
        3 => Some(Part::Gp1),
        4 => Some(Part::Gp2),
        5 => Some(Part::Gp3),
        6 => Some(Part::Gp4),
        _ => None,
    }
}

/// The number of a partition that is selected; 255 where none is.
pub fn part_number(selected: Option<Part>) -> u8
    ensures { part_of result ≡ selected }
{
    match selected {
        Some(Part::User) => 0,
        Some(Part::Boot1) => 1,
        Some(Part::Boot2) => 2,
        Some(Part::Gp1) => 3,
        Some(Part::Gp2) => 4,
        Some(Part::Gp3) => 5,
        Some(Part::Gp4) => 6,
        None => 255,
    }
}

/// The kind with this number: 0 is an SD card, every other an eMMC device.
pub fn kind_of(number: u8) -> Kind
    ensures { result ≡ kind_of number }
{
    if number == 0 { Kind::Sd } else { Kind::Mmc }
}

/// The number of a kind: 0 for an SD card, 1 for an eMMC device.
pub fn kind_number(kind: Kind) -> u8
    ensures { kind_of result ≡ kind }
{
    match kind {
        Kind::Sd => 0,
        Kind::Mmc => 1,
    }
}

/// The addressing with this number: 0 counts bytes, every other counts sectors.
pub fn addressing_of(number: u8) -> Addressing
    ensures { result ≡ addressing_of number }
{
    if number == 0 {
        Addressing::Bytes
    } else {
        Addressing::Sectors
    }
}

/// The number of an addressing: 0 for bytes, 1 for sectors.
pub fn addressing_number(addressing: Addressing) -> u8
    ensures { addressing_of result ≡ addressing }
{
    match addressing {
        Addressing::Bytes => 0,
        Addressing::Sectors => 1,
    }
}

/// The bus width of so many data lines: 8, 4, and 1 for every other number.
pub fn width_of(lines: u8) -> Width
    ensures { result ≡ width_of lines }
{
    match lines {
        8 => Width::Eight,
        4 => Width::Four,
        _ => Width::One,
    }
}

/// How many data lines a bus width has.
pub fn width_number(width: Width) -> u8
    ensures { width_of result ≡ width }
{
    match width {
        Width::One => 1,
        Width::Four => 4,
        Width::Eight => 8,
    }
}

/// The timing with this number: 0 is the default speed, every other is high speed.
pub fn timing_of(high_speed: u8) -> Timing
    ensures { result ≡ timing_of high_speed }
{
    if high_speed == 0 {
        Timing::Default
    } else {
        Timing::High
    }
}

/// The number of a timing: 0 for the default speed, 1 for high speed.
pub fn timing_number(timing: Timing) -> u8
    ensures { timing_of result ≡ timing }
{
    match timing {
        Timing::Default => 0,
        Timing::High => 1,
    }
}

/// What broke, by its number: 0 the answer, 1 the data, 2 the status, 3 busy, and every other the recovery.
pub fn cause_of(number: u8) -> Cause
    ensures { result ≡ cause_of number }
{
    match number {
        0 => Cause::Answer,
        1 => Cause::Data,
        2 => Cause::Status,
        3 => Cause::Busy,
        _ => Cause::Recovery,
    }
}

/// The number of what broke, 0 to 4.
pub fn cause_number(cause: Cause) -> u8
    ensures { cause_of result ≡ cause }
{
    match cause {
        Cause::Answer => 0,
        Cause::Data => 1,
        Cause::Status => 2,
        Cause::Busy => 3,
        Cause::Recovery => 4,
    }
}

/// Whether a flag is set: every number but 0 is.
pub fn is_set(number: u8) -> bool
    ensures { result ≡ is_set number }
{
    number != 0
}

/// The number of a flag: 1 where it is set, 0 where not.
pub fn flag(is_set_now: bool) -> u8
    ensures { is_set result ≡ is_set_now }
{
    if is_set_now { 1 } else { 0 }
}
