// What the argument of a command asks for.
ghost use Rattle.std.specs.Prelude.{OnOk, ◌++◌, ◌≡◌};
ghost use Rattle.card_explain.specs.Arguments.{argument_words, byte_words, count_words, erase_words, function_words, other_function, rca_words};
ghost use Rattle.card_explain.specs.Arguments.{lines_words, part_words, sector_words, switch_words, timing_words, value_words, width_words};

use crate::words::say;
use mmc_card::Command;
use mmc_frame::Addressing;
use std::alloc::AllocError;
use text_out::Piece;

// The sector at an address, or the byte where it is none's first.
fn put_sector(out: &mut Vec<u8>, addressing: Addressing, address: u32) -> Result<(), AllocError>
    ensures { OnOk result (out.new.items ≡ out.old.items ++ sector_words addressing address) }
{
    let (unit, number) = match addressing {
        Addressing::Sectors => (b", sector ".as_slice(), address),
        Addressing::Bytes if address % 512 == 0 => (b", sector ".as_slice(), address / 512),
        Addressing::Bytes => (b", byte ".as_slice(), address),
    };
    say(out, &[Piece::Text(unit), Piece::Number(u64::from(number))])
}

// A byte of the EXT_CSD, by its name where a host writes it.
#[tactic(auto, unfolding(crate::specs::Arguments::byte_words))]
fn put_byte(out: &mut Vec<u8>, byte: u32) -> Result<(), AllocError>
    ensures { OnOk result (out.new.items ≡ out.old.items ++ byte_words byte) }
{
    match byte {
        175 => say_words(out, b", ERASE_GROUP_DEF"),
        179 => say_words(out, b", PARTITION_CONFIG"),
        183 => say_words(out, b", BUS_WIDTH"),
        185 => say_words(out, b", HS_TIMING"),
        _ => say(
            out,
            &[Piece::Text(b", byte "), Piece::Number(u64::from(byte))],
        ),
    }
}

// The partition that PARTITION_ACCESS, bits 2 to 0 of PARTITION_CONFIG, selects (JESD84-B51, section 7.4.69).
fn part_words(value: u32) -> &'static [u8]
    ensures { result.now ≡ part_words value }
{
    match value % 8 {
        0 => b": user",
        1 => b": boot1",
        2 => b": boot2",
        3 => b": RPMB",
        4 => b": gp1",
        5 => b": gp2",
        6 => b": gp3",
        _ => b": gp4",
    }
}

// How many lines BUS_WIDTH sets (JESD84-B51, section 7.4.67).
fn lines_words(value: u32) -> &'static [u8]
    ensures { result.now ≡ lines_words value }
{
    match value {
        0 => b": one line",
        1 => b": four lines",
        2 => b": eight lines",
        _ => b"",
    }
}

// Which timing HS_TIMING selects (JESD84-B51, section 7.4.65).
fn timing_words(value: u32) -> &'static [u8]
    ensures { result.now ≡ timing_words value }
{
    match value % 16 {
        0 => b": default speed",
        1 => b": high speed",
        2 => b": HS200",
        3 => b": HS400",
        _ => b"",
    }
}

// What a byte of the EXT_CSD is switched to.
fn value_words(byte: u32, value: u32) -> &'static [u8]
    ensures { result.now ≡ value_words byte value }
{
    match byte {
        179 => part_words(value),
        183 => lines_words(value),
        185 => timing_words(value),
        _ => b"",
    }
}

// The byte of the EXT_CSD that CMD6 of eMMC writes: which one in bits 23 to 16, and its value in bits 15 to 8.
fn put_switch(out: &mut Vec<u8>, argument: u32) -> Result<(), AllocError>
    ensures { OnOk result (out.new.items ≡ out.old.items ++ switch_words argument) }
{
    let byte = argument / 0x1_0000 % 0x100;
    let value = argument / 0x100 % 0x100;
    put_byte(out, byte)?;
    say(
        out,
        &[
            Piece::Text(b" to "),
            Piece::Number(u64::from(value)),
            Piece::Text(value_words(byte, value)),
        ],
    )
}

// Another function of group 1 than high speed, by bits 3 to 0.
fn put_other_function(out: &mut Vec<u8>, argument: u32) -> Result<(), AllocError>
    ensures { OnOk result (out.new.items ≡ out.old.items ++ other_function argument) }
{
    let verb = if argument / 0x8000_0000 == 1 {
        b", switches group 1 to function ".as_slice()
    } else {
        b", asks group 1 for function ".as_slice()
    };
    let function = u64::from(argument % 16);
    say(out, &[Piece::Text(verb), Piece::Number(function)])
}

// Whether CMD6 of SD switches or asks, by bit 31, and for what: high speed is function 1 of group 1 (SD Physical Layer 6.00,
// section 4.3.10).
fn put_function(out: &mut Vec<u8>, argument: u32) -> Result<(), AllocError>
    ensures { OnOk result (out.new.items ≡ out.old.items ++ function_words argument) }
{
    if argument % 16 != 1 {
        return put_other_function(out, argument);
    }
    if argument / 0x8000_0000 == 1 {
        say_words(out, b", switches to high speed")
    } else {
        say_words(out, b", asks for high speed")
    }
}

// How many lines ACMD6 sets, by bits 1 and 0.
fn width_words(argument: u32) -> &'static [u8]
    ensures { result.now ≡ width_words argument }
{
    if argument % 4 == 2 {
        b", four lines"
    } else {
        b", one line"
    }
}

// Whether CMD38 erases or trims.
fn erase_words(argument: u32) -> &'static [u8]
    ensures { result.now ≡ erase_words argument }
{
    if argument == 1 { b", trim" } else { b"" }
}

// These words.
fn say_words(out: &mut Vec<u8>, words: &'static [u8]) -> Result<(), AllocError>
    ensures { OnOk result (out.new.items ≡ out.old.items ++ words.now) }
{
    say(out, &[Piece::Text(words)])
}

// The RCA in bits 31 to 16.
fn put_rca(out: &mut Vec<u8>, argument: u32) -> Result<(), AllocError>
    ensures { OnOk result (out.new.items ≡ out.old.items ++ rca_words argument) }
{
    let rca = u64::from(argument / 0x1_0000);
    say(out, &[Piece::Text(b", RCA "), Piece::Number(rca)])
}

// So many of a unit.
fn put_count(out: &mut Vec<u8>, count: u32, unit: &'static [u8]) -> Result<(), AllocError>
    ensures { OnOk result (out.new.items ≡ out.old.items ++ count_words count unit.now) }
{
    let count = u64::from(count);
    say(
        out,
        &[Piece::Text(b", "), Piece::Number(count), Piece::Text(unit)],
    )
}

/// Writes what the argument of a command asks for, with a comma and a space before it: a sector, a length, an RCA. Where it asks
/// for nothing, or the command is unknown, it writes nothing.
///
/// # Errors
/// `AllocError` where memory is refused.
#[tactic(auto, unfolding(crate::specs::Arguments::argument_words))]
pub(crate) fn put_argument(
    out: &mut Vec<u8>,
    addressing: Addressing,
    command: Command,
    argument: u32,
) -> Result<(), AllocError>
    ensures { OnOk result (out.new.items ≡ out.old.items ++ argument_words addressing command argument) }
{
    match command {
        Command::SelectCard
        | Command::SendCsd
        | Command::SendStatus
        | Command::AppCmd
        | Command::SetRelativeAddr => put_rca(out, argument),
        Command::ReadSingleBlock
        | Command::ReadMultipleBlock
        | Command::WriteBlock
        | Command::WriteMultipleBlock
        | Command::EraseStart
        | Command::EraseEnd => put_sector(out, addressing, argument),
        Command::SetBlocklen => put_count(out, argument, b" bytes"),
        Command::SetBlockCount => put_count(out, argument % 0x1_0000, b" blocks"),
        Command::Switch => put_switch(out, argument),
        Command::SwitchFunc => put_function(out, argument),
        Command::SetBusWidth => say_words(out, width_words(argument)),
        Command::Erase => say_words(out, erase_words(argument)),
        _ => Ok(()),
    }
}
