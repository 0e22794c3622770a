// `new`: a card file whose registers and checks fit.
ghost use Rattle.std.specs.Prelude.{◌≡◌, IfErr, IfOk};
ghost use Rattle.card_commands.specs.Printed.{PrintsCard};
ghost use Rattle.card_commands.specs.declared.fault.CommandFault.TheVariants as Fault;

use crate::decode::kind_named;
use crate::fault::CommandFault;
use card_maker::{Wanted, card_by, put_card_file};
use card_text::number::number;
use clap::{Arg, ArgAction, ArgMatches, Command};
use mmc_frame::Kind;
use std::alloc::{AllocError, Global};
use std::io::Write;

/// The command as `clap` reads it.
pub(crate) fn command<'a>(alloc: Global) -> Result<Command<'a>, AllocError> {
    let command = Command::new(alloc, "new")
        .arg(Arg::new(alloc, "kind").long("kind").required(true))?
        .arg(Arg::new(alloc, "sectors").long("sectors").required(true))?
        .arg(Arg::new(alloc, "lines").long("lines"))?
        .arg(Arg::new(alloc, "boot").long("boot"))?
        .arg(Arg::new(alloc, "gp").long("gp"))?;
    command
        .arg(
            Arg::new(alloc, "highspeed")
                .long("highspeed")
                .action(ArgAction::SetTrue),
        )?
        .arg(
            Arg::new(alloc, "cmd23")
                .long("cmd23")
                .action(ArgAction::SetTrue),
        )?
        .arg(
            Arg::new(alloc, "readonly")
                .long("readonly")
                .action(ArgAction::SetTrue),
        )
}

// The number of an option, or this one where it is left out.
fn number_of(
    matches: &ArgMatches<'_>,
    option: &'static str,
    otherwise: u64,
) -> Result<u64, CommandFault> {
    let Some(text) = matches.get_str(option) else {
        return Ok(otherwise);
    };
    match number(text.as_bytes()) {
        Some(count) => Ok(count),
        None => Err(CommandFault::Value {
            option,
            expected: "a number of sectors",
        }),
    }
}

// Whether four lines are wanted of a card of this kind.
fn four_lines(kind: Kind, lines: Option<&str>) -> Result<bool, CommandFault> {
    match (kind, lines) {
        (_, None | Some("4")) | (Kind::Mmc, Some("8" | "1")) => Ok(true),
        (Kind::Sd, Some("1")) => Ok(false),
        (Kind::Sd, Some(_)) => Err(CommandFault::Value {
            option: "lines",
            expected: "1 or 4 of an SD card",
        }),
        (Kind::Mmc, Some(_)) => Err(CommandFault::Value {
            option: "lines",
            expected: "1, 4 or 8 of an eMMC device, which has all of them",
        }),
    }
}

// What is wanted of the card.
fn wanted(matches: &ArgMatches<'_>) -> Result<Wanted, CommandFault> {
    let kind = kind_named(matches.get_str("kind"))?;
    Ok(Wanted {
        kind,
        sectors: number_of(matches, "sectors", 0)?,
        four_lines: four_lines(kind, matches.get_str("lines"))?,
        high_speed: matches.get_flag("highspeed"),
        cmd23: matches.get_flag("cmd23"),
        boot: number_of(matches, "boot", 0)?,
        gp: number_of(matches, "gp", 0)?,
        read_only: matches.get_flag("readonly"),
    })
}

/// Prints the card file of a card as the words want it, of which `new` is the first.
///
/// # Errors
/// `Usage` or `Value` for other words, `Make` where no card is like that; `NoMemory`; `Write`, where a front of the file went out.
pub fn make<W: Write>(alloc: Global, words: &[&str], out: &mut W) -> Result<(), CommandFault>
    ensures printed { IfOk result (λ _. PrintsCard (W.contents out.old) (W.contents out.new)) }
    ensures unprinted { IfErr result (λ fault. (fault ≡ Fault.Write → ⊥) → W.contents out.new ≡ W.contents out.old) }
{
    let command = command(alloc)?;
    let matches = command.try_get_matches_from(words)?;
    let wanted = wanted(&matches)?;
    match card_by(&wanted) {
        Ok(card) => {
            put_card_file(out, &card)?;
            Ok(())
        }
        Err(fault) => Err(CommandFault::Make(fault)),
    }
}
