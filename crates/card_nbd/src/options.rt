// The words of the command.
use crate::fault::NbdFault;
use card_rules::Rules;
use card_served::rules_given;
use clap::{Arg, ArgAction, ArgMatches, Command};
use mmc_bus::Part;
use nbd_server::part_by;
use std::alloc::{AllocError, Global};

/// What the words give.
#[derive(Drop)]
pub struct Options<'a> {
    /// The name of the card file.
    pub card: &'a str,
    /// The name of the image, where one was given.
    pub image: Option<&'a str>,
    /// The name of the file for the contents at the end, where one was given.
    pub save: Option<&'a str>,
    /// Whether a file of its name is replaced.
    pub replaces: bool,
    /// The partition that goes by the empty name, and that is saved alone, where one was given.
    pub part: Option<Part>,
    /// Whether a line at the end says what happened.
    pub stats: bool,
    /// The rules by which faults are planned.
    pub rules: Rules,
}

/// The command as `clap` reads it.
///
/// # Errors
/// `AllocError` where memory is refused.
pub fn nbd_command<'a>(alloc: Global) -> Result<Command<'a>, AllocError> {
    Command::new(alloc, "nbd")
        .arg(Arg::new(alloc, "card").long("card").required(true))?
        .arg(Arg::new(alloc, "image").long("image"))?
        .arg(Arg::new(alloc, "save").long("save"))?
        .arg(
            Arg::new(alloc, "force")
                .long("force")
                .action(ArgAction::SetTrue),
        )?
        .arg(Arg::new(alloc, "part").long("part"))?
        .arg(
            Arg::new(alloc, "fault")
                .long("fault")
                .action(ArgAction::Append),
        )?
        .arg(Arg::new(alloc, "seed").long("seed"))?
        .arg(
            Arg::new(alloc, "stats")
                .long("stats")
                .action(ArgAction::SetTrue),
        )
}

// The name of a file that is read; `-` is none, since standard input is the client's.
fn file_given<'a>(matches: &ArgMatches<'a>, option: &str) -> Result<Option<&'a str>, NbdFault> {
    match matches.get_str(option) {
        Some("-") => Err(NbdFault::Usage),
        name => Ok(name),
    }
}

// The partition that is named, where one is.
fn part_given(matches: &ArgMatches<'_>) -> Result<Option<Part>, NbdFault> {
    let Some(name) = matches.get_str("part") else {
        return Ok(None);
    };
    match part_by(name.as_bytes()) {
        Some(part) => Ok(Some(part)),
        None => Err(NbdFault::NoPart),
    }
}

/// The values of the words, of which `nbd` is the first.
///
/// # Errors
/// `Usage` for other words, and for a card file or an image `-`; `NoPart`; `Unserved` with `Rule` or `NoMemory`.
pub fn options_given<'a>(alloc: Global, words: &'a [&'a str]) -> Result<Options<'a>, NbdFault> {
    let command = nbd_command(alloc)?;
    let matches = command.try_get_matches_from(words)?;
    let Some(card) = file_given(&matches, "card")? else {
        return Err(NbdFault::Usage);
    };
    Ok(Options {
        card,
        image: file_given(&matches, "image")?,
        save: matches.get_str("save"),
        replaces: matches.get_str("force") == Some("true"),
        part: part_given(&matches)?,
        rules: rules_given(alloc, &matches)?,
        stats: matches.get_str("stats") == Some("true"),
    })
}
