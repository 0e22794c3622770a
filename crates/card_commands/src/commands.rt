// Which command the words name, and how it ends.
ghost use Rattle.std.specs.Prelude.{IfOk};
ghost use Rattle.card_commands.specs.Printed.{IsStatus};

use crate::check::{self, check};
use crate::decode::{self, decode};
use crate::fault::CommandFault;
use crate::help::{help, version};
use crate::hint::put_hint;
use crate::make::{self, make};
use crate::mistake::{put_mistake, put_unknown};
use crate::texts;
use card_nbd::{NbdFault, nbd, nbd_command};
use card_served::ServeFault;
use clap::Command;
use std::alloc::{AllocError, Global};
use std::io::{self, BufWriter, Input, Write};
use std::process::ExitCode;
use std::rt::Files;
use text_out::put::put;

/// A command beside `serve`.
#[derive(Clone, Copy, Debug, PartialEq, Eq)]
pub enum CommandName {
    New,
    Check,
    Decode,
    Nbd,
    Help,
    Version,
}

impl CommandName {
    /// The command of this name.
    pub fn by(name: &str) -> Option<CommandName> {
        match name {
            "new" => Some(CommandName::New),
            "check" => Some(CommandName::Check),
            "decode" => Some(CommandName::Decode),
            "nbd" => Some(CommandName::Nbd),
            "help" => Some(CommandName::Help),
            "version" | "--version" => Some(CommandName::Version),
            _ => None,
        }
    }

    // Its words as `clap` reads them, where it does.
    fn words<'a>(self, alloc: Global) -> Result<Option<Command<'a>>, AllocError> {
        match self {
            CommandName::New => Ok(Some(make::command(alloc)?)),
            CommandName::Check => Ok(Some(check::command(alloc)?)),
            CommandName::Decode => Ok(Some(decode::command(alloc)?)),
            CommandName::Nbd => Ok(Some(nbd_command(alloc)?)),
            CommandName::Help | CommandName::Version => Ok(None),
        }
    }

    /// What `help` prints of it.
    pub(crate) fn text(self) -> &'static str {
        match self {
            CommandName::New => texts::NEW,
            CommandName::Check => texts::CHECK,
            CommandName::Decode => texts::DECODE,
            CommandName::Nbd => texts::NBD,
            CommandName::Help => texts::HELP,
            CommandName::Version => texts::VERSION,
        }
    }
}

// The exit status where nothing is wrong.
const ALL_WELL: u8 = 0;
// The exit status where something is, or the words or files were refused, or the output failed.
const REFUSED: u8 = 2;

// Does what the words say, and gives the exit status.
fn done<W: Write>(
    rt: &(impl Files + Input + Print + Eprint + AllocGlobal),
    name: CommandName,
    words: &[&str],
    out: &mut W,
) -> Result<u8, CommandFault>
    ensures { IfOk result IsStatus }
{
    if asks_for_help(words) {
        put(out, name.text().as_bytes())?;
        return Ok(ALL_WELL);
    }
    match name {
        CommandName::New => make(rt.alloc(), words, out)?,
        CommandName::Decode => decode(rt.alloc(), words, &mut rt.reader(), out)?,
        CommandName::Nbd => nbd(rt, words)?,
        CommandName::Help => help(words, out)?,
        CommandName::Version => version(words, out)?,
        CommandName::Check => {
            if !check(rt, words, out)? {
                return Ok(REFUSED);
            }
        }
    }
    Ok(ALL_WELL)
}

// Does what the words say on standard output, and writes out what a buffer holds back.
fn done_buffered(
    rt: &(impl Files + Input + Print + Eprint + AllocGlobal),
    name: CommandName,
    words: &[&str],
) -> Result<u8, CommandFault>
    ensures { IfOk result IsStatus }
{
    let Ok(mut out) = BufWriter::new(rt.alloc(), io::writer(rt)) else {
        return Err(CommandFault::NoMemory);
    };
    let status = done(rt, name, words, &mut out)?;
    out.flush()?;
    Ok(status)
}

// The fault of a file that a command's is, if it is one.
fn file_fault(fault: CommandFault) -> Option<ServeFault> {
    match fault {
        CommandFault::Unread(fault) | CommandFault::Nbd(NbdFault::Unserved(fault)) => Some(fault),
        _ => None,
    }
}

// Whether the words ask for the text of their command.
fn asks_for_help(words: &[&str]) -> bool {
    words
        .iter()
        .skip(1)
        .any(|word| *word == "--help" || *word == "-h")
}

// Tells how a command is used, and what is wrong with these words.
fn put_usage(rt: &(impl Eprint + AllocGlobal), name: CommandName, words: &[&str]) {
    let _ = eprintln!(rt; "{}", first_line(name.text()));
    match (name.words(rt.alloc()), words) {
        (Ok(Some(command)), _) => {
            if let Err(error) = command.try_get_matches_from(words) {
                put_mistake(rt, &error);
            }
        }
        (_, ["help", word, ..]) => put_unknown(rt, word),
        _ => {}
    }
}

// Tells which file a fault is about, and why.
fn put_more<'a>(
    rt: &(impl Files + Eprint + AllocGlobal),
    name: CommandName,
    words: &'a [&'a str],
    fault: ServeFault,
) {
    let Ok(Some(command)) = name.words(rt.alloc()) else {
        return;
    };
    if let Ok(matches) = command.try_get_matches_from(words) {
        put_hint(rt, &matches, fault);
    }
}

// The first line of a text.
fn first_line(text: &str) -> &str {
    text.lines().next().unwrap_or(text)
}

/// Runs a command with its words, of which its name is the first, and gives the exit status: 0 where all went well, and 2
/// otherwise, with a line on standard error, and one that says more where there is something to say.
pub fn run<'a>(
    rt: &(impl Files + Input + Print + Eprint + AllocGlobal),
    name: CommandName,
    words: &'a [&'a str],
) -> ExitCode
    ensures { IsStatus result.status }
{
    match done_buffered(rt, name, words) {
        Ok(status) => ExitCode::from(status),
        Err(CommandFault::Usage) => {
            put_usage(rt, name, words);
            ExitCode::from(REFUSED)
        }
        Err(fault) => {
            let _ = eprintln!(rt; "cardtool: {fault}");
            if let Some(fault) = file_fault(fault) {
                put_more(rt, name, words, fault);
            }
            ExitCode::from(REFUSED)
        }
    }
}
