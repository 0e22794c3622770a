// A line after an error's, for people: which file, why, and what says more.
use card_rules::read_rule;
use card_served::{ServeFault, path_of};
use clap::ArgMatches;
use std::fs::{self, File};
use std::io::Read;
use std::rt::Files;

// Why a file can't be read, as the system says it now.
fn put_cause(rt: &(impl Files + Eprint), name: &str) {
    let error = match File::open(rt, path_of(name)) {
        Err(error) => error,
        Ok(mut file) => match file.read(&mut [0]) {
            Err(error) => error,
            Ok(_) => return,
        },
    };
    let _ = eprintln!(rt; "cardtool: {name}: {error}");
}

// Why the file of an option can't be read.
fn put_read(rt: &(impl Files + Eprint), matches: &ArgMatches<'_>, option: &str) {
    if let Some(name) = matches.get_str(option) {
        put_cause(rt, name);
    }
}

// Which command says what is wrong with a card file.
fn put_check(rt: &impl Eprint, matches: &ArgMatches<'_>) {
    if let Some(card) = matches.get_str("card") {
        let _ = eprintln!(rt; "cardtool: {card}: `cardtool check --card {card}` says why");
    }
}

// Which command says whether a card's registers are why it isn't opened.
fn put_check_opening(rt: &impl Eprint, matches: &ArgMatches<'_>) {
    if let Some(card) = matches.get_str("card") {
        let _ = eprintln!(rt;
            "cardtool: {card}: `cardtool check --card {card}` says whether its registers are why"
        );
    }
}

// Which command says what is wrong with the file of an option that goes with a card file, or where there is none with the card file.
fn put_check_with(rt: &impl Eprint, matches: &ArgMatches<'_>, option: &str) {
    match (matches.get_str("card"), matches.get_str(option)) {
        (Some(card), Some(name)) => {
            let _ = eprintln!(rt;
                "cardtool: {name}: `cardtool check --card {card} --{option} {name}` says why"
            );
        }
        _ => put_check(rt, matches),
    }
}

// That the file of an option, which is to be made, is there already.
fn put_made(rt: &(impl Files + Eprint), matches: &ArgMatches<'_>, option: &str) {
    if let Some(name) = matches.get_str(option) {
        if fs::symlink_metadata(rt, name).is_ok() {
            let _ = eprintln!(rt; "cardtool: {name} is there already");
        }
    }
}

// The first rule that is none.
fn put_rule(rt: &impl Eprint, matches: &ArgMatches<'_>) {
    let Some(texts) = matches.get_strs("fault") else {
        return;
    };
    for text in texts {
        if read_rule(text.as_bytes()).is_none() {
            let _ = eprintln!(rt;
                "cardtool: `{text}` is no rule; `cardtool help serve` lists them"
            );
            return;
        }
    }
}

/// Writes a line on standard error that says more of a fault: the file of an option that it is about, and why, or which command
/// says why. Of a fault that is about no file it writes none.
pub fn put_hint(rt: &(impl Files + Eprint), matches: &ArgMatches<'_>, fault: ServeFault) {
    match fault {
        ServeFault::ReadCard => put_read(rt, matches, "card"),
        ServeFault::ReadScript => put_read(rt, matches, "script"),
        ServeFault::ReadImage => put_read(rt, matches, "image"),
        ServeFault::CardLine { .. } | ServeFault::CardIncomplete | ServeFault::Register => {
            put_check(rt, matches)
        }
        ServeFault::NoCard | ServeFault::Unsupported | ServeFault::Voltage | ServeFault::Locked =>
            put_check_opening(rt, matches),
        ServeFault::ScriptLine { .. } => put_check_with(rt, matches, "script"),
        ServeFault::ImageSize => put_check_with(rt, matches, "image"),
        ServeFault::Vcd => put_made(rt, matches, "vcd"),
        ServeFault::Save => put_made(rt, matches, "save"),
        ServeFault::Svg => put_made(rt, matches, "svg"),
        ServeFault::Html => put_made(rt, matches, "html"),
        ServeFault::Timing => put_made(rt, matches, "timing"),
        ServeFault::Rule => put_rule(rt, matches),
        _ => {}
    }
}
