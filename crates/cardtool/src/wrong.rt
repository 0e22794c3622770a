// What is told of words that are refused or had no effect, and of a card that isn't served. The first line is for programs too; a
// second one, for people, shows where standard error is a terminal, and with `--explain`.
use crate::options::matched;
use crate::options_given::OptionFault;
use crate::pictures::{Numbers, put_labels_mistake, put_numbers_mistake};
use card_commands::{put_hint, put_mistake, put_unknown};
use card_rules::RuledCard;
use card_served::ServeFault;
use clap::ArgMatches;
use clap::error::ErrorKind;
use std::rt::Files;

/// Whether the words ask for the second line.
pub fn asks_for_words(words: &[&str]) -> bool {
    words.iter().any(|word| *word == "--explain")
}

// What `clap` says of the words of `serve`.
fn put_refused(rt: &(impl Eprint + AllocGlobal), error: &clap::Error) {
    if error.kind() == ErrorKind::DisplayHelp {
        let _ = eprintln!(rt; "cardtool: `cardtool help serve` says more");
    } else {
        put_mistake(rt, error);
    }
}

// What is wrong with values that `clap` takes.
fn put_value_mistake(rt: &(impl Eprint + AllocGlobal), matches: &ArgMatches<'_>) {
    if !put_labels_mistake(rt, matches) && !put_numbers_mistake(rt, matches) {
        let _ = eprintln!(rt;
            "cardtool: --card and --script are needed, and --trace has 1 to 65536"
        );
    }
}

// What is wrong with the words of `serve`.
fn put_serve_mistake<'a>(rt: &(impl Eprint + AllocGlobal), words: &'a [&'a str]) {
    match matched(rt.alloc(), words) {
        Err(error) => put_refused(rt, &error),
        Ok(matches) => put_value_mistake(rt, &matches),
    }
}

/// Tells how `serve` is used, and where that is asked for what is wrong with these words.
pub fn put_usage(rt: &(impl Eprint + AllocGlobal), words: &[&str], for_people: bool) {
    let _ = eprintln!(rt; "{}", OptionFault::Usage);
    if !for_people {
        return;
    }
    match words {
        ["serve", ..] => put_serve_mistake(rt, words),
        ["--help" | "-h", ..] | [] => {
            let _ = eprintln!(rt; "cardtool: `cardtool help` lists the commands");
        }
        [word, ..] => put_unknown(rt, word),
    }
}

/// Tells why a card isn't served, and where that is asked for of which file.
pub fn put_fault<'a>(
    rt: &(impl Files + Eprint + AllocGlobal),
    words: &'a [&'a str],
    fault: ServeFault,
    for_people: bool,
) {
    let _ = eprintln!(rt; "cardtool: {fault}");
    if !for_people {
        return;
    }
    if let Ok(matches) = matched(rt.alloc(), words) {
        put_hint(rt, &matches, fault);
    }
}

/// Tells on standard error of options that had no effect on a card: rules of which none was about an exchange, and numbers of
/// exchanges to be drawn that are beyond the last.
pub fn put_idle(rt: &impl Eprint, card: &RuledCard, drawn: Option<Numbers>) {
    if !card.rules.rules.is_empty() && card.planned == 0 {
        let _ = eprintln!(rt; "cardtool: --fault: no exchange was one that a rule is about");
    }
    let exchanges = card.card.exchanges();
    match drawn {
        Some(Numbers { first, .. }) if first >= exchanges => {
            let _ = eprintln!(rt;
                "cardtool: --exchanges: there are {exchanges}, counted from 0, and none of these"
            );
        }
        _ => {}
    }
}
