// Faults by rules, as the words of a command give them.
use crate::fault::ServeFault;
use card_rules::Rules;
use card_text::number::number;
use clap::ArgMatches;
use std::alloc::Global;

// The seed of random numbers, 0 where none is given.
fn seed_given(matches: &ArgMatches<'_>) -> Result<u64, ServeFault> {
    match matches.get_str("seed") {
        None => Ok(0),
        Some(text) => number(text.as_bytes()).ok_or(ServeFault::Rule),
    }
}

/// The rules that the words give by `--fault RULE`, which may come more than once or not at all, and `--seed N`.
///
/// # Errors
/// `Rule`, `NoMemory`.
pub fn rules_given(alloc: Global, matches: &ArgMatches<'_>) -> Result<Rules, ServeFault> {
    let seed = seed_given(matches)?;
    let rules = match matches.get_strs("fault") {
        None => Rules::read(alloc, &[], seed)?,
        Some(texts) => Rules::read(alloc, texts, seed)?,
    };
    Ok(rules)
}
