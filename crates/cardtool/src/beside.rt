// What the words of `serve` ask for beside what `Options` has: faults by rules, a line that says what happened, and JSON.
use crate::options::matched;
use card_rules::Rules;
use card_served::{ServeFault, rules_given};
use std::alloc::Global;

/// What is asked for besides.
#[derive(Drop)]
pub struct Beside {
    /// The rules by which faults are planned.
    pub rules: Rules,
    /// Whether a line on standard error says what happened.
    pub stats: bool,
    /// Whether files that are written replace those of their names.
    pub replaces: bool,
    /// Whether all is printed as JSON.
    pub json: bool,
}

impl Beside {
    /// Whether anything is.
    pub fn asks(&self) -> bool {
        self.stats || self.json || !self.rules.rules.is_empty()
    }
}

// Whether a word may ask for any of it, so that words that don't aren't read twice.
fn may_ask(word: &str) -> bool {
    ["--fault", "--seed", "--stats", "--force", "--json"]
        .iter()
        .any(|option| word.starts_with(option))
}

/// What the words ask for, which `options` has read before.
///
/// # Errors
/// `Rule`, `NoMemory`.
pub fn beside_given<'a>(alloc: Global, words: &'a [&'a str]) -> Result<Beside, ServeFault> {
    if !words.iter().any(|word| may_ask(word)) {
        return Ok(Beside {
            rules: Rules::new(Vec::new(alloc), 0),
            stats: false,
            replaces: false,
            json: false,
        });
    }
    let Ok(matches) = matched(alloc, words) else {
        return Err(ServeFault::NoMemory);
    };
    Ok(Beside {
        rules: rules_given(alloc, &matches)?,
        stats: matches.get_str("stats") == Some("true"),
        replaces: matches.get_str("force") == Some("true"),
        json: matches.get_str("json") == Some("true"),
    })
}
