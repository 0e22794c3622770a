// What the words of `serve` ask for of pictures.
ghost use Rattle.std.specs.Prelude.{◌≤◌, length};
ghost use Rattle.card_picture.specs.declared.sequence.TheConstants.{MAX_ROWS};

use crate::options::matched;
use crate::options_given::OptionFault;
use card_explain::Step;
use card_picture::MAX_ROWS;
use card_text::number::number;
use clap::ArgMatches;
use std::alloc::Global;

/// Which exchanges, by their numbers.
#[derive(Clone, Copy)]
pub struct Numbers {
    /// The first one.
    pub first: u64,
    /// The last one, not below the first.
    pub last: u64,
}

/// The files of pictures that are asked for, which exchanges are drawn, and whether the waveform has labels.
#[derive(Clone, Copy)]
pub struct Pictures<'a> {
    /// The name of the file for a sequence diagram.
    pub svg: Option<&'a str>,
    /// The name of the file for a page.
    pub html: Option<&'a str>,
    /// The name of the file for a timing diagram.
    pub timing: Option<&'a str>,
    /// Which exchanges, where they are given; otherwise the last.
    pub exchanges: Option<Numbers>,
    /// Whether the waveform has labels.
    pub labels: bool,
}

impl Pictures<'_> {
    /// Whether any is.
    pub fn asks(&self) -> bool {
        self.svg.is_some() || self.html.is_some() || self.timing.is_some()
    }
}

// Whether a word may ask for any of it, so that words that don't aren't read twice.
fn may_ask(word: &str) -> bool {
    word.starts_with("--svg")
        || word.starts_with("--html")
        || word.starts_with("--timing")
        || word.starts_with("--exchanges")
        || word.starts_with("--labels")
}

// The numbers that a text gives, as `20..40`.
fn read_numbers(text: &str) -> Option<Numbers> {
    let (first, last) = text.split_once("..")?;
    let first = number(first.as_bytes())?;
    let last = number(last.as_bytes())?;
    if first <= last {
        Some(Numbers { first, last })
    } else {
        None
    }
}

// The numbers of exchanges that are asked for, where any are.
fn numbers_given(text: Option<&str>) -> Result<Option<Numbers>, OptionFault> {
    match text {
        None => Ok(None),
        Some(text) => match read_numbers(text) {
            Some(numbers) => Ok(Some(numbers)),
            None => Err(OptionFault::Usage),
        },
    }
}

// Whether labels are asked for.
fn asks_labels(matches: &ArgMatches<'_>) -> bool {
    matches.get_str("labels") == Some("true")
}

// Whether labels are asked for, and no waveform.
fn lacks_wave(matches: &ArgMatches<'_>) -> bool {
    asks_labels(matches) && matches.get_str("vcd").is_none()
}

/// What the words ask for, which `options` has read before.
///
/// # Errors
/// `Usage` where the numbers of exchanges are none, or no picture is asked for with them, and where labels are asked for and no
/// waveform; `NoMemory`.
pub fn pictures_given<'a>(
    alloc: Global,
    words: &'a [&'a str],
) -> Result<Pictures<'a>, OptionFault> {
    if !words.iter().any(|word| may_ask(word)) {
        return Ok(Pictures {
            svg: None,
            html: None,
            timing: None,
            exchanges: None,
            labels: false,
        });
    }
    let Ok(matches) = matched(alloc, words) else {
        return Err(OptionFault::NoMemory);
    };
    let exchanges = numbers_given(matches.get_str("exchanges"))?;
    let pictures = Pictures {
        svg: matches.get_str("svg"),
        html: matches.get_str("html"),
        timing: matches.get_str("timing"),
        exchanges,
        labels: asks_labels(&matches),
    };
    if exchanges.is_some() && !pictures.asks() || lacks_wave(&matches) {
        return Err(OptionFault::Usage);
    }
    Ok(pictures)
}

/// Writes a line on standard error about the numbers of exchanges that are asked for, where they are why words are refused, and
/// says whether they are.
pub fn put_numbers_mistake(rt: &impl Eprint, matches: &ArgMatches<'_>) -> bool {
    let Some(text) = matches.get_str("exchanges") else {
        return false;
    };
    let _ = match read_numbers(text) {
        None => eprintln!(rt;
            "cardtool: --exchanges {text}: the first number and the last are wanted, as 20..40"
        ),
        Some(_) => eprintln!(rt; "cardtool: --exchanges goes with --svg, --html or --timing"),
    };
    true
}

/// Writes a line on standard error where labels are asked for and no waveform, and says whether they are.
pub fn put_labels_mistake(rt: &impl Eprint, matches: &ArgMatches<'_>) -> bool {
    let is_mistake = lacks_wave(matches);
    if is_mistake {
        let _ = eprintln!(rt; "cardtool: --labels goes with --vcd");
    }
    is_mistake
}

// Those of these numbers, of exchanges that follow each other.
fn part(steps: &[Step], numbers: Numbers) -> &[Step] {
    let Some(oldest) = steps.first() else {
        return steps;
    };
    let oldest = oldest.numbered.number;
    let from = numbers.first.saturating_sub(oldest).min(steps.len() as u64) as usize;
    let end = numbers.last.saturating_add(1).saturating_sub(oldest);
    let end = end.min(steps.len() as u64) as usize;
    &steps[from..end.max(from)]
}

/// The exchanges that are drawn: those of these numbers, or without them the last `most`.
pub fn drawn(steps: &[Step], numbers: Option<Numbers>, most: usize) -> &[Step]
    ensures { length result.now ≤ MAX_ROWS }
{
    let part = match numbers {
        Some(numbers) => part(steps, numbers),
        None => &steps[steps.len().saturating_sub(most)..],
    };
    &part[..part.len().min(MAX_ROWS)]
}
