// Reads the text of a rule: when, and the text of a fault as a card file has it, `any`, or `gone`.
ghost use Rattle.std.specs.Prelude.{◌≡◌};
ghost use Rattle.card_text.specs.Parts.{left_parts, parts};
ghost use Rattle.card_rules.specs.RuleTexts.{chance_of, command_of, is_alone, nth_of, planned_by, range_of, rule_by, rule_of, small_of, what_of};

use crate::rule::{Rule, What, When};
use card_text::cut::cut;
use card_text::fault_text::fault;
use card_text::number::number;

// A number below 2^32.
#[tactic(auto, unfolding(crate::specs::RuleTexts::small_of))]
fn small(digits: &[u8]) -> Option<u32>
    ensures { result ≡ small_of digits.now }
{
    let number = number(digits)?;
    if number <= u32::MAX as u64 {
        Some(number as u32)
    } else {
        None
    }
}

// Whether it is this word alone.
#[tactic(auto, using(crate::proofs::TextLemmas::not_alone))]
fn is_alone(wanted: &[u8], text: Option<&[u8]>) -> bool
    ensures { result ≡ is_alone wanted.now (left_parts 32 text.entry) }
{
    let Some(text) = text else {
        return false;
    };
    match cut(text, b' ') {
        (word, None) => word == wanted,
        (_, Some(_)) => false,
    }
}

// `any`, `gone`, or the text of a fault.
#[tactic(auto, unfolding(crate::specs::RuleTexts::what_of))]
fn what(text: Option<&[u8]>) -> Option<What>
    ensures { result ≡ what_of (left_parts 32 text.entry) }
{
    if is_alone(b"any", text) {
        Some(What::Any)
    } else if is_alone(b"gone", text) {
        Some(What::Gone)
    } else {
        Some(What::This(fault(text)?))
    }
}

// A rule that plans what the text says.
#[tactic(auto, unfolding(crate::specs::RuleTexts::planned_by))]
fn planning(when: When, text: Option<&[u8]>) -> Option<Rule>
    ensures { result ≡ planned_by when (left_parts 32 text.entry) }
{
    Some(Rule {
        when,
        what: what(text)?,
    })
}

// `S`, or `S-T` with the first and the last sector.
#[tactic(auto, unfolding(crate::specs::RuleTexts::range_of))]
fn range(text: &[u8]) -> Option<(u32, u32)>
    ensures { result ≡ range_of (parts 45 text.now) }
{
    let (first, rest) = cut(text, b'-');
    let first = small(first)?;
    let Some(rest) = rest else {
        return Some((first, first));
    };
    match cut(rest, b'-') {
        (_, Some(_)) => None,
        (last, None) => {
            let last = small(last)?;
            if first <= last {
                Some((first, last))
            } else {
                None
            }
        }
    }
}

// `A/B`: so many of so many.
#[tactic(auto, unfolding(crate::specs::RuleTexts::chance_of))]
fn chance(text: &[u8]) -> Option<When>
    ensures { result ≡ chance_of (parts 47 text.now) }
{
    let (of, rest) = cut(text, b'/');
    let of = small(of)?;
    match cut(rest?, b'/') {
        (_, Some(_)) => None,
        (out_of, None) => {
            let out_of = small(out_of)?;
            if 0 < out_of && of <= out_of {
                Some(When::Chance { of, out_of })
            } else {
                None
            }
        }
    }
}

// The K-th command with this index, from 1.
#[tactic(auto, unfolding(crate::specs::RuleTexts::nth_of))]
fn nth(index: u8, nth: u64, text: Option<&[u8]>) -> Option<Rule>
    ensures { result ≡ nth_of index nth (left_parts 32 text.entry) }
{
    if nth == 0 {
        return None;
    }
    planning(
        When::After {
            index,
            before: nth - 1,
        },
        text,
    )
}

// The commands with this index: `FAULT`, or `K FAULT`.
#[tactic(auto, unfolding(crate::specs::RuleTexts::command_of))]
fn command(index: u8, text: Option<&[u8]>) -> Option<Rule>
    ensures { result ≡ command_of index (left_parts 32 text.entry) }
{
    let (word, rest) = cut(text?, b' ');
    match number(word) {
        None => planning(When::Each(index), text),
        Some(count) => nth(index, count, rest),
    }
}

// What the words after the first one say of it.
#[tactic(auto, unfolding(crate::specs::RuleTexts::rule_by))]
fn rule_by(key: &[u8], value: &[u8], rest: Option<&[u8]>) -> Option<Rule>
    ensures { result ≡ rule_by key.now value.now (left_parts 32 rest.entry) }
{
    if key == b"from".as_slice() {
        planning(When::From(number(value)?), rest)
    } else if key == b"cmd".as_slice() {
        let index = number(value)?;
        if index < 64 {
            command(index as u8, rest)
        } else {
            None
        }
    } else if key == b"read".as_slice() {
        let (first, last) = range(value)?;
        planning(When::Read { first, last }, rest)
    } else if key == b"write".as_slice() {
        let (first, last) = range(value)?;
        planning(When::Write { first, last }, rest)
    } else if key == b"random".as_slice() {
        planning(chance(value)?, rest)
    } else {
        None
    }
}

/// The rule that a text says, and nothing for another text:
///
/// - `N FAULT`: in the exchange with this number, counted from 0
/// - `from N FAULT`: in each exchange from this one on
/// - `cmd C FAULT`: in each command with this index, and `cmd C K FAULT` in the K-th of them, counted from 1
/// - `read S FAULT`, `read S-T FAULT`: in each block of these sectors that is read, and with `write` that is written
/// - `random A/B FAULT`: in so many of so many exchanges, by chance
///
/// FAULT is as in a card file, `any`, or `gone`.
#[tactic(auto, unfolding(crate::specs::RuleTexts::rule_of))]
pub fn read_rule(text: &[u8]) -> Option<Rule>
    ensures { result ≡ rule_of (parts 32 text.now) }
{
    let (word, rest) = cut(text, b' ');
    if let Some(exchange) = number(word) {
        return planning(When::At(exchange), rest);
    }
    let (value, others) = cut(rest?, b' ');
    rule_by(word, value, others)
}
