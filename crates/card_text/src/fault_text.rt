// Reads the text of a planned fault.
ghost use Rattle.std.specs.Prelude.{◌≡◌, option_map};
ghost use Rattle.card_text.specs.FaultTexts.{command_error_in, command_error_of, failure_of, fault_of};
ghost use Rattle.card_text.specs.FaultTexts.{fault_with_words_of, flips_of, lone_fault_of, lone_word_of, outcome_in};
ghost use Rattle.card_text.specs.FaultTexts.{early_failure, error_bits_of, further_lone_fault_of, outcome_of, position_of};
ghost use Rattle.card_text.specs.FaultTexts.{unseen_failure};
ghost use Rattle.card_text.specs.Parts.{left_parts, parts};

use crate::cut::cut;
use crate::hexadecimal::bytes;
use crate::number::number;
use mmc_card_sim::{CommandError, Fault, Flips, Outcome};

// A position of a bit in a frame: one past the frame, however large, as 255.
#[tactic(auto, unfolding(crate::specs::FaultTexts::position_of))]
fn position(digits: &[u8]) -> Option<u8>
    ensures { result ≡ position_of digits.now }
{
    let position = number(digits)?;
    Some(position.min(255) as u8)
}

// One position or two.
#[tactic(auto, unfolding(crate::specs::FaultTexts::flips_of))]
fn flips(words: &[u8]) -> Option<Flips>
    ensures { result ≡ flips_of (parts 32 words.now) }
{
    let (first, rest) = cut(words, b' ');
    let first = position(first)?;
    match rest {
        None => Some(Flips {
            first,
            second: None,
        }),
        Some(rest) => match cut(rest, b' ') {
            (_, Some(_)) => None,
            (second, None) => Some(Flips {
                first,
                second: Some(position(second)?),
            }),
        },
    }
}

// The one word of a text that has no other.
#[tactic(auto, unfolding(crate::specs::FaultTexts::lone_word_of))]
fn lone_word(words: &[u8]) -> Option<&[u8]>
    ensures { option_map (λ word. word.now) result ≡ lone_word_of (parts 32 words.now) }
{
    match cut(words, b' ') {
        (_, Some(_)) => None,
        (word, None) => Some(word),
    }
}

// `old` or `new`.
#[tactic(auto, unfolding(crate::specs::FaultTexts::outcome_in))]
fn outcome_in(word: &[u8]) -> Option<Outcome>
    ensures { result ≡ outcome_in word.now }
{
    if word == b"old".as_slice() {
        Some(Outcome::Old)
    } else if word == b"new".as_slice() {
        Some(Outcome::New)
    } else {
        None
    }
}

#[tactic(auto, unfolding(crate::specs::FaultTexts::outcome_of))]
fn outcome(words: &[u8]) -> Option<Outcome>
    ensures { result ≡ outcome_of (parts 32 words.now) }
{
    outcome_in(lone_word(words)?)
}

// `crc` or `illegal`.
#[tactic(auto, unfolding(crate::specs::FaultTexts::command_error_in))]
fn command_error_in(word: &[u8]) -> Option<CommandError>
    ensures { result ≡ command_error_in word.now }
{
    if word == b"crc".as_slice() {
        Some(CommandError::ComCrc)
    } else if word == b"illegal".as_slice() {
        Some(CommandError::Illegal)
    } else {
        None
    }
}

#[tactic(auto, unfolding(crate::specs::FaultTexts::command_error_of))]
fn command_error(words: &[u8]) -> Option<CommandError>
    ensures { result ≡ command_error_of (parts 32 words.now) }
{
    command_error_in(lone_word(words)?)
}

// Error bits as a status has them, in 8 digits.
#[tactic(auto, unfolding(crate::specs::FaultTexts::error_bits_of))]
fn error_bits(words: &[u8]) -> Option<u32>
    ensures { result ≡ error_bits_of (parts 32 words.now) }
{
    let digits = bytes(lone_word(words)?)?;
    Some(u32::from_be_bytes(digits))
}

// How programming fails: an outcome, and error bits where they are said.
#[tactic(auto, unfolding(crate::specs::FaultTexts::failure_of))]
fn failure(words: &[u8]) -> Option<Fault>
    ensures { result ≡ failure_of (parts 32 words.now) }
{
    match cut(words, b' ') {
        (word, None) => Some(Fault::Fail(outcome_in(word)?)),
        (word, Some(rest)) => match cut(rest, b' ') {
            (_, Some(_)) => None,
            (digits, None) => Some(Fault::FailWith(
                outcome_in(word)?,
                u32::from_be_bytes(bytes(digits)?),
            )),
        },
    }
}

// What fails so, but early: without error bits it is ERROR.
fn early_failure(fault: Fault) -> Fault
    ensures { result ≡ early_failure fault }
{
    match fault {
        Fault::Fail(outcome) => Fault::FailEarly(outcome, 0x0008_0000),
        Fault::FailWith(outcome, bits) => Fault::FailEarly(outcome, bits),
        other => other,
    }
}

// What fails so, but unseen: without error bits it is ERROR.
fn unseen_failure(fault: Fault) -> Fault
    ensures { result ≡ unseen_failure fault }
{
    match fault {
        Fault::Fail(outcome) => Fault::FailUnseen(outcome, 0x0008_0000),
        Fault::FailWith(outcome, bits) => Fault::FailUnseen(outcome, bits),
        other => other,
    }
}

// A fault that one word says: of a switch, of a block that is lost, or of what a card does besides.
#[tactic(auto, unfolding(crate::specs::FaultTexts::further_lone_fault_of))]
fn further_lone_fault(word: &[u8]) -> Option<Fault>
    ensures { result ≡ further_lone_fault_of word.now }
{
    if word == b"fail-switch".as_slice() {
        Some(Fault::FailSwitch)
    } else if word == b"fail-switch-late".as_slice() {
        Some(Fault::FailSwitchLate)
    } else if word == b"lose-failed-switch".as_slice() {
        Some(Fault::LoseFailedSwitch)
    } else if word == b"find-protection".as_slice() {
        Some(Fault::FindProtection)
    } else if word == b"lose-block".as_slice() {
        Some(Fault::LoseBlock)
    } else if word == b"reject-busy".as_slice() {
        Some(Fault::RejectBusy)
    } else {
        None
    }
}

// A fault that one word says.
#[tactic(auto, unfolding(crate::specs::FaultTexts::lone_fault_of))]
fn lone_fault(word: &[u8]) -> Option<Fault>
    ensures { result ≡ lone_fault_of word.now }
{
    if word == b"lose-command".as_slice() {
        Some(Fault::LoseCommand)
    } else if word == b"lose-reply".as_slice() {
        Some(Fault::LoseReply)
    } else if word == b"bad-block".as_slice() {
        Some(Fault::BadBlock)
    } else if word == b"no-block".as_slice() {
        Some(Fault::NoBlock)
    } else if word == b"read-error".as_slice() {
        Some(Fault::ReadError)
    } else if word == b"reject".as_slice() {
        Some(Fault::Reject)
    } else if word == b"reject-all".as_slice() {
        Some(Fault::RejectAll)
    } else if word == b"busy".as_slice() {
        Some(Fault::Busy)
    } else {
        further_lone_fault(word)
    }
}

// A fault whose name has further words.
#[tactic(auto, unfolding(crate::specs::FaultTexts::fault_with_words_of))]
fn fault_with_words(name: &[u8], words: &[u8]) -> Option<Fault>
    ensures { result ≡ fault_with_words_of name.now (parts 32 words.now) }
{
    if name == b"flip-command".as_slice() {
        Some(Fault::FlipCommand(flips(words)?))
    } else if name == b"flip-reply".as_slice() {
        Some(Fault::FlipReply(flips(words)?))
    } else if name == b"left-over".as_slice() {
        Some(Fault::LeaveOver(command_error(words)?))
    } else if name == b"show-error".as_slice() {
        Some(Fault::ShowError(error_bits(words)?))
    } else if name == b"find-error".as_slice() {
        Some(Fault::FindError(error_bits(words)?))
    } else if name == b"lose-status".as_slice() {
        Some(Fault::LoseStatus(outcome(words)?))
    } else if name == b"fail".as_slice() {
        failure(words)
    } else if name == b"fail-early".as_slice() {
        Some(early_failure(failure(words)?))
    } else if name == b"fail-unseen".as_slice() {
        Some(unseen_failure(failure(words)?))
    } else if name == b"brownout".as_slice() {
        Some(Fault::Brownout(outcome(words)?))
    } else {
        None
    }
}

/// The fault that a text says, and nothing where there is no text or it isn't of the grammar.
#[tactic(auto, unfolding(crate::specs::FaultTexts::fault_of))]
pub fn fault(text: Option<&[u8]>) -> Option<Fault>
    ensures { result ≡ fault_of (left_parts 32 text.entry) }
{
    match cut(text?, b' ') {
        (name, None) => lone_fault(name),
        (name, Some(words)) => fault_with_words(name, words),
    }
}
