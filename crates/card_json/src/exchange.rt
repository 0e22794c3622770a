// An exchange as an object.
ghost use Rattle.std.specs.Prelude.{◌++◌, ◌≡◌, IfOk, OnOk};
ghost use Rattle.card_json.specs.Exchanges.{busy_of, command_of, exchange_line, exchange_said, fault_of, fault_text_of, fell_of, in_of};
ghost use Rattle.card_json.specs.Exchanges.{length_of, out_of, phase_name, response_of, step_line, step_said};
ghost use Rattle.card_json.specs.Objects.{data_of, named};

use crate::object::put_object;
use crate::said::{Member, Said};
use card_explain::{KnownCard, Note, Phase, Step, put_fault};
use mmc_bus::{DataIn, DataOut, Exchange, Reply};
use std::alloc::{AllocError, Global};

// The frame of a command.
fn command_of(exchange: &Exchange) -> Said<'_>
    ensures { data_of result ≡ command_of exchange.now }
{
    match exchange {
        Exchange::Command { frame, .. } => Said::Hex(frame.as_slice()),
        _ => Said::Nothing,
    }
}

// The response to a command, where one came.
fn response_of(exchange: &Exchange) -> Said<'_>
    ensures { data_of result ≡ response_of exchange.now }
{
    match exchange {
        Exchange::Command {
            reply: Reply::Short(bytes),
            ..
        } => Said::Hex(bytes.as_slice()),
        Exchange::Command {
            reply: Reply::Long(bytes),
            ..
        } => Said::Hex(bytes.as_slice()),
        _ => Said::Nothing,
    }
}

// What became of a block that was to be read.
fn in_of(exchange: &Exchange) -> Said<'static>
    ensures { data_of result ≡ in_of exchange.now }
{
    match exchange {
        Exchange::In { got, .. } => match got {
            DataIn::Good => Said::Word("good"),
            DataIn::Bad => Said::Word("bad"),
            DataIn::Nothing => Said::Word("nothing"),
        },
        _ => Said::Nothing,
    }
}

// The length of a block that was to be read.
fn length_of(exchange: &Exchange) -> Said<'static>
    ensures { data_of result ≡ length_of exchange.now }
{
    match exchange {
        Exchange::In { len, .. } => Said::Number(*len as u64),
        _ => Said::Nothing,
    }
}

// What became of a block that was written.
fn out_of(exchange: &Exchange) -> Said<'static>
    ensures { data_of result ≡ out_of exchange.now }
{
    match exchange {
        Exchange::Out { got } => match got {
            DataOut::Accepted => Said::Word("accepted"),
            DataOut::Rejected => Said::Word("rejected"),
            DataOut::Nothing => Said::Word("nothing"),
        },
        _ => Said::Nothing,
    }
}

// What a poll was answered.
fn busy_of(exchange: &Exchange) -> Said<'static>
    ensures { data_of result ≡ busy_of exchange.now }
{
    match exchange {
        Exchange::Busy { yes } => Said::Truth(*yes),
        _ => Said::Nothing,
    }
}

// The name of a phase.
fn phase_name(phase: Phase) -> &'static str
    ensures { result.now ≡ phase_name phase }
{
    match phase {
        Phase::Identification => "identification",
        Phase::Transfer => "transfer",
        Phase::Settling => "settling",
    }
}

// The text of a planned fault, or no byte where none is.
fn fault_text(alloc: Global, note: Option<Note>) -> Result<Vec<u8>, AllocError>
    ensures { IfOk result (λ text. text.items ≡ fault_text_of note) }
{
    let mut text = Vec::new(alloc);
    if let Some(note) = note {
        put_fault(&mut text, note.fault)?;
    }
    Ok(text)
}

// The fault that was planned, whose text this is.
fn fault_said(note: Option<Note>, text: &[u8]) -> Said<'_>
    requires { text.now ≡ fault_text_of note }
    ensures { data_of result ≡ fault_of note }
{
    match note {
        Some(_) => Said::Text(text),
        None => Said::Nothing,
    }
}

// Whether a fault that was planned fell.
fn fell_of(note: Option<Note>) -> Said<'static>
    ensures { data_of result ≡ fell_of note }
{
    match note {
        Some(note) => Said::Truth(note.fell),
        None => Said::Nothing,
    }
}

// What an exchange is, and its words.
fn exchange_members<'a>(exchange: &'a Exchange, words: &'a [u8]) -> [Member<'a>; 7]
    ensures { named result ≡ exchange_said exchange.now words.now }
{
    [
        Member {
            name: "command",
            said: command_of(exchange),
        },
        Member {
            name: "response",
            said: response_of(exchange),
        },
        Member {
            name: "in",
            said: in_of(exchange),
        },
        Member {
            name: "length",
            said: length_of(exchange),
        },
        Member {
            name: "out",
            said: out_of(exchange),
        },
        Member {
            name: "busy",
            said: busy_of(exchange),
        },
        Member {
            name: "words",
            said: Said::Text(words),
        },
    ]
}

// The number of an exchange, its phase, and the fault that was planned for it.
fn step_members<'a>(step: &Step, fault: &'a [u8]) -> [Member<'a>; 4]
    requires { fault.now ≡ fault_text_of step.now.numbered.note }
    ensures { named result ≡ step_said step.now }
{
    [
        Member {
            name: "exchange",
            said: Said::Number(step.numbered.number),
        },
        Member {
            name: "phase",
            said: Said::Word(phase_name(step.phase)),
        },
        Member {
            name: "fault",
            said: fault_said(step.numbered.note, fault),
        },
        Member {
            name: "fell",
            said: fell_of(step.numbered.note),
        },
    ]
}

/// Writes an exchange as an object on a line, with words as `--explain` has them: a command has `command` and, where one came,
/// `response`, in hexadecimal digits; a block that was to be read `in` (`good`, `bad` or `nothing`) and its `length` in bytes; one
/// that was written `out` (`accepted`, `rejected` or `nothing`); a poll `busy`. `is_app` says that the exchange before it announced
/// an application command.
///
/// # Errors
/// `AllocError` where memory is refused.
pub fn put_exchange(
    alloc: Global,
    out: &mut Vec<u8>,
    card: KnownCard,
    is_app: bool,
    exchange: &Exchange,
) -> Result<(), AllocError>
    ensures { OnOk result (out.new.items ≡ out.old.items ++ exchange_line card is_app exchange.now) }
{
    let mut words = Vec::new(alloc);
    card_explain::put_exchange(&mut words, card, is_app, exchange)?;
    put_object(alloc, out, &exchange_members(exchange, words.as_slice()))
}

/// Writes an exchange by what those before it say of it: the same with its number as `exchange`, its `phase`, and where a fault was
/// planned for it the `fault`, as a card file has it, and whether it `fell`.
///
/// # Errors
/// `AllocError` where memory is refused.
pub fn put_step(
    alloc: Global,
    out: &mut Vec<u8>,
    card: KnownCard,
    step: &Step,
) -> Result<(), AllocError>
    ensures { OnOk result (out.new.items ≡ out.old.items ++ step_line card step.now) }
{
    let exchange = &step.numbered.exchange;
    let mut words = Vec::new(alloc);
    card_explain::put_exchange(&mut words, card, step.is_app, exchange)?;
    let fault = fault_text(alloc, step.numbered.note)?;
    let mut members = Vec::from_slice(alloc, &step_members(step, fault.as_slice()))?;
    members.extend_from_slice(&exchange_members(exchange, words.as_slice()))?;
    put_object(alloc, out, members.as_slice())
}
