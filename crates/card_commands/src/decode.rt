// `decode`: a register or a frame, field by field, or a trace with words after its lines; or all of it as JSON.
ghost use Rattle.std.specs.Prelude.{◌≡◌, [], IfErr, IfOk, Ok, Some, length};
ghost use Rattle.card_commands.specs.Printed.{IsDecoded, PrintsDecoded, frame_lines};
ghost use Rattle.card_decode.specs.Registers.{register_len};
ghost use Rattle.card_decode.specs.Summaries.{PutsRegister};
ghost use Rattle.card_commands.specs.declared.fault.CommandFault.TheVariants as Fault;

use crate::fault::CommandFault;
use card_decode::{Frame, Register, put_register, read_frame, read_register};
use card_explain::{KnownCard, put_frame, put_long_frame};
use card_json::put_fields;
use card_served::{ServeFault, whole};
use card_trace::{Form, put_trace};
use clap::{Arg, ArgAction, Command};
use mmc_frame::{Addressing, Kind};
use std::alloc::{AllocError, Global};
use std::io::{Read, Write};
use text_out::put::put;

// The most bytes of digits that are read from standard input.
const MAX_DIGITS: usize = 65_536;

// The most bytes of a trace: as many exchanges as `serve` keeps have fewer.
const MAX_TRACE: usize = 4_194_304;

// What is to be decoded.
#[derive(Clone, Copy)]
enum Subject {
    // A register.
    Register(Register),
    // A frame of 48 or 136 bits.
    Frame,
    // The lines of exchanges, as `serve --trace` prints them.
    Trace,
}

impl Subject {
    // The most bytes of it that are read from standard input.
    fn max_bytes(self) -> usize {
        match self {
            Subject::Register(_) | Subject::Frame => MAX_DIGITS,
            Subject::Trace => MAX_TRACE,
        }
    }
}

// The kind of card that a word names; without a word it is an SD card.
pub(crate) fn kind_named(word: Option<&str>) -> Result<Kind, CommandFault> {
    match word {
        None | Some("sd") => Ok(Kind::Sd),
        Some("mmc") => Ok(Kind::Mmc),
        Some(_) => Err(CommandFault::Value {
            option: "kind",
            expected: "sd or mmc",
        }),
    }
}

// How the commands of a card count that a word says; without a word they count bytes.
fn addressing_named(word: Option<&str>) -> Result<Addressing, CommandFault> {
    match word {
        None | Some("bytes") => Ok(Addressing::Bytes),
        Some("sectors") => Ok(Addressing::Sectors),
        Some(_) => Err(CommandFault::Value {
            option: "addresses",
            expected: "bytes or sectors",
        }),
    }
}

// What a word names.
fn subject_named(word: &str, kind: Kind) -> Result<Subject, CommandFault> {
    match word {
        "ocr" => Ok(Subject::Register(Register::Ocr(kind))),
        "cid" => Ok(Subject::Register(Register::Cid(kind))),
        "csd" => Ok(Subject::Register(Register::Csd(kind))),
        "scr" => Ok(Subject::Register(Register::Scr)),
        "ext_csd" => Ok(Subject::Register(Register::ExtCsd)),
        "status" => Ok(Subject::Register(Register::CardStatus(kind))),
        "switch" => Ok(Subject::Register(Register::SwitchStatus)),
        "frame" => Ok(Subject::Frame),
        "trace" => Ok(Subject::Trace),
        _ => Err(CommandFault::NoRegister),
    }
}

// What is printed of a register.
fn register_lines(alloc: Global, register: Register, bytes: &[u8]) -> Result<Vec<u8>, CommandFault>
    requires { length bytes.now ≡ register_len register }
    ensures { IfOk result (λ lines. PutsRegister register bytes.now (Some []) (Some lines.items) (Ok tt)) }
{
    let mut lines = Vec::new(alloc);
    match put_register(&mut lines, register, bytes) {
        Ok(()) => Ok(lines),
        Err(_) => Err(CommandFault::NoMemory),
    }
}

// The form that is asked for.
fn form_asked(json: bool) -> Form {
    if json { Form::Objects } else { Form::Words }
}

// What is printed of a frame.
fn frame_lines(alloc: Global, kind: Kind, frame: Frame) -> Result<Vec<u8>, AllocError>
    ensures { IfOk result (λ lines. lines.items ≡ frame_lines kind frame) }
{
    let mut lines = Vec::new(alloc);
    match frame {
        Frame::Short(bytes) => {
            put_frame(&mut lines, kind, &bytes)?;
            Ok(lines)
        }
        Frame::Long(bytes) => {
            put_long_frame(&mut lines, &bytes)?;
            Ok(lines)
        }
    }
}

// What is said of a register that these digits write.
fn register_text(alloc: Global, register: Register, digits: &[u8]) -> Result<Vec<u8>, CommandFault>
    ensures { IfOk result (λ text. IsDecoded text.items) }
{
    match read_register(alloc, register, digits) {
        Ok(bytes) => register_lines(alloc, register, bytes.as_slice()),
        Err(fault) => Err(CommandFault::Hex(fault)),
    }
}

// What is said of a frame that these digits write.
fn frame_text(alloc: Global, kind: Kind, digits: &[u8]) -> Result<Vec<u8>, CommandFault>
    ensures { IfOk result (λ text. IsDecoded text.items) }
{
    match read_frame(alloc, digits) {
        Ok(frame) => Ok(frame_lines(alloc, kind, frame)?),
        Err(fault) => Err(CommandFault::Hex(fault)),
    }
}

// Writes the lines of a register or of a frame, or an object for each.
fn put_text<W: Write>(
    alloc: Global,
    form: Form,
    text: &[u8],
    out: &mut W,
) -> Result<(), CommandFault>
    requires { IsDecoded text.now }
    ensures printed { IfOk result (λ _. PrintsDecoded (W.contents out.old) (W.contents out.new)) }
    ensures unprinted { IfErr result (λ fault. (fault ≡ Fault.Write → ⊥) → W.contents out.new ≡ W.contents out.old) }
{
    match form {
        Form::Words => {
            put(out, text)?;
            Ok(())
        }
        Form::Objects => {
            let mut objects = Vec::new(alloc);
            put_fields(alloc, &mut objects, text)?;
            put(out, objects.as_slice())?;
            Ok(())
        }
    }
}

// Whether nothing was said of a text. Of one of which no line is an exchange there is no object, and no words after it: it is as long
// as before, but for a last line feed.
fn is_nothing(form: Form, text: &[u8], said: &[u8]) -> bool {
    match form {
        Form::Words => said.len() <= text.len().saturating_add(1),
        Form::Objects => said.is_empty(),
    }
}

// Writes what is said of a trace.
fn put_trace_text<W: Write>(
    alloc: Global,
    form: Form,
    card: KnownCard,
    text: &[u8],
    out: &mut W,
) -> Result<(), CommandFault>
    ensures printed { IfOk result (λ _. PrintsDecoded (W.contents out.old) (W.contents out.new)) }
    ensures unprinted { IfErr result (λ fault. (fault ≡ Fault.Write → ⊥) → W.contents out.new ≡ W.contents out.old) }
{
    let mut lines = Vec::new(alloc);
    put_trace(alloc, &mut lines, form, card, text)?;
    if is_nothing(form, text, lines.as_slice()) {
        return Err(CommandFault::NoExchange);
    }
    put(out, lines.as_slice())?;
    Ok(())
}

// Writes what the digits say, or the text of a trace.
fn put_subject<W: Write>(
    alloc: Global,
    form: Form,
    subject: Subject,
    card: KnownCard,
    digits: &[u8],
    out: &mut W,
) -> Result<(), CommandFault>
    ensures printed { IfOk result (λ _. PrintsDecoded (W.contents out.old) (W.contents out.new)) }
    ensures unprinted { IfErr result (λ fault. (fault ≡ Fault.Write → ⊥) → W.contents out.new ≡ W.contents out.old) }
{
    match subject {
        Subject::Frame => {
            let text = frame_text(alloc, card.kind, digits)?;
            put_text(alloc, form, text.as_slice(), out)
        }
        Subject::Register(register) => {
            let text = register_text(alloc, register, digits)?;
            put_text(alloc, form, text.as_slice(), out)
        }
        Subject::Trace => put_trace_text(alloc, form, card, digits, out),
    }
}

// Writes what standard input says.
fn put_input<R: Read, W: Write>(
    alloc: Global,
    form: Form,
    subject: Subject,
    card: KnownCard,
    input: &mut R,
    out: &mut W,
) -> Result<(), CommandFault>
    ensures printed { IfOk result (λ _. PrintsDecoded (W.contents out.old) (W.contents out.new)) }
    ensures unprinted { IfErr result (λ fault. (fault ≡ Fault.Write → ⊥) → W.contents out.new ≡ W.contents out.old) }
{
    let digits = whole(alloc, input, subject.max_bytes(), ServeFault::ReadInput)?;
    put_subject(alloc, form, subject, card, digits.as_slice(), out)
}

/// The command as `clap` reads it.
pub(crate) fn command<'a>(alloc: Global) -> Result<Command<'a>, AllocError> {
    Command::new(alloc, "decode")
        .arg(Arg::new(alloc, "register").required(true))?
        .arg(Arg::new(alloc, "digits"))?
        .arg(Arg::new(alloc, "kind").long("kind"))?
        .arg(Arg::new(alloc, "addresses").long("addresses"))?
        .arg(
            Arg::new(alloc, "json")
                .long("json")
                .action(ArgAction::SetTrue),
        )
}

/// Decodes as the words say, of which `decode` is the first: a register or a frame, field by field, or a trace, whose lines get words;
/// or each as JSON, an object on a line. Without digits among the words they are read from `input`, and so is a trace.
///
/// # Errors
/// `Usage`, `Value` or `NoRegister` for other words; then `Unread` of the input, `Hex` of the digits, or `NoExchange` of a trace;
/// `NoMemory`;
/// `Write`, where a front of the lines went out.
pub fn decode<R: Read, W: Write>(
    alloc: Global,
    words: &[&str],
    input: &mut R,
    out: &mut W,
) -> Result<(), CommandFault>
    ensures printed { IfOk result (λ _. PrintsDecoded (W.contents out.old) (W.contents out.new)) }
    ensures unprinted { IfErr result (λ fault. (fault ≡ Fault.Write → ⊥) → W.contents out.new ≡ W.contents out.old) }
{
    let command = command(alloc)?;
    let matches = command.try_get_matches_from(words)?;
    let Some(register) = matches.get_str("register") else {
        return Err(CommandFault::Usage);
    };
    let kind = kind_named(matches.get_str("kind"))?;
    let addressing = addressing_named(matches.get_str("addresses"))?;
    let card = KnownCard { kind, addressing };
    let subject = subject_named(register, kind)?;
    let form = form_asked(matches.get_str("json") == Some("true"));
    match matches.get_str("digits") {
        Some(digits) => put_subject(alloc, form, subject, card, digits.as_bytes(), out),
        None => put_input(alloc, form, subject, card, input, out),
    }
}
