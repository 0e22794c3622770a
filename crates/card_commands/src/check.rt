// `check`: whatever is wrong with a card file, a script and an image.
ghost use Rattle.std.specs.Prelude.{◌≡◌, IfOk, IfSome, None, true};
ghost use Rattle.mmc_card.specs.Profile.{InProfile};
ghost use Rattle.mmc_card_rows.specs.declared.store.TheConstants.{MAX_LARGE};
ghost use Rattle.mmc_card_sim.specs.CardSpec.{refusal_within};
ghost use Rattle.mmc_card_sim.specs.Registers.{made_of};
ghost use Rattle.card_check.specs.Unopened.{IsPlain};
ghost use Rattle.card_commands.specs.Checked.{DescribesCard, is_opened};

use crate::fault::CommandFault;
use card_check::{
    CheckFault, check_card, check_image, check_opening, check_registers, check_script, info_of,
    most_bytes, put_fault_notes, put_request_notes, put_size_note,
};
use card_served::{ServeFault, image_front, named_file, opened, whole};
use card_text::card_file::MAX_CARD_FILE;
use card_text::script::MAX_SCRIPT;
use clap::{Arg, Command};
use mmc_card_sim::CardSpec;
use std::alloc::{AllocError, Global};
use std::io::{Read, Write};
use std::rt::Files;
use text_out::put::put;

// The words of `check`.
#[derive(Clone, Copy)]
struct Names<'a> {
    card: &'a str,
    script: Option<&'a str>,
    image: Option<&'a str>,
}

/// The command as `clap` reads it.
pub(crate) fn command<'a>(alloc: Global) -> Result<Command<'a>, AllocError> {
    Command::new(alloc, "check")
        .arg(Arg::new(alloc, "card").long("card").required(true))?
        .arg(Arg::new(alloc, "script").long("script"))?
        .arg(Arg::new(alloc, "image").long("image"))
}

// The files that the words name.
fn names_given<'a>(alloc: Global, words: &'a [&'a str]) -> Result<Names<'a>, CommandFault> {
    let command = command(alloc)?;
    let matches = command.try_get_matches_from(words)?;
    let Some(card) = matches.get_str("card") else {
        return Err(CommandFault::Usage);
    };
    Ok(Names {
        card,
        script: matches.get_str("script"),
        image: matches.get_str("image"),
    })
}

// What a check that doesn't come to its end shows as.
fn of_check(fault: CheckFault) -> CommandFault {
    match fault {
        CheckFault::NoMemory => CommandFault::NoMemory,
        CheckFault::Write => CommandFault::Write,
    }
}

// What is known of a card whose registers are taken.
#[derive(Drop)]
struct Checked {
    spec: CardSpec,
    // How many sectors all its partitions have together.
    sectors: usize,
    is_opened: bool,
}

// Checks the registers of a card, and whether it is opened.
fn check_spec<W: Write>(spec: CardSpec, out: &mut W) -> Result<Option<Checked>, CheckFault>
    ensures { IfOk result (λ checked. IfSome checked (λ checked. (refusal_within MAX_LARGE spec ≡ None)
        × (checked.is_opened ≡ true → IsPlain (made_of spec.registers) → InProfile (made_of spec.registers)))) }
{
    let Some(sectors) = check_registers(&spec, out)? else {
        return Ok(None);
    };
    let is_opened = check_opening(&spec.registers, out)?;
    Ok(Some(Checked {
        spec,
        sectors,
        is_opened,
    }))
}

// Checks a card file, the registers and whether the card is opened.
fn check_card_text<W: Write>(
    alloc: Global,
    text: &[u8],
    out: &mut W,
) -> Result<Option<Checked>, CheckFault>
    ensures { IfOk result (λ checked. is_opened checked ≡ true → DescribesCard text.now) }
{
    match check_card(alloc, text, out)? {
        None => Ok(None),
        Some(spec) => check_spec(spec, out),
    }
}

// The same, with the fault of a command.
fn check_card_input<W: Write>(
    alloc: Global,
    text: &[u8],
    out: &mut W,
) -> Result<Option<Checked>, CommandFault>
    ensures { IfOk result (λ checked. is_opened checked ≡ true → DescribesCard text.now) }
{
    match check_card_text(alloc, text, out) {
        Ok(checked) => Ok(checked),
        Err(fault) => Err(of_check(fault)),
    }
}

// Whether nothing is wrong.
fn are_good(card: &Option<Checked>, script_is_good: bool, image_is_good: bool) -> bool
    ensures { result ≡ true → is_opened card.now ≡ true }
{
    match card {
        Some(card) => card.is_opened && script_is_good && image_is_good,
        None => false,
    }
}

// The text of a script, where there is one.
fn script_text<S: Read>(
    alloc: Global,
    script: &mut Option<S>,
) -> Result<Option<Vec<u8>>, CommandFault> {
    match script {
        None => Ok(None),
        Some(script) => {
            let text = whole(alloc, script, MAX_SCRIPT, ServeFault::ReadScript)?;
            Ok(Some(text))
        }
    }
}

// Checks a script, where there is one.
fn check_script_text<W: Write>(
    alloc: Global,
    script: &Option<Vec<u8>>,
    out: &mut W,
) -> Result<bool, CheckFault> {
    match script {
        None => Ok(true),
        Some(text) => check_script(alloc, text.as_slice(), out),
    }
}

// Checks an image, where there is one, for this card.
fn check_image_file<I: Read, W: Write>(
    alloc: Global,
    image: &mut Option<I>,
    card: &Option<Checked>,
    out: &mut W,
) -> Result<bool, CommandFault> {
    let (Some(image), Some(card)) = (image, card) else {
        return Ok(true);
    };
    let most = most_bytes(card.sectors).saturating_add(1);
    let bytes = image_front(alloc, image, most)?;
    check_image(card.sectors, bytes.len(), out).map_err(of_check)
}

// The notes on the requests of a script, where there is one and the card is opened.
fn put_script_notes<W: Write>(
    alloc: Global,
    card: &Checked,
    script: &Option<Vec<u8>>,
    out: &mut W,
) -> Result<(), CheckFault> {
    let (Some(text), true) = (script, card.is_opened) else {
        return Ok(());
    };
    match info_of(&card.spec) {
        Some(info) => put_request_notes(alloc, out, &info, text.as_slice()),
        None => Ok(()),
    }
}

// What is no mistake of the files: the size of the card, its faults and the requests.
fn put_notes<W: Write>(
    alloc: Global,
    card: &Checked,
    text: &[u8],
    script: &Option<Vec<u8>>,
    out: &mut W,
) -> Result<(), CheckFault> {
    put_size_note(out, card.sectors)?;
    put_fault_notes(out, card.spec.registers.kind(), text)?;
    put_script_notes(alloc, card, script, out)
}

// Says that nothing is wrong, where it is so, and then the notes.
fn conclude<W: Write>(
    alloc: Global,
    is_good: bool,
    card: &Option<Checked>,
    text: &[u8],
    script: &Option<Vec<u8>>,
    out: &mut W,
) -> Result<(), CheckFault> {
    if is_good {
        put(out, b"nothing is wrong\n")?;
    }
    match card {
        Some(card) => put_notes(alloc, card, text, script, out),
        None => Ok(()),
    }
}

/// Writes a line for whatever is wrong with a card file, a script and an image, or that nothing is, which the answer says too; and
/// then notes on what is no mistake of the files.
///
/// # Errors
/// `Unread` of a reader that failed, of a card file above 65,536 bytes, of a script above 1,048,576, and where there was no memory
/// for them; `NoMemory` while the lines are judged; `Write`, where a front of the lines went out.
pub fn check_inputs<C: Read, S: Read, I: Read, W: Write>(
    alloc: Global,
    card: &mut C,
    script: &mut Option<S>,
    image: &mut Option<I>,
    out: &mut W,
) -> Result<bool, CommandFault>
    ensures { IfOk result (λ good. good ≡ true → IfSome (C.remaining card.old) DescribesCard) }
{
    let text = whole(alloc, card, MAX_CARD_FILE, ServeFault::ReadCard)?;
    let card = check_card_input(alloc, text.as_slice(), out)?;
    let script = script_text(alloc, script)?;
    let script_is_good = check_script_text(alloc, &script, out).map_err(of_check)?;
    let image_is_good = check_image_file(alloc, image, &card, out)?;
    let good = are_good(&card, script_is_good, image_is_good);
    conclude(alloc, good, &card, text.as_slice(), &script, out).map_err(of_check)?;
    Ok(good)
}

/// Checks the files that the words name, of which `check` is the first.
///
/// # Errors
/// `Usage` for other words; then those of `check_inputs`, and of files that can't be opened.
pub fn check<W: Write>(
    rt: &(impl Files + AllocGlobal),
    words: &[&str],
    out: &mut W,
) -> Result<bool, CommandFault> {
    let names = names_given(rt.alloc(), words)?;
    let mut card = opened(rt, names.card, ServeFault::ReadCard)?;
    let mut script = named_file(rt, names.script, ServeFault::ReadScript)?;
    let mut image = named_file(rt, names.image, ServeFault::ReadImage)?;
    check_inputs(rt.alloc(), &mut card, &mut script, &mut image, out)
}
