// What happened as JSON: an object on a line for each answer, for each exchange that is shown, and for what was met and healed.
use crate::answers::Kept;
use crate::messages::said;
use crate::more::Served;
use card_explain::{KnownCard, Numbered, steps};
use card_json::{Member, Said, put_answer, put_object, put_step};
use card_rules::RuledCard;
use card_served::ServeFault;
use std::alloc::{AllocError, Global};
use std::io::Write;
use text_out::put::put;

// The answers, each with the number of the exchange after which it came.
fn put_answers(alloc: Global, text: &mut Vec<u8>, answers: &Kept) -> Result<(), AllocError> {
    let said = said(alloc, answers)?;
    for message in said.as_slice() {
        put_answer(alloc, text, message.words, message.after.saturating_sub(1))?;
    }
    Ok(())
}

// The last `most` of these exchanges.
fn put_steps(
    alloc: Global,
    text: &mut Vec<u8>,
    known: KnownCard,
    noted: &[Numbered],
    most: usize,
) -> Result<(), AllocError> {
    let steps = steps(alloc, known.kind, noted)?;
    let from = steps.len().saturating_sub(most);
    for step in &steps[from..] {
        put_step(alloc, text, known, step)?;
    }
    Ok(())
}

// A member that counts something.
fn counted(name: &'static str, count: u64) -> Member<'static> {
    Member {
        name,
        said: Said::Number(count),
    }
}

// What was met and healed, as `--stats` says it.
fn put_statistics(
    alloc: Global,
    text: &mut Vec<u8>,
    served: &Served<RuledCard>,
    planned: u64,
) -> Result<(), AllocError> {
    let card = &served.bus.card;
    let healed = served.healed;
    let members = [
        counted("exchanges", card.exchanges()),
        counted("fell", card.faults()),
        counted("planned", planned),
        counted("attempts", healed.attempts),
        counted("failed_by_answer", healed.by_answer),
        counted("failed_by_data", healed.by_data),
        counted("failed_by_status", healed.by_status),
        counted("failed_by_busy", healed.by_busy),
        counted("failed_by_recovery", healed.by_recovery),
        counted("settled", healed.settlings),
        counted("reset", healed.resets),
    ];
    put_object(alloc, text, &members)
}

// All of it.
fn objects(
    alloc: Global,
    most: usize,
    known: KnownCard,
    served: &Served<RuledCard>,
    noted: &[Numbered],
    answers: &Kept,
    planned: u64,
) -> Result<Vec<u8>, AllocError> {
    let mut text = Vec::new(alloc);
    put_answers(alloc, &mut text, answers)?;
    put_steps(alloc, &mut text, known, noted, most)?;
    put_statistics(alloc, &mut text, served, planned)?;
    Ok(text)
}

/// Writes an object on a line for each answer, for each of the last `most` exchanges that were kept, and one of what was met and
/// healed, with how many faults the card file and the rules planned.
///
/// # Errors
/// `NoMemory`, and nothing was written; `Write`, and a front of the lines went out then.
pub fn put_objects<W: Write>(
    alloc: Global,
    most: usize,
    known: KnownCard,
    served: &Served<RuledCard>,
    noted: &Result<Option<Vec<Numbered>>, ServeFault>,
    answers: &Option<Kept>,
    in_file: usize,
    out: &mut W,
) -> Result<(), ServeFault> {
    let (Ok(Some(noted)), Some(answers)) = (noted, answers) else {
        return Err(ServeFault::NoMemory);
    };
    let planned = served.bus.planned.saturating_add(in_file as u64);
    let text = objects(
        alloc,
        most,
        known,
        served,
        noted.as_slice(),
        answers,
        planned,
    )?;
    match put(out, text.as_slice()) {
        Ok(()) => Ok(()),
        Err(_) => Err(ServeFault::Write),
    }
}
