// Draws the pictures that are asked for.
use crate::answers::Kept;
use crate::holdings::holdings;
use crate::messages::{few, messages};
use crate::more::Served;
use crate::pictures::{Pictures, drawn};
use card_explain::{KnownCard, Numbered, Step, steps};
use card_picture::{Page, put_page, put_sequence, put_timing};
use card_rules::RuledCard;
use card_served::{ServeFault, WholeFile, begun_where_named, put_fell, put_healed};
use mmc_block::Healed;
use std::alloc::Global;
use std::io::{self, ErrorKind, Write};
use std::rt::Files;
use text_out::put::put;

// How many exchanges a sequence diagram shows, where their numbers aren't given.
const LAST_IN_SEQUENCE: usize = 64;

// How many exchanges a timing diagram shows, where their numbers aren't given.
const LAST_IN_TIMING: usize = 16;

/// The files of pictures, where they are begun.
#[derive(Drop)]
pub struct Drawings<'a, F: Write + Drop> {
    svg: Option<WholeFile<'a, F>>,
    html: Option<WholeFile<'a, F>>,
    timing: Option<WholeFile<'a, F>>,
}

// What pictures show.
#[derive(Drop)]
struct Scene<'a> {
    // What is known of the card.
    known: KnownCard,
    // The exchanges that were kept.
    steps: &'a [Step],
    // The answers, with the exchanges before each line.
    answers: &'a Kept,
    // How the script was served.
    served: &'a Served<RuledCard>,
    // How many faults were planned.
    planned: u64,
}

/// Removes a file that is begun.
pub fn discard<F: Write + Drop>(rt: &impl Files, file: Option<WholeFile<'_, F>>) {
    if let Some(file) = file {
        let _ = file.finish(rt, Err(ErrorKind::Other.into()));
    }
}

impl<'a, F: Write + Drop> Drawings<'a, F> {
    // Removes the files.
    fn discard(self, rt: &impl Files) {
        let Drawings { svg, html, timing } = self;
        discard(rt, svg);
        discard(rt, html);
        discard(rt, timing);
    }
}

/// Begins the files of the pictures that are asked for; where one can't be, none is left.
///
/// # Errors
/// `Svg`, `Html`, `Timing`, `NoMemory`.
pub fn begun_drawings<'a, R: Files + AllocGlobal>(
    rt: &R,
    pictures: &Pictures<'a>,
    replaces: bool,
) -> Result<Drawings<'a, R::File>, ServeFault> {
    let svg = begun_where_named(rt, pictures.svg, replaces, ServeFault::Svg)?;
    let html = match begun_where_named(rt, pictures.html, replaces, ServeFault::Html) {
        Ok(html) => html,
        Err(fault) => {
            discard(rt, svg);
            return Err(fault);
        }
    };
    match begun_where_named(rt, pictures.timing, replaces, ServeFault::Timing) {
        Ok(timing) => Ok(Drawings { svg, html, timing }),
        Err(fault) => {
            discard(rt, svg);
            discard(rt, html);
            Err(fault)
        }
    }
}

// No answers, where memory was refused for them.
fn nothing_kept(alloc: Global) -> Kept {
    Kept {
        text: Vec::new(alloc),
        lines: Vec::new(alloc),
    }
}

// The sequence diagram.
fn sequence(
    alloc: Global,
    pictures: &Pictures<'_>,
    scene: &Scene<'_>,
) -> Result<Vec<u8>, ServeFault> {
    let mut text = Vec::new(alloc);
    let steps = drawn(scene.steps, pictures.exchanges, LAST_IN_SEQUENCE);
    let messages = messages(alloc, scene.answers, steps)?;
    put_sequence(
        alloc,
        &mut text,
        scene.known,
        steps,
        few(messages.as_slice()),
    )?;
    Ok(text)
}

// The timing diagram.
fn timing_diagram(
    alloc: Global,
    pictures: &Pictures<'_>,
    scene: &Scene<'_>,
) -> Result<Vec<u8>, ServeFault> {
    let mut text = Vec::new(alloc);
    let steps = drawn(scene.steps, pictures.exchanges, LAST_IN_TIMING);
    put_timing(alloc, &mut text, scene.known, steps)?;
    Ok(text)
}

// Writes what happened in a line.
fn put_statistics(
    out: &mut Vec<u8>,
    card: &RuledCard,
    planned: u64,
    healed: Healed,
) -> io::Result<()> {
    put_fell(out, card.card.exchanges(), card.card.faults(), planned)?;
    put(out, b"; ")?;
    put_healed(out, healed)
}

// The page.
fn page(alloc: Global, pictures: &Pictures<'_>, scene: &Scene<'_>) -> Result<Vec<u8>, ServeFault> {
    let card = &scene.served.bus;
    let mut statistics = Vec::new(alloc);
    let healed = scene.served.healed;
    if put_statistics(&mut statistics, card, scene.planned, healed).is_err() {
        return Err(ServeFault::NoMemory);
    }
    let Ok(contents) = holdings(alloc, &card.card) else {
        return Err(ServeFault::NoMemory);
    };
    let steps = drawn(scene.steps, pictures.exchanges, LAST_IN_SEQUENCE);
    let messages = messages(alloc, scene.answers, steps)?;
    let page = Page {
        answers: scene.answers.text.as_slice(),
        steps,
        messages: few(messages.as_slice()),
        statistics: statistics.as_slice(),
        contents: contents.as_slice(),
    };
    let mut text = Vec::new(alloc);
    put_page(alloc, &mut text, scene.known, &page)?;
    Ok(text)
}

// Writes a file that is begun, or removes it.
fn finish_file<F: Write + Drop>(
    rt: &impl Files,
    mut file: WholeFile<'_, F>,
    text: Result<Vec<u8>, ServeFault>,
) -> Result<(), ServeFault> {
    match text {
        Ok(text) => {
            let written = put(&mut file.out, text.as_slice());
            file.finish(rt, written)
        }
        Err(fault) => {
            discard(rt, Some(file));
            Err(fault)
        }
    }
}

// Draws the pictures that are asked for; one that fails hinders no other.
fn finish_drawings<F: Write + Drop>(
    rt: &(impl Files + AllocGlobal),
    pictures: &Pictures<'_>,
    scene: &Scene<'_>,
    drawings: Drawings<'_, F>,
) -> Result<(), ServeFault> {
    let alloc = rt.alloc();
    let Drawings { svg, html, timing } = drawings;
    let svg = match svg {
        None => Ok(()),
        Some(file) => finish_file(rt, file, sequence(alloc, pictures, scene)),
    };
    let html = match html {
        None => Ok(()),
        Some(file) => finish_file(rt, file, page(alloc, pictures, scene)),
    };
    let timing = match timing {
        None => Ok(()),
        Some(file) => finish_file(rt, file, timing_diagram(alloc, pictures, scene)),
    };
    svg?;
    html?;
    timing
}

// The exchanges that were kept, each with what those before it say of it.
fn steps_kept(
    alloc: Global,
    known: KnownCard,
    noted: &Result<Option<Vec<Numbered>>, ServeFault>,
) -> Result<Vec<Step>, ServeFault> {
    match noted {
        Ok(Some(noted)) => Ok(steps(alloc, known.kind, noted.as_slice())?),
        _ => Err(ServeFault::NoMemory),
    }
}

/// Draws the pictures that are asked for, of the exchanges that were kept, and the answers. Where memory was refused for those, the
/// files are removed.
///
/// # Errors
/// `Svg`, `Html` or `Timing` where the file can't be written; `NoMemory`.
pub fn draw<F: Write + Drop>(
    rt: &(impl Files + AllocGlobal),
    pictures: &Pictures<'_>,
    known: KnownCard,
    served: &Served<RuledCard>,
    noted: &Result<Option<Vec<Numbered>>, ServeFault>,
    answers: &Option<Kept>,
    planned: u64,
    drawings: Drawings<'_, F>,
) -> Result<(), ServeFault> {
    if !pictures.asks() {
        drawings.discard(rt);
        return Ok(());
    }
    let steps = match steps_kept(rt.alloc(), known, noted) {
        Ok(steps) => steps,
        Err(fault) => {
            drawings.discard(rt);
            return Err(fault);
        }
    };
    let answers = match answers {
        Some(answers) => answers,
        None => &nothing_kept(rt.alloc()),
    };
    let scene = Scene {
        known,
        steps: steps.as_slice(),
        answers,
        served,
        planned,
    };
    finish_drawings(rt, pictures, &scene, drawings)
}
