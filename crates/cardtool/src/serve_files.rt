// Serves the files that the options name.
ghost use Rattle.std.specs.Prelude.{◌≤◌};
ghost use Rattle.std.specs.Option.{ForSome};
ghost use Rattle.mmc_bus.specs.declared.trace.TheConstants.{MAX_KEPT};
ghost use Rattle.cardtool.specs.More.{IsShown};

use crate::answers::{KeepingWriter, Kept};
use crate::beside::Beside;
use crate::drawing::{Drawings, begun_drawings, discard, draw};
use crate::explained::{kept_with_notes, known_card, put_explained, put_moments, put_unexplained};
use crate::files::{FilesRead, read_files};
use crate::more::{Drawn, Served, Shown, serve_counted};
use crate::objects::put_objects;
use crate::options_given::Options;
use crate::pictures::Pictures;
use crate::serve::serve;
use crate::wrong::put_idle;
use card_explain::{KnownCard, Numbered};
use card_rules::RuledCard;
use card_served::{
    ServeFault, WholeFile, begun_where_named, built, named_file, named_new_file, opened, put_stats,
    save, stream,
};
use card_text::script::Script;
use mmc_bus::MAX_KEPT;
use mmc_card_sim::{Fault, SimCard};
use std::alloc::Global;
use std::cell::Cell;
use std::io::{self, BufWriter, Read, Write};
use std::rt::Files;

/// Serves on standard output, and writes out what a buffer holds back.
pub fn serve_buffered<R: Print + AllocGlobal, C: Read, S: Read, I: Read>(
    rt: &R,
    card: &mut C,
    script: &mut S,
    image: &mut Option<I>,
    trace: Option<u32>,
) -> Result<u8, ServeFault>
    requires { ForSome trace (λ n. (1 ≤ n) × (n ≤ MAX_KEPT)) }
{
    let Ok(mut out) = BufWriter::new(rt.alloc(), io::writer(rt)) else {
        return Err(ServeFault::NoMemory);
    };
    let status = serve(rt.alloc(), card, script, image, trace, &mut out)?;
    match out.flush() {
        Ok(()) => Ok(status),
        Err(_) => Err(ServeFault::Write),
    }
}

// What is kept to be shown after the answers: where it is to be explained or drawn the most that a trace keeps, since those before
// what is shown tell what comes.
fn shown(options: &Options<'_>, are_drawn: bool) -> Shown
    ensures { IsShown result }
{
    match (options.explains || are_drawn, options.trace) {
        (true, _) => Shown::Explained(MAX_KEPT as u32),
        (false, None) => Shown::Nothing,
        (false, Some(n)) => Shown::Trace(n),
    }
}

// How many exchanges are shown at most.
fn most_shown(options: &Options<'_>) -> usize {
    match options.trace {
        Some(n) => n as usize,
        None => MAX_KEPT,
    }
}

// Writes out what is left of a waveform, and says whether all of it was written.
fn finish_wave<V: Write + Drop>(drawn: Option<Drawn<V>>) -> Result<(), ServeFault> {
    let Some(Drawn { mut out, written }) = drawn else {
        return Ok(());
    };
    match written.and_then(|_| out.flush()) {
        Ok(()) => Ok(()),
        Err(_) => Err(ServeFault::Vcd),
    }
}

// Writes the image of a card, where it is to be saved.
fn finish_save<F: Write + Drop>(
    rt: &impl Files,
    card: &SimCard,
    file: Option<WholeFile<'_, F>>,
) -> Result<(), ServeFault> {
    let Some(mut file) = file else {
        return Ok(());
    };
    let written = save(card, None, &mut file.out);
    file.finish(rt, written)
}

// Writes the exchanges that were kept after the answers, where that is asked for: with words, or after all was well without.
fn put_exchanges<W: Write>(
    alloc: Global,
    options: &Options<'_>,
    known: KnownCard,
    served: &Served<RuledCard>,
    noted: &Result<Option<Vec<Numbered>>, ServeFault>,
    answers: &Option<Kept>,
    out: &mut W,
) -> Result<(), ServeFault> {
    let noted = match noted {
        Ok(Some(noted)) => noted.as_slice(),
        Ok(None) => return Ok(()),
        Err(fault) => return Err(*fault),
    };
    let most = most_shown(options);
    if options.explains {
        put_explained(alloc, known, noted, most, served.healed, out)?;
        put_moments(alloc, answers, out)
    } else if options.trace.is_some() && served.status.is_ok() {
        put_unexplained(out, &noted[noted.len().saturating_sub(most)..])
    } else {
        Ok(())
    }
}

// The files that are written, where they are begun.
#[derive(Drop)]
struct Begun<'a, V: Write + Drop, F: Write + Drop> {
    // The waveform.
    wave: Option<V>,
    // The image at the end.
    image: Option<WholeFile<'a, F>>,
    // The pictures.
    drawings: Drawings<'a, F>,
}

// Begins the files that are written; where one can't be, none is left but that of a waveform.
fn begun_files<'a, R: Files + AllocGlobal>(
    rt: &R,
    options: &Options<'a>,
    pictures: &Pictures<'a>,
    replaces: bool,
) -> Result<Begun<'a, BufWriter<R::File>, R::File>, ServeFault> {
    let wave = named_new_file(rt, options.vcd, replaces, ServeFault::Vcd)?;
    let image = begun_where_named(rt, options.save, replaces, ServeFault::Save)?;
    match begun_drawings(rt, pictures, replaces) {
        Ok(drawings) => Ok(Begun {
            wave,
            image,
            drawings,
        }),
        Err(fault) => {
            discard(rt, image);
            Err(fault)
        }
    }
}

// The exit status, or the first fault in the order of these.
fn ended(
    files: Result<(), ServeFault>,
    status: Result<u8, ServeFault>,
    printed: Result<(), ServeFault>,
    flushed: io::Result<()>,
) -> Result<u8, ServeFault> {
    files?;
    let status = status?;
    printed?;
    match flushed {
        Ok(()) => Ok(status),
        Err(_) => Err(ServeFault::Write),
    }
}

// What is said besides, and how.
#[derive(Clone, Copy)]
struct Said {
    // Whether a line on standard error says what happened.
    stats: bool,
    // Whether all is printed as JSON.
    json: bool,
}

// Writes out what is left of the files, and draws.
fn finish_files<V: Write + Drop, F: Write + Drop>(
    rt: &(impl Files + AllocGlobal),
    pictures: &Pictures<'_>,
    known: KnownCard,
    served: &Served<RuledCard>,
    noted: &Result<Option<Vec<Numbered>>, ServeFault>,
    answers: &Option<Kept>,
    planned: usize,
    image: Option<WholeFile<'_, F>>,
    drawings: Drawings<'_, F>,
    drawn: Option<Drawn<V>>,
) -> Result<(), ServeFault> {
    let planned = served.bus.planned.saturating_add(planned as u64);
    let drawn = finish_wave(drawn);
    let saved = finish_save(rt, &served.bus.card, image);
    let pictured = draw(
        rt, pictures, known, served, noted, answers, planned, drawings,
    );
    drawn?;
    saved?;
    pictured
}

// A script that was served, and where its answers were written.
#[derive(Drop)]
struct Played<V: Write + Drop, W: Write + Drop> {
    // How it was served.
    served: Served<RuledCard>,
    // The waveform.
    drawn: Option<Drawn<V>>,
    // The answers, unless memory was refused for them.
    answers: Option<Kept>,
    // Where they were written.
    out: W,
}

// Serves a script, and keeps so many bytes of the answers.
fn serve_keeping<V: Write + Drop, W: Write + Drop>(
    alloc: Global,
    card: RuledCard,
    script: Script,
    shown: Shown,
    wave: Option<V>,
    labels: bool,
    most: usize,
    out: W,
) -> Played<V, W>
    requires { IsShown shown }
{
    let count = Cell::new(0);
    let mut out = KeepingWriter::new(alloc, out, &count, most);
    let (served, drawn) = serve_counted(alloc, card, &count, script, shown, wave, labels, &mut out);
    let (out, answers) = out.into_parts();
    Played {
        served,
        drawn,
        answers,
        out,
    }
}

// The same, and nothing is written of the answers, which are all kept.
fn serve_silently<V: Write + Drop, W: Write + Drop>(
    alloc: Global,
    card: RuledCard,
    script: Script,
    shown: Shown,
    wave: Option<V>,
    labels: bool,
    out: W,
) -> Played<V, W>
    requires { IsShown shown }
{
    let Played {
        served,
        drawn,
        answers,
        out: _,
    } = serve_keeping(
        alloc,
        card,
        script,
        shown,
        wave,
        labels,
        usize::MAX,
        io::sink(),
    );
    Played {
        served,
        drawn,
        answers,
        out,
    }
}

// How many bytes of the answers pictures and words are made of at most.
const MOST_KEPT: usize = 65_536;

// The same, as the options ask for it.
fn serve_as_asked<V: Write + Drop, W: Write + Drop>(
    alloc: Global,
    card: RuledCard,
    script: Script,
    options: &Options<'_>,
    pictures: &Pictures<'_>,
    json: bool,
    wave: Option<V>,
    out: W,
) -> Played<V, W> {
    let shown = shown(options, pictures.asks() || json);
    let labels = pictures.labels;
    if json {
        serve_silently(alloc, card, script, shown, wave, labels, out)
    } else {
        serve_keeping(alloc, card, script, shown, wave, labels, MOST_KEPT, out)
    }
}

// Explains, draws and saves a script that was served, or prints all as JSON.
fn finish<V: Write + Drop, F: Write + Drop, W: Write + Drop>(
    rt: &(impl Files + Eprint + AllocGlobal),
    known: KnownCard,
    plan: &[(u64, Fault)],
    options: &Options<'_>,
    pictures: &Pictures<'_>,
    said: Said,
    image: Option<WholeFile<'_, F>>,
    drawings: Drawings<'_, F>,
    played: Played<V, W>,
) -> Result<u8, ServeFault> {
    let alloc = rt.alloc();
    let Played {
        served,
        drawn,
        answers,
        mut out,
    } = played;
    let many = plan.len();
    let noted = kept_with_notes(alloc, &served, plan);
    let printed = if said.json {
        let most = most_shown(options);
        put_objects(
            alloc, most, known, &served, &noted, &answers, many, &mut out,
        )
    } else {
        put_exchanges(alloc, options, known, &served, &noted, &answers, &mut out)
    };
    let flushed = out.flush();
    let files = finish_files(
        rt, pictures, known, &served, &noted, &answers, many, image, drawings, drawn,
    );
    if said.stats {
        put_stats(rt, &served.bus, many, served.healed);
    }
    put_idle(rt, &served.bus, pictures.exchanges);
    ended(files, served.status, printed, flushed)
}

// Serves a card, and explains, draws and saves as the options say, or prints all as JSON.
fn serve_card<R: Files + Eprint + AllocGlobal, V: Write + Drop, F: Write + Drop, W: Write + Drop>(
    rt: &R,
    card: RuledCard,
    known: KnownCard,
    plan: &[(u64, Fault)],
    script: Script,
    options: &Options<'_>,
    pictures: &Pictures<'_>,
    said: Said,
    files: Begun<'_, V, F>,
    out: W,
) -> Result<u8, ServeFault> {
    let Begun {
        wave,
        image,
        drawings,
    } = files;
    let alloc = rt.alloc();
    let played = serve_as_asked(alloc, card, script, options, pictures, said.json, wave, out);
    finish(
        rt, known, plan, options, pictures, said, image, drawings, played,
    )
}

// Serves, and explains, draws and saves as the options say: on standard error where the waveform has standard output.
fn serve_more<'a, R: Files + Print + Eprint + AllocGlobal, C: Read, S: Read, I: Read>(
    rt: &R,
    card: &mut C,
    script: &mut S,
    image: &mut Option<I>,
    options: &Options<'a>,
    beside: Beside,
    pictures: &Pictures<'a>,
) -> Result<u8, ServeFault> {
    let alloc = rt.alloc();
    let Beside {
        rules,
        stats,
        replaces,
        json,
    } = beside;
    let said = Said { stats, json };
    let FilesRead { spec, plan, script } = read_files(alloc, card, script, image)?;
    let known = known_card(&spec);
    let card = built(alloc, spec, plan.as_slice())?;
    let card = RuledCard::new(card, rules, known.addressing);
    let plan = plan.as_slice();
    if options.vcd == Some("-") {
        let out = stream(rt, "/dev/stderr", ServeFault::Write)?;
        let files = begun_files(rt, options, pictures, replaces)?;
        return serve_card(
            rt, card, known, plan, script, options, pictures, said, files, out,
        );
    }
    let Ok(out) = BufWriter::new(alloc, io::writer(rt)) else {
        return Err(ServeFault::NoMemory);
    };
    let files = begun_files(rt, options, pictures, replaces)?;
    serve_card(
        rt, card, known, plan, script, options, pictures, said, files, out,
    )
}

/// Opens the files that the options name, the card's first and the image last, and serves. Files that are written must not be
/// there yet, unless they are to be replaced.
///
/// # Errors
/// `ReadCard`, `ReadScript` or `ReadImage` of a file that can't be opened; then those of `serve`; `Vcd`, `Save`, `Svg`, `Html` and
/// `Timing` of the files that are written.
pub fn serve_files<'a>(
    rt: &(impl Files + Print + Eprint + AllocGlobal),
    options: &Options<'a>,
    beside: Beside,
    pictures: &Pictures<'a>,
) -> Result<u8, ServeFault> {
    let mut card = opened(rt, options.card, ServeFault::ReadCard)?;
    let mut script = opened(rt, options.script, ServeFault::ReadScript)?;
    let mut image = named_file(rt, options.image, ServeFault::ReadImage)?;
    let is_more = options.explains || options.vcd.is_some() || options.save.is_some();
    if is_more || beside.asks() || pictures.asks() {
        serve_more(
            rt,
            &mut card,
            &mut script,
            &mut image,
            options,
            beside,
            pictures,
        )
    } else {
        serve_buffered(rt, &mut card, &mut script, &mut image, options.trace)
    }
}
