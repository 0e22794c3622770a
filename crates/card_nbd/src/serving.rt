// The command: a card of a card file is served, and saved.
use crate::fault::NbdFault;
use crate::files::read_files;
use crate::options::{Options, options_given};
use card_rules::{RuledCard, addressing_of};
use card_served::{ServeFault, begun_where_named, built_large, put_stats, save};
use card_text::card_file::CardFile;
use mmc_block::BlockDev;
use mmc_bus::Part;
use nbd_server::{Desk, SessionFault, serve};
use std::alloc::Global;
use std::io::{self, BufReader, BufWriter, Input, Read, Write};
use std::rt::Files;

// How many bytes of the input are read at once: so many that what a client sent while a request was served comes by one read.
const READ_AT_ONCE: usize = 524_288;

// How many bytes of the output are written at once: so few that they are still in a cache.
const WRITTEN_AT_ONCE: usize = 32_768;

// The device of a card, which has the partition that is to go by the empty name.
fn opened(
    alloc: Global,
    card: RuledCard,
    part: Option<Part>,
) -> Result<(Desk<RuledCard>, Part), NbdFault> {
    let device = match BlockDev::open(alloc, card) {
        Ok(device) => device,
        Err((_, fault)) => return Err(NbdFault::Unserved(ServeFault::from(fault))),
    };
    let default = part.unwrap_or(Part::User);
    if device.info().sectors(default).is_none() {
        return Err(NbdFault::NoPart);
    }
    Ok((Desk::with_long_turns(device), default))
}

// Serves a session on these streams.
fn serve_streams<R: Read + Drop, W: Write + Drop>(
    alloc: Global,
    desk: &mut Desk<RuledCard>,
    default: Part,
    input: R,
    out: W,
) -> Result<(), NbdFault> {
    let Ok(mut input) = BufReader::with_capacity(alloc, READ_AT_ONCE, input) else {
        return Err(NbdFault::Unserved(ServeFault::NoMemory));
    };
    let Ok(mut out) = BufWriter::with_capacity(alloc, WRITTEN_AT_ONCE, out) else {
        return Err(NbdFault::Unserved(ServeFault::NoMemory));
    };
    match serve(alloc, desk, default, &mut input, &mut out) {
        Ok(()) => Ok(()),
        Err(SessionFault::NoMemory) => Err(NbdFault::Unserved(ServeFault::NoMemory)),
        Err(fault) => Err(NbdFault::Session(fault)),
    }
}

// Serves as the options say.
fn serve_card<R: Files + Input + Print + Eprint + AllocGlobal>(
    rt: &R,
    options: Options<'_>,
) -> Result<(), NbdFault> {
    let alloc = rt.alloc();
    let CardFile { spec, plan } = read_files(rt, options.card, options.image)?;
    let addressing = addressing_of(&spec);
    let card = built_large(alloc, spec, plan.as_slice())?;
    let card = RuledCard::new(card, options.rules, addressing);
    let (mut desk, default) = opened(alloc, card, options.part)?;
    let file = begun_where_named(rt, options.save, options.replaces, ServeFault::Save)?;
    let served = serve_streams(alloc, &mut desk, default, rt.reader(), io::writer(rt));
    let healed = desk.device().healed();
    let card = desk.close();
    if options.stats {
        put_stats(rt, &card, plan.len(), healed);
    }
    if let Some(mut file) = file {
        let written = save(&card.card, options.part, &mut file.out);
        file.finish(rt, written)?;
    }
    served
}

/// Serves the card that the words name, of which `nbd` is the first, on standard input and output, until the client ends the
/// session or the input ends; then saves what it holds, however the session ended, and where it is asked for says in a line on
/// standard error what happened.
///
/// # Errors
/// `Usage`, `NoPart`; `Unserved` with those of the files, in the order card file, image, card, save, or with `Save` at the end;
/// `Session`. With any of the last two the card was served.
pub fn nbd<R: Files + Input + Print + Eprint + AllocGlobal>(
    rt: &R,
    words: &[&str],
) -> Result<(), NbdFault> {
    let options = options_given(rt.alloc(), words)?;
    serve_card(rt, options)
}
