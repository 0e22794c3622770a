// Rounds of random runs: four requests wait at once, and each is compared with what the card should hold by then.

use crate::copy::Copy;
use anyhow::{Result, anyhow};
use mmc_block::{Answer, BlockDev, Bytes, Completion, Part, Request};
use mmc_host::HostBus;
use mmc_sdhci::{Registers, Sdhci};
use rand_core::{Rng, SeedableRng};
use rand_xoshiro::Xoshiro256PlusPlus;
use std::alloc::Global;

/// A device over QEMU's controller.
pub type Card<R> = BlockDev<HostBus<Sdhci<R>>>;

// What a ticket's answer has to be: the bytes of a read; of a write none.
#[derive(Drop)]
struct Wanted {
    ticket: u64,
    bytes: Option<Vec<u8>>,
}

// A write or a read, by random numbers. A write is told on standard error: its start, count and value.
fn next(
    rt: &(impl Eprint + AllocGlobal),
    random: &mut Xoshiro256PlusPlus,
    copy: &mut Copy,
) -> Result<(Request, Option<Vec<u8>>)> {
    let stretch = copy.stretch(random.next_u64(), random.next_u64(), random.next_u64());
    let value = (random.next_u64() % 256) as u8;
    let (part, start, count) = (Part::User, stretch.start, stretch.count);
    if random.next_u64() % 2 == 0 {
        let bytes = copy.bytes(rt.alloc(), stretch)?;
        return Ok((Request::Read { part, start, count }, Some(bytes)));
    }
    copy.fill(stretch, value);
    eprintln!(rt; "write {start} {count} {value}")?;
    let bytes = Bytes::new(copy.bytes(rt.alloc(), stretch)?);
    Ok((
        Request::Write {
            part,
            start,
            count,
            bytes,
        },
        None,
    ))
}

// Submits four requests.
fn submit<R: Registers>(
    rt: &(impl Eprint + AllocGlobal),
    random: &mut Xoshiro256PlusPlus,
    copy: &mut Copy,
    card: &mut Card<R>,
) -> Result<Vec<Wanted>> {
    let mut wanted = Vec::new(rt.alloc());
    for client in 0..4 {
        let (request, bytes) = next(rt, random, copy)?;
        match card.submit(rt.alloc(), client, request) {
            Ok(ticket) => wanted.push(Wanted { ticket, bytes })?,
            Err((_, refused)) => return Err(refused.into()),
        }
    }
    Ok(wanted)
}

// Whether an answer is the one that is wanted.
fn is_wanted(wanted: &[Wanted], completion: &Completion) -> bool {
    wanted.iter().any(|one| {
        one.ticket == completion.ticket
            && match (&completion.answer, &one.bytes) {
                (Answer::Done, None) => true,
                (Answer::Data(bytes), Some(held)) => bytes.as_slice() == held.as_slice(),
                _ => false,
            }
    })
}

/// Serves so many rounds.
pub fn serve<R: Registers>(
    rt: &(impl Eprint + AllocGlobal),
    card: &mut Card<R>,
    sectors: u64,
    rounds: u64,
    seed: u64,
) -> Result<()> {
    let mut copy = Copy::new(rt.alloc(), sectors)?;
    let mut random = Xoshiro256PlusPlus::seed_from_u64(seed);
    for _ in 0..rounds {
        let wanted = submit(rt, &mut random, &mut copy, card)?;
        for completion in card.run(rt.alloc())?.iter() {
            if !is_wanted(wanted.as_slice(), completion) {
                return Err(anyhow!("ticket {} has another answer", completion.ticket));
            }
        }
    }
    Ok(())
}
