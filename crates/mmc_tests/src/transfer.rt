// Runs of blocks over buses that lie.
ghost use Rattle.std.specs.Prelude.{◌+◌, ◌<◌, ◌≤◌, IsSome, IsTrue};
ghost use Rattle.mmc_switch.specs.UnderWay.{room_of};
ghost use Rattle.mmc_transfer.specs.declared.job.TheConstants.{MAX_BLOCKS};

use crate::cards::*;
use mmc_bus::{Blocks, BusAnswer, Bytes, DataOut, Reply, ScriptedBus};
use mmc_switch::{Broken, Cause, Session};
use mmc_transfer::{MAX_BLOCKS, write_run};
use std::alloc::Global;
use std::collections::VecDeque;
use std::test::Fail;

// Whether so many blocks are inside the partition that is selected.
fn is_inside(session: &Session, start: u64, count: u64) -> bool
    ensures { IsTrue result → IsSome session.now.selected × (1 ≤ count) × (count ≤ MAX_BLOCKS)
        × (start + count ≤ room_of session.now) }
{
    let room = session.room();
    session.selected().is_some()
        && count > 0
        && count <= u64::from(MAX_BLOCKS)
        && count <= room
        && start <= room - count
}

// Writes the blocks, if they are inside.
fn written(
    bus: &mut ScriptedBus,
    session: Session,
    start: u64,
    blocks: &Bytes,
) -> Result<Result<Session, Broken>, Fail> {
    if !session.info().read_only && is_inside(&session, start, blocks.len() as u64) {
        Ok(write_run(bus, session, start, blocks))
    } else {
        Err("no such run".into())
    }
}

/// So many blocks of this byte.
pub fn filled(alloc: Global, byte: u8, count: usize) -> Result<Bytes, Fail>
    requires { count ≤ MAX_BLOCKS }
{
    Ok(Bytes::new(vec![in alloc; byte; 512 * count]?))
}

/// Whether each byte is this one.
pub fn is_all(bytes: &[u8], byte: u8) -> bool {
    bytes.iter().all(|each| *each == byte)
}

// A lie about a write of two blocks to a card with CMD23.
#[derive(Clone, Copy)]
enum Lie {
    // Nothing is answered.
    Silence,
    // An R2 comes where an R1 has to.
    LongResponse,
    // The block isn't accepted.
    Rejection,
    // The card stays busy.
    Busyness,
    // The closing status names this state, 0 to 15, of which only tran is clean.
    State(u32),
}

// The answers to the write itself.
fn lying_answers(bus: &mut VecDeque<BusAnswer>, lie: Lie) -> Result<(), Fail> {
    match lie {
        Lie::Silence => {}
        Lie::LongResponse => pushed(bus, BusAnswer::Command(Reply::Long([0x3f; 17])))?,
        Lie::Rejection => {
            pushed(bus, r1(23, 0x900))?;
            pushed(bus, r1(25, 0x900))?;
            pushed(bus, BusAnswer::Out(DataOut::Rejected))?;
        }
        Lie::Busyness => {
            pushed(bus, r1(23, 0x900))?;
            pushed(bus, r1(25, 0x900))?;
            pushed(bus, BusAnswer::Out(DataOut::Accepted))?;
            for _ in 0..40 {
                pushed(bus, BusAnswer::Busy(true))?;
            }
        }
        Lie::State(number) => {
            pushed(bus, r1(23, 0x900))?;
            pushed(bus, r1(25, 0x900))?;
            for _ in 0..2 {
                pushed(bus, BusAnswer::Out(DataOut::Accepted))?;
                pushed(bus, BusAnswer::Busy(false))?;
            }
            pushed(bus, r1(13, 0x100 + 0x200 * (number % 16)))?;
        }
    }
    Ok(())
}

// The cause by which the write fails.
fn cause_of(alloc: Global, lie: Lie) -> Result<Option<Cause>, Fail> {
    let mut answers = answers_of_emmc(alloc, ext_csd_of_emmc())?;
    lying_answers(&mut answers, lie)?;
    let mut bus = ScriptedBus::new(answers);
    let session = opened(&mut bus).ok_or("not opened")?;
    let blocks = filled(alloc, 0x5a, 2)?;
    match written(&mut bus, session, 0, &blocks)? {
        Ok(_) => Ok(None),
        Err(broken) => Ok(Some(broken.cause())),
    }
}

#[test]
fn names_the_cause_of_each_lie(rt: HostRuntime) -> Result<(), Fail> {
    for (lie, cause) in [
        (Lie::Silence, Cause::Answer),
        (Lie::LongResponse, Cause::Answer),
        (Lie::Rejection, Cause::Data),
        (Lie::Busyness, Cause::Busy),
    ] {
        assert_eq!(rt; cause_of(rt.alloc(), lie)?, Some(cause));
    }
    for number in 0..16 {
        let cause = match number {
            4 => None,
            // On its way to tran the card is asked again, and nothing comes.
            3 | 5 | 6 | 7 => Some(Cause::Answer),
            _ => Some(Cause::Status),
        };
        assert_eq!(rt; cause_of(rt.alloc(), Lie::State(number))?, cause);
    }
    Ok(())
}
