// Statuses that lag behind a device: it is in tran, and CMD13 shows it in prg still, or an error later than the first status.
use crate::cards::*;
use mmc_bus::{Part, ScriptedBus};
use mmc_direct::{Healed, How, NotDone, Stands, erase};
use mmc_switch::{Cause, select};
use std::alloc::Global;
use std::test::Fail;

const IN_TRAN: Said = Said::Response(13, 0x900);

const IN_PRG: Said = Said::Response(13, 0xe00);

// An erase of card `emmc`, whose closing statuses lag so often: its answer, and how many attempts it took.
fn erased_behind(alloc: Global, lagging: usize) -> Result<(Result<(), NotDone>, u64), Fail> {
    let erases = [
        Said::Response(35, 0x900),
        Said::Response(36, 0x900),
        Said::Response(38, 0x900),
        Said::Busy(false),
    ];
    let settles = [IN_TRAN, Said::Response(16, 0x900), IN_TRAN, IN_TRAN];
    let mut said = Vec::new(alloc);
    said.extend_from_slice(&erases)?;
    for _ in 0..lagging {
        said.push(IN_PRG)?;
    }
    if lagging > 15 {
        said.extend_from_slice(&settles)?;
        said.extend_from_slice(&erases)?;
    }
    said.push(IN_TRAN)?;
    let mut bus: ScriptedBus = saying(alloc, said.as_slice())?;
    let session = opened(&mut bus).ok_or("not opened")?;
    let mut healed = Healed::new();
    let ready = Stands::Ready(session);
    let served = erase(
        &mut bus,
        &mut healed,
        ready,
        Part::User,
        0,
        1024,
        How::Erase,
    );
    Ok((served.answer, healed.attempts))
}

// Fifteen are what a sound card may do; at the sixteenth the attempt has failed, and the next one succeeds.
#[test]
fn waits_for_fifteen_statuses_that_lag(rt: HostRuntime) -> Result<(), Fail> {
    assert_eq!(rt; erased_behind(rt.alloc(), 15)?, (Ok(()), 1));
    assert_eq!(rt; erased_behind(rt.alloc(), 16)?, (Ok(()), 2));
    Ok(())
}

// Why boot partition 1 of card `emmc` isn't selected over a bus that says this.
fn unselected_by(alloc: Global, said: &[Said]) -> Result<Option<Cause>, Fail> {
    let mut bus = saying(alloc, said)?;
    let session = opened(&mut bus).ok_or("not opened")?;
    if session.info().sectors(Part::Boot1).is_none() {
        return Err("no boot partition".into());
    }
    match select(&mut bus, session, Part::Boot1) {
        Ok(_) => Ok(None),
        Err(broken) => Ok(Some(broken.cause())),
    }
}

// SWITCH_ERROR, bit 7, in the second status after the busy time: the partition isn't selected.
#[test]
fn finds_a_switch_error_that_comes_late(rt: HostRuntime) -> Result<(), Fail> {
    let switch = Said::Response(6, 0x900);
    let failed = Said::Response(13, 0x980);
    let rests = Said::Busy(false);
    let cause = unselected_by(rt.alloc(), &[switch, rests, IN_PRG, failed])?;
    assert_eq!(rt; cause, Some(Cause::Status));
    assert_eq!(rt;
        unselected_by(rt.alloc(), &[switch, rests, IN_PRG, IN_TRAN])?,
        None
    );
    Ok(())
}
