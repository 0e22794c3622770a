// Erases over buses that lie.
ghost use Rattle.std.specs.Prelude.{◌≡◌, ◌+◌, ◌≤◌, IsTrue, false, true};
ghost use Rattle.mmc_switch.specs.UnderWay.{room_of};
ghost use Rattle.mmc_erase.specs.Job.{suits};

use crate::cards::*;
use mmc_bus::{Part, ScriptedBus};
use mmc_erase::{How, erase_run};
use mmc_switch::{Broken, Cause, Session};
use std::test::Fail;

// Whether an erase of these sectors is of whole units.
fn is_whole(session: &Session, start: u64, count: u64) -> bool
    requires { start + count ≤ room_of session.now }
    ensures { IsTrue result → suits How.Erase session.now.info (room_of session.now) start count ≡ true }
{
    let unit = session.info().erase_unit;
    start % unit == 0 && ((start + count) % unit == 0 || start + count == session.room())
}

// Erases sectors, if they may be.
fn erased(
    bus: &mut ScriptedBus,
    session: Session,
    start: u64,
    count: u64,
) -> Result<Result<Session, Broken>, Fail> {
    let room = session.room();
    let is_inside = count > 0 && count <= room && start <= room - count;
    let is_suited = is_inside && is_whole(&session, start, count);
    match session.selected() {
        Some(Part::Boot1 | Part::Boot2) | None => Err("no such run".into()),
        Some(_) if is_suited && !session.info().read_only => {
            Ok(erase_run(bus, session, start, count, How::Erase))
        }
        Some(_) => Err("no such run".into()),
    }
}

// The cause by which an erase fails with this bus.
fn cause_of(mut bus: ScriptedBus) -> Result<Option<Cause>, Fail> {
    let session = opened(&mut bus).ok_or("not opened")?;
    match erased(&mut bus, session, 0, 1024)? {
        Ok(_) => Ok(None),
        Err(broken) => Ok(Some(broken.cause())),
    }
}

#[test]
fn names_the_cause_of_each_lie(rt: HostRuntime) -> Result<(), Fail> {
    let [first, last, erase] = [35, 36, 38].map(|index| Said::Response(index, 0x900));
    let rests = Said::Busy(false);
    let mut busy = [Said::Busy(true); 19];
    (busy[0], busy[1], busy[2]) = (first, last, erase);
    for (said, cause) in [
        (&[][..], Some(Cause::Answer)),
        // ERASE_SEQ_ERROR
        (
            &[first, Said::Response(36, 0x1000_0900)][..],
            Some(Cause::Status),
        ),
        (&busy[..], Some(Cause::Busy)),
        // ident
        (
            &[first, last, erase, rests, Said::Response(13, 0x500)][..],
            Some(Cause::Status),
        ),
        // Its first status shows rcv still, its second one prg.
        (
            &[
                first,
                last,
                erase,
                rests,
                Said::Response(13, 0xd00),
                Said::Response(13, 0xe00),
                Said::Response(13, 0x900),
            ][..],
            None,
        ),
        (
            &[first, last, erase, rests, Said::Response(13, 0x900)][..],
            None,
        ),
    ] {
        assert_eq!(rt; cause_of(saying(rt.alloc(), said)?)?, cause);
    }
    Ok(())
}
