// Requests one at a time, on cards in memory.
use crate::cards::*;
use crate::transfer::{filled, is_all};
use mmc_bus::{Bytes, Part};
use mmc_card_sim::{CardSpec, Fault, SimCard};
use mmc_direct::{Healed, How, Kind, NotDone, Refused, Stands, erase, read, refusal, write};
use mmc_switch::{Cause, Session};
use std::alloc::Global;
use std::test::Fail;

// Erases these sectors of a card that was opened just now, and says why not.
fn erased(
    card: &mut SimCard,
    session: Session,
    part: Part,
    start: u64,
    count: u64,
) -> Option<NotDone> {
    let mut healed = Healed::new();
    let served = erase(
        card,
        &mut healed,
        Stands::Ready(session),
        part,
        start,
        count,
        How::Erase,
    );
    served.answer.err()
}

// Why these sectors of card `emmc` can't be erased, if nothing was sent.
fn refusal_of(alloc: Global, part: Part, start: u64, count: u64) -> Result<Option<NotDone>, Fail> {
    let mut card = built(alloc, spec_of(Which::Emmc))?;
    let session = opened(&mut card).ok_or("not opened")?;
    let before = card.exchanges();
    let why = erased(&mut card, session, part, start, count);
    if card.exchanges() == before {
        Ok(why)
    } else {
        Err("something was sent".into())
    }
}

#[test]
fn refuses_for_the_first_reason(rt: HostRuntime) -> Result<(), Fail> {
    for (part, start, count, refused) in [
        (Part::Gp1, 0, 0, Refused::NoSuchPartition),
        (Part::User, 4096, 0, Refused::Empty),
        (Part::User, 2048, 1, Refused::OutOfRange),
        (Part::User, u64::MAX, 2, Refused::OutOfRange),
        (Part::Boot1, 0, 1, Refused::NotInPartition),
        (Part::User, 1, 1024, Refused::Unaligned),
    ] {
        let why = refusal_of(rt.alloc(), part, start, count)?;
        assert_eq!(rt; why, Some(NotDone::Refused(refused)));
    }
    Ok(())
}

#[test]
fn refuses_more_sectors_than_a_run_has(rt: HostRuntime) -> Result<(), Fail> {
    let mut card = built(rt.alloc(), spec_of(Which::Emmc))?;
    let session = opened(&mut card).ok_or("not opened")?;
    for (count, refused) in [(65_535, Refused::OutOfRange), (65_536, Refused::TooLong)] {
        let why = refusal(session.info(), Kind::Read, Part::User, 0, count);
        assert_eq!(rt; why, Some(refused));
    }
    Ok(())
}

// Writes two sectors across the end of an erase unit, trims the second and erases the first with its unit.
fn changed(card: &mut SimCard, stands: Stands, blocks: &Bytes) -> Stands {
    let mut healed = Healed::new();
    let written = write(card, &mut healed, stands, Part::User, 1023, blocks);
    let trimmed = erase(
        card,
        &mut healed,
        written.stands,
        Part::User,
        1024,
        1,
        How::Trim,
    );
    erase(
        card,
        &mut healed,
        trimmed.stands,
        Part::User,
        0,
        1024,
        How::Erase,
    )
    .stands
}

// All sectors of a partition are erased.
fn is_erased(card: &SimCard, part: Part) -> bool {
    for i in 0..card.size(part) {
        if card.sector(part, i) != Some([0xff; 512]) {
            return false;
        }
    }
    true
}

#[test]
fn serves_one_request_after_another(rt: HostRuntime) -> Result<(), Fail> {
    let mut card = built(rt.alloc(), spec_of(Which::Emmc))?;
    let session = opened(&mut card).ok_or("not opened")?;
    let blocks = filled(rt.alloc(), 0x5a, 2)?;
    let mut room = filled(rt.alloc(), 0, 2)?;
    let mut healed = Healed::new();
    let ready = Stands::Ready(session);
    let written = write(&mut card, &mut healed, ready, Part::Boot2, 254, &blocks);
    let stands = changed(&mut card, written.stands, &blocks);
    let served = read(&mut card, &mut healed, stands, Part::Boot2, 254, &mut room);
    assert_eq!(rt; served.answer, Ok(()));
    assert_eq!(rt; healed.attempts, 2);
    assert!(rt; is_all(room.as_slice(), 0x5a));
    assert!(rt; is_erased(&card, Part::User));
    Ok(())
}

// Twice as many sectors as a request of the queue has at most, in one run each way: CMD23, CMD25, a block and a poll for each sector, and
// the last status; then CMD23, CMD18 and the blocks.
#[test]
fn moves_a_whole_card_in_one_run(rt: HostRuntime) -> Result<(), Fail> {
    let mut card = built(rt.alloc(), spec_of(Which::Emmc))?;
    let session = opened(&mut card).ok_or("not opened")?;
    let blocks = filled(rt.alloc(), 0x5a, 2048)?;
    let mut room = filled(rt.alloc(), 0, 2048)?;
    let mut healed = Healed::new();
    let before = card.exchanges();
    let ready = Stands::Ready(session);
    let written = write(&mut card, &mut healed, ready, Part::User, 0, &blocks);
    assert_eq!(rt; Some(card.exchanges()), before.checked_add(4099));
    let served = read(
        &mut card,
        &mut healed,
        written.stands,
        Part::User,
        0,
        &mut room,
    );
    assert_eq!(rt; served.answer, Ok(()));
    assert_eq!(rt; Some(card.exchanges()), before.checked_add(6149));
    assert!(rt; is_all(room.as_slice(), 0x5a));
    Ok(())
}

// Plans that the first command of each of four attempts is lost. Settling takes four exchanges: CMD13, CMD16, and CMD13 twice.
fn planned(card: &mut SimCard) -> Result<u64, Fail> {
    let first = card.exchanges();
    for attempt in 0..4 {
        let exchange = first.checked_add(5 * attempt).ok_or("too many")?;
        card.plan(exchange, Fault::LoseCommand)
            .ok()
            .ok_or("not planned")?;
    }
    Ok(first)
}

#[test]
fn gives_up_after_four_attempts(rt: HostRuntime) -> Result<(), Fail> {
    let mut card = built(rt.alloc(), spec_of(Which::Sdhc))?;
    let session = opened(&mut card).ok_or("not opened")?;
    let first = planned(&mut card)?;
    let mut room = filled(rt.alloc(), 0, 1)?;
    let mut healed = Healed::new();
    let ready = Stands::Ready(session);
    let served = read(&mut card, &mut healed, ready, Part::User, 0, &mut room);
    assert_eq!(rt; served.answer, Err(NotDone::Failed(Cause::Answer)));
    assert_eq!(rt; Some(card.exchanges()), first.checked_add(16));
    let again = read(
        &mut card,
        &mut healed,
        served.stands,
        Part::User,
        0,
        &mut room,
    );
    assert_eq!(rt; again.answer, Ok(()));
    let counted = Healed {
        attempts: 5,
        by_answer: 4,
        settlings: 4,
        ..Healed::new()
    };
    assert_eq!(rt; healed, counted);
    Ok(())
}

// The response to the CMD18 of a read of two blocks is lost, and the card sends them by itself: CMD13 still shows data, and then CMD12
// finds it in tran, where it isn't answered. CMD13 once more shows tran, and the read is made again.
#[test]
fn resets_no_card_that_ended_a_read_by_itself(rt: HostRuntime) -> Result<(), Fail> {
    let spec = CardSpec {
        goes_on: true,
        ..spec_of(Which::Sdhc)
    };
    let mut card = built(rt.alloc(), spec)?;
    let session = opened(&mut card).ok_or("not opened")?;
    let first = card.exchanges();
    let start = first.checked_add(1).ok_or("too many")?;
    card.plan(start, Fault::LoseReply)
        .ok()
        .ok_or("not planned")?;
    let mut room = filled(rt.alloc(), 0, 2)?;
    let mut healed = Healed::new();
    let ready = Stands::Ready(session);
    let served = read(&mut card, &mut healed, ready, Part::User, 0, &mut room);
    assert_eq!(rt; served.answer, Ok(()));
    let counted = Healed {
        attempts: 2,
        by_answer: 1,
        settlings: 1,
        ..Healed::new()
    };
    assert_eq!(rt; healed, counted);
    assert_eq!(rt; Some(card.exchanges()), first.checked_add(2 + 2 + 4 + 4));
    Ok(())
}
