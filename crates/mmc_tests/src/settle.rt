// Settling by buses that lie.
use crate::cards::*;
use mmc_bus::TraceBus;
use mmc_recovery::{Patience, settle, settle_with};
use mmc_switch::Cause;
use std::alloc::Global;
use std::test::Fail;

// Whether settling succeeds with a bus that says this, and after how many exchanges.
fn settled_by(alloc: Global, said: &[Said]) -> Result<(bool, usize), Fail> {
    let mut bus = saying(alloc, said)?;
    let session = opened(&mut bus).ok_or("not opened")?;
    let mut bus = TraceBus::new(alloc, bus, 120).ok().ok_or("no trace")?;
    let is_settled = settle(&mut bus, session.break_off(Cause::Answer)).is_ok();
    Ok((is_settled, bus.len()))
}

// A reset that nothing answers is five exchanges: CMD0, CMD8, CMD55, CMD0 for an eMMC device, and CMD1.
#[test]
fn settles_by_the_state_that_is_shown(rt: HostRuntime) -> Result<(), Fail> {
    let tran = Said::Response(13, 0x900);
    let programs = Said::Response(13, 0xe00);
    let length = Said::Response(16, 0x900);
    let mut busy = [Said::Busy(true); 17];
    busy[0] = programs;
    for (said, settling) in [
        (&[tran, length, tran, tran][..], (true, 4)),
        // The card was sending, with an error that CMD13 clears.
        (
            &[
                Said::Response(13, 0x8000_0b00),
                Said::Response(12, 0xb00),
                Said::Busy(false),
                length,
                tran,
                tran,
            ][..],
            (true, 6),
        ),
        (
            &[
                programs,
                Said::Busy(true),
                Said::Busy(false),
                length,
                tran,
                tran,
            ][..],
            (true, 6),
        ),
        (&[][..], (false, 1 + 5)),
        (&[Said::Response(13, 0x700)][..], (false, 1 + 5)),
        (&[tran, length, tran, programs][..], (false, 4 + 5)),
        (&busy[..], (false, 17 + 5)),
    ] {
        assert_eq!(rt; settled_by(rt.alloc(), said)?, settling);
    }
    Ok(())
}

// The same with patience: whether it succeeds, whether the card was reset, and after how many exchanges.
fn settled_patiently_by(alloc: Global, said: &[Said]) -> Result<(bool, bool, usize), Fail> {
    let mut bus = saying(alloc, said)?;
    let session = opened(&mut bus).ok_or("not opened")?;
    let mut bus = TraceBus::new(alloc, bus, 160).ok().ok_or("no trace")?;
    let (settled, was_reset) = settle_with(
        &mut bus,
        session.break_off(Cause::Answer),
        Patience::Twice,
    );
    Ok((settled.is_ok(), was_reset, bus.len()))
}

// So many rounds of a reset that nothing answers.
const RESET: usize = 8 * 5;

#[test]
fn tries_once_more_where_an_answer_is_missing(rt: HostRuntime) -> Result<(), Fail> {
    let data = Said::Response(13, 0xb00);
    let tran = Said::Response(13, 0x900);
    let programs = Said::Response(13, 0xe00);
    let length = Said::Response(16, 0x900);
    let mut busy = [Said::Busy(true); 17];
    busy[0] = programs;
    for (said, settling) in [
        // The card showed data, and had come to tran when CMD12 came. CMD13 shows then that it was illegal.
        (
            &[
                data,
                Said::Silent,
                Said::Response(13, 0x0040_0900),
                length,
                tran,
                tran,
            ][..],
            (true, false, 2 + 4),
        ),
        (
            &[tran, length, tran, Said::Silent, tran, length, tran, tran][..],
            (true, false, 4 + 4),
        ),
        // Twice is the last time. No CMD16, the wrong status, and a card that stays busy lead to the reset at once,
        // of which nothing is answered.
        (&[][..], (false, true, 2 + RESET)),
        (&[data, Said::Silent, data][..], (false, true, 4 + RESET)),
        (&[tran][..], (false, true, 2 + RESET)),
        (&[Said::Response(13, 0x700)][..], (false, true, 1 + RESET)),
        (
            &[tran, length, tran, programs][..],
            (false, true, 4 + RESET),
        ),
        (&busy[..], (false, true, 17 + RESET)),
    ] {
        assert_eq!(rt; settled_patiently_by(rt.alloc(), said)?, settling);
    }
    Ok(())
}
