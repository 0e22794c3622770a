// Faults that do what no driver lets be seen, and which of them are counted.
use crate::cards::*;
use mmc_bus::{DataOut, Part};
use mmc_card_sim::example_cards::*;
use mmc_card_sim::{Fault, Flips, Outcome, SimCard};
use mmc_frame::encode;
use std::alloc::Global;
use std::test::Fail;

// Card `sdsc_cmd23` in tran, with a fault that is planned for the exchange after so many more.
fn faulty(alloc: Global, others: u64, fault: Fault) -> Result<SimCard, Fail> {
    let mut card = selected_sd(alloc, sdsc_cmd23())?;
    plan_after(&mut card, others, fault)?;
    Ok(card)
}

// A garbled command drops the count that CMD23 has preset, and a lost one doesn't: of an uncounted read the card sends
// on after the sector.
#[test]
fn drops_a_preset_count(rt: HostRuntime) -> Result<(), Fail> {
    let flips = Flips {
        first: 12,
        second: None,
    };
    for (fault, begun, ended) in [
        (Fault::FlipCommand(flips), 0x0080_0900, 0x0b00),
        (Fault::LoseCommand, 0x0900, 0x0900),
    ] {
        let mut card = faulty(rt.alloc(), 1, fault)?;
        expect_r1(&rt, &mut card, 23, 1, 0x900);
        expect_silence(&rt, &mut card, encode(18, 0));
        expect_r1(&rt, &mut card, 18, 0, begun);
        expect_sector(&rt, &mut card, 0);
        expect_status(&rt, &mut card, ended);
    }
    Ok(())
}

// After CMD25 a rejected block may be offered again, in the same place.
#[test]
fn offers_a_rejected_block_again(rt: HostRuntime) -> Result<(), Fail> {
    let mut card = faulty(rt.alloc(), 1, Fault::Reject)?;
    expect_r1(&rt, &mut card, 25, 512, 0x900);
    expect_taken(&rt, &mut card, 0x5a, DataOut::Rejected);
    expect_status(&rt, &mut card, 0xd00);
    expect_taken(&rt, &mut card, 0x5b, DataOut::Accepted);
    expect_polls(&rt, &mut card, 0);
    expect_r1(&rt, &mut card, 12, 0, 0xd00);
    expect_polls(&rt, &mut card, 0);
    expect_filled(&rt, &card, Part::User, 0, &[0, 0x5b, 0, 0]);
    Ok(())
}

// Or all that are offered after it are ignored, until CMD12.
#[test]
fn ignores_blocks_after_a_rejected_one(rt: HostRuntime) -> Result<(), Fail> {
    let mut card = faulty(rt.alloc(), 1, Fault::RejectAll)?;
    expect_r1(&rt, &mut card, 25, 512, 0x900);
    expect_taken(&rt, &mut card, 0x5a, DataOut::Rejected);
    expect_taken(&rt, &mut card, 0x5b, DataOut::Nothing);
    expect_status(&rt, &mut card, 0xd00);
    expect_r1(&rt, &mut card, 12, 0, 0xd00);
    expect_polls(&rt, &mut card, 0);
    expect_r1(&rt, &mut card, 24, 512, 0x900);
    expect_taken(&rt, &mut card, 0x5c, DataOut::Accepted);
    assert_eq!(rt; card.faults(), 1);
    Ok(())
}

// Planned yes answers are some of those of a busy time. The fifteenth is no fault, and the sixteenth is one.
#[test]
fn is_busy_longer(rt: HostRuntime) -> Result<(), Fail> {
    for (busy, first, end, yes, faults) in [
        (0, 2, 3, 1, 0),
        (2, 2, 3, 2, 0),
        (8, 10, 17, 15, 0),
        (8, 10, 18, 16, 1),
    ] {
        let mut spec = sdsc_cmd23();
        spec.busy = busy;
        let mut card = selected_sd(rt.alloc(), spec)?;
        for others in first..end {
            plan_after(&mut card, others, Fault::Busy)?;
        }
        expect_r1(&rt, &mut card, 24, 512, 0x900);
        expect_taken(&rt, &mut card, 0x5a, DataOut::Accepted);
        expect_polls(&rt, &mut card, yes);
        expect_status(&rt, &mut card, 0x900);
        assert_eq!(rt; card.faults(), faults);
    }
    Ok(())
}

// A block that the card doesn't see may be offered again.
#[test]
fn takes_a_lost_block_later(rt: HostRuntime) -> Result<(), Fail> {
    let mut card = faulty(rt.alloc(), 1, Fault::LoseBlock)?;
    expect_r1(&rt, &mut card, 24, 512, 0x900);
    expect_taken(&rt, &mut card, 0x5a, DataOut::Nothing);
    expect_status(&rt, &mut card, 0xd00);
    expect_taken(&rt, &mut card, 0x5b, DataOut::Accepted);
    expect_polls(&rt, &mut card, 0);
    expect_filled(&rt, &card, Part::User, 0, &[0, 0x5b, 0, 0]);
    assert_eq!(rt; card.faults(), 1);
    Ok(())
}

// After CMD24 a rejected block may leave the card busy in prg, and nothing is stored.
#[test]
fn is_busy_after_a_rejected_block(rt: HostRuntime) -> Result<(), Fail> {
    let mut spec = sdsc_cmd23();
    spec.busy = 2;
    let mut card = selected_sd(rt.alloc(), spec)?;
    plan_after(&mut card, 1, Fault::RejectBusy)?;
    expect_r1(&rt, &mut card, 24, 512, 0x900);
    expect_taken(&rt, &mut card, 0x5a, DataOut::Rejected);
    expect_status(&rt, &mut card, 0xe00);
    expect_polls(&rt, &mut card, 2);
    expect_status(&rt, &mut card, 0x900);
    expect_filled(&rt, &card, Part::User, 0, &[0, 0, 0, 0]);
    Ok(())
}

// Programming that fails early shows its errors while the card is busy still.
#[test]
fn shows_errors_while_it_is_busy(rt: HostRuntime) -> Result<(), Fail> {
    for (outcome, byte) in [(Outcome::Old, 0), (Outcome::New, 0x5a)] {
        let mut card = faulty(rt.alloc(), 2, Fault::FailEarly(outcome, 0x0010_0000))?;
        expect_r1(&rt, &mut card, 24, 512, 0x900);
        expect_taken(&rt, &mut card, 0x5a, DataOut::Accepted);
        assert!(rt; card.busy());
        expect_status(&rt, &mut card, 0x0010_0e00);
        expect_polls(&rt, &mut card, 0);
        expect_status(&rt, &mut card, 0x900);
        expect_filled(&rt, &card, Part::User, 0, &[0, byte, 0, 0]);
    }
    Ok(())
}

// Programming that has failed unseen shows at the next command, which meets the card in tran.
#[test]
fn shows_what_has_failed_unseen(rt: HostRuntime) -> Result<(), Fail> {
    for (outcome, byte) in [(Outcome::Old, 0), (Outcome::New, 0x5a)] {
        let mut card = faulty(rt.alloc(), 2, Fault::FailUnseen(outcome, 0x0010_0000))?;
        expect_r1(&rt, &mut card, 24, 512, 0x900);
        expect_taken(&rt, &mut card, 0x5a, DataOut::Accepted);
        expect_status(&rt, &mut card, 0x0010_0900);
        expect_status(&rt, &mut card, 0x900);
        expect_filled(&rt, &card, Part::User, 0, &[0, byte, 0, 0]);
        assert_eq!(rt; card.faults(), 1);
    }
    Ok(())
}

// That of an earlier block may have by the next one, which the card takes.
#[test]
fn goes_on_after_what_has_failed_unseen(rt: HostRuntime) -> Result<(), Fail> {
    let mut card = faulty(rt.alloc(), 2, Fault::FailUnseen(Outcome::Old, 0x0010_0000))?;
    expect_r1(&rt, &mut card, 25, 512, 0x900);
    expect_taken(&rt, &mut card, 0x5a, DataOut::Accepted);
    expect_taken(&rt, &mut card, 0x5b, DataOut::Accepted);
    expect_status(&rt, &mut card, 0x0010_0c00);
    expect_polls(&rt, &mut card, 0);
    expect_r1(&rt, &mut card, 12, 0, 0xd00);
    expect_polls(&rt, &mut card, 0);
    expect_filled(&rt, &card, Part::User, 0, &[0, 0, 0x5b, 0]);
    assert_eq!(rt; card.faults(), 1);
    Ok(())
}

// A write of protected sectors doesn't begin, and its response says why.
#[test]
fn finds_sectors_protected(rt: HostRuntime) -> Result<(), Fail> {
    let mut card = faulty(rt.alloc(), 0, Fault::FindProtection)?;
    expect_r1(&rt, &mut card, 24, 512, 0x0400_0900);
    expect_taken(&rt, &mut card, 0x5a, DataOut::Nothing);
    expect_status(&rt, &mut card, 0x900);
    plan_after(&mut card, 0, Fault::FindProtection)?;
    expect_r1(&rt, &mut card, 25, 512, 0x0400_0900);
    expect_taken(&rt, &mut card, 0x5a, DataOut::Nothing);
    expect_status(&rt, &mut card, 0x900);
    assert_eq!(rt; card.faults(), 2);
    Ok(())
}

// A command that finds an error isn't carried out, and its response says why: no count is preset, and the read goes on.
#[test]
fn finds_an_error(rt: HostRuntime) -> Result<(), Fail> {
    let mut card = faulty(rt.alloc(), 0, Fault::FindError(0x2008_0000))?;
    expect_r1(&rt, &mut card, 23, 1, 0x2008_0900);
    expect_r1(&rt, &mut card, 18, 0, 0x900);
    expect_sector(&rt, &mut card, 0);
    expect_status(&rt, &mut card, 0xb00);
    assert_eq!(rt; card.faults(), 1);
    Ok(())
}

// Nothing comes of such a command: no application command follows CMD55, and an address that is held stays so.
#[test]
fn comes_to_nothing_with_an_error(rt: HostRuntime) -> Result<(), Fail> {
    let mut card = faulty(rt.alloc(), 0, Fault::FindError(0x0008_0000))?;
    expect_r1(&rt, &mut card, 55, RCA, 0x0008_0900);
    expect_silence(&rt, &mut card, encode(51, 0));
    plan_after(&mut card, 1, Fault::FindError(0x0008_0000))?;
    expect_r1(&rt, &mut card, 32, 0, 0x0040_0900);
    expect_r1(&rt, &mut card, 33, 0, 0x0008_0900);
    expect_r1(&rt, &mut card, 33, 0, 0x900);
    plan_after(&mut card, 0, Fault::FindError(0x8000_0000))?;
    expect_r1(&rt, &mut card, 16, 512, 0x8000_2900);
    expect_r1(&rt, &mut card, 38, 0, 0x1000_0900);
    assert_eq!(rt; card.faults(), 3);
    Ok(())
}

// So does nothing of a switch of an eMMC device, which isn't busy then.
#[test]
fn writes_no_byte_with_an_error(rt: HostRuntime) -> Result<(), Fail> {
    let mut card = selected_mmc(rt.alloc(), emmc())?;
    plan_after(&mut card, 0, Fault::FindError(0x0400_0000))?;
    expect_r1(&rt, &mut card, 6, 0x03b7_0200, 0x0400_0900);
    expect_polls(&rt, &mut card, 0);
    expect_status(&rt, &mut card, 0x900);
    expect_r1(&rt, &mut card, 17, 0, 0x900);
    expect_sector(&rt, &mut card, 0xff);
    Ok(())
}

// A command that is carried out may show an error too. CMD13, CMD12 and CMD7 neither find one nor show one so.
#[test]
fn shows_an_error_besides(rt: HostRuntime) -> Result<(), Fail> {
    let mut card = faulty(rt.alloc(), 0, Fault::ShowError(0x0008_0000))?;
    expect_r1(&rt, &mut card, 55, RCA, 0x0008_0920);
    expect_r1(&rt, &mut card, 51, 0, 0x920);
    plan_after(&mut card, 0, Fault::ShowError(0x0008_0000))?;
    expect_status(&rt, &mut card, 0xb00);
    plan_after(&mut card, 0, Fault::FindError(0x0008_0000))?;
    expect_r1(&rt, &mut card, 12, 0, 0xb00);
    assert_eq!(rt; card.faults(), 1);
    Ok(())
}

// A switch may fail while its response is lost: nothing after it says so.
#[test]
fn loses_what_a_failed_switch_says(rt: HostRuntime) -> Result<(), Fail> {
    let mut card = selected_mmc(rt.alloc(), emmc())?;
    plan_after(&mut card, 0, Fault::LoseFailedSwitch)?;
    expect_silence(&rt, &mut card, encode(6, 0x03b7_0200));
    expect_status(&rt, &mut card, 0xe00);
    expect_polls(&rt, &mut card, 0);
    expect_status(&rt, &mut card, 0x900);
    expect_r1(&rt, &mut card, 17, 0, 0x900);
    expect_sector(&rt, &mut card, 0xff);
    Ok(())
}
