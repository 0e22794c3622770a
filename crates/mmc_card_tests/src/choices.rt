// What a card does where it is free: the RCA that it publishes, its block length after CMD0.
use crate::cards::*;
use mmc_bus::{DataIn, DataOut};
use mmc_card_sim::example_cards::sdsc;
use mmc_card_sim::{CardSpec, Fault, KindRegisters, Outcome, Registers, SdRegisters, SimCard};
use mmc_frame::encode;
use std::test::Fail;

// Card `sdsc`, which publishes another RCA at each CMD3, FFFEh first.
fn changing() -> CardSpec {
    let scr: u64 = 0x0005_0000_0000_0000;
    CardSpec {
        registers: Registers {
            kind: KindRegisters::Sd(SdRegisters {
                scr: scr.to_be_bytes(),
                rca: 0xfffe,
                rca_changes: true,
                answers_cmd8: false,
                has_high_speed: false,
            }),
            ..sdsc().registers
        },
        ..sdsc()
    }
}

// From idle to ident.
fn identify(card: &mut SimCard) {
    for (index, argument) in [(55, 0), (41, 0x4030_0000), (2, 0)] {
        send(card, encode(index, argument));
    }
}

// Each CMD3 publishes the next RCA, in stby too, and the card goes by it. FFFFh is followed by 1. What was published
// outlives CMD0 and a loss of power, and so does a CMD3 whose response is lost.
#[test]
fn publishes_another_rca(rt: HostRuntime) -> Result<(), Fail> {
    let mut card = built(rt.alloc(), changing())?;
    identify(&mut card);
    expect_r1(&rt, &mut card, 3, 0, 0xfffe_0500);
    expect_r1(&rt, &mut card, 3, 0, 0xffff_0700);
    expect_silence(&rt, &mut card, encode(13, 0xfffe_0000));
    expect_r1(&rt, &mut card, 13, 0xffff_0000, 0x700);
    send(&mut card, encode(0, 0));
    identify(&mut card);
    expect_r1(&rt, &mut card, 3, 0, 0x0001_0500);
    plan_after(&mut card, 0, Fault::Brownout(Outcome::Old))?;
    expect_silence(&rt, &mut card, encode(13, RCA));
    identify(&mut card);
    plan_after(&mut card, 0, Fault::LoseReply)?;
    expect_silence(&rt, &mut card, encode(3, 0));
    expect_r1(&rt, &mut card, 13, 0x0002_0000, 0x700);
    expect_r1(&rt, &mut card, 3, 0, 0x0003_0700);
    Ok(())
}

// After power on the block length of an SD card is 512; CMD0 makes it that of READ_BL_LEN, here 1,024, and CMD16 makes
// it 512 again.
#[test]
fn names_its_block_length_after_cmd0(rt: HostRuntime) -> Result<(), Fail> {
    let csd: u128 = 0x0000_0000_000a_0000_0000_4000_0240_00e5;
    let spec = CardSpec {
        registers: Registers {
            csd: csd.to_be_bytes(),
            ..sdsc().registers
        },
        sectors: 8,
        keeps_length: false,
        ..sdsc()
    };
    let mut card = built(rt.alloc(), spec)?;
    for (length_error, data) in [(0, DataIn::Good), (0x2000_0000, DataIn::Nothing)] {
        identify(&mut card);
        send(&mut card, encode(3, 0));
        send(&mut card, encode(7, RCA));
        wait(&mut card);
        expect_r1(&rt, &mut card, 17, 0, length_error | 0x900);
        expect_data(&rt, &mut card, data);
        expect_r1(&rt, &mut card, 16, 512, 0x900);
        expect_r1(&rt, &mut card, 17, 0, 0x900);
        expect_sector(&rt, &mut card, 0x00);
        send(&mut card, encode(0, 0));
    }
    Ok(())
}

// After CMD7 and after CMD12 that ends a read statuses may show what the card was in before tran. They and the polls that were
// answered yes are as many as both delays say.
#[test]
fn shows_late_where_it_is(rt: HostRuntime) -> Result<(), Fail> {
    let mut spec = sdsc();
    (spec.busy, spec.late, spec.lagging) = (1, 2, 1);
    let mut card = selected_sd(rt.alloc(), spec)?;
    for status in [0x600, 0x600, 0x900, 0x900] {
        expect_status(&rt, &mut card, status);
    }
    expect_r1(&rt, &mut card, 18, 0, 0x900);
    expect_r1(&rt, &mut card, 12, 0, 0xb00);
    for status in [0xa00, 0xa00, 0xa00, 0x900] {
        expect_status(&rt, &mut card, status);
    }
    expect_r1(&rt, &mut card, 24, 512, 0x900);
    expect_taken(&rt, &mut card, 0x5a, DataOut::Accepted);
    expect_polls(&rt, &mut card, 1);
    for status in [0xe00, 0x900] {
        expect_status(&rt, &mut card, status);
    }
    Ok(())
}
