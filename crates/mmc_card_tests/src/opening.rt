// What an eMMC device shows of its EXT_CSD (JESD84-B51, section 6.6.1).
use crate::cards::*;
use mmc_bus::{Bus, DataIn, Timing, Width};
use mmc_card_sim::SimCard;
use mmc_card_sim::example_cards::{emmc_with, ext_csd_of_emmc};
use mmc_frame::encode;
use std::process::Abort;
use std::test::Fail;

// CMD8 of eMMC, and the 512 bytes that come.
fn expect_ext_csd(rt: &impl Abort, card: &mut SimCard, wanted: &[u8; 512]) {
    send(card, encode(8, 0));
    let mut block = [0; 512];
    assert_eq!(rt; card.read_data(&mut block), DataIn::Good);
    assert!(rt; block == *wanted);
}

// A switch of eMMC: the device is busy in prg for two polls.
fn expect_switch(rt: &impl Abort, card: &mut SimCard, argument: u32) {
    expect_r1(rt, card, 6, argument, 0x900);
    expect_status(rt, card, 0xe00);
    expect_polls(rt, card, 2);
    expect_status(rt, card, 0x900);
}

// What can be switched is as after power on, whatever the EXT_CSD is made with; after the switches eight lines at high
// speed carry it, and it shows them.
#[test]
fn shows_what_is_switched(rt: HostRuntime) -> Result<(), Fail> {
    let mut made = ext_csd_of_emmc();
    (made[175], made[179], made[183], made[185]) = (0x01, 0x49, 0x02, 0x01);
    let mut spec = emmc_with(made, 2048);
    spec.busy = 2;
    let mut card = selected_mmc(rt.alloc(), spec)?;
    let mut ext_csd = ext_csd_of_emmc();
    ext_csd[179] = 0x48;
    expect_ext_csd(&rt, &mut card, &ext_csd);
    expect_switch(&rt, &mut card, 0x03af_0100);
    expect_switch(&rt, &mut card, 0x03b7_0200);
    card.set_lines(Width::Eight, Timing::Default);
    expect_switch(&rt, &mut card, 0x03b9_0100);
    card.set_lines(Width::Eight, Timing::High);
    (ext_csd[175], ext_csd[183], ext_csd[185]) = (0x01, 0x02, 0x01);
    expect_ext_csd(&rt, &mut card, &ext_csd);
    Ok(())
}

// A device that ages says one more of its life time at each CMD0, and 0 after 255.
#[test]
fn ages(rt: HostRuntime) -> Result<(), Fail> {
    let mut made = ext_csd_of_emmc();
    made[268] = 0xfe;
    let mut spec = emmc_with(made, 2048);
    spec.ages = true;
    let mut card = built(rt.alloc(), spec)?;
    for life_time in [0xff, 0x00, 0x01] {
        for (index, argument) in [(0, 0), (1, 0x4030_0000), (2, 0), (3, RCA), (7, RCA)] {
            send(&mut card, encode(index, argument));
        }
        wait(&mut card);
        made[268] = life_time;
        expect_ext_csd(&rt, &mut card, &made);
    }
    Ok(())
}
