// What a card does between two faults: addresses, partitions, waits, transfers, erase and trim.
use crate::cards::*;
use mmc_bus::{Bus, DataIn, DataOut, Part, Timing, Width};
use mmc_card_sim::example_cards::*;
use mmc_card_sim::{CardSpec, Registers, SimCard};
use mmc_frame::encode;
use std::alloc::Global;
use std::process::Abort;
use std::test::Fail;

// An eMMC device with byte addresses and this CSD, whose sectors are numbered.
fn with_byte_addresses(alloc: Global, csd: u128, sectors: u32) -> Result<CardSpec, Fail> {
    let mut ext_csd = ext_csd_of_emmc();
    ext_csd[226] = 0x00;
    let made = emmc_with(ext_csd, u64::from(sectors));
    Ok(CardSpec {
        registers: Registers {
            ocr: 0x00ff_8080,
            csd: csd.to_be_bytes(),
            ..made.registers
        },
        sectors: u64::from(sectors),
        ready: 0,
        busy: 0,
        early: None,
        keeps_length: true,
        refusal: None,
        stays_busy: false,
        lagging: 0,
        late: 0,
        goes_on: false,
        shows_app_cmd: false,
        ages: false,
        image: numbered_image(alloc, sectors)?,
    })
}

// By READ_BL_LEN, 9 to 11, an eMMC device with byte addresses has 4, 8 or 16 sectors, and its first block length is
// 512, 1,024 or 2,048 bytes: only CMD16 makes it read by sectors.
#[test]
fn begins_with_its_block_length(rt: HostRuntime) -> Result<(), Fail> {
    for (csd, sectors, status, data) in [
        (
            0x0000_0000_0009_0000_0000_0000_0000_0069,
            4,
            0x0900,
            DataIn::Good,
        ),
        (
            0x0000_0000_000a_0000_0000_0000_0000_0017,
            8,
            0x2000_0900,
            DataIn::Nothing,
        ),
        (
            0x0000_0000_000b_0000_0000_0000_0000_003d,
            16,
            0x2000_0900,
            DataIn::Nothing,
        ),
    ] {
        let spec = with_byte_addresses(rt.alloc(), csd, sectors)?;
        let mut card = selected_mmc(rt.alloc(), spec)?;
        expect_r1(&rt, &mut card, 17, 512, status);
        expect_data(&rt, &mut card, data);
        expect_r1(&rt, &mut card, 16, 512, 0x900);
        expect_r1(&rt, &mut card, 17, 512, 0x900);
        expect_sector(&rt, &mut card, 1);
        expect_r1(&rt, &mut card, 17, 512 * sectors, 0x8000_0900);
    }
    Ok(())
}

// A partition has so many sectors, of which the first and the last are filled with these bytes.
fn expect_part(rt: &impl Abort, card: &SimCard, part: Part, sectors: usize, first: u8, last: u8) {
    let end = sectors.saturating_sub(1);
    assert_eq!(rt; card.size(part), sectors, "{part:?}");
    assert!(rt; card.sector(part, 0) == Some([first; 512]), "{part:?}");
    assert!(rt; card.sector(part, end) == Some([last; 512]), "{part:?}");
}

// A switch of eMMC with this argument is answered with this status, and the device is in tran afterwards.
fn expect_switch(rt: &impl Abort, card: &mut SimCard, argument: u32, status: u32) {
    expect_r1(rt, card, 6, argument, status);
    expect_polls(rt, card, 0);
    expect_status(rt, card, 0x900);
}

// Seven partitions, whose sectors stand in the image one after the other. An access to one without sectors is an error
// of the switch.
#[test]
fn has_seven_partitions(rt: HostRuntime) -> Result<(), Fail> {
    let mut ext_csd = ext_csd_of_emmc();
    (ext_csd[212], ext_csd[213]) = (0x04, 0x00);
    (ext_csd[155], ext_csd[143]) = (0x01, 0x01);
    let mut spec = emmc_with(ext_csd, 4);
    spec.image = numbered_image(rt.alloc(), 4 + 256 + 256 + 1024)?;
    let mut card = selected_mmc(rt.alloc(), spec)?;
    expect_part(&rt, &card, Part::User, 4, 0, 3);
    expect_part(&rt, &card, Part::Boot1, 256, 4, 8);
    expect_part(&rt, &card, Part::Boot2, 256, 9, 13);
    expect_part(&rt, &card, Part::Gp1, 1024, 14, 33);
    for part in [Part::Gp2, Part::Gp3, Part::Gp4] {
        assert_eq!(rt; card.size(part), 0);
    }
    for (argument, status, byte) in [
        (0x03b3_0100, 0x900, 4),
        (0x03b3_0500, 0x980, 4),
        (0x03b3_0200, 0x900, 9),
        (0x03b3_0400, 0x900, 14),
        (0x03b3_0000, 0x900, 0),
    ] {
        expect_switch(&rt, &mut card, argument, status);
        expect_r1(&rt, &mut card, 17, 0, 0x900);
        expect_sector(&rt, &mut card, byte);
    }
    Ok(())
}

// With `busy` 3 three polls of each busy time are answered yes. The card isn't ready for data in that time.
#[test]
fn is_busy_for_three_polls(rt: HostRuntime) -> Result<(), Fail> {
    let mut spec = sdsc();
    spec.busy = 3;
    let mut card = built(rt.alloc(), spec)?;
    for (index, argument) in [(55, 0), (41, 0x0030_0000), (2, 0), (3, 0)] {
        send(&mut card, encode(index, argument));
    }
    expect_r1(&rt, &mut card, 7, RCA, 0x700);
    expect_status(&rt, &mut card, 0x800);
    expect_polls(&rt, &mut card, 3);
    expect_status(&rt, &mut card, 0x900);
    expect_r1(&rt, &mut card, 25, 0, 0x900);
    expect_taken(&rt, &mut card, 0x5a, DataOut::Accepted);
    expect_taken(&rt, &mut card, 0x5b, DataOut::Nothing);
    expect_status(&rt, &mut card, 0xc00);
    expect_polls(&rt, &mut card, 3);
    expect_r1(&rt, &mut card, 12, 0, 0xd00);
    expect_polls(&rt, &mut card, 3);
    expect_filled(&rt, &card, Part::User, 0, &[0x5a, 0x00]);
    assert_eq!(rt; card.faults(), 0);
    Ok(())
}

// An uncounted read goes past the last sector, which shows in the response to CMD12. A counted one ends there by
// itself.
#[test]
fn reads_up_to_the_end(rt: HostRuntime) -> Result<(), Fail> {
    let mut card = selected_sd(rt.alloc(), sdsc_cmd23())?;
    expect_r1(&rt, &mut card, 18, 1024, 0x900);
    expect_sector(&rt, &mut card, 0);
    expect_sector(&rt, &mut card, 0);
    expect_data(&rt, &mut card, DataIn::Nothing);
    expect_r1(&rt, &mut card, 12, 0, 0x8000_0b00);
    expect_status(&rt, &mut card, 0x900);
    expect_r1(&rt, &mut card, 23, 2, 0x900);
    expect_r1(&rt, &mut card, 18, 1024, 0x900);
    expect_sector(&rt, &mut card, 0);
    expect_status(&rt, &mut card, 0xb00);
    expect_sector(&rt, &mut card, 0);
    expect_status(&rt, &mut card, 0x900);
    Ok(())
}

// A write of two blocks that CMD23 has counted ends in prg by itself. While it is unfinished, the old bytes are shown.
#[test]
fn writes_two_counted_blocks(rt: HostRuntime) -> Result<(), Fail> {
    let mut card = selected_sd(rt.alloc(), sdsc_cmd23())?;
    expect_r1(&rt, &mut card, 23, 2, 0x900);
    expect_r1(&rt, &mut card, 25, 512, 0x900);
    expect_taken(&rt, &mut card, 0x11, DataOut::Accepted);
    expect_polls(&rt, &mut card, 0);
    expect_status(&rt, &mut card, 0xd00);
    expect_taken(&rt, &mut card, 0x22, DataOut::Accepted);
    expect_status(&rt, &mut card, 0xe00);
    expect_filled(&rt, &card, Part::User, 0, &[0, 0, 0, 0]);
    expect_polls(&rt, &mut card, 0);
    expect_status(&rt, &mut card, 0x900);
    expect_filled(&rt, &card, Part::User, 0, &[0, 0x11, 0x22, 0]);
    Ok(())
}

// PERM_WRITE_PROTECT and TMP_WRITE_PROTECT, bits 13 and 12 of the CSD: the card reads and doesn't write.
#[test]
fn is_write_protected(rt: HostRuntime) -> Result<(), Fail> {
    for csd in [
        0x0000_0000_0009_0000_0000_4000_0240_20ff_u128,
        0x0000_0000_0009_0000_0000_4000_0240_10a9,
    ] {
        let mut spec = sdsc();
        spec.registers.csd = csd.to_be_bytes();
        let mut card = selected_sd(rt.alloc(), spec)?;
        expect_r1(&rt, &mut card, 24, 0, 0x0400_0900);
        expect_taken(&rt, &mut card, 0x5a, DataOut::Nothing);
        expect_status(&rt, &mut card, 0x900);
        expect_r1(&rt, &mut card, 17, 0, 0x900);
        expect_sector(&rt, &mut card, 0);
    }
    Ok(())
}

// An erase or trim (argument 1) of eMMC from a sector to another, after which the device is in tran.
fn erase(rt: &impl Abort, card: &mut SimCard, first: u32, last: u32, argument: u32) {
    expect_r1(rt, card, 35, first, 0x900);
    expect_r1(rt, card, 36, last, 0x900);
    expect_r1(rt, card, 38, argument, 0x900);
    expect_status(rt, card, 0xe00);
    expect_polls(rt, card, 0);
    expect_status(rt, card, 0x900);
}

// An erase takes whole units of 1,024 sectors, and a trim the sectors that are named. Their bytes are FFh, or 00h where
// ERASED_MEM_CONT is 0.
#[test]
fn erases_units_and_trims_sectors(rt: HostRuntime) -> Result<(), Fail> {
    for (content, erased) in [(0x01, 0xff), (0x00, 0x00)] {
        let mut ext_csd = ext_csd_of_emmc();
        ext_csd[181] = content;
        ext_csd[226] = 0x00;
        let mut spec = emmc_with(ext_csd, 2048);
        spec.image = numbered_image(rt.alloc(), 2048)?;
        let mut card = selected_mmc(rt.alloc(), spec)?;
        expect_filled(&rt, &card, Part::User, 1022, &[18, 19, 20, 21, 22, 23]);
        erase(&rt, &mut card, 1025, 1026, 1);
        let trimmed = [18, 19, 20, erased, erased, 23];
        expect_filled(&rt, &card, Part::User, 1022, &trimmed);
        erase(&rt, &mut card, 5, 5, 0);
        let whole = [erased, erased, 20, erased, erased, 23];
        expect_filled(&rt, &card, Part::User, 1022, &whole);
        expect_filled(&rt, &card, Part::User, 0, &[erased; 6]);
    }
    Ok(())
}

// The sequence of an erase: its addresses are dropped by another command, but not by CMD13, and each error shows once.
#[test]
fn erases_in_sequence(rt: HostRuntime) -> Result<(), Fail> {
    let mut card = selected_sd(rt.alloc(), sdsc())?;
    expect_r1(&rt, &mut card, 38, 0, 0x1000_0900);
    expect_r1(&rt, &mut card, 32, 512, 0x0900);
    expect_r1(&rt, &mut card, 13, RCA, 0x0900);
    expect_r1(&rt, &mut card, 33, 0, 0x0900);
    expect_r1(&rt, &mut card, 38, 0, 0x0800_0900);
    expect_r1(&rt, &mut card, 33, 0, 0x1000_0900);
    expect_r1(&rt, &mut card, 32, 512, 0x0900);
    expect_r1(&rt, &mut card, 16, 512, 0x2900);
    expect_r1(&rt, &mut card, 33, 512, 0x1000_0900);
    expect_r1(&rt, &mut card, 13, RCA, 0x0900);
    Ok(())
}

// A wrong check, an unknown command and CMD23, which this card hasn't, show in the next status alone, another card's RCA
// nowhere, and an address that the card hasn't in the response to its own command.
#[test]
fn shows_errors_once(rt: HostRuntime) -> Result<(), Fail> {
    let mut card = selected_sd(rt.alloc(), sdsc())?;
    expect_silence(&rt, &mut card, [0x4d, 0, 1, 0, 0, 0x51]);
    expect_silence(&rt, &mut card, encode(58, 0));
    expect_silence(&rt, &mut card, encode(23, 2));
    expect_silence(&rt, &mut card, encode(13, 0x0002_0000));
    for (index, argument, status) in [
        (13, RCA, 0x00c0_0900),
        (13, RCA, 0x0900),
        (17, 2048, 0x8000_0900),
        (24, 256, 0x4000_0900),
        (13, RCA, 0x0900),
    ] {
        expect_r1(&rt, &mut card, index, argument, status);
    }
    Ok(())
}

// A block comes over the lines of the card alone, and in its own length.
#[test]
fn sends_over_its_lines(rt: HostRuntime) -> Result<(), Fail> {
    let mut card = selected_sd(rt.alloc(), sdsc())?;
    expect_r1(&rt, &mut card, 17, 0, 0x900);
    for (width, timing) in [
        (Width::Four, Timing::Default),
        (Width::Eight, Timing::Default),
        (Width::One, Timing::High),
    ] {
        card.set_lines(width, timing);
        expect_data(&rt, &mut card, DataIn::Nothing);
    }
    card.set_lines(Width::One, Timing::Default);
    assert_eq!(rt; card.read_data(&mut [0; 8]), DataIn::Nothing);
    expect_status(&rt, &mut card, 0xb00);
    expect_sector(&rt, &mut card, 0);
    Ok(())
}

// A locked card says so in every status, but not in its R6.
#[test]
fn is_locked(rt: HostRuntime) -> Result<(), Fail> {
    let mut spec = sdsc();
    spec.registers.is_locked = true;
    let mut card = built(rt.alloc(), spec)?;
    expect_r1(&rt, &mut card, 55, 0, 0x0200_0120);
    send(&mut card, encode(41, 0x0030_0000));
    send(&mut card, encode(2, 0));
    expect_r1(&rt, &mut card, 3, 0, 0x0001_0500);
    expect_r1(&rt, &mut card, 7, RCA, 0x0200_0700);
    expect_polls(&rt, &mut card, 0);
    expect_status(&rt, &mut card, 0x0200_0900);
    Ok(())
}
