// Width and speed, and what is known of a card, over buses that lie.
use crate::cards::*;
use mmc_bus::{Bus, Part, ScriptedBus};
use mmc_identify::{Found, identify};
use mmc_switch::{SwitchFault, widen};
use std::test::Fail;

// A general purpose partition that commands can't address as a whole counts as none.
#[test]
fn leaves_out_what_cannot_be_addressed(rt: HostRuntime) -> Result<(), Fail> {
    let mut ext_csd = ext_csd_of_emmc();
    (ext_csd[155], ext_csd[143], ext_csd[144], ext_csd[145]) = (1, 0xff, 0xff, 0xff);
    let mut bus = ScriptedBus::new(answers_of_emmc(rt.alloc(), ext_csd)?);
    let session = opened(&mut bus).ok_or("not opened")?;
    assert_eq!(rt; session.info().sectors(Part::Gp1), None);
    assert_eq!(rt; session.info().sectors(Part::User), Some(2048));
    Ok(())
}

// Why a card isn't widened, if it isn't.
fn refusal<B: Bus>(bus: &mut B, found: Found) -> Option<SwitchFault> {
    match widen(bus, found) {
        Ok(_) => None,
        Err(why) => Some(why),
    }
}

// An EXT_CSD of an old revision, without an erase unit, or without a size is refused.
#[test]
fn refuses_an_ext_csd(rt: HostRuntime) -> Result<(), Fail> {
    for (index, value) in [(192, 4), (224, 0), (213, 0)] {
        let mut ext_csd = ext_csd_of_emmc();
        ext_csd[index] = value;
        let mut bus = ScriptedBus::new(answers_of_emmc(rt.alloc(), ext_csd)?);
        let found = identify(&mut bus).ok().ok_or("not found")?;
        assert_eq!(rt; refusal(&mut bus, found), Some(SwitchFault::Register));
    }
    Ok(())
}

// A lost response is named as such: the last one is that to CMD13, which shows high speed.
#[test]
fn names_an_exchange_that_failed(rt: HostRuntime) -> Result<(), Fail> {
    let mut answers = answers_of_emmc(rt.alloc(), ext_csd_of_emmc())?;
    answers.pop_back();
    let mut bus = ScriptedBus::new(answers);
    let found = identify(&mut bus).ok().ok_or("not found")?;
    assert_eq!(rt; refusal(&mut bus, found), Some(SwitchFault::Exchange));
    Ok(())
}

// A card that shows APP_CMD in its R6, as most do: it is opened.
#[test]
fn opens_a_card_whose_r6_shows_app_cmd(rt: HostRuntime) -> Result<(), Fail> {
    let mut spec = spec_of(Which::Sdhc);
    spec.shows_app_cmd = true;
    let mut card = built(rt.alloc(), spec)?;
    assert!(rt; opened(&mut card).is_some());
    Ok(())
}

// An eMMC device whose life time has changed between two openings: it is known again.
#[test]
fn opens_a_device_whose_ext_csd_changes(rt: HostRuntime) -> Result<(), Fail> {
    let mut spec = spec_of(Which::Emmc);
    spec.ages = true;
    let mut card = built(rt.alloc(), spec)?;
    let first = opened(&mut card).ok_or("not opened")?;
    let second = opened(&mut card).ok_or("not opened again")?;
    assert!(rt; first.info() == second.info());
    Ok(())
}
