// The driver opens cards, writes and reads back, also where an answer is lost.
use crate::controller::Controller;
use crate::hasty::Hasty;
use crate::serving::{CAPABILITIES, Way, Which, no_trouble, over, serve, waiting};
use crate::sweeps::{fail_each, fail_each_late, silence_each, wait_at_each};
use mmc_bus::{Bus, Lines, Timing, Want, Width};
use mmc_card_sim::SimCard;
use mmc_card_sim::example_cards::{emmc, sdhc, sdsc};
use mmc_frame::commands::GO_IDLE_STATE;
use mmc_frame::encode;
use mmc_host::HostBus;
use mmc_sdhci::{Registers, Sdhci};
use sdhci_model::{Line, Manner, Model, driver};
use std::alloc::Global;
use std::default::Default;
use std::marker::Brand;
use std::test::Fail;

// Whether the driver keeps to the rules with its first command, where no pause takes longer than this.
fn is_sound_in(alloc: Global, longest: u32) -> Result<bool, Fail> {
    let card = SimCard::build(alloc, sdsc()).ok().ok_or("no card")?;
    let model = Model::new(over(card), CAPABILITIES, 2, 0x1000_0000, Manner::default());
    let Ok(host) = Sdhci::new(Hasty { model, longest }, Width::Eight) else {
        return Err("no driver".into());
    };
    let mut bus = HostBus::new(host);
    bus.command(encode(GO_IDLE_STATE, 0), Want::Nothing);
    Ok(bus.host().registers().model.is_sound())
}

#[test]
fn the_first_command_comes_after_power_up(rt: HostRuntime) -> Result<(), Fail> {
    // A millisecond, and 74 clocks of 50 MHz / 126.
    assert!(rt; !is_sound_in(rt.alloc(), 1186)?);
    assert!(rt; is_sound_in(rt.alloc(), 1187)?);
    Ok(())
}

// Whether a driver keeps to the rules that writes this, once it has begun with a controller of whose slot somebody else wants to hear.
fn may_write(alloc: Global, offset: u8, value: u32) -> Result<bool, Fail> {
    let card = SimCard::build(alloc, sdsc()).ok().ok_or("no card")?;
    let manner = waiting(no_trouble(), Line::Fires).manner;
    let Ok(host) = driver::<Controller, Brand>(over(card), CAPABILITIES, 2, 0x1000_0000, manner)
    else {
        return Err("no driver".into());
    };
    let model = host.into_registers();
    let mut registers = Hasty { model, longest: 0 };
    registers.write32(offset, value);
    Ok(registers.model.is_sound())
}

#[test]
fn interrupts_of_the_slot_are_left_alone(rt: HostRuntime) -> Result<(), Fail> {
    // They aren't cleared.
    assert!(rt; may_write(rt.alloc(), 0x30, 0xffff_ff3f)?);
    assert!(rt; !may_write(rt.alloc(), 0x30, 0xffff_ffff)?);
    assert!(rt; !may_write(rt.alloc(), 0x30, 0x0000_0040)?);
    // They stay shown.
    assert!(rt; may_write(rt.alloc(), 0x34, 0x027f_00f3)?);
    assert!(rt; !may_write(rt.alloc(), 0x34, 0x027f_0033)?);
    assert!(rt; !may_write(rt.alloc(), 0x34, 0x027f_0073)?);
    // No others reach the processor.
    assert!(rt; may_write(rt.alloc(), 0x38, 0x0000_00c0)?);
    assert!(rt; !may_write(rt.alloc(), 0x38, 0x0000_0001)?);
    Ok(())
}

#[test]
fn each_exchange_fails_on_a_strict_controller(rt: HostRuntime) -> Result<(), Fail> {
    for timing in [Timing::Default, Timing::High] {
        for width in [Width::One, Width::Four, Width::Eight] {
            let most = Lines { width, timing };
            let mmc = fail_each(rt.alloc(), Which::Mmc, Way::Port(most))?.lines;
            assert!(rt; mmc == most);
            let sd = fail_each(rt.alloc(), Which::Sd, Way::Port(most))?.lines;
            assert!(rt; sd.width == width.fewer(Width::Four));
        }
    }
    Ok(())
}

#[test]
fn each_exchange_is_silent_on_a_strict_controller(rt: HostRuntime) -> Result<(), Fail> {
    let one = Lines {
        width: Width::One,
        timing: Timing::Default,
    };
    for most in [one, Lines::all()] {
        silence_each(rt.alloc(), Which::Mmc, Way::Port(most))?;
        silence_each(rt.alloc(), Which::Sd, Way::Port(most))?;
    }
    Ok(())
}

#[test]
fn each_interrupt_is_waited_for_on_a_strict_controller(rt: HostRuntime) -> Result<(), Fail> {
    let way = Way::Port(Lines::all());
    wait_at_each(rt.alloc(), Which::Mmc, way)?;
    wait_at_each(rt.alloc(), Which::Sd, way)
}

#[test]
fn errors_come_late_on_a_strict_controller(rt: HostRuntime) -> Result<(), Fail> {
    let way = Way::Port(Lines::all());
    fail_each_late(rt.alloc(), Which::Mmc, way)?;
    fail_each_late(rt.alloc(), Which::Sd, way)
}

#[test]
fn serves_cards_on_a_strict_controller(rt: HostRuntime) -> Result<(), Fail> {
    let way = Way::Port(Lines::all());
    let open_ended = serve(rt.alloc(), sdsc(), way, no_trouble())?;
    assert!(rt; open_ended.lines.timing == Timing::Default);
    let four = serve(rt.alloc(), sdhc(), way, no_trouble())?;
    assert!(rt; four.lines.timing == Timing::High);
    let eight = serve(rt.alloc(), emmc(), way, no_trouble())?;
    assert!(rt; eight.lines.width == Width::Eight);
    Ok(())
}
