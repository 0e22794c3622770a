// What widening does with SD cards (SD Physical Layer 6.00, sections 4.3.10, 4.7.4 and 5.6).
ghost use Rattle.std.specs.Prelude.{◌≡◌, ◌+◌, ◌≤◌, IfOk, IsOk, Some, false, true, ℕ};
ghost use Rattle.mmc_frame.specs.declared.kind.Kind.TheVariants.{Sd};
ghost use Rattle.mmc_regs.specs.Csd.{may_switch};
ghost use Rattle.mmc_regs.specs.Scr.{scr_number, sd_spec};
ghost use Rattle.mmc_card.specs.Laws.{Setting};
ghost use Rattle.mmc_card.specs.Made.{csd_number_of, has_switch_function};
ghost use Rattle.mmc_card.specs.Profile.{InProfile};
ghost use Rattle.mmc_card.specs.declared.exchange.Timing.TheVariants as At;
ghost use Rattle.mmc_card.specs.declared.exchange.Width.TheVariants as Over;
ghost use Rattle.mmc_card.specs.declared.part.Part.TheVariants.{User};
ghost use Rattle.mmc_bus.specs.Work.{Moves, MovesFrom};
ghost use Rattle.mmc_identify.specs.Stages.{IsFound};
ghost use Rattle.mmc_switch.specs.Info.{IsTimingOver, width_over};
ghost use Rattle.mmc_switch.specs.Place.{IsInitialized};
ghost use Rattle.mmc_switch.specs.Stages.{HasSwitched, IsSet, IsSetOver, IsToldOf, first_setting, lines_of, user_setting};

use crate::fault::SwitchFault;
use crate::registers::sd_info;
use crate::session::Session;
use mmc_bus::{
    Bus, Cause, Timing, Width, ask, card_laws, check_own, confirm, identify_laws, rca_argument,
    receive, switch_laws, transfer_laws,
};
use mmc_card::laws;
use mmc_frame::Kind;
use mmc_frame::commands::{APP_CMD, SEND_SCR, SET_BUS_WIDTH, SWITCH_FUNC};
use mmc_identify::Found;
use mmc_regs::{Scr, SwitchStatus};

// The arguments of CMD6: function 1 of group 1, high speed, is only checked, or switched to; no other group changes.
const CHECK_HIGH_SPEED: u32 = 0x00ff_fff1;

const SWITCH_TO_HIGH_SPEED: u32 = 0x80ff_fff1;

// The argument of ACMD6 for four lines.
const FOUR_LINES: u32 = 2;

/// What an SD card tells while it is widened.
#[derive(Clone, Copy, Debug)]
pub struct Told {
    pub scr: Scr,
    // As they are set.
    pub width: Width,
    pub timing: Timing,
}

// CMD55: the next command is an application command.
fn announce<B: Bus>(bus: &mut B, rca: u16) -> Result<(), Cause>
    ensures bounded { (B.view bus.new).exchanges ≤ (B.view bus.old).exchanges + 1 }
    ensures moves { Moves
        (λ old new. (setting : Setting) → setting.rca ≡ rca → IsSet false setting old → IsOk result → IsSet true setting new)
        (λ old new. (setting : Setting) → setting.rca ≡ rca → old.card.made.kind ≡ Sd → IsSet false setting old → IsOk result)
        (B.view bus.old) (B.view bus.new) }
{
    identify_laws::cmd55_announces_an_application_command();
    card_laws::a_status_tells_of_its_card();
    laws::no_command_but_erase_widens();
    check_own(Kind::Sd, ask(bus, APP_CMD, rca_argument(rca)))
}

// ACMD51 and its block: the SCR.
fn send_scr<B: Bus>(bus: &mut B) -> Result<Scr, Cause>
    ensures bounded { (B.view bus.new).exchanges ≤ (B.view bus.old).exchanges + 2 }
    ensures moves { Moves
        (λ old new. (setting : Setting) → IsSet true setting old
        → IfOk result (λ scr. (scr ≡ scr_number old.card.made.scr) × IsSet false setting new))
        (λ old new. (setting : Setting) → old.card.made.kind ≡ Sd → IsSet true setting old → IsOk result)
        (B.view bus.old) (B.view bus.new) }
{
    transfer_laws::acmd51_sends_the_scr();
    card_laws::a_status_tells_of_its_card();
    laws::no_command_but_erase_widens();
    check_own(Kind::Sd, ask(bus, SEND_SCR, 0))?;
    let mut block = [0; 8];
    receive(bus, &mut block)?;
    Ok(Scr::new(&block))
}

// The SCR of a card with this RCA.
fn read_scr<B: Bus>(bus: &mut B, rca: u16) -> Result<Scr, Cause>
    ensures bounded { (B.view bus.new).exchanges ≤ (B.view bus.old).exchanges + 3 }
    ensures moves { Moves
        (λ old new. (setting : Setting) → setting.rca ≡ rca → IsSet false setting old
        → IfOk result (λ scr. (scr ≡ scr_number old.card.made.scr) × IsSet false setting new))
        (λ old new. (setting : Setting) → setting.rca ≡ rca → old.card.made.kind ≡ Sd → IsSet false setting old → IsOk result)
        (B.view bus.old) (B.view bus.new) }
{
    announce(bus, rca)?;
    send_scr(bus)
}

// ACMD6: four lines.
fn set_bus_width<B: Bus>(bus: &mut B) -> Result<(), Cause>
    ensures bounded { (B.view bus.new).exchanges ≤ (B.view bus.old).exchanges + 1 }
    ensures moves { Moves
        (λ old new. (setting : Setting) → old.card.made.kind ≡ Sd → IsSet true setting old → IsOk result
        → IsSetOver (lines_of setting) false (record setting { width = Over.Four }) new)
        (λ old new. (setting : Setting) → old.card.made.kind ≡ Sd → IsSet true setting old → IsOk result)
        (B.view bus.old) (B.view bus.new) }
{
    switch_laws::acmd6_sets_the_width();
    card_laws::a_status_tells_of_its_card();
    laws::no_command_but_erase_widens();
    check_own(Kind::Sd, ask(bus, SET_BUS_WIDTH, FOUR_LINES))
}

// Four lines, of the card and then of the host.
fn use_four_lines<B: Bus>(bus: &mut B, rca: u16) -> Result<(), Cause>
    ensures bounded { (B.view bus.new).exchanges ≤ (B.view bus.old).exchanges + 2 }
    ensures moves { Moves
        (λ old new. old.card.made.kind ≡ Sd → IsSet false (user_setting rca Over.One At.Default 0) old → IsOk result
        → IsSet false (user_setting rca Over.Four At.Default 0) new)
        (λ old new. old.card.made.kind ≡ Sd → IsSet false (user_setting rca Over.One At.Default 0) old → IsOk result)
        (B.view bus.old) (B.view bus.new) }
{
    announce(bus, rca)?;
    set_bus_width(bus)?;
    bus.set_lines(Width::Four, Timing::Default);
    Ok(())
}

// Four lines where the SCR names them and the host has them.
fn set_width<B: Bus>(bus: &mut B, rca: u16, scr: Scr) -> Result<Width, Cause>
    ensures bounded { (B.view bus.new).exchanges ≤ (B.view bus.old).exchanges + 2 }
    ensures kept { (B.view bus.new).is_kept ≡ true → (B.view bus.old).is_kept ≡ true }
    ensures moves { MovesFrom
        (λ old new. old.card.made.kind ≡ Sd → scr ≡ scr_number old.card.made.scr → IsSet false (first_setting rca) old
        → IfOk result (λ width. (width ≡ width_over old.limits old.card.made) × IsSet false (user_setting rca width At.Default 0) new))
        (λ old new. old.card.made.kind ≡ Sd → IsSet false (first_setting rca) old → IsOk result)
        (B.view bus.old) (B.view bus.new) }
{
    if scr.has_four_lines() && bus.limits().width != Width::One {
        use_four_lines(bus, rca)?;
        Ok(Width::Four)
    } else {
        Ok(Width::One)
    }
}

// CMD6 and its block: the switch status.
fn switch_func<B: Bus>(bus: &mut B, argument: u32) -> Result<SwitchStatus, Cause>
    ensures bounded { (B.view bus.new).exchanges ≤ (B.view bus.old).exchanges + 2 }
    ensures moves { Moves
        (λ old new. (setting : Setting) → old.card.made.kind ≡ Sd → IsSet false setting old
        → IfOk result (λ status. HasSwitched argument setting old.card status new))
        (λ old new. (setting : Setting) → old.card.made.kind ≡ Sd → has_switch_function old.card.made ≡ true
        → IsSet false setting old → IsOk result)
        (B.view bus.old) (B.view bus.new) }
{
    switch_laws::cmd6_sends_the_switch_status();
    card_laws::a_status_tells_of_its_card();
    laws::no_command_but_erase_widens();
    check_own(Kind::Sd, ask(bus, SWITCH_FUNC, argument))?;
    let mut block = [0; 64];
    receive(bus, &mut block)?;
    Ok(SwitchStatus::new(&block))
}

// High speed, of the card and then of the host, where the card switches to it: its status may say that it didn't.
fn switch_to_high_speed<B: Bus>(bus: &mut B, width: Width) -> Result<Timing, Cause>
    ensures bounded { (B.view bus.new).exchanges ≤ (B.view bus.old).exchanges + 2 }
    ensures moves { Moves
        (λ old new. (rca : ℕ) → old.card.made.kind ≡ Sd → IsSet false (user_setting rca width At.Default 0) old
        → IfOk result (λ timing. IsSet false (user_setting rca width timing 0) new))
        (λ old new. (rca : ℕ) → old.card.made.kind ≡ Sd → has_switch_function old.card.made ≡ true
        → IsSet false (user_setting rca width At.Default 0) old → IsOk result)
        (B.view bus.old) (B.view bus.new) }
{
    if switch_func(bus, SWITCH_TO_HIGH_SPEED)?.is_high_speed() {
        bus.set_lines(width, Timing::High);
        Ok(Timing::High)
    } else {
        Ok(Timing::Default)
    }
}

// High speed where the switch status names it, of a card that has CMD6, over a host that has high speed.
fn speed_up<B: Bus>(bus: &mut B, width: Width) -> Result<Timing, Cause>
    ensures bounded { (B.view bus.new).exchanges ≤ (B.view bus.old).exchanges + 4 }
    ensures moves { Moves
        (λ old new. (rca : ℕ) → old.limits.timing ≡ At.High → old.card.made.kind ≡ Sd
        → has_switch_function old.card.made ≡ true → IsSet false (user_setting rca width At.Default 0) old
        → IfOk result (λ timing. IsTimingOver old.limits old.card.made timing
        × IsSet false (user_setting rca width timing 0) new))
        (λ old new. (rca : ℕ) → old.card.made.kind ≡ Sd → has_switch_function old.card.made ≡ true
        → IsSet false (user_setting rca width At.Default 0) old → IsOk result)
        (B.view bus.old) (B.view bus.new) }
{
    if switch_func(bus, CHECK_HIGH_SPEED)?.supports_high_speed() {
        switch_to_high_speed(bus, width)
    } else {
        Ok(Timing::Default)
    }
}

// High speed where the host has it and the card takes it. CCC decides whether it has CMD6, and then SD_SPEC.
fn set_timing<B: Bus>(bus: &mut B, width: Width, switches: bool, scr: Scr) -> Result<Timing, Cause>
    ensures bounded { (B.view bus.new).exchanges ≤ (B.view bus.old).exchanges + 4 }
    ensures kept { (B.view bus.new).is_kept ≡ true → (B.view bus.old).is_kept ≡ true }
    ensures moves { MovesFrom
        (λ old new. (rca : ℕ) → old.card.made.kind ≡ Sd → switches ≡ may_switch (csd_number_of old.card.made)
        → scr ≡ scr_number old.card.made.scr → IsSet false (user_setting rca width At.Default 0) old
        → IfOk result (λ timing. IsTimingOver old.limits old.card.made timing
        × IsSet false (user_setting rca width timing 0) new))
        (λ old new. (rca : ℕ) → old.card.made.kind ≡ Sd → switches ≡ may_switch (csd_number_of old.card.made)
        → scr ≡ scr_number old.card.made.scr → IsSet false (user_setting rca width At.Default 0) old → IsOk result)
        (B.view bus.old) (B.view bus.new) }
{
    if switches && scr.sd_spec() != 0 && bus.limits().timing == Timing::High {
        speed_up(bus, width)
    } else {
        Ok(Timing::Default)
    }
}

// The exchanges of widening, of a card whose CCC lets it know CMD6, or doesn't.
fn set_up<B: Bus>(bus: &mut B, rca: u16, switches: bool) -> Result<Told, Cause>
    ensures bounded { (B.view bus.new).exchanges ≤ (B.view bus.old).exchanges + 10 }
    ensures moves { Moves
        (λ old new. old.card.made.kind ≡ Sd → switches ≡ may_switch (csd_number_of old.card.made)
        → IsSet false (first_setting rca) old
        → IfOk result (λ told. IsToldOf old.limits old.card.made told
        × IsSet false (user_setting rca told.width told.timing 0) new))
        (λ old new. old.card.made.kind ≡ Sd → switches ≡ may_switch (csd_number_of old.card.made)
        → IsSet false (first_setting rca) old → IsOk result)
        (B.view bus.old) (B.view bus.new) }
{
    let scr = read_scr(bus, rca)?;
    let width = set_width(bus, rca, scr)?;
    let timing = set_timing(bus, width, switches, scr)?;
    confirm(bus, Kind::Sd, rca)?;
    Ok(Told { scr, width, timing })
}

/// Widens an SD card that has blocks of 512 bytes.
pub fn widen<B: Bus>(bus: &mut B, found: &Found) -> Result<Session, SwitchFault>
    ensures bounded { (B.view bus.new).exchanges ≤ (B.view bus.old).exchanges + 10 }
    ensures user { IfOk result (λ session. session.selected ≡ Some User) }
    ensures moves { Moves
        (λ old new. old.card.made.kind ≡ Sd → IsFound old.card.made found.now
        → IsSet false (first_setting found.now.rca) old
        → IfOk result (λ session. IsInitialized session new))
        (λ old new. old.card.made.kind ≡ Sd → InProfile old.card.made → IsFound old.card.made found.now
        → IsSet false (first_setting found.now.rca) old → IsOk result)
        (B.view bus.old) (B.view bus.new) }
{
    let told = set_up(bus, found.rca, found.csd.may_switch()).map_err(|_| SwitchFault::Exchange)?;
    let info = sd_info(found, &told).ok_or(SwitchFault::Register)?;
    Ok(Session::opened(info, 0))
}
