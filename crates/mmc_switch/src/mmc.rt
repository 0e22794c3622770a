// What widening does with eMMC devices, and a switch of one byte (JESD84-B51, sections 6.6.1, 6.6.2 and 7.4).
ghost use Rattle.std.specs.Prelude.{◌≡◌, ◌⊎◌, ◌*◌, ◌+◌, ◌==◌, ◌≤◌, IfOk, IsErr, IsOk, Ok, Some, false, if◌then◌else◌, true};
ghost use Rattle.mmc_frame.specs.declared.addressing.Addressing.TheVariants.{Sectors};
ghost use Rattle.mmc_frame.specs.declared.kind.Kind.TheVariants.{Mmc};
ghost use Rattle.mmc_ext_csd.specs.ExtCsd.{ext_csd_in, high_speed_at_52_mhz, sec_count};
ghost use Rattle.mmc_card.specs.Card.{Card};
ghost use Rattle.mmc_card.specs.Laws.{Setting, setting_of};
ghost use Rattle.mmc_card.specs.Limits.{slower};
ghost use Rattle.mmc_card.specs.Profile.{InProfile};
ghost use Rattle.mmc_card.specs.RowsSwitch.{IsExtCsdOf, programs_switch, switched, width_number, write_byte};
ghost use Rattle.mmc_card.specs.declared.exchange.Timing.TheVariants as At;
ghost use Rattle.mmc_card.specs.declared.exchange.Width.TheVariants as Over;
ghost use Rattle.mmc_card.specs.declared.part.Part.TheVariants.{User};
ghost use Rattle.mmc_bus.specs.CommandLaws.{HasSwitchError};
ghost use Rattle.mmc_bus.specs.Work.{Done, Ends, Moves, MovesFrom, Narrows};
ghost use Rattle.mmc_identify.specs.Stages.{IsFound};
ghost use Rattle.mmc_switch.specs.Info.{has_high_timing};
ghost use Rattle.mmc_switch.specs.Place.{IsInitialized};
ghost use Rattle.mmc_switch.specs.Stages.{IsAtRest, IsSet, MayStandIn, first_setting, user_setting};

use crate::ending::EXCHANGES_OF_AN_ENDING;
use crate::fault::SwitchFault;
use crate::registers::mmc_info;
use crate::session::Session;
use mmc_bus::{
    Bus, Cause, Lines, Timing, Width, ask, card_laws, check_own, receive, switch_laws,
    wait_and_confirm,
};
use mmc_card::laws;
use mmc_ext_csd::ExtCsd;
use mmc_frame::commands::{SEND_IF_COND, SWITCH_FUNC};
use mmc_frame::{Addressing, Kind};
use mmc_identify::Found;

// Bytes of the EXT_CSD that widening writes.
const ERASE_GROUP_DEF: u8 = 175;

const BUS_WIDTH: u8 = 183;

const HS_TIMING: u8 = 185;

/// The most exchanges of a switch: CMD6, and those that end it.
pub const EXCHANGES_OF_A_SWITCH: u64 = EXCHANGES_OF_AN_ENDING + 1;

/// The argument of CMD6 that writes a byte of the EXT_CSD.
pub fn write_byte(index: u8, value: u8) -> u32
    ensures { result ≡ write_byte index value }
{
    0x0300_0000 + u32::from(index) * 0x1_0000 + u32::from(value) * 0x100
}

// CMD8 and its block: the EXT_CSD.
fn send_ext_csd<B: Bus>(bus: &mut B) -> Result<[u8; 512], Cause>
    ensures bounded { (B.view bus.new).exchanges ≤ (B.view bus.old).exchanges + 2 }
    ensures moves { Moves
        (λ old new. (setting : Setting) → old.card.made.kind ≡ Mmc → IsSet false setting old
        → IfOk result (λ block. IsExtCsdOf old.card block × IsSet false setting new))
        (λ old new. (setting : Setting) → old.card.made.kind ≡ Mmc → IsSet false setting old → IsOk result)
        (B.view bus.old) (B.view bus.new) }
{
    switch_laws::cmd8_sends_the_ext_csd();
    card_laws::a_status_tells_of_its_card();
    laws::no_command_but_erase_widens();
    check_own(Kind::Mmc, ask(bus, SEND_IF_COND, 0))?;
    let mut block = [0; 512];
    receive(bus, &mut block)?;
    Ok(block)
}

// Judges an EXT_CSD: it has to be taken by its reader, and to give a size to a device with sector addresses.
fn judge(block: &[u8; 512], addressing: Addressing) -> Result<ExtCsd, SwitchFault>
    ensures ok { IfOk result (λ ext_csd. (ext_csd ≡ block.now) × (ext_csd_in block.now ≡ Ok ext_csd)) }
    ensures all { ext_csd_in block.now ≡ Ok block.now → (addressing ≡ Sectors → sec_count block.now ≡ 0 → ⊥) → IsOk result }
{
    let ext_csd = ExtCsd::read(block).map_err(|_| SwitchFault::Register)?;
    match addressing {
        Addressing::Sectors if ext_csd.sectors() == 0 => Err(SwitchFault::Register),
        Addressing::Sectors | Addressing::Bytes => Ok(ext_csd),
    }
}

// CMD6, whose response has to show no error: the device programs the byte, or SWITCH_ERROR is to be shown after that.
fn request<B: Bus>(bus: &mut B, argument: u32) -> Result<(), Cause>
    ensures ends { Ends 1 (B.view bus.old) result (B.view bus.new) }
    ensures done { (B.view bus.new).is_kept ≡ true → Done (MayStandIn argument) Narrows
        (λ old new. (after : Card) → old.card.made.kind ≡ Mmc → IsAtRest false old.card
        → switched old.card argument ≡ Some after → IsOk result
        → (new.card ≡ programs_switch after) ⊎ HasSwitchError new.card)
        (λ old new. (after : Card) → old.card.made.kind ≡ Mmc → IsAtRest false old.card
        → switched old.card argument ≡ Some after → IsOk result × (new.card ≡ programs_switch after))
        (B.view bus.old) (B.view bus.new) }
{
    switch_laws::cmd6_switches_an_emmc_device();
    card_laws::a_status_tells_of_its_card();
    laws::no_command_but_erase_widens();
    check_own(Kind::Mmc, ask(bus, SWITCH_FUNC, argument))
}

/// Switches a byte of the EXT_CSD: CMD6, polls until the device isn't busy, and a clean status, which alone tells that the
/// byte was written. Whatever falls, a device that is to select a partition stands as before, in its partition or in that
/// one.
///
/// # Errors
/// The cause of the last exchange.
pub fn switch<B: Bus>(bus: &mut B, rca: u16, argument: u32) -> Result<(), Cause>
    ensures ends { Ends EXCHANGES_OF_A_SWITCH (B.view bus.old) result (B.view bus.new) }
    ensures done { (B.view bus.new).is_kept ≡ true → Done (MayStandIn argument) Narrows
        (λ old new. (after : Card) → old.card.made.kind ≡ Mmc → IsAtRest false old.card
        → switched old.card argument ≡ Some after → IsOk result
        → IsAtRest false new.card × (setting_of new.card ≡ setting_of after))
        (λ old new. (after : Card) → old.card.made.kind ≡ Mmc → IsAtRest false old.card → old.card.rca ≡ rca
        → switched old.card argument ≡ Some after → IsOk result)
        (B.view bus.old) (B.view bus.new) }
{
    request(bus, argument)?;
    wait_and_confirm(bus, Kind::Mmc, rca)
}

// Erase groups by HC_ERASE_GRP_SIZE.
fn use_erase_groups<B: Bus>(bus: &mut B, rca: u16) -> Result<(), Cause>
    ensures bounded { (B.view bus.new).exchanges ≤ (B.view bus.old).exchanges + EXCHANGES_OF_A_SWITCH }
    ensures moves { Moves
        (λ old new. old.card.made.kind ≡ Mmc → IsSet false (user_setting rca Over.One At.Default 0) old → IsOk result
        → IsSet false (user_setting rca Over.One At.Default 1) new)
        (λ old new. old.card.made.kind ≡ Mmc → IsSet false (user_setting rca Over.One At.Default 0) old → IsOk result)
        (B.view bus.old) (B.view bus.new) }
{
    switch(bus, rca, write_byte(ERASE_GROUP_DEF, 1))
}

// The number of several lines in BUS_WIDTH.
fn bus_width(width: Width) -> u8
    ensures { result ≡ width_number width }
{
    match width {
        Width::One => 0,
        Width::Four => 1,
        Width::Eight => 2,
    }
}

// Several lines, of the device and then of the host.
fn use_several_lines<B: Bus>(bus: &mut B, rca: u16, width: Width) -> Result<(), Cause>
    requires several { width ≡ Over.One → ⊥ }
    ensures bounded { (B.view bus.new).exchanges ≤ (B.view bus.old).exchanges + EXCHANGES_OF_A_SWITCH }
    ensures lines { (B.view bus.new).is_kept ≡ true → IsErr result → (B.view bus.new).lines ≡ (B.view bus.old).lines }
    ensures moves { Moves
        (λ old new. old.card.made.kind ≡ Mmc → IsSet false (user_setting rca Over.One At.Default 1) old → IsOk result
        → IsSet false (user_setting rca width At.Default 1) new)
        (λ old new. old.card.made.kind ≡ Mmc → IsSet false (user_setting rca Over.One At.Default 1) old → IsOk result)
        (B.view bus.old) (B.view bus.new) }
{
    switch(bus, rca, write_byte(BUS_WIDTH, bus_width(width)))?;
    bus.set_lines(width, Timing::Default);
    Ok(())
}

// So many lines. A device that was reset has one, so that nothing is sent for one.
fn use_lines<B: Bus>(bus: &mut B, rca: u16, width: Width) -> Result<(), Cause>
    ensures bounded { (B.view bus.new).exchanges ≤ (B.view bus.old).exchanges + EXCHANGES_OF_A_SWITCH }
    ensures kept { (B.view bus.new).is_kept ≡ true → (B.view bus.old).is_kept ≡ true }
    ensures moves { MovesFrom
        (λ old new. old.card.made.kind ≡ Mmc → IsSet false (user_setting rca Over.One At.Default 1) old → IsOk result
        → IsSet false (user_setting rca width At.Default 1) new)
        (λ old new. old.card.made.kind ≡ Mmc → IsSet false (user_setting rca Over.One At.Default 1) old → IsOk result)
        (B.view bus.old) (B.view bus.new) }
{
    match width {
        Width::One => Ok(()),
        Width::Four | Width::Eight => use_several_lines(bus, rca, width),
    }
}

// High speed, of the device and then of the host.
fn speed_up<B: Bus>(bus: &mut B, rca: u16, width: Width) -> Result<(), Cause>
    ensures bounded { (B.view bus.new).exchanges ≤ (B.view bus.old).exchanges + EXCHANGES_OF_A_SWITCH }
    ensures lines { (B.view bus.new).is_kept ≡ true → IsErr result → (B.view bus.new).lines ≡ (B.view bus.old).lines }
    ensures moves { Moves
        (λ old new. old.card.made.kind ≡ Mmc → has_high_timing old.card.made ≡ true
        → IsSet false (user_setting rca width At.Default 1) old → IsOk result
        → IsSet false (user_setting rca width At.High 1) new)
        (λ old new. old.card.made.kind ≡ Mmc → has_high_timing old.card.made ≡ true
        → IsSet false (user_setting rca width At.Default 1) old → IsOk result)
        (B.view bus.old) (B.view bus.new) }
{
    switch(bus, rca, write_byte(HS_TIMING, 1))?;
    bus.set_lines(width, Timing::High);
    Ok(())
}

// The most lines that device and host have, and the fastest timing: a device has eight, and high speed where DEVICE_TYPE names it.
fn lines_over(limits: Lines, ext_csd: &ExtCsd) -> Lines
    ensures width { result.width ≡ limits.width }
    ensures timing { result.timing ≡ slower (if high_speed_at_52_mhz ext_csd.now == 1 then At.High else At.Default) limits.timing }
{
    let timing = if ext_csd.high_speed() {
        Timing::High
    } else {
        Timing::Default
    };
    Lines {
        width: limits.width,
        timing: timing.slower(limits.timing),
    }
}

// The switches of widening, to these lines.
fn set_up<B: Bus>(bus: &mut B, rca: u16, lines: Lines) -> Result<(), Cause>
    ensures bounded { (B.view bus.new).exchanges ≤ (B.view bus.old).exchanges + 3 * EXCHANGES_OF_A_SWITCH }
    ensures moves { Moves
        (λ old new. old.card.made.kind ≡ Mmc → (lines.timing ≡ At.High → has_high_timing old.card.made ≡ true)
        → IsSet false (first_setting rca) old → IsOk result
        → IsSet false (user_setting rca lines.width lines.timing 1) new)
        (λ old new. old.card.made.kind ≡ Mmc → (lines.timing ≡ At.High → has_high_timing old.card.made ≡ true)
        → IsSet false (first_setting rca) old → IsOk result)
        (B.view bus.old) (B.view bus.new) }
{
    use_erase_groups(bus, rca)?;
    use_lines(bus, rca, lines.width)?;
    match lines.timing {
        Timing::Default => Ok(()),
        Timing::High => speed_up(bus, rca, lines.width),
    }
}

/// Widens an eMMC device that has blocks of 512 bytes.
pub fn widen<B: Bus>(bus: &mut B, found: &Found) -> Result<Session, SwitchFault>
    ensures bounded { (B.view bus.new).exchanges ≤ (B.view bus.old).exchanges + (3 * EXCHANGES_OF_A_SWITCH + 2) }
    ensures user { IfOk result (λ session. session.selected ≡ Some User) }
    ensures moves { Moves
        (λ old new. old.card.made.kind ≡ Mmc → IsFound old.card.made found.now
        → IsSet false (first_setting found.now.rca) old
        → IfOk result (λ session. IsInitialized session new))
        (λ old new. old.card.made.kind ≡ Mmc → InProfile old.card.made → IsFound old.card.made found.now
        → IsSet false (first_setting found.now.rca) old → IsOk result)
        (B.view bus.old) (B.view bus.new) }
{
    let limits = bus.limits();
    let block = send_ext_csd(bus).map_err(|_| SwitchFault::Exchange)?;
    let ext_csd = judge(&block, found.addressing)?;
    let lines = lines_over(limits, &ext_csd);
    set_up(bus, found.rca, lines).map_err(|_| SwitchFault::Exchange)?;
    let info = mmc_info(found, &ext_csd, lines);
    Ok(Session::opened(info, ext_csd.partition_config()))
}
