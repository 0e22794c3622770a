// What the card in memory does with the commands of width, speed and partition (SD Physical Layer 6.00, section 4.3.10;
// JESD84-B51, section 6.6.1), each in tran.
ghost use Rattle.std.specs.Prelude.{◌≡◌, ◌<◌, None, Some, if◌then◌else◌, slice_index, slice_set, [], false, true};
ghost use Rattle.mmc_frame.specs.declared.card_state.State.TheVariants.{Prg};
ghost use Rattle.mmc_frame.specs.Field.{field};
ghost use Rattle.mmc_card_rows.specs.Chip.{selects_none};
ghost use Rattle.mmc_card.specs.RowsSwitch.{part_accessed, timing_number, width_by, width_number};

use crate::answer::Answer;
use crate::chip::{Chip, Source};
use crate::delays::{Delays, Refusal};
use arrayvec::ArrayVec;
use mmc_card::{Part, Timing, Width};
use mmc_frame::commands::{SEND_IF_COND, SEND_SCR, SET_BUS_WIDTH, SWITCH_FUNC};
use mmc_frame::{Kind, State};

// The arguments of CMD6 of eMMC that write a byte: access 3, then the index of the byte and its value.
const SET_ERASE_GROUP_DEF: u32 = 0x03af_0100;

const SET_FOUR_LINES: u32 = 0x03b7_0100;

const SET_EIGHT_LINES: u32 = 0x03b7_0200;

const SET_HIGH_SPEED: u32 = 0x03b9_0100;

const SET_PARTITION_CONFIG: u32 = 0x03b3_0000;

/// What CMD6 of eMMC can switch.
#[derive(Clone, Copy, Debug, PartialEq, Eq)]
pub enum SwitchTo {
    /// ERASE_GROUP_DEF 1.
    EraseGroupDef,
    /// Four lines.
    FourLines,
    /// Eight lines.
    EightLines,
    /// High speed.
    HighSpeed,
    /// Access to this partition.
    Access(Part),
}

/// The number of a width in BUS_WIDTH.
pub fn width_number(width: Width) -> u8
    ensures { result ≡ width_number width }
{
    match width {
        Width::One => 0,
        Width::Four => 1,
        Width::Eight => 2,
    }
}

/// The number of a timing in HS_TIMING.
pub fn timing_number(timing: Timing) -> u8
    ensures { result ≡ timing_number timing }
{
    match timing {
        Timing::Default => 0,
        Timing::High => 1,
    }
}

// The partition with this PARTITION_ACCESS.
fn part_accessed(access: u32) -> Option<Part>
    ensures { result ≡ part_accessed access }
{
    match access {
        0 => Some(Part::User),
        1 => Some(Part::Boot1),
        2 => Some(Part::Boot2),
        4 => Some(Part::Gp1),
        5 => Some(Part::Gp2),
        6 => Some(Part::Gp3),
        7 => Some(Part::Gp4),
        _ => None,
    }
}

// Puts a byte in its place in a block, if the block is so long.
fn put(block: &mut ArrayVec<u8, 512>, place: usize, byte: u8)
    ensures { block.new.items ≡ slice_set block.old.items place byte }
{
    if place < block.len() {
        block[place] = byte;
    }
}

// A byte of a block, and 0 after its end.
fn byte_at(block: &ArrayVec<u8, 512>, place: usize) -> u8
    ensures { result ≡ slice_index block.now.items place }
{
    if place < block.len() { block[place] } else { 0 }
}

// The function of group 1 that is selected where the card refuses.
fn function_selected(refusal: Refusal) -> u8
    ensures { result ≡ (if selects_none (Some refusal) then 15 else 0) }
{
    match refusal {
        Refusal::SelectsNone => 15,
        Refusal::SelectsDefault => 0,
    }
}

impl Chip {
    ghost use Rattle.mmc_card.specs.CardAnswer.{Checked, busied, status};
    ghost use Rattle.mmc_card.specs.RowsSwitch.{access_switched, ext_csd_now, partition_config_for};
    ghost use Rattle.mmc_card.specs.RowsSwitch.{send_ext_csd, set_bus_width, switch_byte, switch_func, switched};
    ghost use Rattle.mmc_card.specs.RowsSwitch.{is_to_speed_up, refusal as refusal_in, timing_after, switch_row};
    ghost use Rattle.mmc_card.specs.RowsTransfer.{send_scr, sending};
    ghost use Rattle.mmc_card_rows.specs.Chip.{Answers, card_of, command_choice, choice_of};
    ghost use Rattle.mmc_card_rows.specs.Switches.{switched_to, to_card};

    // The card sends this block, and has this timing then.
    fn send_block(
        &mut self,
        index: u8,
        is_app: bool,
        block: ArrayVec<u8, 512>,
        timing: Timing,
    ) -> Answer
        requires { index < 64 }
        ensures { Answers
            (sending block.items timing (card_of self.old), Checked index (status is_app (card_of self.old)))
            self.new result }
    {
        let answer = self.respond_status(index, is_app);
        self.state = State::Data;
        self.source = Source::Block(block, timing);
        answer
    }

    /// ACMD51.
    pub fn send_scr(&mut self) -> Answer
        ensures { Answers (send_scr (card_of self.old)) self.new result }
    {
        let scr = self.registers.scr();
        self.send_block(SEND_SCR, true, scr, self.timing)
    }

    // The lines by the argument of ACMD6: one or four; with other bits they stay.
    fn width_after(&self, bits: u32) -> Width
        ensures { result ≡ width_by (field 1 0 bits) self.now.width }
    {
        match bits % 4 {
            0 => Width::One,
            2 => Width::Four,
            _ => self.width,
        }
    }

    /// ACMD6.
    pub fn set_bus_width(&mut self, bits: u32) -> Answer
        ensures { Answers (set_bus_width (card_of self.old) bits) self.new result }
    {
        self.width = self.width_after(bits);
        self.respond_status(SET_BUS_WIDTH, true)
    }

    // Whether an argument of CMD6 of SD is to switch to high speed, and the card has it.
    fn is_to_speed_up(&self, argument: u32) -> bool
        ensures { result ≡ is_to_speed_up (card_of self.now) argument }
    {
        argument / 0x8000_0000 == 1 && self.registers.has_high_speed()
    }

    // The timing once the switch status is sent.
    fn timing_after(&self, argument: u32) -> Timing
        ensures { result ≡ timing_after (card_of self.now) argument }
    {
        if self.is_to_speed_up(argument) {
            Timing::High
        } else {
            self.timing
        }
    }

    // The switch status of a card that refuses to switch.
    fn refused_status(&self, refusal: Refusal) -> ArrayVec<u8, 512>
        ensures { result.items
            ≡ refusal_in (selects_none (Some refusal)) (card_of self.now).made.switch_status }
    {
        let mut status = self.registers.switch_status();
        let others = byte_at(&status, 16) / 16 * 16;
        put(&mut status, 16, others + function_selected(refusal));
        status
    }

    /// CMD6 of SD: the card sends its switch status, and with bit 31 it switches once that is sent. Where it refuses to,
    /// the status says so.
    pub fn switch_func(&mut self, delays: Delays, argument: u32) -> Answer
        ensures { Answers (switch_func (command_choice delays (card_of self.old)) (card_of self.old) argument) self.new
            result }
    {
        match delays.refusal {
            Some(refusal) if self.is_to_speed_up(argument) => {
                let status = self.refused_status(refusal);
                self.send_block(SWITCH_FUNC, false, status, self.timing)
            }
            _ => {
                let timing = self.timing_after(argument);
                let status = self.registers.switch_status();
                self.send_block(SWITCH_FUNC, false, status, timing)
            }
        }
    }

    // PARTITION_CONFIG for access to this partition.
    fn partition_config_for(&self, part: Part) -> u8
        ensures { result ≡ partition_config_for (card_of self.now).made part }
    {
        8 * (self.registers.partition_config() / 8) + part.access_number()
    }

    // The EXT_CSD as it is, with the bytes that can be switched.
    fn ext_csd_now(&self) -> ArrayVec<u8, 512>
        ensures { result.items ≡ ext_csd_now (card_of self.now) }
    {
        let mut block = self.registers.ext_csd();
        put(&mut block, 175, self.erase_group_def);
        put(&mut block, 179, self.partition_config_for(self.part));
        put(&mut block, 183, width_number(self.width));
        put(&mut block, 185, timing_number(self.timing));
        block
    }

    /// CMD8 of eMMC.
    pub fn send_ext_csd(&mut self, delays: Delays) -> Answer
        ensures { Answers (send_ext_csd (command_choice delays (card_of self.old)) (card_of self.old)) self.new result }
    {
        let mut ext_csd = self.ext_csd_now();
        if let (Kind::Mmc, Some(life_time)) = (self.registers.kind(), delays.life_time) {
            put(&mut ext_csd, 268, life_time);
        }
        self.send_block(SEND_IF_COND, false, ext_csd, self.timing)
    }

    // The partition that an argument switches to, if it has a sector.
    fn access_switched(&self, argument: u32) -> Option<SwitchTo>
        ensures { access_switched (card_of self.now) argument ≡ to_card result (card_of self.now) }
    {
        let access = argument / 0x100 % 8;
        let config = 8 * u32::from(self.registers.partition_config() / 8) + access;
        if argument != SET_PARTITION_CONFIG + 0x100 * config {
            return None;
        }
        let part = part_accessed(access)?;
        if self.store.size(part) == 0 {
            return None;
        }
        Some(SwitchTo::Access(part))
    }

    /// What an argument switches, if the card knows it.
    pub(crate) fn switched(&self, argument: u32) -> Option<SwitchTo>
        ensures { switched (card_of self.now) argument ≡ to_card result (card_of self.now) }
    {
        match argument {
            SET_ERASE_GROUP_DEF => Some(SwitchTo::EraseGroupDef),
            SET_EIGHT_LINES => Some(SwitchTo::EightLines),
            SET_FOUR_LINES => Some(SwitchTo::FourLines),
            SET_HIGH_SPEED if self.registers.high_speed_at_52_mhz() => Some(SwitchTo::HighSpeed),
            _ => self.access_switched(argument),
        }
    }

    // Switches.
    fn switch(&mut self, to: SwitchTo)
        ensures { card_of self.new ≡ switched_to to (card_of self.old) }
    {
        match to {
            SwitchTo::EraseGroupDef => self.erase_group_def = 1,
            SwitchTo::EightLines => self.width = Width::Eight,
            SwitchTo::FourLines => self.width = Width::Four,
            SwitchTo::HighSpeed => self.timing = Timing::High,
            SwitchTo::Access(part) => self.part = part,
        }
    }

    /// CMD6 of eMMC: SWITCH_ERROR where the card doesn't know the switch, and programming in any case.
    pub fn switch_byte(&mut self, argument: u32) -> Answer
        ensures { Answers (switch_byte (choice_of false) (card_of self.old) argument) self.new result }
    {
        let to = self.switched(argument);
        if to.is_none() {
            self.has_switch_error = true;
        }
        let answer = self.respond_status(SWITCH_FUNC, false);
        if let Some(to) = to {
            self.switch(to);
        }
        self.program_switch();
        answer
    }

    // The card is busy with a switch.
    fn program_switch(&mut self)
        ensures { card_of self.new
            ≡ record (busied (card_of self.old)) { state = Prg; is_switching = true; values = [] } }
    {
        self.make_busy();
        self.store.drop_values();
        self.state = State::Prg;
        self.is_switching = true;
    }

    /// A switch that fails: no byte changes, and SWITCH_ERROR shows in the response or, said late, after it.
    pub fn leave_byte(&mut self, says_late: bool) -> Answer
        ensures { Answers (switch_row says_late (card_of self.old) None) self.new result }
    {
        if !says_late {
            self.has_switch_error = true;
        }
        let answer = self.respond_status(SWITCH_FUNC, false);
        self.has_switch_error = says_late;
        self.program_switch();
        answer
    }
}
