// What the card in memory does with the commands of identification (SD Physical Layer 6.00, section 4.2; JESD84-B51,
// section 6.4), each where it is legal.
ghost use Rattle.std.specs.Prelude.{◌&&◌, ◌≡◌, false, if◌then◌else◌, not};
ghost use Rattle.mmc_card.specs.RowsIdentify.{leads_to_tran};
ghost use Rattle.mmc_frame.specs.declared.card_state.State.TheVariants.{Tran};

use crate::answer::{Answer, IS_READY};
use crate::chip::{Addresses, Chip, PATIENCE, Source, first_rca};
use crate::delays::Delays;
use mmc_card::{Part, Timing, Width};
use mmc_frame::State;
use mmc_frame::commands::{APP_CMD, SELECT_CARD, SEND_IF_COND, SEND_RELATIVE_ADDR, SEND_STATUS};
use mmc_regs::Ocr;

// Bit 30 of the argument of ACMD41, HCS: the host knows sector addresses (SD Physical Layer 6.00, section 4.2.3.1).
const HCS: u32 = 0x4000_0000;

// The state that a status shows which lags behind tran: one that leads there.
fn state_shown(before: State) -> State
    ensures { result ≡ (if leads_to_tran before then before else Tran) }
{
    match before {
        State::Stby | State::Data | State::Rcv | State::Prg => before,
        _ => State::Tran,
    }
}

impl Chip {
    ghost use Rattle.mmc_card.specs.CardAnswer.{busied, r6_argument};
    ghost use Rattle.mmc_card.specs.Card.{powered_on};
    ghost use Rattle.mmc_card.specs.RowsIdentify.{all_send_cid, app_cmd, go_idle_state, inquired, is_served};
    ghost use Rattle.mmc_card.specs.RowsIdentify.{sd_send_op_cond, select_card, send_csd, send_if_cond, send_op_cond};
    ghost use Rattle.mmc_card.specs.RowsIdentify.{may_lag, send_relative_addr, send_status, set_relative_addr};
    ghost use Rattle.mmc_card.specs.Made.{named_block_length};
    ghost use Rattle.mmc_card_rows.specs.Chip.{Answers, card_of, choice_of, command_choice};

    /// All but the sectors and the block length is as after power on; what was unfinished is over.
    pub fn start_over(&mut self, keeps_length: bool)
        ensures { let old = card_of self.old in
            card_of self.new ≡ record (powered_on old.made old.sectors) {
              block_length = if keeps_length then old.block_length else named_block_length old.made;
            } }
    {
        if !keeps_length {
            self.block_length = self.named_length;
        }
        self.store.begin(0);
        self.state = State::Idle;
        self.rca = first_rca(self.registers.kind());
        self.part = Part::User;
        self.width = Width::One;
        self.timing = Timing::Default;
        self.erase_group_def = 0;
        self.count = 0;
        self.is_app = false;
        self.addresses = Addresses::None;
        self.command_errors = 0;
        self.errors = 0;
        self.has_switch_error = false;
        self.has_accepted_cmd8 = false;
        self.inquiries = 0;
        self.is_busy = false;
        self.polled = 0;
        self.lags = false;
        self.source = Source::Sectors;
        self.next = 0;
        self.left = None;
        self.is_single = false;
        self.is_switching = false;
    }

    /// CMD0: what was unfinished has landed.
    pub fn go_idle_state(&mut self, delays: Delays) -> Answer
        ensures { Answers (go_idle_state (command_choice delays (card_of self.old)) (card_of self.old)) self.new
            result }
    {
        self.store.land(self.part);
        self.start_over(delays.keeps_length);
        Answer::Silent
    }

    // A readiness inquiry.
    fn inquire(&mut self, is_ready: bool) -> Answer
        ensures { Answers (inquired is_ready (card_of self.old)) self.new result }
    {
        self.finish();
        self.inquiries = (self.inquiries + 1).min(PATIENCE);
        if !is_ready {
            return Answer::R3(self.registers.ocr);
        }
        self.state = State::Ready;
        Answer::R3(IS_READY + self.registers.ocr)
    }

    // Whether the card has been asked often enough.
    fn is_ready(&self, delays: Delays) -> bool
        ensures { not result ≡ (command_choice delays (card_of self.now)).is_slow }
    {
        self.inquiries >= delays.ready
    }

    /// CMD1 of eMMC.
    pub fn send_op_cond(&mut self, delays: Delays) -> Answer
        ensures { Answers (send_op_cond (command_choice delays (card_of self.old)) (card_of self.old)) self.new
            result }
    {
        let is_ready = self.is_ready(delays);
        self.inquire(is_ready)
    }

    // Whether the card becomes ready for such a host: one with sector addresses wants CMD8, and HCS.
    fn is_served(&self, argument: u32) -> bool
        ensures { result ≡ is_served (card_of self.now) argument }
    {
        !Ocr::new(self.registers.ocr).has_sector_addresses()
            || argument / HCS % 2 == 1 && self.has_accepted_cmd8
    }

    /// ACMD41.
    pub fn sd_send_op_cond(&mut self, delays: Delays, argument: u32) -> Answer
        ensures { Answers (sd_send_op_cond (command_choice delays (card_of self.old)) (card_of self.old) argument)
            self.new result }
    {
        let is_ready = self.is_served(argument) && self.is_ready(delays);
        self.inquire(is_ready)
    }

    /// CMD2.
    pub fn all_send_cid(&mut self) -> Answer
        ensures { Answers (all_send_cid (card_of self.old)) self.new result }
    {
        self.finish();
        self.state = State::Ident;
        Answer::R2(self.registers.cid)
    }

    // The argument of an R6: the RCA, and bits 23, 22, 19 and 12 to 0 of the status.
    fn r6_argument(&self, rca: u16) -> u32
        ensures { result ≡ r6_argument rca (card_of self.now) }
    {
        let status = self.status(false);
        0x1_0000 * u32::from(rca)
            + 0x4000 * (status / 0x40_0000 % 4)
            + 0x2000 * (status / 0x8_0000 % 2)
            + status % 0x2000
    }

    /// CMD3 of SD: the card publishes an RCA, and goes by it.
    pub fn send_relative_addr(&mut self, delays: Delays) -> Answer
        ensures { Answers (send_relative_addr (command_choice delays (card_of self.old)) (card_of self.old)) self.new
            result }
    {
        let rca = delays.next_rca();
        let argument = self.r6_argument(rca);
        self.clear_errors();
        self.state = State::Stby;
        self.rca = rca;
        Answer::Checked {
            index: SEND_RELATIVE_ADDR,
            argument,
        }
    }

    /// CMD3 of eMMC: the host assigns an RCA.
    pub fn set_relative_addr(&mut self, argument: u32) -> Answer
        ensures { Answers (set_relative_addr (card_of self.old) argument) self.new result }
    {
        let answer = self.respond_status(SEND_RELATIVE_ADDR, false);
        self.state = State::Stby;
        self.rca = (argument / 0x1_0000) as u16;
        answer
    }

    /// The card is busy until the poll that it answers no.
    pub fn make_busy(&mut self)
        ensures { card_of self.new ≡ busied (card_of self.old) }
    {
        self.is_busy = true;
        self.polled = 0;
    }

    // Whether the next status lags behind the card.
    fn is_behind(&self, delays: Delays) -> bool
        ensures { result ≡ (may_lag (card_of self.now) && (command_choice delays (card_of self.now)).is_behind) }
    {
        let lagging = delays.lagging_now();
        let most = u16::from(delays.busy) + u16::from(lagging);
        self.is_in(State::Tran)
            && self.lags
            && (self.polled < PATIENCE && (lagging > 0 && u16::from(self.polled) < most))
    }

    /// CMD13, whose status may lag behind: it shows the state that led to tran then.
    pub fn send_status(&mut self, delays: Delays) -> Answer
        ensures { Answers (send_status (command_choice delays (card_of self.old)) (card_of self.old)) self.new result }
    {
        if !self.is_behind(delays) {
            return self.respond_status(SEND_STATUS, false);
        }
        let is_busy = self.is_busy;
        self.state = state_shown(delays.before);
        self.is_busy = true;
        let answer = self.respond_status(SEND_STATUS, false);
        self.state = State::Tran;
        self.is_busy = is_busy;
        self.polled += 1;
        self.lags = true;
        answer
    }

    /// CMD7: the card is busy after it.
    pub fn select_card(&mut self) -> Answer
        ensures { Answers (select_card (card_of self.old)) self.new result }
    {
        let answer = self.respond_status(SELECT_CARD, false);
        self.make_busy();
        self.state = State::Tran;
        self.lags = true;
        answer
    }

    /// CMD8 of SD: the card repeats voltage and pattern, for 2.7 to 3.6 V alone.
    pub fn send_if_cond(&mut self, argument: u32) -> Answer
        ensures { Answers (send_if_cond (card_of self.old) argument) self.new result }
    {
        self.finish();
        if argument / 0x100 % 16 != 1 {
            return Answer::Silent;
        }
        self.has_accepted_cmd8 = true;
        Answer::Checked {
            index: SEND_IF_COND,
            argument: argument % 0x1000,
        }
    }

    /// CMD9.
    pub fn send_csd(&mut self) -> Answer
        ensures { Answers (send_csd (choice_of false) (card_of self.old)) self.new result }
    {
        self.finish();
        Answer::R2(self.registers.csd)
    }

    /// CMD55 of SD: the next command is an application command.
    pub fn app_cmd(&mut self) -> Answer
        ensures { Answers (app_cmd (card_of self.old)) self.new result }
    {
        let answer = self.respond_status(APP_CMD, true);
        self.is_app = true;
        answer
    }
}
