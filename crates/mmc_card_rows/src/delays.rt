// What the card does where it is free.
ghost use Rattle.std.specs.Prelude.{◌%◌, ◌+◌, ◌-◌, ◌^◌, ◌≡◌};
ghost use Rattle.mmc_frame.specs.Frame.{command_in};
ghost use Rattle.mmc_card_rows.specs.Chip.{aged, is_reset};

use crate::chip::number_of;
use crate::fault::{EXECUTION_ERRORS, FIRST_ERROR};
use mmc_card::{Command, may_find};
use mmc_frame::commands::GO_IDLE_STATE;
use mmc_frame::{State, read_command};

// The error bits that carrying a command out may raise, in units of bit 13.
const FOUND: u32 = EXECUTION_ERRORS / FIRST_ERROR;

/// How an SD card refuses to switch to high speed: the function that its switch status selects then.
#[derive(Clone, Copy, Debug, PartialEq, Eq)]
pub enum Refusal {
    /// 15, which is none.
    SelectsNone,
    /// 0, which is default speed.
    SelectsDefault,
}

/// How long the card takes, and what it answers next where it is free to choose.
#[derive(Clone, Copy, Debug, PartialEq, Eq)]
pub struct Delays {
    /// How many of the first readiness inquiries are answered with not ready, 0 to 15.
    pub ready: u8,
    /// How many of the first polls of a busy time are answered yes, 0 to 15.
    pub busy: u8,
    /// Of an SD card: after which RCA the one comes that it publishes next, the first one after the last.
    pub last_rca: u16,
    /// Whether it publishes another one at each CMD3.
    pub rca_changes: bool,
    /// Bits 30 and 29 of the OCR while the card isn't ready, 0 to 3.
    pub early: u8,
    /// Whether the block length outlives CMD0 and a loss of power.
    pub keeps_length: bool,
    /// How an SD card refuses to switch to high speed, if it does.
    pub refusal: Option<Refusal>,
    /// Whether CMD12 that ends a read leaves the card busy.
    pub stays_busy: bool,
    /// How many statuses lag behind each programming, 0 to 15: they and the polls that were answered yes are as many as this and
    /// `busy` say, 15 at most.
    pub lagging: u8,
    /// So many lag behind CMD7 and after CMD12 that ends a read, 0 to 8.
    pub late: u8,
    /// The state that the card was in before tran, which a status shows that lags.
    pub before: State,
    /// Whether each response to CMD3 shows APP_CMD, bit 5 of the status.
    pub shows_app_cmd: bool,
    /// What an eMMC device that ages says of its life time, DEVICE_LIFE_TIME_EST_TYP_A, byte 268 of its EXT_CSD: at each CMD0 one
    /// more, and 0 after 255. Otherwise it is what the EXT_CSD is made with.
    pub life_time: Option<u8>,
    /// Whether the card goes on by itself between two exchanges: before a command, and before a block that is written, its busy
    /// time has ended, and a read has sent one block that nobody took.
    pub goes_on: bool,
    /// Which error bits a command finds, as a status has them, so that it isn't carried out; 0 in all but a fault.
    pub finds: u32,
}

// What a device says that has aged.
fn aged(life_time: Option<u8>) -> Option<u8>
    ensures { result ≡ aged life_time }
{
    match life_time {
        Some(life_time) => Some(life_time.wrapping_add(1)),
        None => None,
    }
}

// Whether a frame is CMD0.
fn is_reset(frame: &[u8; 6]) -> bool
    ensures { result ≡ is_reset (command_in frame.now) }
{
    match read_command(frame) {
        Some((index, _)) => index == GO_IDLE_STATE,
        None => false,
    }
}

impl Delays {
    ghost use Rattle.mmc_card.specs.Card.{AreAmong, Card};
    ghost use Rattle.mmc_card.specs.ErrorBits.{execution_error_bits};
    ghost use Rattle.mmc_card.specs.Rows.{found};
    ghost use Rattle.mmc_card_rows.specs.Chip.{KeepsWaits, command_choice, delays_after, lagging_behind, moved_on};

    /// The RCA that an SD card publishes next.
    pub fn next_rca(self) -> u16
        ensures { result ≡ 1 + self.last_rca % (2 ^ 16 - 1) }
    {
        1 + self.last_rca % 0xffff
    }

    /// Notes a command, and the RCA that the card goes by after it.
    pub fn note_command(&mut self, frame: &[u8; 6], rca: u16)
        ensures noted { self.new ≡ delays_after self.old (command_in frame.now) rca }
        ensures waits { KeepsWaits self.old self.new }
    {
        if self.rca_changes && rca != 0 {
            self.last_rca = rca;
        }
        if is_reset(frame) {
            self.life_time = aged(self.life_time);
        }
    }

    /// Notes from which state the card came to tran, if it did.
    pub fn note_state(&mut self, old: State, new: State)
        ensures noted { self.new ≡ moved_on self.old old new }
        ensures waits { KeepsWaits self.old self.new }
    {
        let tran = number_of(State::Tran);
        if number_of(new) == tran && number_of(old) != tran {
            self.before = old;
        }
    }

    /// Which error bits a command finds, in units of bit 13: those of execution, if any.
    pub fn found(self, command: Command) -> u32
        ensures found { (card : Card) → result ≡ found (command_choice self card) command }
        ensures known { AreAmong result execution_error_bits }
    {
        let bits = self.finds / FIRST_ERROR;
        if may_find(command) && bits | FOUND == FOUND {
            bits
        } else {
            0
        }
    }

    /// How many statuses lag, where the card has come to tran from that state.
    pub fn lagging_now(self) -> u8
        ensures { result ≡ lagging_behind self.before self }
    {
        match self.before {
            State::Prg => self.lagging,
            _ => self.late,
        }
    }
}
