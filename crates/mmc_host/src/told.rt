// What a host controller is told, and what it says.
ghost use Rattle.std.specs.Prelude.{◌≡◌, ◌↔◌, ◌≤◌, IsTrue, false, not, true};
ghost use Rattle.mmc_card.specs.declared.exchange.Timing.TheVariants.{Default, High};
ghost use Rattle.mmc_host.specs.HostStates.{AreMovable, IsCounted, IsFree, IsTold, IsToCome, IsToGo, begun, block_passed, lines_of, resting, sent, work_after};
ghost use Rattle.mmc_host.specs.Misuse.{carries_data, has_data};
ghost use Rattle.mmc_host.specs.Together.{passed_on};

use crate::data::{Data, data_of};
use crate::meaning::meant;
use crate::response::{Response, response_of};
use crate::work::Work;
use mmc_bus::Moved;
use mmc_card::{Lines, Timing, Width};
use mmc_frame::commands::{
    APP_CMD, ERASE, ERASE_GROUP_END, ERASE_GROUP_START, ERASE_WR_BLK_END, ERASE_WR_BLK_START,
    GO_IDLE_STATE, SELECT_CARD, SET_BLOCK_COUNT, STOP_TRANSMISSION, SWITCH_FUNC, WRITE_BLOCK,
    WRITE_MULTIPLE_BLOCK,
};
use thiserror::Error;

/// A command, as a host controller is told of it.
#[derive(Clone, Copy, Debug, PartialEq, Eq)]
pub struct HostCommand {
    /// The index, 0 to 63.
    pub index: u8,
    /// The argument.
    pub argument: u32,
    /// The response to it: its length, which checks there are, and whether the card may be busy after it.
    pub response: Response,
    /// The data after it.
    pub transfer: Data,
}

/// What came in response to a command.
#[derive(Clone, Copy, Debug, PartialEq, Eq)]
pub enum Heard {
    /// Nothing, where no response was wanted.
    Nothing,
    /// Bits 39 to 8 of a response of 48 bits: card status, OCR, RCA or echo.
    Word(u32),
    /// Bits 127 to 8 of a response of 136 bits: a CID or a CSD without its check, the highest byte first.
    Register([u8; 15]),
}

/// Why no response was heard.
#[derive(Clone, Copy, Debug, PartialEq, Eq, Error)]
pub enum ResponseFault {
    /// No response began within 64 clocks.
    #[error("no response came")]
    Timeout,
    /// Its CRC7 doesn't fit.
    #[error("the response's check doesn't fit")]
    Check,
    /// Its end bit is 0.
    #[error("the response's end bit is 0")]
    EndBit,
    /// It answers a command with another index.
    #[error("the response answers another command")]
    Index,
}

/// How the lines of a host are set.
#[derive(Clone, Copy, Debug, PartialEq, Eq)]
pub struct Ios {
    /// How many data lines are in use.
    pub width: Width,
    /// The timing.
    pub timing: Timing,
    /// Whether the clock is that of identification: at most 400 kHz, whatever the timing.
    pub is_identifying: bool,
}

impl Ios {
    /// The lines without the clock.
    pub fn lines(self) -> Lines
        ensures { result ≡ lines_of self }
    {
        Lines {
            width: self.width,
            timing: self.timing,
        }
    }

    /// The fastest clock in hertz that both kinds of card allow (SD Physical Layer 6.00, section 6.6; JESD84-B51, section
    /// 10.5): 400 kHz, 25 MHz at default speed and 50 MHz at high speed. An eMMC device allows 26 and 52 MHz.
    pub fn max_clock(self) -> u32
        ensures identification { self.is_identifying ≡ true → result ≡ 400000 }
        ensures default { self.is_identifying ≡ false → self.timing ≡ Default → result ≡ 25000000 }
        ensures high { self.is_identifying ≡ false → self.timing ≡ High → result ≡ 50000000 }
    {
        match self {
            Ios {
                is_identifying: true,
                ..
            } => 400_000,
            Ios {
                timing: Timing::Default,
                ..
            } => 25_000_000,
            Ios {
                timing: Timing::High,
                ..
            } => 50_000_000,
        }
    }
}

/// What a host controller has been told so far, as far as it bears on what comes next.
#[derive(Clone, Copy, Debug, PartialEq, Eq)]
pub struct HostState {
    /// How its lines are set.
    pub ios: Ios,
    /// The card is being identified: since CMD0, and until CMD7 is answered.
    pub is_identifying: bool,
    /// CMD55 was answered just now.
    pub is_app: bool,
    /// The count that CMD23 preset just now, 0 where none is.
    pub count: u16,
    /// The data that is still to come after the last command.
    pub transfer: Data,
    /// What the card was set to last that makes it busy.
    pub work: Work,
    /// The addresses that an erase would begin and end with, as they were told last.
    pub erase_start: u32,
    /// See `erase_start`.
    pub erase_end: u32,
    /// For how many microseconds the host has paused since the last command.
    pub paused: u32,
}

impl HostState {
    /// Before the first command: one line, the clock of identification.
    pub fn new() -> HostState
        ensures { result ≡ begun }
    {
        HostState {
            ios: Ios {
                width: Width::One,
                timing: Timing::Default,
                is_identifying: true,
            },
            is_identifying: true,
            is_app: false,
            count: 0,
            transfer: Data::Nothing,
            work: Work::Settling,
            erase_start: 0,
            erase_end: 0,
            paused: 0,
        }
    }

    /// Between two commands to a card that is selected, on these lines.
    pub fn resting(lines: Lines) -> HostState
        ensures { result ≡ resting lines }
    {
        HostState {
            ios: Ios {
                width: lines.width,
                timing: lines.timing,
                is_identifying: false,
            },
            is_identifying: false,
            is_app: false,
            count: 0,
            transfer: Data::Nothing,
            work: Work::Settling,
            erase_start: 0,
            erase_end: 0,
            paused: 0,
        }
    }

    /// The command with this index and argument, as a host is told of it now; so many blocks will be moved after it, 1 to 65,535,
    /// where the card isn't told how many.
    pub fn command(self, index: u8, argument: u32, moved: u16) -> HostCommand
        requires some { 1 ≤ moved }
        ensures index { result.index ≡ index }
        ensures argument { result.argument ≡ argument }
        ensures told { IsTold self result }
        ensures movable { AreMovable result.transfer }
        ensures data { has_data result.transfer ≡ carries_data self.is_app index argument }
        ensures counted { IsCounted self.count moved index result.transfer }
    {
        let meaning = meant(index, argument, self.is_app);
        HostCommand {
            index,
            argument,
            response: response_of(meaning),
            transfer: data_of(meaning, self.count, moved),
        }
    }

    /// Whether a command can be sent now: it has no data, or none is under way.
    pub fn is_free(self, command: HostCommand) -> bool
        ensures { IsTrue result ↔ IsFree self.transfer command }
    {
        command.transfer == Data::Nothing || self.transfer == Data::Nothing
    }

    /// Whether no data is under way.
    pub fn is_idle(self) -> bool
        ensures { result ≡ not (has_data self.transfer) }
    {
        self.transfer == Data::Nothing
    }

    // What the card is at after this command, as far as it is busy.
    fn work_after(self, command: HostCommand) -> Work
        ensures { result ≡ work_after self command }
    {
        match command.index {
            SELECT_CARD => Work::Settling,
            STOP_TRANSMISSION | WRITE_BLOCK | WRITE_MULTIPLE_BLOCK => Work::Write,
            SWITCH_FUNC if command.response == Response::R1b => Work::Switch,
            ERASE => Work::Erase {
                span: self.erase_end.saturating_sub(self.erase_start),
            },
            _ => self.work,
        }
    }

    /// After a command that was answered as it was wanted, or not.
    pub fn sent(self, command: HostCommand, is_answered: bool) -> HostState
        ensures { result ≡ sent self command is_answered }
    {
        let HostCommand {
            index,
            argument,
            response: _,
            transfer,
        } = command;
        HostState {
            ios: self.ios,
            is_identifying: index == GO_IDLE_STATE
                || self.is_identifying && !(index == SELECT_CARD && is_answered),
            is_app: index == APP_CMD && is_answered,
            count: if index == SET_BLOCK_COUNT && is_answered {
                (argument % 0x1_0000) as u16
            } else {
                0
            },
            transfer: if is_answered { transfer } else { Data::Nothing },
            work: self.work_after(command),
            erase_start: match index {
                ERASE_WR_BLK_START | ERASE_GROUP_START => argument,
                _ => self.erase_start,
            },
            erase_end: match index {
                ERASE_WR_BLK_END | ERASE_GROUP_END => argument,
                _ => self.erase_end,
            },
            paused: 0,
        }
    }

    /// Whether a block of this many bytes is to come.
    pub fn is_to_come(self, len: usize) -> bool
        ensures { IsTrue result ↔ IsToCome self len }
    {
        matches!(self.transfer, Data::Read { length, .. } if length as usize == len)
    }

    /// Whether a block is to go.
    pub fn is_to_go(self) -> bool
        ensures { IsTrue result ↔ IsToGo self }
    {
        matches!(self.transfer, Data::Write { .. })
    }

    /// After a block, a good one or one that failed, which ends the data.
    pub fn block_passed(self, is_good: bool) -> HostState
        ensures { result ≡ block_passed self is_good }
    {
        HostState {
            transfer: if is_good {
                self.transfer.less_one()
            } else {
                Data::Nothing
            },
            ..self
        }
    }

    /// After the blocks that one call moved, which go as `block_passed` says; one that failed ends the data, however many came before
    /// it.
    pub fn blocks_passed<T: Copy>(self, moved: Moved<T>) -> HostState
        ensures { result ≡ passed_on moved self }
    {
        match moved {
            Moved::Failed(_) => self.block_passed(false),
            Moved::Good(good) => HostState {
                transfer: self.transfer.less_by(good),
                ..self
            },
        }
    }
}
