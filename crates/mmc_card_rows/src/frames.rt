// What a frame is to the card, for faults that fit some commands alone.
ghost use Rattle.std.specs.Prelude.{◌&&◌, ◌≡◌};
ghost use Rattle.mmc_frame.specs.Frame.{command_in};
ghost use Rattle.mmc_frame.specs.declared.card_state.State.TheVariants.{Tran};
ghost use Rattle.mmc_card.specs.Card.{is_in};
ghost use Rattle.mmc_card.specs.Faults.{is_switch_frame};
ghost use Rattle.mmc_card_rows.specs.Chip.{card_of};
ghost use Rattle.mmc_card_rows.specs.Finding.{can_find};
ghost use Rattle.mmc_card_rows.specs.Transfers.{is_write_frame};

use crate::chip::Chip;
use crate::command::command_of;
use mmc_card::{Command, may_find};
use mmc_frame::{State, read_command};

impl Chip {
    /// Whether a frame is a switch of an eMMC device that the card knows.
    pub fn is_switch(&self, frame: &[u8; 6]) -> bool
        ensures { result ≡ is_switch_frame (card_of self.now) (command_in frame.now) }
    {
        match read_command(frame) {
            Some((index, argument)) => {
                let command = command_of(self.registers.kind(), self.is_app, index);
                matches!(command, Command::Switch)
                    && self.is_in(State::Tran)
                    && self.switched(argument).is_some()
            }
            None => false,
        }
    }

    /// Whether a frame is CMD24 or CMD25, in tran.
    pub fn is_write(&self, frame: &[u8; 6]) -> bool
        ensures { result ≡ (is_write_frame (card_of self.now) (command_in frame.now) && is_in self.now.state Tran) }
    {
        match read_command(frame) {
            Some((index, _)) => {
                let command = command_of(self.registers.kind(), self.is_app, index);
                matches!(command, Command::WriteBlock | Command::WriteMultipleBlock)
                    && self.is_in(State::Tran)
            }
            None => false,
        }
    }

    /// Whether a frame is a command to this card, legal now, that an error may keep from being carried out.
    pub fn can_find(&self, frame: &[u8; 6]) -> bool
        ensures { result ≡ can_find (card_of self.now) (command_in frame.now) }
    {
        match read_command(frame) {
            Some((index, argument)) => {
                let command = command_of(self.registers.kind(), self.is_app, index);
                may_find(command) && !self.is_foreign(command, argument) && self.is_legal(command)
            }
            None => false,
        }
    }
}
