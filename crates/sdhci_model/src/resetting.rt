// Resets of the command line and of the data line, by which what runs is lost.
ghost use Rattle.std.specs.Prelude.{[], Err, ◌≡◌, ◌∷◌, false, ℕ};
ghost use Rattle.mmc_card.specs.declared.exchange.DataIn.TheVariants as Came;
ghost use Rattle.mmc_host.specs.declared.data.Data.TheVariants as Data;
ghost use Rattle.mmc_card.specs.declared.response.Response.TheVariants.{Nothing};
ghost use Rattle.mmc_host.specs.declared.told.ResponseFault.TheVariants.{Timeout};
ghost use Rattle.mmc_sdhci.specs.Accesses.{Does8};
ghost use Rattle.mmc_sdhci.specs.Controller.{Settled};
ghost use Rattle.mmc_story.specs.Entry.Event.{Read, Sent, Written};
ghost use Rattle.sdhci_model.specs.Moves.{IsLostAs};
ghost use Rattle.sdhci_model.specs.Shown.{command_of, controller, entry_for};

use crate::commands::Run;
use crate::engine::Engine;
use mmc_card::{DataIn, DataOut};
use mmc_host::{Data, Host, Response, ResponseFault};
use mmc_story::{Call, HasStory};

impl<D: Host, S: HasStory> Engine<D, S> {
    // The command that runs is lost by a reset of the command line. The card may have got it.
    fn lose_command(&mut self, run: Run)
        ensures past { self.new.diary.past ≡ entry_for self.old.state (Sent (command_of run Nothing) (Err Timeout)) ∷ self.old.diary.past }
        ensures state { self.new.state ≡ self.old.state }
    {
        if self.manner.is_sent(self.exchanges) {
            let _ = self.send(run);
        }
        self.note_command(run, Response::Nothing, Err(ResponseFault::Timeout));
    }

    // The block of this length that was to come is lost by a reset of the data line.
    fn lose_read(&mut self, length: u16, blocks: u16)
        requires { self.old.state.transfer ≡ Data.Read length blocks }
        ensures past { (size counted : ℕ) → self.old.state.transfer ≡ Data.Read size counted
            → self.new.diary.past ≡ entry_for self.old.state (Read size Came.Nothing []) ∷ self.old.diary.past }
        ensures state { self.new.state ≡ self.old.state }
    {
        self.note(Call::ReadBlock {
            length: length as usize,
            got: DataIn::Nothing,
            block: &[],
        });
    }

    // The block that was to go is lost by a reset of the data line. The card may have got it, where all of it was in the buffer. The
    // answer is what was noted.
    fn lose_block(&mut self) -> ([u8; 512], DataOut)
        ensures lost { IsLostAs self.old.state.outgoing.items result.0 result.1 }
        ensures past { self.new.diary.past ≡ entry_for self.old.state (Written result.0 result.1) ∷ self.old.diary.past }
        ensures state { self.new.state ≡ self.old.state }
    {
        if self.manner.is_sent(self.exchanges)
            && let Some(block) = self.state.whole()
        {
            let _ = self.offer(&block);
            let got = DataOut::Nothing;
            self.note(Call::WriteBlock { block: &block, got });
            return (block, got);
        }
        let block = [0; 512];
        let got = DataOut::Rejected;
        self.note(Call::WriteBlock { block: &block, got });
        (block, got)
    }

    // Software Reset For CMD Line.
    fn reset_command(&mut self)
        ensures { Settled (controller S.story self.old.diary.past self.old.state)
            (Does8 (controller S.story self.old.diary.past self.old.state) 0x2f 2
            (controller S.story self.new.diary.past self.new.state)) (controller S.story self.new.diary.past self.new.state) }
    {
        match self.state.running {
            None => self.state.reset_command(),
            Some(run) => {
                self.lost = self.lost.saturating_add(1);
                self.lose_command(run);
                self.state.drop_command();
            }
        }
    }

    // Software Reset For DAT Line, where no data is moved by DMA: a block that was to come or to go is lost.
    fn drop_data(&mut self)
        requires { self.old.state.is_moving ≡ false }
        ensures { Settled (controller S.story self.old.diary.past self.old.state)
            (Does8 (controller S.story self.old.diary.past self.old.state) 0x2f 4
            (controller S.story self.new.diary.past self.new.state)) (controller S.story self.new.diary.past self.new.state) }
    {
        self.has_rejected = false;
        match self.state.transfer {
            Data::Nothing => self.state.reset_data(),
            Data::Read { length, blocks } => {
                self.lost = self.lost.saturating_add(1);
                self.lose_read(length, blocks);
                self.state.reset_data();
            }
            Data::Write { .. } => {
                self.lost = self.lost.saturating_add(1);
                self.lose_block();
                self.state.reset_data();
            }
        }
    }

    // Software Reset For DAT Line.
    fn reset_data(&mut self)
        ensures { Settled (controller S.story self.old.diary.past self.old.state)
            (Does8 (controller S.story self.old.diary.past self.old.state) 0x2f 4
            (controller S.story self.new.diary.past self.new.state)) (controller S.story self.new.diary.past self.new.state) }
    {
        if self.state.is_moving {
            self.drop_moving();
        } else {
            self.drop_data();
        }
    }

    /// A reset.
    pub fn reset(&mut self, value: u8)
        ensures { Settled (controller S.story self.old.diary.past self.old.state)
            (Does8 (controller S.story self.old.diary.past self.old.state) 0x2f value
            (controller S.story self.new.diary.past self.new.state)) (controller S.story self.new.diary.past self.new.state) }
    {
        match value {
            1 if !self.state.is_unjudged => self.state.restart(),
            2 => self.reset_command(),
            4 => self.reset_data(),
            _ => self.break_off(),
        }
    }
}
