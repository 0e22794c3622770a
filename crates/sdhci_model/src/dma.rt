// Data that the controller moves by itself, by SDMA or ADMA2 (SD Host Controller Simplified Specification 3.00, sections 1.4 and 1.13).
ghost use Rattle.std.specs.Prelude.{[], IfErr, IfNone, IfOk, IfSome, ◌<◌, ◌≡◌, ◌≤◌, ◌∷◌, false, length, true};
ghost use Rattle.mmc_card.specs.declared.exchange.DataIn.TheVariants as Came;
ghost use Rattle.mmc_card.specs.declared.exchange.DataOut.TheVariants as Went;
ghost use Rattle.mmc_host.specs.HostStates.{is_accepted, is_good};
ghost use Rattle.mmc_host.specs.declared.data.Data.TheVariants as Data;
ghost use Rattle.mmc_sdhci.specs.Accesses.{Does8};
ghost use Rattle.mmc_sdhci.specs.Controller.{Settled};
ghost use Rattle.mmc_sdhci.specs.DmaLooks.{MovingLook, MovingLooked};
ghost use Rattle.mmc_story.specs.Entry.Event.{Looked, Read};
ghost use Rattle.sdhci_model.specs.Moves.{GoesOn, HaveRead, HaveSent, OneHasFailed, OneWasLost, sent_of};
ghost use Rattle.sdhci_model.specs.Shown.{controller, entry_for, to_go};

use crate::engine::Engine;
use crate::lent::{MOST_BLOCKS, Memory};
use crate::reading::{bits_of_read, is_good};
use crate::writing::{bits_of_write, is_accepted};
use mmc_card::{DataIn, DataOut};
use mmc_host::{Data, Host, Work};
use mmc_story::{Call, HasStory};

// After each block but the last the card is looked at so often at most.
const MOST_LOOKS: u32 = 16;

impl<D: Host, S: HasStory> Engine<D, S> {
    // The next block comes over the lines, or not.
    fn fetch_next(&mut self) -> Result<[u8; 512], DataIn>
        ensures come { IfOk result (λ block. self.new.diary.past ≡ entry_for self.old.state (Read 512 Came.Good block) ∷ self.old.diary.past) }
        ensures long { IfOk result (λ block. length block ≡ 512) }
        ensures failed { IfErr result (λ got. self.new.diary.past ≡ entry_for self.old.state (Read 512 got []) ∷ self.old.diary.past) }
        ensures bad { IfErr result (λ got. is_good got ≡ false) }
        ensures state { self.new.state ≡ self.old.state }
    {
        self.host.set_ios(self.state.ios());
        let mut block = [0; 512];
        let got = self.host.read_block(&mut block);
        if !is_good(got) {
            self.note(Call::ReadBlock {
                length: 512,
                got,
                block: &[],
            });
            return Err(got);
        }
        self.note(Call::ReadBlock {
            length: 512,
            got: DataIn::Good,
            block: &block,
        });
        self.moved = self.moved.saturating_add(1);
        Ok(block)
    }

    // So many blocks come, one after the other, unless one isn't good.
    fn fetch_blocks(&mut self, count: u16) -> Result<Memory, DataIn>
        requires { count ≤ 16 }
        ensures come { IfOk result (λ blocks. HaveRead S.story self.old.diary.past self.old.state blocks.items count self.new.diary.past) }
        ensures full { IfOk result (λ blocks. length blocks.items ≡ count) }
        ensures failed { IfErr result (λ got. OneHasFailed S.story self.old.diary.past self.old.state count got self.new.diary.past) }
        ensures bad { IfErr result (λ got. is_good got ≡ false) }
        ensures state { self.new.state ≡ self.old.state }
    {
        let mut blocks = Memory::new();
        for i in 0..count {
            match self.fetch_next() {
                Ok(block) => blocks.push(block),
                Err(got) => return Err(got),
            }
        }
        Ok(blocks)
    }

    // A look while so many blocks are read.
    fn see_reads(&mut self, length: u16, blocks: u16) -> u32
        requires { self.old.state.transfer ≡ Data.Read length blocks }
        ensures { Settled (controller S.story self.old.diary.past self.old.state)
            (MovingLook (controller S.story self.old.diary.past self.old.state) result
            (controller S.story self.new.diary.past self.new.state)) (controller S.story self.new.diary.past self.new.state) }
    {
        if self
            .manner
            .is_silent_within(self.exchanges, u64::from(blocks))
        {
            self.state.see_nothing();
            return 0;
        }
        if blocks > MOST_BLOCKS as u16 {
            self.break_off();
            return 0;
        }
        match self.fetch_blocks(blocks) {
            Ok(come) => {
                self.state.end_read(come);
                2
            }
            Err(got) => {
                let bits = bits_of_read(got);
                self.state.break_data(bits);
                bits
            }
        }
    }

    // Whether the card is no longer busy. The controller waits by itself, and only the look at which it has waited enough counts.
    fn waits(&mut self) -> bool
        ensures past { self.new.diary.past ≡ self.old.diary.past }
        ensures state { self.new.state ≡ self.old.state }
    {
        for _look in 0..MOST_LOOKS {
            if !self.host.is_busy(Work::Settling) {
                return true;
            }
        }
        false
    }

    // The last block, which has this number, goes.
    fn send_last(&mut self, i: usize) -> DataOut
        requires { i < length (to_go self.old.state) }
        ensures past { self.new.diary.past ≡ sent_of self.old.state i result ∷ self.old.diary.past }
        ensures state { self.new.state ≡ self.old.state }
    {
        self.host.set_ios(self.state.ios());
        let block = self.state.block_to_go(i);
        let got = self.host.write_block(&block);
        self.note(Call::WriteBlock { block: &block, got });
        self.moved = self.moved.saturating_add(u64::from(is_accepted(got)));
        got
    }

    // The block with this number goes, which isn't the last, and the card is found no longer busy. Where that takes too long it isn't
    // told that the block was accepted.
    fn send_another(&mut self, i: usize) -> DataOut
        requires { i < length (to_go self.old.state) }
        ensures accepted { is_accepted result ≡ true → self.new.diary.past
            ≡ entry_for self.old.state (Looked false) ∷ sent_of self.old.state i Went.Accepted ∷ self.old.diary.past }
        ensures lost { is_accepted result ≡ false → self.new.diary.past ≡ sent_of self.old.state i result ∷ self.old.diary.past }
        ensures state { self.new.state ≡ self.old.state }
    {
        self.host.set_ios(self.state.ios());
        let block = self.state.block_to_go(i);
        let got = self.host.write_block(&block);
        if !is_accepted(got) {
            self.note(Call::WriteBlock { block: &block, got });
            return got;
        }
        if !self.waits() {
            let got = DataOut::Nothing;
            self.note(Call::WriteBlock { block: &block, got });
            return got;
        }
        let got = DataOut::Accepted;
        self.note(Call::WriteBlock { block: &block, got });
        self.note(Call::Look { is_busy: false });
        self.moved = self.moved.saturating_add(1);
        got
    }

    // The first so many blocks go, which aren't all, unless one isn't accepted, which is the answer.
    fn send_first(&mut self, count: usize) -> Option<DataOut>
        requires { count < length (to_go self.old.state) }
        ensures gone { IfNone result (GoesOn S.story self.old.diary.past self.old.state count self.new.diary.past) }
        ensures lost { IfSome result (λ got. OneWasLost S.story self.old.diary.past self.old.state self.new.diary.past) }
        ensures bad { IfSome result (λ got. is_accepted got ≡ false) }
        ensures state { self.new.state ≡ self.old.state }
    {
        for i in 0..count {
            let got = self.send_another(i);
            if !is_accepted(got) {
                return Some(got);
            }
        }
        None
    }

    // All blocks go, one after the other, unless one isn't accepted, which is the answer.
    fn send_blocks(&mut self, count: usize) -> DataOut
        requires some { 0 < count }
        requires all { length (to_go self.old.state) ≡ count }
        ensures gone { is_accepted result ≡ true → HaveSent S.story self.old.diary.past self.old.state count self.new.diary.past }
        ensures lost { is_accepted result ≡ false → OneWasLost S.story self.old.diary.past self.old.state self.new.diary.past }
        ensures state { self.new.state ≡ self.old.state }
    {
        let last = count - 1;
        match self.send_first(last) {
            Some(got) => got,
            None => self.send_last(last),
        }
    }

    // A look while so many blocks are written.
    fn see_writes(&mut self, blocks: u16) -> u32
        requires { self.old.state.transfer ≡ Data.Write blocks }
        ensures { Settled (controller S.story self.old.diary.past self.old.state)
            (MovingLook (controller S.story self.old.diary.past self.old.state) result
            (controller S.story self.new.diary.past self.new.state)) (controller S.story self.new.diary.past self.new.state) }
    {
        let exchanges = 2 * u64::from(blocks);
        if self
            .manner
            .is_silent_within(self.exchanges, exchanges.saturating_sub(1))
        {
            self.state.see_nothing();
            return 0;
        }
        if blocks == 0 || self.state.count_to_go() != blocks as usize {
            self.break_off();
            return 0;
        }
        let got = self.send_blocks(blocks as usize);
        if is_accepted(got) {
            self.state.end_write();
            return 2;
        }
        let bits = bits_of_write(got);
        self.state.break_data(bits);
        bits
    }

    /// A look while no command runs and data is moved: all of it is moved at the first one.
    pub fn see_moving(&mut self) -> u32
        ensures { Settled (controller S.story self.old.diary.past self.old.state)
            (MovingLooked (controller S.story self.old.diary.past self.old.state) self.old.state.transfer result
            (controller S.story self.new.diary.past self.new.state)) (controller S.story self.new.diary.past self.new.state) }
    {
        match self.state.transfer {
            Data::Nothing => self.state.status,
            Data::Read { length, blocks } => self.see_reads(length, blocks),
            Data::Write { blocks } => self.see_writes(blocks),
        }
    }

    // The next block is lost. The card may have sent it.
    fn lose_next(&mut self)
        ensures past { self.new.diary.past ≡ entry_for self.old.state (Read 512 Came.Nothing []) ∷ self.old.diary.past }
        ensures state { self.new.state ≡ self.old.state }
    {
        if self.manner.is_sent(self.exchanges) {
            self.host.set_ios(self.state.ios());
            let _ = self.host.read_block(&mut [0; 512]);
        }
        self.note(Call::ReadBlock {
            length: 512,
            got: DataIn::Nothing,
            block: &[],
        });
    }

    // Of so many blocks that were to come one is lost, before which some may have come.
    fn lose_one(&mut self, count: u16)
        requires { 0 < count }
        ensures lost { OneHasFailed S.story self.old.diary.past self.old.state count Came.Nothing self.new.diary.past }
        ensures state { self.new.state ≡ self.old.state }
    {
        let before = self.manner.blocks_before(self.exchanges, false);
        let most = (count - 1).min(MOST_BLOCKS as u16);
        let some = before.min(u64::from(most)) as u16;
        match self.fetch_blocks(some) {
            Ok(_) => self.lose_next(),
            Err(_) => (),
        }
    }

    // The block to go with this number is lost, as the answer tells. The card may have got it.
    fn lose_at(&mut self, i: usize) -> DataOut
        requires { i < length (to_go self.old.state) }
        ensures past { self.new.diary.past ≡ sent_of self.old.state i result ∷ self.old.diary.past }
        ensures lost { is_accepted result ≡ false }
        ensures state { self.new.state ≡ self.old.state }
    {
        let block = self.state.block_to_go(i);
        let mut got = DataOut::Rejected;
        if self.manner.is_sent(self.exchanges) {
            self.host.set_ios(self.state.ios());
            let _ = self.host.write_block(&block);
            got = DataOut::Nothing;
        }
        self.note(Call::WriteBlock { block: &block, got });
        got
    }

    // Of the blocks that were to go one is lost, before which some may have gone.
    fn lose_one_to_go(&mut self)
        requires { 0 < length (to_go self.old.state) }
        ensures lost { OneWasLost S.story self.old.diary.past self.old.state self.new.diary.past }
        ensures state { self.new.state ≡ self.old.state }
    {
        let before = self.manner.blocks_before(self.exchanges, true);
        let most = self.state.count_to_go() - 1;
        let some = before.min(most as u64) as usize;
        match self.send_first(some) {
            Some(_) => (),
            None => {
                self.lose_at(some);
            }
        }
    }

    /// Software Reset For DAT Line while data is moved: a block of it is lost.
    pub fn drop_moving(&mut self)
        requires { self.old.state.is_moving ≡ true }
        ensures { Settled (controller S.story self.old.diary.past self.old.state)
            (Does8 (controller S.story self.old.diary.past self.old.state) 0x2f 4
            (controller S.story self.new.diary.past self.new.state)) (controller S.story self.new.diary.past self.new.state) }
    {
        match self.state.transfer {
            Data::Nothing => self.state.reset_data(),
            Data::Read { blocks, .. } if blocks > 0 => {
                self.lost = self.lost.saturating_add(1);
                self.lose_one(blocks);
                self.state.reset_data();
            }
            Data::Write { .. } if self.state.count_to_go() > 0 => {
                self.lost = self.lost.saturating_add(1);
                self.lose_one_to_go();
                self.state.reset_data();
            }
            _ => self.break_off(),
        }
    }
}
