// What the card in memory does with blocks and polls (SD Physical Layer 6.00, sections 4.3.3 and 4.3.4).
ghost use Rattle.std.specs.Prelude.{◌&&◌, ◌*◌, ◌<◌, ◌≡◌, ◌^◌, if◌then◌else◌, false, length, true};
ghost use Rattle.mmc_frame.specs.Status.{bits_in};
ghost use Rattle.mmc_frame.specs.declared.card_state.State.TheVariants.{Data};
ghost use Rattle.mmc_card.specs.Blocks.{is_last, one_less};
ghost use Rattle.mmc_card.specs.Card.{AreAmong, is_in};
ghost use Rattle.mmc_card.specs.ErrorBits.{error_bits};
ghost use Rattle.mmc_card_rows.specs.declared.store.TheConstants.{MAX_LARGE};

use crate::chip::{Chip, PATIENCE, Source};
use crate::delays::Delays;
use crate::switch_rows::{timing_number, width_number};
use bitflags::Flags;
use mmc_card::{DataIn, DataOut, Lines};
use mmc_frame::{State, Status};

// The blocks to come after one more.
fn one_less(left: Option<u32>) -> Option<u32>
    ensures { result ≡ one_less left }
{
    match left {
        Some(left) => Some(left.saturating_sub(1)),
        None => None,
    }
}

// The state after a block: where the transfer goes on, or after its last block.
fn state_after(left: Option<u32>, goes_on: State, ends: State) -> State
    ensures { result ≡ (if is_last left then ends else goes_on) }
{
    match left {
        Some(1) => ends,
        _ => goes_on,
    }
}

impl Chip {
    ghost use Rattle.mmc_card.specs.Blocks.{awaits, can_accept, can_send, end_errors, lines_fit, offered, polled_once};
    ghost use Rattle.mmc_card.specs.Blocks.{rested, sent_from, waited};
    ghost use Rattle.mmc_card.specs.Card.{FromSectors, stored};
    ghost use Rattle.mmc_card_rows.specs.Chip.{IsBlockSource, Sends, card_of, choice_of, passed, run_on_once};

    // Whether these are the card's lines.
    fn fits(&self, lines: Lines) -> bool
        ensures { result ≡ lines_fit lines (card_of self.now) }
    {
        width_number(lines.width) == width_number(self.width)
            && timing_number(lines.timing) == timing_number(self.timing)
    }

    // Sends a block that isn't a sector, if the buffer has its length.
    fn send_block_of(&mut self, lines: Lines, buffer: &mut [u8]) -> DataIn
        requires source { IsBlockSource self.old.source }
        requires ready { (is_in self.old.state Data && lines_fit lines (card_of self.old)) ≡ true }
        ensures { Sends lines (card_of self.old) (card_of self.new) (length buffer.old) result buffer.new }
    {
        let _ = lines;
        let Source::Block(block, timing) = &self.source else {
            return DataIn::Nothing;
        };
        if buffer.len() != block.len() {
            return DataIn::Nothing;
        }
        buffer.copy_from_slice(block);
        self.timing = *timing;
        self.state = State::Tran;
        self.source = Source::Sectors;
        DataIn::Good
    }

    // After the last sector of the partition an uncounted read shows OUT_OF_RANGE.
    fn end_errors(&self) -> Status
        requires { self.now.next < length (stored (card_of self.now) self.now.part) }
        ensures errors { bits_in result ≡ 2 ^ 13 * end_errors true (card_of self.now) }
        ensures known { AreAmong (bits_in result) (2 ^ 13 * error_bits) }
        ensures few { self.now.next < MAX_LARGE }
    {
        let size = self.store.size(self.part);
        if self.left.is_none() && self.next + 1 == size {
            Status::OUT_OF_RANGE
        } else {
            Status::empty()
        }
    }

    // The card has sent its next sector.
    fn pass_sector(&mut self)
        requires { self.old.next < length (stored (card_of self.old) self.old.part) }
        ensures { card_of self.new ≡ sent_from FromSectors (choice_of false) (card_of self.old) }
    {
        let errors = self.end_errors();
        self.raise(errors);
        self.next += 1;
        self.state = state_after(self.left, State::Data, State::Tran);
        self.left = one_less(self.left);
    }

    // Sends the next sector, if there is one and the buffer has its length.
    fn send_sector(&mut self, lines: Lines, buffer: &mut [u8]) -> DataIn
        requires source { self.old.source ≡ Source.Sectors }
        requires ready { (is_in self.old.state Data && lines_fit lines (card_of self.old)) ≡ true }
        ensures { Sends lines (card_of self.old) (card_of self.new) (length buffer.old) result buffer.new }
    {
        let _ = lines;
        let Some(block) = self.store.sector(self.part, self.next) else {
            return DataIn::Nothing;
        };
        if buffer.len() != block.len() {
            return DataIn::Nothing;
        }
        buffer.copy_from_slice(&block);
        self.pass_sector();
        DataIn::Good
    }

    /// Whether the card would send a block of this length.
    pub fn can_send(&self, lines: Lines, size: usize) -> bool
        ensures { result ≡ can_send lines size (card_of self.now) }
    {
        if !self.is_in(State::Data) || !self.fits(lines) {
            return false;
        }
        match &self.source {
            Source::Sectors => match self.store.sector(self.part, self.next) {
                Some(block) => block.len() == size,
                None => false,
            },
            Source::Block(block, _) => block.len() == size,
        }
    }

    /// Sends the block that was asked for, if one was, the lines of the host are the card's, and the buffer has its
    /// length.
    pub fn send(&mut self, lines: Lines, buffer: &mut [u8]) -> DataIn
        ensures { Sends lines (card_of self.old) (card_of self.new) (length buffer.old) result buffer.new }
    {
        if !self.is_in(State::Data) || !self.fits(lines) {
            return DataIn::Nothing;
        }
        match self.source {
            Source::Sectors => self.send_sector(lines, buffer),
            Source::Block(..) => self.send_block_of(lines, buffer),
        }
    }

    // Whether more blocks are to come.
    fn awaits(&self) -> bool
        ensures { result ≡ awaits self.now.left }
    {
        self.left != Some(0)
    }

    /// Whether the card would accept a block: one is to come, it isn't busy, the lines of the host are its own, and
    /// there is such a sector.
    pub fn can_accept(&self, lines: Lines) -> bool
        ensures { result ≡ can_accept lines (card_of self.now) }
    {
        self.is_in(State::Rcv)
            && !self.is_busy
            && self.fits(lines)
            && self.awaits()
            && self.store.has_next(self.part)
    }

    /// Accepts a block, if the card can. It is busy then.
    pub fn accept(&mut self, lines: Lines, block: &[u8; 512]) -> DataOut
        ensures card { card_of self.new ≡ offered lines block.now (card_of self.old) }
        ensures got { result ≡ (if can_accept lines (card_of self.old) then DataOut.Accepted else DataOut.Nothing) }
    {
        if !self.can_accept(lines) {
            return DataOut::Nothing;
        }
        self.store.accept(self.part, block);
        self.state = state_after(self.left, State::Rcv, State::Prg);
        self.left = one_less(self.left);
        self.make_busy();
        DataOut::Accepted
    }

    // The card isn't busy any more, and what it was programming is stored.
    fn end_busy(&mut self)
        ensures { card_of self.new ≡ rested (card_of self.old) }
    {
        if self.is_in(State::Prg) {
            self.store.land(self.part);
            self.state = State::Tran;
            self.lags = true;
        }
        self.is_busy = false;
    }

    // The card sends its next block, if it has one, and nobody takes it.
    fn run_on_once(&mut self)
        requires { is_in self.old.state Data ≡ true }
        ensures { card_of self.new ≡ run_on_once (card_of self.old) }
    {
        match &self.source {
            Source::Sectors => {
                if self.next < self.store.size(self.part) {
                    self.pass_sector();
                }
            }
            Source::Block(_, timing) => {
                self.timing = *timing;
                self.state = State::Tran;
                self.source = Source::Sectors;
            }
        }
    }

    /// What a card that goes on by itself does between two exchanges: its busy time ends, or a read sends a block that nobody
    /// takes (SD Physical Layer 6.00, section 4.3; JESD84-B51, section 6.6).
    pub fn pass_time(&mut self, delays: Delays)
        ensures { card_of self.new ≡ passed delays (card_of self.old) }
    {
        if !delays.goes_on {
            return;
        }
        if self.is_in(State::Data) {
            self.run_on_once();
        } else {
            self.end_busy();
        }
    }

    /// A poll of a card that is slow or not: whether it is busy.
    pub fn poll(&mut self, is_slow: bool) -> bool
        ensures card { card_of self.new ≡ (polled_once (choice_of is_slow) (card_of self.old)).0 }
        ensures busy { result ≡ (polled_once (choice_of is_slow) (card_of self.old)).1 }
    {
        if self.is_busy && is_slow {
            self.wait();
            return true;
        }
        self.end_busy();
        false
    }

    /// A poll that is answered yes.
    pub fn wait(&mut self)
        ensures { card_of self.new ≡ waited (card_of self.old) }
    {
        self.polled = (self.polled + 1).min(PATIENCE);
    }
}
