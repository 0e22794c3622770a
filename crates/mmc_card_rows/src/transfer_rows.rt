// What the card in memory does with the commands of transfers (SD Physical Layer 6.00, sections 4.3.3 and 4.3.4;
// JESD84-B51, sections 6.6.6 to 6.6.8), each where it is legal.
ghost use Rattle.std.specs.Prelude.{◌&&◌, ◌*◌, ◌<◌, ◌^◌, ◌≡◌, false, if◌then◌else◌};
ghost use Rattle.mmc_frame.specs.Status.{bits_in};
ghost use Rattle.mmc_frame.specs.declared.card_state.State.TheVariants.{Data, Rcv};
ghost use Rattle.mmc_card.specs.Card.{AreAmong};
ghost use Rattle.mmc_card.specs.ErrorBits.{error_bits};

use crate::answer::Answer;
use crate::chip::{Chip, Source};
use crate::delays::Delays;
use crate::status_bits::bits_if;
use bitflags::Flags;
use mmc_frame::commands::{
    READ_MULTIPLE_BLOCK, READ_SINGLE_BLOCK, SET_BLOCK_COUNT, SET_BLOCKLEN, STOP_TRANSMISSION,
    WRITE_BLOCK, WRITE_MULTIPLE_BLOCK,
};
use mmc_frame::{Kind, State, Status};

impl Chip {
    ghost use Rattle.mmc_card.specs.Made.{is_misaligned, is_read_only, sector_at};
    ghost use Rattle.mmc_card.specs.RowsTransfer.{begun, preset, read_multiple_block, read_single_block};
    ghost use Rattle.mmc_card.specs.RowsTransfer.{set_block_count_to, set_blocklen, stop_transmission, transfer_errors};
    ghost use Rattle.mmc_card.specs.RowsTransfer.{transferred, write_block, write_multiple_block};
    ghost use Rattle.mmc_card_rows.specs.Chip.{Answers, card_of, command_choice};

    /// The sector that an address names.
    pub fn sector_at(&self, address: u32) -> usize
        ensures sector { result ≡ sector_at (card_of self.now).made address }
        ensures small { result < 2 ^ 32 }
    {
        if self.registers.has_sector_addresses() {
            address as usize
        } else {
            address as usize / 512
        }
    }

    // Whether an address names no block.
    fn is_misaligned(&self, address: u32) -> bool
        ensures { result ≡ is_misaligned (card_of self.now).made address }
    {
        !self.registers.has_sector_addresses() && address % 512 != 0
    }

    // Whether sectors are protected, against any write.
    fn protects(&self, is_write: bool) -> bool
        ensures { result ≡ (is_write && is_read_only (card_of self.now).made) }
    {
        is_write && self.is_protected
    }

    // The errors of a transfer that is to begin at an address.
    fn errors_at(&self, is_write: bool, address: u32) -> Status
        ensures errors { bits_in result ≡ 2 ^ 13 * transfer_errors is_write (card_of self.now) address }
        ensures known { AreAmong (bits_in result) (2 ^ 13 * error_bits) }
    {
        let is_beyond = self.sector_at(address) >= self.store.size(self.part);
        Status::from_bits_retain(
            bits_if(Status::OUT_OF_RANGE, is_beyond)
                + bits_if(Status::ADDRESS_ERROR, self.is_misaligned(address))
                + bits_if(Status::BLOCK_LEN_ERROR, self.block_length != 512)
                + bits_if(Status::WP_VIOLATION, self.protects(is_write)),
        )
    }

    // A transfer from an address on begins, in the state that it leads to.
    fn begin(&mut self, state: State, is_single: bool, left: Option<u32>, address: u32)
        ensures { card_of self.new ≡ begun state is_single left (card_of self.old) address }
    {
        let start = self.sector_at(address);
        self.clear_errors();
        self.store.begin(start);
        self.state = state;
        self.source = Source::Sectors;
        self.next = start;
        self.left = left;
        self.is_single = is_single;
        self.is_switching = false;
    }

    // A transfer begins, or its errors are shown.
    fn transfer(
        &mut self,
        index: u8,
        is_write: bool,
        is_single: bool,
        left: Option<u32>,
        address: u32,
    ) -> Answer
        requires { index < 64 }
        ensures { Answers (transferred index (transfer_errors is_write (card_of self.old) address) (card_of self.old)
            (begun (if is_write then Rcv else Data) is_single left (card_of self.old) address)) self.new result }
    {
        let errors = self.errors_at(is_write, address);
        if !errors.is_empty() {
            self.raise(errors);
            return self.respond_status(index, false);
        }
        let argument = self.status(false);
        let state = if is_write { State::Rcv } else { State::Data };
        self.begin(state, is_single, left, address);
        Answer::Checked { index, argument }
    }

    // The count that is preset for the next command, if one is.
    fn preset(&self) -> Option<u32>
        ensures { result ≡ preset (card_of self.now) }
    {
        if self.count == 0 {
            None
        } else {
            Some(self.count)
        }
    }

    /// CMD17.
    pub fn read_single_block(&mut self, address: u32) -> Answer
        ensures { Answers (read_single_block (card_of self.old) address) self.new result }
    {
        self.transfer(READ_SINGLE_BLOCK, false, true, Some(1), address)
    }

    /// CMD18.
    pub fn read_multiple_block(&mut self, address: u32) -> Answer
        ensures { Answers (read_multiple_block (card_of self.old) address) self.new result }
    {
        self.transfer(READ_MULTIPLE_BLOCK, false, false, self.preset(), address)
    }

    /// CMD24.
    pub fn write_block(&mut self, address: u32) -> Answer
        ensures { Answers (write_block (card_of self.old) address) self.new result }
    {
        self.transfer(WRITE_BLOCK, true, true, Some(1), address)
    }

    /// CMD25.
    pub fn write_multiple_block(&mut self, address: u32) -> Answer
        ensures { Answers (write_multiple_block (card_of self.old) address) self.new result }
    {
        self.transfer(WRITE_MULTIPLE_BLOCK, true, false, self.preset(), address)
    }

    /// CMD12: of a write the card programs what it accepted, and of a read it may be busy. In tran, where there is nothing to
    /// stop, it isn't carried out.
    pub fn stop_transmission(&mut self, delays: Delays) -> Answer
        ensures { Answers (stop_transmission (command_choice delays (card_of self.old)) (card_of self.old)) self.new
            result }
    {
        if self.is_in(State::Tran) {
            return self.refuse();
        }
        let writes = self.is_in(State::Rcv);
        let answer = self.respond_status(STOP_TRANSMISSION, false);
        if writes {
            self.make_busy();
            self.state = State::Prg;
            self.is_switching = false;
        } else {
            self.is_busy = self.is_busy || delays.stays_busy;
            self.polled = 0;
            self.lags = true;
            self.state = State::Tran;
            self.source = Source::Sectors;
        }
        answer
    }

    /// CMD16: 512 alone.
    pub fn set_blocklen(&mut self, length: u32) -> Answer
        ensures { Answers (set_blocklen (card_of self.old) length) self.new result }
    {
        if length == 512 {
            self.block_length = 512;
        } else {
            self.raise(Status::BLOCK_LEN_ERROR);
        }
        self.respond_status(SET_BLOCKLEN, false)
    }

    /// CMD23: 32 bits of SD, 16 of eMMC.
    pub fn set_block_count(&mut self, argument: u32) -> Answer
        ensures { Answers (set_block_count_to (card_of self.old) argument) self.new result }
    {
        let answer = self.respond_status(SET_BLOCK_COUNT, false);
        self.count = match self.registers.kind() {
            Kind::Sd => argument,
            Kind::Mmc => argument % 0x1_0000,
        };
        answer
    }
}
