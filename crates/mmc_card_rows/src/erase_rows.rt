// What the card in memory does with the commands of erase and trim (SD Physical Layer 6.00, section 4.3.5; JESD84-B51,
// sections 6.6.9 and 6.6.10), each in tran.
ghost use Rattle.std.specs.Prelude.{◌<◌, ◌≡◌, ◌≤◌, length, not, true};

use crate::answer::Answer;
use crate::chip::{Addresses, Chip};
use mmc_card::Part;
use mmc_frame::commands::ERASE;
use mmc_frame::{Kind, State, Status};

impl Chip {
    ghost use Rattle.mmc_card.specs.Card.{Both, stored};
    ghost use Rattle.mmc_card.specs.Made.{sector_at};
    ghost use Rattle.mmc_card.specs.RowsErase.{erase_held, erased_from, erased_to, erases, erasing, hold_first};
    ghost use Rattle.mmc_card.specs.RowsErase.{hold_last, is_no_range, is_trim, out_of_sequence};
    ghost use Rattle.mmc_card_rows.specs.Chip.{Answers, card_of};

    // A command out of the sequence: no address is held any more.
    fn out_of_sequence(&mut self, index: u8) -> Answer
        requires { index < 64 }
        ensures { Answers (out_of_sequence index (card_of self.old)) self.new result }
    {
        self.raise(Status::ERASE_SEQ_ERROR);
        self.addresses = Addresses::None;
        self.respond_status(index, false)
    }

    /// CMD32 or CMD35, the first of the sequence.
    pub fn hold_first(&mut self, index: u8, address: u32) -> Answer
        requires { index < 64 }
        ensures { Answers (hold_first index (card_of self.old) address (card_of self.old).erase) self.new result }
    {
        let Addresses::None = self.addresses else {
            return self.out_of_sequence(index);
        };
        self.addresses = Addresses::First(address);
        self.respond_status(index, false)
    }

    /// CMD33 or CMD36, the second.
    pub fn hold_last(&mut self, index: u8, address: u32) -> Answer
        requires { index < 64 }
        ensures { Answers (hold_last index (card_of self.old) address (card_of self.old).erase) self.new result }
    {
        let Addresses::First(first) = self.addresses else {
            return self.out_of_sequence(index);
        };
        self.addresses = Addresses::Both(first, address);
        self.respond_status(index, false)
    }

    // Whether these addresses name sectors that can be erased, the last not before the first.
    fn has_range(&self, first: u32, last: u32) -> bool
        ensures named { not result ≡ is_no_range (card_of self.now) first last }
        ensures order { result ≡ true
            → sector_at (card_of self.now).made first ≤ sector_at (card_of self.now).made last }
        ensures within { result ≡ true
            → sector_at (card_of self.now).made last < length (stored (card_of self.now) self.now.part) }
    {
        !matches!(self.part, Part::Boot1 | Part::Boot2)
            && self.sector_at(first) <= self.sector_at(last)
            && self.sector_at(last) < self.store.size(self.part)
    }

    // Whether an erase takes just the sectors that are named: argument 1 of eMMC.
    fn is_trim(&self, argument: u32) -> bool
        ensures { result ≡ is_trim (card_of self.now) argument }
    {
        matches!(self.registers.kind(), Kind::Mmc) && argument == 1
    }

    // The first sector that is erased: of an erase the first one of its unit.
    fn erased_from(&self, trims: bool, sector: usize) -> usize
        ensures from { result ≡ erased_from (card_of self.now).made trims sector }
        ensures before { result ≤ sector }
    {
        if trims {
            sector
        } else {
            sector / self.erase_unit * self.erase_unit
        }
    }

    // The end of what is erased: of an erase that of the last unit, as far as the partition goes.
    fn erased_to(&self, trims: bool, sector: usize) -> usize
        requires { sector < length (stored (card_of self.now) self.now.part) }
        ensures to { result
            ≡ erased_to (card_of self.now).made trims (length (stored (card_of self.now) self.now.part)) sector }
        ensures after { sector < result }
        ensures within { result ≤ length (stored (card_of self.now) self.now.part) }
    {
        let size = self.store.size(self.part);
        if trims {
            return sector + 1;
        }
        let end = (sector / self.erase_unit + 1) * self.erase_unit;
        end.min(size)
    }

    // The sectors of these addresses are to get the erased byte.
    fn change_range(&mut self, trims: bool, first: u32, last: u32)
        requires order { sector_at (card_of self.old).made first ≤ sector_at (card_of self.old).made last }
        requires within { sector_at (card_of self.old).made last < length (stored (card_of self.old) self.old.part) }
        ensures { let change = erasing (card_of self.old) trims first last in
            card_of self.new ≡ record (card_of self.old) { start = change.start; values = change.values } }
    {
        let from = self.erased_from(trims, self.sector_at(first));
        let to = self.erased_to(trims, self.sector_at(last));
        let erased = self.registers.erased_byte();
        self.store.erase(self.part, from, to - from, erased);
    }

    // They are erased while the card is busy.
    fn erase_range(&mut self, trims: bool, first: u32, last: u32)
        requires order { sector_at (card_of self.old).made first ≤ sector_at (card_of self.old).made last }
        requires within { sector_at (card_of self.old).made last < length (stored (card_of self.old) self.old.part) }
        ensures { card_of self.new ≡ erases (erasing (card_of self.old) trims first last) (card_of self.old) }
    {
        self.change_range(trims, first, last);
        self.clear_errors();
        self.addresses = Addresses::None;
        self.make_busy();
        self.state = State::Prg;
        self.is_switching = false;
    }

    // CMD38 with both addresses.
    fn erase_between(&mut self, argument: u32, first: u32, last: u32) -> Answer
        ensures { Answers (erase_held (card_of self.old) argument (Both first last)) self.new result }
    {
        if !self.has_range(first, last) {
            self.raise(Status::ERASE_PARAM);
            self.addresses = Addresses::None;
            return self.respond_status(ERASE, false);
        }
        let status = self.status(false);
        self.erase_range(self.is_trim(argument), first, last);
        Answer::Checked {
            index: ERASE,
            argument: status,
        }
    }

    /// CMD38, the third: erases from the sector of the first address to that of the last.
    pub fn erase(&mut self, argument: u32) -> Answer
        ensures { Answers (erase_held (card_of self.old) argument (card_of self.old).erase) self.new result }
    {
        let Addresses::Both(first, last) = self.addresses else {
            return self.out_of_sequence(ERASE);
        };
        self.erase_between(argument, first, last)
    }
}
