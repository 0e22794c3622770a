// Data that is under way, in either direction.
ghost use Rattle.std.specs.Prelude.{◌≡◌, true};
ghost use Rattle.sdhci_model.specs.Moves.{AwaitsGone, AwaitsGood, Breaks, SeesBuffer};

use crate::state::State;
use arrayvec::ArrayVec;
use mmc_host::Data;
use mmc_sdhci::{Following, following_of};

impl State {
    /// A look at Buffer Write Enable and Buffer Read Enable, in the second byte of Present State.
    pub fn see_buffer(&mut self) -> u8
        ensures { SeesBuffer self.old result self.new }
    {
        let value = match self.transfer {
            Data::Nothing => 0,
            Data::Read { .. } => 8,
            Data::Write { .. } => 4,
        };
        self.is_ready = value != 0;
        value
    }

    /// A look that finds neither a block nor room for one.
    pub fn see_no_buffer(&mut self) -> u8
        ensures { SeesBuffer self.old result self.new }
    {
        self.is_ready = false;
        0
    }

    /// Whether something has begun of the block that is under way: it has come, or some of it is in the buffer.
    pub fn has_begun(&self) -> bool {
        self.is_unjudged || !self.outgoing.is_empty()
    }

    /// Whether the block that is under way is the last one, of which Transfer Complete tells.
    pub fn is_last(&self) -> bool {
        matches!(following_of(self.transfer), Following::End)
    }

    /// Whether a controller that is silent holds Transfer Complete back.
    pub fn is_held_back(&self, is_silent: bool) -> bool
        ensures good { result ≡ true → AwaitsGood self.now }
        ensures gone { result ≡ true → AwaitsGone self.now }
    {
        match following_of(self.transfer) {
            Following::End => is_silent,
            _ => false,
        }
    }

    /// A look at the interrupts that finds nothing new.
    pub fn see_nothing(&mut self)
        ensures { self.new ≡ record self.old { status = 0 } }
    {
        self.status = 0;
    }

    /// The data is broken off: the data line is to be reset.
    pub fn break_data(&mut self, bits: u32)
        ensures { Breaks self.old bits self.new }
    {
        self.status = bits;
        self.transfer = Data::Nothing;
        self.is_stale = true;
        self.is_ready = false;
        self.is_unjudged = false;
        self.outgoing = ArrayVec::new();
    }
}
