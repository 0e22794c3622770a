ghost use Rattle.std.specs.Prelude.{◌≤◌};
ghost use Rattle.mmc_ext_csd.specs.Partition.{addressable_sectors};
ghost use Rattle.mmc_card.specs.declared.part.Part.{Part};
ghost use Rattle.mmc_switch.specs.Sizes.{size_of};

use crate::known_faults::{locks_up_at_cmd23, loses_by_trim};
use crate::sizes::{Sizes, some_size};
use mmc_bus::{Part, Timing, Width};
use mmc_frame::{Addressing, Kind};
use mmc_regs::{Cid, Csd};

/// What a host knows of a card.
#[derive(Clone, Copy, Debug, PartialEq, Eq)]
pub struct Info {
    /// SD or eMMC.
    pub kind: Kind,
    /// Whether commands name bytes or sectors.
    pub addressing: Addressing,
    /// The address by which the card goes.
    pub rca: u16,
    /// Which card it is.
    pub cid: Cid,
    /// Its card-specific data.
    pub csd: Csd,
    /// The sizes of its partitions. One that commands can't address as a whole counts as none.
    pub sizes: Sizes,
    /// Whether it is write protected, for good or for now.
    pub read_only: bool,
    /// The erase unit in sectors, at least 1.
    pub erase_unit: u64,
    /// What each byte of an erased sector holds, 00h or FFh.
    pub erased_byte: u8,
    /// Whether trims are used, which it has then.
    pub trims: bool,
    /// Whether CMD23, SET_BLOCK_COUNT, is used, which it has then.
    pub cmd23: bool,
    /// How many lines are used: the most that card and host have.
    pub width: Width,
    /// The speed that is used.
    pub timing: Timing,
    pub ghost addressable: { (part : Part) → size_of sizes part ≤ addressable_sectors addressing },
    pub ghost some_unit: { 1 ≤ erase_unit },
}

impl Info {
    ghost use Rattle.std.specs.Prelude.{◌≡◌, true};
    ghost use Rattle.mmc_card.specs.Made.{HasRegisters, Made};
    ghost use Rattle.mmc_regs.specs.Csd.{lasting_csd};
    ghost use Rattle.mmc_card.specs.declared.exchange.Lines.{Lines};
    ghost use Rattle.mmc_switch.specs.Info.{IsInfo, IsKnown, lasting, sectors_of, used_as};
    ghost use Rattle.mmc_switch.specs.KnownFaults.{heeding};

    /// The size of a partition in sectors of 512 bytes, or `None` where the card has no such partition, or one without a
    /// sector.
    pub fn sectors(&self, part: Part) -> Option<u64>
        ensures { result ≡ sectors_of self.now part }
    {
        some_size(self.sizes.of(part))
    }

    /// What is known of the card for good: all but the RCA, in whose place 1 stands, and an SD card's timing, in whose
    /// place default speed stands.
    pub fn lasting(&self) -> Info
        ensures { result ≡ lasting self.now }
    {
        let mut lasting = *self;
        lasting.rca = 1;
        lasting.timing = match self.kind {
            Kind::Sd => Timing::Default,
            Kind::Mmc => self.timing,
        };
        lasting
    }

    /// The same, but that trims and CMD23 aren't used where the other doesn't use them, and that the CSD and what it says of write
    /// protection are the other's: TMP_WRITE_PROTECT may have come on since.
    pub fn used_as(&self, other: &Info) -> Info
        ensures { result ≡ used_as other.now self.now }
    {
        let mut used = *self;
        used.csd = other.csd;
        used.read_only = other.read_only;
        used.trims = self.trims && other.trims;
        used.cmd23 = self.cmd23 && other.cmd23;
        used
    }

    /// The same, but that what cards of this make are known to do wrong isn't used.
    pub fn heeding_known_faults(&self) -> Info
        ensures { result ≡ heeding self.now }
    {
        let mut used = *self;
        used.trims = self.trims && !loses_by_trim(self.kind, self.cid);
        used.cmd23 = self.cmd23 && !locks_up_at_cmd23(self.kind, self.cid);
        used
    }

    /// Whether this and what else is known of a card are the same for good, once no more of it is used than of the other. What is
    /// known of one card over one host always is, whether TMP_WRITE_PROTECT has come on or not.
    pub fn is_same(&self, other: &Info) -> bool
        ensures same { result ≡ true → lasting (used_as other.now self.now) ≡ lasting other.now }
        ensures csd { result ≡ true → lasting_csd self.now.csd ≡ lasting_csd other.now.csd }
        ensures known { (limits : Lines) → (made : Made) → HasRegisters made → IsInfo limits made self.now
            → IsKnown limits made other.now → result ≡ true }
    {
        self.used_as(other).lasting() == other.lasting()
            && self.csd.lasting() == other.csd.lasting()
    }
}
