// What a run is for.
ghost use Rattle.std.specs.Prelude.{◌≡◌, ◌==◌, ◌+◌, ◌≤◌, IsSome, false};
ghost use Rattle.mmc_switch.specs.Address.{address_of};
ghost use Rattle.mmc_switch.specs.UnderWay.{room_of};
ghost use Rattle.mmc_transfer.specs.declared.way.Way.TheVariants.{Write};
ghost use Rattle.mmc_transfer.specs.declared.job.TheConstants.{MAX_BLOCKS};
ghost use Rattle.mmc_transfer.specs.Commands.{may_run_out};
ghost use Rattle.mmc_transfer.specs.Fits.{first_of, is_counted_by};

use crate::phase::Step;
use crate::way::Way;
use mmc_switch::Session;

/// The most blocks of a run: the 16 bits in which CMD23 tells an eMMC device how many come (JESD84-B51, section 6.10.4), and in which
/// the Block Count register of an SD host controller counts them.
pub const MAX_BLOCKS: u32 = 65_535;

/// So many blocks, from this sector of the session's partition on.
#[derive(Debug, Drop)]
pub struct Job {
    pub(crate) session: Session,
    pub(crate) start: u64,
    pub(crate) count: u32,
    pub(crate) way: Way,
    pub(crate) ghost selected: { IsSome session.selected },
    pub(crate) ghost some: { 1 ≤ count },
    pub(crate) ghost few: { count ≤ MAX_BLOCKS },
    pub(crate) ghost inside: { start + count ≤ room_of session },
    pub(crate) ghost writable: { way ≡ Write → session.info.read_only ≡ false },
}

impl Job {
    // The argument of its commands: the first sector, or its first byte.
    pub(crate) fn address(&self) -> u32
        ensures { result ≡ address_of self.now.session.info.addressing self.now.start }
    {
        self.session.address(self.start)
    }

    // Whether the card knows how many blocks there are, so that it ends the transfer by itself.
    pub(crate) fn is_counted(&self) -> bool
        ensures { result ≡ is_counted_by self.now.count self.now.session.info.cmd23 }
    {
        self.count == 1 || self.session.info().cmd23
    }

    // Whether a card may say OUT_OF_RANGE at its end, and mean no error: it reads, and goes on sending until CMD12 comes, one sector
    // or two further, and so maybe past the end of the partition (SD Physical Layer 6.00, section 4.3.3; JESD84-B51, section
    // 6.6.7). What has come is told by the blocks themselves.
    pub(crate) fn may_run_out(&self) -> bool
        ensures { result ≡ may_run_out self.now.way }
    {
        self.way == Way::Read
    }

    // The exchange that it begins with: CMD23, where the card knows it and there are several blocks.
    pub(crate) fn first_step(&self) -> Step
        ensures { result ≡ first_of self.now.count self.now.session.info.cmd23 }
    {
        if self.count > 1 && self.session.info().cmd23 {
            Step::Preset
        } else {
            Step::Command
        }
    }
}
