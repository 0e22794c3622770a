// What a run is for.
ghost use Rattle.std.specs.Prelude.{◌≡◌, ◌+◌, ◌-◌, ◌≤◌, IsSome, false, true};
ghost use Rattle.mmc_card.specs.Sectors.{is_boot};
ghost use Rattle.mmc_switch.specs.Address.{address_of};
ghost use Rattle.mmc_switch.specs.UnderWay.{part_of, room_of};
ghost use Rattle.mmc_erase.specs.Job.{suits};

use crate::how::How;
use mmc_switch::Session;

/// So many sectors, from this one of the session's partition on.
#[derive(Debug, Drop)]
pub struct Job {
    pub(crate) session: Session,
    pub(crate) start: u64,
    pub(crate) count: u64,
    pub(crate) how: How,
    pub(crate) ghost selected: { IsSome session.selected },
    pub(crate) ghost some: { 1 ≤ count },
    pub(crate) ghost inside: { start + count ≤ room_of session },
    pub(crate) ghost erasable: { is_boot (part_of session) ≡ false },
    pub(crate) ghost suits: { suits how session.info (room_of session) start count ≡ true },
}

impl Job {
    // What names its first sector.
    pub(crate) fn first(&self) -> u32
        ensures { result ≡ address_of self.now.session.info.addressing self.now.start }
    {
        self.session.address(self.start)
    }

    // What names its last sector.
    pub(crate) fn last(&self) -> u32
        ensures { result ≡ address_of self.now.session.info.addressing (self.now.start + self.now.count - 1) }
    {
        self.session.address(self.start + self.count - 1)
    }
}
