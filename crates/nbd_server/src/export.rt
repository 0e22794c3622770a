// What a partition is like as an export.
ghost use Rattle.std.specs.Prelude.{◌≤◌};

use mmc_block::Info;
use mmc_bus::Part;
use nbd_messages::Abilities;

/// A partition as an export.
#[derive(Clone, Copy, Debug, PartialEq, Eq)]
pub struct Export {
    /// The partition.
    pub part: Part,
    /// Its size in sectors.
    pub sectors: u64,
    /// The erase unit of the card in sectors, at least 1.
    pub erase_unit: u64,
    /// Whether the card trims sectors one by one.
    pub trims_each: bool,
    /// What it can do.
    pub can: Abilities,
    pub ghost some_unit: { 1 ≤ erase_unit },
}

impl Export {
    ghost use Rattle.std.specs.Prelude.{◌*◌, ◌-◌, ◌^◌, ◌≡◌, ◌≤◌, MatchOption, None};
    ghost use Rattle.mmc_switch.specs.Info.{sectors_of};
    ghost use Rattle.nbd_server.specs.Exports.{IsExport};

    /// The export of a partition, or `None` where the card has no such partition.
    pub fn of(info: &Info, part: Part) -> Option<Export>
        ensures { MatchOption result (sectors_of info.now part ≡ None) (λ export. (export.part ≡ part) × IsExport info.now export) }
    {
        let sectors = info.sectors(part)?;
        let erases = !info.read_only && !matches!(part, Part::Boot1 | Part::Boot2);
        Some(Export {
            part,
            sectors,
            erase_unit: info.erase_unit,
            trims_each: info.trims,
            can: Abilities {
                read_only: info.read_only,
                trims: erases,
                zeroes: erases && info.trims && info.erased_byte == 0,
            },
        })
    }

    /// Its size in bytes, 2^64 - 1 at most.
    pub fn size(&self) -> u64
        ensures { 512 * self.now.sectors ≤ 2 ^ 64 - 1 → result ≡ 512 * self.now.sectors }
    {
        self.sectors.saturating_mul(512)
    }
}
