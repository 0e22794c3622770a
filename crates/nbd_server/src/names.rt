// The names of exports: those of the partitions.
ghost use Rattle.std.specs.Prelude.{◌≡◌, ◌≢◌, ◌≤◌, MatchOption, length};
ghost use Rattle.mmc_card.specs.declared.part.Part.{Part};
ghost use Rattle.nbd_server.specs.Names.{name_of};

use mmc_bus::Part;

/// All partitions, in the order of `Part`.
pub const PARTS: [Part; 7] = [
    Part::User,
    Part::Boot1,
    Part::Boot2,
    Part::Gp1,
    Part::Gp2,
    Part::Gp3,
    Part::Gp4,
];

/// The name of a partition, as card files and scripts have it.
pub fn part_name(part: Part) -> &'static [u8]
    ensures name { result.now ≡ name_of part }
    ensures short { length result.now ≤ 5 }
{
    match part {
        Part::User => b"user",
        Part::Boot1 => b"boot1",
        Part::Boot2 => b"boot2",
        Part::Gp1 => b"gp1",
        Part::Gp2 => b"gp2",
        Part::Gp3 => b"gp3",
        Part::Gp4 => b"gp4",
    }
}

/// The partition with this name.
pub fn part_by(name: &[u8]) -> Option<Part>
    ensures { MatchOption result ((part : Part) → name_of part ≢ name.now) (λ part. name_of part ≡ name.now) }
{
    for part in PARTS {
        if part_name(part) == name {
            return Some(part);
        }
    }
    None
}
