ghost use Rattle.std.specs.Prelude.{◌≡◌};
ghost use Rattle.mmc_switch.specs.Sizes.{size_of, some_size};

use mmc_bus::Part;

/// The sizes of a card's partitions in sectors of 512 bytes, 0 where there is none.
#[derive(Clone, Copy, Debug, PartialEq, Eq)]
pub struct Sizes {
    /// The user data area.
    pub user: u64,
    /// Each of the two boot partitions.
    pub boot: u64,
    /// General purpose partition 1.
    pub gp1: u64,
    /// General purpose partition 2.
    pub gp2: u64,
    /// General purpose partition 3.
    pub gp3: u64,
    /// General purpose partition 4.
    pub gp4: u64,
}

impl Sizes {
    /// The size of this partition in sectors, 0 where there is none.
    pub fn of(&self, part: Part) -> u64
        ensures { result ≡ size_of self.now part }
    {
        match part {
            Part::User => self.user,
            Part::Boot1 | Part::Boot2 => self.boot,
            Part::Gp1 => self.gp1,
            Part::Gp2 => self.gp2,
            Part::Gp3 => self.gp3,
            Part::Gp4 => self.gp4,
        }
    }
}

/// A size, where it is one.
pub fn some_size(size: u64) -> Option<u64>
    ensures { result ≡ some_size size }
{
    if size == 0 { None } else { Some(size) }
}
