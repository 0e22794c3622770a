// Which partitions exist.
ghost use Rattle.std.specs.Prelude.{◌≡◌};
ghost use Rattle.mmc_ext_csd.specs.Partition.{addressable_sectors, existing_sectors};

use mmc_frame::Addressing;

// The addresses that a command's argument of 32 bits can carry.
const ADDRESSES: u64 = 0x1_0000_0000;

// How many sectors they name.
fn addressable_sectors(addressing: Addressing) -> u64
    ensures { result ≡ addressable_sectors addressing }
{
    match addressing {
        Addressing::Bytes => ADDRESSES / 512,
        Addressing::Sectors => ADDRESSES,
    }
}

/// The sectors that exist of a partition of this size: all of them, or 0 where the last sector's address doesn't fit the
/// 32 bits of a command's argument. With byte addresses these name 2^23 sectors, with sector addresses 2^32.
pub fn existing_sectors(size: u64, addressing: Addressing) -> u64
    ensures { result ≡ existing_sectors size addressing }
{
    if size <= addressable_sectors(addressing) {
        size
    } else {
        0
    }
}
