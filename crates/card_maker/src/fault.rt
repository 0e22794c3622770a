// Why no card is made.
use thiserror::Error;

/// Why no card is as it is wanted.
#[derive(Clone, Copy, Debug, PartialEq, Eq, Error)]
pub enum MakeFault {
    /// A boot partition or a general purpose partition of an SD card, which has neither.
    #[error("an SD card has neither boot partitions nor general purpose partitions")]
    OfMmcAlone,
    /// The boot partitions haven't a multiple of 256 sectors, or have more than 65,280 (JESD84-B51, section 7.4).
    #[error("a boot partition has a multiple of 256 sectors, at most 65280")]
    BootSize,
    /// The general purpose partition hasn't a multiple of 1,024 sectors, or its last address doesn't fit a command.
    #[error("a general purpose partition has a multiple of 1024 sectors, at most {most} beside this user partition")]
    GpSize {
        /// The largest one.
        most: u64,
    },
    /// The user partition is smaller than that of any card of this kind.
    #[error("no such card has {sectors} sectors: the smallest has {least}")]
    TooSmall {
        /// The wanted size in sectors.
        sectors: u64,
        /// The sectors of the smallest one.
        least: u64,
    },
    /// The user partition is larger than that of any card of this kind.
    #[error("no such card has {sectors} sectors: the largest has {most}")]
    TooLarge {
        /// The wanted size in sectors.
        sectors: u64,
        /// The sectors of the largest one.
        most: u64,
    },
    /// The registers of a card of this kind can't say the size of the user partition.
    #[error("no such card has {sectors} sectors: the next sizes are {below} and {above}")]
    NotASize {
        /// The wanted size in sectors.
        sectors: u64,
        /// The next smaller size in sectors.
        below: u64,
        /// The next larger size in sectors.
        above: u64,
    },
}
