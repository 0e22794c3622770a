use thiserror::Error;

/// Why a request is refused. Where several hold, the first in this order is named.
#[derive(Clone, Copy, Debug, PartialEq, Eq, Error)]
pub enum Refused {
    /// The card has no such partition.
    #[error("the card has no such partition")]
    NoSuchPartition,
    /// It names no sector.
    #[error("the request names no sector")]
    Empty,
    /// A read or a write of more sectors than it may have: 65,535 where it doesn't wait in a queue.
    #[error("the request names too many sectors")]
    TooLong,
    /// The last sector lies past the end of the partition.
    #[error("the request goes past the end of the partition")]
    OutOfRange,
    /// A write, an erase or a trim on a read-only card.
    #[error("the card is read-only")]
    ReadOnly,
    /// An erase or a trim in a boot partition.
    #[error("sectors of this partition can't be erased")]
    NotInPartition,
    /// A trim on a card that doesn't trim.
    #[error("the card doesn't trim")]
    NoTrim,
    /// An erase that isn't of whole erase units. The last one may end with the partition.
    #[error("the erase isn't of whole erase units")]
    Unaligned,
}
