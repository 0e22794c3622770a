// What is wanted of a card.
use mmc_frame::Kind;

/// What is wanted of a card.
#[derive(Clone, Copy, Debug, PartialEq, Eq)]
pub struct Wanted {
    /// SD or eMMC.
    pub kind: Kind,
    /// The size of the user partition in sectors of 512 bytes.
    pub sectors: u64,
    /// Whether the host may use four data lines. An eMMC device always has them.
    pub four_lines: bool,
    /// Whether the card switches to high speed.
    pub high_speed: bool,
    /// Whether the card knows CMD23, SET_BLOCK_COUNT. An eMMC device always does.
    pub cmd23: bool,
    /// The size of each of the two boot partitions in sectors, of an eMMC device: a multiple of 256, at most 65,280.
    pub boot: u64,
    /// The size of the first general purpose partition in sectors, of an eMMC device: a multiple of 1,024, at most
    /// 8,388,608 where the user partition has at most 4,194,304 sectors, and 4,294,967,296 otherwise.
    pub gp: u64,
    /// Whether the card is write protected for now, by TMP_WRITE_PROTECT.
    pub read_only: bool,
}
