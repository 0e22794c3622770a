use mmc_frame::{Addressing, Kind};
use mmc_regs::{Cid, Csd};

/// What identification tells of a card.
#[derive(Clone, Copy, Debug, PartialEq, Eq)]
pub struct Found {
    /// SD or eMMC.
    pub kind: Kind,
    /// Whether commands name bytes or sectors.
    pub addressing: Addressing,
    /// The address by which the card goes.
    pub rca: u16,
    /// Which card it is.
    pub cid: Cid,
    /// Its size, by bytes or for SD, and its write protection.
    pub csd: Csd,
}
