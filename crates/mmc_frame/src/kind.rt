/// The kind of a card.
#[derive(Clone, Copy, Debug, PartialEq, Eq)]
pub enum Kind {
    /// An SD memory card.
    Sd,
    /// An eMMC device.
    Mmc,
}
