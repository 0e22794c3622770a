/// Which way the blocks of a run go, as the host sees it.
#[derive(Clone, Copy, Debug, PartialEq, Eq)]
pub enum Way {
    /// The host reads the blocks from the card.
    Read,
    /// The host writes the blocks to the card.
    Write,
}
