/// The state of a card (SD Physical Layer 6.00, table 4-1; JESD84-B51, section 6.1).
#[derive(Clone, Copy, Debug, PartialEq, Eq)]
pub enum State {
    /// Idle, after power on or CMD0.
    Idle,
    /// Ready to be identified.
    Ready,
    /// Identification: the card has sent its CID.
    Ident,
    /// Stand-by: the card has its RCA and isn't selected.
    Stby,
    /// Transfer: selected, and no transfer runs.
    Tran,
    /// Sending data.
    Data,
    /// Receiving data.
    Rcv,
    /// Programming.
    Prg,
    /// Disconnected while programming.
    Dis,
}
