// The frames on CMD.

/// A frame as its bytes, the first one that is sent first.
#[derive(Clone, Copy, Debug, PartialEq, Eq)]
pub enum Frame {
    /// The 48 bits of a command, or of a response other than an R2 (SD Physical Layer 6.00, sections 4.7.2 and 4.9;
    /// JESD84-B51, sections 6.10.1 and 6.12).
    Short([u8; 6]),
    /// The 136 bits of an R2, which carries a CID or a CSD (SD Physical Layer 6.00, section 4.9.3; JESD84-B51, section
    /// 6.12).
    Long([u8; 17]),
}
