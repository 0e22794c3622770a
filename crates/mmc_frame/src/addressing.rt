/// How a command's argument names a sector (SD Physical Layer 6.00, section 5.1; JESD84-B51, section 7.1).
#[derive(Clone, Copy, Debug, PartialEq, Eq)]
pub enum Addressing {
    /// By the address of its first byte, 512 a sector.
    Bytes,
    /// By its number.
    Sectors,
}
