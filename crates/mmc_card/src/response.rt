// The responses to commands.

/// The response to a command (SD Physical Layer 6.00, section 4.9; JESD84-B51, section 6.12).
#[derive(Clone, Copy, Debug, PartialEq, Eq)]
pub enum Response {
    /// None.
    Nothing,
    /// R1: 48 bits with the card status, its check and the command's index.
    R1,
    /// R1b: an R1, after which the card may be busy.
    R1b,
    /// R2: 136 bits with the CID or the CSD, which carries its own check.
    R2,
    /// R3: 48 bits with the OCR, which nothing protects.
    R3,
    /// R6: 48 bits with the RCA that the card publishes, its check and the command's index.
    R6,
    /// R7: 48 bits with the voltage that the card accepts and the check pattern, its check and the command's index.
    R7,
}
