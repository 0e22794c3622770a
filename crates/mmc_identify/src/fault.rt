use thiserror::Error;

/// Why a card wasn't identified. Of a card in profile each needs a fault on the wire.
#[derive(Clone, Copy, Debug, PartialEq, Eq, Error)]
pub enum IdentFault {
    /// A response is missing or unsound, the closing status isn't clean, or sixteen inquiries or polls were in vain.
    #[error("the card doesn't answer")]
    NoAnswer,
    /// The card doesn't work from 3.2 to 3.4 V.
    #[error("the card doesn't work at 3.3 V")]
    Voltage,
    /// The CID or the CSD is refused, an SD card publishes RCA 0, or a byte-addressed eMMC device has blocks of a
    /// length other than 512, 1,024 or 2,048 bytes.
    #[error("a register is refused")]
    Register,
    /// CCS of an SD card and its CSD version differ, or the access mode of an eMMC device is reserved.
    #[error("the addressing is contradictory or reserved")]
    Mismatch,
    /// The card is locked.
    #[error("the card is locked")]
    Locked,
}
