use thiserror::Error;

/// Why a CID or a CSD is refused. Where several hold, the first in this order is named.
#[derive(Clone, Copy, Debug, PartialEq, Eq, Error)]
pub enum RegFault {
    /// The CRC7 in bits 7 to 1 doesn't fit, or bit 0 isn't 1.
    #[error("the check of the register doesn't fit")]
    Check,
    /// CSD_STRUCTURE of an SD card is 2 or 3.
    #[error("the CSD has an unknown structure")]
    Structure,
    /// READ_BL_LEN or WRITE_BL_LEN of a CSD version 1.0 isn't 9 to 11.
    #[error("a block length of the CSD is out of range")]
    Range,
}
