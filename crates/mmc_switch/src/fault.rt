use thiserror::Error;

/// Why a card wasn't widened. Of a card in profile each needs a fault on the wire.
#[derive(Clone, Copy, Debug, PartialEq, Eq, Error)]
pub enum SwitchFault {
    /// A response or a block is missing or unsound, a response shows an error, a status isn't clean, or sixteen polls
    /// were in vain.
    #[error("the card didn't take its width or speed")]
    Exchange,
    /// The EXT_CSD is refused, SEC_COUNT of a device with sector addresses is 0, or an SD card was found with the CSD of
    /// an eMMC device.
    #[error("a register is refused")]
    Register,
}
