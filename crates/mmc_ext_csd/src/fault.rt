use thiserror::Error;

/// Why an EXT_CSD is refused. Where both hold, the first is named.
#[derive(Clone, Copy, Debug, PartialEq, Eq, Error)]
pub enum ExtFault {
    /// EXT_CSD_REV is below 5, so that fields which this stack needs may be missing. This rule is the stack's own.
    #[error("the revision of the EXT_CSD is too old")]
    Revision,
    /// HC_ERASE_GRP_SIZE is 0, so that the device has no erase unit. This rule is the stack's own.
    #[error("the EXT_CSD gives no erase unit")]
    ZeroSize,
}
