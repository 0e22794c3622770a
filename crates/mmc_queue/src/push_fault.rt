use thiserror::Error;

/// Why an entry isn't taken. Where both hold, the first is named.
#[derive(Clone, Copy, Debug, PartialEq, Eq, Error)]
pub enum PushFault {
    /// As many wait as may.
    #[error("too many requests wait")]
    Full,
    /// Memory for the entry was refused.
    #[error("no memory")]
    NoMemory,
}
