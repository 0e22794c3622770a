use mmc_bus::Cause;
use mmc_requests::Refused;
use thiserror::Error;

/// Why a request wasn't done.
#[derive(Clone, Copy, Debug, PartialEq, Eq, Error)]
pub enum NotDone {
    /// It can't be served. Nothing was sent, and nothing has changed.
    #[error("refused: {0}")]
    Refused(Refused),
    /// Each of four attempts has failed, the last one for this cause.
    #[error("failed: {0}")]
    Failed(Cause),
}
