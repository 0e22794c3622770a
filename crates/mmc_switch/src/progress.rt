use crate::broken::Broken;
use crate::session::Session;
use mmc_bus::Cause;

/// How work that takes several turns stands after one of them.
#[derive(Debug)]
pub enum Progress<R> {
    /// It goes on.
    More(R),
    /// It is done, and the card is ready.
    Done(Session),
    /// It has failed.
    Failed(Broken),
}

/// The same, of work that is advanced where it stands, so that a turn moves no session.
#[derive(Clone, Copy, Debug)]
pub enum Standing {
    /// It goes on.
    GoesOn,
    /// It is done, and the card is ready.
    Done,
    /// It has failed.
    Failed(Cause),
}
