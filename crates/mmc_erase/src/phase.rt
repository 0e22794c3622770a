use mmc_switch::Ending;

/// The next exchange of a run.
#[derive(Clone, Copy, Debug, PartialEq, Eq)]
pub enum Phase {
    /// CMD32 or CMD35.
    First,
    /// CMD33 or CMD36.
    Last,
    /// CMD38.
    Erase,
    /// What ends it.
    End(Ending),
}
