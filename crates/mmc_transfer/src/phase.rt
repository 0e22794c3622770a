// Where a run is: the exchange that comes next.
use mmc_switch::Ending;

/// The next exchange of a run.
#[derive(Clone, Copy, Debug, PartialEq, Eq)]
pub enum Phase {
    /// A block, after so many.
    Block { done: u32 },
    /// Another one, the same for reads and writes.
    Other(Step),
}

/// An exchange of a run that moves no block.
#[derive(Clone, Copy, Debug, PartialEq, Eq)]
pub enum Step {
    /// CMD23.
    Preset,
    /// The command that begins the transfer.
    Command,
    /// A poll between the blocks of a write: after so many blocks, and so many polls after the last one.
    Pause { done: u32, polls: u64 },
    /// CMD12.
    Stop,
    /// What ends the run.
    End(Ending),
}
