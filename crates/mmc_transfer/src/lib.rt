//! Runs of blocks: reads and writes of 1 to 65,535 sectors, an exchange at a time or as a whole.
#![tactic(auto)]

mod commands;
mod job;
mod moves;
mod pace;
mod phase;
mod run;
mod steps;
mod turns;
mod way;
mod whole;

pub use job::MAX_BLOCKS;
pub use pace::Pace;
pub use run::Run;
pub use turns::{EXCHANGES_BESIDE_BLOCKS, EXCHANGES_OF_A_BLOCK};
pub use way::Way;
pub use whole::{read_run, write_run};
