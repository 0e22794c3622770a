//! Runs that erase or trim sectors, an exchange at a time or as a whole.
#![tactic(auto)]

mod commands;
mod how;
mod job;
mod phase;
mod run;
mod steps;
mod turns;
mod whole;

pub use how::How;
pub use run::EraseRun;
pub use turns::EXCHANGES_OF_AN_ERASE;
pub use whole::erase_run;
