//! What calls on slots of requests (`mmc_slots`) are to the sector machine of `mmc_block`.
#![tactic(auto)]

pub mod laws;
mod starting;

pub use starting::start;
