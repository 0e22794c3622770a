//! Identification: from anywhere to a card that is selected, and what it is.
#![tactic(auto)]

mod fault;
mod found;
mod identification;
mod judging;
mod mmc;
mod sd;
mod shared;

pub use fault::IdentFault;
pub use found::Found;
pub use identification::identify;
