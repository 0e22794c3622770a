//! Sectors in memory: those of an image in its own bytes, others in memory that is taken as they are written.
#![tactic(auto)]

mod chunk;
mod chunks;
mod sectors;

pub use sectors::Sectors;
