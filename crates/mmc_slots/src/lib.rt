//! Requests of several clients that wait for a card, in memory of the caller's: slots of plain numbers, without a heap. Slots may hold
//! anything: a free one's numbers don't matter, and one of an unknown state is taken for ever and never served.
#![tactic(auto)]

mod acceptance;
mod cancellation;
mod conclusion;
mod search;
mod service;
mod slot;
mod submission;

pub use acceptance::{NotAccepted, refusal, submit};
pub use cancellation::{CancelFault, cancel};
pub use conclusion::conclude;
pub use mmc_queue::{Extent, MAX_GROUP};
pub use mmc_requests::{Asked, Refused};
pub use service::start;
pub use slot::{ALONE, FREE, Slot, TOGETHER, WAITS};
pub use submission::{Full, push};

#[cfg(test)]
mod tests;
