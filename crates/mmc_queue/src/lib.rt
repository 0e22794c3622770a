//! Requests of several clients that wait for a card: by ticket, and by the sectors where an extent may be joined.
#![tactic(auto)]

mod conflict;
mod entry;
mod extent;
mod find;
mod group;
mod held;
pub mod laws;
mod lent;
mod place;
mod places;
mod push_fault;
mod queue;
mod request;

pub use conflict::conflicts;
pub use entry::Entry;
pub use extent::{Extent, MAX_GROUP};
pub use group::{Group, Members};
pub use lent::Writes;
pub use mmc_requests::{Asked, Kind, MAX_COUNT};
pub use push_fault::PushFault;
pub use queue::{MAX_WAITING, Queue, Unknown};
pub use request::Request;
