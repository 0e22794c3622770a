//! A block device with the history of its calls, which only proofs see: after every call that history, over a bus that is kept, is a
//! run of the sector machine, and the card's sectors are what the run leaves. The headline is told here by one clause a call,
//! and by another what holds beside it.
#![tactic(auto)]

mod call;
mod device;

pub use call::Call;
pub use device::Device;
