//! A device as a network block device: the negotiation of an export, and its requests, over one input and one output.
#![tactic(auto)]

mod answers;
mod data;
mod desk;
mod export;
mod fault;
mod input;
mod long;
mod names;
mod negotiation;
mod plan;
mod session;
mod span;

pub use desk::Desk;
pub use export::Export;
pub use fault::{InputFault, OutputFault, SessionFault};
pub use names::{PARTS, part_by, part_name};
pub use session::serve;
