//! What a host controller is told of a command: its response, and the data after it.
//!
//! A controller wants a command decoded, with the kind of its response, and direction, length and number of the blocks after
//! it. All of that follows from the frame, from CMD55 before it, and from the count that CMD23 has preset.
#![tactic(auto)]

mod data;
mod host;
mod host_bus;
pub mod laws;
mod limits;
mod meaning;
mod noting;
mod replies;
mod response;
mod told;
mod work;

pub use data::{Data, data_of};
pub use host::Host;
pub use host_bus::HostBus;
pub use meaning::meant;
pub use response::{Response, response_of};
pub use told::{Heard, HostCommand, HostState, Ios, ResponseFault};
pub use work::Work;
