//! Pictures of exchanges between a host and a card.
#![tactic(auto)]

mod arrow;
mod column;
mod escape;
mod fault;
mod label;
pub mod laws;
mod message;
mod page;
mod row;
mod sequence;
mod table;
mod timing;
mod words;

pub use escape::put_escaped;
pub use message::Message;
pub use page::{Page, put_page};
pub use sequence::{MAX_ROWS, put_sequence};
pub use timing::put_timing;
