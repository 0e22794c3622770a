//! What a card is and may do: its commands, the exchanges of a host with it, and the laws of its steps.
#![tactic(auto)]

pub mod card_laws;
mod command;
mod command_row;
mod exchange;
pub mod laws;
mod part;
mod response;

pub use command::{Command, is_addressed, leaves_erase, may_find, wanted};
pub use command_row::{Carried, CommandRow, row_of};
pub use exchange::{DataIn, DataOut, Exchange, Lines, Reply, Timing, Want, Width};
pub use part::Part;
pub use response::Response;
