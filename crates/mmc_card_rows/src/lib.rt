//! The chip of a card in memory: its registers and sectors, and what it does at each exchange, in a fault or without one.
#![tactic(auto)]

mod answer;
mod block_rows;
mod chip;
mod command;
mod delays;
mod erase_rows;
mod fault;
mod fault_rows;
mod frames;
mod identify_rows;
mod registers;
mod status_bits;
mod store;
mod switch_rows;
mod transfer_rows;

pub use answer::Answer;
pub use chip::{Addresses, Chip, PATIENCE, Source};
pub use command::command_of;
pub use delays::{Delays, Refusal};
pub use fault::{CommandError, Outcome, is_of_execution};
pub use registers::{KindRegisters, MmcRegisters, Registers, SdRegisters};
pub use store::{MAX_LARGE, Store};
