//! What a board knows of its SD host controller in place of the controller: that it takes accesses of whole words alone, that a card is
//! always there, or what it can where it doesn't say so.
#![tactic(auto)]

mod board;
mod known;
mod words;

pub use board::Board;
pub use known::{Known, Slot, byte_in, with_byte, word_at};
pub use words::Words;
