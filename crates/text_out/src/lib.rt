//! Text to any writer: bytes, decimal numbers, hexadecimal digits and longest repeats, with a contract that says
//! what went out, also after a fault.
//!
//! One function touches the writer, `put`. It takes an `Err` of a write as it comes, so that an interrupted write
//! is a fault, and passes it on. After a fault a prefix of the text went out.
#![tactic(auto)]

mod hex;
pub mod laws;
mod pieces;
pub mod put;
mod repeats;

pub use pieces::{Piece, put_pieces};
