//! The frames of the SD and eMMC bus, and the card status.
//!
//! A command goes to the card as six bytes with a CRC7, and most responses come back in the same form; a register of
//! 128 bits comes back in seventeen bytes (SD Physical Layer 6.00, section 4; JESD84-B51, section 6).
#![tactic(auto)]

mod addressing;
mod card_state;
mod check;
mod command;
pub mod commands;
mod fault;
mod frame;
mod kind;
pub mod laws;
mod register_response;
mod response;
mod status;
pub mod status_bits;

pub use addressing::Addressing;
pub use card_state::State;
pub use command::{encode, read_command};
pub use fault::FrameFault;
pub use kind::Kind;
pub use register_response::{check_fits, encode_r2, encode_r3, read_r2, read_r3, with_check};
pub use response::{R6, R7, encode_response, read_r1, read_r6, read_r7};
pub use status::{Status, errors, is_at_work, is_clean, own_status, state};

#[cfg(test)]
mod tests;
