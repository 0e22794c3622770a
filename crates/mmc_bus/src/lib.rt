//! The bus between a host and one card: the trait that a host stack drives, the host's calls, and what they tell.
#![tactic(auto)]

mod blocks;
mod bus;
mod bytes;
mod cause;
mod data;
pub mod erase_laws;
mod exchange_text;
mod host;
pub mod identify_laws;
mod memory;
mod moved;
mod scripted;
mod status;
pub mod switch_laws;
mod together;
mod trace;
pub mod transfer_laws;
mod wait;
mod wire;

pub use blocks::{Blocks, BlocksMut};
pub use bus::Bus;
pub use bytes::{Bytes, lent_bytes_keep_their_length};
pub use cause::Cause;
pub use data::{offer, receive};
pub use exchange_text::write_exchange;
pub use host::{
    Unheard, ask, ask_moving, ask_ocr, ask_register, poll, read_block, tell, write_block,
};
pub use memory::NoMemory;
pub use mmc_card::{DataIn, DataOut, Exchange, Lines, Part, Reply, Timing, Want, Width, card_laws};
pub use moved::Moved;
pub use scripted::{BusAnswer, ScriptedBus};
pub use status::{
    Closing, ask_closing, check_closing, check_own, check_r1, confirm, rca_argument,
    wait_and_confirm,
};
pub use together::{ask_reading, ask_writing};
pub use trace::{MAX_KEPT, TraceBus};
pub use wait::{MAX_POLLS, count_polls, wait_while_busy};
pub use wire::Wire;
