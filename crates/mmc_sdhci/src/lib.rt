//! A driver of an SD host controller, over a trait of register accesses (SD Host Controller Simplified Specification 3.00). Blocks go by
//! DMA (ADMA2, or SDMA) where its port lends memory, and otherwise by programmed I/O.
#![tactic(auto)]

mod busy;
mod clock;
mod command;
mod data;
mod dma;
mod ending;
mod following;
mod ios;
mod mover;
mod moving;
mod offsets;
mod registers;
mod sdhci;
mod settling;
mod start;
mod tables;
mod watching;
mod with_blocks;

pub use clock::base_clock;
pub use command::{has_data, register_in};
pub use dma::{Dma, crosses_none, has_dma};
pub use following::{Following, following_of};
pub use mover::Mover;
pub use offsets::{CAPABILITIES, POWER, PRESENT};
pub use registers::Registers;
pub use sdhci::Sdhci;
pub use start::{StartFault, limits_in};
pub use tables::{Line, Table};
