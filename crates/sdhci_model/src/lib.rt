//! A strict SD host controller in memory, over any host with its card: registers that do as `mmc_sdhci`'s definition of a controller
//! says, which is proved. It judges what a driver writes, and sends to the card only where lines, power and clock are set. Each
//! thing is over at the first look at it, a command, a block, a reset, and the wait for the internal clock, unless it is told to be
//! silent or late. A wait for interrupts ends its silence, or doesn't. Where its Capabilities have SDMA or ADMA2 it moves up to 16 blocks by itself, all of them at the first look.
#![tactic(auto)]

mod commands;
mod data;
mod dma;
mod dma_rules;
mod engine;
mod lent;
mod manner;
mod model;
mod reading;
mod resetting;
mod rules;
mod settings;
mod settling;
mod state;
mod tables;
mod waited;
mod writes;
mod writing;

pub use manner::{Line, Manner, Silence, Silent};
pub use model::{Model, driver};
