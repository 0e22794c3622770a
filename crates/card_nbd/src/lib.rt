//! A card in memory, with the faults that a card file plans, as a network block device on standard input and output.
#![tactic(auto)]

mod fault;
mod files;
mod options;
mod serving;

pub use fault::NbdFault;
pub use options::nbd_command;
pub use serving::nbd;
