//! The EXT_CSD of an eMMC device, and the sizes of its partitions (JESD84-B51, section 7.4).
#![tactic(auto)]

mod ext_csd;
mod fault;
mod partition;

pub use ext_csd::ExtCsd;
pub use fault::ExtFault;
pub use mmc_frame::Addressing;
pub use partition::existing_sectors;

#[cfg(test)]
mod tests;
