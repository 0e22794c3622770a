//! The registers of SD and eMMC cards: OCR, CID, CSD, SCR and the switch status.
//!
//! A register is a whole number, and each reader gives one of its fields (SD Physical Layer 6.00, section 5;
//! JESD84-B51, section 7).
#![tactic(auto)]

mod bits;
mod cid;
mod csd;
mod csd_fields;
mod fault;
mod ocr;
mod scr;
mod switch_status;

pub use cid::{Cid, read_cid};
pub use csd::{Csd, read_csd};
pub use csd_fields::{CsdMmc, CsdV1, CsdV2};
pub use fault::RegFault;
pub use ocr::Ocr;
pub use scr::Scr;
pub use switch_status::SwitchStatus;

#[cfg(test)]
mod tests;
