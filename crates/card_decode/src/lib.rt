//! The registers of SD cards and eMMC devices in words: reads one, or a frame, from hexadecimal digits, and writes a line
//! for each of a register's fields (SD Physical Layer 6.00, sections 4.10 and 5; JESD84-B51, sections 6.13 and 7).
#![tactic(auto)]

mod bits;
mod capacity;
mod check;
mod digits;
mod fault;
mod field;
mod frame;
mod line;
mod meaning;
mod put;
mod read;
mod register;
mod summary;
mod tables;

pub use fault::HexFault;
pub use field::{Field, Meaning, Name, Scale};
pub use frame::Frame;
pub use put::{put_fields, put_register};
pub use read::{read_frame, read_register};
pub use register::Register;
