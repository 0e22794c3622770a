//! Exchanges between host and card as a waveform: what the lines CMD and DAT0 to DAT7 show in each clock, with the CRC16 of
//! every data line, and a bus that draws them as a Value Change Dump (IEEE 1364-2005, section 18).
//!
//! A command and its response stand on CMD as their frames have them, and a block on one, four or eight data lines (SD Physical
//! Layer 6.00, sections 3.6.1 and 4; JESD84-B51, sections 5 and 6). Between them lines are idle for as many clocks as the
//! definitions in `specs/` say, which are no times of a real card.
#![tactic(auto)]

mod block_wave;
mod command_wave;
mod header;
mod labels;
pub mod laws;
mod line_check;
mod line_checks;
mod phase;
mod sample;
mod wave_bus;
mod wave_writer;

pub use line_check::line_check_of;
pub use sample::Sample;
pub use wave_bus::WaveBus;
