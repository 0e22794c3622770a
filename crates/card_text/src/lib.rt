//! The text of card files and scripts, and of the lines that are printed of requests and their answers.
#![tactic(auto)]

pub mod card_file;
pub mod card_line;
mod card_spec;
pub mod cut;
mod data;
pub mod event;
pub mod fault;
pub mod fault_text;
pub mod hexadecimal;
pub mod input;
pub mod laws;
pub mod line;
pub mod number;
pub mod output;
pub mod script;
mod short_line;
pub mod text_line;
