//! The commands of `cardtool` beside `serve`: what their words say, and what they print.
#![tactic(auto)]

mod check;
mod commands;
mod decode;
mod fault;
mod help;
mod hint;
mod make;
mod mistake;
mod texts;

pub use commands::{CommandName, run};
pub use hint::put_hint;
pub use mistake::{put_mistake, put_unknown};
