//! Exchanges between host and card in words: what a command asks for, what its response tells, what became of a block.
#![tactic(auto)]

mod argument;
mod block;
mod command;
mod exchange;
mod fault;
mod frame;
mod halves;
mod line;
mod lines;
mod long_frame;
mod response;
mod settling;
mod status;
mod step;
mod words;

pub use command::put_command;
pub use exchange::{KnownCard, announces_application_command, put_exchange};
pub use fault::put_fault;
pub use frame::put_frame;
pub use halves::{put_command_half, put_reply_half};
pub use line::{COLUMN, Note, Numbered, put_line};
pub use lines::put_lines;
pub use long_frame::put_long_frame;
pub use response::put_reply;
pub use settling::{Phase, fails, phase_after, phase_of};
pub use status::put_status;
pub use step::{Step, steps};
