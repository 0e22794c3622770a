//! The messages of the network block device protocol, fixed newstyle, with simple replies (`doc/proto.md` of the NBD project). All
//! numbers are big-endian.
//!
//! Nothing is read or written here: each function gives the bytes of a message, or what bytes say.
#![tactic(auto)]

mod command;
mod error;
mod export;
mod greetings;
mod option;
mod option_replies;
mod reply;
mod request;

pub use command::Command;
pub use error::ReplyError;
pub use export::{
    Abilities, BLOCK_SIZE, LARGEST_BLOCK, block_size_info, export_answer, export_info,
};
pub use greetings::{ClientFlags, client_flags_in, greeting};
pub use option::{OptionHeader, OptionKind, option_in};
pub use option_replies::{OptionReply, name_length, option_reply};
pub use reply::simple_reply;
pub use request::{RequestHeader, request_in};
