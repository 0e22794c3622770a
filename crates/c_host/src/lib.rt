//! Hosts that C implements: a controller told of decoded commands, or the registers of an SD host controller.
//!
//! Each operation is a record that is written to a numbered stream, and what comes of it is read from there. Who links the
//! library gives the two functions that stand behind writing and reading code of his own (`c/kelifandro.c`): no file is opened.
#![tactic(auto)]

mod diary;
mod functions;
mod given;
mod kinds;
mod lending;
mod lent;
mod records;
mod registers;
mod stream;
mod way;

pub use diary::{Call, Diary, Note};
pub use functions::CFunctions;
pub use given::{Given, WayRecord, given_by, kinds_by, most_by};
pub use kinds::Kinds;
pub use lending::Lent;
pub use lent::SectorsMut;
pub use registers::CRegisters;
pub use stream::Stream;
pub use way::Way;
