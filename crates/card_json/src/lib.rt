//! What `cardtool` says of a card as JSON (RFC 8259), an object on a line: exchanges, answers, and the lines of a register.
#![tactic(auto)]

mod answer;
mod exchange;
mod field;
mod object;
mod said;
mod words;

pub use answer::put_answer;
pub use exchange::{put_exchange, put_step};
pub use field::put_fields;
pub use object::put_object;
pub use said::{Member, Said};
