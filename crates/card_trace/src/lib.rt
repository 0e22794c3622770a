//! A printed trace read again: the exchange of each of its lines, what it tells of the card, and the lines with words after them, or as JSON.
#![tactic(auto)]

mod exchange_line;
mod known;
mod lines;

pub use exchange_line::read_exchange;
pub use known::known_after;
pub use lines::{Form, put_trace};
