//! The rules of requests: what they ask for, which are refused, what they change, and their limits.
#![tactic(auto)]

mod asked;
mod kind;
mod limits;
mod refused;
mod rules;

pub use asked::Asked;
pub use kind::Kind;
pub use limits::{ATTEMPTS, ATTEMPTS_OF_A_GROUP, MAX_COUNT};
pub use refused::Refused;
pub use rules::{change_refusal, sectors_refusal};
