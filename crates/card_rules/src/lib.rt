//! Faults by rules, which are planned as exchanges come: each third CMD13, a sector that can't be read, one exchange in a hundred.
#![tactic(auto)]

mod moment;
mod rule;
mod rule_text;
mod ruled_card;
mod rules;

pub use moment::{Moment, Place, addressing_of};
pub use rule::{Rule, What, When};
pub use rule_text::read_rule;
pub use ruled_card::RuledCard;
pub use rules::{RuleFault, Rules};
