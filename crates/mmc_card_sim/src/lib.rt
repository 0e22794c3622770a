//! A card in memory of any kind, which is always kept to the card relation, with the faults that are planned.
#![tactic(auto)]

pub mod example_cards;
mod fault;
mod faulty_exchanges;
mod flip;
mod judging;
mod moving;
mod plan;
mod sim_card;
mod spec;

pub use fault::{Fault, Flips};
pub use flip::is_flip;
pub use judging::{Judged, judge};
pub use mmc_card_rows::{
    CommandError, KindRegisters, MAX_LARGE, MmcRegisters, Outcome, Refusal, Registers, SdRegisters,
    is_of_execution,
};
pub use plan::{MAX_PLANNED, Plan, PlanFault, Planned};
pub use sim_card::SimCard;
pub use spec::{BuildFault, CardSpec, MAX_SECTORS};
