//! Recovery: bringing a card back in order after a failure.
#![tactic(auto)]

mod healed;
mod order;
mod reopening;
mod settling;

pub use healed::Healed;
pub use order::{EXCHANGES_OF_A_PATIENT_RESTORATION, EXCHANGES_OF_A_RESTORATION, Patience};
pub use reopening::ROUNDS_OF_A_PATIENT_RESET;
pub use settling::{EXCHANGES_OF_A_PATIENT_SETTLE, EXCHANGES_OF_A_SETTLE, settle, settle_with};
