//! What is known of a card between two calls, as plain numbers that a caller keeps, and may copy, move and store. They are read
//! with a check, so that bytes of any kind do no harm, and what was noted is read back as it was.
#![tactic(auto)]

mod laws;
mod noted;
mod numbers;
mod reading;
mod record;

pub use laws::a_card_s_registers_have_their_checks;
pub use noted::{note, note_broken};
pub use numbers::{kind_of, part_of};
pub use reading::restored;
pub use record::CardRecord;
