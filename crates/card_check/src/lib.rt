//! Every fault of a card file, a script and an image, in words: what was found, and what was expected; why a card isn't opened;
//! and notes on what is no mistake.
#![tactic(auto)]

mod card;
mod cause;
mod fault;
mod fault_notes;
mod finding;
mod image;
mod key;
mod knowledge;
mod missing;
mod opening;
mod registers;
mod request_notes;
mod script;
mod size_note;
mod stray;
mod unopened;
mod unopened_text;

pub use card::check_card;
pub use fault::CheckFault;
pub use fault_notes::{can_fall, put_fault_notes};
pub use image::{check_image, most_bytes};
pub use knowledge::info_of;
pub use opening::check_opening;
pub use registers::check_registers;
pub use request_notes::{hosts_refuse_alike, put_request_notes, refusal};
pub use script::check_script;
pub use size_note::put_size_note;
pub use unopened::{Unopened, why_unopened};
pub use unopened_text::{put_sentence, put_unopened};
