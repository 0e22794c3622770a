//! The card in memory that a command serves: the files that say what it is, the new card with the faults that are planned for it,
//! what is saved of it, and why it isn't served.
#![tactic(auto)]

mod building;
mod fault;
mod files;
mod inputs;
mod planning;
mod ruled;
mod saving;
mod stats;
mod whole_file;

pub use building::{built, built_large};
pub use fault::ServeFault;
pub use files::{named_file, named_new_file, opened, path_of, stream};
pub use inputs::{card_in, image_front, whole};
pub use ruled::rules_given;
pub use saving::save;
pub use stats::{put_fell, put_healed, put_stats};
pub use whole_file::{WholeFile, begun_where_named};
