//! What is assumed of the registers of an SD host controller and its card, stated once: a story of accesses.
//!
//! As `mmc_story` does by the calls of a driver: `StoryRegisters` are registers with a diary of what was read and written, which
//! exists only in proofs, and are kept as long as the story is true of the diary. The driver over them is proved.
#![tactic(auto)]

mod diary;
pub mod laws;
mod registers;
mod story;

pub use diary::{Diary, Note};
pub use registers::{StoryRegisters, driver};
pub use story::HasRegisterStory;
