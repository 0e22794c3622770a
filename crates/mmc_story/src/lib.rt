//! What is assumed of a host controller and its card, stated once: a story, which tells what became of the card.
//!
//! No proof can know the hardware. A `StoryHost` is a driver with a diary of what it did, which exists only in proofs, and it is
//! kept as long as the story is true of the diary. Code that is generic over the story has every contract of the crates above
//! as "where controller and card have conformed, so that a story is true, ..".
#![tactic(auto)]

mod diary;
mod host;
pub mod laws;
mod story;

pub use diary::{Call, Diary, HostStep, Note, Seen, SeenState};
pub use host::{StoryBus, StoryHost};
pub use story::HasStory;
