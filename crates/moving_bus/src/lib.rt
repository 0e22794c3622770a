//! A bus that moves the blocks of a read with its command, over one that doesn't: a kept bus with `read_with`, for tests.
#![tactic(auto)]

mod moving;

pub use moving::MovingBus;
