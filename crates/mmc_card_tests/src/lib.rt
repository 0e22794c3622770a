//! Tests of the card in memory by its public calls: commands that the driver doesn't send, and faults that no driver lets be
//! seen. Nothing else stands here: a crate that has tests is proved twice, and so are these alone.
#![tactic(auto)]

#[cfg(test)]
mod cards;
#[cfg(test)]
mod choices;
#[cfg(test)]
mod commands;
#[cfg(test)]
mod faults;
#[cfg(test)]
mod opening;
