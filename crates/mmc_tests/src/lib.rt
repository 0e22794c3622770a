//! Tests of the driver's layers over buses that lie: the trace, identification, width and speed, runs of blocks, erases,
//! settling and the device; over a host controller, with the table of what it is told; and of requests one at a time.
//! What a card in memory shows else, `tests/cases` has.
//! Nothing else stands here: a crate that has tests is proved twice, and so are these alone.
#![tactic(auto)]

#[cfg(test)]
mod cards;
#[cfg(test)]
mod device;
#[cfg(test)]
mod direct;
#[cfg(test)]
mod erase;
#[cfg(test)]
mod host_bus;
#[cfg(test)]
mod host_table;
#[cfg(test)]
mod identify;
#[cfg(test)]
mod known_faults;
#[cfg(test)]
mod lagging;
#[cfg(test)]
mod protected;
#[cfg(test)]
mod settle;
#[cfg(test)]
mod trace;
#[cfg(test)]
mod transfer;
#[cfg(test)]
mod widen;
