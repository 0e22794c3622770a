//! The stack for C: a card is opened, read, written, erased and trimmed by a call each (`c/kelifandro.h`). Without a heap.
#![tactic(auto)]

mod answers;
mod asked;
mod calls;
mod closing;
mod did;
mod example;
mod exports;
mod history;
mod hosts;
pub mod laws;
mod longs;
mod noting;
mod opening;
mod queue;
mod queue_exports;
mod queue_noting;
mod queues;
mod request;
mod requests;
