// What proofs note of a queue's calls. Nothing here has bytes, or does anything at run time.
ghost use Rattle.std.specs.Borrow.{ftrue};
ghost use Rattle.std.specs.Prelude.{◌++◌, ◌∷◌, [], List, Ok, ℕ};
ghost use Rattle.mmc_block.specs.Clients.Told.{Cancelled, Submitted};
ghost use Rattle.mmc_block.specs.Clients as Clients;
ghost use Rattle.mmc_slots.specs.Slots.{request_by, request_of};
ghost use Rattle.mmc_slots.specs.declared.slot.Slot as Held;
ghost use Rattle.kelifandro.specs.History.{joined};
ghost use Rattle.kelifandro.specs.Queues.{answers_by, cancelled_so, ended, memory_of};

use ghost_diary::{Noted, Seen};
use mmc_direct::Asked;
use mmc_slots::{CancelFault, Slot};
use std::marker::Model;

/// What lies in the memory of clients, one after the other by ticket, as proofs see it.
#[derive(Drop)]
pub struct Lent {
    ghost lent: { List (List ℕ) },
}

impl Model for Lent {
    ghost Value = { List (List ℕ) };

    ghost view = { λ seen. seen.lent };

    ghost also_owns = { λ _. ftrue };
}

/// Slots, as proofs see them.
#[derive(Drop)]
pub struct Slots {
    ghost slots: { List Held.Slot },
}

impl Model for Slots {
    ghost Value = { List Held.Slot };

    ghost view = { λ seen. seen.slots };

    ghost also_owns = { λ _. ftrue };
}

/// Replies, the first one first.
#[derive(Drop)]
pub struct Replies {
    ghost replies: { List Clients.Told },
}

impl Model for Replies {
    ghost Value = { List Clients.Told };

    ghost view = { λ seen. seen.replies };

    ghost also_owns = { λ _. ftrue };
}

// Slots that are shown.
#[derive(Drop)]
pub(crate) struct ShownSlots<'a> {
    pub(crate) slots: &'a [Slot],
}

impl Noted<Slots> for ShownSlots<'_> {
    ghost says = { λ shown. shown.slots.now };
}

// Nobody has lent anything.
#[derive(Drop)]
pub(crate) struct NothingLent;

impl Noted<Lent> for NothingLent {
    ghost says = { λ _. [] };
}

// No reply.
#[derive(Drop)]
pub(crate) struct NoReply;

impl Noted<Replies> for NoReply {
    ghost says = { λ _. [] };
}

// A client lends these blocks with the next request.
#[derive(Drop)]
pub(crate) struct Lending<'a> {
    pub(crate) before: &'a Seen<Lent>,
    pub(crate) blocks: &'a [[u8; 512]],
}

impl Noted<Lent> for Lending<'_> {
    ghost says = { λ note. note.before.now ++ joined note.blocks.now ∷ [] };
}

// A request was accepted.
#[derive(Drop)]
pub(crate) struct Accepted<'a> {
    pub(crate) before: &'a Seen<Replies>,
    pub(crate) client: u32,
    pub(crate) asked: &'a Asked,
    pub(crate) blocks: &'a [[u8; 512]],
    pub(crate) ticket: u64,
}

impl Noted<Replies> for Accepted<'_> {
    ghost says = { λ note. note.before.now ++ Submitted note.client (request_by note.asked.now.kind note.asked.now.part note.asked.now.start
        note.asked.now.count (joined note.blocks.now)) (Ok note.ticket) ∷ [] };
}

// A request was given back, or wasn't.
#[derive(Drop)]
pub(crate) struct Cancellation<'a> {
    pub(crate) before: &'a Seen<Replies>,
    pub(crate) lent: &'a Seen<Lent>,
    pub(crate) ticket: u64,
    pub(crate) cancelled: &'a Result<Slot, CancelFault>,
}

impl Noted<Replies> for Cancellation<'_> {
    ghost says = { λ note. note.before.now ++ cancelled_so (memory_of note.lent.now) note.ticket note.cancelled.now ∷ [] };
}

// Those in service have their answers, by this number, or are to be served alone.
#[derive(Drop)]
pub(crate) struct Ending<'a> {
    pub(crate) before: &'a Seen<Replies>,
    pub(crate) is_answered: bool,
    pub(crate) number: i32,
    pub(crate) after: &'a Seen<Lent>,
    pub(crate) slots: &'a Seen<Slots>,
}

impl Noted<Replies> for Ending<'_> {
    ghost says = { λ note. note.before.now
        ++ ended note.is_answered (answers_by note.number (memory_of note.after.now) note.slots.now) };
}
