ghost use Rattle.std.specs.Prelude.{◌≡◌, ◌<◌, ◌++◌, ◌∷◌, [], length, IfOk, MatchOption, MatchResult, None, OnOk, Some};
ghost use Rattle.mmc_queue.specs.Waiting.{AreBelow, AreSound, Ascend, IsRefused, IsSound, Takes, at_ticket};

use crate::entry::Entry;
use crate::places::Places;
use crate::push_fault::PushFault;
use std::alloc::Global;
use std::collections::BTreeMap;
use std::marker::Model;
use thiserror::Error;

/// The most requests that may wait.
pub const MAX_WAITING: usize = 256;

/// No request with this ticket waits.
#[derive(Clone, Copy, Debug, PartialEq, Eq, Error)]
#[error("no request with this ticket waits")]
pub struct Unknown;

/// Requests that wait, by ticket and by their sectors. Contracts see them as the list of the entries by ticket.
#[derive(Drop)]
pub struct Queue {
    pub(crate) by_ticket: BTreeMap<u64, Entry>,
    pub(crate) places: Places,
    pub(crate) alloc: Global,
}

impl Model for Queue {
    ghost use Rattle.std.specs.Prelude.{List};
    ghost use Rattle.std.specs.BTreeMap.{values};
    ghost use Rattle.mmc_queue.specs.declared.entry.Entry.{Entry};
    ghost use Rattle.mmc_queue.specs.Mirror.{Mirrors};

    ghost Value = { List Entry };

    ghost view = { λ q. values q.by_ticket };

    ghost invariant = { λ q. Mirrors q.by_ticket q.places.items };
}

impl Queue {
    /// Nothing waits. It takes no memory.
    pub fn new(alloc: Global) -> Queue
        ensures { result ≡ [] }
    {
        Queue {
            by_ticket: BTreeMap::new(alloc),
            places: Places::new(alloc),
            alloc,
        }
    }

    /// How many wait.
    pub fn len(&self) -> usize
        ensures { result ≡ length self.now }
    {
        self.by_ticket.len()
    }

    /// Lets an entry wait, after all others, or hands it back. All memory that its waiting takes is taken here.
    ///
    /// # Errors
    /// The first refusal that holds in the order of `PushFault`, with the entry; the queue is as before then.
    pub fn push(&mut self, entry: Entry) -> Result<(), (Entry, PushFault)>
        requires last { AreBelow entry.ticket self.old }
        requires sound { IsSound entry }
        ensures room { OnOk result (length self.old < MAX_WAITING) }
        ensures pushed { MatchResult result (λ _. self.new ≡ self.old ++ entry ∷ []) (λ e. (self.new ≡ self.old) × (e.0 ≡ entry) × IsRefused e.1 (length self.old)) }
    {
        if self.by_ticket.len() >= MAX_WAITING {
            return Err((entry, PushFault::Full));
        }
        let Ok(()) = self.places.insert(&entry) else {
            return Err((entry, PushFault::NoMemory));
        };
        match self.by_ticket.insert(entry.ticket, entry) {
            Ok(_) => Ok(()),
            Err(refused) => {
                let (_, entry) = refused.value;
                self.places.remove(&entry);
                Err((entry, PushFault::NoMemory))
            }
        }
    }

    /// Takes the entry with this ticket out. It takes no memory.
    ///
    /// # Errors
    /// `Unknown` where no such entry waits; the queue is as before then.
    pub fn take(&mut self, ticket: u64) -> Result<Entry, Unknown>
        ensures sound { IfOk result IsSound }
        ensures taken { MatchResult result (λ e. (e.ticket ≡ ticket) × (at_ticket ticket self.old ≡ Some e) × Takes self.old e self.new) (λ _. (at_ticket ticket self.old ≡ None) × (self.new ≡ self.old)) }
    {
        match self.by_ticket.remove(&ticket) {
            Some(entry) => {
                self.places.remove(&entry);
                Ok(entry)
            }
            None => Err(Unknown),
        }
    }

    // Takes the oldest entry out. Where it was the only one, no place is looked for.
    pub(crate) fn take_oldest(&mut self) -> Option<Entry>
        ensures ascend { Ascend 0 self.old }
        ensures sound { AreSound self.old }
        ensures taken { MatchOption result ((self.old ≡ []) × (self.new ≡ [])) (λ e. self.old ≡ e ∷ self.new) }
    {
        let Some((_, entry)) = self.by_ticket.pop_first() else {
            return None;
        };
        if self.by_ticket.is_empty() {
            self.places.clear();
            return Some(entry);
        }
        self.places.remove(&entry);
        Some(entry)
    }
}
