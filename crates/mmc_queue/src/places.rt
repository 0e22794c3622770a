// Where requests are found by their sectors.
ghost use Rattle.std.specs.Prelude.{◌&&◌, ◌||◌, ◌≡◌, ◌≤◌, ◌^◌, OnErr, OnOk, false, not, true};
ghost use Rattle.mmc_queue.specs.Requests.{end_of};
ghost use Rattle.mmc_queue.specs.Places.{is_place_of, place_of, shows};
ghost use Rattle.mmc_queue.specs.declared.place.Place.{Place};

use crate::entry::Entry;
use crate::place::{Edge, Place};
use mmc_bus::NoMemory;
use std::alloc::Global;
use std::collections::BTreeSet;

impl Place {
    // Where an entry stands by an edge of its request.
    fn of(edge: Edge, entry: &Entry) -> Place
        requires { end_of entry.now.request ≤ 2 ^ 32 }
        ensures { result ≡ place_of edge entry.now }
    {
        let request = &entry.request;
        Place {
            part: request.part(),
            kind: request.kind(),
            edge,
            sector: match edge {
                Edge::Start => request.start(),
                Edge::End => request.start() + request.count(),
            },
            ticket: entry.ticket,
        }
    }
}

/// The places of requests that wait: each has two, by its first sector and by the one after its last.
#[derive(Drop)]
pub struct Places {
    pub(crate) items: BTreeSet<Place>,
}

impl Places {
    pub(crate) fn new(alloc: Global) -> Places
        ensures { (q : Place) → shows result.items q ≡ false }
    {
        Places {
            items: BTreeSet::new(alloc),
        }
    }

    // Puts both places of an entry in, or neither.
    pub(crate) fn insert(&mut self, entry: &Entry) -> Result<(), NoMemory>
        requires inside { end_of entry.now.request ≤ 2 ^ 32 }
        requires absent { (q : Place) → is_place_of entry.now q ≡ true → shows self.old.items q ≡ false }
        ensures ok { OnOk result ((q : Place) → shows self.new.items q ≡ (is_place_of entry.now q || shows self.old.items q)) }
        ensures err { OnErr result ((q : Place) → shows self.new.items q ≡ shows self.old.items q) }
    {
        let start = Place::of(Edge::Start, entry);
        self.items.insert(start)?;
        match self.items.insert(Place::of(Edge::End, entry)) {
            Ok(_) => Ok(()),
            Err(_) => {
                self.items.remove(&start);
                Err(NoMemory)
            }
        }
    }

    // Takes both places of an entry out.
    pub(crate) fn remove(&mut self, entry: &Entry)
        requires { end_of entry.now.request ≤ 2 ^ 32 }
        ensures { (q : Place) → shows self.new.items q ≡ (not (is_place_of entry.now q) && shows self.old.items q) }
    {
        self.items.remove(&Place::of(Edge::Start, entry));
        self.items.remove(&Place::of(Edge::End, entry));
    }

    // Takes all places out.
    pub(crate) fn clear(&mut self)
        ensures { (q : Place) → shows self.new.items q ≡ false }
    {
        self.items.clear();
    }
}
