ghost use Rattle.std.specs.Prelude.{◌≡◌, ◌<◌, ◌≤◌, ◌^◌, ◌∷◌, List, [], insert, false, true, IfSome, MatchOption};
ghost use Rattle.arrayvec.specs.ArrayVec.{array_vec_len};
ghost use Rattle.mmc_queue.specs.Group.{IsFair, IsJoined};
ghost use Rattle.mmc_queue.specs.Requests.{end_of};
ghost use Rattle.mmc_queue.specs.Rule.{Grows, IsGroup, extent_of, widened, with_member};
ghost use Rattle.mmc_queue.specs.Waiting.{IsSound};
ghost use Rattle.mmc_queue.specs.declared.entry.Entry.{Entry};
ghost use Rattle.mmc_queue.specs.declared.extent.TheConstants.{MAX_GROUP};
ghost use Rattle.mmc_requests.specs.declared.limits.TheConstants.{MAX_COUNT};

use crate::entry::Entry;
use crate::extent::{Extent, MAX_GROUP};
use crate::queue::Queue;
use arrayvec::ArrayVec;
use mmc_bus::Part;
use mmc_requests::Kind;
use std::alloc::Global;

/// Entries that are served together, by ticket.
pub type Members = ArrayVec<Entry, MAX_GROUP, Global>;

/// Requests of one partition and kind that are served as one extent.
#[derive(Drop)]
pub struct Group {
    /// The requests, by ticket.
    pub members: Members,
    /// The sectors that they are together.
    pub extent: Extent,
}

// Where an entry with this ticket goes among members by ticket.
fn index_for(members: &Members, ticket: u64) -> usize
    ensures fits { result ≤ array_vec_len members.now }
    ensures goes { (e : Entry) → e.ticket ≡ ticket → insert members.now.items result e ≡ with_member members.now.items e }
{
    for k in 0..members.len() {
        if ticket < members[k].ticket {
            return k;
        }
    }
    members.len()
}

impl Group {
    /// A group without a request, to take some later. It takes no memory.
    pub fn none(alloc: Global) -> Group
        ensures { result.members.items ≡ [] }
    {
        Group {
            members: ArrayVec::new_in(alloc),
            extent: Extent {
                part: Part::User,
                kind: Kind::Read,
                start: 0,
                end: 0,
                members: 0,
            },
        }
    }

    /// Takes one request, which is all of the group then. It takes no memory.
    pub fn take_alone(&mut self, entry: Entry)
        requires none { self.old.members.items ≡ [] }
        requires sound { IsSound entry }
        ensures members { self.new.members.items ≡ entry ∷ [] }
        ensures extent { self.new.extent ≡ extent_of entry.request }
        ensures joined { IsJoined self.new.members.items self.new.extent }
    {
        self.extent = Extent::of(&entry.request.asked());
        self.members.push(entry);
    }

    // Lets a request join.
    fn join(&mut self, entry: Entry)
        requires few { array_vec_len self.old.members < MAX_GROUP }
        requires counted { self.old.extent.members ≡ array_vec_len self.old.members }
        requires inside { end_of entry.request ≤ 2 ^ 32 }
        ensures members { self.new.members.items ≡ with_member self.old.members.items entry }
        ensures extent { self.new.extent ≡ widened self.old.extent entry.request }
        ensures counted { self.new.extent.members ≡ array_vec_len self.new.members }
    {
        self.extent = self.extent.widened(&entry.request.asked());
        let index = index_for(&self.members, entry.ticket);
        self.members.insert(index, entry);
    }
}

impl Queue {
    // Lets one request after another join a group, until none may.
    fn grow(&mut self, group: &mut Group)
        requires counted { group.old.extent.members ≡ array_vec_len group.old.members }
        requires some { 0 < group.old.extent.members }
        requires few { group.old.extent.members ≤ MAX_GROUP }
        ensures { (waits : List Entry) → Grows MAX_COUNT waits group.old.members.items group.old.extent self.old
            → IsGroup MAX_COUNT waits group.new.members.items group.new.extent self.new }
    {
        for _joined in 0..MAX_GROUP {
            let Some(ticket) = self.find(&group.extent) else {
                return;
            };
            let Ok(entry) = self.take(ticket) else {
                unreachable!()
            };
            group.join(entry);
        }
    }

    /// Takes out the requests that are served next, into a group that has none. A group begins with the oldest request, and
    /// the others of its partition and kind that stand at an end of its extent join it, each time the lowest ticket of those
    /// that may: the extent stays within `MAX_GROUP` requests and `MAX_COUNT` sectors, and no request joins before an earlier
    /// one outside the group that it conflicts with. An erase or a trim is alone. The answer says whether there are some: it
    /// is no just where nothing waits. It takes no memory.
    pub fn next_into(&mut self, group: &mut Group) -> bool
        requires { group.old.members.items ≡ [] }
        ensures fair { result ≡ true → IsFair self.old group.new.members.items group.new.extent self.new }
        ensures rule { result ≡ true → IsGroup MAX_COUNT self.old group.new.members.items group.new.extent self.new }
        ensures none { result ≡ false → (self.old ≡ []) × (self.new ≡ []) × (group.new.members.items ≡ []) }
    {
        let Some(oldest) = self.take_oldest() else {
            return false;
        };
        group.take_alone(oldest);
        self.grow(group);
        true
    }

    /// The same as a group of its own, or nothing where nothing waits.
    pub fn next_group(&mut self) -> Option<Group>
        ensures fair { IfSome result (λ g. IsFair self.old g.members.items g.extent self.new) }
        ensures rule { MatchOption result ((self.old ≡ []) × (self.new ≡ []))
            (λ g. IsGroup MAX_COUNT self.old g.members.items g.extent self.new) }
    {
        let mut group = Group::none(self.alloc);
        if self.next_into(&mut group) {
            Some(group)
        } else {
            None
        }
    }
}
