ghost use Rattle.std.specs.Prelude.{◌≡◌, ◌+◌, ◌<◌, ◌≤◌, ◌^◌};
ghost use Rattle.mmc_queue.specs.Requests.{asked_of};
ghost use Rattle.mmc_queue.specs.Rule.{extent_of, fits, widened};
ghost use Rattle.mmc_queue.specs.declared.request.Request.{Request};

use mmc_bus::Part;
use mmc_requests::{Asked, Kind};

/// The most requests of a group.
pub const MAX_GROUP: usize = 16;

/// The sectors that the requests of a group are together: one after the other, without a gap.
#[derive(Clone, Copy, Debug)]
pub struct Extent {
    /// Their partition.
    pub part: Part,
    /// What is done with them.
    pub kind: Kind,
    /// The first sector.
    pub start: u64,
    /// The sector after the last one.
    pub end: u64,
    /// How many requests they are of.
    pub members: usize,
}

impl Extent {
    /// The sectors of a request that asks for this.
    pub fn of(asked: &Asked) -> Extent
        requires { asked.now.start + asked.now.count < 2 ^ 64 }
        ensures { (request : Request) → asked.now ≡ asked_of request → result ≡ extent_of request }
    {
        Extent {
            part: asked.part,
            kind: asked.kind,
            start: asked.start,
            end: asked.start + asked.count,
            members: 1,
        }
    }

    /// Whether a request that asks for this stands at one of its ends, is of its partition and kind, and keeps the limits with
    /// it: `MAX_GROUP` requests, and so many sectors at most.
    pub fn fits(&self, most: u64, asked: &Asked) -> bool
        ensures { (request : Request) → asked.now ≡ asked_of request → result ≡ fits most self.now request }
    {
        let (start, count) = (asked.start as u128, asked.count as u128);
        let is_alike = asked.part == self.part && asked.kind == self.kind;
        let is_beside = start == self.end as u128 || start + count == self.start as u128;
        let has_room = self.members < MAX_GROUP
            && self.end as u128 + count <= self.start as u128 + most as u128;
        is_alike && self.kind.can_merge() && (is_beside && has_room)
    }

    /// With a request that asks for this, and stands at one of its ends.
    pub fn widened(self, asked: &Asked) -> Extent
        requires inside { asked.now.start + asked.now.count < 2 ^ 64 }
        requires few { self.members < MAX_GROUP }
        ensures { (request : Request) → asked.now ≡ asked_of request → result ≡ widened self request }
    {
        if asked.start == self.end {
            Extent {
                end: asked.start + asked.count,
                members: self.members + 1,
                ..self
            }
        } else {
            Extent {
                start: asked.start,
                members: self.members + 1,
                ..self
            }
        }
    }

    // The sector that stands so many after the first.
    pub(crate) fn sector(self, i: usize) -> u64
        requires { self.start + i < self.end }
        ensures { result ≡ self.start + i }
    {
        self.start + i as u64
    }
}
