// Which request joins a group next.
ghost use Rattle.std.specs.Prelude.{◌≡◌, ℕ, MatchOption, true};
ghost use Rattle.mmc_queue.specs.Rule.{NoneMay, comes_first, passes_none};
ghost use Rattle.mmc_queue.specs.Search.{BestMay, IsLowest, NotAbove, StandsAlike, is_better, is_lower, may_join_at};
ghost use Rattle.mmc_queue.specs.Waiting.{Ascend};
ghost use Rattle.mmc_requests.specs.declared.limits.TheConstants.{MAX_COUNT};

use crate::conflict::conflicts;
use crate::entry::Entry;
use crate::extent::Extent;
use crate::place::{Edge, Place};
use crate::queue::Queue;
use mmc_requests::MAX_COUNT;

// Whether the first entry came before the second, and they conflict.
fn comes_first(v: &Entry, e: &Entry) -> bool
    ensures { result ≡ comes_first v.now e.now }
{
    v.ticket < e.ticket && conflicts(&v.request.asked(), &e.request.asked())
}

// Whether a ticket is below the best one so far.
fn is_lower(ticket: u64, best: Option<u64>) -> bool
    ensures { result ≡ is_lower ticket best }
{
    match best {
        Some(best) => ticket < best,
        None => true,
    }
}

impl Queue {
    // Whether no request that came before an entry conflicts with it. Only those before it are looked at.
    fn passes_none(&self, entry: &Entry) -> bool
        ensures { result ≡ passes_none entry.now self.now }
    {
        for (_, other) in self.by_ticket.range(..entry.ticket) {
            if comes_first(other, entry) {
                return false;
            }
        }
        true
    }

    // Whether the entry with this ticket waits and may join.
    fn may_join(&self, extent: &Extent, ticket: u64) -> bool
        ensures { result ≡ may_join_at extent.now self.now ticket }
    {
        match self.by_ticket.get(&ticket) {
            Some(entry) => extent.fits(MAX_COUNT, &entry.request.asked())
                && self.passes_none(entry),
            None => false,
        }
    }

    // The same, and its ticket is below the best one so far. That is asked first, since it costs less.
    fn is_better(&self, extent: &Extent, ticket: u64, best: Option<u64>) -> bool
        ensures { result ≡ is_better extent.now self.now ticket best }
    {
        is_lower(ticket, best) && self.may_join(extent, ticket)
    }

    // The lowest ticket of those that may join and stand with this edge at this sector, unless the best so far is lower.
    // Only what lies in the range of the places is looked at.
    fn lower_at(&self, extent: &Extent, edge: Edge, sector: u64, best: Option<u64>) -> Option<u64>
        requires { BestMay extent.now self.now best }
        ensures ascend { Ascend 0 self.now }
        ensures may { BestMay extent.now self.now result }
        ensures not_above { (ticket : ℕ) → NotAbove best ticket → NotAbove result ticket }
        ensures lowest { (ticket : ℕ) → StandsAlike extent.now self.now edge sector ticket → may_join_at extent.now self.now ticket ≡ true → NotAbove result ticket }
    {
        let first = Place {
            part: extent.part,
            kind: extent.kind,
            edge,
            sector,
            ticket: 0,
        };
        let last = Place {
            ticket: u64::MAX,
            ..first
        };
        let mut best = best;
        for place in self.places.items.range(first..=last) {
            if self.is_better(extent, place.ticket, best) {
                best = Some(place.ticket);
            }
        }
        best
    }

    // The lowest ticket of those that may join. Where nothing waits, nothing is looked for.
    pub(crate) fn find(&self, extent: &Extent) -> Option<u64>
        ensures { MatchOption result (NoneMay MAX_COUNT extent.now self.now self.now) (λ t. IsLowest extent.now self.now t) }
    {
        if self.by_ticket.is_empty() {
            return None;
        }
        let best = self.lower_at(extent, Edge::Start, extent.end, None);
        self.lower_at(extent, Edge::End, extent.start, best)
    }
}
