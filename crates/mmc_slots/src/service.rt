ghost use Rattle.std.specs.Prelude.{◌≡◌, ◌≢◌, ◌∷◌, ◌<◌, ◌≤◌, ◌↔◌, List, [], IfNone, IfSome, IsNone, length, slice_set, ℕ};
ghost use Rattle.mmc_queue.specs.Rule.{Grows, IsGroup, extent_of};
ghost use Rattle.mmc_queue.specs.Waiting.{AreSound};
ghost use Rattle.mmc_queue.specs.declared.entry.Entry.{Entry};
ghost use Rattle.mmc_queue.specs.declared.extent.TheConstants.{MAX_GROUP};
ghost use Rattle.mmc_requests.specs.declared.limits.TheConstants.{MAX_COUNT};
ghost use Rattle.mmc_slots.specs.Slots.{AreOrdered, Memory, SameButStates, UnknownStay, entries_in, in_state, request_of, slot_at};
ghost use Rattle.mmc_slots.specs.Started.{IsIdle, IsReady, StartsAlone, StartsFairly, StartsGroup};
ghost use Rattle.mmc_slots.specs.Work.{work_left};
ghost use Rattle.mmc_slots.specs.declared.slot.TheConstants.{ALONE, TOGETHER, WAITS};

use crate::search::{find, first_in};
use crate::slot::{ALONE, Slot, TOGETHER, WAITS, put_state, slot_at};
use mmc_queue::laws::a_group_is_fair;
use mmc_queue::{Extent, MAX_GROUP};

// One request goes into service, and its sectors are told.
fn serve(slots: &mut [Slot], k: usize) -> Extent
    requires { k < length slots.old }
    ensures slots { slots.new ≡ slice_set slots.old k (in_state TOGETHER (slot_at slots.old k)) }
    ensures extent { (memory : Memory) → result ≡ extent_of (request_of memory (slot_at slots.old k)) }
{
    let extent = Extent::of(&slot_at(slots, k).asked());
    put_state(slots, k, TOGETHER);
    extent
}

// Lets one request after another join those in service, until none may.
fn grow(slots: &mut [Slot], extent: Extent, most: u64) -> Extent
    requires some { 0 < extent.members }
    requires few { extent.members ≤ MAX_GROUP }
    ensures group { (memory : Memory) (next : ℕ) (waits : List Entry) → AreOrdered next slots.old
        → Grows most waits (entries_in memory TOGETHER slots.old) extent (entries_in memory WAITS slots.old)
        → IsGroup most waits (entries_in memory TOGETHER slots.new) result (entries_in memory WAITS slots.new) }
    ensures others { (memory : Memory) (state : ℕ) → state ≢ WAITS → state ≢ TOGETHER
        → entries_in memory state slots.new ≡ entries_in memory state slots.old }
    ensures same { SameButStates slots.old slots.new }
    ensures ordered { (next : ℕ) → AreOrdered next slots.old → AreOrdered next slots.new }
{
    let mut extent = extent;
    for _joined in 0..MAX_GROUP {
        let Some(k) = find(slots, &extent, most) else {
            return extent;
        };
        extent = extent.widened(&slot_at(slots, k).asked());
        put_state(slots, k, TOGETHER);
    }
    extent
}

/// Lets the requests that are served next go into service, where none is, and tells their sectors: of those that are to be served
/// alone the first, by itself; where there is none of these, the oldest of those that wait, and its neighbours by the rule of
/// `mmc_queue`, so many sectors at most. The answer is `None` just where there is nothing to serve. Nothing has changed then.
pub fn start(slots: &mut [Slot], most: u64) -> Option<Extent>
    ensures idle { (memory : Memory) → IsNone result ↔ IsIdle memory slots.old }
    ensures unchanged { IfNone result (slots.new ≡ slots.old) }
    ensures rule { (memory : Memory) (next : ℕ) → IsReady memory next slots.old
        → IfSome result (StartsGroup memory most slots.old slots.new) }
    ensures fair { (memory : Memory) (next : ℕ) → IsReady memory next slots.old
        → AreSound (entries_in memory WAITS slots.old) → most ≤ MAX_COUNT
        → IfSome result (StartsFairly memory slots.old slots.new) }
    ensures alone { (memory : Memory) (e : Entry) (es : List Entry)
        → entries_in memory TOGETHER slots.old ≡ [] → entries_in memory ALONE slots.old ≡ e ∷ es
        → IfSome result (StartsAlone memory e es slots.old slots.new) }
    ensures less { (memory : Memory) (next : ℕ) → AreOrdered next slots.old → entries_in memory TOGETHER slots.old ≡ []
        → IfSome result (λ extent. work_left slots.new < work_left slots.old) }
    ensures unknown { (memory : Memory) → UnknownStay memory slots.old slots.new }
    ensures same { SameButStates slots.old slots.new }
    ensures ordered { (next : ℕ) → AreOrdered next slots.old → AreOrdered next slots.new }
{
    a_group_is_fair();
    if let Some(k) = first_in(slots, ALONE) {
        return Some(serve(slots, k));
    }
    let Some(k) = first_in(slots, WAITS) else {
        return None;
    };
    let extent = serve(slots, k);
    Some(grow(slots, extent, most))
}
