// Which request goes into service next.
ghost use Rattle.std.specs.Prelude.{◌&&◌, ◌==◌, ◌≡◌, MatchOption};
ghost use Rattle.mmc_queue.specs.Rule.{NoneMay, comes_first, may_join, passes_none};
ghost use Rattle.mmc_slots.specs.Slots.{Memory, entries_in, entry_of};
ghost use Rattle.mmc_slots.specs.Search.{IsFirst, IsNext, NoneIn};
ghost use Rattle.mmc_slots.specs.declared.slot.TheConstants.{WAITS};

use crate::slot::{Slot, WAITS, slot_at};
use mmc_queue::{Extent, conflicts};

// Whether one waits, came before the other and conflicts with it.
fn is_before(other: &Slot, slot: &Slot) -> bool
    ensures { (memory : Memory) → result
        ≡ ((other.now.state == WAITS) && comes_first (entry_of memory other.now) (entry_of memory slot.now)) }
{
    other.state == WAITS && (other.ticket < slot.ticket && conflicts(&other.asked(), &slot.asked()))
}

// Whether none that waits came before this one and conflicts with it.
fn passes_none(slots: &[Slot], slot: &Slot) -> bool
    ensures { (memory : Memory) → result ≡ passes_none (entry_of memory slot.now) (entries_in memory WAITS slots.now) }
{
    for k in 0..slots.len() {
        if is_before(&slot_at(slots, k), slot) {
            return false;
        }
    }
    true
}

// Whether it waits and may join.
fn can_join(slots: &[Slot], extent: &Extent, most: u64, slot: &Slot) -> bool
    ensures { (memory : Memory) → result
        ≡ ((slot.now.state == WAITS) && may_join most extent.now (entries_in memory WAITS slots.now) (entry_of memory slot.now)) }
{
    slot.state == WAITS && (extent.fits(most, &slot.asked()) && passes_none(slots, slot))
}

// The first of those that wait and may join. Where tickets ascend it has the lowest.
pub(crate) fn find(slots: &[Slot], extent: &Extent, most: u64) -> Option<usize>
    ensures { (memory : Memory) → MatchOption result
        (NoneMay most extent.now (entries_in memory WAITS slots.now) (entries_in memory WAITS slots.now))
        (IsNext memory most extent.now slots.now) }
{
    for k in 0..slots.len() {
        if can_join(slots, extent, most, &slot_at(slots, k)) {
            return Some(k);
        }
    }
    None
}

// The first slot of this state.
pub(crate) fn first_in(slots: &[Slot], state: u8) -> Option<usize>
    ensures { MatchOption result (NoneIn state slots.now) (IsFirst state slots.now) }
{
    for k in 0..slots.len() {
        if slot_at(slots, k).state == state {
            return Some(k);
        }
    }
    None
}
