ghost use Rattle.std.specs.Prelude.{◌<◌, ◌||◌, ◌≡◌, ◌≢◌, [], false, length, nat_le, true, ℕ};
ghost use Rattle.mmc_slots.specs.Slots.{AreOrdered, Memory, SameButStates, UnknownStay, entries_in};
ghost use Rattle.mmc_slots.specs.Served.{IsAnswered, IsSplit, all_moved_on};
ghost use Rattle.mmc_slots.specs.Work.{work_left};
ghost use Rattle.mmc_slots.specs.declared.slot.TheConstants.{ALONE, TOGETHER};

use crate::slot::{ALONE, FREE, Slot, TOGETHER, put_state, slot_at};

// How many are in service together.
fn count_together(slots: &[Slot]) -> usize
    ensures { (memory : Memory) → result ≡ length (entries_in memory TOGETHER slots.now) }
{
    let mut count = 0;
    for k in 0..slots.len() {
        if slot_at(slots, k).state == TOGETHER {
            count += 1;
        }
    }
    count
}

// Those in service together get this state.
fn put_all(slots: &mut [Slot], state: u8)
    ensures { slots.new ≡ all_moved_on state slots.old }
{
    for k in 0..slots.len() {
        if slot_at(slots, k).state == TOGETHER {
            put_state(slots, k, state);
        }
    }
}

/// Ends the service of those that are in service together, by whether the request for them is done. Where it is, or they are one alone,
/// they have their answers, and leave: the answer is yes. Several that failed are to be served alone from then on, in order.
pub fn conclude(slots: &mut [Slot], is_done: bool) -> bool
    ensures which { (memory : Memory) → result ≡ (is_done || nat_le (length (entries_in memory TOGETHER slots.old)) 1) }
    ensures answered { result ≡ true → (memory : Memory) → IsAnswered memory slots.old slots.new }
    ensures split { result ≡ false → (memory : Memory)
        → entries_in memory ALONE slots.old ≡ [] → IsSplit memory slots.old slots.new }
    ensures less { (memory : Memory) → entries_in memory TOGETHER slots.old ≢ []
        → (result ≡ false → entries_in memory ALONE slots.old ≡ []) → work_left slots.new < work_left slots.old }
    ensures unknown { (memory : Memory) → UnknownStay memory slots.old slots.new }
    ensures same { SameButStates slots.old slots.new }
    ensures ordered { (next : ℕ) → AreOrdered next slots.old → AreOrdered next slots.new }
{
    let is_answered = is_done || count_together(slots) <= 1;
    put_all(slots, if is_answered { FREE } else { ALONE });
    is_answered
}
