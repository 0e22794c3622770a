ghost use Rattle.std.specs.Prelude.{◌≡◌, ◌≢◌, ◌++◌, ◌+◌, ◌∷◌, ◌≤◌, [], OnErr, OnOk, length, ℕ};
ghost use Rattle.mmc_slots.specs.Slots.{AreFreeFrom, AreOrdered, Memory, entries_in, entry_of, in_state, taken};
ghost use Rattle.mmc_slots.specs.declared.slot.TheConstants.{FREE, WAITS};

use crate::slot::{FREE, Slot, WAITS, put_state, slot_at};
use thiserror::Error;

/// All slots are taken.
#[derive(Clone, Copy, Debug, PartialEq, Eq, Error)]
#[error("all slots are taken")]
pub struct Full;

// The first slot from which all are free.
fn room(slots: &[Slot]) -> usize
    ensures most { result ≤ length slots.now }
    ensures free { AreFreeFrom result slots.now }
{
    let mut room = 0;
    for k in 0..slots.len() {
        let slot = slot_at(slots, k);
        if slot.state != FREE {
            room = k + 1;
        }
    }
    room
}

// Moves the requests to the first slots, in their order, and tells how many there are. The other slots are free then.
fn close_gaps(slots: &mut [Slot]) -> usize
    ensures same { taken slots.new ≡ taken slots.old }
    ensures count { result ≡ length (taken slots.old) }
    ensures most { result ≤ length slots.new }
    ensures free { AreFreeFrom result slots.new }
{
    let mut to = 0;
    for from in 0..slots.len() {
        let slot = slot_at(slots, from);
        if slot.state != FREE {
            put_state(slots, from, FREE);
            slots[to] = slot;
            to += 1;
        }
    }
    to
}

// The first slot from which all are free, after gaps before it are closed if it must be.
fn make_room(slots: &mut [Slot]) -> usize
    ensures same { taken slots.new ≡ taken slots.old }
    ensures most { result ≤ length slots.new }
    ensures free { AreFreeFrom result slots.new }
    ensures full { result ≡ length slots.new → length (taken slots.old) ≡ length slots.old }
{
    let room = room(slots);
    if room < slots.len() {
        return room;
    }
    close_gaps(slots)
}

/// Lets a request wait, after all others: they keep their order, in slots that may be others.
///
/// # Errors
/// All slots are taken. Nothing has changed then.
pub fn push(slots: &mut [Slot], request: Slot) -> Result<(), Full>
    ensures taken { OnOk result (taken slots.new ≡ taken slots.old ++ in_state WAITS request ∷ []) }
    ensures waits { OnOk result ((memory : Memory)
        → entries_in memory WAITS slots.new ≡ entries_in memory WAITS slots.old ++ entry_of memory request ∷ []) }
    ensures others { (memory : Memory) (state : ℕ) → state ≢ FREE → state ≢ WAITS
        → entries_in memory state slots.new ≡ entries_in memory state slots.old }
    ensures ordered { OnOk result (AreOrdered request.ticket slots.old → AreOrdered (request.ticket + 1) slots.new) }
    ensures full { OnErr result (taken slots.old ≡ slots.old) }
    ensures unchanged { OnErr result (slots.new ≡ slots.old) }
{
    let place = make_room(slots);
    if place == slots.len() {
        return Err(Full);
    }
    slots[place] = Slot {
        state: WAITS,
        ..request
    };
    Ok(())
}
