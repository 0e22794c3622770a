ghost use Rattle.std.specs.Prelude.{◌&&◌, ◌+◌, ◌==◌, ◌≡◌, ◌≢◌, Contains, IfErr, IfOk, OnErr, ℕ};
ghost use Rattle.mmc_queue.specs.Waiting.{Takes};
ghost use Rattle.mmc_slots.specs.Slots.{AreOrdered, Memory, SameButStates, entries_in, entry_of};
ghost use Rattle.mmc_slots.specs.Cancelled.{IsWhy, is_request};
ghost use Rattle.mmc_slots.specs.Work.{work_left};
ghost use Rattle.mmc_slots.specs.declared.slot.TheConstants.{FREE, WAITS};

use crate::slot::{ALONE, FREE, Slot, TOGETHER, WAITS, put_state, slot_at};
use thiserror::Error;

/// Why a request isn't given back.
#[derive(Clone, Copy, Debug, PartialEq, Eq, Error)]
pub enum CancelFault {
    /// No request with this ticket is without an answer.
    #[error("no such request")]
    Unknown,
    /// The request is in service.
    #[error("the request is in service")]
    InService,
}

// Whether a request without an answer has this ticket.
fn has(slot: &Slot, ticket: u64) -> bool
    ensures { result ≡ (is_request slot.now && (slot.now.ticket == ticket)) }
{
    matches!(slot.state, WAITS | TOGETHER | ALONE) && slot.ticket == ticket
}

/// Gives back a request that waits. One that is to be served alone was in service already, and isn't given back.
///
/// # Errors
/// Why it doesn't. Nothing has changed then.
pub fn cancel(slots: &mut [Slot], ticket: u64) -> Result<Slot, CancelFault>
    ensures which { IfOk result (λ s. (s.ticket ≡ ticket) × Contains slots.old s) }
    ensures waits { IfOk result (λ s. s.state ≡ WAITS) }
    ensures taken { IfOk result (λ s. (memory : Memory)
        → Takes (entries_in memory WAITS slots.old) (entry_of memory s) (entries_in memory WAITS slots.new)) }
    ensures others { (memory : Memory) (state : ℕ) → state ≢ FREE → state ≢ WAITS
        → entries_in memory state slots.new ≡ entries_in memory state slots.old }
    ensures less { IfOk result (λ s. work_left slots.new + 3 ≡ work_left slots.old) }
    ensures same { SameButStates slots.old slots.new }
    ensures ordered { (next : ℕ) → AreOrdered next slots.old → AreOrdered next slots.new }
    ensures why { IfErr result (IsWhy slots.old ticket) }
    ensures unchanged { OnErr result (slots.new ≡ slots.old) }
{
    for k in 0..slots.len() {
        let slot = slot_at(slots, k);
        if has(&slot, ticket) {
            if slot.state != WAITS {
                return Err(CancelFault::InService);
            }
            put_state(slots, k, FREE);
            return Ok(slot);
        }
    }
    Err(CancelFault::Unknown)
}
