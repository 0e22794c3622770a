// What goes into service.
ghost use Rattle.std.specs.Prelude.{◌<◌, ◌≡◌, ◌≤◌, ◌↔◌, ◌^◌, [], IfNone, IfSome, IsNone, MatchOption, ℕ};
ghost use Rattle.mmc_block.specs.Machine.{Machine};
ghost use Rattle.mmc_card.specs.Sectors.{Sets};
ghost use Rattle.mmc_requests.specs.declared.limits.TheConstants.{MAX_COUNT};
ghost use Rattle.mmc_slots.specs.Slots.{AreOrdered, Memory, entries_in};
ghost use Rattle.mmc_slots.specs.Started.{IsIdle};
ghost use Rattle.mmc_slots.specs.Work.{work_left};
ghost use Rattle.mmc_slots.specs.declared.slot.TheConstants.{TOGETHER};
ghost use Rattle.mmc_switch.specs.declared.info.Info.{Info};
ghost use Rattle.mmc_turns.specs.Agrees.{Agrees};
ghost use Rattle.mmc_turns.specs.Serving.{HasStarted};

use crate::laws::a_start_agrees;
use mmc_queue::laws::one_is_joined;
use mmc_slots::{Extent, Slot};

/// Lets the requests that are served next go into service, as `mmc_slots::start`, where none is: it is a turn of the sector machine
/// without an answer.
pub fn start(slots: &mut [Slot], most: u64) -> Option<Extent>
    ensures machine { (info : Info) (memory : Memory) (next : ℕ) (card : Sets) (machine : Machine)
        → Agrees info memory slots.old next card machine → next < 2 ^ 64 → most ≤ MAX_COUNT
        → entries_in memory TOGETHER slots.old ≡ []
        → MatchOption result (slots.new ≡ slots.old) (λ extent. HasStarted info memory slots.new extent next card machine) }
    ensures less { (memory : Memory) (next : ℕ) → AreOrdered next slots.old → entries_in memory TOGETHER slots.old ≡ []
        → IfSome result (λ extent. work_left slots.new < work_left slots.old) }
    ensures idle { (memory : Memory) → IsNone result ↔ IsIdle memory slots.old }
    ensures unchanged { IfNone result (slots.new ≡ slots.old) }
{
    a_start_agrees();
    one_is_joined();
    mmc_slots::start(slots, most)
}
