// Polling until the card isn't busy any more.
ghost use Rattle.std.specs.Prelude.{◌+◌, ◌<◌, ◌≡◌, ◌≤◌, IfOk, IsOk, IsOkAnd, false, true};
ghost use Rattle.mmc_card.specs.Blocks.{HasRested, rested};
ghost use Rattle.mmc_card.specs.Card.{is_selected, patience};
ghost use Rattle.mmc_bus.specs.Learned.{may_fail};
ghost use Rattle.mmc_bus.specs.Work.{Ends, Narrows, Works};

use crate::bus::Bus;
use crate::cause::Cause;
use crate::host::poll;

/// How often a card may say that it is busy, before a wait is given up. Without a fault fifteen times are enough.
pub const MAX_POLLS: u64 = 16;

/// How many polls are answered yes before one is answered no, `MAX_POLLS` polls at most. A no is believed as far as the card
/// is selected still and holds no error, which its next status tells; of a card that neither programs nor accepts blocks
/// it is believed as far as it is selected.
///
/// # Errors
/// `Busy` where the card still is at the last poll.
pub fn count_polls<B: Bus>(bus: &mut B) -> Result<u64, Cause>
    ensures ends { Ends MAX_POLLS (B.view bus.old) result (B.view bus.new) }
    ensures few { IfOk result (λ polls. (polls < MAX_POLLS)
        × ((B.view bus.new).exchanges ≤ (B.view bus.old).exchanges + polls + 1)) }
    ensures lines { (B.view bus.new).lines ≡ (B.view bus.old).lines }
    ensures works { Works Narrows
        (λ old new. IsOk result → is_selected new.card.state ≡ true → new.card.errors ≡ 0 → HasRested old.card new.card)
        (λ old new. old.card.polled ≡ 0 → IsOkAnd result
        (λ polls. (polls ≤ patience) × (new.card ≡ rested (record old.card { polled = polls }))))
        (B.view bus.old) (B.view bus.new) }
    ensures calm { (B.view bus.new).is_kept ≡ true → IsOk result → is_selected (B.view bus.new).card.state ≡ true
        → may_fail (B.view bus.old).card ≡ false → HasRested (B.view bus.old).card (B.view bus.new).card }
{
    for polls in 0..MAX_POLLS {
        if !poll(bus) {
            return Ok(polls);
        }
    }
    Err(Cause::Busy)
}

/// Polls until the card isn't busy, as `count_polls`.
///
/// # Errors
/// `Busy` where it still is at the last poll.
pub fn wait_while_busy<B: Bus>(bus: &mut B) -> Result<(), Cause>
    ensures ends { Ends MAX_POLLS (B.view bus.old) result (B.view bus.new) }
    ensures lines { (B.view bus.new).lines ≡ (B.view bus.old).lines }
    ensures works { Works Narrows
        (λ old new. IsOk result → is_selected new.card.state ≡ true → new.card.errors ≡ 0 → HasRested old.card new.card)
        (λ old new. old.card.polled ≡ 0 → IsOk result × HasRested old.card new.card)
        (B.view bus.old) (B.view bus.new) }
    ensures calm { (B.view bus.new).is_kept ≡ true → IsOk result → is_selected (B.view bus.new).card.state ≡ true
        → may_fail (B.view bus.old).card ≡ false → HasRested (B.view bus.old).card (B.view bus.new).card }
{
    count_polls(bus).map(|_| ())
}
