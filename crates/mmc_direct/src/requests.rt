// Requests, one at a time.
ghost use Rattle.std.specs.Prelude.{◌≡◌, ◌*◌, ◌+◌, ◌-◌, ◌≤◌, length, true};
ghost use Rattle.mmc_bus.specs.Lending.{IsRewritten};
ghost use Rattle.mmc_erase.specs.declared.how.How.{How};
ghost use Rattle.mmc_switch.specs.Info.{lasting};
ghost use Rattle.mmc_direct.specs.Attempts.{erasing, moving};
ghost use Rattle.mmc_requests.specs.Changes.{erased_at, written_at};
ghost use Rattle.mmc_direct.specs.Healing.{HasHealed};
ghost use Rattle.mmc_requests.specs.Kinds.{kind_of_how};
ghost use Rattle.mmc_direct.specs.Refusal.{refusal};
ghost use Rattle.mmc_direct.specs.Requests.{HasChanged, HasRead};
ghost use Rattle.mmc_requests.specs.declared.kind.Kind.TheVariants.{Read, Write};
ghost use Rattle.mmc_requests.specs.declared.limits.TheConstants.{ATTEMPTS};
ghost use Rattle.mmc_direct.specs.Served.{AnswersBy, IfLeft, IfRefused, IfServed, IsCausedIn, refusal_in};
ghost use Rattle.mmc_switch.specs.Stands.{StandsIn, info_of};

use crate::erasing::Erasing;
use crate::reading::Reading;
use crate::served::Served;
use crate::serving::serve;
use crate::writing::Writing;
use mmc_bus::{Blocks, BlocksMut, Bus, Part};
use mmc_erase::How;
use mmc_recovery::Healed;
use mmc_switch::Stands;

/// Reads these blocks, 1 to 65,535, from this sector of a partition on, in at most four attempts: each settles the card where
/// something has failed, selects the partition where another one is selected, and makes the run. What the blocks hold is open
/// unless it is done.
pub fn read<B: Bus, D: BlocksMut>(
    bus: &mut B,
    healed: &mut Healed,
    stands: Stands,
    part: Part,
    start: u64,
    blocks: &mut D,
) -> Served
    ensures refused { refusal_in result.answer ≡ refusal Read (info_of stands) part start (length (D.blocks blocks.old)) }
    ensures untouched { IfRefused result.answer ((bus.new ≡ bus.old) × (result.stands ≡ stands) × (blocks.new ≡ blocks.old)) }
    ensures answer { AnswersBy result.answer result.stands }
    ensures uncounted { IfRefused result.answer (healed.new ≡ healed.old) }
    ensures healed { IfServed result.answer (HasHealed ATTEMPTS stands healed.old result.stands healed.new) }
    ensures info { lasting (info_of result.stands) ≡ lasting (info_of stands) }
    ensures count { length (D.blocks blocks.new) ≡ length (D.blocks blocks.old) }
    ensures lent { IsRewritten D.blocks D.with blocks.old blocks.new }
    ensures bounded { (B.view bus.new).exchanges ≤ (B.view bus.old).exchanges + ATTEMPTS * moving (length (D.blocks blocks.old)) }
    ensures cause { IfLeft result.answer result.stands (λ broken. IsCausedIn ((ATTEMPTS - 1) * moving (length (D.blocks blocks.old))) broken
        (B.view bus.old) (B.view bus.new)) }

    ensures kept { (B.view bus.new).is_kept ≡ true → (B.view bus.old).is_kept ≡ true }
    ensures served { (B.view bus.new).is_kept ≡ true → StandsIn stands (B.view bus.old)
        → HasRead ATTEMPTS part start (D.blocks blocks.new) (B.view bus.old) result (B.view bus.new) }
{
    let mut reading = Reading {
        part,
        start,
        blocks,
    };
    serve(bus, healed, stands, &mut reading)
}

/// Writes these blocks, 1 to 65,535, from this sector of a partition on, in attempts as `read`. Where it has failed each sector
/// that is named is old or new. No other may hold more than it might before.
pub fn write<B: Bus, D: Blocks>(
    bus: &mut B,
    healed: &mut Healed,
    stands: Stands,
    part: Part,
    start: u64,
    blocks: &D,
) -> Served
    ensures refused { refusal_in result.answer ≡ refusal Write (info_of stands) part start (length (D.blocks blocks.now)) }
    ensures untouched { IfRefused result.answer ((bus.new ≡ bus.old) × (result.stands ≡ stands)) }
    ensures answer { AnswersBy result.answer result.stands }
    ensures uncounted { IfRefused result.answer (healed.new ≡ healed.old) }
    ensures healed { IfServed result.answer (HasHealed ATTEMPTS stands healed.old result.stands healed.new) }
    ensures info { lasting (info_of result.stands) ≡ lasting (info_of stands) }
    ensures bounded { (B.view bus.new).exchanges ≤ (B.view bus.old).exchanges + ATTEMPTS * moving (length (D.blocks blocks.now)) }
    ensures cause { IfLeft result.answer result.stands (λ broken. IsCausedIn ((ATTEMPTS - 1) * moving (length (D.blocks blocks.now))) broken
        (B.view bus.old) (B.view bus.new)) }

    ensures kept { (B.view bus.new).is_kept ≡ true → (B.view bus.old).is_kept ≡ true }
    ensures served { (B.view bus.new).is_kept ≡ true → StandsIn stands (B.view bus.old)
        → HasChanged ATTEMPTS (written_at part start (D.blocks blocks.now)) (B.view bus.old) result (B.view bus.new) }
{
    let mut writing = Writing {
        part,
        start,
        blocks,
    };
    serve(bus, healed, stands, &mut writing)
}

/// Erases or trims so many sectors, 1 or more, in attempts as `read`: an erase gives up whole erase units, the last of which may end
/// with the partition, a trim each sector by itself, of a card that trims. They hold the card's erased byte then. Where it has failed
/// each of them is as before or erased. No other may hold more than it might before.
pub fn erase<B: Bus>(
    bus: &mut B,
    healed: &mut Healed,
    stands: Stands,
    part: Part,
    start: u64,
    count: u64,
    how: How,
) -> Served
    ensures refused { refusal_in result.answer ≡ refusal (kind_of_how how) (info_of stands) part start count }
    ensures untouched { IfRefused result.answer ((bus.new ≡ bus.old) × (result.stands ≡ stands)) }
    ensures answer { AnswersBy result.answer result.stands }
    ensures uncounted { IfRefused result.answer (healed.new ≡ healed.old) }
    ensures healed { IfServed result.answer (HasHealed ATTEMPTS stands healed.old result.stands healed.new) }
    ensures info { lasting (info_of result.stands) ≡ lasting (info_of stands) }
    ensures bounded { (B.view bus.new).exchanges ≤ (B.view bus.old).exchanges + ATTEMPTS * erasing }
    ensures cause { IfLeft result.answer result.stands (λ broken. IsCausedIn ((ATTEMPTS - 1) * erasing) broken
        (B.view bus.old) (B.view bus.new)) }

    ensures kept { (B.view bus.new).is_kept ≡ true → (B.view bus.old).is_kept ≡ true }
    ensures served { (B.view bus.new).is_kept ≡ true → StandsIn stands (B.view bus.old)
        → HasChanged ATTEMPTS (erased_at (info_of stands) part start count) (B.view bus.old) result (B.view bus.new) }
{
    let mut erasing = Erasing {
        part,
        start,
        count,
        how,
    };
    serve(bus, healed, stands, &mut erasing)
}
