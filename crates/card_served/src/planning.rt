// The faults that are planned for a new card.
ghost use Rattle.std.specs.Prelude.{◌≡◌, ◌≤◌, Some, [], length};
ghost use Rattle.std.specs.List.{All};
ghost use Rattle.mmc_bus.specs.Wires.{IsUnused};
ghost use Rattle.mmc_card_sim.specs.Plan.{fault_at};
ghost use Rattle.mmc_card_sim.specs.SimView.{sim_bus_view};
ghost use Rattle.card_text.specs.Planning.{CanBePlanned};

use mmc_card_sim::{Fault, SimCard};

/// Plans faults, each for the exchange with its number, for a card that has made no exchange.
pub fn plan_all(card: &mut SimCard, plan: &[(u64, Fault)])
    requires planned { CanBePlanned plan.now }
    requires unused { IsUnused (sim_bus_view card.old) }
    requires unplanned { card.old.plan ≡ [] }
    ensures planned { All (λ p. fault_at card.new.plan p.0 ≡ Some p.1) plan.now }
    ensures no_others { length card.new.plan ≤ length plan.now }
    ensures stays { card.new ≡ record card.old { plan = card.new.plan } }
{
    for (exchange, fault) in plan {
        let _planned = card.plan(*exchange, *fault);
    }
}
