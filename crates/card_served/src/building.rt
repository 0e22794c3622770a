// The card that is served: a new one in memory, with the faults that are planned for it.
ghost use Rattle.std.specs.Prelude.{◌≡◌, IfErr, IfOk, IsOk, None};
ghost use Rattle.mmc_card_sim.specs.CardSpec.{refusal_within};
ghost use Rattle.mmc_card_rows.specs.declared.store.TheConstants.{MAX_LARGE};
ghost use Rattle.mmc_card_sim.specs.declared.spec.TheConstants.{MAX_SECTORS};
ghost use Rattle.card_served.specs.New.{IsNew, IsWhyUnbuilt};
ghost use Rattle.card_text.specs.Planning.{CanBePlanned};

use crate::fault::ServeFault;
use crate::planning::plan_all;
use mmc_card_sim::{CardSpec, Fault, SimCard};
use std::alloc::Global;

/// The card of a spec after power on, with these faults planned for its exchanges.
///
/// # Errors
/// `Register`, `ImageSize` or `NoMemory`, as `SimCard::build` has it.
pub fn built(alloc: Global, spec: CardSpec, plan: &[(u64, Fault)]) -> Result<SimCard, ServeFault>
    requires { CanBePlanned plan.now }
    ensures taken { IsOk result → refusal_within MAX_SECTORS spec ≡ None }
    ensures new { IfOk result (IsNew spec plan.now) }
    ensures err { IfErr result (λ fault. IsWhyUnbuilt MAX_SECTORS spec fault) }
{
    let mut card = SimCard::build(alloc, spec)?;
    plan_all(&mut card, plan);
    Ok(card)
}

/// As `built`, for a card as large as `SimCard::build_large` takes it.
///
/// # Errors
/// Those of `built`.
pub fn built_large(
    alloc: Global,
    spec: CardSpec,
    plan: &[(u64, Fault)],
) -> Result<SimCard, ServeFault>
    requires { CanBePlanned plan.now }
    ensures taken { IsOk result → refusal_within MAX_LARGE spec ≡ None }
    ensures new { IfOk result (IsNew spec plan.now) }
    ensures err { IfErr result (λ fault. IsWhyUnbuilt MAX_LARGE spec fault) }
{
    let mut card = SimCard::build_large(alloc, spec)?;
    plan_all(&mut card, plan);
    Ok(card)
}
