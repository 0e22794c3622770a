// Exchanges with what those before them say of them.
ghost use Rattle.std.specs.Prelude.{IfOk, false, ◌≡◌};
ghost use Rattle.card_explain.specs.Settling.{is_settled, steps_from};
ghost use Rattle.card_explain.specs.declared.settling.Phase.TheVariants.{Transfer};

use crate::exchange::announces_application_command;
use crate::line::Numbered;
use crate::settling::{Phase, phase_after, phase_of};
use mmc_frame::Kind;
use std::alloc::{AllocError, Global};

/// An exchange with what those before it say of it.
#[derive(Clone, Copy, Debug, PartialEq, Eq)]
pub struct Step {
    /// The exchange, with its number and the fault that is planned for it.
    pub numbered: Numbered,
    /// Whether the exchange before it announced an application command.
    pub is_app: bool,
    /// The phase that it belongs to.
    pub phase: Phase,
    /// Whether it is the first one after the card was settled: what failed begins again, or another request.
    pub is_settled: bool,
}

// Whether settling has ended between these phases.
fn is_settled(before: Phase, phase: Phase) -> bool
    ensures { result ≡ is_settled before phase }
{
    match (before, phase) {
        (Phase::Settling, Phase::Transfer) => true,
        _ => false,
    }
}

/// These exchanges, which follow each other, each with what those before it say of it. The first one is taken as of a card with
/// which nothing has failed.
///
/// # Errors
/// `AllocError` where memory is refused.
#[tactic(auto, unfolding(crate::specs::Settling::steps_from))]
pub fn steps(alloc: Global, kind: Kind, exchanges: &[Numbered]) -> Result<Vec<Step>, AllocError>
    ensures { IfOk result (λ steps. steps.items ≡ steps_from kind false Transfer exchanges.now) }
{
    let mut steps = Vec::new(alloc);
    let mut is_app = false;
    let mut left = Phase::Transfer;
    for numbered in exchanges {
        let phase = phase_of(left, &numbered.exchange);
        steps.push(Step {
            numbered: *numbered,
            is_app,
            phase,
            is_settled: is_settled(left, phase),
        })?;
        is_app = announces_application_command(&numbered.exchange);
        left = phase_after(kind, phase, &numbered.exchange);
    }
    Ok(steps)
}
