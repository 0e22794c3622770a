// Counts attempts that are over. Never inlined: each would take room of its own in the callers' stack.
ghost use Rattle.std.specs.Prelude.{◌≡◌};
ghost use Rattle.mmc_recovery.specs.Healed.{with_attempt, with_failure};

use mmc_bus::Cause;
use mmc_recovery::Healed;

/// One that is done.
#[inline(never)]
pub fn count_done(healed: &mut Healed)
    ensures { healed.new ≡ with_attempt healed.old }
{
    *healed = healed.attempted();
}

/// One that has failed, for this cause.
#[inline(never)]
pub fn count_failed(healed: &mut Healed, cause: Cause)
    ensures { healed.new ≡ with_failure cause (with_attempt healed.old) }
{
    *healed = healed.attempted().met(cause);
}
