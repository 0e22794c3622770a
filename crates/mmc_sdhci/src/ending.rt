// What is left of commands and data is lost.
ghost use Rattle.std.specs.Prelude.{◌≡◌, false};
ghost use Rattle.mmc_host.specs.declared.data.Data.TheVariants.{Nothing};
ghost use Rattle.mmc_sdhci.specs.Accesses.{IsAtRest};
ghost use Rattle.mmc_sdhci.specs.Commands.{KeepsSettings};
ghost use Rattle.mmc_sdhci.specs.Controller.{Settled};
ghost use Rattle.mmc_sdhci.specs.Driver.{IsLost, IsSameCard};
ghost use Rattle.mmc_sdhci.specs.Moving.{WhereKept};

use crate::command::lose_all;
use crate::registers::Registers;
use mmc_card::laws::{
    a_step_counts_few_faults, a_step_keeps_what_a_card_is_made_with,
    a_step_narrows_what_sectors_may_hold, a_step_of_a_run_leaves_the_card_standing,
};

/// Resets command line and data line, where something may be left.
pub fn lose_rest<R: Registers>(registers: &mut R, is_left: bool)
    requires rest { IsAtRest (R.view registers.old) }
    requires left { is_left ≡ false → WhereKept (R.view registers.old) ((R.view registers.old).transfer ≡ Nothing) }
    ensures rest { IsAtRest (R.view registers.new) }
    ensures keeps { KeepsSettings (R.view registers.old) (R.view registers.new) }
    ensures lost { Settled (R.view registers.old) (IsLost (R.view registers.old) (R.view registers.new)) (R.view registers.new) }
    ensures same { Settled (R.view registers.old)
        ((R.view registers.old).transfer ≡ Nothing → IsSameCard (R.view registers.old) (R.view registers.new))
        (R.view registers.new) }
{
    a_step_keeps_what_a_card_is_made_with();
    a_step_narrows_what_sectors_may_hold();
    a_step_of_a_run_leaves_the_card_standing();
    a_step_counts_few_faults();
    if !is_left {
        return;
    }
    lose_all(registers);
}
