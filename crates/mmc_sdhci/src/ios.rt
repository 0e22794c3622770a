// Lines and clock.
ghost use Rattle.std.specs.Prelude.{◌<◌, ◌≡◌};
ghost use Rattle.mmc_host.specs.HostStates.{lines_of};
ghost use Rattle.mmc_host.specs.Hosts.{IsWithin};
ghost use Rattle.mmc_host.specs.declared.data.Data.TheVariants.{Nothing};
ghost use Rattle.mmc_sdhci.specs.Accesses.{IsAtRest};
ghost use Rattle.mmc_sdhci.specs.Controller.{limits_of};
ghost use Rattle.mmc_sdhci.specs.Driver.{IsBaseClock, SetsLines};
ghost use Rattle.mmc_sdhci.specs.Moving.{WhereKept};

use crate::clock::set_clock;
use crate::offsets::CONTROL;
use crate::registers::Registers;
use crate::start::control_of;
use mmc_host::Ios;

/// Sets lines and clock between two commands.
pub fn set_lines<R: Registers>(registers: &mut R, base: u32, version: u8, ios: Ios)
    requires rest { IsAtRest (R.view registers.old) }
    requires idle { WhereKept (R.view registers.old) ((R.view registers.old).transfer ≡ Nothing) }
    requires within { WhereKept (R.view registers.old) (IsWithin (lines_of ios) (limits_of (R.view registers.old).built)) }
    requires base { IsBaseClock base version (R.view registers.old) }
    requires small { base < 256 }
    ensures { SetsLines (R.view registers.old) ios (R.view registers.new) }
{
    registers.write8(CONTROL, control_of(ios.lines(), None));
    set_clock(registers, base, version, ios.max_clock());
}
