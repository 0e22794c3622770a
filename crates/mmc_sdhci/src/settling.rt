// Waits until a reset is over, and until the internal clock is stable.
ghost use Rattle.mmc_sdhci.specs.Accesses.{IsStill, Stays};
ghost use Rattle.mmc_sdhci.specs.Beside.{IsBeside, waited_on};
ghost use Rattle.mmc_sdhci.specs.Settling.{IsResetting, IsStabilizing, ResetEnds, Stabilizes};

use crate::offsets::{CLOCK, RESET};
use crate::registers::Registers;

// 100 ms for a reset, and 150 ms for the clock.
const RESET_LOOKS: u32 = 1000;

const CLOCK_LOOKS: u32 = 1500;

const BETWEEN_LOOKS: u32 = 100;

/// Waits until a reset is over.
pub fn settle_reset<R: Registers>(registers: &mut R)
    requires { IsResetting (R.view registers.old) }
    ensures { ResetEnds (R.view registers.old) (R.view registers.new) }
{
    for _look in 0..RESET_LOOKS {
        if registers.read8(RESET) == 0 {
            return;
        }
        registers.pause(BETWEEN_LOOKS);
    }
    registers.read8(RESET);
}

/// Waits until the internal clock is stable.
pub fn settle_clock<R: Registers>(registers: &mut R)
    requires { IsStabilizing (R.view registers.old) }
    ensures { Stabilizes (R.view registers.old) (R.view registers.new) }
{
    for _look in 0..CLOCK_LOOKS {
        if registers.read8(CLOCK) / 2 % 2 == 1 {
            return;
        }
        registers.pause(BETWEEN_LOOKS);
    }
    registers.read8(CLOCK);
}

/// Waits for so many microseconds, where nothing settles and no card starts.
pub fn pause<R: Registers>(registers: &mut R, micros: u32)
    requires { IsStill (R.view registers.old) }
    ensures stays { Stays (R.view registers.old) (R.view registers.new) }
    ensures waited { IsBeside (R.view registers.new) (waited_on (R.beside registers.old) micros) (R.beside registers.new) }
{
    registers.pause(micros);
}
