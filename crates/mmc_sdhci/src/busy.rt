// The card's busy signal: it holds DAT0 low.
ghost use Rattle.std.specs.Prelude.{◌≡◌, true};
ghost use Rattle.mmc_sdhci.specs.Beside.{HasWaited};
ghost use Rattle.mmc_sdhci.specs.Busy.{IsPolled, is_low, time_between};
ghost use Rattle.mmc_sdhci.specs.Accesses.{IsAtRest, IsStill, Stays};

use crate::offsets::{DATA_LEVELS, PRESENT};
use crate::registers::Registers;
use crate::settling::pause;

const BETWEEN_LOOKS: u32 = 10;

const LONGEST_PAUSE: u32 = 1000;

// For how many microseconds nobody looks once it has been waited for so many, where somebody else has use for the time: the wait is a
// quarter longer at most by that.
fn between(waited: u32) -> u32
    ensures { result ≡ time_between waited }
{
    (waited / 4).clamp(BETWEEN_LOOKS, LONGEST_PAUSE)
}

// Waits until Present State shows DAT0 high, for so many microseconds at most. There is no interrupt for it.
fn wait<R: Registers>(registers: &mut R, micros: u32)
    requires { IsStill (R.view registers.old) }
    ensures stays { Stays (R.view registers.old) (R.view registers.new) }
    ensures late { is_low (R.beside registers.new).present ≡ true
        → HasWaited (R.view registers.new) micros (R.beside registers.old) (R.beside registers.new) }
{
    let can_wait = registers.can_wait();
    let mut left = micros;
    while left >= BETWEEN_LOOKS {
        if registers.read32(PRESENT) / 0x10_0000 % 2 == 1 {
            return;
        }
        let some = if can_wait {
            between(micros - left).min(left)
        } else {
            BETWEEN_LOOKS
        };
        pause(registers, some);
        left -= some;
    }
    pause(registers, left);
}

/// Whether the card is still busy after so many microseconds. The answer comes at once where it isn't. It is one poll: the last look
/// is the one that counts. It is made once that time is over, or Present State has shown that the card isn't busy.
pub fn is_busy<R: Registers>(registers: &mut R, micros: u32) -> bool
    requires { IsAtRest (R.view registers.old) }
    ensures rest { IsAtRest (R.view registers.new) }
    ensures polled { IsPolled (R.view registers.old) result (R.view registers.new) }
    ensures late { is_low (R.beside registers.new).present ≡ true
        → HasWaited (R.view registers.new) micros (R.beside registers.old) (R.beside registers.new) }
{
    wait(registers, micros);
    registers.read8(DATA_LEVELS) / 0x10 % 2 == 0
}
