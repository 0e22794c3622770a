// The clock of the card (SD Host Controller Simplified Specification 3.00, sections 2.2.14 and 3.2).
ghost use Rattle.std.specs.Prelude.{◌%◌, ◌*◌, ◌+◌, ◌-◌, ◌<◌, ◌≡◌, ◌≤◌, ◌^◌};
ghost use Rattle.mmc_sdhci.specs.Controller.{base_clock, divider_in, divisor};
ghost use Rattle.mmc_sdhci.specs.Driver.{IsBaseClock, IsSteady, SetsClock};

use crate::offsets::CLOCK;
use crate::registers::Registers;
use crate::settling::settle_clock;

// The longest timeout of data, in Timeout Control; the driver's own looks end sooner.
const TIMEOUT: u32 = 0xe_0000;

/// The base clock in MHz, by Capabilities; 0 where they don't say. Before version 3.00 there are six bits for it, so more than 63 says
/// nothing.
pub fn base_clock(capabilities: u32, version: u8) -> u32
    ensures value { result ≡ base_clock capabilities version }
    ensures small { result < 256 }
{
    let told = capabilities / 0x100 % 256;
    if version < 2 && told > 63 { 0 } else { told }
}

// The least divider that is enough, where the base clock is too fast.
fn least_divider(base: u32, most: u32) -> u32
    requires base { base < 256 }
    requires least { 400000 ≤ most }
    requires most { most < 1000000 * base }
    ensures enough { 1000000 * base ≤ most * (2 * result) }
    ensures some { 1 ≤ result }
    ensures fits { result < 512 }
{
    (base * 1_000_000 - 1) / (2 * most) + 1
}

// The divider; before version 3.00 it is a power of two.
fn divider(base: u32, version: u8, most: u32) -> u32
    requires base { base < 256 }
    requires least { 400000 ≤ most }
    requires most { most ≤ 50000000 }
    ensures enough { 1000000 * base ≤ most * divisor result }
    ensures fits { result < 1024 }
{
    if base * 1_000_000 <= most {
        return 0;
    }
    let least = least_divider(base, most);
    if version < 2 {
        least.next_power_of_two()
    } else {
        least
    }
}

// Clock Control with this divider.
fn word_of(divider: u32) -> u32
    requires { divider < 1024 }
    ensures divider { divider_in (result + 5) ≡ divider }
    ensures small { result < 2 ^ 16 - 5 }
    ensures low { result % 64 ≡ 0 }
{
    divider % 256 * 256 + divider / 256 * 64
}

/// Sets the clock to so many hertz at most, 400,000 to 50,000,000: the card's clock stops, and begins again once the internal one is
/// stable.
pub fn set_clock<R: Registers>(registers: &mut R, base: u32, version: u8, most: u32)
    requires base { IsBaseClock base version (R.view registers.old) }
    requires small { base < 256 }
    requires least { 400000 ≤ most }
    requires most { most ≤ 50000000 }
    requires steady { IsSteady (R.view registers.old) }
    ensures { SetsClock (R.view registers.old) most (R.view registers.new) }
{
    let word = word_of(divider(base, version, most));
    registers.write32(CLOCK, TIMEOUT);
    registers.write32(CLOCK, TIMEOUT + word + 1);
    settle_clock(registers);
    registers.write32(CLOCK, TIMEOUT + word + 5);
}
