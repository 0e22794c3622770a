// How a controller begins.
ghost use Rattle.std.specs.Prelude.{◌*◌, ◌+◌, ◌<◌, ◌≡◌, ◌≤◌, bit_and, false};
ghost use Rattle.mmc_card.specs.declared.exchange.Width.TheVariants as Width;
ghost use Rattle.mmc_frame.specs.Field.{field};
ghost use Rattle.mmc_sdhci.specs.Commands.{selection};
ghost use Rattle.mmc_sdhci.specs.Controller.{Settled, limits_in, limits_within, lines_in};
ghost use Rattle.mmc_host.specs.declared.data.Data.TheVariants.{Nothing};
ghost use Rattle.mmc_sdhci.specs.Accesses.{IsAtRest, IsStill, Stays, of_the_slot};
ghost use Rattle.mmc_sdhci.specs.Beside.{HasWaited, is_inserted, is_sure};
ghost use Rattle.mmc_sdhci.specs.Driver.{IsBaseClock, IsNew, IsOff, IsSameCard, IsStarted, Restarts};
ghost use Rattle.mmc_sdhci.specs.Moving.{WhereKept};
ghost use Rattle.mmc_sdhci.specs.Settling.{IsClocked, PowersUp};

use crate::command::lose_all;
use crate::dma::Dma;
use crate::offsets::{POWER, PRESENT, RESET, SHOWN_INTERRUPTS, SIGNALS};
use crate::registers::Registers;
use crate::settling::{pause, settle_reset};
use mmc_card::{Lines, Timing, Width};
use thiserror::Error;

/// Why a controller isn't ready for use.
#[derive(Clone, Copy, Debug, PartialEq, Eq, Error)]
pub enum StartFault {
    /// No card is inserted.
    #[error("no card is inserted")]
    NoCard,
    /// The controller can't give the card 3.3 V.
    #[error("the controller has no 3.3 V")]
    NoVoltage,
    /// The controller doesn't say how fast its base clock is, or, of a version before 3.00, says more than 63 MHz.
    #[error("the controller doesn't tell its base clock")]
    NoBaseClock,
}

const LOOKS: u32 = 1000;

const BETWEEN_LOOKS: u32 = 100;

// A card that is to lose its power has less than 0.5 V for a millisecond (SD Physical Layer 6.00, section 6.4.1.2); it takes a while to
// come there.
const OFF_TIME: u32 = 10_000;

/// Command Complete, Transfer Complete, Buffer Write Ready and Buffer Read Ready, and all errors of command and data.
pub const SHOWN: u32 = 0x007f_0033;

/// Card Insertion and Card Removal, of these interrupts.
pub fn of_the_slot(interrupts: u32) -> u32
    ensures bits { result ≡ 0x40 * of_the_slot interrupts }
    ensures small { result ≤ 0xc0 }
{
    interrupts / 0x40 % 4 * 0x40
}

/// The limits of a controller, by Capabilities. It always has four lines.
pub fn limits_in(capabilities: u32) -> Lines
    ensures { result ≡ limits_in capabilities }
{
    let width = if capabilities / 0x4_0000 % 2 == 1 {
        Width::Eight
    } else {
        Width::Four
    };
    let timing = if capabilities / 0x20_0000 % 2 == 1 {
        Timing::High
    } else {
        Timing::Default
    };
    Lines { width, timing }
}

/// The same where no more lines are wired to its slot.
pub fn limits_of(capabilities: u32, wired: Width) -> Lines
    ensures { result ≡ limits_within wired (limits_in capabilities) }
{
    let Lines { width, timing } = limits_in(capabilities);
    Lines {
        width: wired.fewer(width),
        timing,
    }
}

/// Host Control 1 for these lines, and the way in which the controller moves data, if it does.
pub fn control_of(lines: Lines, dma: Option<Dma>) -> u8
    ensures lines { lines_in result ≡ lines }
    ensures alone { bit_and result 0x3e ≡ result }
    ensures selects { field 4 3 result ≡ selection dma }
{
    let width = match lines.width {
        Width::One => 0,
        Width::Four => 0x02,
        Width::Eight => 0x20,
    };
    let timing = match lines.timing {
        Timing::Default => 0,
        Timing::High => 0x04,
    };
    let selection = match dma {
        None | Some(Dma::Sdma) => 0,
        Some(Dma::Adma32) => 0x10,
        Some(Dma::Adma64) => 0x18,
    };
    width + timing + selection
}

// Takes the card's power, and waits until it has been without it for long enough.
fn power_down<R: Registers>(registers: &mut R)
    requires rest { IsAtRest (R.view registers.old) }
    requires idle { WhereKept (R.view registers.old) ((R.view registers.old).transfer ≡ Nothing) }
    ensures off { IsOff (R.view registers.new) }
    ensures same { Settled (R.view registers.old) (IsSameCard (R.view registers.old) (R.view registers.new)) (R.view registers.new) }
    ensures waited { HasWaited (R.view registers.new) 10000 (R.beside registers.old) (R.beside registers.new) }
{
    registers.write8(POWER, 0);
    pause(registers, OFF_TIME);
}

// Resets the controller, and has it show the interrupts that the driver looks at, and those of the slot that somebody else wants. The
// latter alone reach the processor.
fn restart<R: Registers>(registers: &mut R, kept: u32)
    requires { IsOff (R.view registers.old) }
    ensures { Restarts kept (R.view registers.old) (R.view registers.new) }
{
    let kept = of_the_slot(kept);
    registers.write8(RESET, 1);
    settle_reset(registers);
    registers.write32(SHOWN_INTERRUPTS, SHOWN + kept);
    registers.write32(SIGNALS, kept);
}

/// Begins anew, whatever the controller was used for: what is left of that is lost, the card has had no power for long enough, and the
/// controller is reset.
pub fn start_anew<R: Registers>(registers: &mut R)
    requires { IsNew (R.view registers.old) }
    ensures started { IsStarted (R.kept registers.old) (R.view registers.new) }
    ensures same { Settled (R.view registers.old) (IsSameCard (R.view registers.old) (R.view registers.new)) (R.view registers.new) }
{
    let kept = registers.kept_interrupts();
    lose_all(registers);
    power_down(registers);
    restart(registers, kept);
}

/// Whether a card is inserted, once the controller is sure of it, or after 100 ms.
pub fn has_card<R: Registers>(registers: &mut R) -> bool
    requires { IsStill (R.view registers.old) }
    ensures stays { Stays (R.view registers.old) (R.view registers.new) }
    ensures card { WhereKept (R.view registers.new) (result ≡ is_inserted (R.beside registers.new).present) }
    ensures late { WhereKept (R.view registers.new) (is_sure (R.beside registers.new).present ≡ false
        → (R.beside registers.old).waited + 100000 ≤ (R.beside registers.new).waited) }
{
    for _look in 0..LOOKS {
        let state = registers.read32(PRESENT);
        if state / 0x2_0000 % 2 == 1 {
            return state / 0x1_0000 % 2 == 1;
        }
        pause(registers, BETWEEN_LOOKS);
    }
    false
}

/// Waits until the card has started: a millisecond, and 74 clocks.
pub fn power_up<R: Registers>(registers: &mut R, base: u32, version: u8)
    requires base { IsBaseClock base version (R.view registers.old) }
    requires some { 0 < base }
    requires clocked { IsClocked (R.view registers.old) }
    ensures { PowersUp (R.view registers.old) (R.view registers.new) }
{
    // The 74 clocks are at most 74 * 2 * 1023 of the base clock, whose divider has ten bits.
    registers.pause(1001 + 151_404 / base);
}
