// Lines, power, clock, and which interrupts are shown.
ghost use Rattle.std.specs.Prelude.{◌≡◌, ◌≤◌};
ghost use Rattle.mmc_sdhci.specs.Accesses.{stabilizing_from, starting_anew, starting_with};
ghost use Rattle.mmc_sdhci.specs.Controller.{divider_in, divisor, lines_in};
ghost use Rattle.sdhci_model.specs.Moves.{WritesTo};
ghost use Rattle.sdhci_model.specs.Shown.{told_of};

use crate::state::State;
use mmc_card::{Lines, Timing, Width};
use mmc_host::{Data, HostState, Ios, Work};
use mmc_sdhci::base_clock;

// The lines that Host Control 1 sets.
fn lines_in(control: u8) -> Lines
    ensures { result ≡ lines_in control }
{
    let width = if control / 32 % 2 == 1 {
        Width::Eight
    } else if control / 2 % 2 == 1 {
        Width::Four
    } else {
        Width::One
    };
    let timing = if control / 4 % 2 == 1 {
        Timing::High
    } else {
        Timing::Default
    };
    Lines { width, timing }
}

/// What a host was told that has the lines of this Host Control 1.
pub fn told_on(control: u8) -> HostState
    ensures { result ≡ told_of control }
{
    let lines = lines_in(control);
    HostState {
        ios: Ios {
            width: lines.width,
            timing: lines.timing,
            is_identifying: false,
        },
        is_identifying: false,
        is_app: false,
        count: 0,
        transfer: Data::Nothing,
        work: Work::Settling,
        erase_start: 0,
        erase_end: 0,
        paused: 0,
    }
}

// What stabilizes after a write of Clock Control.
fn stabilizing_from(was: Option<u64>, value: u32) -> Option<u64>
    ensures { result ≡ stabilizing_from was value }
{
    if value % 2 == 0 {
        None
    } else if value / 4 % 2 == 0 {
        Some(0)
    } else {
        was
    }
}

// A card that starts, after a write of Clock Control.
fn starting_anew(was: Option<u64>) -> Option<u64>
    ensures { result ≡ starting_anew was }
{
    match was {
        None => None,
        Some(_) => Some(0),
    }
}

impl State {
    /// The lines and the clock that are set.
    pub fn ios(&self) -> Ios {
        let lines = lines_in(self.control);
        Ios {
            width: lines.width,
            timing: lines.timing,
            is_identifying: self.is_slow(),
        }
    }

    // Whether the card's clock has at most 400 kHz.
    fn is_slow(&self) -> bool {
        base_clock(self.capabilities, self.version) * 10 <= 4 * self.divisor()
    }

    /// By how much the base clock is divided.
    pub fn divisor(&self) -> u32
        ensures value { result ≡ divisor (divider_in self.now.clock) }
        ensures small { result ≤ 2046 }
    {
        let divider = self.clock / 64 % 4 * 256 + self.clock / 256 % 256;
        if divider == 0 { 1 } else { 2 * divider }
    }

    /// Host Control 1 is written.
    pub fn set_control(&mut self, value: u8)
        ensures { self.new ≡ record self.old { control = value } }
    {
        self.control = value;
    }

    /// Power Control is written, after which the card starts, or has no power.
    pub fn set_power(&mut self, value: u8)
        ensures { self.new ≡ record self.old { power = value; starting = starting_with value } }
    {
        self.power = value;
        self.starting = if value == 0 { None } else { Some(0) };
    }

    /// Clock Control and Timeout Control are written.
    pub fn set_clock(&mut self, value: u32)
        ensures { WritesTo self.old 0x2c value self.new }
    {
        self.clock = value % 0x1_0000;
        self.timeout = (value / 0x1_0000 % 16) as u8;
        self.stabilizing = stabilizing_from(self.stabilizing, value);
        self.starting = starting_anew(self.starting);
    }

    /// Normal and Error Interrupt Status Enable are written.
    pub fn show(&mut self, value: u32)
        ensures { WritesTo self.old 0x34 value self.new }
    {
        self.shown = value;
    }
}
