ghost use Rattle.std.specs.Prelude.{◌≡◌, None};
ghost use Rattle.mmc_card.specs.Limits.{all_lines};
ghost use Rattle.mmc_bus.specs.Wires.{Notes};

use mmc_card::{Exchange, Lines, Timing, Width};

/// What a bus keeps of its exchanges, so that contracts can speak of them.
#[derive(Clone, Copy, Debug, PartialEq, Eq)]
pub struct Wire {
    /// The lines, as last set.
    pub lines: Lines,
    /// The most lines that are wired, and the fastest timing of the host.
    pub limits: Lines,
    /// The last exchange with its answer, if there was one.
    pub last: Option<Exchange>,
    /// How many exchanges there were; the number stays at 2^64 - 1.
    pub exchanges: u64,
}

impl Wire {
    /// One line, default speed, and no exchange so far, of a host that limits nothing.
    pub fn new() -> Wire
        ensures { result ≡ record {
          lines = record { width = Width.One; timing = Timing.Default };
          limits = all_lines;
          last = None;
          exchanges = 0;
        } }
    {
        Wire::within(Lines::all())
    }

    /// The same of a host with these limits: its most lines, and its fastest timing.
    pub fn within(limits: Lines) -> Wire
        ensures { result ≡ record {
          lines = record { width = Width.One; timing = Timing.Default };
          limits = limits;
          last = None;
          exchanges = 0;
        } }
    {
        Wire {
            lines: Lines {
                width: Width::One,
                timing: Timing::Default,
            },
            limits,
            last: None,
            exchanges: 0,
        }
    }

    /// Keeps an exchange.
    pub fn note(&mut self, exchange: Exchange)
        ensures { Notes self.old exchange self.new }
    {
        self.last = Some(exchange);
        self.exchanges = self.exchanges.saturating_add(1);
    }

    /// Keeps how the lines are set.
    pub fn set_lines(&mut self, width: Width, timing: Timing)
        ensures { self.new ≡ record self.old { lines = record { width = width; timing = timing } } }
    {
        self.lines = Lines { width, timing };
    }
}
