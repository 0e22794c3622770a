// A bus that counts its exchanges.
ghost use Rattle.std.specs.Prelude.{◌≡◌, length};
ghost use Rattle.mmc_bus.specs.Exchanges.{Commanded, DataRead, DataWritten, Polled, SetsLines};

use mmc_bus::{Bus, DataIn, DataOut, Lines, Reply, Timing, Want, Width};
use std::cell::Cell;

/// A bus that hands every operation on to the bus inside, and counts exchanges in a cell, which others look into meanwhile. What the
/// cell holds no contract says.
#[derive(Drop)]
pub struct CountingBus<'a, B: Bus> {
    bus: B,
    count: &'a Cell<u64>,
}

impl<'a, B: Bus> CountingBus<'a, B> {
    /// A bus over this one.
    pub fn new(bus: B, count: &'a Cell<u64>) -> CountingBus<'a, B>
        ensures { result.bus ≡ bus }
    {
        CountingBus { bus, count }
    }

    /// The bus inside.
    pub fn into_inner(self) -> B
        ensures { result ≡ self.entry.bus }
    {
        let CountingBus { bus, count: _ } = self;
        bus
    }

    // One exchange more.
    fn count_one(&self) {
        self.count.set(self.count.get().saturating_add(1));
    }
}

impl<B: Bus> Bus for CountingBus<'_, B> {
    ghost view = { λ c. B.view c.bus };

    fn limits(&self) -> Lines {
        self.bus.limits()
    }

    fn command(&mut self, frame: [u8; 6], want: Want) -> Reply {
        self.count_one();
        self.bus.command(frame, want)
    }

    fn begin(&mut self, frame: [u8; 6], want: Want, blocks: u16) -> Reply {
        self.count_one();
        self.bus.begin(frame, want, blocks)
    }

    fn read_data(&mut self, buffer: &mut [u8]) -> DataIn {
        self.count_one();
        self.bus.read_data(buffer)
    }

    fn write_data(&mut self, block: &[u8; 512]) -> DataOut {
        self.count_one();
        self.bus.write_data(block)
    }

    fn busy(&mut self) -> bool {
        self.count_one();
        self.bus.busy()
    }

    fn set_lines(&mut self, width: Width, timing: Timing) {
        self.bus.set_lines(width, timing);
    }
}
