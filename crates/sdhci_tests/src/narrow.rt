// A bus with fewer lines than its host could drive, or slower, as on a board that wires one.
use mmc_bus::{Bus, DataIn, DataOut, Exchange, Lines, Reply, Timing, Want, Width, Wire};

/// It is never kept to a card.
#[derive(Drop)]
pub struct Narrow<B: Bus> {
    pub bus: B,
    wire: Wire,
}

impl<B: Bus> Narrow<B> {
    /// This bus, of which so many lines are wired at most, and which is so fast at most.
    pub fn new(bus: B, most: Lines) -> Narrow<B> {
        let Lines { width, timing } = bus.limits();
        let limits = Lines {
            width: width.fewer(most.width),
            timing: timing.slower(most.timing),
        };
        Narrow {
            bus,
            wire: Wire::within(limits),
        }
    }
}

impl<B: Bus> Bus for Narrow<B> {
    ghost use Rattle.mmc_bus.specs.Wires.{unkept};

    ghost view = { λ s. unkept s.wire };

    fn limits(&self) -> Lines {
        self.wire.limits
    }

    fn command(&mut self, frame: [u8; 6], want: Want) -> Reply {
        let reply = self.bus.command(frame, want);
        self.wire.note(Exchange::Command { frame, want, reply });
        reply
    }

    fn begin(&mut self, frame: [u8; 6], want: Want, blocks: u16) -> Reply {
        let reply = self.bus.begin(frame, want, blocks);
        self.wire.note(Exchange::Command { frame, want, reply });
        reply
    }

    fn read_data(&mut self, buffer: &mut [u8]) -> DataIn {
        let len = buffer.len();
        let got = self.bus.read_data(buffer);
        self.wire.note(Exchange::In { len, got });
        got
    }

    fn write_data(&mut self, block: &[u8; 512]) -> DataOut {
        let got = self.bus.write_data(block);
        self.wire.note(Exchange::Out { got });
        got
    }

    fn busy(&mut self) -> bool {
        let yes = self.bus.busy();
        self.wire.note(Exchange::Busy { yes });
        yes
    }

    fn set_lines(&mut self, width: Width, timing: Timing) {
        self.bus.set_lines(width, timing);
        self.wire.set_lines(width, timing);
    }
}
