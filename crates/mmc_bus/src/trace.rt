ghost use Rattle.std.specs.Prelude.{◌≡◌, ◌≤◌, [], length, slice_get, IfErr, IfOk};
ghost use Rattle.mmc_bus.specs.ExchangeText.{lines_text};
ghost use Rattle.mmc_bus.specs.Exchanges.{Commanded, DataWritten, Polled, SetsLines, DataRead};
ghost use Rattle.mmc_card.specs.declared.exchange.Exchange.TheVariants.{Busy, Command, In, Out};
ghost use Rattle.text_out.specs.Writing.{Writes};

use crate::bus::Bus;
use crate::exchange_text::write_exchange;
use crate::memory::NoMemory;
use circular_buffer::HeapCircularBuffer;
use mmc_card::{DataIn, DataOut, Exchange, Lines, Reply, Timing, Want, Width};
use std::alloc::Global;
use std::io::{self, Write};
use std::marker::Model;

/// The most exchanges that a trace may keep.
pub const MAX_KEPT: usize = 65_536;

/// A bus that hands every operation on to the bus inside, and keeps the last exchanges.
#[derive(Drop)]
pub struct TraceBus<B: Bus> {
    bus: B,
    last: HeapCircularBuffer<Exchange>,
}

impl<B: Bus> Model for TraceBus<B> {
    ghost use Rattle.std.specs.List.{All};
    ghost use Rattle.mmc_bus.specs.Trace.{HasItsFrame, TraceView};

    ghost Value = { TraceView B };

    ghost view = { λ t. record { bus = t.bus; exchanges = t.last.items; capacity = t.last.capacity } };

    ghost invariant = { λ t. All HasItsFrame t.last.items };
}

impl<B: Bus> TraceBus<B> {
    ghost use Rattle.std.specs.List.{All};
    ghost use Rattle.mmc_bus.specs.Trace.{HasItsFrame, last_of};
    ghost use Rattle.mmc_bus.specs.declared.trace.TheConstants.{MAX_KEPT};

    /// A trace that keeps the last `n` exchanges, from 1 to `MAX_KEPT`, and has none yet.
    ///
    /// # Errors
    /// `NoMemory` where the room for them is refused, with the bus.
    pub fn new(alloc: Global, bus: B, n: usize) -> Result<TraceBus<B>, (B, NoMemory)>
        requires some { 1 ≤ n }
        requires few { n ≤ MAX_KEPT }
        ensures ok { IfOk result (λ t. t ≡ record { bus = bus; exchanges = []; capacity = n }) }
        ensures err { IfErr result (λ e. e.0 ≡ bus) }
    {
        match HeapCircularBuffer::with_capacity(alloc, n) {
            Ok(last) => Ok(TraceBus { bus, last }),
            Err(_) => Err((bus, NoMemory)),
        }
    }

    /// How many exchanges are kept.
    pub fn len(&self) -> usize
        ensures count { result ≡ length self.now.exchanges }
        // Each command that is kept has its six bytes.
        ensures framed { All HasItsFrame self.now.exchanges }
    {
        self.last.len()
    }

    /// The exchange at this place, the oldest at 0, or `None` from `len` on.
    pub fn exchange(&self, i: usize) -> Option<Exchange>
        ensures { result ≡ slice_get self.now.exchanges i }
    {
        self.last.get(i).copied()
    }

    /// Writes a line for each exchange that is kept, oldest first.
    ///
    /// # Errors
    /// The fault of a write; a prefix of the lines went out then.
    pub fn write_lines<W: Write>(&self, out: &mut W) -> io::Result<()>
        ensures { Writes (W.contents out.old) (W.contents out.new) result (lines_text self.now.exchanges) }
    {
        self.write_last(self.len(), out)
    }

    /// Writes a line for each of the last `most` exchanges that are kept, oldest first; where fewer are kept, for each.
    ///
    /// # Errors
    /// The fault of a write; a prefix of the lines went out then.
    pub fn write_last<W: Write>(&self, most: usize, out: &mut W) -> io::Result<()>
        ensures { Writes (W.contents out.old) (W.contents out.new) result (lines_text
            (last_of most self.now.exchanges)) }
    {
        for i in self.len().saturating_sub(most)..self.len() {
            let exchange = self.last.get(i).unwrap();
            write_exchange(exchange, out)?;
        }
        Ok(())
    }

    /// The bus inside.
    pub fn into_inner(self) -> B
        ensures { result ≡ self.bus }
    {
        let TraceBus { bus, last: _ } = self;
        bus
    }
}

impl<B: Bus> Bus for TraceBus<B> {
    ghost use Rattle.mmc_bus.specs.Trace.{Traces, TracesNothing};

    ghost view = { λ t. B.view t.bus };

    fn limits(&self) -> Lines {
        self.bus.limits()
    }

    fn command(&mut self, frame: [u8; 6], want: Want) -> Reply
        ensures exchanged { Commanded (B.view self.old.bus) frame want result (B.view self.new.bus) }
        ensures traced { Traces self.old (Command frame want result) self.new }
    {
        let reply = self.bus.command(frame, want);
        self.last
            .push_back(Exchange::Command { frame, want, reply });
        reply
    }

    fn begin(&mut self, frame: [u8; 6], want: Want, blocks: u16) -> Reply
        ensures exchanged { Commanded (B.view self.old.bus) frame want result (B.view self.new.bus) }
        ensures traced { Traces self.old (Command frame want result) self.new }
    {
        let reply = self.bus.begin(frame, want, blocks);
        self.last
            .push_back(Exchange::Command { frame, want, reply });
        reply
    }

    fn read_data(&mut self, buffer: &mut [u8]) -> DataIn
        ensures exchanged { DataRead (B.view self.old.bus) (length buffer.old) result buffer.new (B.view self.new.bus) }
        ensures traced { Traces self.old (In (length buffer.old) result) self.new }
    {
        let got = self.bus.read_data(buffer);
        self.last.push_back(Exchange::In {
            len: buffer.len(),
            got,
        });
        got
    }

    fn write_data(&mut self, block: &[u8; 512]) -> DataOut
        ensures exchanged { DataWritten (B.view self.old.bus) block.now result (B.view self.new.bus) }
        ensures traced { Traces self.old (Out result) self.new }
    {
        let got = self.bus.write_data(block);
        self.last.push_back(Exchange::Out { got });
        got
    }

    fn busy(&mut self) -> bool
        ensures exchanged { Polled (B.view self.old.bus) result (B.view self.new.bus) }
        ensures traced { Traces self.old (Busy result) self.new }
    {
        let yes = self.bus.busy();
        self.last.push_back(Exchange::Busy { yes });
        yes
    }

    fn set_lines(&mut self, width: Width, timing: Timing)
        ensures set { SetsLines (B.view self.old.bus) width timing (B.view self.new.bus) }
        ensures traced { TracesNothing self.old self.new }
    {
        self.bus.set_lines(width, timing);
    }
}
