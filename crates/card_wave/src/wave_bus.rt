ghost use Rattle.std.specs.Prelude.{◌≡◌, length, is_ok, Some, None};
ghost use Rattle.mmc_bus.specs.Exchanges.{Commanded, DataWritten, Polled, SetsLines, DataRead};

use crate::header::put_header;
use crate::phase::Phase;
use crate::sample::Sample;
use crate::wave_writer::{WaveEnd, WaveWriter, Written};
use mmc_bus::{Bus, DataIn, DataOut, Lines, Reply, Timing, Want, Width};
use std::io::{self, Write};
use std::marker::Model;

/// A bus that hands every operation on to the bus inside, and draws its exchanges as a waveform of the signals CLK, CMD and
/// DAT0 to DAT7: a Value Change Dump (IEEE 1364-2005, section 18), which waveform viewers read.
///
/// With labels it has two variables of text besides, as GTKWave reads them: EXCHANGE, the number of the exchange, and PHASE: `CMD17`
/// for a command with that index and its response, `READ` and `WRITE` for a block, and `BUSY` for a poll. They change at the first
/// clock of each exchange.
///
/// Times are counted in clocks of 40 ns, as at 25 MHz, and aren't those of a real card: only exchanges take time, and a card answers
/// at once. The bus goes on whether or not the waveform can be written: after the first fault of the writer nothing is
/// written any more, and the kind of the fault is kept. A waveform of 2^58 clocks ends with a fault of the kind `FileTooLarge`.
#[derive(Drop)]
pub struct WaveBus<B: Bus, W: Write> {
    bus: B,
    wave: WaveWriter<W>,
    width: Width,
    // The number of the next exchange, where there are labels.
    labels: Option<u64>,
    fault: Written,
}

impl<B: Bus, W: Write> Model for WaveBus<B, W> {
    ghost use Rattle.std.specs.Prelude.{is_ok};
    ghost use Rattle.card_wave.specs.WaveView.{WaveView};

    ghost Value = { WaveView B W };

    ghost view = { λ w. record { bus = w.bus; wave = w.wave; width = w.width; labels = w.labels; is_drawing = is_ok w.fault } };
}

impl<B: Bus, W: Write> WaveBus<B, W> {
    ghost use Rattle.card_wave.specs.WaveView.{Begins, Labels};

    /// A bus that draws to this writer. It writes the header now, and takes one data line for in use until `set_lines`.
    pub fn new(bus: B, out: W) -> WaveBus<B, W>
        ensures bus { result.bus ≡ bus }
        ensures width { result.width ≡ Width.One }
        ensures labels { result.labels ≡ None }
        ensures begins { Begins W.contents out result }
    {
        WaveBus::begun(bus, out, None)
    }

    /// The same, with labels: the first exchange has the number 0.
    pub fn labelled(bus: B, out: W) -> WaveBus<B, W>
        ensures bus { result.bus ≡ bus }
        ensures width { result.width ≡ Width.One }
        ensures labels { result.labels ≡ Some 0 }
        ensures begins { Begins W.contents out result }
    {
        WaveBus::begun(bus, out, Some(0))
    }

    // The same, with the number of the first exchange where there are labels.
    fn begun(bus: B, mut out: W, labels: Option<u64>) -> WaveBus<B, W>
        ensures bus { result.bus ≡ bus }
        ensures width { result.width ≡ Width.One }
        ensures labels { result.labels ≡ labels }
        ensures begins { Begins W.contents out result }
    {
        let fault = put_header(&mut out, labels.is_some());
        let end = WaveEnd {
            clock: 1,
            lines: Sample::idle(),
        };
        WaveBus {
            bus,
            wave: WaveWriter { out, end },
            width: Width::One,
            labels,
            fault,
        }
    }

    // Writes the labels of an exchange, where there are labels, and says whether its clocks can be drawn.
    fn label(&mut self, phase: Phase) -> bool
        ensures can { result ≡ self.new.is_drawing }
        ensures labels { Labels W.contents self.old phase self.new }
    {
        if self.fault.is_err() {
            return false;
        }
        let Some(number) = self.labels else {
            return true;
        };
        match self.wave.draw_labels(number, phase) {
            Ok(()) => {
                self.labels = Some(number + 1);
                true
            }
            Err(kind) => {
                self.fault = Err(kind);
                false
            }
        }
    }

    /// The bus inside, the writer, and a fault of the kind of a write's first one, if one came. A prefix of the waveform's text went out then.
    pub fn into_parts(self) -> (B, W, io::Result<()>)
        ensures bus { result.0 ≡ self.bus }
        ensures out { result.1 ≡ self.wave.out }
        ensures fault { is_ok result.2 ≡ self.is_drawing }
    {
        let WaveBus {
            bus,
            wave: WaveWriter { out, end: _ },
            width: _,
            labels: _,
            fault,
        } = self;
        match fault {
            Ok(()) => (bus, out, Ok(())),
            Err(kind) => (bus, out, Err(kind.into())),
        }
    }
}

impl<B: Bus, W: Write> Bus for WaveBus<B, W> {
    ghost use Rattle.card_wave.specs.BlockSamples.{poll_samples, received_samples, sent_samples};
    ghost use Rattle.card_wave.specs.CommandSamples.{command_samples};
    ghost use Rattle.card_wave.specs.Labels.{phase_of_frame};
    ghost use Rattle.card_wave.specs.WaveView.{Shows, Widens};

    ghost view = { λ w. B.view w.bus };

    fn limits(&self) -> Lines {
        self.bus.limits()
    }

    fn command(&mut self, frame: [u8; 6], want: Want) -> Reply
        ensures exchanged { Commanded (B.view self.old.bus) frame want result (B.view self.new.bus) }
        ensures shown { Shows W.contents self.old (phase_of_frame frame) (command_samples frame want result) self.new }
    {
        let reply = self.bus.command(frame, want);
        if self.label(Phase::of_frame(&frame)) {
            self.fault = self.wave.draw_command(&frame, want, reply);
        }
        reply
    }

    fn begin(&mut self, frame: [u8; 6], want: Want, blocks: u16) -> Reply
        ensures exchanged { Commanded (B.view self.old.bus) frame want result (B.view self.new.bus) }
        ensures shown { Shows W.contents self.old (phase_of_frame frame) (command_samples frame want result) self.new }
    {
        let reply = self.bus.begin(frame, want, blocks);
        if self.label(Phase::of_frame(&frame)) {
            self.fault = self.wave.draw_command(&frame, want, reply);
        }
        reply
    }

    fn read_data(&mut self, buffer: &mut [u8]) -> DataIn
        ensures exchanged { DataRead (B.view self.old.bus) (length buffer.old) result buffer.new (B.view self.new.bus) }
        // Of a block with a bad check the bytes that are in the buffer are drawn, with inverted checks.
        ensures shown { Shows W.contents self.old Phase.Read (received_samples self.old.width result buffer.new) self.new }
    {
        let got = self.bus.read_data(buffer);
        if self.label(Phase::Read) {
            self.fault = self.wave.draw_received(self.width, got, buffer);
        }
        got
    }

    fn write_data(&mut self, block: &[u8; 512]) -> DataOut
        ensures exchanged { DataWritten (B.view self.old.bus) block.now result (B.view self.new.bus) }
        ensures shown { Shows W.contents self.old Phase.Write (sent_samples self.old.width result block.now) self.new }
    {
        let got = self.bus.write_data(block);
        if self.label(Phase::Write) {
            self.fault = self.wave.draw_sent(self.width, got, block);
        }
        got
    }

    fn busy(&mut self) -> bool
        ensures exchanged { Polled (B.view self.old.bus) result (B.view self.new.bus) }
        ensures shown { Shows W.contents self.old Phase.Busy (poll_samples result) self.new }
    {
        let is_busy = self.bus.busy();
        if self.label(Phase::Busy) {
            self.fault = self.wave.draw_poll(is_busy);
        }
        is_busy
    }

    fn set_lines(&mut self, width: Width, timing: Timing)
        ensures set { SetsLines (B.view self.old.bus) width timing (B.view self.new.bus) }
        ensures widens { Widens self.old width self.new }
    {
        self.bus.set_lines(width, timing);
        self.width = width;
    }
}
