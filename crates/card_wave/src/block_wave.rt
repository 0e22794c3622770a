// Draws blocks on the data lines, what a card says of them, and polls.
ghost use Rattle.std.specs.Prelude.{◌≡◌, ◌++◌, List, IfOk, true};
ghost use Rattle.card_wave.specs.BlockSamples.{AreChecks, block_samples, byte_samples, data_samples, poll_samples, received_samples, sent_samples, start, status_on_dat0, status_samples};
ghost use Rattle.card_wave.specs.Samples.{held, idle};
ghost use Rattle.card_wave.specs.WaveText.{Draws};
ghost use Rattle.card_wave.specs.declared.sample.Sample.{Sample};

use crate::line_checks::LineChecks;
use crate::sample::{Sample, bits};
use crate::wave_writer::{WaveWriter, Written};
use mmc_bus::{DataIn, DataOut, Width};
use std::io::{ErrorKind, Write};

// A byte on DAT0.
#[tactic(auto, unfolding(crate::specs::BlockSamples::byte_samples))]
fn on_one_line(byte: u8) -> [Sample; 8]
    ensures { result ≡ byte_samples Width.One byte }
{
    let [bit7, bit6, bit5, bit4, bit3, bit2, bit1, bit0] = bits(byte);
    [
        Sample::on_one_line(bit7),
        Sample::on_one_line(bit6),
        Sample::on_one_line(bit5),
        Sample::on_one_line(bit4),
        Sample::on_one_line(bit3),
        Sample::on_one_line(bit2),
        Sample::on_one_line(bit1),
        Sample::on_one_line(bit0),
    ]
}

// A byte on eight lines.
#[tactic(auto, unfolding(crate::specs::BlockSamples::byte_samples))]
fn on_eight_lines(byte: u8) -> [Sample; 1]
    ensures { result ≡ byte_samples Width.Eight byte }
{
    [Sample::on_eight_lines(bits(byte))]
}

// A CRC status on DAT0, between its start bit and its end bit.
#[tactic(auto, unfolding(crate::specs::BlockSamples::status_on_dat0))]
fn status_on_dat0(bit2: bool, bit1: bool, bit0: bool) -> [Sample; 5]
    ensures { result ≡ status_on_dat0 bit2 bit1 bit0 }
{
    [
        Sample::on_one_line(false),
        Sample::on_one_line(bit2),
        Sample::on_one_line(bit1),
        Sample::on_one_line(bit0),
        Sample::on_one_line(true),
    ]
}

// The start bit of each line in use.
fn start(width: Width) -> Sample
    ensures { result ≡ start width }
{
    match width {
        Width::One => Sample::on_one_line(false),
        Width::Four => Sample::on_four_lines(false, false, false, false),
        Width::Eight => Sample::on_eight_lines([false; 8]),
    }
}

// A byte on four lines.
#[tactic(auto, unfolding(crate::specs::BlockSamples::byte_samples))]
fn on_four_lines(byte: u8) -> [Sample; 2]
    ensures { result ≡ byte_samples Width.Four byte }
{
    let [bit7, bit6, bit5, bit4, bit3, bit2, bit1, bit0] = bits(byte);
    [
        Sample::on_four_lines(bit7, bit6, bit5, bit4),
        Sample::on_four_lines(bit3, bit2, bit1, bit0),
    ]
}

impl<W: Write> WaveWriter<W> {
    // Draws start bits.
    fn draw_start(&mut self, width: Width) -> Written
        ensures { Draws W.contents self.old self.new result (held 1 (start width)) }
    {
        self.draw_held(1, start(width))
    }

    // Draws data, and adds it to the checks.
    fn draw_data(&mut self, samples: &[Sample], checks: &mut LineChecks) -> Written
        ensures drawn { Draws W.contents self.old self.new result samples.now }
        ensures checked { (block : List Sample) → AreChecks checks.old.of_line block
            → AreChecks checks.new.of_line (block ++ samples.now) }
    {
        checks.push_all(samples);
        self.draw_all(samples)
    }

    // Draws a byte, and adds it to the checks.
    fn draw_byte(&mut self, width: Width, byte: u8, checks: &mut LineChecks) -> Written
        ensures drawn { Draws W.contents self.old self.new result (byte_samples width byte) }
        ensures checked { (block : List Sample) → AreChecks checks.old.of_line block
            → AreChecks checks.new.of_line (block ++ byte_samples width byte) }
    {
        match width {
            Width::One => self.draw_data(&on_one_line(byte), checks),
            Width::Four => self.draw_data(&on_four_lines(byte), checks),
            Width::Eight => self.draw_data(&on_eight_lines(byte), checks),
        }
    }

    // Draws bytes, and gives their checks.
    fn draw_bytes(&mut self, width: Width, bytes: &[u8]) -> Result<LineChecks, ErrorKind>
        ensures drawn { Draws W.contents self.old self.new result (data_samples width bytes.now) }
        ensures checked { IfOk result (λ checks. AreChecks checks.of_line (data_samples width bytes.now)) }
    {
        let mut checks = LineChecks::new();
        for byte in bytes {
            self.draw_byte(width, *byte, &mut checks)?;
        }
        Ok(checks)
    }

    // Draws a block, with good checks or bad ones.
    fn draw_block(&mut self, width: Width, is_sound: bool, bytes: &[u8]) -> Written
        ensures { Draws W.contents self.old self.new result (block_samples width is_sound bytes.now) }
    {
        self.draw_start(width)?;
        let checks = self.draw_bytes(width, bytes)?;
        self.draw_all(&checks.samples(width, is_sound))?;
        self.draw_idle(1)
    }

    // Draws a block, and eight idle clocks.
    fn draw_ended(&mut self, width: Width, is_sound: bool, bytes: &[u8]) -> Written
        ensures { Draws W.contents self.old self.new result (block_samples width is_sound bytes.now ++ held 8 idle) }
    {
        self.draw_block(width, is_sound, bytes)?;
        self.draw_idle(8)
    }

    /// Draws a block to the host, or the wait for one that didn't come.
    #[tactic(auto, unfolding(crate::specs::BlockSamples::received_samples))]
    pub(crate) fn draw_received(&mut self, width: Width, got: DataIn, bytes: &[u8]) -> Written
        ensures { Draws W.contents self.old self.new result (received_samples width got bytes.now) }
    {
        match got {
            DataIn::Good => self.draw_ended(width, true, bytes),
            DataIn::Bad => self.draw_ended(width, false, bytes),
            DataIn::Nothing => self.draw_idle(64),
        }
    }

    // Draws the CRC status of a card, if it sent one.
    #[tactic(auto, unfolding(crate::specs::BlockSamples::status_samples))]
    fn draw_status(&mut self, got: DataOut) -> Written
        ensures { Draws W.contents self.old self.new result (status_samples got) }
    {
        match got {
            DataOut::Accepted => self.draw_all(&status_on_dat0(false, true, false)),
            DataOut::Rejected => self.draw_all(&status_on_dat0(true, false, true)),
            DataOut::Nothing => Ok(()),
        }
    }

    /// Draws a block to the card, and what the card says of it.
    pub(crate) fn draw_sent(&mut self, width: Width, got: DataOut, bytes: &[u8]) -> Written
        ensures { Draws W.contents self.old self.new result (sent_samples width got bytes.now) }
    {
        self.draw_block(width, true, bytes)?;
        self.draw_idle(2)?;
        self.draw_status(got)?;
        self.draw_idle(8)
    }

    /// Draws a poll.
    #[tactic(auto, unfolding(crate::specs::BlockSamples::poll_samples))]
    pub(crate) fn draw_poll(&mut self, is_busy: bool) -> Written
        ensures { Draws W.contents self.old self.new result (poll_samples is_busy) }
    {
        if is_busy {
            self.draw_held(8, Sample::on_one_line(false))
        } else {
            self.draw_idle(8)
        }
    }
}
