// Writes clocks of a waveform.
ghost use Rattle.std.specs.Fmt.{decimal};
ghost use Rattle.std.specs.Prelude.{◌<◌, ◌∷◌, []};
ghost use Rattle.card_wave.specs.Samples.{held, idle};
ghost use Rattle.card_wave.specs.WaveText.{Draws, changed, changes_text, edge_text, sample_text};
ghost use Rattle.text_out.specs.Writing.{Writes};

use crate::sample::Sample;
use itoa::Buffer;
use std::io::{ErrorKind, Write};

/// The most clocks of a waveform: their times fit 64 bits.
pub(crate) const MAX_CLOCKS: u64 = 1 << 58;

/// What came of a write: of a fault its kind alone is handed on, since an error takes ninety bytes of each frame on its way.
pub(crate) type Written = Result<(), ErrorKind>;

/// Where a waveform ends: the number of its next clock, and what its last clock shows.
#[derive(Clone, Copy, Debug, PartialEq, Eq)]
pub(crate) struct WaveEnd {
    pub(crate) clock: u64,
    pub(crate) lines: Sample,
}

/// Writes all of the bytes, as `text_out` does, but that the kind of a fault is all that is taken from it.
pub(crate) fn put_bytes<W: Write>(out: &mut W, bytes: &[u8]) -> Written
    ensures { Writes (W.contents out.old) (W.contents out.new) result bytes.now }
{
    let mut rest = bytes;
    while !rest.is_empty() {
        match out.write(rest) {
            Ok(0) => return Err(ErrorKind::WriteZero),
            Ok(count) => rest = &rest[count..],
            Err(fault) => return Err(fault.kind()),
        }
    }
    Ok(())
}

/// Writes a number in decimal digits.
pub(crate) fn put_number<W: Write>(out: &mut W, number: u64) -> Written
    ensures { Writes (W.contents out.old) (W.contents out.new) result (decimal number) }
{
    put_bytes(out, Buffer::new().format(number).as_bytes())
}

// Writes a signal, if it changes.
fn put_change<W: Write>(out: &mut W, was: bool, is: bool, falls: &[u8], rises: &[u8]) -> Written
    ensures { Writes (W.contents out.old) (W.contents out.new) result (changed was is falls.now rises.now) }
{
    match (was, is) {
        (true, false) => put_bytes(out, falls),
        (false, true) => put_bytes(out, rises),
        _ => Ok(()),
    }
}

// Writes the signals that change.
fn put_changes<W: Write>(out: &mut W, was: &Sample, is: &Sample) -> Written
    ensures { Writes (W.contents out.old) (W.contents out.new) result (changes_text was.now is.now) }
{
    put_change(out, was.cmd, is.cmd, b"0C\n", b"1C\n")?;
    put_change(out, was.dat[0], is.dat[0], b"0a\n", b"1a\n")?;
    put_change(out, was.dat[1], is.dat[1], b"0b\n", b"1b\n")?;
    put_change(out, was.dat[2], is.dat[2], b"0c\n", b"1c\n")?;
    put_change(out, was.dat[3], is.dat[3], b"0d\n", b"1d\n")?;
    put_change(out, was.dat[4], is.dat[4], b"0e\n", b"1e\n")?;
    put_change(out, was.dat[5], is.dat[5], b"0f\n", b"1f\n")?;
    put_change(out, was.dat[6], is.dat[6], b"0g\n", b"1g\n")?;
    put_change(out, was.dat[7], is.dat[7], b"0h\n", b"1h\n")
}

// Writes an edge of CLK, to this level.
fn put_edge<W: Write>(out: &mut W, time: u64, level: bool) -> Written
    ensures { Writes (W.contents out.old) (W.contents out.new) result (edge_text time level) }
{
    put_bytes(out, b"#")?;
    put_number(out, time)?;
    if level {
        put_bytes(out, b"\n1!\n")
    } else {
        put_bytes(out, b"\n0!\n")
    }
}

// Writes a clock.
fn put_sample<W: Write>(out: &mut W, end: &WaveEnd, sample: &Sample) -> Written
    requires { end.now.clock < MAX_CLOCKS }
    ensures { Writes (W.contents out.old) (W.contents out.new) result (sample_text end.now sample.now) }
{
    put_edge(out, 40 * end.clock, false)?;
    put_changes(out, &end.lines, sample)?;
    put_edge(out, 40 * end.clock + 20, true)
}

/// A writer of a waveform, and where it ends.
#[derive(Drop)]
pub(crate) struct WaveWriter<W> {
    pub(crate) out: W,
    pub(crate) end: WaveEnd,
}

impl<W: Write> WaveWriter<W> {
    // Draws a clock.
    #[tactic(auto, unfolding(crate::specs::WaveText::wave_text, crate::specs::WaveText::end_after))]
    fn draw(&mut self, sample: Sample) -> Written
        ensures { Draws W.contents self.old self.new result (sample ∷ []) }
    {
        if self.end.clock >= MAX_CLOCKS {
            return Err(ErrorKind::FileTooLarge);
        }
        put_sample(&mut self.out, &self.end, &sample)?;
        self.end = WaveEnd {
            clock: self.end.clock + 1,
            lines: sample,
        };
        Ok(())
    }

    /// Draws these clocks.
    pub(crate) fn draw_all(&mut self, samples: &[Sample]) -> Written
        ensures { Draws W.contents self.old self.new result samples.now }
    {
        for sample in samples {
            self.draw(*sample)?;
        }
        Ok(())
    }

    /// Draws clocks that show the same.
    pub(crate) fn draw_held(&mut self, count: usize, sample: Sample) -> Written
        ensures { Draws W.contents self.old self.new result (held count sample) }
    {
        for _done in 0..count {
            self.draw(sample)?;
        }
        Ok(())
    }

    /// Draws idle clocks.
    pub(crate) fn draw_idle(&mut self, count: usize) -> Written
        ensures { Draws W.contents self.old self.new result (held count idle) }
    {
        self.draw_held(count, Sample::idle())
    }
}
