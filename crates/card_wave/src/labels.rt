// Writes the labels of exchanges.
ghost use Rattle.std.specs.Fmt.{decimal};
ghost use Rattle.std.specs.Prelude.{◌≡◌, ◌<◌, ◌++◌, ◌∷◌, [], OnOk};
ghost use Rattle.card_wave.specs.Labels.{label_text, phase_line};
ghost use Rattle.text_out.specs.Writing.{Writes};

use crate::phase::Phase;
use crate::wave_writer::{MAX_CLOCKS, WaveWriter, Written, put_bytes, put_number};
use std::io::{ErrorKind, Write};

// Writes a number between two texts.
fn put_between<W: Write>(out: &mut W, front: &[u8], number: u64, back: &[u8]) -> Written
    ensures { Writes (W.contents out.old) (W.contents out.new) result (front.now ++ (decimal number ++ back.now)) }
{
    put_bytes(out, front)?;
    put_number(out, number)?;
    put_bytes(out, back)
}

// Writes a phase on its line.
fn put_phase<W: Write>(out: &mut W, phase: Phase) -> Written
    ensures { Writes (W.contents out.old) (W.contents out.new) result (phase_line phase ++ 10 ∷ []) }
{
    match phase {
        Phase::Command(index) => put_between(out, b"sCMD", u64::from(index), b" p\n"),
        Phase::Read => put_bytes(out, b"sREAD p\n"),
        Phase::Write => put_bytes(out, b"sWRITE p\n"),
        Phase::Busy => put_bytes(out, b"sBUSY p\n"),
    }
}

// Writes the labels of an exchange.
fn put_labels<W: Write>(out: &mut W, clock: u64, number: u64, phase: Phase) -> Written
    requires { clock < MAX_CLOCKS }
    ensures { Writes (W.contents out.old) (W.contents out.new) result (label_text clock number phase) }
{
    put_between(out, b"#", 40 * clock, b"\n")?;
    put_between(out, b"s", number, b" x\n")?;
    put_phase(out, phase)
}

impl<W: Write> WaveWriter<W> {
    /// Writes the labels of an exchange, whose first clock is the next one.
    pub(crate) fn draw_labels(&mut self, number: u64, phase: Phase) -> Written
        ensures text { Writes (W.contents self.old.out) (W.contents self.new.out) result (label_text self.old.end.clock number phase) }
        ensures end { self.new.end ≡ self.old.end }
        ensures number { OnOk result (number < MAX_CLOCKS) }
    {
        if self.end.clock >= MAX_CLOCKS || number >= MAX_CLOCKS {
            return Err(ErrorKind::FileTooLarge);
        }
        put_labels(&mut self.out, self.end.clock, number, phase)
    }
}
