// Writes what a waveform begins with.
ghost use Rattle.card_wave.specs.Header.{header_text, label_lines, signal_lines, start_lines, text_of_lines};
ghost use Rattle.text_out.specs.Writing.{Writes};

use crate::wave_writer::{Written, put_bytes};
use std::io::Write;

const SIGNALS: &[u8] = b"$timescale 1 ns $end
$scope module card $end
$var wire 1 ! CLK $end
$var wire 1 C CMD $end
$var wire 1 a DAT0 $end
$var wire 1 b DAT1 $end
$var wire 1 c DAT2 $end
$var wire 1 d DAT3 $end
$var wire 1 e DAT4 $end
$var wire 1 f DAT5 $end
$var wire 1 g DAT6 $end
$var wire 1 h DAT7 $end
";

const LABELS: &[u8] = b"$var string 1 x EXCHANGE $end
$var string 1 p PHASE $end
";

const START: &[u8] = b"$upscope $end
$enddefinitions $end
#0
$dumpvars
0!
1C
1a
1b
1c
1d
1e
1f
1g
1h
$end
";

// Writes the time unit and the signals.
fn put_signals<W: Write>(out: &mut W) -> Written
    ensures { Writes (W.contents out.old) (W.contents out.new) result (text_of_lines signal_lines) }
{
    put_bytes(out, SIGNALS)
}

// Writes the two labels, where there are labels.
fn put_label_names<W: Write>(out: &mut W, has_labels: bool) -> Written
    ensures { Writes (W.contents out.old) (W.contents out.new) result (text_of_lines (label_lines has_labels)) }
{
    if has_labels {
        put_bytes(out, LABELS)
    } else {
        Ok(())
    }
}

// Writes the levels at time 0.
fn put_start<W: Write>(out: &mut W) -> Written
    ensures { Writes (W.contents out.old) (W.contents out.new) result (text_of_lines start_lines) }
{
    put_bytes(out, START)
}

/// Writes the header.
pub(crate) fn put_header<W: Write>(out: &mut W, has_labels: bool) -> Written
    ensures { Writes (W.contents out.old) (W.contents out.new) result (header_text has_labels) }
{
    put_signals(out)?;
    put_label_names(out, has_labels)?;
    put_start(out)
}
