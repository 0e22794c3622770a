// Serves a script, and shows or draws the exchanges.
ghost use Rattle.std.specs.Prelude.{◌≡◌, ◌≤◌, None, Some, if◌then◌else◌};
ghost use Rattle.mmc_bus.specs.declared.trace.TheConstants.{MAX_KEPT};
ghost use Rattle.cardtool.specs.More.{IsShown, trace_of};
ghost use Rattle.cardtool.specs.Whole.{IsServedOver};

use crate::counting::CountingBus;
use crate::explained::kept_exchanges;
use crate::serve::{serve_counting, serve_traced};
use crate::trace::traced;
use card_served::ServeFault;
use card_text::script::Script;
use card_wave::WaveBus;
use mmc_block::Healed;
use mmc_bus::{Bus, Exchange};
use std::alloc::Global;
use std::cell::Cell;
use std::io::{self, Write};

/// What is shown of the exchanges after the answers.
#[derive(Clone, Copy)]
pub enum Shown {
    /// Nothing.
    Nothing,
    /// The last so many, a line each.
    Trace(u32),
    /// The same, with words after each line.
    Explained(u32),
}

/// How a script was served.
#[derive(Drop)]
pub struct Served<B: Drop> {
    /// The bus.
    pub bus: B,
    /// The exchanges that are to be explained, the oldest first, or nothing where memory was refused for them.
    pub kept: Option<Vec<Exchange>>,
    /// What was met and healed.
    pub healed: Healed,
    /// The exit status.
    pub status: Result<u8, ServeFault>,
}

// Serves a script, and keeps the last `n` exchanges.
fn serve_kept<B: Bus + Drop, W: Write>(
    alloc: Global,
    bus: B,
    script: Script,
    n: u32,
    out: &mut W,
) -> Served<B>
    requires one { 1 ≤ n }
    requires many { n ≤ MAX_KEPT }
    ensures { IsServedOver (B.view bus) (B.view result.bus) script None (W.contents out.old) (W.contents out.new) result.status }
{
    let bus = match traced(alloc, bus, n) {
        Ok(bus) => bus,
        Err(bus) => {
            return Served {
                bus,
                kept: None,
                healed: Healed::new(),
                status: Err(ServeFault::NoMemory),
            };
        }
    };
    let (bus, healed, status) = serve_counting(alloc, bus, script, out);
    let kept = kept_exchanges(alloc, &bus).ok();
    let bus = bus.into_inner();
    Served {
        bus,
        kept,
        healed,
        status,
    }
}

/// Serves a script on the card of a bus, as `serve_over` does; the exchanges that are to be explained come back in place of a
/// trace.
pub fn serve_shown<B: Bus + Drop, W: Write>(
    alloc: Global,
    bus: B,
    script: Script,
    shown: Shown,
    out: &mut W,
) -> Served<B>
    requires { IsShown shown }
    ensures { IsServedOver (B.view bus) (B.view result.bus) script (trace_of shown) (W.contents out.old) (W.contents out.new) result.status }
{
    match shown {
        Shown::Explained(n) => serve_kept(alloc, bus, script, n, out),
        Shown::Trace(n) => {
            let (bus, healed, status) = serve_traced(alloc, bus, script, n, out);
            Served {
                bus,
                kept: None,
                healed,
                status,
            }
        }
        Shown::Nothing => {
            let (bus, healed, status) = serve_counting(alloc, bus, script, out);
            Served {
                bus,
                kept: None,
                healed,
                status,
            }
        }
    }
}

/// A waveform that was written, and the fault that ended it.
#[derive(Drop)]
pub struct Drawn<V: Write + Drop> {
    /// Where it was written.
    pub out: V,
    /// Whether all of it was.
    pub written: io::Result<()>,
}

// A bus that draws a waveform, with labels or without.
fn wave_bus<B: Bus, V: Write>(bus: B, wave: V, labels: bool) -> WaveBus<B, V>
    ensures bus { result.bus ≡ bus }
    ensures labels { result.labels ≡ (if labels then Some 0 else None) }
{
    if labels {
        WaveBus::labelled(bus, wave)
    } else {
        WaveBus::new(bus, wave)
    }
}

/// The same, with a waveform of all exchanges where one is wanted, with labels or without: a fault in writing it changes nothing else.
pub fn serve_drawn<B: Bus + Drop, W: Write, V: Write + Drop>(
    alloc: Global,
    bus: B,
    script: Script,
    shown: Shown,
    wave: Option<V>,
    labels: bool,
    out: &mut W,
) -> (Served<B>, Option<Drawn<V>>)
    requires { IsShown shown }
    ensures { IsServedOver (B.view bus) (B.view result.0.bus) script (trace_of shown) (W.contents out.old) (W.contents out.new) result.0.status }
{
    let Some(wave) = wave else {
        return (serve_shown(alloc, bus, script, shown, out), None);
    };
    let Served {
        bus,
        kept,
        healed,
        status,
    } = serve_shown(alloc, wave_bus(bus, wave, labels), script, shown, out);
    let (bus, wave, written) = bus.into_parts();
    let served = Served {
        bus,
        kept,
        healed,
        status,
    };
    (served, Some(Drawn { out: wave, written }))
}

/// The same; the exchanges are counted meanwhile.
pub fn serve_counted<B: Bus + Drop, W: Write, V: Write + Drop>(
    alloc: Global,
    bus: B,
    count: &Cell<u64>,
    script: Script,
    shown: Shown,
    wave: Option<V>,
    labels: bool,
    out: &mut W,
) -> (Served<B>, Option<Drawn<V>>)
    requires { IsShown shown }
    ensures { IsServedOver (B.view bus) (B.view result.0.bus) script (trace_of shown) (W.contents out.old) (W.contents out.new) result.0.status }
{
    let bus = CountingBus::new(bus, count);
    let (served, drawn) = serve_drawn(alloc, bus, script, shown, wave, labels, out);
    let Served {
        bus,
        kept,
        healed,
        status,
    } = served;
    let served = Served {
        bus: bus.into_inner(),
        kept,
        healed,
        status,
    };
    (served, drawn)
}
