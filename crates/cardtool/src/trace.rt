// The trace after the answers: the last exchanges that a bus has kept.
ghost use Rattle.std.specs.Prelude.{◌≡◌, ◌≤◌, IfErr, IfOk, List, None, Option, Some, [], length, ℕ};
ghost use Rattle.std.specs.List.{All};
ghost use Rattle.text_out.specs.Writing.{Writes};
ghost use Rattle.mmc_card.specs.Made.{Made};
ghost use Rattle.mmc_card.specs.declared.exchange.Lines.{Lines};
ghost use Rattle.mmc_card.specs.Sectors.{Sets};
ghost use Rattle.mmc_bus.specs.Trace.{HasItsFrame, last_of};
ghost use Rattle.mmc_bus.specs.declared.trace.TheConstants.{MAX_KEPT};
ghost use Rattle.card_text.specs.declared.event.ScriptEvent.{ScriptEvent};
ghost use Rattle.cardtool.specs.Whole.{IsServed, IsUnwritten, ended_by, trace_text};

use card_served::ServeFault;
use mmc_bus::{Bus, TraceBus};
use std::alloc::Global;
use std::io::{self, Write};
use text_out::{Piece, put_pieces};

/// A bus that keeps its last `n` exchanges, or the bus itself where memory is refused.
pub fn traced<B: Bus>(alloc: Global, bus: B, n: u32) -> Result<TraceBus<B>, B>
    requires one { 1 ≤ n }
    requires many { n ≤ MAX_KEPT }
    ensures ok { IfOk result (λ trace. trace ≡ record { bus = bus; exchanges = []; capacity = n }) }
    ensures err { IfErr result (λ back. back ≡ bus) }
{
    match TraceBus::new(alloc, bus, n as usize) {
        Ok(trace) => Ok(trace),
        Err((bus, _)) => Err(bus),
    }
}

// How many lines a trace has that shows the last `n` exchanges.
#[tactic(auto, using(crate::proofs::TraceLemmas::kept_count))]
fn shown<B: Bus>(bus: &TraceBus<B>, n: u32) -> u64
    ensures count { result ≡ length (last_of n bus.now.exchanges) }
    ensures framed { All HasItsFrame bus.now.exchanges }
{
    bus.len().min(n as usize) as u64
}

// Writes `trace K` and a line for each of the last K exchanges that are kept, `n` of them at most.
fn put_trace<B: Bus, W: Write>(bus: &TraceBus<B>, n: u32, out: &mut W) -> io::Result<()>
    ensures written { Writes (W.contents out.old) (W.contents out.new) result (trace_text (last_of n bus.now.exchanges)) }
    ensures framed { All HasItsFrame bus.now.exchanges }
{
    let count = shown(bus, n);
    put_pieces(
        out,
        &[
            Piece::Text(b"trace "),
            Piece::Number(count),
            Piece::Text(b"\n"),
        ],
    )?;
    bus.write_last(n as usize, out)
}

// The exit status, where what follows it was printed.
fn ended(status: u8, printed: io::Result<()>) -> Result<u8, ServeFault>
    ensures { result ≡ ended_by status printed }
{
    match printed {
        Ok(()) => Ok(status),
        Err(_) => Err(ServeFault::Write),
    }
}

/// Writes the trace after what was served without it.
pub fn end_with_trace<B: Bus, W: Write>(
    bus: &TraceBus<B>,
    n: u32,
    served: Result<u8, ServeFault>,
    out: &mut W,
) -> Result<u8, ServeFault>
    ensures served { (limits : Lines) → (made : Made) → (before later : Sets) → (fell : ℕ) → (script : List ScriptEvent)
        → (start : Option (List ℕ))
        → IsServed limits made before later fell script None start (W.contents out.old) served
        → IsServed limits made before later fell script (Some n) start (W.contents out.new) result }
    ensures unwritten { (start : Option (List ℕ)) → IfErr served (λ fault. IsUnwritten start (W.contents out.old) fault)
        → IfErr result (λ fault. IsUnwritten start (W.contents out.new) fault) }
{
    let status = served?;
    let printed = put_trace(bus, n, out);
    ended(status, printed)
}
