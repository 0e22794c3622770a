// Serves a script on a card, and prints what becomes of its requests.
ghost use Rattle.std.specs.Prelude.{◌≡◌, ◌≤◌, IfErr, None, Some, option_map};
ghost use Rattle.std.specs.Option.{ForSome};
ghost use Rattle.mmc_bus.specs.declared.trace.TheConstants.{MAX_KEPT};
ghost use Rattle.cardtool.specs.Files.{IsOutcomeOfFiles};
ghost use Rattle.card_text.specs.Planning.{CanBePlanned};
ghost use Rattle.cardtool.specs.Whole.{IsServedOnSpec, IsServedOver, IsUnwritten, outcome_of};

use crate::files::{FilesRead, read_files};
use crate::play::play;
use crate::trace::{end_with_trace, traced};
use card_served::{ServeFault, built};
use card_text::script::Script;
use mmc_block::laws::{a_card_at_rest_is_decided, an_execution_has_its_laws};
use mmc_block::{BlockDev, Healed};
use mmc_bus::Bus;
use mmc_card_sim::{CardSpec, Fault};
use std::alloc::Global;
use std::io::{self, Read, Write};

// The exit status where every request was answered `Done` or `Data`.
const ALL_WELL: u8 = 0;
// The exit status where some request failed, or a submission or a cancellation was refused.
const SOME_FAILED: u8 = 1;

// The exit status, or the fault of a write.
fn outcome(served: io::Result<bool>) -> Result<u8, ServeFault>
    ensures { result ≡ outcome_of served }
{
    match served {
        Ok(false) => Ok(ALL_WELL),
        Ok(true) => Ok(SOME_FAILED),
        Err(_) => Err(ServeFault::Write),
    }
}

/// Serves a script on the card of a bus, without a trace, and gives what the device met and healed meanwhile.
pub fn serve_counting<B: Bus + Drop, W: Write>(
    alloc: Global,
    bus: B,
    script: Script,
    out: &mut W,
) -> (B, Healed, Result<u8, ServeFault>)
    ensures served { IsServedOver (B.view bus) (B.view result.0) script None (W.contents out.old) (W.contents out.new) result.2 }
    ensures unwritten { IfErr result.2 (λ fault. IsUnwritten (W.contents out.old) (W.contents out.new) fault) }
{
    an_execution_has_its_laws();
    let mut device = match BlockDev::open(alloc, bus) {
        Ok(device) => device,
        Err((bus, fault)) => return (bus, Healed::new(), Err(ServeFault::from(fault))),
    };
    let served = play(alloc, &mut device, script, out);
    let healed = device.healed();
    let bus = device.close();
    (bus, healed, outcome(served))
}

/// The same, and writes the last `n` exchanges.
pub fn serve_traced<B: Bus + Drop, W: Write>(
    alloc: Global,
    bus: B,
    script: Script,
    n: u32,
    out: &mut W,
) -> (B, Healed, Result<u8, ServeFault>)
    requires one { 1 ≤ n }
    requires many { n ≤ MAX_KEPT }
    ensures served { IsServedOver (B.view bus) (B.view result.0) script (Some n) (W.contents out.old) (W.contents out.new) result.2 }
    ensures unwritten { IfErr result.2 (λ fault. IsUnwritten (W.contents out.old) (W.contents out.new) fault) }
{
    let bus = match traced(alloc, bus, n) {
        Ok(bus) => bus,
        Err(bus) => return (bus, Healed::new(), Err(ServeFault::NoMemory)),
    };
    let (bus, healed, served) = serve_counting(alloc, bus, script, out);
    let ended = end_with_trace(&bus, n, served, out);
    (bus.into_inner(), healed, ended)
}

/// Opens the card of a bus, serves a script on it, and takes turns until each request has its answer, with a line for each
/// submission, cancellation and answer. With `trace`, from 1 to 65,536, the last so many exchanges follow. The bus is handed
/// back with the exit status: 0 where every request was answered `Done` or `Data`, or cancelled; 1 where some request
/// failed, or a submission or a cancellation was refused.
///
/// # Errors
/// `NoMemory` where the trace or the device can't be made, and each refusal of `BlockDev::open`; nothing was written
/// then. `Write` where a write failed; a prefix of the text went out.
pub fn serve_over<B: Bus + Drop, W: Write>(
    alloc: Global,
    bus: B,
    script: Script,
    trace: Option<u32>,
    out: &mut W,
) -> (B, Result<u8, ServeFault>)
    requires { ForSome trace (λ n. (1 ≤ n) × (n ≤ MAX_KEPT)) }
    ensures served { IsServedOver (B.view bus) (B.view result.0) script trace (W.contents out.old) (W.contents out.new) result.1 }
    ensures unwritten { IfErr result.1 (λ fault. IsUnwritten (W.contents out.old) (W.contents out.new) fault) }
{
    let (bus, _, status) = match trace {
        Some(n) => serve_traced(alloc, bus, script, n, out),
        None => serve_counting(alloc, bus, script, out),
    };
    (bus, status)
}

/// Serves a script on a new card of a spec, with these faults planned: at most 256, for different exchanges, each below
/// 2^64 - 1. It gives the exit status as `serve_over` does.
///
/// # Errors
/// The first in this order: `Register`, `ImageSize`, then those of `serve_over`; `NoMemory` at each step. Nothing was
/// written but with `Write`.
pub fn serve_on<W: Write>(
    alloc: Global,
    spec: CardSpec,
    plan: &[(u64, Fault)],
    script: Script,
    trace: Option<u32>,
    out: &mut W,
) -> Result<u8, ServeFault>
    requires planned { CanBePlanned plan.now }
    requires bounded { ForSome trace (λ n. (1 ≤ n) × (n ≤ MAX_KEPT)) }
    ensures { IsServedOnSpec spec plan.now script trace (W.contents out.old) (W.contents out.new) result }
{
    a_card_at_rest_is_decided();
    let card = built(alloc, spec, plan)?;
    serve_over(alloc, card, script, trace, out).1
}

/// Serves a script on the card of a card file, which holds an image where one is given, with a line for each answer, and
/// gives the exit status: 0 where every request was answered `Done` or `Data`, or cancelled; 1 where some request failed,
/// or a submission or a cancellation was refused. With `trace`, from 1 to 65,536, the last so many exchanges follow.
///
/// # Errors
/// The first in this order: those of `read_files`, then those of `serve_on`. Nothing was written but with `Write`; a
/// prefix of the text went out then.
pub fn serve<C: Read, S: Read, I: Read, W: Write>(
    alloc: Global,
    card: &mut C,
    script: &mut S,
    image: &mut Option<I>,
    trace: Option<u32>,
    out: &mut W,
) -> Result<u8, ServeFault>
    requires { ForSome trace (λ n. (1 ≤ n) × (n ≤ MAX_KEPT)) }
    ensures { IsOutcomeOfFiles (record { card = C.remaining card.old; script = S.remaining script.old; image = option_map (λ i. I.remaining i) image.old }) trace (W.contents out.old) (W.contents out.new) result }
{
    let FilesRead { spec, plan, script } = read_files(alloc, card, script, image)?;
    serve_on(alloc, spec, plan.as_slice(), script, trace, out)
}
