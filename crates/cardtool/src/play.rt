// Plays the events of a script on a device, and prints what becomes of them.
ghost use Rattle.std.specs.Prelude.{◌<◌, ◌≡◌, ◌++◌, ◌∷◌, [], IfOk, true};
ghost use Rattle.text_out.specs.Writing.{Writes};
ghost use Rattle.mmc_block.specs.Answers.{any_failed};
ghost use Rattle.mmc_block.specs.Device.{work_of};
ghost use Rattle.card_text.specs.declared.event.ScriptEvent.TheVariants.{Cancel, Run, Submit};
ghost use Rattle.card_text.specs.Output.{completions_text};
ghost use Rattle.cardtool.specs.Serving.{IsLaterDevice, Plays, TurnsAndPrints, answer_if_printed, print_result};

use arrayvec::ArrayVec;
use card_text::event::ScriptEvent;
use card_text::output::{
    has_failure, put_cancelled, put_completions, put_queued, put_refused, put_uncancelled,
};
use card_text::script::Script;
use mmc_block::{BlockDev, Completions, Request, Ticket};
use mmc_bus::Bus;
use std::alloc::Global;
use std::io::{self, Write};

// The answer of lines that were printed, or were not.
fn answer(printed: io::Result<()>, bad: bool) -> io::Result<bool>
    ensures { result ≡ answer_if_printed bad printed }
{
    match printed {
        Ok(()) => Ok(bad),
        Err(fault) => Err(fault),
    }
}

// A line for each completion, and whether some request failed; none is left. It stands alone, so that a turn doesn't pay for its
// locals.
#[inline(never)]
fn print<W: Write>(given: &mut Completions, out: &mut W) -> io::Result<bool>
    ensures printed { Writes (W.contents out.old) (W.contents out.new) (print_result result) (completions_text given.old.items) }
    ensures bad { IfOk result (λ bad. bad ≡ any_failed given.old.items) }
    ensures none { given.new.items ≡ [] }
{
    let printed = put_completions(out, given.as_slice());
    let bad = has_failure(given.as_slice());
    given.clear();
    answer(printed, bad)
}

// One turn, and a line for each completion; the list that they are given in is empty before and after it. The answer of this and
// the next functions says whether some request failed, or a submission or a cancellation was refused. It stands alone, so that
// `bench/run` finds it.
#[inline(never)]
fn turn<B: Bus, W: Write>(
    device: &mut BlockDev<B>,
    given: &mut Completions,
    out: &mut W,
) -> io::Result<bool>
    requires { given.old.items ≡ [] }
    ensures turns { (B.view device.new.bus).is_kept ≡ true
        → TurnsAndPrints B.view device.old device.new (W.contents out.old) (W.contents out.new) result }
    ensures later_device { IsLaterDevice B.view device.old device.new }
    ensures falls { 0 < work_of device.old → work_of device.new < work_of device.old }
    ensures none { given.new.items ≡ [] }
{
    device.turn_into(given);
    if given.is_empty() {
        return Ok(false);
    }
    print(given, out)
}

// Turns until no request is without an answer.
fn run<B: Bus, W: Write>(
    device: &mut BlockDev<B>,
    given: &mut Completions,
    out: &mut W,
) -> io::Result<bool>
    requires { given.old.items ≡ [] }
    ensures plays { Plays B.view device.old device.new (Run ∷ []) (W.contents out.old) (W.contents out.new) result }
    ensures none { given.new.items ≡ [] }
{
    let mut bad = false;
    while device.work_left() > 0 {
        bad = turn(device, given, out)? | bad;
    }
    Ok(bad)
}

// A submission, with its line.
fn submit<B: Bus, W: Write>(
    alloc: Global,
    device: &mut BlockDev<B>,
    client: u32,
    request: Request,
    out: &mut W,
) -> io::Result<bool>
    ensures { Plays B.view device.old device.new (Submit client request ∷ []) (W.contents out.old) (W.contents out.new) result }
{
    match device.submit(alloc, client, request) {
        Ok(ticket) => {
            let printed = put_queued(out, ticket, client);
            answer(printed, false)
        }
        Err((_, refused)) => {
            let printed = put_refused(out, client, refused);
            answer(printed, true)
        }
    }
}

// A cancellation, with its line.
fn cancel<B: Bus, W: Write>(
    device: &mut BlockDev<B>,
    ticket: Ticket,
    out: &mut W,
) -> io::Result<bool>
    ensures { Plays B.view device.old device.new (Cancel ticket ∷ []) (W.contents out.old) (W.contents out.new) result }
{
    match device.cancel(ticket) {
        Ok(_) => {
            let printed = put_cancelled(out, ticket);
            answer(printed, false)
        }
        Err(fault) => {
            let printed = put_uncancelled(out, ticket, fault);
            answer(printed, true)
        }
    }
}

// One event, with its lines.
fn play_event<B: Bus, W: Write>(
    alloc: Global,
    device: &mut BlockDev<B>,
    event: ScriptEvent,
    given: &mut Completions,
    out: &mut W,
) -> io::Result<bool>
    requires { given.old.items ≡ [] }
    ensures plays { Plays B.view device.old device.new (event ∷ []) (W.contents out.old) (W.contents out.new) result }
    ensures none { given.new.items ≡ [] }
{
    match event {
        ScriptEvent::Submit { client, request } => submit(alloc, device, client, request, out),
        ScriptEvent::Cancel { ticket } => cancel(device, ticket, out),
        ScriptEvent::Turn => turn(device, given, out),
        ScriptEvent::Run => run(device, given, out),
    }
}

/// Plays all events of a script, and then takes turns until no request is without an answer. The answer says whether some
/// request failed, or a submission or a cancellation was refused.
pub fn play<B: Bus, W: Write>(
    alloc: Global,
    device: &mut BlockDev<B>,
    script: Script,
    out: &mut W,
) -> io::Result<bool>
    ensures { Plays B.view device.old device.new (script ++ Run ∷ []) (W.contents out.old) (W.contents out.new) result }
{
    let mut script = script;
    let mut bad = false;
    let mut given = ArrayVec::new();
    while let Some(event) = script.take_first() {
        bad = play_event(alloc, device, event, &mut given, out)? | bad;
    }
    Ok(run(device, &mut given, out)? | bad)
}
