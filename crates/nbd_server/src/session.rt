// A session: the negotiation of an export, then its requests. All that have come are submitted before the next turn, so that
// neighbours merge; before the input is waited for, each has its reply.
ghost use Rattle.std.specs.Prelude.{◌≡◌, ◌⊎◌, IfOk, IfSome, List, OnOk, Option, length, ℕ};
ghost use Rattle.std.specs.Io.Buffered.{reader_buffer, reader_remaining};
ghost use Rattle.std.specs.Io.KnownBytes.{Keeps};
ghost use Rattle.mmc_block.specs.Device.{unanswered_of};
ghost use Rattle.nbd_server.specs.Acts.{Act, AreTurns};
ghost use Rattle.nbd_server.specs.Desk.{Does};
ghost use Rattle.nbd_server.specs.Messages.{HasWhole, data_length};
ghost use Rattle.nbd_server.specs.Plan.{HasAll};
ghost use Rattle.nbd_server.specs.Served.{IsServedAs, Served};
ghost use Rattle.nbd_server.specs.Session.{AreTakenUp, EndsAs, IsSession, IsTakenUp, done_of};
ghost use Rattle.nbd_server.specs.declared.plan.Plan.TheVariants.{Flush, ReadLong, WriteLong};

use crate::data::Data;
use crate::desk::{Desk, put_data, put_reply};
use crate::export::Export;
use crate::fault::{InputFault, OutputFault, SessionFault};
use crate::input::{Message, has_request, next_message};
use crate::long::{read_long, write_long};
use crate::negotiation::negotiate;
use crate::plan::{Plan, planned};
use crate::span::Span;
use mmc_bus::{Bus, Part};
use std::alloc::Global;
use std::io::{BufReader, Read, Write};

// Writes out what a writer holds back.
pub(crate) fn flush<W: Write>(out: &mut W) -> Result<(), OutputFault>
    ensures { Keeps (W.contents out.old) (W.contents out.new) }
{
    match out.flush() {
        Ok(()) => Ok(()),
        Err(_) => Err(OutputFault),
    }
}

// Serves a long read while nothing else waits, and replies.
fn serve_read<B: Bus, W: Write>(
    alloc: Global,
    desk: &mut Desk<B>,
    cookie: u64,
    part: Part,
    span: Span,
    out: &mut W,
) -> Result<(), OutputFault>
    ensures { (acts : List Act) × Does B.view desk.old desk.new (W.contents out.old) (W.contents out.new) result acts
        × OnOk result (IsServedAs part cookie (ReadLong span) acts) }
{
    desk.drain(out)?;
    match read_long(alloc, desk, part, span) {
        Ok(data) => put_data(out, cookie, data.as_slice()),
        Err(error) => put_reply(out, Some(error), cookie),
    }
}

// Serves a long write while nothing else waits, and replies.
fn serve_write<B: Bus, W: Write>(
    alloc: Global,
    desk: &mut Desk<B>,
    cookie: u64,
    part: Part,
    span: Span,
    bytes: Data,
    out: &mut W,
) -> Result<(), OutputFault>
    requires { HasAll (WriteLong span bytes) }
    ensures { (acts : List Act) × Does B.view desk.old desk.new (W.contents out.old) (W.contents out.new) result acts
        × OnOk result (IsServedAs part cookie (WriteLong span bytes) acts) }
{
    desk.drain(out)?;
    match write_long(alloc, desk, part, span, bytes) {
        Ok(()) => put_reply(out, None, cookie),
        Err(error) => put_reply(out, Some(error), cookie),
    }
}

// Replies once all earlier requests have their replies.
fn serve_flush<B: Bus, W: Write>(
    desk: &mut Desk<B>,
    part: Part,
    cookie: u64,
    out: &mut W,
) -> Result<(), OutputFault>
    ensures { (acts : List Act) × Does B.view desk.old desk.new (W.contents out.old) (W.contents out.new) result acts
        × OnOk result (IsServedAs part cookie Flush acts) }
{
    desk.drain(out)?;
    put_reply(out, None, cookie)
}

// Does what a request comes to.
fn serve_plan<B: Bus, W: Write>(
    alloc: Global,
    desk: &mut Desk<B>,
    part: Part,
    cookie: u64,
    plan: Plan,
    out: &mut W,
) -> Result<(), OutputFault>
    requires { HasAll plan }
    ensures { (acts : List Act) × Does B.view desk.old desk.new (W.contents out.old) (W.contents out.new) result acts
        × OnOk result (IsServedAs part cookie plan acts) }
{
    match plan {
        Plan::Answer(error) => put_reply(out, error, cookie),
        Plan::Ask(request) => desk.ask(alloc, cookie, request, out),
        Plan::ReadLong(span) => serve_read(alloc, desk, cookie, part, span, out),
        Plan::WriteLong(span, bytes) => serve_write(alloc, desk, cookie, part, span, bytes, out),
        Plan::Flush => serve_flush(desk, part, cookie, out),
    }
}

// Serves a request, and says whether another may follow.
fn serve_message<B: Bus, W: Write>(
    alloc: Global,
    desk: &mut Desk<B>,
    export: &Export,
    message: Message,
    out: &mut W,
) -> Result<bool, OutputFault>
    requires { IfSome message.given (λ bytes. length bytes ≡ data_length message.header.command message.header.length) }
    ensures { (acts : List Act) × Does B.view desk.old desk.new (W.contents out.old) (W.contents out.new) (done_of result) acts
        × IfOk result (IsTakenUp export.now message.header message.given acts) }
{
    let Message { header, given } = message;
    let Some(plan) = planned(export, &header, given) else {
        return Ok(false);
    };
    serve_plan(alloc, desk, export.part, header.cookie, plan, out)?;
    Ok(true)
}

// Replies to all that has come, where the next request hasn't come whole: before it is waited for.
fn settle<B: Bus, R: Read, W: Write>(
    desk: &mut Desk<B>,
    input: &BufReader<R>,
    out: &mut W,
) -> Result<(), OutputFault>
    ensures does { (acts : List Act) × AreTurns acts × Does B.view desk.old desk.new (W.contents out.old) (W.contents out.new) result acts }
    ensures settled { OnOk result (HasWhole (reader_buffer input.now) ⊎ (unanswered_of desk.new.device ≡ 0)) }
{
    if has_request(input) {
        return Ok(());
    }
    desk.drain(out)?;
    flush(out)
}

// Serves requests until the client ends the session, or the input ends; 2^64 - 1 at most. What comes back is how the input ended.
fn serve_all<B: Bus, R: Read, W: Write>(
    alloc: Global,
    desk: &mut Desk<B>,
    export: &Export,
    input: &mut BufReader<R>,
    out: &mut W,
) -> Result<Result<(), InputFault>, OutputFault>
    ensures { (acts : List Act) × Does B.view desk.old desk.new (W.contents out.old) (W.contents out.new) (done_of result) acts
        × IfOk result (λ ended. (left : Option (List ℕ)) × (served : List Served)
        × AreTakenUp export.now (reader_remaining R.remaining input.old) left acts served
        × EndsAs ended left (reader_remaining R.remaining input.new) served) }
{
    for _served in 0..u64::MAX {
        settle(desk, input, out)?;
        let message = match next_message(alloc, input) {
            Ok(Some(message)) => message,
            Ok(None) => return Ok(Ok(())),
            Err(fault) => return Ok(Err(fault)),
        };
        if !serve_message(alloc, desk, export, message, out)? {
            return Ok(Ok(()));
        }
    }
    Ok(Ok(()))
}

// The same, and then nothing is without an answer.
fn serve_export<B: Bus, R: Read, W: Write>(
    alloc: Global,
    desk: &mut Desk<B>,
    export: &Export,
    input: &mut BufReader<R>,
    out: &mut W,
) -> Result<Result<(), InputFault>, OutputFault>
    ensures { (acts : List Act) × Does B.view desk.old desk.new (W.contents out.old) (W.contents out.new) (done_of result) acts
        × IfOk result (λ ended. (unanswered_of desk.new.device ≡ 0)
        × ((left : Option (List ℕ)) × (served : List Served)
        × AreTakenUp export.now (reader_remaining R.remaining input.old) left acts served
        × EndsAs ended left (reader_remaining R.remaining input.new) served)) }
{
    let ended = serve_all(alloc, desk, export, input, out)?;
    desk.drain(out)?;
    flush(out)?;
    Ok(ended)
}

/// Negotiates an export, and serves its requests until the client ends the session, or the input ends. The empty name is that of
/// `default`. Whatever ends the session, each request that came whole has its reply then, unless the output failed.
///
/// # Errors
/// Each `SessionFault`, as said there.
pub fn serve<B: Bus, R: Read, W: Write>(
    alloc: Global,
    desk: &mut Desk<B>,
    default: Part,
    input: &mut BufReader<R>,
    out: &mut W,
) -> Result<(), SessionFault>
    ensures { (desk.new ≡ desk.old) ⊎ IsSession B.view desk.old desk.new (reader_remaining R.remaining input.old)
        (reader_remaining R.remaining input.new) (W.contents out.old) (W.contents out.new) result }
{
    let Some(export) = negotiate(alloc, desk.device().info(), default, input, out)? else {
        return Ok(());
    };
    Ok(serve_export(alloc, desk, &export, input, out)??)
}
