// What a request comes to. Its rules:
// 1. What isn't for whole sectors of the export, one at least, is invalid, and so is a read or a write of more than `MAX_LENGTH`.
// 2. Up to `PART` sectors a read or a write is one request of the device. A longer one is served in parts.
// 3. A trim is one where the card trims. Otherwise it is an erase of the whole erase units in it, if there are any.
// 4. Zeroes are a trim, where the card trims to zeroes.
ghost use Rattle.std.specs.Prelude.{◌≡◌, ◌≢◌, ◌<◌, ◌+◌, ◌≤◌, List, MatchOption, Option, Some, ℕ};
ghost use Rattle.nbd_messages.specs.declared.command.Command.TheVariants.{Disconnect, Flush, Read, Trim, Write, WriteZeroes};
ghost use Rattle.nbd_server.specs.Plan.{IsPlan, IsPlanFor, Names};
ghost use Rattle.nbd_server.specs.declared.span.Span.{Span};

use crate::data::Data;
use crate::export::Export;
use crate::input::MAX_LENGTH;
use crate::long::PART;
use crate::span::Span;
use mmc_block::Request;
use nbd_messages::{Command, ReplyError, RequestHeader};

/// What a request comes to.
#[derive(Drop)]
pub enum Plan {
    /// It is answered without the device.
    Answer(Option<ReplyError>),
    /// It is one request of the device.
    Ask(Request),
    /// It is read in parts.
    ReadLong(Span),
    /// It is written in parts.
    WriteLong(Span, Data),
    /// Nothing before it may be without an answer.
    Flush,
}

// The sectors that a request names, where they are whole ones of the export.
fn span_of(export: &Export, header: &RequestHeader) -> Option<Span>
    ensures { MatchOption result ((span : Span) → Names export.now header.now span → ⊥) (Names export.now header.now) }
{
    let length = header.length as u64;
    if header.offset % 512 != 0 || length % 512 != 0 || length == 0 {
        return None;
    }
    let span = Span {
        start: header.offset / 512,
        count: length / 512,
    };
    if span.start.saturating_add(span.count) > export.sectors {
        return None;
    }
    Some(span)
}

// The whole erase units among these sectors; the last one may end with the export.
fn whole_units(export: &Export, span: Span) -> Span
    ensures from { 0 < result.count → span.start ≤ result.start }
    ensures to { 0 < result.count → result.start + result.count ≤ span.start + span.count }
{
    let unit = export.erase_unit;
    let start = span.start.div_ceil(unit).saturating_mul(unit);
    let end = span.start.saturating_add(span.count);
    let end = if end == export.sectors {
        end
    } else {
        end - end % unit
    };
    Span {
        start,
        count: end.saturating_sub(start),
    }
}

fn read(export: &Export, span: Span) -> Plan
    ensures { (given : Option (List ℕ)) → IsPlanFor export.now Read span given result }
{
    if span.count > PART {
        return Plan::ReadLong(span);
    }
    Plan::Ask(Request::Read {
        part: export.part,
        start: span.start,
        count: span.count,
    })
}

fn write(export: &Export, span: Span, bytes: Data) -> Plan
    ensures { IsPlanFor export.now Write span (Some bytes) result }
{
    if export.can.read_only {
        return Plan::Answer(Some(ReplyError::NotPermitted));
    }
    // A piece has as many bytes as a part.
    match bytes.into_piece() {
        Ok(bytes) => Plan::Ask(Request::Write {
            part: export.part,
            start: span.start,
            count: span.count,
            bytes,
        }),
        Err(bytes) => Plan::WriteLong(span, bytes),
    }
}

fn trim(export: &Export, span: Span) -> Plan
    ensures { (given : Option (List ℕ)) → IsPlanFor export.now Trim span given result }
{
    if export.can.read_only {
        return Plan::Answer(Some(ReplyError::NotPermitted));
    }
    if !export.can.trims {
        return Plan::Answer(Some(ReplyError::NotSupported));
    }
    if export.trims_each {
        return Plan::Ask(Request::Trim {
            part: export.part,
            start: span.start,
            count: span.count,
        });
    }
    let Span { start, count } = whole_units(export, span);
    if count == 0 {
        return Plan::Answer(None);
    }
    Plan::Ask(Request::Erase {
        part: export.part,
        start,
        count,
    })
}

fn write_zeroes(export: &Export, span: Span) -> Plan
    ensures { (given : Option (List ℕ)) → IsPlanFor export.now WriteZeroes span given result }
{
    if export.can.read_only {
        return Plan::Answer(Some(ReplyError::NotPermitted));
    }
    if !export.can.zeroes {
        return Plan::Answer(Some(ReplyError::NotSupported));
    }
    Plan::Ask(Request::Trim {
        part: export.part,
        start: span.start,
        count: span.count,
    })
}

// What a request for these sectors comes to.
fn planned_for(export: &Export, command: Command, span: Span, given: Option<Data>) -> Plan
    requires ends { command ≢ Disconnect }
    requires waits { command ≢ Flush }
    ensures { IsPlanFor export.now command span given result }
{
    match (command, given) {
        (Command::Read, _) => read(export, span),
        (Command::Write, Some(bytes)) => write(export, span, bytes),
        (Command::Write, None) => Plan::Answer(Some(ReplyError::NoMemory)),
        (Command::Trim, _) => trim(export, span),
        (Command::WriteZeroes, _) => write_zeroes(export, span),
        (Command::Disconnect | Command::Flush, _) => Plan::Flush,
    }
}

/// What a request comes to, or `None` where it ends the session. `given` are the data
/// of a write, of which there are none where it is too long or memory was refused.
pub fn planned(export: &Export, header: &RequestHeader, given: Option<Data>) -> Option<Plan>
    ensures { MatchOption result (header.now.command ≡ Some Disconnect) (IsPlan export.now header.now given) }
{
    let Some(command) = header.command else {
        return Some(Plan::Answer(Some(ReplyError::Invalid)));
    };
    match command {
        Command::Disconnect => None,
        Command::Flush => Some(Plan::Flush),
        Command::Read | Command::Write if header.length > MAX_LENGTH => {
            Some(Plan::Answer(Some(ReplyError::Invalid)))
        }
        _ => match span_of(export, header) {
            None => Some(Plan::Answer(Some(ReplyError::Invalid))),
            Some(span) => Some(planned_for(export, command, span, given)),
        },
    }
}
