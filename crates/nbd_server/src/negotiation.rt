// The negotiation of an export.
ghost use Rattle.std.specs.Prelude.{IfOk, IfSome, OnOk};
ghost use Rattle.std.specs.Io.Buffered.{reader_remaining};
ghost use Rattle.text_out.specs.Writing.{Writes};
ghost use Rattle.nbd_messages.specs.Options.{option_reply_header};
ghost use Rattle.nbd_server.specs.Exports.{IsExport, IsOf};
ghost use Rattle.nbd_server.specs.Session.{Grows, Shrinks};

use crate::desk::put_bytes;
use crate::export::Export;
use crate::fault::{InputFault, OutputFault, SessionFault};
use crate::input::{MAX_OPTION, bytes_of, fill, next_option};
use crate::names::{PARTS, part_by, part_name};
use crate::session::flush;
use mmc_block::Info;
use mmc_bus::Part;
use nbd_messages::{
    ClientFlags, OptionKind, OptionReply, block_size_info, client_flags_in, export_answer,
    export_info, greeting, name_length, option_reply,
};
use std::alloc::Global;
use std::io::{BufReader, Read, Write};

// Where the negotiation stands after an option.
#[derive(Clone, Copy, Debug, PartialEq, Eq)]
enum Standing {
    // Another option may follow.
    GoesOn,
    // Requests of this export follow.
    Agreed(Export),
    // The session is over.
    Over,
}

// The export with this name; the empty one is that of `default`.
fn export_by(info: &Info, default: Part, name: &[u8]) -> Option<Export>
    ensures { IfSome result (IsExport info.now) }
{
    let part = if name.is_empty() {
        default
    } else {
        part_by(name)?
    };
    Export::of(info, part)
}

// Writes a reply without data.
fn put_plain<W: Write>(out: &mut W, option: u32, reply: OptionReply) -> Result<(), OutputFault>
    ensures { Writes (W.contents out.old) (W.contents out.new) result (option_reply_header option reply 0) }
{
    put_bytes(out, &option_reply(option, reply, 0))
}

// Writes the name of an export.
fn put_name<W: Write>(out: &mut W, part: Part, option: u32) -> Result<(), OutputFault>
    ensures { OnOk result (Grows (W.contents out.old) (W.contents out.new)) }
{
    let name = part_name(part);
    let length = name.len() as u32;
    put_bytes(out, &option_reply(option, OptionReply::Server, 4 + length))?;
    put_bytes(out, &name_length(length))?;
    put_bytes(out, name)
}

// Writes the names of all exports.
fn put_names<W: Write>(out: &mut W, info: &Info, option: u32) -> Result<(), OutputFault>
    ensures { OnOk result (Grows (W.contents out.old) (W.contents out.new)) }
{
    for part in PARTS {
        if info.sectors(part).is_some() {
            put_name(out, part, option)?;
        }
    }
    put_plain(out, option, OptionReply::Acknowledged)
}

// Writes what an export is like.
fn put_info<W: Write>(out: &mut W, export: &Export, option: u32) -> Result<(), OutputFault>
    ensures { OnOk result (Grows (W.contents out.old) (W.contents out.new)) }
{
    put_bytes(out, &option_reply(option, OptionReply::Info, 12))?;
    put_bytes(out, &export_info(export.size(), export.can.flags()))?;
    put_bytes(out, &option_reply(option, OptionReply::Info, 14))?;
    put_bytes(out, &block_size_info())?;
    put_plain(out, option, OptionReply::Acknowledged)
}

// Writes what an export is like, as `ExportName` is answered.
fn put_answer<W: Write>(
    out: &mut W,
    export: &Export,
    client: ClientFlags,
) -> Result<(), OutputFault>
    ensures { OnOk result (Grows (W.contents out.old) (W.contents out.new)) }
{
    put_bytes(out, &export_answer(export.size(), export.can.flags()))?;
    if !client.no_zeroes {
        put_bytes(out, &[0; 124])?;
    }
    Ok(())
}

// The name in the data of `Info` or `Go`: its length, the name, and how many questions of two bytes follow.
fn name_in(data: &[u8]) -> Option<&[u8]> {
    let (length, after) = data.split_first_chunk::<4>()?;
    let length = u32::from_be_bytes(*length) as usize;
    if after.len() < length {
        return None;
    }
    let (name, after) = after.split_at(length);
    let (count, questions) = after.split_first_chunk::<2>()?;
    if questions.len() != 2 * u16::from_be_bytes(*count) as usize {
        return None;
    }
    Some(name)
}

// Answers `Info` or `Go`, and gives the export where there is one.
fn inform<W: Write>(
    out: &mut W,
    info: &Info,
    default: Part,
    option: u32,
    data: &[u8],
) -> Result<Option<Export>, OutputFault>
    ensures written { OnOk result (Grows (W.contents out.old) (W.contents out.new)) }
    ensures export { IfOk result (λ found. IfSome found (IsExport info.now)) }
{
    let Some(name) = name_in(data) else {
        put_plain(out, option, OptionReply::Invalid)?;
        return Ok(None);
    };
    let Some(export) = export_by(info, default, name) else {
        put_plain(out, option, OptionReply::Unknown)?;
        return Ok(None);
    };
    put_info(out, &export, option)?;
    Ok(Some(export))
}

// Answers an option.
fn answer<W: Write>(
    out: &mut W,
    info: &Info,
    default: Part,
    client: ClientFlags,
    option: u32,
    data: &[u8],
) -> Result<Standing, SessionFault>
    ensures written { OnOk result (Grows (W.contents out.old) (W.contents out.new)) }
    ensures export { IfOk result (IsOf info.now) }
{
    match OptionKind::by(option) {
        None => put_plain(out, option, OptionReply::Unsupported)?,
        Some(OptionKind::Abort) => {
            put_plain(out, option, OptionReply::Acknowledged)?;
            return Ok(Standing::Over);
        }
        Some(OptionKind::List) if data.is_empty() => put_names(out, info, option)?,
        Some(OptionKind::List) => put_plain(out, option, OptionReply::Invalid)?,
        Some(OptionKind::Info) => {
            inform(out, info, default, option, data)?;
        }
        Some(OptionKind::Go) => {
            if let Some(export) = inform(out, info, default, option, data)? {
                return Ok(Standing::Agreed(export));
            }
        }
        Some(OptionKind::ExportName) => {
            let Some(export) = export_by(info, default, data) else {
                return Err(SessionFault::UnknownExport);
            };
            put_answer(out, &export, client)?;
            return Ok(Standing::Agreed(export));
        }
    }
    Ok(Standing::GoesOn)
}

// Greets, and reads what the client says of itself.
fn greet<R: Read, W: Write>(
    input: &mut BufReader<R>,
    out: &mut W,
) -> Result<ClientFlags, SessionFault>
    ensures read { OnOk result (Shrinks (reader_remaining R.remaining input.old) (reader_remaining R.remaining input.new)) }
    ensures written { OnOk result (Grows (W.contents out.old) (W.contents out.new)) }
{
    put_bytes(out, &greeting())?;
    flush(out)?;
    let mut bytes = [0; 4];
    fill(input, &mut bytes)?;
    match client_flags_in(&bytes) {
        Some(client) => Ok(client),
        None => Err(SessionFault::Input(InputFault::Junk)),
    }
}

// Reads an option, and answers it.
fn serve_option<R: Read, W: Write>(
    alloc: Global,
    info: &Info,
    default: Part,
    client: ClientFlags,
    input: &mut BufReader<R>,
    out: &mut W,
) -> Result<Standing, SessionFault>
    ensures export { IfOk result (IsOf info.now) }
    ensures read { OnOk result (Shrinks (reader_remaining R.remaining input.old) (reader_remaining R.remaining input.new)) }
    ensures written { OnOk result (Grows (W.contents out.old) (W.contents out.new)) }
{
    let Some(option) = next_option(input)? else {
        return Ok(Standing::Over);
    };
    if option.length > MAX_OPTION {
        return Err(SessionFault::OptionTooLong);
    }
    let Some(data) = bytes_of(alloc, input, option.length as usize)? else {
        return Err(SessionFault::NoMemory);
    };
    let standing = answer(out, info, default, client, option.number, data.as_slice())?;
    flush(out)?;
    Ok(standing)
}

/// Negotiates an export; `None` where the client wants none. At most 2^64 - 1 options are answered.
///
/// # Errors
/// Each `SessionFault`, as said there.
pub fn negotiate<R: Read, W: Write>(
    alloc: Global,
    info: &Info,
    default: Part,
    input: &mut BufReader<R>,
    out: &mut W,
) -> Result<Option<Export>, SessionFault>
    ensures export { IfOk result (λ agreed. IfSome agreed (IsExport info.now)) }
    ensures read { OnOk result (Shrinks (reader_remaining R.remaining input.old) (reader_remaining R.remaining input.new)) }
    ensures written { OnOk result (Grows (W.contents out.old) (W.contents out.new)) }
{
    let client = greet(input, out)?;
    for _ in 0..u64::MAX {
        match serve_option(alloc, info, default, client, input, out)? {
            Standing::GoesOn => {}
            Standing::Agreed(export) => return Ok(Some(export)),
            Standing::Over => return Ok(None),
        }
    }
    Ok(None)
}
