// Reads and writes that are served in parts. Their rules:
// 1. A part has `PART` sectors, or as many as are left. An attempt at it takes some forty exchanges, so that a card that fails at every
//    hundredth is served within the four attempts that each request of the device has.
// 2. As many parts as the device takes are submitted together, so that it joins neighbours, while nothing else waits.
// 3. The request has one reply, which is an error where some part had one. Of a write that fails each sector is old or new.
ghost use Rattle.std.specs.Prelude.{◌*◌, ◌++◌, ◌<◌, ◌≡◌, ◌≢◌, ◌≤◌, [], IfErr, IfOk, List, OnOk, drop, length, take, ℕ};
ghost use Rattle.nbd_server.specs.declared.long.TheConstants.{WINDOW};
ghost use Rattle.mmc_block.specs.Device.{unanswered_of};
ghost use Rattle.nbd_messages.specs.declared.error.ReplyError.TheVariants.{Failed};
ghost use Rattle.nbd_server.specs.Acts.{Act, AreOfParts};
ghost use Rattle.nbd_server.specs.Desk.{Leads};
ghost use Rattle.nbd_server.specs.Parts.{AreAll, AreRead, AreWindows, AreWritten, HasFailedPart, IsRead, Window, IsWritten, accepted, gathered, reads, writes};

use crate::answers::{are_done, join};
use crate::data::Data;
use crate::desk::Desk;
use crate::span::Span;
use mmc_block::Request;
use mmc_bus::{Bus, Part};
use nbd_messages::ReplyError;
use std::alloc::Global;

/// The most sectors of a part.
pub const PART: u64 = 16;
// The sectors of as many parts as are submitted together.
const WINDOW: u64 = 4096;

// Submits the parts of a read, and gives how many they are.
fn ask_reads<B: Bus>(
    alloc: Global,
    desk: &mut Desk<B>,
    part: Part,
    span: Span,
) -> Result<u32, ReplyError>
    requires { span.count ≤ 4096 }
    ensures leads { (acts : List Act) × AreOfParts acts × Leads B.view desk.old acts desk.new × (gathered acts ≡ [])
        × IfOk result (λ parts. AreAll parts span.count × (accepted acts ≡ reads part span.start span.count parts)) }
    ensures refused { IfErr result (λ error. error ≢ Failed) }
{
    let parts = span.count.div_ceil(PART) as u32;
    for number in 0..parts {
        let Span { start, count } = span.after(PART * number as u64, PART);
        let request = Request::Read { part, start, count };
        desk.ask_part(alloc, request)?;
    }
    Ok(parts)
}

// Submits the parts of the next sectors of a write, a whole window or all that are left, and gives how many they are. They take their
// bytes out of its data.
fn ask_writes<B: Bus>(
    alloc: Global,
    desk: &mut Desk<B>,
    part: Part,
    span: Span,
    bytes: &mut Data,
) -> Result<u32, ReplyError>
    requires few { span.count ≤ WINDOW }
    requires whole { 512 * span.count ≤ length bytes.old }
    requires rest { span.count < WINDOW → length bytes.old ≡ 512 * span.count }
    ensures leads { (acts : List Act) × AreOfParts acts × Leads B.view desk.old acts desk.new × (gathered acts ≡ [])
        × IfOk result (λ parts. AreAll parts span.count
        × (accepted acts ≡ writes part span.start span.count (take (512 * span.count) bytes.old) parts)) }
    ensures refused { IfErr result (λ error. error ≢ Failed) }
    ensures taken { OnOk result (bytes.new ≡ drop (512 * span.count) bytes.old) }
{
    let parts = span.count.div_ceil(PART) as u32;
    for number in 0..parts {
        let Span { start, count } = span.after(PART * number as u64, PART);
        let request = Request::Write {
            part,
            start,
            count,
            bytes: bytes.next_piece(),
        };
        desk.ask_part(alloc, request)?;
    }
    Ok(parts)
}

// Reads sectors in parts that are submitted together, and puts their bytes after others.
fn read_window<B: Bus>(
    alloc: Global,
    desk: &mut Desk<B>,
    part: Part,
    span: Span,
    bytes: &mut Vec<u8>,
) -> Result<(), ReplyError>
    requires few { span.count ≤ 4096 }
    ensures leads { (acts : List Act) × AreOfParts acts × Leads B.view desk.old acts desk.new
        × IfOk result (λ done. (more : List ℕ) × (bytes.new.items ≡ bytes.old.items ++ more) × IsRead part span.start span.count acts more)
        × IfErr result (λ error. error ≡ Failed → HasFailedPart acts) }
    ensures none { unanswered_of desk.new.device ≡ 0 }
    ensures cleared { desk.new.cookies ≡ [] }
{
    let asked = ask_reads(alloc, desk, part, span);
    let given = desk.gather();
    join(given.as_slice(), asked?, span.count, bytes)
}

// Writes the next sectors of a write, a whole window or all that are left, in parts that are submitted together.
fn write_window<B: Bus>(
    alloc: Global,
    desk: &mut Desk<B>,
    part: Part,
    span: Span,
    bytes: &mut Data,
) -> Result<(), ReplyError>
    requires few { span.count ≤ WINDOW }
    requires whole { 512 * span.count ≤ length bytes.old }
    requires rest { span.count < WINDOW → length bytes.old ≡ 512 * span.count }
    ensures leads { (acts : List Act) × AreOfParts acts × Leads B.view desk.old acts desk.new
        × IfOk result (λ done. IsWritten part span.start span.count acts (take (512 * span.count) bytes.old))
        × IfErr result (λ error. error ≡ Failed → HasFailedPart acts) }
    ensures none { unanswered_of desk.new.device ≡ 0 }
    ensures cleared { desk.new.cookies ≡ [] }
    ensures taken { OnOk result (bytes.new ≡ drop (512 * span.count) bytes.old) }
{
    let asked = ask_writes(alloc, desk, part, span, bytes);
    let given = desk.gather();
    if are_done(given.as_slice(), asked?) {
        Ok(())
    } else {
        Err(ReplyError::Failed)
    }
}

/// The contents of these sectors.
///
/// # Errors
/// `Failed` where the card failed at some part, and the device's refusal of one.
pub fn read_long<B: Bus>(
    alloc: Global,
    desk: &mut Desk<B>,
    part: Part,
    span: Span,
) -> Result<Vec<u8>, ReplyError>
    requires none { unanswered_of desk.old.device ≡ 0 }
    requires cleared { desk.old.cookies ≡ [] }
    ensures leads { (acts : List Act) × AreOfParts acts × Leads B.view desk.old acts desk.new
        × IfOk result (λ bytes. (windows : List Window) × AreRead part span.start windows × AreWindows windows span.count acts bytes.items)
        × IfErr result (λ error. error ≡ Failed → HasFailedPart acts) }
    ensures none { unanswered_of desk.new.device ≡ 0 }
    ensures cleared { desk.new.cookies ≡ [] }
{
    let Ok(mut bytes) = Vec::with_capacity(alloc, (span.count as usize).saturating_mul(512)) else {
        return Err(ReplyError::NoMemory);
    };
    let mut done = 0_u64;
    while done < span.count {
        let next = span.after(done, WINDOW);
        read_window(alloc, desk, part, next, &mut bytes)?;
        done += next.count;
    }
    Ok(bytes)
}

/// Writes these bytes to these sectors.
///
/// # Errors
/// `Failed` where the card failed at some part, and the device's refusal of one.
pub fn write_long<B: Bus>(
    alloc: Global,
    desk: &mut Desk<B>,
    part: Part,
    span: Span,
    bytes: Data,
) -> Result<(), ReplyError>
    requires none { unanswered_of desk.old.device ≡ 0 }
    requires cleared { desk.old.cookies ≡ [] }
    requires whole { length bytes ≡ 512 * span.count }
    ensures leads { (acts : List Act) × AreOfParts acts × Leads B.view desk.old acts desk.new
        × IfOk result (λ done. (windows : List Window) × AreWritten part span.start windows × AreWindows windows span.count acts bytes)
        × IfErr result (λ error. error ≡ Failed → HasFailedPart acts) }
    ensures none { unanswered_of desk.new.device ≡ 0 }
    ensures cleared { desk.new.cookies ≡ [] }
{
    let mut bytes = bytes;
    let mut done = 0_u64;
    while done < span.count {
        let next = span.after(done, WINDOW);
        write_window(alloc, desk, part, next, &mut bytes)?;
        done += next.count;
    }
    Ok(())
}
