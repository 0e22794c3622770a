// What a client sends.
ghost use Rattle.std.specs.Prelude.{◌≡◌, ◌≢◌, [], IfErr, IfOk, IfSome, List, MatchOption, OnOk, Some, length, true, ℕ};
ghost use Rattle.std.specs.Io.Buffered.{reader_buffer, reader_remaining};
ghost use Rattle.std.specs.Io.KnownBytes.{IsAtEnd, Keeps};
ghost use Rattle.nbd_messages.specs.Options.{option_in};
ghost use Rattle.nbd_messages.specs.Requests.{request_in};
ghost use Rattle.nbd_server.specs.Messages.{HasWhole, IsJunk, IsRequest, Reads, data_length};
ghost use Rattle.nbd_server.specs.declared.fault.InputFault.TheVariants.{Junk};

use crate::data::{Data, PIECE};
use crate::fault::InputFault;
use nbd_messages::{Command, OptionHeader, RequestHeader, option_in, request_in};
use std::alloc::Global;
use std::io::{BufRead, BufReader, ErrorKind, Read};

/// The most bytes of data that an option may have.
pub const MAX_OPTION: u32 = 4096;

/// The most bytes that a read or a write may name: 32 MiB.
pub const MAX_LENGTH: u32 = 0x0200_0000;

/// Reads just so many bytes as there is room for.
pub fn fill<R: Read>(input: &mut BufReader<R>, bytes: &mut [u8]) -> Result<(), InputFault>
    ensures read { OnOk result (Reads R.remaining input.old input.new bytes.new) }
    ensures fault { IfErr result (λ fault. fault ≢ Junk) }
{
    match input.read_exact(bytes) {
        Ok(()) => Ok(()),
        Err(error) => match error.kind() {
            ErrorKind::UnexpectedEof => Err(InputFault::Cut),
            _ => Err(InputFault::Reader),
        },
    }
}

// Whether no byte is left.
fn is_at_end<R: Read>(input: &mut BufReader<R>) -> Result<bool, InputFault>
    ensures kept { Keeps (reader_remaining R.remaining input.old) (reader_remaining R.remaining input.new) }
    ensures end { IfOk result (λ ends. ends ≡ true → IsAtEnd (reader_remaining R.remaining input.old)) }
    ensures fault { IfErr result (λ fault. fault ≢ Junk) }
{
    match input.fill_buf() {
        Ok(bytes) => Ok(bytes.is_empty()),
        Err(_) => Err(InputFault::Reader),
    }
}

/// So many bytes, or `None` where memory was refused, and then nothing is read.
pub fn bytes_of<R: Read>(
    alloc: Global,
    input: &mut BufReader<R>,
    count: usize,
) -> Result<Option<Vec<u8>>, InputFault>
    ensures read { IfOk result (λ bytes. MatchOption bytes (input.new ≡ input.old)
        (λ bytes. (length bytes.items ≡ count) × Reads R.remaining input.old input.new bytes.items)) }
    ensures fault { IfErr result (λ fault. fault ≢ Junk) }
{
    let Ok(mut bytes) = vec![in alloc; 0u8; count] else {
        return Ok(None);
    };
    fill(input, bytes.as_mut_slice())?;
    Ok(Some(bytes))
}

// Reads so many bytes and forgets them.
fn skip<R: Read>(input: &mut BufReader<R>, count: u64) -> Result<(), InputFault>
    ensures read { OnOk result ((bytes : List ℕ) × (length bytes ≡ count) × Reads R.remaining input.old input.new bytes) }
    ensures fault { IfErr result (λ fault. fault ≢ Junk) }
{
    let mut chunk = [0u8; 4096];
    let mut left = count;
    while left > 0 {
        let some = left.min(4096) as usize;
        fill(input, &mut chunk[..some])?;
        left -= some as u64;
    }
    Ok(())
}

/// The header of the next option, or `None` where the input has ended before it.
pub fn next_option<R: Read>(input: &mut BufReader<R>) -> Result<Option<OptionHeader>, InputFault>
    ensures { IfOk result (λ next. MatchOption next (IsAtEnd (reader_remaining R.remaining input.old) × Reads R.remaining input.old input.new [])
        (λ header. (head : List ℕ) × (option_in head ≡ Some header) × (length head ≡ 16) × Reads R.remaining input.old input.new head)) }
{
    if is_at_end(input)? {
        return Ok(None);
    }
    let mut bytes = [0; 16];
    fill(input, &mut bytes)?;
    match option_in(&bytes) {
        Some(option) => Ok(Some(option)),
        None => Err(InputFault::Junk),
    }
}

// The header of the next request, or `None` where the input has ended before it.
fn next_request<R: Read>(input: &mut BufReader<R>) -> Result<Option<RequestHeader>, InputFault>
    ensures read { IfOk result (λ next. MatchOption next (IsAtEnd (reader_remaining R.remaining input.old) × Reads R.remaining input.old input.new [])
        (λ header. (head : List ℕ) × (request_in head ≡ Some header) × (length head ≡ 28) × Reads R.remaining input.old input.new head)) }
    ensures fault { IfErr result (λ fault. fault ≡ Junk → IsJunk (reader_remaining R.remaining input.old) (reader_remaining R.remaining input.new)) }
{
    if is_at_end(input)? {
        return Ok(None);
    }
    let mut bytes = [0; 28];
    fill(input, &mut bytes)?;
    match request_in(&bytes) {
        Some(request) => Ok(Some(request)),
        None => Err(InputFault::Junk),
    }
}

// So many bytes in pieces, or `None` where memory was refused; they are read either way.
fn pieces_of<R: Read>(
    alloc: Global,
    input: &mut BufReader<R>,
    count: u64,
) -> Result<Option<Data>, InputFault>
    ensures read { IfOk result (λ given. (after : List ℕ) × (length after ≡ count)
        × IfSome given (λ bytes. bytes ≡ after) × Reads R.remaining input.old input.new after) }
    ensures fault { IfErr result (λ fault. fault ≢ Junk) }
{
    let mut bytes = Data::none(alloc);
    let mut left = count;
    while left > 0 {
        let some = left.min(PIECE as u64) as usize;
        let piece = match bytes_of(alloc, input, some)? {
            Some(piece) => piece,
            None => {
                skip(input, left)?;
                return Ok(None);
            }
        };
        left -= some as u64;
        if bytes.push(piece).is_err() {
            skip(input, left)?;
            return Ok(None);
        }
    }
    Ok(Some(bytes))
}

// The data after a header, which are those of a write. Where they are too many or memory is refused they are read and forgotten.
fn data_of<R: Read>(
    alloc: Global,
    input: &mut BufReader<R>,
    header: &RequestHeader,
) -> Result<Option<Data>, InputFault>
    ensures read { IfOk result (λ given. (after : List ℕ) × (length after ≡ data_length header.now.command header.now.length)
        × IfSome given (λ bytes. bytes ≡ after) × Reads R.remaining input.old input.new after) }
    ensures fault { IfErr result (λ fault. fault ≢ Junk) }
{
    if header.command != Some(Command::Write) {
        return Ok(None);
    }
    if header.length <= MAX_LENGTH {
        return pieces_of(alloc, input, header.length as u64);
    }
    skip(input, header.length as u64)?;
    Ok(None)
}

/// A request as it came.
#[derive(Drop)]
pub struct Message {
    /// Its header.
    pub header: RequestHeader,
    /// The data of a write, of which there are none where it is too long or memory was refused.
    pub given: Option<Data>,
}

/// The next request, or `None` where the input has ended before it.
///
/// # Errors
/// Each `InputFault`, as said there.
pub fn next_message<R: Read>(
    alloc: Global,
    input: &mut BufReader<R>,
) -> Result<Option<Message>, InputFault>
    ensures read { IfOk result (λ next. MatchOption next (IsAtEnd (reader_remaining R.remaining input.old) × Reads R.remaining input.old input.new [])
        (λ message. (after bytes : List ℕ) × IsRequest message.header after bytes
        × IfSome message.given (λ bytes. bytes ≡ after) × Reads R.remaining input.old input.new bytes)) }
    ensures fault { IfErr result (λ fault. fault ≡ Junk → IsJunk (reader_remaining R.remaining input.old) (reader_remaining R.remaining input.new)) }
{
    let Some(header) = next_request(input)? else {
        return Ok(None);
    };
    let given = data_of(alloc, input, &header)?;
    Ok(Some(Message { header, given }))
}

/// Whether a whole request has come already, so that to read it means no waiting.
pub fn has_request<R: Read>(input: &BufReader<R>) -> bool
    ensures { result ≡ true → HasWhole (reader_buffer input.now) }
{
    let Some((header, after)) = input.buffer().split_first_chunk::<28>() else {
        return false;
    };
    match request_in(header) {
        Some(request) => {
            request.command != Some(Command::Write) || request.length as usize <= after.len()
        }
        None => true,
    }
}
