// The records that go to C, by their first bytes, and what its answers mean. Numbers are little endian.
ghost use Rattle.std.specs.Prelude.{◌≡◌, true, ℕ};
ghost use Rattle.std.specs.Int.{from_le_bytes};
ghost use Rattle.c_host.specs.Records.{command_record, count_number, data_number, failed_by, fault_by, good_by};
ghost use Rattle.c_host.specs.Records.{heard_by, heard_in, ios_record, is_word, length_number, lines_number, moved_by};
ghost use Rattle.c_host.specs.Records.{refused_by, register_in, response_number, status_by, timing_number, touched_by, wait_record};
ghost use Rattle.c_host.specs.Lending.{back_record, lending_record, lent_at, table_at};
ghost use Rattle.mmc_sdhci.specs.Lending.{Fits, FitsTable};
ghost use Rattle.mmc_card.specs.CardAnswer.{Silent};
ghost use Rattle.mmc_host.specs.Hosts.{answer_heard};
ghost use Rattle.mmc_card.specs.declared.response.Response.TheVariants.{R1};

use crate::lending::Lent;
use mmc_bus::Moved;
use mmc_card::{DataIn, DataOut, Timing, Width};
use mmc_host::{Data, Heard, HostCommand, Ios, Response, ResponseFault};

// A command goes out, and its response comes.
const SEND: u8 = 1;

/// DAT0 is looked at.
pub const LOOK: u8 = 4;

// Lines, timing and clock are set.
const SET_IOS: u8 = 5;

/// So many microseconds pass.
pub const PAUSE: u8 = 6;

/// The card's power is switched.
pub const POWER: u8 = 7;

/// A register is read.
pub const READ_REGISTER: u8 = 8;

/// A register is written.
pub const WRITE_REGISTER: u8 = 9;

/// A command goes out, and the blocks after it are read.
pub const READ_WITH: u8 = 10;

/// A command goes out, and the blocks after it are written.
pub const WRITE_WITH: u8 = 11;

/// The memory of what follows lies so many sectors further on.
pub const AFTER: u8 = 12;

// Memory is wanted for DMA.
const LEND: u8 = 14;

// What was lent is taken back.
const TAKE_BACK: u8 = 17;

/// The table of the lines that were told is wanted where the controller can read it.
pub const LEND_TABLE: u8 = 18;

// Until an interrupt comes, or so many microseconds have passed.
const WAIT: u8 = 19;

// The kind of a response, as a number for C.
fn response_number(response: Response) -> u8
    ensures { result ≡ response_number response }
{
    match response {
        Response::Nothing => 0,
        Response::R1 => 1,
        Response::R1b => 2,
        Response::R2 => 3,
        Response::R3 => 4,
        Response::R6 => 5,
        Response::R7 => 6,
    }
}

// The data after a command: 0 none, 1 it is read, 2 it is written; the length of a block, and how many.
fn data_numbers(transfer: Data) -> (u8, u16, u16)
    ensures direction { result.0 ≡ data_number transfer }
    ensures length { result.1 ≡ length_number transfer }
    ensures count { result.2 ≡ count_number transfer }
{
    match transfer {
        Data::Nothing => (0, 0, 0),
        Data::Read { length, blocks } => (1, length, blocks),
        Data::Write { blocks } => (2, 512, blocks),
    }
}

// Why no response was heard.
fn fault_of(number: u32) -> ResponseFault
    ensures { result ≡ fault_by number }
{
    match number {
        2 => ResponseFault::Check,
        3 => ResponseFault::EndBit,
        4 => ResponseFault::Index,
        _ => ResponseFault::Timeout,
    }
}

/// An answer to a command: four words of its response, how many blocks were good, what became of one that failed, and why no response was
/// heard.
pub type Answer = [u8; 24];

// Bits 127 to 8 of a register, the highest byte first.
fn register_in(answer: &Answer) -> [u8; 15]
    ensures { result ≡ register_in answer.now }
{
    [
        answer[3], answer[2], answer[1], answer[0], answer[7], answer[6], answer[5], answer[4],
        answer[11], answer[10], answer[9], answer[8], answer[15], answer[14], answer[13],
    ]
}

// What was heard.
fn heard_in(response: Response, answer: &Answer) -> Heard
    ensures { result ≡ heard_in response answer.now }
{
    match response {
        Response::Nothing => Heard::Nothing,
        Response::R2 => Heard::Register(register_in(answer)),
        _ => Heard::Word(u32::from_le_bytes([answer[0], answer[1], answer[2], answer[3]])),
    }
}

/// What became of a block that was written: 0 it was accepted, 1 rejected.
pub fn status_by(answer: [u8; 4]) -> DataOut
    ensures { result ≡ status_by answer }
{
    match u32::from_le_bytes(answer) {
        0 => DataOut::Accepted,
        1 => DataOut::Rejected,
        _ => DataOut::Nothing,
    }
}

/// What was heard, or why nothing was.
pub fn heard_by(response: Response, answer: &Answer) -> Result<Heard, ResponseFault>
    ensures { result ≡ heard_by response answer.now }
{
    match u32::from_le_bytes([answer[20], answer[21], answer[22], answer[23]]) {
        0 => Ok(heard_in(response, answer)),
        fault => Err(fault_of(fault)),
    }
}

/// What became of a block that wasn't good; 0 where none failed.
pub fn failed_by(number: u8) -> Option<DataIn>
    ensures { result ≡ failed_by number }
{
    match number {
        0 => None,
        1 => Some(DataIn::Bad),
        _ => Some(DataIn::Nothing),
    }
}

/// What became of a block that wasn't accepted; 0 where none failed.
pub fn refused_by(number: u8) -> Option<DataOut>
    ensures { result ≡ refused_by number }
{
    match number {
        0 => None,
        1 => Some(DataOut::Rejected),
        _ => Some(DataOut::Nothing),
    }
}

/// What C moved of so many blocks. Where one failed it isn't used how many C says were good.
pub fn moved_by<T: Copy>(failed: Option<T>, good: usize, count: usize) -> Moved<T>
    ensures { result ≡ moved_by failed good count }
{
    match failed {
        Some(_) if count == 0 => Moved::Good(0),
        Some(got) => Moved::Failed(got),
        None => Moved::Good(good.min(count)),
    }
}

/// How many of so many places C may have written to: all of them where a block failed.
pub fn touched_by(moved: Moved<DataIn>, count: usize) -> usize
    ensures { result ≡ touched_by moved count }
{
    match moved {
        Moved::Good(good) => good,
        Moved::Failed(_) => count,
    }
}

/// Where memory for so many blocks is lent; `None` where C has none, or it doesn't lie within 64 bits.
pub fn lent_at(address: u64, count: usize) -> Option<u64>
    ensures lent { result ≡ lent_at address count }
    ensures fits { Fits result count }
{
    let most = (u64::MAX - address) / 512;
    if address == 0 || address % 4 != 0 || count as u64 > most {
        None
    } else {
        Some(address)
    }
}

/// Where a table stands; `None` where C has no room for it, or it stands beyond 32 bits and its addresses don't.
pub fn table_at(is_wide: bool, address: u64) -> Option<u64>
    ensures lent { result ≡ table_at is_wide address }
    ensures fits { FitsTable is_wide result }
{
    if address == 0 || address % 8 != 0 || !is_wide && address > 0xffff_ffff {
        None
    } else {
        Some(address)
    }
}

/// Whether a word was heard, as that of an R1.
pub fn is_word(heard: Result<Heard, ResponseFault>) -> bool
    ensures is { result ≡ is_word heard }
    ensures heard { result ≡ true → (index : ℕ) → answer_heard R1 index heard ≡ Silent → ⊥ }
{
    matches!(heard, Ok(Heard::Word(_)))
}

/// How many blocks C says were good.
pub fn good_by(answer: &Answer) -> usize
    ensures { result ≡ good_by answer.now }
{
    usize::from(u16::from_le_bytes([answer[16], answer[17]]))
}

/// The record of a command.
pub fn command_record(command: HostCommand) -> [u8; 12]
    ensures { result ≡ command_record command }
{
    let [a, b, c, d] = command.argument.to_le_bytes();
    let (direction, length, blocks) = data_numbers(command.transfer);
    let [e, f] = length.to_le_bytes();
    let [g, h] = blocks.to_le_bytes();
    let response = response_number(command.response);
    [
        SEND,
        command.index,
        response,
        direction,
        a,
        b,
        c,
        d,
        e,
        f,
        g,
        h,
    ]
}

fn lines_number(width: Width) -> u8
    ensures { result ≡ lines_number width }
{
    match width {
        Width::One => 1,
        Width::Four => 4,
        Width::Eight => 8,
    }
}

fn is_high(timing: Timing) -> u8
    ensures { result ≡ timing_number timing }
{
    match timing {
        Timing::Default => 0,
        Timing::High => 1,
    }
}

/// The record of lines, timing and clock.
pub fn ios_record(ios: Ios) -> [u8; 7]
    ensures { result ≡ ios_record ios }
{
    let [a, b, c, d] = ios.max_clock().to_le_bytes();
    [
        SET_IOS,
        lines_number(ios.width),
        is_high(ios.timing),
        a,
        b,
        c,
        d,
    ]
}

/// The record that asks for memory for so many blocks, to be written to or read.
pub fn lending_record(is_room: bool, count: usize) -> [u8; 4]
    ensures { result ≡ lending_record is_room count }
{
    let [a, b, ..] = count.to_le_bytes();
    [LEND, u8::from(is_room), a, b]
}

/// The record that what was lent is taken back.
pub fn back_record(lent: Lent) -> [u8; 6]
    ensures { result ≡ back_record lent }
{
    let [a, b] = lent.count;
    let [c, d] = lent.table.to_le_bytes();
    [TAKE_BACK, u8::from(lent.is_room), a, b, c, d]
}

/// The record that it is waited for one of these interrupts, or so many microseconds.
pub fn wait_record(interrupts: u32, micros: u32) -> [u8; 9]
    ensures { result ≡ wait_record interrupts micros }
{
    let [a, b, c, d] = interrupts.to_le_bytes();
    let [e, f, g, h] = micros.to_le_bytes();
    [WAIT, a, b, c, d, e, f, g, h]
}
