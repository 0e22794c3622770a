// Reads one line of a card file.
ghost use Rattle.std.specs.Prelude.{◌≡◌};
ghost use Rattle.card_text.specs.CardLines.{card_line_of, card_line_of_fields, choice_of, delay_of, early_of, ext_line_of};
ghost use Rattle.card_text.specs.CardLines.{fault_line_of, free_line_of, high_speed_of, keeps_length_of, kind_of};
ghost use Rattle.card_text.specs.CardLines.{late_line_of, line_of_key, long_delay_of, published_rca_of, sd_line_of, value_line_of, stays_busy_of};
ghost use Rattle.card_text.specs.Parts.{left_parts, parts};

use crate::cut::cut;
use crate::fault_text::fault;
use crate::hexadecimal::bytes;
use crate::number::{byte, number};
use crate::text_line::Line;
use mmc_card_sim::{Fault, Refusal};
use mmc_frame::Kind;

/// Which RCA an SD card publishes.
#[derive(Clone, Copy, Debug, PartialEq, Eq)]
pub enum PublishedRca {
    /// Always this one.
    Fixed(u16),
    /// 1, 2, 3 and so on, at each CMD3 the next one.
    Changes,
}

/// What an SD card does about high speed.
#[derive(Clone, Copy, Debug, PartialEq, Eq)]
pub enum HighSpeedChoice {
    /// Whether it has it, and takes it when it is to switch.
    Taken(bool),
    /// It has it, and refuses to switch.
    Refused(Refusal),
}

/// What one line of a card file gives.
#[derive(Clone, Copy, Debug, PartialEq, Eq)]
pub enum CardLine {
    /// The kind of the card.
    Kind(Kind),
    /// The OCR without its ready bit.
    Ocr(u32),
    /// The CID, the highest byte first.
    Cid([u8; 16]),
    /// The CSD, the highest byte first.
    Csd([u8; 16]),
    /// The number of sectors of the user partition. The card's building judges it.
    Sectors(u64),
    /// How many of the first readiness inquiries are answered with not ready, 0 to 15.
    Ready(u8),
    /// How many of the first polls of a busy time are answered yes, 0 to 15.
    Busy(u8),
    /// Bits 30 and 29 of the OCR while the card isn't ready, 0 to 3.
    Early(u8),
    /// Whether the block length outlives CMD0 and a loss of power.
    KeepsLength(bool),
    /// Whether CMD12 that ends a read leaves the card busy.
    StaysBusy(bool),
    /// How many statuses after the end of a programming still show prg, 0 to 15.
    SlowStatus(u8),
    /// How many statuses after CMD7 still show stby, and after CMD12 that ends a read data, 0 to 8.
    LateStatus(u8),
    /// Whether the card goes on by itself between two exchanges.
    GoesOn(bool),
    /// Whether the card is locked.
    Locked(bool),
    /// The SCR of an SD card, the highest byte first.
    Scr([u8; 8]),
    /// The RCA that an SD card publishes.
    Rca(PublishedRca),
    /// Whether an SD card knows CMD8.
    Cmd8(bool),
    /// Whether an SD card has high speed, and whether it takes it.
    HighSpeed(HighSpeedChoice),
    /// Whether an SD card shows APP_CMD in its R6.
    R6App(bool),
    /// Whether the EXT_CSD of an eMMC device changes at each CMD0.
    ExtChanges(bool),
    /// A byte of the EXT_CSD of an eMMC device.
    Ext {
        /// Its place, 0 to 511.
        place: u16,
        /// The byte.
        value: u8,
    },
    /// A planned fault.
    Fault {
        /// The exchange for which it is planned, counted from 0 and below 2^64 - 1.
        exchange: u64,
        /// What is to happen in it.
        fault: Fault,
    },
}

impl CardLine {
    ghost use Rattle.card_text.specs.CardLines.{is_of, repeats};

    /// Whether a card of this kind may have it.
    pub fn is_of(&self, kind: Kind) -> bool
        ensures { result ≡ is_of kind self.now }
    {
        match *self {
            CardLine::Ext { .. } | CardLine::ExtChanges(_) => kind == Kind::Mmc,
            CardLine::Scr(_)
            | CardLine::Rca(_)
            | CardLine::Cmd8(_)
            | CardLine::HighSpeed(_)
            | CardLine::R6App(_) => kind == Kind::Sd,
            _ => true,
        }
    }

    /// Whether it gives again what the other line gives: the same key, of which a card file has one, or a fault for the
    /// same exchange.
    pub fn repeats(&self, other: &CardLine) -> bool
        ensures { result ≡ repeats self.now other.now }
    {
        match (*self, *other) {
            (CardLine::Kind(_), CardLine::Kind(_))
            | (CardLine::Ocr(_), CardLine::Ocr(_))
            | (CardLine::Cid(_), CardLine::Cid(_))
            | (CardLine::Csd(_), CardLine::Csd(_))
            | (CardLine::Sectors(_), CardLine::Sectors(_))
            | (CardLine::Ready(_), CardLine::Ready(_))
            | (CardLine::Busy(_), CardLine::Busy(_))
            | (CardLine::Early(_), CardLine::Early(_))
            | (CardLine::KeepsLength(_), CardLine::KeepsLength(_))
            | (CardLine::StaysBusy(_), CardLine::StaysBusy(_))
            | (CardLine::SlowStatus(_), CardLine::SlowStatus(_))
            | (CardLine::LateStatus(_), CardLine::LateStatus(_))
            | (CardLine::GoesOn(_), CardLine::GoesOn(_))
            | (CardLine::Locked(_), CardLine::Locked(_))
            | (CardLine::Scr(_), CardLine::Scr(_))
            | (CardLine::Rca(_), CardLine::Rca(_))
            | (CardLine::Cmd8(_), CardLine::Cmd8(_))
            | (CardLine::HighSpeed(_), CardLine::HighSpeed(_))
            | (CardLine::R6App(_), CardLine::R6App(_))
            | (CardLine::ExtChanges(_), CardLine::ExtChanges(_)) => true,
            (
                CardLine::Fault { exchange, .. },
                CardLine::Fault {
                    exchange: other,
                    ..
                },
            ) => exchange == other,
            _ => false,
        }
    }
}

// `sd` or `mmc`.
#[tactic(auto, unfolding(crate::specs::CardLines::kind_of))]
fn kind(text: &[u8]) -> Option<Kind>
    ensures { result ≡ kind_of text.now }
{
    if text == b"sd".as_slice() {
        Some(Kind::Sd)
    } else if text == b"mmc".as_slice() {
        Some(Kind::Mmc)
    } else {
        None
    }
}

/// `yes` or `no`, and nothing of another text.
#[tactic(auto, unfolding(crate::specs::CardLines::choice_of))]
pub fn choice(text: &[u8]) -> Option<bool>
    ensures { result ≡ choice_of text.now }
{
    if text == b"yes".as_slice() {
        Some(true)
    } else if text == b"no".as_slice() {
        Some(false)
    } else {
        None
    }
}

// A number from 0 to 8.
#[tactic(auto, unfolding(crate::specs::CardLines::delay_of))]
fn delay(text: &[u8]) -> Option<u8>
    ensures { result ≡ delay_of text.now }
{
    let count = number(text)?;
    if count <= 8 { Some(count as u8) } else { None }
}

// A number from 0 to 15.
#[tactic(auto, unfolding(crate::specs::CardLines::long_delay_of))]
fn long_delay(text: &[u8]) -> Option<u8>
    ensures { result ≡ long_delay_of text.now }
{
    let count = number(text)?;
    if count <= 15 { Some(count as u8) } else { None }
}

// Bits 30 and 29 of an OCR: a number from 0 to 3.
#[tactic(auto, unfolding(crate::specs::CardLines::early_of))]
fn early(text: &[u8]) -> Option<u8>
    ensures { result ≡ early_of text.now }
{
    let bits = number(text)?;
    if bits <= 3 { Some(bits as u8) } else { None }
}

// `kept` or `named`.
#[tactic(auto, unfolding(crate::specs::CardLines::keeps_length_of))]
fn keeps_length(text: &[u8]) -> Option<bool>
    ensures { result ≡ keeps_length_of text.now }
{
    if text == b"kept".as_slice() {
        Some(true)
    } else if text == b"named".as_slice() {
        Some(false)
    } else {
        None
    }
}

// `busy` or `ready`.
#[tactic(auto, unfolding(crate::specs::CardLines::stays_busy_of))]
fn stays_busy(text: &[u8]) -> Option<bool>
    ensures { result ≡ stays_busy_of text.now }
{
    if text == b"busy".as_slice() {
        Some(true)
    } else if text == b"ready".as_slice() {
        Some(false)
    } else {
        None
    }
}

// `changes`, or an RCA.
#[tactic(auto, unfolding(crate::specs::CardLines::published_rca_of))]
fn published_rca(text: &[u8]) -> Option<PublishedRca>
    ensures { result ≡ published_rca_of text.now }
{
    if text == b"changes".as_slice() {
        Some(PublishedRca::Changes)
    } else {
        Some(PublishedRca::Fixed(u16::from_be_bytes(bytes(text)?)))
    }
}

// `refused-15` or `refused-0`, or whether the card has high speed.
#[tactic(auto, unfolding(crate::specs::CardLines::high_speed_of))]
fn high_speed(text: &[u8]) -> Option<HighSpeedChoice>
    ensures { result ≡ high_speed_of text.now }
{
    if text == b"refused-15".as_slice() {
        Some(HighSpeedChoice::Refused(Refusal::SelectsNone))
    } else if text == b"refused-0".as_slice() {
        Some(HighSpeedChoice::Refused(Refusal::SelectsDefault))
    } else {
        Some(HighSpeedChoice::Taken(choice(text)?))
    }
}

// A key of SD cards with its value.
#[tactic(auto, unfolding(crate::specs::CardLines::sd_line_of))]
fn sd_line(key: &[u8], text: &[u8]) -> Option<CardLine>
    ensures { result ≡ sd_line_of key.now text.now }
{
    if key == b"scr".as_slice() {
        Some(CardLine::Scr(bytes(text)?))
    } else if key == b"rca".as_slice() {
        Some(CardLine::Rca(published_rca(text)?))
    } else if key == b"cmd8".as_slice() {
        Some(CardLine::Cmd8(choice(text)?))
    } else if key == b"highspeed".as_slice() {
        Some(CardLine::HighSpeed(high_speed(text)?))
    } else if key == b"r6-app".as_slice() {
        Some(CardLine::R6App(choice(text)?))
    } else {
        None
    }
}

// A key of how long a card may take, of eMMC devices, or of SD cards, with its value.
#[tactic(auto, unfolding(crate::specs::CardLines::late_line_of))]
fn late_line(key: &[u8], text: &[u8]) -> Option<CardLine>
    ensures { result ≡ late_line_of key.now text.now }
{
    if key == b"late-status".as_slice() {
        Some(CardLine::LateStatus(delay(text)?))
    } else if key == b"long-ready".as_slice() {
        Some(CardLine::Ready(long_delay(text)?))
    } else if key == b"long-busy".as_slice() {
        Some(CardLine::Busy(long_delay(text)?))
    } else if key == b"long-slow-status".as_slice() {
        Some(CardLine::SlowStatus(long_delay(text)?))
    } else if key == b"goes-on".as_slice() {
        Some(CardLine::GoesOn(choice(text)?))
    } else if key == b"ext-changes".as_slice() {
        Some(CardLine::ExtChanges(choice(text)?))
    } else {
        sd_line(key, text)
    }
}

// A key of what a card does where it is free, or another one, with its value.
#[tactic(auto, unfolding(crate::specs::CardLines::free_line_of))]
fn free_line(key: &[u8], text: &[u8]) -> Option<CardLine>
    ensures { result ≡ free_line_of key.now text.now }
{
    if key == b"early".as_slice() {
        Some(CardLine::Early(early(text)?))
    } else if key == b"length".as_slice() {
        Some(CardLine::KeepsLength(keeps_length(text)?))
    } else if key == b"stop".as_slice() {
        Some(CardLine::StaysBusy(stays_busy(text)?))
    } else if key == b"slow-status".as_slice() {
        Some(CardLine::SlowStatus(delay(text)?))
    } else {
        late_line(key, text)
    }
}

// A key that stands once with its value.
#[tactic(auto, unfolding(crate::specs::CardLines::line_of_key))]
fn line_of_key(key: &[u8], text: &[u8]) -> Option<CardLine>
    ensures { result ≡ line_of_key key.now text.now }
{
    if key == b"kind".as_slice() {
        Some(CardLine::Kind(kind(text)?))
    } else if key == b"ocr".as_slice() {
        Some(CardLine::Ocr(u32::from_be_bytes(bytes(text)?)))
    } else if key == b"cid".as_slice() {
        Some(CardLine::Cid(bytes(text)?))
    } else if key == b"csd".as_slice() {
        Some(CardLine::Csd(bytes(text)?))
    } else if key == b"sectors".as_slice() {
        Some(CardLine::Sectors(number(text)?))
    } else if key == b"ready".as_slice() {
        Some(CardLine::Ready(delay(text)?))
    } else if key == b"busy".as_slice() {
        Some(CardLine::Busy(delay(text)?))
    } else if key == b"locked".as_slice() {
        Some(CardLine::Locked(choice(text)?))
    } else {
        free_line(key, text)
    }
}

// A byte of the EXT_CSD.
#[tactic(auto, unfolding(crate::specs::CardLines::ext_line_of))]
fn ext_line(place: &[u8], value: &[u8]) -> Option<CardLine>
    ensures { result ≡ ext_line_of place.now value.now }
{
    let place = number(place)?;
    let value = byte(value)?;
    if place < 512 {
        Some(CardLine::Ext {
            place: place as u16,
            value,
        })
    } else {
        None
    }
}

// A fault for an exchange. None is planned for the number at which their count stays.
#[tactic(auto, unfolding(crate::specs::CardLines::fault_line_of))]
fn fault_line(exchange: &[u8], text: Option<&[u8]>) -> Option<CardLine>
    ensures { result ≡ fault_line_of exchange.now (left_parts 32 text.entry) }
{
    let exchange = number(exchange)?;
    let fault = fault(text)?;
    if exchange < u64::MAX {
        Some(CardLine::Fault { exchange, fault })
    } else {
        None
    }
}

// A key with its value, or `ext` with a place and a byte.
#[tactic(auto, unfolding(crate::specs::CardLines::value_line_of))]
fn value_line(key: &[u8], value: &[u8], others: Option<&[u8]>) -> Option<CardLine>
    ensures { result ≡ value_line_of key.now value.now (left_parts 32 others.entry) }
{
    let others = match others {
        None => return line_of_key(key, value),
        Some(others) => others,
    };
    let byte = match cut(others, b' ') {
        (_, Some(_)) => return None,
        (byte, None) => byte,
    };
    if key == b"ext".as_slice() {
        ext_line(value, byte)
    } else {
        None
    }
}

// What the fields of a line say, and nothing where they aren't of the grammar.
#[tactic(auto, unfolding(crate::specs::CardLines::card_line_of_fields))]
fn line_of_fields(line: &[u8]) -> Option<CardLine>
    ensures { result ≡ card_line_of_fields (parts 32 line.now) }
{
    let (key, fields) = cut(line, b' ');
    let (value, others) = cut(fields?, b' ');
    if key == b"fault".as_slice() {
        fault_line(value, others)
    } else {
        value_line(key, value, others)
    }
}

/// What a line says.
#[tactic(auto, unfolding(crate::specs::CardLines::card_line_of))]
pub fn card_line(line: &[u8]) -> Line<CardLine>
    ensures { result ≡ card_line_of line.now }
{
    match line {
        [] | [b'#', ..] => Line::Skipped,
        _ => Line::by(line_of_fields(line)),
    }
}
