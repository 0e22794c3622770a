// What an exchange tells of the card.
ghost use Rattle.std.specs.Prelude.{◌≡◌};
ghost use Rattle.mmc_regs.specs.Ocr.{card_capacity_status};
ghost use Rattle.card_trace.specs.Known.{addressing_by, kind_by, known_after, told_by};

use card_explain::KnownCard;
use mmc_bus::{Exchange, Reply};
use mmc_frame::commands::{SD_SEND_OP_COND, SEND_OP_COND};
use mmc_frame::{Addressing, Kind, read_command, read_r3};
use mmc_regs::Ocr;

// How the commands of a card count that has this OCR: bit 30 says so of an SD card and of an eMMC device.
fn addressing(ocr: Ocr) -> Addressing
    ensures { result ≡ addressing_by (card_capacity_status ocr) }
{
    if ocr.has_sector_addresses() {
        Addressing::Sectors
    } else {
        Addressing::Bytes
    }
}

// The kind of card that answers this command with its OCR.
fn kind(index: u8) -> Option<Kind>
    ensures { result ≡ kind_by index }
{
    match index {
        SEND_OP_COND => Some(Kind::Mmc),
        SD_SEND_OP_COND => Some(Kind::Sd),
        _ => None,
    }
}

// What is known after an OCR came in answer to this command; bit 30 counts once the card is ready.
fn told(card: KnownCard, index: u8, ocr: Ocr) -> KnownCard
    ensures { result ≡ told_by card index ocr }
{
    match kind(index) {
        None => card,
        Some(kind) if ocr.is_ready() => KnownCard {
            kind,
            addressing: addressing(ocr),
        },
        Some(kind) => KnownCard { kind, ..card },
    }
}

/// What is known of the card after this exchange: an OCR in answer to CMD1 or ACMD41 tells its kind, and that of a card which is ready
/// how its commands count (SD Physical Layer 6.00, section 4.2.3.1; JESD84-B51, section 6.4.3).
pub fn known_after(card: KnownCard, exchange: &Exchange) -> KnownCard
    ensures { result ≡ known_after card exchange.now }
{
    let Exchange::Command {
        frame,
        reply: Reply::Short(response),
        ..
    } = exchange
    else {
        return card;
    };
    match (read_command(frame), read_r3(response)) {
        (Some((index, _)), Ok(ocr)) => told(card, index, Ocr::new(ocr)),
        _ => card,
    }
}
