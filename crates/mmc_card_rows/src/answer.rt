// What the card in memory answers to a command.
ghost use Rattle.std.specs.Prelude.{◌≡◌};
ghost use Rattle.mmc_card.specs.Faults.{Spells};
ghost use Rattle.mmc_card_rows.specs.Answer.{HasIndex, answer_of, said_as};

use crate::delays::Delays;
use mmc_card::Reply;
use mmc_frame::commands::SEND_RELATIVE_ADDR;
use mmc_frame::{encode_r2, encode_r3, encode_response};

/// Bit 31 of an OCR: the card is ready (SD Physical Layer 6.00, section 5.1; JESD84-B51, section 7.1).
pub const IS_READY: u32 = 0x8000_0000;

// Bit 29 of an OCR. It and bit 30 are open until the card is ready.
const EARLY: u32 = 0x2000_0000;

// Bit 5 of a status, APP_CMD (SD Physical Layer 6.00, section 4.10.1).
const APP_CMD: u32 = 0x20;

/// An answer, before it is spelled as a frame.
#[derive(Clone, Copy, Debug, PartialEq, Eq)]
pub enum Answer {
    /// None.
    Silent,
    /// A response with a check, to the command with this index: R1, R6 or R7.
    Checked { index: u8, argument: u32 },
    /// An OCR, which nothing checks.
    R3(u32),
    /// A register of sixteen bytes.
    R2([u8; 16]),
}

impl Answer {
    /// The answer as it is sent, in what nobody judges: the response to CMD3 may show APP_CMD, and the OCR of a card that
    /// isn't ready other bits 30 and 29.
    pub fn said(self, delays: Delays) -> Answer
        requires { HasIndex self }
        ensures said { answer_of result ≡ said_as delays (answer_of self) }
        ensures index { HasIndex result }
    {
        match self {
            Answer::Checked { index, argument }
                if delays.shows_app_cmd && index == SEND_RELATIVE_ADDR => Answer::Checked {
                index,
                argument: argument | APP_CMD,
            },
            Answer::R3(ocr) if ocr < IS_READY => Answer::R3(
                EARLY * u32::from(delays.early % 4) + ocr % EARLY,
            ),
            answer => answer,
        }
    }

    /// The answer as the host is to hear it.
    pub fn spelled(self) -> Reply
        requires { HasIndex self }
        ensures { Spells (answer_of self) result }
    {
        match self {
            Answer::Silent => Reply::Silent,
            Answer::Checked { index, argument } => Reply::Short(encode_response(index, argument)),
            Answer::R3(ocr) => Reply::Short(encode_r3(ocr)),
            Answer::R2(register) => Reply::Long(encode_r2(&register)),
        }
    }
}
