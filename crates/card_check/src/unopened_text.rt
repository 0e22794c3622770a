// What is said of a card that isn't opened.
ghost use Rattle.std.specs.Fmt.{decimal};
ghost use Rattle.std.specs.Prelude.{◌++◌, ◌≡◌};
ghost use Rattle.text_out.specs.Writing.{Writes};
ghost use Rattle.card_check.specs.Unopened.{answer_of, field_text, front_text, ocr_text, sentence_of, unopened_line, why_text};

use crate::unopened::Unopened;
use std::io::{self, Write};
use text_out::put::put;
use text_out::{Piece, put_pieces};

// An OCR.
fn put_ocr<W: Write>(out: &mut W, ocr: u32) -> io::Result<()>
    ensures { Writes (W.contents out.old) (W.contents out.new) result (ocr_text ocr) }
{
    let bytes = ocr.to_be_bytes();
    put_pieces(out, &[Piece::Text(b"OCR "), Piece::Hex(&bytes)])
}

// A field with its number.
fn put_number<W: Write>(out: &mut W, name: &'static [u8], number: u8) -> io::Result<()>
    ensures { Writes (W.contents out.old) (W.contents out.new) result (name.now ++ decimal number) }
{
    put_pieces(out, &[Piece::Text(name), Piece::Number(u64::from(number))])
}

// The field that speaks against it, with its value.
fn put_field<W: Write>(out: &mut W, why: Unopened) -> io::Result<()>
    ensures { Writes (W.contents out.old) (W.contents out.new) result (field_text why) }
{
    match why {
        Unopened::Window { ocr } => put_ocr(out, ocr),
        Unopened::NeverReady { ocr } => put_ocr(out, ocr),
        Unopened::SectorsByOcr { ocr } => put_ocr(out, ocr),
        Unopened::BytesByOcr { ocr } => put_ocr(out, ocr),
        Unopened::AccessMode { ocr } => put_ocr(out, ocr),
        Unopened::Locked => put(out, b"CARD_IS_LOCKED, bit 25 of the card status, is 1"),
        Unopened::Structure { structure } => put_number(out, b"CSD_STRUCTURE is ", structure),
        Unopened::ReadLength { read } => put_number(out, b"READ_BL_LEN is ", read),
        Unopened::WriteLength { write } => put_number(out, b"WRITE_BL_LEN is ", write),
        Unopened::Revision { revision } => {
            put_number(out, b"EXT_CSD_REV, byte 192 of the EXT_CSD, is ", revision)
        }
        Unopened::NoEraseUnit => put(out, b"HC_ERASE_GRP_SIZE, byte 224 of the EXT_CSD, is 0"),
        Unopened::NoSectors => put(out, b"SEC_COUNT, bytes 212 to 215 of the EXT_CSD, is 0"),
    }
}

// And why.
fn why_text(why: Unopened) -> &'static [u8]
    ensures { result.now ≡ why_text why }
{
    match why {
        Unopened::Window { .. } => b" hasn't both bits 21 and 20, 3.2 to 3.4 V",
        Unopened::NeverReady { .. } =>
            b" says sector addresses, but a card without CMD8 isn't told HCS and is never ready",
        Unopened::Structure { .. } => b", and 0 or 1 in an SD card that is supported",
        Unopened::ReadLength { .. } | Unopened::WriteLength { .. } =>
            b", and from 9 to 11 in a card with byte addresses that is supported",
        Unopened::SectorsByOcr { .. } => b" says sector addresses, CSD_STRUCTURE 0 says bytes",
        Unopened::BytesByOcr { .. } => b" says byte addresses, CSD_STRUCTURE 1 says sectors",
        Unopened::AccessMode { .. } => b" has an access mode, bits 30 and 29, that is reserved",
        Unopened::Revision { .. } => b", and at least 5 in a device that is supported",
        Unopened::Locked | Unopened::NoEraseUnit | Unopened::NoSectors => b"",
    }
}

/// Writes why a card isn't opened, as a sentence without an end of line.
///
/// # Errors
/// The fault of a write; a front of the sentence went out then.
pub fn put_sentence<W: Write>(out: &mut W, why: Unopened) -> io::Result<()>
    ensures { Writes (W.contents out.old) (W.contents out.new) result (sentence_of why) }
{
    put_field(out, why)?;
    put(out, why_text(why))
}

// What `serve` and `nbd` answer.
fn answer_of(why: Unopened) -> &'static [u8]
    ensures { result.now ≡ answer_of why }
{
    match why {
        Unopened::Window { .. } => b"voltage",
        Unopened::NeverReady { .. } => b"no card",
        Unopened::Locked => b"locked",
        _ => b"unsupported",
    }
}

// What stands in front of the sentence.
fn put_front<W: Write>(out: &mut W, why: Unopened) -> io::Result<()>
    ensures { Writes (W.contents out.old) (W.contents out.new) result (front_text why) }
{
    let answer = answer_of(why);
    put_pieces(
        out,
        &[
            Piece::Text(b"card: not opened ("),
            Piece::Text(answer),
            Piece::Text(b"): "),
        ],
    )
}

/// Writes a line for a card that isn't opened, with the answer of `serve` and why.
///
/// # Errors
/// The fault of a write; a front of the line went out then.
pub fn put_unopened<W: Write>(out: &mut W, why: Unopened) -> io::Result<()>
    ensures { Writes (W.contents out.old) (W.contents out.new) result (unopened_line why) }
{
    put_front(out, why)?;
    put_sentence(out, why)?;
    put(out, b"\n")
}
