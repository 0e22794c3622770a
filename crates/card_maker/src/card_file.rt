// Writes card files.
ghost use Rattle.std.specs.Prelude.{◌≡◌, ◌<◌, ◌^◌, []};
ghost use Rattle.card_text.specs.CardFile.{IsCardFile};
ghost use Rattle.card_text.specs.Script.{lines};
ghost use Rattle.std.specs.Int.{to_be_bytes, w32};
ghost use Rattle.mmc_frame.specs.Flips.{AreBytes};
ghost use Rattle.mmc_card_sim.specs.CardSpec.{HasWidths};
ghost use Rattle.text_out.specs.Writing.{Writes};
ghost use Rattle.card_maker.specs.CardText.{byte_lines, byte_name, card_file_text, common_lines, ext_lines, kind_title, kind_word, named_lines, own_lines, register_lines, sd_lines, sd_part_lines};
ghost use Rattle.card_maker.specs.FileLines.{choice_word, ended_lines};
ghost use Rattle.card_maker.specs.Plain.{IsPlain};

use mmc_card_sim::{CardSpec, KindRegisters, SdRegisters};
use mmc_frame::Kind;
use std::io::{self, Write};
use text_out::{Piece, put_pieces};

fn choice_word(choice: bool) -> &'static [u8]
    ensures { result.now ≡ choice_word choice }
{
    if choice { b"yes" } else { b"no" }
}

fn kind_word(kind: Kind) -> &'static [u8]
    ensures { result.now ≡ kind_word kind }
{
    match kind {
        Kind::Sd => b"sd",
        Kind::Mmc => b"mmc",
    }
}

fn kind_title(kind: Kind) -> &'static [u8]
    ensures { result.now ≡ kind_title kind }
{
    match kind {
        Kind::Sd => b"# An SD card of",
        Kind::Mmc => b"# An eMMC device of",
    }
}

// The name of a byte of the EXT_CSD.
fn byte_name(place: usize) -> &'static [u8]
    ensures { result.now ≡ byte_name place }
{
    match place {
        143 => b"GP_SIZE_MULT_1, bits 7 to 0",
        144 => b"GP_SIZE_MULT_1, bits 15 to 8",
        145 => b"GP_SIZE_MULT_1, bits 23 to 16",
        155 => b"PARTITION_SETTING_COMPLETED",
        160 => b"PARTITIONING_SUPPORT",
        192 => b"EXT_CSD_REV",
        194 => b"CSD_STRUCTURE",
        196 => b"DEVICE_TYPE",
        212 => b"SEC_COUNT, bits 7 to 0",
        213 => b"SEC_COUNT, bits 15 to 8",
        214 => b"SEC_COUNT, bits 23 to 16",
        215 => b"SEC_COUNT, bits 31 to 24",
        221 => b"HC_WP_GRP_SIZE",
        224 => b"HC_ERASE_GRP_SIZE",
        226 => b"BOOT_SIZE_MULT",
        231 => b"SEC_FEATURE_SUPPORT",
        _ => b"Another byte",
    }
}

// Writes the lines of a card of any kind, whose parts these are.
fn put_registers<'a, W: Write>(
    out: &mut W,
    title: &'a [u8],
    kind: &'a [u8],
    ocr: &'a [u8],
    spec: &'a CardSpec,
) -> io::Result<()>
    ensures { Writes (W.contents out.old) (W.contents out.new) result
        (ended_lines (register_lines title.now kind.now ocr.now spec.now)) }
{
    put_pieces(
        out,
        &[
            Piece::Text(title),
            Piece::Text(b" "),
            Piece::Number(spec.sectors),
            Piece::Text(b" sectors\nkind "),
            Piece::Text(kind),
            Piece::Text(b"\nocr "),
            Piece::Hex(ocr),
            Piece::Text(b"\ncid "),
            Piece::Hex(&spec.registers.cid),
            Piece::Text(b"\ncsd "),
            Piece::Hex(&spec.registers.csd),
            Piece::Text(b"\nsectors "),
            Piece::Number(spec.sectors),
            Piece::Text(b"\n"),
        ],
    )
}

// Writes the lines of a card of any kind.
fn put_common_lines<W: Write>(out: &mut W, spec: &CardSpec) -> io::Result<()>
    ensures { Writes (W.contents out.old) (W.contents out.new) result (ended_lines (common_lines spec.now)) }
{
    let kind = spec.registers.kind();
    let ocr = spec.registers.ocr.to_be_bytes();
    put_registers(out, kind_title(kind), kind_word(kind), &ocr, spec)
}

// Writes the lines of an SD card, whose parts these are.
fn put_sd_parts<'a, W: Write>(
    out: &mut W,
    scr: &'a [u8],
    cmd8: &'a [u8],
    high_speed: &'a [u8],
) -> io::Result<()>
    ensures { Writes (W.contents out.old) (W.contents out.new) result
        (ended_lines (sd_part_lines scr.now cmd8.now high_speed.now)) }
{
    put_pieces(
        out,
        &[
            Piece::Text(b"scr "),
            Piece::Hex(scr),
            Piece::Text(b"\ncmd8 "),
            Piece::Text(cmd8),
            Piece::Text(b"\nhighspeed "),
            Piece::Text(high_speed),
            Piece::Text(b"\n"),
        ],
    )
}

// Writes the lines of an SD card.
fn put_sd_lines<W: Write>(out: &mut W, sd: &SdRegisters) -> io::Result<()>
    ensures { Writes (W.contents out.old) (W.contents out.new) result (ended_lines (sd_lines sd.now)) }
{
    let cmd8 = choice_word(sd.answers_cmd8);
    put_sd_parts(out, &sd.scr, cmd8, choice_word(sd.has_high_speed))
}

// Writes the name of a byte of the EXT_CSD, and the byte.
fn put_named<'a, W: Write>(
    out: &mut W,
    name: &'a [u8],
    place: usize,
    byte: &'a [u8],
) -> io::Result<()>
    ensures { Writes (W.contents out.old) (W.contents out.new) result
        (ended_lines (named_lines name.now place byte.now)) }
{
    put_pieces(
        out,
        &[
            Piece::Text(b"# "),
            Piece::Text(name),
            Piece::Text(b"\next "),
            Piece::Number(place as u64),
            Piece::Text(b" "),
            Piece::Hex(byte),
            Piece::Text(b"\n"),
        ],
    )
}

// Writes the lines of a byte of the EXT_CSD.
fn put_byte<W: Write>(out: &mut W, place: usize, byte: u8) -> io::Result<()>
    ensures { Writes (W.contents out.old) (W.contents out.new) result (ended_lines (byte_lines place byte)) }
{
    if byte == 0 {
        Ok(())
    } else {
        put_named(out, byte_name(place), place, &[byte])
    }
}

// Writes the lines of an eMMC device.
fn put_ext_lines<W: Write>(out: &mut W, ext_csd: &[u8; 512]) -> io::Result<()>
    ensures { Writes (W.contents out.old) (W.contents out.new) result (ended_lines (ext_lines 0 ext_csd.now)) }
{
    for (place, byte) in ext_csd.iter().enumerate() {
        put_byte(out, place, *byte)?;
    }
    Ok(())
}

fn put_own_lines<W: Write>(out: &mut W, kind: &KindRegisters) -> io::Result<()>
    ensures { Writes (W.contents out.old) (W.contents out.new) result (ended_lines (own_lines kind.now)) }
{
    match kind {
        KindRegisters::Sd(sd) => put_sd_lines(out, sd),
        KindRegisters::Mmc(mmc) => put_ext_lines(out, &mmc.ext_csd),
    }
}

fn tell_bytes(bytes: &[u8])
    ensures { AreBytes bytes.now }
{}

// It does nothing, and its contract says what the types of the fields say.
fn tell_widths(spec: &CardSpec)
    ensures widths { HasWidths spec.now.registers }
    ensures ocr { AreBytes (to_be_bytes w32 spec.now.registers.ocr) }
    ensures sectors { spec.now.sectors < 2 ^ 64 }
{
    let registers = &spec.registers;
    let _sectors = spec.sectors;
    tell_bytes(&registers.ocr.to_be_bytes());
    tell_bytes(&registers.cid);
    tell_bytes(&registers.csd);
    match &registers.kind {
        KindRegisters::Sd(sd) => tell_bytes(&sd.scr),
        KindRegisters::Mmc(mmc) => tell_bytes(&mmc.ext_csd),
    }
}

/// Writes the card file of a card that does nothing but what its registers say. It takes no memory.
///
/// What is read of the text is the card again, with no planned fault.
///
/// # Errors
/// The fault of a write; a prefix of the text went out then.
pub fn put_card_file<W: Write>(out: &mut W, spec: &CardSpec) -> io::Result<()>
    requires { IsPlain spec.now }
    ensures written { Writes (W.contents out.old) (W.contents out.new) result (card_file_text spec.now) }
    ensures read_again { IsCardFile (lines (card_file_text spec.now)) spec.now [] }
{
    tell_widths(spec);
    put_common_lines(out, spec)?;
    put_own_lines(out, &spec.registers.kind)
}
