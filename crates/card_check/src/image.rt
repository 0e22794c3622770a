// Whether an image fits.
ghost use Rattle.std.specs.Prelude.{IfOk, ◌≡◌};
ghost use Rattle.text_out.specs.Writing.{Writes};
ghost use Rattle.card_check.specs.Images.{image_line, image_text, is_image, more_words, most_bytes};
ghost use Rattle.card_check.specs.WrongLines.{Prints};

use crate::fault::CheckFault;
use mmc_card_sim::MAX_SECTORS;
use std::io::{self, Write};
use text_out::{Piece, put_pieces};

// Whether so many bytes are 512 for each of these sectors.
fn is_image(sectors: usize, bytes: usize) -> bool
    ensures { result ≡ is_image sectors bytes }
{
    bytes % 512 == 0 && bytes / 512 == sectors
}

/// The most bytes of an image that count for a card of so many sectors, all partitions together: those of the largest card that
/// `serve` takes, or of this one where it is larger.
pub fn most_bytes(sectors: usize) -> usize
    ensures { result ≡ most_bytes sectors }
{
    512usize.saturating_mul(sectors.max(MAX_SECTORS))
}

// What stands after a number of bytes that may be more.
fn more_words(sectors: usize, bytes: usize) -> &'static [u8]
    ensures { result.now ≡ more_words sectors bytes }
{
    if bytes > most_bytes(sectors) {
        b" or more"
    } else {
        b""
    }
}

// That so many bytes are another number than those of the sectors.
#[tactic(auto, unfolding(crate::specs::Images::image_line))]
fn put_other_size<W: Write>(out: &mut W, sectors: usize, bytes: usize) -> io::Result<()>
    ensures { Writes (W.contents out.old) (W.contents out.new) result (image_line sectors bytes) }
{
    let more = more_words(sectors, bytes);
    put_pieces(
        out,
        &[
            Piece::Text(b"image: "),
            Piece::Number(bytes as u64),
            Piece::Text(more),
            Piece::Text(b" bytes, but the card's partitions have "),
            Piece::Number(512u64.saturating_mul(sectors as u64)),
            Piece::Text(b" together, 512 for each of "),
            Piece::Number(sectors as u64),
            Piece::Text(b" sectors\n"),
        ],
    )
}

/// Whether an image of so many bytes has 512 for each of these sectors, all partitions together; where it hasn't, a line says so.
///
/// # Errors
/// `Write` where a write failed, and a front of the line went out then.
pub fn check_image<W: Write>(sectors: usize, bytes: usize, out: &mut W) -> Result<bool, CheckFault>
    ensures good { IfOk result (λ good. good ≡ is_image sectors bytes) }
    ensures said { Prints (W.contents out.old) (W.contents out.new) result (image_text sectors bytes) }
{
    if is_image(sectors, bytes) {
        return Ok(true);
    }
    put_other_size(out, sectors, bytes)?;
    Ok(false)
}
