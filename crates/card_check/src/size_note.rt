// The size of a card that `nbd` serves and `serve` doesn't.
ghost use Rattle.text_out.specs.Writing.{Writes};
ghost use Rattle.card_check.specs.Notes.{size_line, size_note};

use mmc_card_sim::MAX_SECTORS;
use std::io::{self, Write};
use text_out::{Piece, put_pieces};

// That `serve` doesn't take so many sectors.
#[tactic(auto, unfolding(crate::specs::Notes::size_line))]
fn put_line<W: Write>(out: &mut W, sectors: usize) -> io::Result<()>
    ensures { Writes (W.contents out.old) (W.contents out.new) result (size_line sectors) }
{
    put_pieces(
        out,
        &[
            Piece::Text(b"note: the partitions have "),
            Piece::Number(sectors as u64),
            Piece::Text(b" sectors together, and serve takes at most "),
            Piece::Number(MAX_SECTORS as u64),
            Piece::Text(b"\n"),
        ],
    )
}

/// Writes a note for a card of so many sectors, all partitions together, where `serve` doesn't take it.
///
/// # Errors
/// The fault of a write; a front of the note went out then.
pub fn put_size_note<W: Write>(out: &mut W, sectors: usize) -> io::Result<()>
    ensures { Writes (W.contents out.old) (W.contents out.new) result (size_note sectors) }
{
    if sectors > MAX_SECTORS {
        put_line(out, sectors)
    } else {
        Ok(())
    }
}
