// Writes a line in pieces.
ghost use Rattle.text_out.specs.Pieces.{piece_text, pieces_text};
ghost use Rattle.text_out.specs.Writing.{Writes};

use crate::hex::put_hex;
use crate::put::{put, put_number};
use crate::repeats::put_repeats;
use std::io::{self, Write};

/// A part of a line.
#[derive(Clone, Copy, Debug, PartialEq, Eq)]
pub enum Piece<'a> {
    /// These bytes.
    Text(&'a [u8]),
    /// A number in decimal digits.
    Number(u64),
    /// Bytes in lower case hexadecimal digits, two a byte.
    Hex(&'a [u8]),
    /// Bytes as their longest repeats `HH*N`, joined by commas.
    Repeats(&'a [u8]),
}

// Writes one piece.
fn put_piece<W: Write>(out: &mut W, piece: Piece<'_>) -> io::Result<()>
    ensures { Writes (W.contents out.old) (W.contents out.new) result (piece_text piece.entry) }
{
    match piece {
        Piece::Text(text) => put(out, text),
        Piece::Number(number) => put_number(out, number),
        Piece::Hex(bytes) => put_hex(out, bytes),
        Piece::Repeats(bytes) => put_repeats(out, bytes),
    }
}

/// Writes pieces, one after the other. It takes no memory.
pub fn put_pieces<W: Write>(out: &mut W, pieces: &[Piece<'_>]) -> io::Result<()>
    ensures { Writes (W.contents out.old) (W.contents out.new) result (pieces_text pieces.now) }
{
    for piece in pieces {
        put_piece(out, *piece)?;
    }
    Ok(())
}
