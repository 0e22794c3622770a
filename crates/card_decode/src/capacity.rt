// Writes the size of a card.
ghost use Rattle.std.specs.Prelude.{◌≡◌};
ghost use Rattle.card_decode.specs.Capacities.{amount_text, binary_text, capacity_text, sectors_text, tenths_of};
ghost use Rattle.text_out.specs.Writing.{Writes};

use std::io::{self, Write};
use text_out::put::put;
use text_out::{Piece, put_pieces};

// How many sectors a MiB has.
const MIB: u64 = 2_048;
// How many sectors a GiB has.
const GIB: u64 = 2_097_152;

// A size in MiB, to the nearest tenth.
fn tenths_of_mib(sectors: u64) -> u64
    ensures { result ≡ tenths_of sectors MIB }
{
    sectors / MIB * 10 + (sectors % MIB * 10 + MIB / 2) / MIB
}

// A size in GiB, to the nearest tenth.
fn tenths_of_gib(sectors: u64) -> u64
    ensures { result ≡ tenths_of sectors GIB }
{
    sectors / GIB * 10 + (sectors % GIB * 10 + GIB / 2) / GIB
}

// Writes so many tenths of a unit.
#[tactic(auto, unfolding(crate::specs::Capacities::amount_text))]
fn put_amount<W: Write>(out: &mut W, tenths: u64, unit: &[u8]) -> io::Result<()>
    ensures { Writes (W.contents out.old) (W.contents out.new) result (amount_text tenths unit.now) }
{
    if tenths % 10 == 0 {
        return put_pieces(
            out,
            &[
                Piece::Text(b", "),
                Piece::Number(tenths / 10),
                Piece::Text(b" "),
                Piece::Text(unit),
                Piece::Text(b"\n"),
            ],
        );
    }
    put_pieces(
        out,
        &[
            Piece::Text(b", "),
            Piece::Number(tenths / 10),
            Piece::Text(b"."),
            Piece::Number(tenths % 10),
            Piece::Text(b" "),
            Piece::Text(unit),
            Piece::Text(b"\n"),
        ],
    )
}

// Writes a size in MiB or GiB, from 1 MiB on, and ends the line.
#[tactic(auto, unfolding(crate::specs::Capacities::binary_text))]
fn put_binary<W: Write>(out: &mut W, sectors: u64) -> io::Result<()>
    ensures { Writes (W.contents out.old) (W.contents out.new) result (binary_text sectors) }
{
    if sectors < MIB {
        put(out, b"\n")
    } else if sectors < GIB {
        put_amount(out, tenths_of_mib(sectors), b"MiB")
    } else {
        put_amount(out, tenths_of_gib(sectors), b"GiB")
    }
}

// Writes how many sectors there are.
fn put_sectors<W: Write>(out: &mut W, sectors: u64) -> io::Result<()>
    ensures { Writes (W.contents out.old) (W.contents out.new) result (sectors_text sectors) }
{
    put_pieces(
        out,
        &[
            Piece::Text(b"capacity: "),
            Piece::Number(sectors),
            Piece::Text(b" sectors of 512 bytes"),
        ],
    )
}

/// Writes a card's size in sectors of 512 bytes, and from 1 MiB on in MiB or GiB too, to the nearest tenth, as lsblk
/// shows it.
pub(crate) fn put_capacity<W: Write>(out: &mut W, sectors: u64) -> io::Result<()>
    ensures { Writes (W.contents out.old) (W.contents out.new) result (capacity_text sectors) }
{
    put_sectors(out, sectors)?;
    put_binary(out, sectors)
}
