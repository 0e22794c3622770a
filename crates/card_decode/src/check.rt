// Writes what the check of a CID or CSD says.
ghost use Rattle.std.specs.Prelude.{◌≡◌, length, take};
ghost use Rattle.mmc_frame.specs.RegisterFrame.{with_check};
ghost use Rattle.card_decode.specs.Summaries.{check_text, fit_text, fitting_check, misfit_text};
ghost use Rattle.text_out.specs.Writing.{Writes};

use mmc_frame::with_check;
use std::io::{self, Write};
use text_out::put::put;
use text_out::{Piece, put_pieces};

/// A CID or CSD with the last byte that fits the others.
pub(crate) fn fitting_register(bytes: &[u8]) -> [u8; 16]
    requires { length bytes.now ≡ 16 }
    ensures { result ≡ with_check (take 15 bytes.now) }
{
    let mut covered = [0; 15];
    covered.copy_from_slice(&bytes[..15]);
    with_check(&covered)
}

// The last byte that fits the others.
fn fitting_check(bytes: &[u8]) -> u8
    requires { length bytes.now ≡ 16 }
    ensures { result ≡ fitting_check bytes.now }
{
    fitting_register(bytes)[15]
}

// Writes that another byte than the given one fits.
#[tactic(auto, unfolding(crate::specs::Summaries::misfit_text))]
fn put_misfit<'a, W: Write>(out: &mut W, given: &'a [u8], fitting: &'a [u8]) -> io::Result<()>
    ensures { Writes (W.contents out.old) (W.contents out.new) result (misfit_text given.now fitting.now) }
{
    put_pieces(
        out,
        &[
            Piece::Text(b"check: "),
            Piece::Hex(given),
            Piece::Text(b", but "),
            Piece::Hex(fitting),
            Piece::Text(b" fits\n"),
        ],
    )
}

// Writes that the given byte fits.
#[tactic(auto, unfolding(crate::specs::Summaries::fit_text))]
fn put_fit<W: Write>(out: &mut W, given: &[u8]) -> io::Result<()>
    ensures { Writes (W.contents out.old) (W.contents out.new) result (fit_text given.now) }
{
    put_pieces(
        out,
        &[
            Piece::Text(b"check: "),
            Piece::Hex(given),
            Piece::Text(b", which fits\n"),
        ],
    )
}

/// Writes whether the last byte of a CID or CSD fits the others: its CRC7 and a 1.
#[tactic(auto, unfolding(crate::specs::Summaries::check_text))]
pub(crate) fn put_check<W: Write>(out: &mut W, bytes: &[u8]) -> io::Result<()>
    requires { length bytes.now ≡ 16 }
    ensures { Writes (W.contents out.old) (W.contents out.new) result (check_text bytes.now) }
{
    let given = bytes[15];
    let fitting = fitting_check(bytes);
    if given == 0 {
        put(out, b"check: not given\n")
    } else if given == fitting {
        put_fit(out, &[given])
    } else {
        put_misfit(out, &[given], &[fitting])
    }
}
