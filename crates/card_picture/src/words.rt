// Words, one after the other.
ghost use Rattle.std.specs.Prelude.{OnOk, ◌++◌, ◌≡◌};
ghost use Rattle.text_out.specs.Pieces.{pieces_text};

use std::alloc::AllocError;
use text_out::{Piece, put_pieces};

/// Puts pieces after the words that are there. Its error is that memory is refused.
pub(crate) fn say(out: &mut Vec<u8>, pieces: &[Piece<'_>]) -> Result<(), AllocError>
    ensures { OnOk result (out.new.items ≡ out.old.items ++ pieces_text pieces.now) }
{
    match put_pieces(out, pieces) {
        Ok(()) => Ok(()),
        Err(_) => Err(AllocError),
    }
}
