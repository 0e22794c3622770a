// Words in a picture.
ghost use Rattle.std.specs.Prelude.{OnOk, ◌++◌, ◌≡◌};
ghost use Rattle.card_picture.specs.Rows.{label_text};

use crate::escape::put_escaped;
use crate::words::say;
use std::alloc::AllocError;
use text_out::Piece;

/// Writes words in an element that begins so.
#[tactic(auto, unfolding(crate::specs::Rows::label_text))]
pub(crate) fn put_label(
    out: &mut Vec<u8>,
    front: &'static [u8],
    words: &[u8],
) -> Result<(), AllocError>
    ensures { OnOk result (out.new.items ≡ out.old.items ++ label_text front.now words.now) }
{
    say(out, &[Piece::Text(front)])?;
    put_escaped(out, words)?;
    say(out, &[Piece::Text(b"</text>")])
}
