// The fault that was planned for an exchange, in words.
ghost use Rattle.std.specs.Prelude.{OnOk, ◌++◌, ◌≡◌};
ghost use Rattle.card_picture.specs.Faults.{fault_words, has_fallen};

use crate::words::say;
use card_explain::{Note, put_fault};
use std::alloc::AllocError;
use text_out::Piece;

/// Whether a fault has fallen.
pub(crate) fn has_fallen(note: Option<Note>) -> bool
    ensures { result ≡ has_fallen note }
{
    match note {
        Some(note) => note.fell,
        None => false,
    }
}

/// Writes a planned fault, and whether it fell; nothing where none was planned.
#[tactic(auto, unfolding(crate::specs::Faults::fault_words))]
pub(crate) fn put_fault_words(out: &mut Vec<u8>, note: Option<Note>) -> Result<(), AllocError>
    ensures { OnOk result (out.new.items ≡ out.old.items ++ fault_words note) }
{
    let Some(note) = note else {
        return Ok(());
    };
    let front = if note.fell {
        b"fault: ".as_slice()
    } else {
        b"doesn't fit: ".as_slice()
    };
    say(out, &[Piece::Text(front)])?;
    put_fault(out, note.fault)
}
