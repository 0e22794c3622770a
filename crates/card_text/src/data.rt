// Reads the data of a write.
ghost use Rattle.std.specs.Prelude.{◌≡◌, IfOk};
ghost use Rattle.card_text.specs.Data.{data_of, repeat_of};

use crate::cut::cut;
use crate::number::{byte, number};
use mmc_bus::Bytes;
use std::alloc::{AllocError, Global};

/// The most bytes that one line may give.
pub const MAX_DATA: usize = 1_048_576;

// A byte and how often it comes, which `HH*N` writes, and nothing for another text.
#[tactic(auto, unfolding(crate::specs::Data::repeat_of))]
fn repeat(text: &[u8]) -> Option<(u8, u64)>
    ensures { result ≡ repeat_of text.now }
{
    let (digits, rest) = match cut(text, b'*') {
        (_, None) => return None,
        (digits, Some(rest)) => (digits, rest),
    };
    let count = match cut(rest, b'*') {
        (_, Some(_)) => return None,
        (count, None) => count,
    };
    let byte = byte(digits)?;
    let count = number(count)?;
    if count == 0 {
        None
    } else {
        Some((byte, count))
    }
}

/// The bytes of repeats that are joined by commas, and nothing for another text or where they are too many.
pub fn data(alloc: Global, text: &[u8]) -> Result<Option<Bytes>, AllocError>
    ensures { IfOk result (λ bytes. bytes ≡ data_of text.now) }
{
    let mut bytes = Vec::new(alloc);
    let mut rest = Some(text);
    while let Some(text) = rest {
        let (first, others) = cut(text, b',');
        let Some((byte, count)) = repeat(first) else {
            return Ok(None);
        };
        // The room is tested before it is taken, so that a line asks for no more memory than it may have.
        let room = MAX_DATA - bytes.len();
        if count > room as u64 {
            return Ok(None);
        }
        bytes.resize(bytes.len() + count as usize, byte)?;
        rest = others;
    }
    Ok(Some(Bytes::new(bytes)))
}
