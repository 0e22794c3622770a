// The lines of a trace with words after them.
ghost use Rattle.std.specs.Prelude.{OnOk, ◌++◌, ◌≡◌};
ghost use Rattle.card_explain.specs.Explained.{lines_by, lines_of};

use crate::exchange::KnownCard;
use crate::line::{Numbered, put_line};
use crate::step::{Step, steps};
use std::alloc::{AllocError, Global};

// A line with words for each of these.
#[tactic(auto, unfolding(crate::specs::Explained::lines_by))]
fn put_steps(
    alloc: Global,
    out: &mut Vec<u8>,
    card: KnownCard,
    steps: &[Step],
) -> Result<(), AllocError>
    ensures { OnOk result (out.new.items ≡ out.old.items ++ lines_by card steps.now) }
{
    for step in steps {
        put_line(alloc, out, card, step)?;
    }
    Ok(())
}

/// Writes a line with words for each of the last `most` of these exchanges, which follow each other, with the fault that was planned
/// for it. Those before them tell what comes: an application command, and that the card is being settled.
///
/// # Errors
/// `AllocError` where memory is refused.
pub fn put_lines(
    alloc: Global,
    out: &mut Vec<u8>,
    card: KnownCard,
    exchanges: &[Numbered],
    most: usize,
) -> Result<(), AllocError>
    ensures { OnOk result (out.new.items ≡ out.old.items ++ lines_of card exchanges.now most) }
{
    let steps = steps(alloc, card.kind, exchanges)?;
    let from = steps.len().saturating_sub(most);
    put_steps(alloc, out, card, &steps[from..])
}
