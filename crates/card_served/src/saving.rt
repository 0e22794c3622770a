// What a card holds at the end.
ghost use Rattle.std.specs.Prelude.{◌<◌, OnOk, [], length, slice_index_or};
ghost use Rattle.std.specs.Io.KnownBytes.{Appends};
ghost use Rattle.text_out.specs.Writing.{Writes};
ghost use Rattle.mmc_card.specs.Card.{stored};
ghost use Rattle.card_served.specs.Saved.{all_parts, bytes_in, bytes_of, saved};

use mmc_bus::Part;
use mmc_card_sim::SimCard;
use std::io::{self, Write};
use text_out::put::put;

// All partitions, in the order of images.
const PARTS: [Part; 7] = [
    Part::User,
    Part::Boot1,
    Part::Boot2,
    Part::Gp1,
    Part::Gp2,
    Part::Gp3,
    Part::Gp4,
];

// Writes a sector of a partition.
fn save_sector<W: Write>(card: &SimCard, part: Part, i: usize, out: &mut W) -> io::Result<()>
    requires { i < length (stored card.now.card part) }
    ensures { Writes (W.contents out.old) (W.contents out.new) result
        (slice_index_or (stored card.now.card part) i []) }
{
    match card.sector(part, i) {
        Some(sector) => put(out, &sector),
        None => unreachable!(),
    }
}

// Writes the bytes of a partition.
fn save_part<W: Write>(card: &SimCard, part: Part, out: &mut W) -> io::Result<()>
    ensures { Writes (W.contents out.old) (W.contents out.new) result (bytes_of (stored card.now.card part)) }
{
    for i in 0..card.size(part) {
        save_sector(card, part, i, out)?;
    }
    Ok(())
}

// Writes those of all partitions.
fn save_all<W: Write>(card: &SimCard, out: &mut W) -> io::Result<()>
    ensures { OnOk result (Appends (W.contents out.old) (W.contents out.new) (bytes_in card.now.card all_parts)) }
{
    for part in PARTS {
        save_part(card, part, out)?;
    }
    Ok(())
}

/// Writes the bytes of this partition, or without one those of all, one after the other in the order user, boot1, boot2, gp1 to
/// gp4, as an image has them. Of a write, erase or trim that is unfinished these are the old ones.
///
/// # Errors
/// That of a write, and a front of the bytes may have gone out then.
pub fn save<W: Write>(card: &SimCard, part: Option<Part>, out: &mut W) -> io::Result<()>
    ensures { OnOk result (Appends (W.contents out.old) (W.contents out.new) (saved card.now.card part)) }
{
    match part {
        Some(part) => save_part(card, part, out)?,
        None => save_all(card, out)?,
    }
    out.flush()
}
