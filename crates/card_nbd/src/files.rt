// The files that are read.
ghost use Rattle.std.specs.Prelude.{IfOk};
ghost use Rattle.card_text.specs.Planning.{CanBePlanned};

use card_served::{ServeFault, card_in, image_front, named_file, opened};
use card_text::card_file::CardFile;
use mmc_bus::Bytes;
use mmc_card_sim::{CardSpec, MAX_LARGE};
use std::alloc::Global;
use std::io::{BufReader, Read};
use std::rt::Files;

// How many bytes of an image are read at once.
const READ_AT_ONCE: usize = 1_048_576;

// The bytes of an image, to one byte past the most sectors.
fn image_bytes<I: Read>(alloc: Global, image: I) -> Result<Vec<u8>, ServeFault>
where
    I: Drop,
{
    let Ok(mut image) = BufReader::with_capacity(alloc, READ_AT_ONCE, image) else {
        return Err(ServeFault::NoMemory);
    };
    image_front(alloc, &mut image, 512 * MAX_LARGE + 1)
}

/// The card of a card file, and the faults that are planned for it, with an image where one is named.
///
/// # Errors
/// The first of `ReadCard`, `TooLong` above 65,536 bytes, `CardLine`, `CardIncomplete`, `ReadImage`; `NoMemory` at each step.
pub fn read_files<R: Files + AllocGlobal>(
    rt: &R,
    card: &str,
    image: Option<&str>,
) -> Result<CardFile, ServeFault>
    ensures { IfOk result (λ file. CanBePlanned file.plan.items) }
{
    let mut card = opened(rt, card, ServeFault::ReadCard)?;
    let CardFile { spec, plan } = card_in(rt.alloc(), &mut card)?;
    let Some(image) = named_file(rt, image, ServeFault::ReadImage)? else {
        return Ok(CardFile { spec, plan });
    };
    let bytes = image_bytes(rt.alloc(), image)?;
    let spec = CardSpec {
        image: Some(Bytes::new(bytes)),
        ..spec
    };
    Ok(CardFile { spec, plan })
}
