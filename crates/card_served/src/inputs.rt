// Reads inputs: a card file, the front of an image, or any other text.
ghost use Rattle.std.specs.Prelude.{◌≡◌, ◌⊎◌, IfErr, IfOk, IfSome, take};
ghost use Rattle.card_text.specs.Planning.{CanBePlanned};
ghost use Rattle.card_served.specs.Inputs.{IsCardRead, IsCardRefused, IsUnread};
ghost use Rattle.card_served.specs.declared.fault.ServeFault.TheVariants.{NoMemory, ReadImage};

use crate::fault::ServeFault;
use card_text::card_file::{CardFile, MAX_CARD_FILE, read_card};
use card_text::input::{ReadFault, read_bounded, read_front};
use std::alloc::Global;
use std::io::Read;

/// The whole of an input that has at most `limit` bytes.
///
/// # Errors
/// `unread` where the reader failed, `TooLong`, `NoMemory`.
pub fn whole<R: Read>(
    alloc: Global,
    reader: &mut R,
    limit: usize,
    unread: ServeFault,
) -> Result<Vec<u8>, ServeFault>
    ensures ok { IfOk result (λ bytes. IfSome (R.remaining reader.old) (λ all. bytes.items ≡ all)) }
    ensures err { IfErr result (λ fault. IsUnread (R.remaining reader.old) limit unread fault) }
{
    match read_bounded(alloc, reader, limit) {
        Ok(bytes) => Ok(bytes),
        Err(ReadFault::Reader) => Err(unread),
        Err(ReadFault::TooLong) => Err(ServeFault::TooLong),
        Err(ReadFault::NoMemory) => Err(ServeFault::NoMemory),
    }
}

/// What a card file of at most 65,536 bytes says.
///
/// # Errors
/// The first of `ReadCard`, `TooLong`, `CardLine` and `CardIncomplete`; `NoMemory` at each step.
pub fn card_in<C: Read>(alloc: Global, card: &mut C) -> Result<CardFile, ServeFault>
    ensures plan { IfOk result (λ file. CanBePlanned file.plan.items) }
    ensures ok { IfOk result (λ file. IsCardRead (C.remaining card.old) file.spec file.plan.items) }
    ensures err { IfErr result (λ fault. IsCardRefused (C.remaining card.old) fault) }
{
    let text = whole(alloc, card, MAX_CARD_FILE, ServeFault::ReadCard)?;
    let file = read_card(alloc, text.as_slice())?;
    Ok(file)
}

/// The first bytes of an image, `limit` at most.
///
/// # Errors
/// `ReadImage`, `NoMemory`.
pub fn image_front<I: Read>(
    alloc: Global,
    image: &mut I,
    limit: usize,
) -> Result<Vec<u8>, ServeFault>
    ensures ok { IfOk result (λ bytes. IfSome (I.remaining image.old) (λ all. bytes.items ≡ take limit all)) }
    ensures err { IfErr result (λ fault. (fault ≡ ReadImage) ⊎ (fault ≡ NoMemory)) }
{
    match read_front(alloc, image, limit) {
        Ok(bytes) => Ok(bytes),
        Err(ReadFault::NoMemory) => Err(ServeFault::NoMemory),
        Err(_) => Err(ServeFault::ReadImage),
    }
}
