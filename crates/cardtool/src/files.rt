// Reads the files: the card file, then the script, then the image.
ghost use Rattle.std.specs.Prelude.{◌≡◌, ◌⊎◌, IfErr, IfOk, IsSome, option_map};
ghost use Rattle.card_served.specs.declared.fault.ServeFault.TheVariants.{NoMemory, ReadImage};
ghost use Rattle.cardtool.specs.Files.{AreRead, AreRefused, IsImage};
ghost use Rattle.card_text.specs.Planning.{CanBePlanned};

use card_served::{ServeFault, card_in, image_front, whole};
use card_text::card_file::CardFile;
use card_text::script::{MAX_SCRIPT, Script, read_script};
use mmc_bus::Bytes;
use mmc_card_sim::{CardSpec, Fault, MAX_SECTORS};
use std::alloc::Global;
use std::io::Read;

// The bytes of an image, where there is one, to one byte past the most sectors.
fn image_of<I: Read>(alloc: Global, image: &mut Option<I>) -> Result<Option<Bytes>, ServeFault>
    ensures ok { IfOk result (λ bytes. IsImage (option_map (λ i. I.remaining i) image.old) bytes) }
    ensures given { IfErr result (λ fault. fault ≡ ReadImage → IsSome (option_map (λ i. I.remaining i) image.old)) }
    ensures err { IfErr result (λ fault. (fault ≡ ReadImage) ⊎ (fault ≡ NoMemory)) }
{
    let Some(image) = image else {
        return Ok(None);
    };
    let bytes = image_front(alloc, image, 512 * MAX_SECTORS + 1)?;
    Ok(Some(Bytes::new(bytes)))
}

/// What the files say.
#[derive(Drop)]
pub struct FilesRead {
    /// What the card is built by, with its image where there is one.
    pub spec: CardSpec,
    /// The faults that are planned, each with its exchange.
    pub plan: Vec<(u64, Fault)>,
    /// The events.
    pub script: Script,
}

/// Reads the card file, then the script, then the image.
///
/// # Errors
/// The first that comes, in this order: `ReadCard`, `TooLong` above 65,536 bytes, `CardLine`, `CardIncomplete`;
/// `ReadScript`, `TooLong` above 1,048,576 bytes, `ScriptLine`; `ReadImage`. `NoMemory` where memory is refused.
pub fn read_files<C: Read, S: Read, I: Read>(
    alloc: Global,
    card: &mut C,
    script: &mut S,
    image: &mut Option<I>,
) -> Result<FilesRead, ServeFault>
    ensures plan { IfOk result (λ read. CanBePlanned read.plan.items) }
    ensures ok { IfOk result (λ read. AreRead (record { card = C.remaining card.old; script = S.remaining script.old; image = option_map (λ i. I.remaining i) image.old }) read.spec read.plan.items read.script) }
    ensures err { IfErr result (λ fault. AreRefused (record { card = C.remaining card.old; script = S.remaining script.old; image = option_map (λ i. I.remaining i) image.old }) fault) }
{
    let CardFile { spec, plan } = card_in(alloc, card)?;
    let text = whole(alloc, script, MAX_SCRIPT, ServeFault::ReadScript)?;
    let script = read_script(alloc, text.as_slice())?;
    let image = image_of(alloc, image)?;
    let spec = CardSpec { image, ..spec };
    Ok(FilesRead { spec, plan, script })
}
