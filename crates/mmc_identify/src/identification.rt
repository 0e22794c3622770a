// Identification from anywhere to tran, for SD cards and eMMC devices alike.
//
// 1. CMD0 and one line at default speed. CMD8 tells whether the card is to hear HCS; one that doesn't answer isn't told.
// 2. CMD55 with RCA 0 tells the kind: an SD card answers, and goes on by ACMD41; of an eMMC device nothing is heard, and
//    it goes on by CMD0 and CMD1.
// 3. CMD2, CMD3, CMD9, CMD7, polls until the card isn't busy, and CMD13, whose status has to be clean. While it shows the card
//    on its way to tran still, CMD13 comes again, at most `MAX_POLLS` times with the polls that were answered yes.
// 4. Any other missing or unsound response ends it. Registers are judged at the end.
ghost use Rattle.std.specs.Prelude.{◌≡◌, ◌+◌, ◌<◌, ◌≤◌, IfOk, IsErr, IsOk, IsOkAnd, Ok, false, true};
ghost use Rattle.mmc_frame.specs.declared.card_state.State.TheVariants.{Ident, Ready};
ghost use Rattle.mmc_frame.specs.declared.kind.Kind.TheVariants as Is;
ghost use Rattle.mmc_card.specs.declared.exchange.Timing.TheVariants.{Default};
ghost use Rattle.mmc_card.specs.declared.exchange.Width.TheVariants.{One};
ghost use Rattle.mmc_card.specs.Profile.{InProfile};
ghost use Rattle.mmc_bus.specs.Work.{Moves};
ghost use Rattle.mmc_bus.specs.declared.wait.TheConstants.{MAX_POLLS};
ghost use Rattle.mmc_identify.specs.Stages.{CanStart, HasTold, IsFound, IsIdle, IsLeft, IsNamed, IsRcaOf, IsResting, IsTaken, Looks, ready_ocr};

use crate::fault::IdentFault;
use crate::found::Found;
use crate::judging::found;
use crate::sd::{announce, probe, publish};
use crate::shared::{confirm, describe, go_idle, name, select};
use crate::{mmc, sd};
use mmc_bus::{Bus, count_polls};
use mmc_card::{Timing, Width, laws};
use mmc_frame::Kind;

/// The registers of a card, as they were sent.
#[derive(Clone, Copy, Debug)]
pub struct Registers {
    pub cid: [u8; 16],
    pub rca: u16,
    pub csd: [u8; 16],
}

// CMD55, which tells the kind, and the inquiries: the kind and the OCR of a card that is ready.
fn start<B: Bus>(bus: &mut B, hcs: bool) -> Result<(Kind, u32), IdentFault>
    ensures bounded { (B.view bus.new).exchanges ≤ (B.view bus.old).exchanges + 32 }
    ensures of_mmc { IfOk result (λ told. told.0 ≡ Is.Mmc → (B.view bus.new).exchanges ≤ (B.view bus.old).exchanges + 18) }
    ensures lines { (B.view bus.new).lines ≡ (B.view bus.old).lines }
    ensures moves { Moves
        (λ old new. IfOk result (λ told. (told.0 ≡ old.card.made.kind) × (told.1 ≡ ready_ocr old.card.made)))
        (λ old new. InProfile old.card.made → CanStart old.card.made hcs → IsIdle hcs false 0 old.card
        → (result ≡ Ok (old.card.made.kind, ready_ocr old.card.made)) × (new.card.state ≡ Ready))
        (B.view bus.old) (B.view bus.new) }
{
    if announce(bus)? {
        let ocr = sd::start(bus, hcs)?;
        Ok((Kind::Sd, ocr))
    } else {
        go_idle(bus);
        let ocr = mmc::start(bus)?;
        Ok((Kind::Mmc, ocr))
    }
}

// From anywhere to ready: the kind and the OCR.
fn begin<B: Bus>(bus: &mut B) -> Result<(Kind, u32), IdentFault>
    ensures bounded { (B.view bus.new).exchanges ≤ (B.view bus.old).exchanges + 34 }
    ensures of_mmc { IfOk result (λ told. told.0 ≡ Is.Mmc → (B.view bus.new).exchanges ≤ (B.view bus.old).exchanges + 20) }
    ensures lines { (B.view bus.new).lines ≡ record { width = One; timing = Default } }
    ensures moves { Moves
        (λ old new. IfOk result (λ told. (told.0 ≡ old.card.made.kind) × (told.1 ≡ ready_ocr old.card.made)))
        (λ old new. InProfile old.card.made
        → (result ≡ Ok (old.card.made.kind, ready_ocr old.card.made)) × (new.card.state ≡ Ready))
        (B.view bus.old) (B.view bus.new) }
{
    go_idle(bus);
    bus.set_lines(Width::One, Timing::Default);
    let hcs = probe(bus)?;
    start(bus, hcs)
}

// CMD3.
fn address<B: Bus>(bus: &mut B, kind: Kind) -> Result<u16, IdentFault>
    ensures bounded { (B.view bus.new).exchanges ≤ (B.view bus.old).exchanges + 1 }
    ensures lines { (B.view bus.new).lines ≡ (B.view bus.old).lines }
    ensures moves { Moves
        (λ old new. old.card.made.kind ≡ kind → IfOk result (λ rca. IsRcaOf old.card.made rca))
        (λ old new. InProfile old.card.made → old.card.made.kind ≡ kind → old.card.state ≡ Ident
        → IsOkAnd result (λ rca. IsNamed rca new.card))
        (B.view bus.old) (B.view bus.new) }
{
    match kind {
        Kind::Sd => publish(bus),
        Kind::Mmc => mmc::assign(bus),
    }
}

// From ready to stby: CID, RCA and CSD.
fn register<B: Bus>(bus: &mut B, kind: Kind) -> Result<Registers, IdentFault>
    ensures bounded { (B.view bus.new).exchanges ≤ (B.view bus.old).exchanges + 3 }
    ensures lines { (B.view bus.new).lines ≡ (B.view bus.old).lines }
    ensures moves { Moves
        (λ old new. old.card.made.kind ≡ kind → IfOk result (λ registers. HasTold old.card.made registers))
        (λ old new. InProfile old.card.made → old.card.made.kind ≡ kind → old.card.state ≡ Ready
        → IsOkAnd result (λ registers. IsNamed registers.rca new.card))
        (B.view bus.old) (B.view bus.new) }
{
    let cid = name(bus)?;
    let rca = address(bus, kind)?;
    let csd = describe(bus, rca)?;
    Ok(Registers { cid, rca, csd })
}

// Polls until the card isn't busy: how many polls were answered yes.
fn wait<B: Bus>(bus: &mut B, rca: u16) -> Result<u64, IdentFault>
    ensures bounded { (B.view bus.new).exchanges ≤ (B.view bus.old).exchanges + 16 }
    ensures few { IfOk result (λ polls. (polls < MAX_POLLS)
        × ((B.view bus.new).exchanges ≤ (B.view bus.old).exchanges + polls + 1)) }
    ensures lines { (B.view bus.new).lines ≡ (B.view bus.old).lines }
    ensures moves { Moves (λ old new. IsOk result → Looks rca old.card → Looks rca new.card)
        (λ old new. IsTaken rca old.card → IsOkAnd result (λ polls. IsResting rca polls new.card))
        (B.view bus.old) (B.view bus.new) }
{
    count_polls(bus).map_err(|_| IdentFault::NoAnswer)
}

// From stby to tran.
fn take<B: Bus>(bus: &mut B, kind: Kind, rca: u16) -> Result<(), IdentFault>
    ensures bounded { (B.view bus.new).exchanges ≤ (B.view bus.old).exchanges + 18 }
    ensures lines { (B.view bus.new).lines ≡ (B.view bus.old).lines }
    ensures moves { Moves (λ old new. IsOk result → IsLeft rca new.card)
        (λ old new. InProfile old.card.made → old.card.made.kind ≡ kind → IsNamed rca old.card → IsOk result)
        (B.view bus.old) (B.view bus.new) }
{
    select(bus, rca)?;
    let polls = wait(bus, rca)?;
    confirm(bus, kind, rca, polls)
}

/// Identifies the card, whatever became of it before: an SD card on one line at default speed, or an eMMC device. It is
/// in tran then, selected under its RCA. It makes at most 55 exchanges, and at most 41 where it finds an eMMC device.
///
/// # Errors
/// What the fault says; of a card in profile only where a fault fell. `Register` and `Mismatch` are judged last, but an
/// RCA 0 at once.
#[inline(never)]
pub fn identify<B: Bus>(bus: &mut B) -> Result<Found, IdentFault>
    ensures bounded { (B.view bus.new).exchanges ≤ (B.view bus.old).exchanges + 55 }
    ensures of_mmc { IfOk result (λ found. found.kind ≡ Is.Mmc → (B.view bus.new).exchanges ≤ (B.view bus.old).exchanges + 41) }
    ensures lines { (B.view bus.new).lines ≡ record { width = One; timing = Default } }
    ensures moves { Moves
        (λ old new. IfOk result (λ found. IsFound old.card.made found × IsLeft found.rca new.card))
        (λ old new. InProfile old.card.made → IsOk result)
        (B.view bus.old) (B.view bus.new) }
    ensures refused { (B.view bus.new).is_kept ≡ true → InProfile (B.view bus.old).card.made → IsErr result
        → (B.view bus.old).faults < (B.view bus.new).faults }
{
    laws::registers_in_profile_are_taken();
    let (kind, ocr) = begin(bus)?;
    let Registers { cid, rca, csd } = register(bus, kind)?;
    take(bus, kind, rca)?;
    found(kind, ocr, rca, &cid, &csd)
}
