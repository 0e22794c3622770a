// Width and speed, from a card that is in tran as identification leaves it to one that is ready.
//
// 1. A card with byte addresses gets blocks of 512 bytes (CMD16).
// 2. SD: the SCR; four lines where it names them; high speed where the card has CMD6, its switch status names it, and its
//    second one selects it; and a clean status.
// 3. eMMC: the EXT_CSD, which is judged at once; erase groups by HC_ERASE_GRP_SIZE, eight lines, and high speed where
//    DEVICE_TYPE names it: each is one switch, which has to be confirmed before the host's lines follow.
// 4. No more lines than the host has wired, and no high speed where it hasn't it: then the device has four lines or one, the
//    card one, and what would ask for more isn't sent.
// 5. Each response has to be sound and without an error. Anything else ends it.
ghost use Rattle.std.specs.Prelude.{◌≡◌, ◌*◌, ◌+◌, ◌<◌, ◌≤◌, IfOk, IsErr, IsOk, Some, false, true, ℕ};
ghost use Rattle.mmc_frame.specs.declared.kind.Kind.TheVariants.{Sd};
ghost use Rattle.mmc_card.specs.Profile.{InProfile};
ghost use Rattle.mmc_card.specs.declared.part.Part.TheVariants.{User};
ghost use Rattle.mmc_bus.specs.Work.{Moves};
ghost use Rattle.mmc_identify.specs.Stages.{IsFound, IsLeft};
ghost use Rattle.mmc_switch.specs.Place.{IsInitialized};
ghost use Rattle.mmc_switch.specs.Stages.{IsSet, first_lines, first_setting};
ghost use Rattle.mmc_switch.specs.declared.mmc.TheConstants.{EXCHANGES_OF_A_SWITCH};

use crate::fault::SwitchFault;
use crate::session::Session;
use crate::{mmc, sd};
use mmc_bus::{Bus, Cause, ask, card_laws, check_own, transfer_laws};
use mmc_card::laws;
use mmc_frame::commands::SET_BLOCKLEN;
use mmc_frame::{Addressing, Kind};
use mmc_identify::Found;

// CMD16: blocks of 512 bytes.
fn set_block_length<B: Bus>(bus: &mut B, kind: Kind) -> Result<(), Cause>
    ensures bounded { (B.view bus.new).exchanges ≤ (B.view bus.old).exchanges + 1 }
    ensures moves { Moves
        (λ old new. (rca : ℕ) → IsLeft rca old.card → old.lines ≡ first_lines → IsOk result
        → IsSet false (first_setting rca) new)
        (λ old new. (rca : ℕ) → old.card.made.kind ≡ kind → IsLeft rca old.card → IsOk result)
        (B.view bus.old) (B.view bus.new) }
{
    transfer_laws::cmd16_sets_the_block_length();
    card_laws::a_status_tells_of_its_card();
    laws::no_command_but_erase_widens();
    check_own(kind, ask(bus, SET_BLOCKLEN, 512))
}

// From blocks of 512 bytes on.
fn widen_by_kind<B: Bus>(bus: &mut B, found: &Found) -> Result<Session, SwitchFault>
    ensures bounded { (B.view bus.new).exchanges ≤ (B.view bus.old).exchanges + (3 * EXCHANGES_OF_A_SWITCH + 2) }
    ensures of_sd { found.now.kind ≡ Sd → (B.view bus.new).exchanges ≤ (B.view bus.old).exchanges + 10 }
    ensures user { IfOk result (λ session. session.selected ≡ Some User) }
    ensures moves { Moves
        (λ old new. IsFound old.card.made found.now → IsSet false (first_setting found.now.rca) old
        → IfOk result (λ session. IsInitialized session new))
        (λ old new. InProfile old.card.made → IsFound old.card.made found.now
        → IsSet false (first_setting found.now.rca) old → IsOk result)
        (B.view bus.old) (B.view bus.new) }
{
    match found.kind {
        Kind::Sd => sd::widen(bus, found),
        Kind::Mmc => mmc::widen(bus, found),
    }
}

/// Widens a card that was identified: it is ready then, with the user partition selected. It makes at most three
/// switches and three more exchanges, and at most 11 exchanges with an SD card.
///
/// # Errors
/// What the fault says; of a card in profile only where a fault fell.
pub fn widen<B: Bus>(bus: &mut B, found: Found) -> Result<Session, SwitchFault>
    ensures bounded { (B.view bus.new).exchanges ≤ (B.view bus.old).exchanges + (3 * EXCHANGES_OF_A_SWITCH + 3) }
    ensures of_sd { found.kind ≡ Sd → (B.view bus.new).exchanges ≤ (B.view bus.old).exchanges + 11 }
    ensures user { IfOk result (λ session. session.selected ≡ Some User) }
    ensures moves { Moves
        (λ old new. IsFound old.card.made found → IsLeft found.rca old.card → old.lines ≡ first_lines
        → IfOk result (λ session. IsInitialized session new))
        (λ old new. InProfile old.card.made → IsFound old.card.made found → IsLeft found.rca old.card
        → old.lines ≡ first_lines → IsOk result)
        (B.view bus.old) (B.view bus.new) }
    ensures refused { (B.view bus.new).is_kept ≡ true → InProfile (B.view bus.old).card.made
        → IsFound (B.view bus.old).card.made found → IsLeft found.rca (B.view bus.old).card
        → (B.view bus.old).lines ≡ first_lines → IsErr result → (B.view bus.old).faults < (B.view bus.new).faults }
{
    match found.addressing {
        Addressing::Bytes => {
            set_block_length(bus, found.kind).map_err(|_| SwitchFault::Exchange)?;
            widen_by_kind(bus, &found)
        }
        Addressing::Sectors => widen_by_kind(bus, &found),
    }
}
