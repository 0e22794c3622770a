// The commands of an erase, each with its R1 judged (SD Physical Layer 6.00, section 4.3.5; JESD84-B51, sections 6.6.9 and
// 6.6.10). The first two name a first and a last sector, the third one erases them.
ghost use Rattle.std.specs.Prelude.{◌<◌, ◌≡◌, IsOk, Some, false, ℕ};
ghost use Rattle.mmc_card.specs.Card.{Both, First, NoAddress};
ghost use Rattle.mmc_card.specs.CardAnswer.{shown};
ghost use Rattle.mmc_card.specs.Card.{holds};
ghost use Rattle.mmc_card.specs.Laws.{IsStill, erased_by, maybe_erased};
ghost use Rattle.mmc_card.specs.RowsErase.{erases, erasing, is_no_range, is_trim};
ghost use Rattle.mmc_card.specs.Sectors.{Within};
ghost use Rattle.mmc_bus.specs.Heard.{is_inquiry_index};
ghost use Rattle.mmc_bus.specs.Work.{Ends, Narrows, Works};
ghost use Rattle.mmc_erase.specs.Commands.{CanErase, CanHold, first_index, last_index};

use mmc_bus::{Bus, Cause, ask, card_laws, check_r1, erase_laws};
use mmc_frame::Kind;
use mmc_frame::commands::{
    ERASE, ERASE_GROUP_END, ERASE_GROUP_START, ERASE_WR_BLK_END, ERASE_WR_BLK_START,
};

// The command that names the first sector.
fn first_command(kind: Kind) -> u8
    ensures named { result ≡ first_index kind }
    ensures below { result < 64 }
    ensures checked { is_inquiry_index result ≡ false }
{
    match kind {
        Kind::Sd => ERASE_WR_BLK_START,
        Kind::Mmc => ERASE_GROUP_START,
    }
}

// The command that names the last one.
fn last_command(kind: Kind) -> u8
    ensures named { result ≡ last_index kind }
    ensures below { result < 64 }
    ensures checked { is_inquiry_index result ≡ false }
{
    match kind {
        Kind::Sd => ERASE_WR_BLK_END,
        Kind::Mmc => ERASE_GROUP_END,
    }
}

/// Names the first sector by its address (CMD32, CMD35).
///
/// # Errors
/// `Answer` where no sound response was heard, `Status` where it shows an error.
pub fn hold_first<B: Bus>(bus: &mut B, kind: Kind, address: u32) -> Result<(), Cause>
    ensures ends { Ends 1 (B.view bus.old) result (B.view bus.new) }
    ensures works { Works Narrows
        (λ old new. IsOk result → IsStill old.card → old.card.made.kind ≡ kind → old.card.erase ≡ NoAddress
        → new.card ≡ record (shown old.card) { erase = First address })
        (λ old new. CanHold kind NoAddress old.card → IsOk result)
        (B.view bus.old) (B.view bus.new) }
{
    erase_laws::cmd32_and_cmd35_hold_the_first_address();
    card_laws::a_status_tells_of_its_card();
    check_r1(kind, ask(bus, first_command(kind), address))
}

/// Names the last sector by its address (CMD33, CMD36), after the first one.
///
/// # Errors
/// `Answer` where no sound response was heard, `Status` where it shows an error.
pub fn hold_last<B: Bus>(bus: &mut B, kind: Kind, address: u32) -> Result<(), Cause>
    ensures ends { Ends 1 (B.view bus.old) result (B.view bus.new) }
    ensures works { Works Narrows
        (λ old new. (first : ℕ) → IsOk result → IsStill old.card → old.card.made.kind ≡ kind → old.card.erase ≡ First first
        → new.card ≡ record (shown old.card) { erase = Both first address })
        (λ old new. (first : ℕ) → CanHold kind (First first) old.card → IsOk result)
        (B.view bus.old) (B.view bus.new) }
{
    erase_laws::cmd33_and_cmd36_hold_the_last_address();
    card_laws::a_status_tells_of_its_card();
    check_r1(kind, ask(bus, last_command(kind), address))
}

/// Erases or trims from the first sector that was named to the last one (CMD38).
///
/// # Errors
/// `Answer` where no sound response was heard, `Status` where it shows an error.
pub fn erase<B: Bus>(bus: &mut B, kind: Kind, argument: u32) -> Result<(), Cause>
    ensures ends { Ends 1 (B.view bus.old) result (B.view bus.new) }
    ensures works { Works
        (λ old new. Within (holds new.card) (maybe_erased (erased_by old.card (Some (38, argument))) (holds old.card)))
        (λ old new. (first last : ℕ) → IsOk result → IsStill old.card → old.card.erase ≡ Both first last
        → is_no_range old.card first last ≡ false
        → new.card ≡ erases (erasing old.card (is_trim old.card argument) first last) old.card)
        (λ old new. (first last : ℕ) → CanErase kind first last old.card → IsOk result)
        (B.view bus.old) (B.view bus.new) }
{
    erase_laws::cmd38_erases_the_range();
    card_laws::a_status_tells_of_its_card();
    check_r1(kind, ask(bus, ERASE, argument))
}
