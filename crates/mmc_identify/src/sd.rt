// What identification does with SD cards (SD Physical Layer 6.00, section 4.2), one exchange or two a function.
ghost use Rattle.std.specs.Prelude.{◌≡◌, ◌+◌, ◌≤◌, Bool, IfOk, IsOkAnd, Ok, Some, false, true, ℕ};
ghost use Rattle.mmc_frame.specs.declared.card_state.State.TheVariants.{Ident, Ready};
ghost use Rattle.mmc_frame.specs.declared.kind.Kind.TheVariants.{Sd};
ghost use Rattle.mmc_card.specs.Made.{is_sd};
ghost use Rattle.mmc_card.specs.Profile.{InProfile};
ghost use Rattle.mmc_bus.specs.Work.{Moves};
ghost use Rattle.mmc_identify.specs.Judged as judged;
ghost use Rattle.mmc_identify.specs.Stages.{CanStart, Inquired, IsIdle, IsNamed, echoes, ready_ocr};

use crate::fault::IdentFault;
use crate::judging::{answered, echoed, inquired, published};
use mmc_bus::{Bus, ask, ask_ocr, identify_laws};
use mmc_card::laws;
use mmc_frame::Kind;
use mmc_frame::commands::{APP_CMD, SEND_IF_COND, SEND_RELATIVE_ADDR};

// The argument of CMD8: voltage 1, 2.7 to 3.6 V, and a pattern.
const VOLTAGE_AND_PATTERN: u32 = 0x1aa;

/// How often a card is asked whether it is ready, before identification gives up. Without a fault sixteen
/// times are enough.
pub const MAX_INQUIRIES: u8 = 16;

// The argument of ACMD41: bits 21 and 20, 3.2 to 3.4 V, and HCS where the card knows CMD8.
fn window(hcs: bool) -> u32
    ensures { result ≡ judged.window hcs }
{
    if hcs { 0x4030_0000 } else { 0x0030_0000 }
}

/// CMD8: whether the card repeats what it is told.
pub fn probe<B: Bus>(bus: &mut B) -> Result<bool, IdentFault>
    ensures bounded { (B.view bus.new).exchanges ≤ (B.view bus.old).exchanges + 1 }
    ensures lines { (B.view bus.new).lines ≡ (B.view bus.old).lines }
    ensures moves { Moves (λ old new. Unit {0})
        (λ old new. IsIdle false false 0 old.card
        → (result ≡ Ok (echoes old.card.made)) × IsIdle (echoes old.card.made) false 0 new.card)
        (B.view bus.old) (B.view bus.new) }
{
    identify_laws::cmd8_is_repeated_by_a_card_that_knows_it();
    laws::no_command_but_erase_widens();
    echoed(ask(bus, SEND_IF_COND, VOLTAGE_AND_PATTERN))
}

/// CMD55: whether it is answered, as an SD card does.
pub fn announce<B: Bus>(bus: &mut B) -> Result<bool, IdentFault>
    ensures bounded { (B.view bus.new).exchanges ≤ (B.view bus.old).exchanges + 1 }
    ensures lines { (B.view bus.new).lines ≡ (B.view bus.old).lines }
    ensures moves { Moves (λ old new. result ≡ Ok true → old.card.made.kind ≡ Sd)
        (λ old new. (accepted : Bool) (times : ℕ) → IsIdle accepted false times old.card
        → (result ≡ Ok (is_sd old.card.made.kind)) × IsIdle accepted (is_sd old.card.made.kind) times new.card)
        (B.view bus.old) (B.view bus.new) }
{
    identify_laws::cmd55_announces_an_application_command();
    identify_laws::a_command_to_another_card_changes_nothing();
    laws::no_command_but_erase_widens();
    answered(ask(bus, APP_CMD, 0))
}

// ACMD41, after CMD55.
fn inquire<B: Bus>(bus: &mut B, hcs: bool) -> Result<Option<u32>, IdentFault>
    ensures bounded { (B.view bus.new).exchanges ≤ (B.view bus.old).exchanges + 1 }
    ensures lines { (B.view bus.new).lines ≡ (B.view bus.old).lines }
    ensures moves { Moves
        (λ old new. (ocr : ℕ) → result ≡ Ok (Some ocr) → (old.card.made.kind ≡ Sd) × (ocr ≡ ready_ocr old.card.made))
        (λ old new. (times : ℕ) → InProfile old.card.made → CanStart old.card.made hcs → old.card.made.kind ≡ Sd
        → IsIdle hcs true times old.card → Inquired hcs times old.card.made result new.card)
        (B.view bus.old) (B.view bus.new) }
{
    identify_laws::acmd41_asks_an_sd_card_whether_it_is_ready();
    laws::no_command_but_erase_widens();
    inquired(ask_ocr(bus, Kind::Sd, window(hcs)))
}

// CMD55 and ACMD41.
fn inquire_again<B: Bus>(bus: &mut B, hcs: bool) -> Result<Option<u32>, IdentFault>
    ensures bounded { (B.view bus.new).exchanges ≤ (B.view bus.old).exchanges + 2 }
    ensures lines { (B.view bus.new).lines ≡ (B.view bus.old).lines }
    ensures moves { Moves
        (λ old new. (ocr : ℕ) → result ≡ Ok (Some ocr) → (old.card.made.kind ≡ Sd) × (ocr ≡ ready_ocr old.card.made))
        (λ old new. (times : ℕ) → InProfile old.card.made → CanStart old.card.made hcs → old.card.made.kind ≡ Sd
        → IsIdle hcs false times old.card → Inquired hcs times old.card.made result new.card)
        (B.view bus.old) (B.view bus.new) }
{
    if !announce(bus)? {
        return Err(IdentFault::NoAnswer);
    }
    inquire(bus, hcs)
}

// The inquiries after the first one.
fn inquire_on<B: Bus>(bus: &mut B, hcs: bool) -> Result<u32, IdentFault>
    ensures bounded { (B.view bus.new).exchanges ≤ (B.view bus.old).exchanges + 30 }
    ensures lines { (B.view bus.new).lines ≡ (B.view bus.old).lines }
    ensures moves { Moves
        (λ old new. IfOk result (λ ocr. (old.card.made.kind ≡ Sd) × (ocr ≡ ready_ocr old.card.made)))
        (λ old new. InProfile old.card.made → CanStart old.card.made hcs → old.card.made.kind ≡ Sd
        → IsIdle hcs false 1 old.card → (result ≡ Ok (ready_ocr old.card.made)) × (new.card.state ≡ Ready))
        (B.view bus.old) (B.view bus.new) }
{
    for _inquiries in 1..MAX_INQUIRIES {
        match inquire_again(bus, hcs)? {
            Some(ocr) => return Ok(ocr),
            None => {}
        }
    }
    Err(IdentFault::NoAnswer)
}

/// Inquiries of a card that has just answered CMD55, at most `MAX_INQUIRIES`, until it is ready: its OCR.
pub fn start<B: Bus>(bus: &mut B, hcs: bool) -> Result<u32, IdentFault>
    ensures bounded { (B.view bus.new).exchanges ≤ (B.view bus.old).exchanges + 31 }
    ensures lines { (B.view bus.new).lines ≡ (B.view bus.old).lines }
    ensures moves { Moves
        (λ old new. IfOk result (λ ocr. (old.card.made.kind ≡ Sd) × (ocr ≡ ready_ocr old.card.made)))
        (λ old new. InProfile old.card.made → CanStart old.card.made hcs → old.card.made.kind ≡ Sd
        → IsIdle hcs true 0 old.card → (result ≡ Ok (ready_ocr old.card.made)) × (new.card.state ≡ Ready))
        (B.view bus.old) (B.view bus.new) }
{
    match inquire(bus, hcs)? {
        Some(ocr) => Ok(ocr),
        None => inquire_on(bus, hcs),
    }
}

/// CMD3: the RCA that the card publishes, by which it goes from now on.
pub fn publish<B: Bus>(bus: &mut B) -> Result<u16, IdentFault>
    ensures bounded { (B.view bus.new).exchanges ≤ (B.view bus.old).exchanges + 1 }
    ensures lines { (B.view bus.new).lines ≡ (B.view bus.old).lines }
    ensures moves { Moves
        (λ old new. old.card.made.kind ≡ Sd → IfOk result (λ rca. rca ≡ new.card.rca))
        (λ old new. InProfile old.card.made → old.card.made.kind ≡ Sd → old.card.state ≡ Ident
        → IsOkAnd result (λ rca. IsNamed rca new.card))
        (B.view bus.old) (B.view bus.new) }
{
    identify_laws::cmd3_publishes_the_rca();
    laws::no_command_but_erase_widens();
    published(ask(bus, SEND_RELATIVE_ADDR, 0))
}
