// What identification does with eMMC devices (JESD84-B51, section 6.4), one exchange a function.
ghost use Rattle.std.specs.Prelude.{◌≡◌, ◌+◌, ◌≤◌, IfOk, Ok, Some, false, ℕ};
ghost use Rattle.mmc_frame.specs.declared.card_state.State.TheVariants.{Ident, Ready};
ghost use Rattle.mmc_frame.specs.declared.kind.Kind.TheVariants.{Mmc};
ghost use Rattle.mmc_card.specs.Profile.{InProfile};
ghost use Rattle.mmc_bus.specs.Work.{Moves};
ghost use Rattle.mmc_identify.specs.Stages.{Inquired, IsIdle, IsNamed, ready_ocr};

use crate::fault::IdentFault;
use crate::judging::{assigned, inquired};
use crate::sd::MAX_INQUIRIES;
use mmc_bus::{Bus, ask, ask_ocr, identify_laws};
use mmc_card::laws;
use mmc_frame::Kind;
use mmc_frame::commands::SEND_RELATIVE_ADDR;

// The argument of CMD1: sector addresses, and bits 21 and 20, 3.2 to 3.4 V.
const SECTORS_AND_WINDOW: u32 = 0x4030_0000;

// CMD1.
fn inquire<B: Bus>(bus: &mut B) -> Result<Option<u32>, IdentFault>
    ensures bounded { (B.view bus.new).exchanges ≤ (B.view bus.old).exchanges + 1 }
    ensures lines { (B.view bus.new).lines ≡ (B.view bus.old).lines }
    ensures moves { Moves
        (λ old new. (ocr : ℕ) → result ≡ Ok (Some ocr) → (old.card.made.kind ≡ Mmc) × (ocr ≡ ready_ocr old.card.made))
        (λ old new. (times : ℕ) → InProfile old.card.made → old.card.made.kind ≡ Mmc
        → IsIdle false false times old.card → Inquired false times old.card.made result new.card)
        (B.view bus.old) (B.view bus.new) }
{
    identify_laws::cmd1_asks_an_emmc_device_whether_it_is_ready();
    laws::no_command_but_erase_widens();
    inquired(ask_ocr(bus, Kind::Mmc, SECTORS_AND_WINDOW))
}

/// Inquiries, at most `MAX_INQUIRIES`, until the device is ready: its OCR.
pub fn start<B: Bus>(bus: &mut B) -> Result<u32, IdentFault>
    ensures bounded { (B.view bus.new).exchanges ≤ (B.view bus.old).exchanges + 16 }
    ensures lines { (B.view bus.new).lines ≡ (B.view bus.old).lines }
    ensures moves { Moves
        (λ old new. IfOk result (λ ocr. (old.card.made.kind ≡ Mmc) × (ocr ≡ ready_ocr old.card.made)))
        (λ old new. InProfile old.card.made → old.card.made.kind ≡ Mmc
        → IsIdle false false 0 old.card → (result ≡ Ok (ready_ocr old.card.made)) × (new.card.state ≡ Ready))
        (B.view bus.old) (B.view bus.new) }
{
    for _inquiries in 0..MAX_INQUIRIES {
        match inquire(bus)? {
            Some(ocr) => return Ok(ocr),
            None => {}
        }
    }
    Err(IdentFault::NoAnswer)
}

/// CMD3: the device is assigned the RCA 1.
pub fn assign<B: Bus>(bus: &mut B) -> Result<u16, IdentFault>
    ensures bounded { (B.view bus.new).exchanges ≤ (B.view bus.old).exchanges + 1 }
    ensures lines { (B.view bus.new).lines ≡ (B.view bus.old).lines }
    ensures one { IfOk result (λ rca. rca ≡ 1) }
    ensures moves { Moves (λ old new. Unit {0})
        (λ old new. old.card.made.kind ≡ Mmc → old.card.state ≡ Ident → (result ≡ Ok 1) × IsNamed 1 new.card)
        (B.view bus.old) (B.view bus.new) }
{
    identify_laws::cmd3_gives_the_rca();
    laws::no_command_but_erase_widens();
    assigned(ask(bus, SEND_RELATIVE_ADDR, 0x1_0000))
}
