// What identification does with cards of both kinds, one exchange a function.
ghost use Rattle.std.specs.Prelude.{◌≡◌, ◌+◌, ◌<◌, ◌≤◌, IfOk, IsOk, Ok, false, ℕ};
ghost use Rattle.mmc_frame.specs.declared.card_state.State.TheVariants.{Ident, Ready};
ghost use Rattle.mmc_card.specs.Made.{IsToldCsd};
ghost use Rattle.mmc_card.specs.Profile.{InProfile};
ghost use Rattle.mmc_bus.specs.Work.{Moves};
ghost use Rattle.mmc_bus.specs.declared.wait.TheConstants.{MAX_POLLS};
ghost use Rattle.mmc_identify.specs.Stages.{IsIdle, IsLeft, IsNamed, IsResting, IsTaken, Looks, LooksAfter, RestsAfter};

use crate::fault::IdentFault;
use crate::judging::{confirmed, selected, told_register};
use mmc_bus::{Bus, Closing, MAX_POLLS, ask, ask_register, identify_laws, rca_argument, tell};
use mmc_card::{card_laws, laws};
use mmc_frame::Kind;
use mmc_frame::commands::{ALL_SEND_CID, GO_IDLE_STATE, SELECT_CARD, SEND_CSD, SEND_STATUS};

/// CMD0: the card is in idle.
pub fn go_idle<B: Bus>(bus: &mut B)
    ensures bounded { (B.view bus.new).exchanges ≤ (B.view bus.old).exchanges + 1 }
    ensures lines { (B.view bus.new).lines ≡ (B.view bus.old).lines }
    ensures moves { Moves (λ old new. Unit {0}) (λ old new. IsIdle false false 0 new.card) (B.view bus.old) (B.view bus.new) }
{
    identify_laws::cmd0_resets_the_card();
    laws::no_command_but_erase_widens();
    tell(bus, GO_IDLE_STATE, 0);
}

/// CMD2: the CID of a card in ready.
pub fn name<B: Bus>(bus: &mut B) -> Result<[u8; 16], IdentFault>
    ensures bounded { (B.view bus.new).exchanges ≤ (B.view bus.old).exchanges + 1 }
    ensures lines { (B.view bus.new).lines ≡ (B.view bus.old).lines }
    ensures moves { Moves (λ old new. IfOk result (λ cid. cid ≡ old.card.made.cid))
        (λ old new. old.card.state ≡ Ready → (result ≡ Ok old.card.made.cid) × (new.card.state ≡ Ident))
        (B.view bus.old) (B.view bus.new) }
{
    identify_laws::cmd2_tells_the_cid();
    laws::no_command_but_erase_widens();
    told_register(ask_register(bus, ALL_SEND_CID, 0))
}

/// CMD9: the CSD of a card in stby, in which TMP_WRITE_PROTECT may have come on.
pub fn describe<B: Bus>(bus: &mut B, rca: u16) -> Result<[u8; 16], IdentFault>
    ensures bounded { (B.view bus.new).exchanges ≤ (B.view bus.old).exchanges + 1 }
    ensures lines { (B.view bus.new).lines ≡ (B.view bus.old).lines }
    ensures moves { Moves (λ old new. IfOk result (λ csd. IsToldCsd old.card.made csd))
        (λ old new. IsNamed rca old.card → IsOk result × IsNamed rca new.card)
        (B.view bus.old) (B.view bus.new) }
{
    identify_laws::cmd9_tells_the_csd();
    laws::no_command_but_erase_widens();
    told_register(ask_register(bus, SEND_CSD, rca_argument(rca)))
}

/// CMD7: the card is selected, and busy.
pub fn select<B: Bus>(bus: &mut B, rca: u16) -> Result<(), IdentFault>
    ensures bounded { (B.view bus.new).exchanges ≤ (B.view bus.old).exchanges + 1 }
    ensures lines { (B.view bus.new).lines ≡ (B.view bus.old).lines }
    ensures moves { Moves (λ old new. IsOk result → Looks rca new.card)
        (λ old new. InProfile old.card.made → IsNamed rca old.card → IsOk result × IsTaken rca new.card)
        (B.view bus.old) (B.view bus.new) }
{
    identify_laws::cmd7_selects_the_card();
    card_laws::a_status_tells_of_its_card();
    laws::no_command_but_erase_widens();
    selected(ask(bus, SELECT_CARD, rca_argument(rca)))
}

/// CMD13: a clean status, or one that shows the card still at work.
pub fn ask_status<B: Bus>(bus: &mut B, kind: Kind, rca: u16) -> Result<Closing, IdentFault>
    ensures bounded { (B.view bus.new).exchanges ≤ (B.view bus.old).exchanges + 1 }
    ensures lines { (B.view bus.new).lines ≡ (B.view bus.old).lines }
    ensures moves { Moves (λ old new. Looks rca old.card → LooksAfter rca result new.card)
        (λ old new. InProfile old.card.made → old.card.made.kind ≡ kind → (waits : ℕ) → IsResting rca waits old.card
        → RestsAfter rca waits result new.card)
        (B.view bus.old) (B.view bus.new) }
{
    identify_laws::cmd13_tells_the_status();
    card_laws::a_status_tells_of_its_card();
    laws::no_command_but_erase_widens();
    confirmed(kind, ask(bus, SEND_STATUS, rca_argument(rca)))
}

/// CMD13, whose status has to be clean. While it shows the card still at work CMD13 comes again, so that this and the polls
/// before are at most `MAX_POLLS`.
pub fn confirm<B: Bus>(bus: &mut B, kind: Kind, rca: u16, polls: u64) -> Result<(), IdentFault>
    requires { polls < MAX_POLLS }
    ensures bounded { (B.view bus.new).exchanges + polls ≤ (B.view bus.old).exchanges + MAX_POLLS }
    ensures lines { (B.view bus.new).lines ≡ (B.view bus.old).lines }
    ensures moves { Moves (λ old new. Looks rca old.card → IsOk result → IsLeft rca new.card)
        (λ old new. InProfile old.card.made → old.card.made.kind ≡ kind → IsResting rca polls old.card → IsOk result)
        (B.view bus.old) (B.view bus.new) }
{
    for _statuses in 0..MAX_POLLS - polls {
        match ask_status(bus, kind, rca)? {
            Closing::Clean => return Ok(()),
            Closing::AtWork => {}
        }
    }
    Err(IdentFault::NoAnswer)
}
