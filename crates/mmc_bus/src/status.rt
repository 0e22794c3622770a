// Judging a card by its status.
ghost use Rattle.std.specs.Prelude.{◌≡◌, ◌*◌, ◌+◌, ◌<◌, ◌^◌, Err, IfErr, IsOk, Ok, Some, false, ℕ};
ghost use Rattle.mmc_frame.specs.Field.{field};
ghost use Rattle.mmc_frame.specs.Status.{IsAtWork, IsClean, error_bits, own_status};
ghost use Rattle.mmc_card.specs.Blocks.{rested};
ghost use Rattle.mmc_card.specs.CardAnswer.{shown};
ghost use Rattle.mmc_card.specs.CardLaws.{IsInOrder};
ghost use Rattle.mmc_bus.specs.Closings.{ClosesInTime, ClosesSoon, IsCalm, WillBeClean};
ghost use Rattle.mmc_bus.specs.Heard.{cause_of, cause_of_response};
ghost use Rattle.mmc_bus.specs.Work.{Ends, Narrows, Works};
ghost use Rattle.mmc_bus.specs.declared.cause.Cause.TheVariants.{Status};
ghost use Rattle.mmc_bus.specs.declared.status.Closing.TheVariants.{AtWork, Clean};
ghost use Rattle.mmc_bus.specs.declared.wait.TheConstants.{MAX_POLLS};
ghost use Rattle.mmc_card.specs.Card.{is_in, patience};
ghost use Rattle.mmc_card.specs.Laws.{AfterSomeTime};
ghost use Rattle.mmc_frame.specs.declared.card_state.State.TheVariants.{Data};

use crate::bus::Bus;
use crate::cause::Cause;
use crate::host::{Unheard, ask};
use crate::identify_laws;
use crate::wait::{MAX_POLLS, count_polls};
use bitflags::Flags;
use mmc_card::card_laws;
use mmc_frame::commands::SEND_STATUS;
use mmc_frame::{Kind, errors, is_at_work, is_clean, own_status};

/// Judges an R1: a status without an error (SD Physical Layer 6.00, section 4.10.1; JESD84-B51, section 6.13).
///
/// # Errors
/// `Answer` where no sound response was heard, `Status` where it shows an error.
pub fn check_r1(kind: Kind, heard: Result<u32, Unheard>) -> Result<(), Cause>
    ensures ok { IsOk result → (status : ℕ) × (heard ≡ Ok status) × (error_bits kind status ≡ 0) }
    ensures all { (status : ℕ) → heard ≡ Ok status → error_bits kind status ≡ 0 → IsOk result }
    ensures cause { IfErr result (λ cause. cause ≡ cause_of_response heard) }
{
    let status = heard.map_err(|_| Cause::Answer)?;
    if errors(kind, status).is_empty() {
        Ok(())
    } else {
        Err(Cause::Status)
    }
}

/// Judges an R1 of opening: a status without an error, but for those of an earlier command, which say nothing of this one.
///
/// # Errors
/// `Answer` where no sound response was heard, `Status` where it shows an error of its own.
pub fn check_own(kind: Kind, heard: Result<u32, Unheard>) -> Result<(), Cause>
    ensures ok { IsOk result → (status : ℕ) × (heard ≡ Ok status) × (error_bits kind (own_status status) ≡ 0) }
    ensures own { (status : ℕ) → heard ≡ Ok status → error_bits kind (own_status status) ≡ 0 → IsOk result }
    ensures all { (status : ℕ) → heard ≡ Ok status → error_bits kind status ≡ 0 → IsOk result }
    ensures cause { IfErr result (λ cause. cause ≡ cause_of_response heard) }
{
    check_r1(kind, heard.map(|status| own_status(status)))
}

/// What a closing status without an error says.
#[derive(Clone, Copy, Debug, PartialEq, Eq)]
pub enum Closing {
    /// The card is in tran, and ready for data.
    Clean,
    /// It is on its way there still: in stby, data, rcv or prg, or in tran and not ready for data.
    AtWork,
}

/// Judges the R1 of a closing CMD13: a clean status, or one that shows the card still at work. Errors of an earlier command
/// say nothing of the card as it is now.
///
/// # Errors
/// `Answer` where no sound response was heard, `Status` where it shows anything else.
pub fn check_closing(kind: Kind, heard: Result<u32, Unheard>) -> Result<Closing, Cause>
    ensures clean { result ≡ Ok Clean → (status : ℕ) × (heard ≡ Ok status) × IsClean kind (own_status status) }
    ensures at_work { result ≡ Ok AtWork → (status : ℕ) × (heard ≡ Ok status) × IsAtWork kind (own_status status) }
    ensures all_clean { (status : ℕ) → heard ≡ Ok status → IsClean kind (own_status status) → result ≡ Ok Clean }
    ensures all_at_work { (status : ℕ) → heard ≡ Ok status → (IsClean kind (own_status status) → ⊥)
        → IsAtWork kind (own_status status) → result ≡ Ok AtWork }
    ensures cause { IfErr result (λ cause. cause ≡ cause_of_response heard) }
{
    let status = own_status(heard.map_err(|_| Cause::Answer)?);
    if is_clean(kind, status) {
        Ok(Closing::Clean)
    } else if is_at_work(kind, status) {
        Ok(Closing::AtWork)
    } else {
        Err(Cause::Status)
    }
}

/// Asks the card with this RCA for its status (CMD13), which has to show no error but those of an earlier command, and the
/// state tran and that it is ready for data, or that it isn't there yet.
///
/// # Errors
/// `Answer` where no sound response was heard, `Status` where it shows anything else.
pub fn ask_closing<B: Bus>(bus: &mut B, kind: Kind, rca: u16) -> Result<Closing, Cause>
    ensures ends { Ends 1 (B.view bus.old) result (B.view bus.new) }
    ensures at_work { result ≡ Ok AtWork → cause_of (B.view bus.new).last ≡ Some Status }
    ensures works { Works Narrows
        (λ old new. ClosesInTime kind result old new)
        (λ old new. WillBeClean kind old.card → old.card.app ≡ false → old.card.rca ≡ rca
        → ClosesSoon result old.card new.card)
        (B.view bus.old) (B.view bus.new) }
{
    identify_laws::cmd13_tells_the_status();
    card_laws::a_status_tells_of_its_card();
    check_closing(kind, ask(bus, SEND_STATUS, rca_argument(rca)))
}

/// Asks the card with this RCA for its status (CMD13), which has to be clean: no error but those of an earlier command, tran,
/// and ready for data.
///
/// # Errors
/// `Answer` where no sound response was heard, `Status` where it isn't clean.
pub fn confirm<B: Bus>(bus: &mut B, kind: Kind, rca: u16) -> Result<(), Cause>
    ensures ends { Ends 1 (B.view bus.old) result (B.view bus.new) }
    ensures works { Works Narrows
        (λ old new. IsOk result → AfterSomeTime old (λ card. IsInOrder kind card × (new.card ≡ shown card)))
        (λ old new. WillBeClean kind old.card → old.card.app ≡ false → old.card.rca ≡ rca → old.card.lags ≡ false
        → IsOk result)
        (B.view bus.old) (B.view bus.new) }
{
    match ask_closing(bus, kind, rca)? {
        Closing::Clean => Ok(()),
        Closing::AtWork => Err(Cause::Status),
    }
}

// Asks for a clean status, at most so many times while the card is at work.
fn confirm_within<B: Bus>(bus: &mut B, kind: Kind, rca: u16, most: u64) -> Result<(), Cause>
    requires { 0 < most }
    ensures ends { Ends most (B.view bus.old) result (B.view bus.new) }
    ensures works { Works Narrows
        (λ old new. IsOk result → IsCalm old.card → IsInOrder kind old.card
        × (new.card ≡ record (shown old.card) { polled = new.card.polled }))
        (λ old new. WillBeClean kind old.card → old.card.app ≡ false → old.card.rca ≡ rca → patience < old.card.polled + most
        → IsOk result)
        (B.view bus.old) (B.view bus.new) }
{
    for _statuses in 0..most {
        match ask_closing(bus, kind, rca)? {
            Closing::Clean => return Ok(()),
            Closing::AtWork => {}
        }
    }
    Err(Cause::Status)
}

/// Waits until the card with this RCA isn't busy, and asks for its status, which has to be clean: that alone tells that
/// what made it busy has ended well. After the last poll a status may still show the card at work; it is asked again, so
/// that polls and statuses together say at most `MAX_POLLS` times that it is.
///
/// # Errors
/// `Busy` where it still is at the last poll, otherwise as `confirm`.
pub fn wait_and_confirm<B: Bus>(bus: &mut B, kind: Kind, rca: u16) -> Result<(), Cause>
    ensures ends { Ends (MAX_POLLS + 1) (B.view bus.old) result (B.view bus.new) }
    ensures works { Works Narrows
        (λ old new. IsOk result → is_in old.card.state Data ≡ false → IsInOrder kind (rested old.card)
        × (new.card ≡ record (shown (rested old.card)) { polled = new.card.polled }))
        (λ old new. old.card.polled ≡ 0 → WillBeClean kind (rested old.card) → (rested old.card).app ≡ false
        → (rested old.card).rca ≡ rca → IsOk result)
        (B.view bus.old) (B.view bus.new) }
{
    let polls = count_polls(bus)?;
    confirm_within(bus, kind, rca, MAX_POLLS - polls)
}

/// The argument that names a card: its RCA in bits 31 to 16.
pub fn rca_argument(rca: u16) -> u32
    ensures names { field 31 16 result ≡ rca }
    ensures value { result ≡ 2 ^ 16 * rca }
{
    u32::from(rca) << 16
}
