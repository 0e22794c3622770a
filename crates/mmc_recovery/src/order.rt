// Bringing a card back in order where it stands, without a reset.
ghost use Rattle.std.specs.Prelude.{◌≡◌, ◌+◌, ◌≤◌, IfErr, IsOk};
ghost use Rattle.mmc_frame.specs.declared.card_state.State.TheVariants.{Tran};
ghost use Rattle.mmc_card.specs.Laws.{AfterSomeTime};
ghost use Rattle.mmc_bus.specs.Closings.{HasShown};
ghost use Rattle.mmc_bus.specs.declared.cause.Cause.TheVariants as Why;
ghost use Rattle.mmc_bus.specs.Work.{Anything, Moves, Narrows, Works};
ghost use Rattle.mmc_recovery.specs.Settled.{IsFreed, Restores, restoring};

use mmc_bus::{
    Bus, Cause, MAX_POLLS, ask, confirm, identify_laws, rca_argument, transfer_laws,
    wait_while_busy,
};
use mmc_frame::commands::{SEND_STATUS, SET_BLOCKLEN, STOP_TRANSMISSION};
use mmc_frame::{State, state};
use mmc_switch::Info;

// CMD13: the status, whatever errors it shows. They are cleared by it.
fn show_status<B: Bus>(bus: &mut B, rca: u16) -> Result<u32, Cause>
    ensures bounded { (B.view bus.new).exchanges ≤ (B.view bus.old).exchanges + 1 }
    ensures works { Works Narrows (λ old new. IsOk result
        → AfterSomeTime old (λ card. HasShown card new.card)) Anything
        (B.view bus.old) (B.view bus.new) }
{
    identify_laws::cmd13_tells_the_status();
    match ask(bus, SEND_STATUS, rca_argument(rca)) {
        Ok(status) => Ok(status),
        Err(_) => Err(Cause::Answer),
    }
}

// CMD12, whatever errors its R1 shows.
fn stop<B: Bus>(bus: &mut B) -> Result<(), Cause>
    ensures bounded { (B.view bus.new).exchanges ≤ (B.view bus.old).exchanges + 1 }
    ensures works { Works Narrows Anything Anything (B.view bus.old) (B.view bus.new) }
{
    match ask(bus, STOP_TRANSMISSION, 0) {
        Ok(_) => Ok(()),
        Err(_) => Err(Cause::Answer),
    }
}

// Ends what the card is at, by the state that its status shows.
fn end_work<B: Bus>(bus: &mut B, rca: u16) -> Result<(), Cause>
    ensures bounded { (B.view bus.new).exchanges ≤ (B.view bus.old).exchanges + (MAX_POLLS + 2) }
    ensures works { Works Narrows Anything Anything (B.view bus.old) (B.view bus.new) }
{
    match state(show_status(bus, rca)?) {
        Some(State::Tran) => Ok(()),
        Some(State::Prg) => wait_while_busy(bus),
        Some(State::Data | State::Rcv) => {
            stop(bus)?;
            wait_while_busy(bus)
        }
        _ => Err(Cause::Status),
    }
}

// CMD16 with 512, whatever errors its R1 shows: it drops a preset count and held erase addresses, whether it is carried out or finds
// an error. Where it isn't heard the cause is `Recovery`: no law says how it leaves the card then.
fn set_block_length<B: Bus>(bus: &mut B) -> Result<(), Cause>
    ensures bounded { (B.view bus.new).exchanges ≤ (B.view bus.old).exchanges + 1 }
    ensures lines { (B.view bus.new).lines ≡ (B.view bus.old).lines }
    ensures cause { IfErr result (λ cause. cause ≡ Why.Recovery) }
    ensures moves { Moves
        (λ old new. IsOk result → AfterSomeTime old (λ card. (card.state ≡ Tran) × IsFreed card new.card))
        Anything
        (B.view bus.old) (B.view bus.new) }
{
    transfer_laws::cmd16_sets_the_block_length();
    match ask(bus, SET_BLOCKLEN, 512) {
        Ok(_) => Ok(()),
        Err(_) => Err(Cause::Recovery),
    }
}

// CMD16, CMD13, and a CMD13 that has to be clean. CMD16 may set an error bit by what it drops, which the first CMD13 shows
// and clears; the second one shows a card in order.
fn put_in_order<B: Bus>(bus: &mut B, info: &Info) -> Result<(), Cause>
    ensures bounded { (B.view bus.new).exchanges ≤ (B.view bus.old).exchanges + 3 }
    ensures moves { Moves (Restores info.now result) Anything (B.view bus.old) (B.view bus.new) }
{
    set_block_length(bus)?;
    show_status(bus, info.rca)?;
    confirm(bus, info.kind, info.rca)
}

/// The most exchanges of a restoration: CMD13, CMD12 and polls; CMD16, and CMD13 twice.
pub const EXCHANGES_OF_A_RESTORATION: u64 = MAX_POLLS + 5;

/// Brings a card of which this is known back in order, without a reset.
///
/// # Errors
/// `Answer` where CMD12 or CMD13 isn't heard: the card stands as it did. Any other cause means that only a reset may help.
pub fn restore<B: Bus>(bus: &mut B, info: &Info) -> Result<(), Cause>
    ensures bounded { (B.view bus.new).exchanges ≤ (B.view bus.old).exchanges + EXCHANGES_OF_A_RESTORATION }
    ensures moves { Moves (Restores info.now result) Anything (B.view bus.old) (B.view bus.new) }
{
    end_work(bus, info.rca)?;
    put_in_order(bus, info)
}

/// The most exchanges of a restoration that is tried once more.
pub const EXCHANGES_OF_A_PATIENT_RESTORATION: u64 = 2 * EXCHANGES_OF_A_RESTORATION;

/// How often it is tried to restore a card before it is reset, and in how many rounds it is reset then.
#[derive(Clone, Copy)]
pub enum Patience {
    /// Once, and in one round.
    Once,
    /// Once more where CMD12 or CMD13 isn't heard, and in `ROUNDS_OF_A_PATIENT_RESET` rounds.
    Twice,
}

/// As `restore`, with so much patience: CMD13 tells how a card stands by now that didn't answer.
///
/// # Errors
/// Those of `restore`, when it was tried last.
pub fn restore_with<B: Bus>(bus: &mut B, info: &Info, patience: Patience) -> Result<(), Cause>
    ensures bounded { (B.view bus.new).exchanges ≤ (B.view bus.old).exchanges + restoring patience }
    ensures moves { Moves (Restores info.now result) Anything (B.view bus.old) (B.view bus.new) }
{
    match (restore(bus, info), patience) {
        (Err(Cause::Answer), Patience::Twice) => restore(bus, info),
        (restored, _) => restored,
    }
}
