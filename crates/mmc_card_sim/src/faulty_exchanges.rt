// The exchanges of the card in memory, each with the fault that is planned for it, if any. A fault falls where it fits
// its exchange; otherwise the exchange is a faithful step. Each answers beside its result whether the fault fell.
ghost use Rattle.std.specs.Prelude.{◌/◌, ◌^◌, ◌≡◌, Some, length, true};
ghost use Rattle.mmc_card_sim.specs.declared.fault.Fault.TheVariants.{FlipReply, LoseReply};
ghost use Rattle.mmc_card.specs.CardAnswer.{raised};
ghost use Rattle.mmc_card_sim.specs.FaultyExchanges.{Commands, Polls, Reads, Spoils, Writes, can_fail_early, can_fail_with};
ghost use Rattle.mmc_card_sim.specs.FaultyExchanges.{after_time, failed, fits_time, heeded, is_slow_at};
ghost use Rattle.mmc_card_rows.specs.Store.{lands_by};
ghost use Rattle.mmc_card_rows.specs.Chip.{Answers, card_of, finding};

use crate::fault::{Fault, Flips};
use crate::flip::{can_flip, heard_flipped, is_flip};
use mmc_card::{DataIn, DataOut, Lines, Reply};
use mmc_card_rows::{Answer, Chip, Delays, Outcome, PATIENCE, is_of_execution};
use mmc_frame::State;

// WP_VIOLATION in a status.
const PROTECTION: u32 = 0x0400_0000;

// The answer to a command, as it is sent.
fn heed(chip: &mut Chip, delays: Delays, frame: &[u8; 6]) -> Answer
    ensures { Answers (heeded delays (card_of chip.old) frame.now) chip.new result }
{
    chip.command(delays, frame).said(delays)
}

// The response to a command, which is lost on the way.
fn command_unheard(chip: &mut Chip, delays: Delays, frame: &[u8; 6]) -> (Reply, bool)
    ensures { Commands (Some LoseReply) delays (card_of chip.old) frame.now result.0 result.1 (card_of chip.new) }
{
    match heed(chip, delays, frame) {
        Answer::Silent => (Reply::Silent, false),
        _ => (Reply::Silent, true),
    }
}

// The response to a command, of which bits are flipped on the way.
fn command_flipped(chip: &mut Chip, delays: Delays, frame: &[u8; 6], flips: Flips) -> (Reply, bool)
    ensures { Commands (Some (FlipReply flips)) delays (card_of chip.old) frame.now result.0 result.1
        (card_of chip.new) }
{
    let answer = heed(chip, delays, frame);
    if can_flip(flips, answer) {
        (heard_flipped(answer, flips), true)
    } else {
        (answer.spelled(), false)
    }
}

// The answer to a command that finds these errors, by their places in a status.
fn heed_finding(chip: &mut Chip, delays: Delays, frame: &[u8; 6], bits: u32) -> Answer
    ensures { Answers (heeded (finding bits delays) (card_of chip.old) frame.now) chip.new result }
{
    let finding = Delays {
        finds: bits,
        ..delays
    };
    heed(chip, finding, frame)
}

/// The response to a command.
#[tactic(auto, using(mmc_card_rows::proofs::ChipLemmas::execution_is_error))]
pub fn faulty_command(
    chip: &mut Chip,
    fault: Option<Fault>,
    delays: Delays,
    frame: &[u8; 6],
) -> (Reply, bool)
    ensures { Commands fault delays (card_of chip.old) frame.now result.0 result.1 (card_of chip.new) }
{
    match fault {
        Some(Fault::LoseCommand) => (Reply::Silent, true),
        Some(Fault::FlipCommand(flips)) if is_flip(flips, 48) => {
            chip.garble();
            (Reply::Silent, true)
        }
        Some(Fault::LoseReply) => command_unheard(chip, delays, frame),
        Some(Fault::FlipReply(flips)) => command_flipped(chip, delays, frame, flips),
        Some(Fault::FailSwitch) if chip.is_switch(frame) => {
            (chip.fail_switch(false).spelled(), true)
        }
        Some(Fault::FailSwitchLate) if chip.is_switch(frame) => {
            (chip.fail_switch(true).spelled(), true)
        }
        Some(Fault::LoseFailedSwitch) if chip.is_switch(frame) => {
            let _ = chip.fail_switch(false);
            (Reply::Silent, true)
        }
        Some(Fault::FindProtection) if chip.is_write(frame) => {
            let answer = heed_finding(chip, delays, frame, PROTECTION);
            (answer.spelled(), true)
        }
        Some(Fault::FindError(bits)) if is_of_execution(bits) && chip.can_find(frame) => {
            let answer = heed_finding(chip, delays, frame, bits);
            (answer.spelled(), true)
        }
        Some(Fault::LeaveOver(error)) => {
            chip.leave_over(error);
            (heed(chip, delays, frame).spelled(), true)
        }
        Some(Fault::ShowError(bits)) if is_of_execution(bits) && chip.can_find(frame) => {
            chip.raise_bits(bits);
            (heed(chip, delays, frame).spelled(), true)
        }
        Some(Fault::Brownout(outcome)) => {
            chip.lose_power(outcome, delays.keeps_length);
            (Reply::Silent, true)
        }
        _ => (heed(chip, delays, frame).spelled(), false),
    }
}

// A block that the host reads, which comes otherwise if the card sends one.
fn send_spoiled(chip: &mut Chip, comes: DataIn, lines: Lines, buffer: &mut [u8]) -> (DataIn, bool)
    ensures { Spoils comes (card_of chip.old) lines (length buffer.old) result.0 buffer.new result.1
        (card_of chip.new) }
{
    match chip.send(lines, buffer) {
        DataIn::Good => (comes, true),
        got => (got, false),
    }
}

/// A block that the host reads.
pub fn faulty_send(
    chip: &mut Chip,
    fault: Option<Fault>,
    delays: Delays,
    lines: Lines,
    buffer: &mut [u8],
) -> (DataIn, bool)
    ensures { Reads fault delays (card_of chip.old) lines (length buffer.old) result.0 buffer.new result.1
        (card_of chip.new) }
{
    match fault {
        Some(Fault::BadBlock) => send_spoiled(chip, DataIn::Bad, lines, buffer),
        Some(Fault::NoBlock) => send_spoiled(chip, DataIn::Nothing, lines, buffer),
        Some(Fault::ReadError) if chip.can_send(lines, buffer.len()) => {
            chip.fail_to_read();
            (DataIn::Nothing, true)
        }
        Some(Fault::Brownout(outcome)) => {
            chip.lose_power(outcome, delays.keeps_length);
            (DataIn::Nothing, true)
        }
        _ => (chip.send(lines, buffer), false),
    }
}

/// A block that the host writes.
#[tactic(auto, using(crate::proofs::FaultLemmas::unfit))]
pub fn faulty_accept(
    chip: &mut Chip,
    fault: Option<Fault>,
    delays: Delays,
    lines: Lines,
    block: &[u8; 512],
) -> (DataOut, bool)
    ensures { Writes fault delays (card_of chip.old) lines block.now result.0 result.1 (card_of chip.new) }
{
    match fault {
        Some(Fault::LoseBlock) if chip.can_accept(lines) => (DataOut::Nothing, true),
        Some(Fault::Reject) if chip.can_accept(lines) => {
            chip.reject(false, false);
            (DataOut::Rejected, true)
        }
        Some(Fault::RejectBusy) if chip.can_accept(lines) => {
            chip.reject(false, true);
            (DataOut::Rejected, true)
        }
        Some(Fault::RejectAll) if chip.can_accept(lines) => {
            chip.reject(true, false);
            (DataOut::Rejected, true)
        }
        Some(Fault::LoseStatus(Outcome::Old)) if chip.can_accept(lines) => {
            chip.reject(false, false);
            (DataOut::Nothing, true)
        }
        Some(Fault::LoseStatus(Outcome::New)) if chip.can_accept(lines) => {
            let _ = chip.accept(lines, block);
            (DataOut::Nothing, true)
        }
        Some(Fault::Brownout(outcome)) => {
            chip.lose_power(outcome, delays.keeps_length);
            (DataOut::Nothing, true)
        }
        _ => (chip.accept(lines, block), false),
    }
}

// Whether programming can fail with these error bits.
fn can_fail_with(chip: &Chip, bits: u32) -> bool
    ensures { result ≡ can_fail_with bits (card_of chip.now) }
{
    is_of_execution(bits)
        && (chip.is_in(State::Prg) && !chip.is_switching
            || chip.is_in(State::Rcv) && chip.is_busy && chip.store.is_inside(chip.part))
}

// Whether it can while the card is busy still.
fn can_fail_early(chip: &Chip, bits: u32) -> bool
    ensures { result ≡ can_fail_early bits (card_of chip.now) }
{
    is_of_execution(bits) && (chip.is_in(State::Prg) && !chip.is_switching) && chip.is_busy
}

// It does, in prg or in rcv.
fn fail_at_once(chip: &mut Chip, outcome: Outcome, bits: u32)
    requires { can_fail_with bits (card_of chip.old) ≡ true }
    ensures { card_of chip.new ≡ raised (bits / 2 ^ 13) (failed (lands_by outcome) (card_of chip.old)) }
{
    if chip.is_in(State::Prg) {
        chip.fail_with(outcome, bits);
    } else {
        chip.fall_short(outcome, bits);
    }
}

// Whether the card is slow at this poll.
fn is_slow_at(chip: &Chip, fault: Option<Fault>, delays: Delays) -> bool
    ensures { result ≡ is_slow_at fault delays (card_of chip.now) }
{
    let is_planned = matches!(fault, Some(Fault::Busy));
    chip.polled < delays.busy || is_planned && chip.polled < PATIENCE
}

/// A poll: whether the card is busy.
pub fn faulty_poll(chip: &mut Chip, fault: Option<Fault>, delays: Delays) -> (bool, bool)
    ensures { Polls fault delays (card_of chip.old) result.0 result.1 (card_of chip.new) }
{
    match fault {
        Some(Fault::Fail(outcome)) if chip.is_in(State::Prg) && !chip.is_switching => {
            chip.fail(outcome);
            (false, true)
        }
        Some(Fault::FailWith(outcome, bits)) if can_fail_with(chip, bits) => {
            fail_at_once(chip, outcome, bits);
            (false, true)
        }
        Some(Fault::FailEarly(outcome, bits)) if can_fail_early(chip, bits) => {
            chip.fail_early(outcome, bits);
            (true, true)
        }
        Some(Fault::Busy) if chip.is_busy && chip.polled >= PATIENCE => {
            chip.wait();
            (true, true)
        }
        Some(Fault::Brownout(outcome)) => {
            chip.lose_power(outcome, delays.keeps_length);
            (false, true)
        }
        _ => {
            let is_slow = is_slow_at(chip, fault, delays);
            (chip.poll(is_slow), false)
        }
    }
}

/// What happens before a command, and before a block that is written: programming fails, or time passes as the card goes on
/// by itself.
pub fn faulty_time(chip: &mut Chip, fault: Option<Fault>, delays: Delays) -> bool
    ensures fell { result ≡ fits_time fault (card_of chip.old) }
    ensures card { card_of chip.new ≡ after_time fault delays (card_of chip.old) }
{
    match fault {
        Some(Fault::FailUnseen(outcome, bits)) if can_fail_with(chip, bits) => {
            fail_at_once(chip, outcome, bits);
            true
        }
        _ => {
            chip.pass_time(delays);
            false
        }
    }
}
