// Planned faults, as card files write them.
ghost use Rattle.std.specs.Prelude.{OnOk, ◌++◌, ◌≡◌};
ghost use Rattle.card_explain.specs.Faults.{error_name, fault_text, flips_text, name_of, outcome_name};

use crate::words::say;
use mmc_card_sim::{CommandError, Fault, Flips, Outcome};
use std::alloc::AllocError;
use text_out::Piece;

// The first word of a fault.
fn name_of(fault: Fault) -> &'static [u8]
    ensures { result.now ≡ name_of fault }
{
    match fault {
        Fault::LoseCommand => b"lose-command",
        Fault::FlipCommand(_) => b"flip-command",
        Fault::LoseReply => b"lose-reply",
        Fault::FlipReply(_) => b"flip-reply",
        Fault::FailSwitch => b"fail-switch",
        Fault::FailSwitchLate => b"fail-switch-late",
        Fault::LoseFailedSwitch => b"lose-failed-switch",
        Fault::FindProtection => b"find-protection",
        Fault::LeaveOver(_) => b"left-over",
        Fault::ShowError(_) => b"show-error",
        Fault::FindError(_) => b"find-error",
        Fault::BadBlock => b"bad-block",
        Fault::NoBlock => b"no-block",
        Fault::ReadError => b"read-error",
        Fault::LoseBlock => b"lose-block",
        Fault::Reject => b"reject",
        Fault::RejectBusy => b"reject-busy",
        Fault::RejectAll => b"reject-all",
        Fault::LoseStatus(_) => b"lose-status",
        Fault::Fail(_) | Fault::FailWith(..) => b"fail",
        Fault::FailEarly(..) => b"fail-early",
        Fault::FailUnseen(..) => b"fail-unseen",
        Fault::Busy => b"busy",
        Fault::Brownout(_) => b"brownout",
    }
}

fn outcome_name(outcome: Outcome) -> &'static [u8]
    ensures { result.now ≡ outcome_name outcome }
{
    match outcome {
        Outcome::Old => b" old",
        Outcome::New => b" new",
    }
}

fn error_name(error: CommandError) -> &'static [u8]
    ensures { result.now ≡ error_name error }
{
    match error {
        CommandError::ComCrc => b" crc",
        CommandError::Illegal => b" illegal",
    }
}

// One position or two.
fn put_flips(out: &mut Vec<u8>, flips: Flips) -> Result<(), AllocError>
    ensures { OnOk result (out.new.items ≡ out.old.items ++ flips_text flips) }
{
    let first = u64::from(flips.first);
    match flips.second {
        None => say(out, &[Piece::Text(b" "), Piece::Number(first)]),
        Some(second) => say(
            out,
            &[
                Piece::Text(b" "),
                Piece::Number(first),
                Piece::Text(b" "),
                Piece::Number(u64::from(second)),
            ],
        ),
    }
}

/// Writes a fault as a card file has it after the number of its exchange, as `lose-status old`.
///
/// # Errors
/// `AllocError` where memory is refused.
#[tactic(auto, unfolding(crate::specs::Faults::fault_text))]
pub fn put_fault(out: &mut Vec<u8>, fault: Fault) -> Result<(), AllocError>
    ensures { OnOk result (out.new.items ≡ out.old.items ++ fault_text fault) }
{
    let name = name_of(fault);
    say(out, &[Piece::Text(name)])?;
    match fault {
        Fault::FlipCommand(flips) | Fault::FlipReply(flips) => put_flips(out, flips),
        Fault::LeaveOver(error) => {
            let error = error_name(error);
            say(out, &[Piece::Text(error)])
        }
        Fault::LoseStatus(outcome) | Fault::Fail(outcome) | Fault::Brownout(outcome) => {
            let outcome = outcome_name(outcome);
            say(out, &[Piece::Text(outcome)])
        }
        Fault::ShowError(bits) | Fault::FindError(bits) => {
            let bits = bits.to_be_bytes();
            say(out, &[Piece::Text(b" "), Piece::Hex(&bits)])
        }
        Fault::FailWith(outcome, bits)
        | Fault::FailEarly(outcome, bits)
        | Fault::FailUnseen(outcome, bits) => {
            let outcome = outcome_name(outcome);
            let bits = bits.to_be_bytes();
            say(
                out,
                &[Piece::Text(outcome), Piece::Text(b" "), Piece::Hex(&bits)],
            )
        }
        _ => Ok(()),
    }
}
