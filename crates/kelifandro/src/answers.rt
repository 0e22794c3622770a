// The numbers that C knows of answers (`enum kelifandro_result`).
ghost use Rattle.std.specs.Prelude.{◌≡◌, false, pos, true};
ghost use Rattle.kelifandro.specs.Calls.{is_attempted};
ghost use Rattle.kelifandro.specs.Answers.{answer_number, cause_number, is_unready, refused_number, start_number, unidentified_number};
ghost use Rattle.kelifandro.specs.Answers.{unopened_number};

use mmc_bus::Cause;
use mmc_direct::{NotDone, Refused};
use mmc_identify::IdentFault;
use mmc_sdhci::StartFault;
use mmc_switch::{InitializationFault, SwitchFault};

/// The request is done.
pub const DONE: i32 = 0;

/// The card isn't open: `kelifandro_open` comes first.
pub const NOT_OPEN: i32 = -1;

/// No card answers.
pub const NO_CARD: i32 = -20;

/// The card says what no card that is served may say.
pub const UNSUPPORTED: i32 = -21;

/// The card has no such partition.
pub const NO_PARTITION: i32 = -2;

/// Why a request is refused.
pub fn refused_number(refused: Refused) -> i32
    ensures number { result ≡ refused_number refused }
    ensures unmade { is_attempted result ≡ false }
{
    match refused {
        Refused::NoSuchPartition => NO_PARTITION,
        Refused::OutOfRange => -3,
        Refused::Empty | Refused::TooLong => -4,
        Refused::ReadOnly => -5,
        Refused::NotInPartition | Refused::NoTrim | Refused::Unaligned => -6,
    }
}

// Why a request failed.
fn cause_number(cause: Cause) -> i32
    ensures { result ≡ cause_number cause }
{
    match cause {
        Cause::Answer => -10,
        Cause::Data => -11,
        Cause::Status => -12,
        Cause::Busy => -13,
        Cause::Recovery => -14,
    }
}

/// What became of a request.
pub fn answer_number(answer: Result<(), NotDone>) -> i32
    ensures { result ≡ answer_number answer }
{
    match answer {
        Ok(()) => DONE,
        Err(NotDone::Refused(refused)) => refused_number(refused),
        Err(NotDone::Failed(cause)) => cause_number(cause),
    }
}

// Why a card isn't identified.
fn unidentified_number(fault: IdentFault) -> i32
    ensures { result ≡ unidentified_number fault }
{
    match fault {
        IdentFault::NoAnswer => NO_CARD,
        IdentFault::Register | IdentFault::Mismatch => UNSUPPORTED,
        IdentFault::Voltage => -25,
        IdentFault::Locked => -26,
    }
}

/// Why a card isn't opened.
pub fn unopened_number(fault: InitializationFault) -> i32
    ensures number { result ≡ unopened_number fault }
    ensures not_done { result ≡ pos 0 → ⊥ }
    ensures ready { is_unready result ≡ false }
{
    match fault {
        InitializationFault::Identification(fault) => unidentified_number(fault),
        InitializationFault::Widening(SwitchFault::Exchange) => NO_CARD,
        InitializationFault::Widening(SwitchFault::Register) => UNSUPPORTED,
    }
}

/// Why a controller isn't ready.
pub fn start_number(fault: StartFault) -> i32
    ensures number { result ≡ start_number fault }
    ensures unready { is_unready result ≡ true }
{
    match fault {
        StartFault::NoVoltage => -22,
        StartFault::NoBaseClock => -23,
        StartFault::NoCard => -24,
    }
}
