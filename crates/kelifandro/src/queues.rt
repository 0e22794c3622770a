// Requests of several clients, which wait in slots of C's memory (`mmc_slots`): the numbers that their calls are answered.
ghost use Rattle.std.specs.Prelude.{◌≡◌};
ghost use Rattle.kelifandro.specs.Answers.{cancelled_number, submitted_number};
ghost use Rattle.kelifandro.specs.Queues.{tells_done};

use crate::answers::{DONE, refused_number};
use mmc_slots::{CancelFault, NotAccepted, Slot};

/// A request was accepted, and has no answer yet.
pub const WAITING: i32 = 1;

/// All slots are taken.
const FULL: i32 = -8;

/// No request without an answer has such a ticket.
const UNKNOWN: i32 = -30;

/// The request is in service.
const IN_SERVICE: i32 = -31;

/// What a submission is answered.
pub fn submitted_number(submitted: Result<(), NotAccepted>) -> i32
    ensures { result ≡ submitted_number submitted }
{
    match submitted {
        Ok(()) => WAITING,
        Err(NotAccepted::Refused(refused)) => refused_number(refused),
        Err(NotAccepted::Full) => FULL,
    }
}

/// What a cancellation is answered.
pub fn cancelled_number(cancelled: Result<Slot, CancelFault>) -> i32
    ensures { result ≡ cancelled_number cancelled }
{
    match cancelled {
        Ok(_) => DONE,
        Err(CancelFault::Unknown) => UNKNOWN,
        Err(CancelFault::InService) => IN_SERVICE,
    }
}

/// Whether this number says that a request is done.
pub fn is_done(number: i32) -> bool
    ensures { result ≡ tells_done number }
{
    number == DONE
}
