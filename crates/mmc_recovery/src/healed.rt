// What was met and healed, counted, so that a card that fails now and then doesn't look healthy.
ghost use Rattle.std.specs.Prelude.{◌≡◌};

use mmc_bus::Cause;
use std::mem::size_of;

// As `struct kelifandro_healed` of C.
const _: () = prove!(size_of::<Healed>() == 64);

/// What was met and healed, counted. Each count stays at 2^64 - 1 once it is there.
#[repr(C)]
#[derive(Clone, Copy, Debug, PartialEq, Eq)]
pub struct Healed {
    /// How many attempts at requests are over, with success or without.
    pub attempts: u64,
    /// How many of them failed for `Cause::Answer`.
    pub by_answer: u64,
    /// How many of them failed for `Cause::Data`.
    pub by_data: u64,
    /// How many of them failed for `Cause::Status`.
    pub by_status: u64,
    /// How many of them failed for `Cause::Busy`.
    pub by_busy: u64,
    /// How many of them failed for `Cause::Recovery`.
    pub by_recovery: u64,
    /// How often the card was settled, with success or without.
    pub settlings: u64,
    /// How many of these settlings reset the card.
    pub resets: u64,
}

impl Healed {
    ghost use Rattle.mmc_recovery.specs.Healed.{none_met, with_attempt, with_failure, with_settling};

    /// Nothing was met yet.
    pub fn new() -> Healed
        ensures { result ≡ none_met }
    {
        Healed {
            attempts: 0,
            by_answer: 0,
            by_data: 0,
            by_status: 0,
            by_busy: 0,
            by_recovery: 0,
            settlings: 0,
            resets: 0,
        }
    }

    /// The counts after one more attempt that is over.
    pub fn attempted(self) -> Healed
        ensures { result ≡ with_attempt self }
    {
        Healed {
            attempts: self.attempts.saturating_add(1),
            ..self
        }
    }

    /// The counts after one more failure for this cause.
    pub fn met(self, cause: Cause) -> Healed
        ensures { result ≡ with_failure cause self }
    {
        match cause {
            Cause::Answer => Healed {
                by_answer: self.by_answer.saturating_add(1),
                ..self
            },
            Cause::Data => Healed {
                by_data: self.by_data.saturating_add(1),
                ..self
            },
            Cause::Status => Healed {
                by_status: self.by_status.saturating_add(1),
                ..self
            },
            Cause::Busy => Healed {
                by_busy: self.by_busy.saturating_add(1),
                ..self
            },
            Cause::Recovery => Healed {
                by_recovery: self.by_recovery.saturating_add(1),
                ..self
            },
        }
    }

    /// The counts after one more settling, which reset the card or didn't.
    pub fn settled(self, was_reset: bool) -> Healed
        ensures { result ≡ with_settling was_reset self }
    {
        Healed {
            settlings: self.settlings.saturating_add(1),
            resets: if was_reset {
                self.resets.saturating_add(1)
            } else {
                self.resets
            },
            ..self
        }
    }
}
