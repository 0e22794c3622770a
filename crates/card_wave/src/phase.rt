// What an exchange is.
ghost use Rattle.std.specs.Prelude.{◌≡◌};
ghost use Rattle.card_wave.specs.Labels.{phase_of_frame};

/// What an exchange is.
#[derive(Clone, Copy, Debug, PartialEq, Eq)]
pub(crate) enum Phase {
    /// A command of this index, and its response.
    Command(u8),
    /// A block that is read.
    Read,
    /// A block that is written.
    Write,
    /// A poll.
    Busy,
}

impl Phase {
    /// That of a command with this frame.
    pub(crate) fn of_frame(frame: &[u8; 6]) -> Phase
        ensures { result ≡ phase_of_frame frame.now }
    {
        Phase::Command(frame[0] % 64)
    }
}
