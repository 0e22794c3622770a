// The plain types of an exchange between a host and a card.
ghost use Rattle.std.specs.Prelude.{◌≡◌};
ghost use Rattle.mmc_card.specs.Limits.{all_lines, fewer, slower};

/// The response that a command is to have (SD Physical Layer 6.00, section 4.9; JESD84-B51, section 6.12).
#[derive(Clone, Copy, Debug, PartialEq, Eq)]
pub enum Want {
    /// No response.
    Nothing,
    /// A response of 48 bits.
    Short,
    /// A response of 136 bits.
    Long,
}

/// What came back of a command.
#[derive(Clone, Copy, Debug, PartialEq, Eq)]
pub enum Reply {
    /// Nothing came.
    Silent,
    /// 48 bits came, sound or not.
    Short([u8; 6]),
    /// 136 bits came, sound or not.
    Long([u8; 17]),
}

/// What became of a block that was to be read.
#[derive(Clone, Copy, Debug, PartialEq, Eq)]
pub enum DataIn {
    /// The block came with a good check.
    Good,
    /// A block came with a bad check.
    Bad,
    /// No block came.
    Nothing,
}

/// What became of a block that was written.
#[derive(Clone, Copy, Debug, PartialEq, Eq)]
pub enum DataOut {
    /// The card accepted the block.
    Accepted,
    /// The card rejected the block, because its check was bad.
    Rejected,
    /// The card sent no status.
    Nothing,
}

/// How many data lines carry a block.
#[derive(Clone, Copy, Debug, PartialEq, Eq)]
pub enum Width {
    /// One line.
    One,
    /// Four lines.
    Four,
    /// Eight lines.
    Eight,
}

impl Width {
    /// The fewer lines of the two.
    pub fn fewer(self, other: Width) -> Width
        ensures { result ≡ fewer self other }
    {
        match (self, other) {
            (Width::One, _) | (_, Width::One) => Width::One,
            (Width::Four, _) | (_, Width::Four) => Width::Four,
            (Width::Eight, Width::Eight) => Width::Eight,
        }
    }
}

/// The timing of the bus.
#[derive(Clone, Copy, Debug, PartialEq, Eq)]
pub enum Timing {
    /// Default speed.
    Default,
    /// High speed.
    High,
}

impl Timing {
    /// The slower timing of the two.
    pub fn slower(self, other: Timing) -> Timing
        ensures { result ≡ slower self other }
    {
        match self {
            Timing::Default => Timing::Default,
            Timing::High => other,
        }
    }
}

/// The lines of a host, as last set, or the most that it can.
#[derive(Clone, Copy, Debug, PartialEq, Eq)]
pub struct Lines {
    /// How many data lines are in use.
    pub width: Width,
    /// The timing in use.
    pub timing: Timing,
}

impl Lines {
    /// Eight lines and high speed, of a host that limits nothing.
    pub fn all() -> Lines
        ensures { result ≡ all_lines }
    {
        Lines {
            width: Width::Eight,
            timing: Timing::High,
        }
    }
}

/// An exchange with the card, and how it was answered.
#[derive(Clone, Copy, Debug, PartialEq, Eq)]
pub enum Exchange {
    /// A command.
    Command {
        /// The six bytes that were sent.
        frame: [u8; 6],
        /// The response that was wanted.
        want: Want,
        /// What came back.
        reply: Reply,
    },
    /// A block that was to be read.
    In {
        /// The length of the block, in bytes.
        len: usize,
        /// What became of it.
        got: DataIn,
    },
    /// A block of 512 bytes that was written.
    Out {
        /// What became of it.
        got: DataOut,
    },
    /// A poll.
    Busy {
        /// Whether the card was busy.
        yes: bool,
    },
}
