ghost use Rattle.std.specs.Prelude.{◌≡◌};
ghost use Rattle.mmc_erase.specs.Commands.{argument_of};

/// How the sectors of a run are given up. Each of them holds the erased byte then.
#[derive(Clone, Copy, Debug, PartialEq, Eq)]
pub enum How {
    /// By whole erase units (SD Physical Layer 6.00, section 4.3.5; JESD84-B51, section 6.6.9).
    Erase,
    /// Each sector by itself, which eMMC devices alone may know (JESD84-B51, section 6.6.10).
    Trim,
}

impl How {
    // The argument of CMD38.
    pub(crate) fn argument(self) -> u32
        ensures { result ≡ argument_of self }
    {
        match self {
            How::Erase => 0,
            How::Trim => 1,
        }
    }
}
