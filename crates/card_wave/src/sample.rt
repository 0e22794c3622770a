// What a clock shows.
ghost use Rattle.std.specs.Prelude.{◌≡◌, true, ◌∷◌, []};
ghost use Rattle.card_wave.specs.Samples.{idle, on_cmd, on_lines};
ghost use Rattle.mmc_frame.specs.Check.{byte_bits};

/// What a clock shows: the levels of CMD and of DAT0 to DAT7 at the rising edge of CLK. A line that nobody drives is high.
#[derive(Clone, Copy, Debug, PartialEq, Eq)]
pub struct Sample {
    /// The level of CMD.
    pub cmd: bool,
    /// The levels of DAT0 to DAT7.
    pub dat: [bool; 8],
}

impl Sample {
    /// Nobody drives a line.
    pub fn idle() -> Sample
        ensures { result ≡ idle }
    {
        Sample {
            cmd: true,
            dat: [true; 8],
        }
    }

    // CMD has this level, and the data lines are idle.
    pub(crate) fn on_cmd(level: bool) -> Sample
        ensures { result ≡ on_cmd level }
    {
        Sample {
            cmd: level,
            dat: [true; 8],
        }
    }

    // DAT0 has this level.
    pub(crate) fn on_one_line(level: bool) -> Sample
        ensures { result ≡ on_lines (level ∷ []) }
    {
        Sample {
            cmd: true,
            dat: [level, true, true, true, true, true, true, true],
        }
    }

    // DAT3 to DAT0 have these levels.
    pub(crate) fn on_four_lines(dat3: bool, dat2: bool, dat1: bool, dat0: bool) -> Sample
        ensures { result ≡ on_lines (dat3 ∷ dat2 ∷ dat1 ∷ dat0 ∷ []) }
    {
        Sample {
            cmd: true,
            dat: [dat0, dat1, dat2, dat3, true, true, true, true],
        }
    }

    // DAT7 to DAT0 have these levels.
    pub(crate) fn on_eight_lines(levels: [bool; 8]) -> Sample
        ensures { result ≡ on_lines levels }
    {
        let [dat7, dat6, dat5, dat4, dat3, dat2, dat1, dat0] = levels;
        Sample {
            cmd: true,
            dat: [dat0, dat1, dat2, dat3, dat4, dat5, dat6, dat7],
        }
    }
}

// The bits of a byte, the highest first.
pub(crate) fn bits(byte: u8) -> [bool; 8]
    ensures { result ≡ byte_bits byte }
{
    [
        byte / 128 % 2 == 1,
        byte / 64 % 2 == 1,
        byte / 32 % 2 == 1,
        byte / 16 % 2 == 1,
        byte / 8 % 2 == 1,
        byte / 4 % 2 == 1,
        byte / 2 % 2 == 1,
        byte % 2 == 1,
    ]
}
