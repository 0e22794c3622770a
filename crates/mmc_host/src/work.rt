// What a busy card is at.
ghost use Rattle.std.specs.Prelude.{◌*◌, ◌+◌, ◌≡◌, ◌≤◌, min, ℕ};
ghost use Rattle.mmc_host.specs.HostStates.{micros_of};
ghost use Rattle.mmc_host.specs.declared.work.Work.TheVariants.{Erase, Switch, Write};

/// What a card is at that says busy.
#[derive(Clone, Copy, Debug, PartialEq, Eq)]
pub enum Work {
    /// It is being selected.
    Settling,
    /// It programs what was written, a block or the end of a write, or is stopped.
    Write,
    /// It switches (eMMC).
    Switch,
    /// It erases or trims.
    Erase {
        /// By how much the address of the last sector is beyond that of the first: sectors, or bytes of a card that counts those.
        span: u32,
    },
}

impl Work {
    /// For how many microseconds a host looks before it says that the card is still busy: sixteen looks are as long as the work
    /// may take (`docs/PORTING.md`, "Pace"). They are 512 ms for a write, which serves SDXC too, 2.56 s for a switch, and for an erase
    /// 160 s and 256 ms a sector, but four hours at most. A host that finds the card no longer busy says so at once.
    pub fn micros(self) -> u32
        ensures exactly { result ≡ micros_of self }
        ensures write { self ≡ Write → 500000 ≤ 16 * result }
        ensures switch { self ≡ Switch → 2550000 ≤ 16 * result }
        ensures erase { (span : ℕ) → self ≡ Erase span → min 14400000000 (153000000 + 250000 * (span + 1)) ≤ 16 * result }
    {
        match self {
            Work::Settling | Work::Write => 32_000,
            Work::Switch => 160_000,
            Work::Erase { span } => {
                (10_000_000 + 16_000 * (span as u64 + 1)).min(900_000_000) as u32
            }
        }
    }
}
