// Software Reset, and the time that a reset, the internal clock and the card's power-up take.
ghost use Rattle.std.specs.Prelude.{◌≡◌, IfSome, Some, false, true};
ghost use Rattle.mmc_sdhci.specs.Accesses.{passed, restarted, starting_after};
ghost use Rattle.mmc_sdhci.specs.DataLooks.{cleared};
ghost use Rattle.mmc_story.specs.Story.{Outcome};
ghost use Rattle.sdhci_model.specs.Moves.{ChangesTo, HasSameBus, SeesClock, SeesReset};
ghost use Rattle.sdhci_model.specs.Shown.{shown};

use crate::state::State;
use arrayvec::ArrayVec;
use mmc_host::Data;
use mmc_sdhci::base_clock;

impl State {
    /// Software Reset For All.
    pub fn restart(&mut self)
        requires { self.old.is_unjudged ≡ false }
        ensures { ChangesTo self.old (λ view. record (restarted view) { resetting = Some 0 }) self.new }
    {
        self.control = 0;
        self.power = 0;
        self.clock = 0;
        self.timeout = 0;
        self.shown = 0;
        self.stabilizing = None;
        self.starting = None;
        self.status = 0;
        self.is_ready = false;
        self.block = ArrayVec::new();
        self.taken = 0;
        self.sdma_address = None;
        self.address = 0;
        self.upper = 0;
        self.resetting = Some(0);
    }

    /// Software Reset For CMD Line, on which no command runs.
    pub fn reset_command(&mut self)
        ensures { ChangesTo self.old (λ view. record view { resetting = Some 0; is_stuck = false }) self.new }
    {
        self.is_stuck = false;
        self.resetting = Some(0);
    }

    /// Software Reset For DAT Line.
    pub fn reset_data(&mut self)
        ensures changes { ChangesTo self.old (λ view. record (cleared view) { resetting = Some 0 }) self.new }
        ensures bus { HasSameBus self.old self.new }
    {
        self.status = 0xffff_ffff;
        self.transfer = Data::Nothing;
        self.is_stale = false;
        self.is_unjudged = false;
        self.is_ready = false;
        self.block = ArrayVec::new();
        self.taken = 0;
        self.outgoing = ArrayVec::new();
        self.is_moving = false;
        self.resetting = Some(0);
    }

    /// A look at Software Reset: a reset is over.
    pub fn see_reset(&mut self) -> u8
        ensures { SeesReset self.old result self.new }
    {
        self.resetting = None;
        0
    }

    /// A look at Internal Clock Stable, in Clock Control: it is.
    pub fn see_clock(&mut self) -> u8
        ensures { SeesClock self.old result self.new }
    {
        self.stabilizing = None;
        2
    }

    // What becomes of a card that starts after so many microseconds; `None` where they can't be counted.
    fn starting_after(&self, waited: u64, micros: u32) -> Option<Option<u64>>
        ensures { IfSome result (λ starting. (outcome : Outcome) → starting ≡ starting_after (shown outcome self.now) (Some waited) micros) }
    {
        if self.clock % 2 == 0 || self.clock / 4 % 2 == 0 {
            return Some(Some(waited));
        }
        let base = base_clock(self.capabilities, self.version) as u64;
        let sum = waited.checked_add(micros as u64)?;
        let given = sum.checked_mul(base)?;
        if 1000 * base + 74 * self.divisor() as u64 <= given {
            Some(None)
        } else {
            Some(Some(sum))
        }
    }

    /// So many microseconds pass. It tells whether they could be counted.
    pub fn pass(&mut self, micros: u32) -> bool
        ensures { result ≡ true → ChangesTo self.old (λ view. passed view micros) self.new }
    {
        if let Some(waited) = self.resetting {
            let Some(sum) = waited.checked_add(micros as u64) else {
                return false;
            };
            self.resetting = Some(sum);
            return true;
        }
        if let Some(waited) = self.stabilizing {
            let Some(sum) = waited.checked_add(micros as u64) else {
                return false;
            };
            self.stabilizing = Some(sum);
            return true;
        }
        if let Some(waited) = self.starting {
            let Some(starting) = self.starting_after(waited, micros) else {
                return false;
            };
            self.starting = starting;
        }
        true
    }
}
