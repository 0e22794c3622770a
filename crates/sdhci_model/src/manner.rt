// What a controller does late, or never.
ghost use Rattle.std.specs.Prelude.{◌≡◌};

/// Where a controller is silent.
#[derive(Clone, Copy, Debug, PartialEq, Eq)]
pub enum Silence {
    /// Before anything: the card doesn't hear the command, no block is shown, and no room for one.
    Before,
    /// After the card has heard the command, sent the block that is shown, or taken the one in the buffer: nothing tells that it is over.
    After,
    /// So it is, and the card doesn't get the block in the buffer.
    Unsent,
}

/// At one exchange so many looks find nothing.
#[derive(Clone, Copy, Debug, PartialEq, Eq)]
pub struct Silent {
    /// Its number: each command, block and poll is one, and the first one's is 0.
    pub exchange: u64,
    /// How many looks.
    pub looks: u64,
    /// Where.
    pub silence: Silence,
}

/// What becomes of a wait for interrupts while the controller is silent.
#[derive(Clone, Copy, Debug, PartialEq, Eq)]
pub enum Line {
    /// There is one, and the controller isn't silent any more.
    Fires,
    /// There is none.
    IsDead,
}

/// How a controller does what the definition leaves open.
#[derive(Clone, Copy, Debug, Default, PartialEq, Eq)]
pub struct Manner {
    /// Where it is silent; otherwise each thing is over at the first look at it.
    pub silent: Option<Silent>,
    /// That a block is bad comes after it has been shown, and that one that isn't the last was rejected with the next one.
    pub has_late_errors: bool,
    /// Where its driver can wait for interrupts.
    pub line: Option<Line>,
    /// Interrupts that somebody else wants.
    pub kept: u32,
}

impl Manner {
    /// Whether a look at this exchange finds nothing, of which something has begun or not. The looks are counted.
    pub fn is_silent(&mut self, exchange: u64, has_begun: bool) -> bool {
        let Some(silent) = self.silent else {
            return false;
        };
        let is_meant = has_begun || silent.silence == Silence::Before;
        if silent.exchange != exchange || silent.looks == 0 || !is_meant {
            return false;
        }
        self.silent = Some(Silent {
            looks: silent.looks - 1,
            ..silent
        });
        true
    }

    /// It is waited for an interrupt.
    pub fn wake(&mut self)
        ensures { self.new.kept ≡ self.old.kept }
    {
        if self.line == Some(Line::Fires) {
            self.silent = None;
        }
    }

    /// Whether a look finds nothing while the controller makes so many exchanges by itself, from this one on: it is silent at one of
    /// them.
    pub fn is_silent_within(&mut self, first: u64, count: u64) -> bool {
        let Some(silent) = self.silent else {
            return false;
        };
        if silent.exchange < first || silent.exchange - first >= count {
            return false;
        }
        self.is_silent(silent.exchange, true)
    }

    /// How many blocks the controller moves by itself, from this exchange on, before the one at which it is silent. Where blocks have
    /// looks between them, it is silent at the block before a look.
    pub fn blocks_before(&mut self, first: u64, has_looks: bool) -> u64 {
        let Some(silent) = self.silent else {
            return 0;
        };
        let before = silent.exchange.saturating_sub(first);
        if has_looks {
            self.silent = Some(Silent {
                exchange: silent.exchange - before % 2,
                ..silent
            });
            before / 2
        } else {
            before
        }
    }

    /// Whether the card gets what is lost at this exchange.
    pub fn is_sent(&self, exchange: u64) -> bool {
        match self.silent {
            Some(silent) => silent.exchange == exchange && silent.silence == Silence::After,
            None => false,
        }
    }
}
