// What a driver has beside the card, which the model notes.
ghost use Rattle.std.specs.Prelude.{◌≡◌, IfSome};
ghost use Rattle.mmc_sdhci.specs.Beside.{read_on, wait_on, waited_on, write_on};
ghost use Rattle.sdhci_model.specs.Waiting.{beside_of};

// Present State, and Normal and Error Interrupt Status.
const PRESENT: u8 = 0x24;

const INTERRUPTS: u8 = 0x30;

/// What a driver has beside the card.
#[derive(Clone, Copy, Debug, PartialEq, Eq)]
pub struct Waited {
    /// How many microseconds were waited.
    pub total: u64,
    /// What Present State showed last.
    pub present: u32,
    /// The last wait for interrupts, as long as no look says how it ended: for these.
    pub interrupts: u32,
    /// And for so many microseconds.
    pub micros: u32,
}

impl Waited {
    /// Before any access.
    pub fn new() -> Waited {
        Waited {
            total: 0,
            present: 0,
            interrupts: 0,
            micros: 0,
        }
    }

    // Interrupt Status is looked at.
    fn look(self, value: u32) -> Option<Waited>
        ensures { IfSome result (λ new. beside_of new ≡ read_on (beside_of self) 0x30 value) }
    {
        let lasted = if value & self.interrupts == 0 {
            self.micros
        } else {
            0
        };
        Some(Waited {
            total: self.total.checked_add(u64::from(lasted))?,
            present: self.present,
            interrupts: 0,
            micros: 0,
        })
    }

    /// A register is read. `None` where more was waited than can be counted.
    pub fn read(self, offset: u8, value: u32) -> Option<Waited>
        ensures { IfSome result (λ new. beside_of new ≡ read_on (beside_of self) offset value) }
    {
        match offset {
            PRESENT => Some(Waited {
                present: value,
                ..self
            }),
            INTERRUPTS => self.look(value),
            _ => Some(self),
        }
    }

    /// One is written.
    pub fn written(self) -> Waited
        ensures { beside_of result ≡ write_on (beside_of self) }
    {
        Waited {
            interrupts: 0,
            micros: 0,
            ..self
        }
    }

    /// So many microseconds pass. `None` where more was waited than can be counted.
    pub fn pause(self, micros: u32) -> Option<Waited>
        ensures { IfSome result (λ new. beside_of new ≡ waited_on (beside_of self) micros) }
    {
        Some(Waited {
            total: self.total.checked_add(u64::from(micros))?,
            ..self
        })
    }

    /// It is waited for an interrupt.
    pub fn wait(self, interrupts: u32, micros: u32) -> Waited
        ensures { beside_of result ≡ wait_on (beside_of self) interrupts micros }
    {
        Waited {
            interrupts,
            micros,
            ..self
        }
    }
}
