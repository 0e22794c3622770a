// The rules: what a driver may write. They are those of `mmc_sdhci`, one function for each register.
ghost use Rattle.std.specs.Prelude.{◌&&◌, ◌==◌, ◌||◌, ◌≡◌, is_none};
ghost use Rattle.mmc_frame.specs.Field.{field};
ghost use Rattle.mmc_sdhci.specs.Accesses.{can_put, is_able, is_asked, is_at_rest, is_clean, is_clock, is_idle, is_selected, may_write, may_write8, of_the_slot};
ghost use Rattle.mmc_sdhci.specs.Controller.{is_set, is_settled, is_still};
ghost use Rattle.mmc_story.specs.Story.{Outcome};
ghost use Rattle.sdhci_model.specs.Shown.{is_plain, shown};

use crate::commands::data_asked;
use crate::state::State;
use mmc_host::Data;
use mmc_sdhci::has_data;

/// Both; with `&&` the proofs would lose what each says.
pub fn both(a: bool, b: bool) -> bool
    ensures { result ≡ (a && b) }
{
    a && b
}

/// One at least.
pub fn either(a: bool, b: bool) -> bool
    ensures { result ≡ (a || b) }
{
    a || b
}

// Whether several blocks are counted.
fn is_counted(value: u32) -> bool
    ensures { result ≡ (field 5 5 value == field 1 1 value) }
{
    value / 32 % 2 == value / 2 % 2
}

// Whether the data goes through the Buffer Data Port.
fn is_by_port(value: u32) -> bool
    ensures { result ≡ (field 0 0 value == 0) }
{
    value % 2 == 0
}

// Whether these flags and this mode ask for no command of the controller's own, and no suspending.
fn is_plain(value: u32) -> bool
    ensures { result ≡ is_plain value }
{
    value / 4 % 4 == 0
        && value / 64 % 1024 == 0
        && value / 0x4_0000 % 2 == 0
        && value / 0x4000_0000 == 0
        && (value / 0x40_0000 % 4 == 0 || value / 0x40_0000 % 256 == 0x33)
}

// Whether Capabilities have what Host Control 1 asks for, or it did before: eight lines, and high speed.
fn is_able(capabilities: u32, before: u8, control: u8) -> bool
    ensures { result ≡ is_able capabilities before control }
{
    both(
        either(
            !(control / 32 % 2 == 1),
            either(capabilities / 0x4_0000 % 2 == 1, before / 32 % 2 == 1),
        ),
        either(
            !(control / 4 % 2 == 1),
            either(capabilities / 0x20_0000 % 2 == 1, before / 4 % 2 == 1),
        ),
    )
}

// Whether it selects ADMA2 where Capabilities have it (bit 19), by addresses of 64 bits where they have those (bit 28), and otherwise
// none.
fn is_selected(capabilities: u32, control: u8) -> bool
    ensures { result ≡ is_selected capabilities control }
{
    either(
        control / 8 % 4 == 0,
        both(
            capabilities / 0x8_0000 % 2 == 1,
            either(
                control / 8 % 4 == 2,
                both(control / 8 % 4 == 3, capabilities / 0x1000_0000 % 2 == 1),
            ),
        ),
    )
}

// At which multiples SDMA stops, above Block Size: 7 is 512 KiB.
fn boundary(sizes: u32) -> u32
    ensures { result ≡ field 15 12 sizes }
{
    sizes / 0x1000 % 16
}

// That a card was inserted, or removed.
fn of_the_slot(bits: u32) -> u32
    ensures { result ≡ of_the_slot bits }
{
    bits / 0x40 % 4
}

impl State {
    fn is_settled(&self) -> bool
        ensures { (outcome : Outcome) → result ≡ is_settled (shown outcome self.now) }
    {
        self.resetting.is_none() && self.stabilizing.is_none()
    }

    fn is_still(&self) -> bool
        ensures { (outcome : Outcome) → result ≡ is_still (shown outcome self.now) }
    {
        both(self.is_settled(), self.starting.is_none())
    }

    /// Whether no command runs, nothing is left of an older one, nothing settles, the card has started, and no data is moved by DMA.
    pub fn is_at_rest(&self) -> bool
        ensures { (outcome : Outcome) → result ≡ is_at_rest (shown outcome self.now) }
    {
        if self.running.is_some() {
            return false;
        }
        if self.is_stuck {
            return false;
        }
        if self.is_stale {
            return false;
        }
        if self.is_unjudged {
            return false;
        }
        if self.outgoing.len() != 0 {
            return false;
        }
        if self.is_moving {
            return false;
        }
        self.is_still()
    }

    fn is_idle(&self) -> bool
        ensures { (outcome : Outcome) → result ≡ is_idle (shown outcome self.now) }
    {
        self.running.is_none() && !has_data(self.transfer)
    }

    fn is_set(&self) -> bool
        ensures { (outcome : Outcome) → result ≡ is_set (shown outcome self.now).settings }
    {
        self.power == 0x0f
            && self.shown & 0x007f_0003 == 0x007f_0003
            && self.stabilizing.is_none()
            && self.clock % 2 == 1
            && self.clock / 4 % 2 == 1
            && self.timeout == 0x0e
    }

    fn is_clean(&self, value: u32) -> bool
        ensures { (outcome : Outcome) → result ≡ is_clean (shown outcome self.now) value }
    {
        let older = if value / 0x20_0000 % 2 == 1 {
            0xffff_ff3f
        } else {
            0x000f_0001
        };
        self.status & older == 0
    }

    fn is_asked(&self, value: u32) -> bool
        ensures { (outcome : Outcome) → result ≡ is_asked (shown outcome self.now) value }
    {
        let is_movable = either(
            is_by_port(value),
            self.can_move(data_asked(self.sizes, value)),
        );
        both(is_counted(value), both(is_movable, is_plain(value)))
    }

    fn can_put(&self) -> bool
        ensures { (outcome : Outcome) → result ≡ can_put (shown outcome self.now) }
    {
        matches!(self.transfer, Data::Write { .. })
            && (self.is_ready || !self.outgoing.is_empty())
            && self.outgoing.len() < 512
    }

    fn is_clock(&self, value: u32) -> bool
        ensures { (outcome : Outcome) → result ≡ is_clock (shown outcome self.now).settings value }
    {
        value < 0x10_0000
            && (value / 4 % 2 == 0
                || value % 2 == 1 && u64::from(value % 0x1_0000) == u64::from(self.clock) + 4)
    }

    fn may_size(&self, value: u32) -> bool
        ensures { (outcome : Outcome) → result ≡ may_write (shown outcome self.now) 0x04 value }
    {
        both(self.is_idle(), boundary(value) == 7)
    }

    fn may_begin(&self, value: u32) -> bool
        ensures { (outcome : Outcome) → result ≡ may_write (shown outcome self.now) 0x0c value }
    {
        both(
            self.is_at_rest(),
            both(
                self.is_clean(value),
                both(self.is_set(), self.is_asked(value)),
            ),
        )
    }

    fn may_clock(&self, value: u32) -> bool
        ensures { (outcome : Outcome) → result ≡ may_write (shown outcome self.now) 0x2c value }
    {
        both(
            self.is_idle(),
            both(self.is_settled(), self.is_clock(value)),
        )
    }

    fn may_clear(&self, value: u32) -> bool
        ensures { (outcome : Outcome) → result ≡ may_write (shown outcome self.now) 0x30 value }
    {
        self.running.is_none()
            && of_the_slot(value) == 0
            && (!has_data(self.transfer) || value & 0x000f_0031 == value)
    }

    fn may_show(&self, value: u32) -> bool
        ensures { (outcome : Outcome) → result ≡ may_write (shown outcome self.now) 0x34 value }
    {
        both(
            self.is_idle(),
            both(
                value & 0x007f_0003 == 0x007f_0003,
                both(
                    value & 0x027f_00ff == value,
                    either(
                        of_the_slot(self.shown) == 0,
                        of_the_slot(value) == of_the_slot(self.shown),
                    ),
                ),
            ),
        )
    }

    fn may_control(&self, value: u8) -> bool
        ensures { (outcome : Outcome) → result ≡ may_write8 (shown outcome self.now) 0x28 value }
    {
        both(
            self.is_idle(),
            both(
                self.is_settled(),
                both(
                    value & 0x3e == value,
                    both(
                        is_able(self.capabilities, self.control, value),
                        is_selected(self.capabilities, value),
                    ),
                ),
            ),
        )
    }

    fn may_power(&self, value: u8) -> bool
        ensures { (outcome : Outcome) → result ≡ may_write8 (shown outcome self.now) 0x29 value }
    {
        both(self.is_idle(), either(value == 0x0f, value == 0))
    }

    fn may_reset(&self, value: u8) -> bool
        ensures { (outcome : Outcome) → result ≡ may_write8 (shown outcome self.now) 0x2f value }
    {
        let is_off = both(self.is_at_rest(), both(self.is_idle(), self.power == 0));
        either(value == 2, either(value == 4, both(value == 1, is_off)))
    }

    /// Whether the rules allow this write of 32 bits.
    pub fn may_write(&self, offset: u8, value: u32) -> bool
        ensures { (outcome : Outcome) → result ≡ may_write (shown outcome self.now) offset value }
    {
        match offset {
            0x00 => self.is_idle(),
            0x04 => self.may_size(value),
            0x08 => self.running.is_none(),
            0x0c => self.may_begin(value),
            0x20 => self.can_put(),
            0x2c => self.may_clock(value),
            0x30 => self.may_clear(value),
            0x34 => self.may_show(value),
            0x38 => value & 0xc0 == value,
            0x58 => self.is_idle(),
            0x5c => self.is_idle(),
            _ => false,
        }
    }

    /// And of 8 bits.
    pub fn may_write8(&self, offset: u8, value: u8) -> bool
        ensures { (outcome : Outcome) → result ≡ may_write8 (shown outcome self.now) offset value }
    {
        match offset {
            0x28 => self.may_control(value),
            0x29 => self.may_power(value),
            0x2f => self.may_reset(value),
            _ => false,
        }
    }
}
