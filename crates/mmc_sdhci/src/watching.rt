// Looks at the buffer and at the interrupts, while data is under way.
ghost use Rattle.std.specs.Prelude.{◌<◌, ◌≡◌, ◌≤◌, ◌||◌, IfNone};
ghost use Rattle.mmc_sdhci.specs.Beside.{HasWaited, IsBeside, interrupt_after, interrupts_for, looks_for, read_on, time_for, time_of};
ghost use Rattle.mmc_sdhci.specs.DataLooks.{is_over_by};
ghost use Rattle.mmc_sdhci.specs.Moving.{Glances, IsSeeking, Watches, is_error, is_found};

use crate::following::Following;
use crate::offsets::{BUFFERS, INTERRUPTS};
use crate::registers::Registers;
use crate::settling::pause;

// 100 ms for a block of a read, half a second for one of a write: a millisecond of looks that follow each other at once, and then
// others, so that a pause that takes longer than it was asked for makes the wait not much longer.
pub(crate) const FIRST_LOOKS: u32 = 1000;

const LOOKS_FOR_A_BLOCK: u32 = FIRST_LOOKS + 1980;

const LOOKS_FOR_A_WRITE: u32 = FIRST_LOOKS + 9980;

const TIME_FOR_A_BLOCK: u32 = 100_000;

const TIME_FOR_A_WRITE: u32 = 500_000;

/// So often is looked before it is waited for an interrupt.
pub(crate) const FEW_LOOKS: u32 = 2;

// Buffer Read Ready and Buffer Write Ready, which stay set until they are cleared, and Transfer Complete.
const READ_READY: u32 = 0x20;

const WRITE_READY: u32 = 0x10;

const TRANSFER_COMPLETE: u32 = 0x02;

/// All errors of command and data.
pub(crate) const ERRORS: u32 = 0x007f_0000;

// For how many microseconds nobody looks after this look.
pub(crate) fn between(look: u32) -> u32
    ensures first { look < 1000 → result ≡ 1 }
    ensures then { 1000 ≤ look → result ≡ 50 }
{
    if look < FIRST_LOOKS { 1 } else { 50 }
}

/// What is looked for.
#[derive(Clone, Copy, Debug, PartialEq, Eq)]
pub enum Sought {
    /// A block in the buffer.
    Block,
    /// That nothing can be wrong any more with the one that was taken.
    Good(Following),
    /// Room for one.
    Room,
    /// That the block in the buffer has gone.
    Gone(Following),
}

/// What a look showed.
#[derive(Clone, Copy, Debug, PartialEq, Eq)]
pub struct Glance {
    /// Whether the buffer is ready: a block is in it, or there is room for one.
    pub is_ready: bool,
    /// The interrupts.
    pub bits: u32,
}

impl Glance {
    /// Whether there is an error.
    pub fn is_error(self) -> bool
        ensures { result ≡ is_error self.bits }
    {
        self.bits / 0x8000 % 2 == 1
    }
}

impl Following {
    // Whether this shows that the block is over: nothing can be wrong with it any more.
    fn is_over(self, seen: Glance) -> bool
        ensures { result ≡ is_over_by self seen.is_ready seen.bits }
    {
        match self {
            Following::End => seen.bits / 2 % 2 == 1,
            Following::Another => seen.is_ready,
        }
    }

    // The interrupt that tells of it, where this one says that the buffer is ready.
    fn interrupt(self, ready: u32) -> u32
        ensures { result ≡ interrupt_after ready self }
    {
        match self {
            Following::End => TRANSFER_COMPLETE,
            Following::Another => ready,
        }
    }
}

impl Sought {
    /// Whether this shows it.
    pub fn is_found(self, seen: Glance) -> bool
        ensures { result ≡ is_found self seen }
    {
        match self {
            Sought::Block | Sought::Room => seen.is_ready,
            Sought::Good(following) | Sought::Gone(following) => following.is_over(seen),
        }
    }

    // Whether there is an error, or it is found.
    fn is_over(self, seen: Glance) -> bool
        ensures { result ≡ (is_error seen.bits || is_found self seen) }
    {
        seen.is_error() || self.is_found(seen)
    }

    fn looks(self) -> u32
        ensures { result ≡ looks_for self }
    {
        match self {
            Sought::Block | Sought::Good(_) => LOOKS_FOR_A_BLOCK,
            Sought::Room | Sought::Gone(_) => LOOKS_FOR_A_WRITE,
        }
    }

    // In microseconds.
    fn time(self) -> u32
        ensures { result ≡ time_for self }
    {
        match self {
            Sought::Block | Sought::Good(_) => TIME_FOR_A_BLOCK,
            Sought::Room | Sought::Gone(_) => TIME_FOR_A_WRITE,
        }
    }

    // The interrupts that tell of it.
    fn interrupts(self) -> u32
        ensures { result ≡ interrupts_for self }
    {
        let one = match self {
            Sought::Block => READ_READY,
            Sought::Good(following) => following.interrupt(READ_READY),
            Sought::Room => WRITE_READY,
            Sought::Gone(following) => following.interrupt(WRITE_READY),
        };
        one + ERRORS
    }
}

// One look: first at the buffer, so that an error that came with a block is seen with it.
fn look<R: Registers>(registers: &mut R, sought: Sought) -> Glance
    ensures glances { Glances (R.view registers.old) sought result (R.view registers.new) }
    ensures aside { IsBeside (R.view registers.new) (read_on (R.beside registers.old) 0x30 result.bits) (R.beside registers.new) }
{
    let buffers = registers.read8(BUFFERS);
    let is_ready = match sought {
        Sought::Block | Sought::Good(_) => buffers / 8 % 2 == 1,
        Sought::Room | Sought::Gone(_) => buffers / 4 % 2 == 1,
    };
    Glance {
        is_ready,
        bits: registers.read32(INTERRUPTS),
    }
}

// Looks so often until it is found or there is an error; `None` where there is neither.
fn look_often<R: Registers>(registers: &mut R, sought: Sought, looks: u32) -> Option<Glance>
    requires { IsSeeking sought (R.view registers.old) }
    ensures watches { Watches (R.view registers.old) sought result (R.view registers.new) }
    ensures late { IfNone result (HasWaited (R.view registers.new) (time_of looks) (R.beside registers.old) (R.beside registers.new)) }
{
    for number in 0..looks {
        let seen = look(registers, sought);
        if sought.is_over(seen) {
            return Some(seen);
        }
        pause(registers, between(number));
    }
    None
}

// The same by an interrupt. One for which the buffer was ready before is cleared first, and then it is looked once more.
fn wait<R: Registers>(registers: &mut R, sought: Sought) -> Option<Glance>
    requires { IsSeeking sought (R.view registers.old) }
    ensures watches { Watches (R.view registers.old) sought result (R.view registers.new) }
    ensures late { IfNone result (HasWaited (R.view registers.new) (time_for sought) (R.beside registers.old) (R.beside registers.new)) }
{
    registers.write32(INTERRUPTS, READ_READY + WRITE_READY);
    if let Some(seen) = look_often(registers, sought, 1) {
        return Some(seen);
    }
    let interrupts = sought.interrupts();
    registers.wait(interrupts, sought.time());
    let seen = look(registers, sought);
    if sought.is_over(seen) {
        return Some(seen);
    }
    if seen.bits & interrupts == 0 {
        return None;
    }
    // There was one, but it isn't found.
    look_often(registers, sought, sought.looks())
}

/// Looks until it is found or there is an error, or waits for an interrupt that tells of it; `None` where there is neither for too long.
pub fn watch<R: Registers>(registers: &mut R, sought: Sought) -> Option<Glance>
    requires { IsSeeking sought (R.view registers.old) }
    ensures watches { Watches (R.view registers.old) sought result (R.view registers.new) }
    ensures late { IfNone result (HasWaited (R.view registers.new) (time_for sought) (R.beside registers.old) (R.beside registers.new)) }
{
    if !registers.can_wait() {
        return look_often(registers, sought, sought.looks());
    }
    if let Some(seen) = look_often(registers, sought, FEW_LOOKS) {
        return Some(seen);
    }
    wait(registers, sought)
}
