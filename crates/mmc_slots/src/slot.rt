ghost use Rattle.std.specs.Prelude.{◌≡◌, ◌+◌, ◌<◌, ◌≤◌, ◌^◌, IfSome, IsNone, length, slice_set};
ghost use Rattle.mmc_queue.specs.Requests.{asked_of};
ghost use Rattle.mmc_slots.specs.Accepted.{entry_with};
ghost use Rattle.mmc_slots.specs.Slots.{Memory, entry_of, in_state, kind_in, part_in, request_of, slot_at};

use mmc_bus::Part;
use mmc_requests::{Asked, Kind};
use std::mem::size_of;

// C knows a slot by its layout.
const _: () = prove!(size_of::<Slot>() == 32);

/// No request.
pub const FREE: u8 = 0;

/// A request that waits.
pub const WAITS: u8 = 1;

/// One of those that are in service together.
pub const TOGETHER: u8 = 2;

/// One that is to be served alone, before those that wait.
pub const ALONE: u8 = 3;

/// A request of a client, or none.
#[repr(C)]
#[derive(Clone, Copy, Debug, PartialEq, Eq)]
pub struct Slot {
    /// Its number. Tickets ascend in order of submission.
    pub ticket: u64,
    /// The caller's: where its sectors lie in memory. Nothing here looks at it.
    pub memory: u64,
    /// The first sector.
    pub start: u32,
    /// How many sectors.
    pub count: u32,
    /// Whose request it is.
    pub client: u32,
    /// `FREE`, `WAITS`, `TOGETHER` or `ALONE`.
    pub state: u8,
    /// 0 reads, 1 writes, 2 erases, anything else trims.
    pub kind: u8,
    /// The partition: 0 the user's, 1 and 2 the boot partitions, 3 to 6 those of general purpose; anything else is the user's.
    pub part: u8,
    /// The caller's.
    pub answer: u8,
}

// The number of a kind.
fn kind_number(kind: Kind) -> u8
    ensures { kind_in result ≡ kind }
{
    match kind {
        Kind::Read => 0,
        Kind::Write => 1,
        Kind::Erase => 2,
        Kind::Trim => 3,
    }
}

// The number of a partition.
fn part_number(part: Part) -> u8
    ensures { part_in result ≡ part }
{
    match part {
        Part::User => 0,
        Part::Boot1 => 1,
        Part::Boot2 => 2,
        Part::Gp1 => 3,
        Part::Gp2 => 4,
        Part::Gp3 => 5,
        Part::Gp4 => 6,
    }
}

impl Slot {
    /// A request that waits; `None` where a slot can't name its sectors, which takes numbers of 33 bits.
    pub fn of(asked: &Asked, ticket: u64, client: u32, memory: u64) -> Option<Slot>
        ensures ticket { IfSome result (λ s. s.ticket ≡ ticket) }
        ensures whose { IfSome result (λ s. s.memory ≡ memory) }
        ensures entry { IfSome result (λ s. (memory : Memory) → entry_of memory s ≡ entry_with memory client asked.now ticket) }
        ensures wide { IsNone result → asked.now.start < 2 ^ 32 → 2 ^ 32 ≤ asked.now.count }
    {
        let (Ok(start), Ok(count)) = (u32::try_from(asked.start), u32::try_from(asked.count)) else {
            return None;
        };
        Some(Slot {
            ticket,
            memory,
            start,
            count,
            client,
            state: WAITS,
            kind: kind_number(asked.kind),
            part: part_number(asked.part),
            answer: 0,
        })
    }

    // What the request does with its sectors.
    fn kind(&self) -> Kind
        ensures { result ≡ kind_in self.now.kind }
    {
        match self.kind {
            0 => Kind::Read,
            1 => Kind::Write,
            2 => Kind::Erase,
            _ => Kind::Trim,
        }
    }

    // The partition.
    fn part(&self) -> Part
        ensures { result ≡ part_in self.now.part }
    {
        match self.part {
            1 => Part::Boot1,
            2 => Part::Boot2,
            3 => Part::Gp1,
            4 => Part::Gp2,
            5 => Part::Gp3,
            6 => Part::Gp4,
            _ => Part::User,
        }
    }

    /// What the request asks for, wherever its memory lies.
    pub fn asked(&self) -> Asked
        ensures asked { (memory : Memory) → result ≡ asked_of (request_of memory self.now) }
        ensures short { result.start + result.count < 2 ^ 33 }
    {
        Asked {
            kind: self.kind(),
            part: self.part(),
            start: self.start as u64,
            count: self.count as u64,
        }
    }
}

// The slot with this index.
pub(crate) fn slot_at(slots: &[Slot], k: usize) -> Slot
    requires { k < length slots.now }
    ensures { result ≡ slot_at slots.now k }
{
    slots[k]
}

// The slot with this index gets this state.
pub(crate) fn put_state(slots: &mut [Slot], k: usize, state: u8)
    requires { k < length slots.old }
    ensures { slots.new ≡ slice_set slots.old k (in_state state (slot_at slots.old k)) }
{
    let mut slot = slot_at(slots, k);
    slot.state = state;
    slots[k] = slot;
}
