// A request, as C tells of it.
ghost use Rattle.std.specs.Prelude.{◌<◌, ◌≡◌, Some, option_map};
ghost use Rattle.mmc_record.specs.Numbers.{part_of};
ghost use Rattle.kelifandro.specs.Asked.{asked_by, attempts_by, attempts_for, kind_with, named_by, wanted_by};

use mmc_bus::Part;
use mmc_direct::{ATTEMPTS, Asked, Kind};
use mmc_record::part_of;
use mmc_requests::ATTEMPTS_OF_A_GROUP;
use mmc_slots::Extent;
use std::mem::size_of;

// As `struct kelifandro_asked` of C.
const _: () = prove!(size_of::<AskedRecord>() == 24);

/// A request, of which C tells with its memory.
#[repr(C)]
#[derive(Clone, Copy, Debug, PartialEq, Eq)]
pub struct AskedRecord {
    /// The first sector.
    pub start: u64,
    /// How many sectors are erased or trimmed. How many are moved the memory tells.
    pub count: u64,
    /// The partition, by its number.
    pub part: u32,
    /// 0: the sectors are read. 1: they are written. 2: erased. Anything else: trimmed.
    pub kind: u16,
    /// How many attempts it has, each of which may fail; 0 is four.
    pub attempts: u16,
}

/// What is wanted of a card: what is asked for, and in how many attempts at most; 0 is four.
#[derive(Clone, Copy, Debug, PartialEq, Eq)]
pub struct Wanted {
    /// What is asked for.
    pub asked: Asked,
    /// The most attempts.
    pub attempts: u16,
}

/// The partition with this number.
pub fn part_with(number: u32) -> Option<Part>
    ensures { result ≡ part_of number }
{
    match u8::try_from(number) {
        Ok(number) => part_of(number),
        Err(_) => None,
    }
}

// What is done with the sectors.
fn kind_with(number: u16) -> Kind
    ensures { result ≡ kind_with number }
{
    match number {
        0 => Kind::Read,
        1 => Kind::Write,
        2 => Kind::Erase,
        _ => Kind::Trim,
    }
}

// The number of a partition.
fn part_number(part: Part) -> u32
    ensures { part_of result ≡ Some part }
{
    match part {
        Part::User => 0,
        Part::Boot1 => 1,
        Part::Boot2 => 2,
        Part::Gp1 => 3,
        Part::Gp2 => 4,
        Part::Gp3 => 5,
        Part::Gp4 => 6,
    }
}

// The number of what is done with the sectors.
fn kind_number(kind: Kind) -> u16
    ensures { kind_with result ≡ kind }
{
    match kind {
        Kind::Read => 0,
        Kind::Write => 1,
        Kind::Erase => 2,
        Kind::Trim => 3,
    }
}

/// How many attempts this number is.
pub fn attempts_by(number: u16) -> u64
    ensures attempts { result ≡ attempts_by number }
    ensures some { 0 < result }
{
    if number == 0 {
        ATTEMPTS
    } else {
        u64::from(number)
    }
}

/// What is asked for with these sectors.
pub fn asked_by(extent: &Extent) -> Asked
    ensures { result ≡ asked_by extent.now }
{
    Asked {
        kind: extent.kind,
        part: extent.part,
        start: extent.start,
        count: extent.end.saturating_sub(extent.start),
    }
}

/// How many attempts these have together: two, where they are several; one alone has as many as its client's card, which is 0.
pub fn attempts_for(extent: &Extent) -> u16
    ensures { result ≡ attempts_for extent.now }
{
    if extent.members <= 1 {
        0
    } else {
        ATTEMPTS_OF_A_GROUP as u16
    }
}

/// What is asked for, in so many attempts, as C tells of it.
pub fn record_of(asked: &Asked, attempts: u16) -> AskedRecord
    ensures part { part_of result.part ≡ Some asked.now.part }
    ensures asked { named_by result asked.now.part ≡ asked.now }
    ensures attempts { result.attempts ≡ attempts }
{
    AskedRecord {
        attempts,
        start: asked.start,
        count: asked.count,
        part: part_number(asked.part),
        kind: kind_number(asked.kind),
    }
}

impl AskedRecord {
    // What is asked for, of this partition.
    fn asked_of(&self, part: Part) -> Asked
        ensures { result ≡ named_by self.now part }
    {
        Asked {
            kind: kind_with(self.kind),
            part,
            start: self.start,
            count: self.count,
        }
    }

    /// What is asked for; `None` where there is no such partition.
    pub fn asked(&self) -> Option<Asked>
        ensures { result ≡ option_map (named_by self.now) (part_of self.now.part) }
    {
        let part = part_with(self.part)?;
        Some(self.asked_of(part))
    }

    /// What is wanted; `None` where there is no such partition.
    pub fn wanted(&self) -> Option<Wanted>
        ensures { result ≡ option_map (wanted_by self.now) (part_of self.now.part) }
    {
        let part = part_with(self.part)?;
        Some(Wanted {
            asked: self.asked_of(part),
            attempts: self.attempts,
        })
    }
}
