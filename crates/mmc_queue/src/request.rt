ghost use Rattle.std.specs.Prelude.{◌≡◌, ◌*◌};
ghost use Rattle.mmc_queue.specs.Requests.{asked_of, count_of, has_its_bytes, is_read, kind_of, part_of, start_of};

use mmc_bus::{Bytes, Part};
use mmc_requests::{Asked, Kind};

/// What a client asks of the device. Starts and counts are sectors of 512 bytes.
#[derive(Debug, Drop)]
pub enum Request {
    /// The contents of `count` sectors from `start` on.
    Read {
        /// The partition.
        part: Part,
        /// The first sector.
        start: u64,
        /// How many sectors.
        count: u64,
    },
    /// New contents for `count` sectors from `start` on.
    Write {
        /// The partition.
        part: Part,
        /// The first sector.
        start: u64,
        /// How many sectors.
        count: u64,
        /// The new contents: 512 bytes for each sector.
        bytes: Bytes,
    },
    /// The erased byte throughout `count` sectors from `start` on, by whole erase units.
    Erase {
        /// The partition.
        part: Part,
        /// The first sector.
        start: u64,
        /// How many sectors.
        count: u64,
    },
    /// The erased byte throughout `count` sectors from `start` on, each by itself.
    Trim {
        /// The partition.
        part: Part,
        /// The first sector.
        start: u64,
        /// How many sectors.
        count: u64,
    },
}

impl Request {
    /// The partition.
    pub fn part(&self) -> Part
        ensures { result ≡ part_of self.now }
    {
        match self {
            Request::Read { part, .. }
            | Request::Write { part, .. }
            | Request::Erase { part, .. }
            | Request::Trim { part, .. } => *part,
        }
    }

    /// What it does with its sectors.
    pub fn kind(&self) -> Kind
        ensures { result ≡ kind_of self.now }
    {
        match self {
            Request::Read { .. } => Kind::Read,
            Request::Write { .. } => Kind::Write,
            Request::Erase { .. } => Kind::Erase,
            Request::Trim { .. } => Kind::Trim,
        }
    }

    /// The first sector.
    pub fn start(&self) -> u64
        ensures { result ≡ start_of self.now }
    {
        match self {
            Request::Read { start, .. }
            | Request::Write { start, .. }
            | Request::Erase { start, .. }
            | Request::Trim { start, .. } => *start,
        }
    }

    /// How many sectors.
    pub fn count(&self) -> u64
        ensures { result ≡ count_of self.now }
    {
        match self {
            Request::Read { count, .. }
            | Request::Write { count, .. }
            | Request::Erase { count, .. }
            | Request::Trim { count, .. } => *count,
        }
    }

    /// What it asks for.
    pub fn asked(&self) -> Asked
        ensures { result ≡ asked_of self.now }
    {
        Asked {
            kind: self.kind(),
            part: self.part(),
            start: self.start(),
            count: self.count(),
        }
    }

    /// Whether it changes nothing.
    pub fn is_read(&self) -> bool
        ensures { result ≡ is_read self.now }
    {
        matches!(self, Request::Read { .. })
    }

    /// Whether a write has 512 bytes for each sector. No other request brings any.
    pub fn has_its_bytes(&self) -> bool
        ensures { result ≡ has_its_bytes self.now }
    {
        match self {
            Request::Write { count, bytes, .. } => bytes.as_slice().len() as u128
                == 512 * *count as u128,
            _ => true,
        }
    }
}
