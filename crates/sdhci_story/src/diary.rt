// What was read and written. It exists only in proofs: a diary has no bytes, and its functions do nothing at run time.
ghost use Rattle.std.specs.Borrow.{ftrue};
ghost use Rattle.sdhci_story.specs.Access.{Access};

use ghost_diary::Noted;
use mmc_story::Seen;
use std::marker::Model;

/// The accesses so far. Only proofs read it.
pub type Diary = ghost_diary::Diary<Entry>;

/// One access, as proofs see it. It has no bytes.
#[derive(Drop)]
pub struct Entry {
    ghost access: { Access },
}

impl Model for Entry {
    ghost Value = { Access };

    ghost view = { λ entry. entry.access };

    ghost also_owns = { λ _. ftrue };
}

/// What is noted: an access, with what was read, or with what came of it.
#[derive(Clone, Copy, Drop)]
pub enum Note<'a> {
    /// 32 bits were read.
    Read32 {
        /// Where, in bytes.
        offset: u8,
        /// What was read.
        value: u32,
    },
    /// 32 bits were written.
    Write32 {
        /// Where, in bytes.
        offset: u8,
        /// What was written.
        value: u32,
    },
    /// 8 bits were read.
    Read8 {
        /// Where, in bytes.
        offset: u8,
        /// What was read.
        value: u8,
    },
    /// 8 bits were written.
    Write8 {
        /// Where, in bytes.
        offset: u8,
        /// What was written.
        value: u8,
    },
    /// A block was taken from the Buffer Data Port.
    PortRead {
        /// The block.
        block: &'a [u8],
    },
    /// A block was written to the Buffer Data Port.
    PortWritten {
        /// The block.
        block: &'a [u8; 512],
    },
    /// Room was lent, or wasn't.
    RoomLent {
        /// For so many blocks.
        count: usize,
        /// From this bus address on.
        place: Option<u64>,
    },
    /// Blocks were lent, or weren't.
    BlocksLent {
        /// The blocks.
        blocks: &'a Seen,
        /// From this bus address on.
        place: Option<u64>,
    },
    /// A table was lent, or wasn't.
    TableLent {
        /// Whether its addresses have 64 bits.
        is_wide: bool,
        /// At this bus address.
        place: Option<u64>,
    },
    /// What has come into a place was taken.
    PlaceTaken {
        /// The number of the place.
        index: usize,
        /// The block.
        block: &'a [u8; 512],
    },
    /// What has come into several places was taken.
    PlacesTaken {
        /// The number of the first one.
        first: usize,
        /// The blocks.
        bytes: &'a [u8],
    },
    /// What was lent was taken back.
    TakenBack,
    /// Time passed.
    Pause {
        /// For so many microseconds.
        micros: u32,
    },
    /// It was waited for an interrupt.
    Wait {
        /// One of these bits of Interrupt Status.
        interrupts: u32,
        /// For so many microseconds where there is none.
        micros: u32,
    },
    /// Something was asked for that no controller can do: of that no story is true.
    Misused,
}

impl Noted<Entry> for Note<'_> {
    ghost use Rattle.sdhci_story.specs.Noted.{access_of};

    ghost says = { access_of };
}
