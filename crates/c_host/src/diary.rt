// What was put to C, and what came. It exists only in proofs: a diary has no bytes, and its functions do nothing at run time.
ghost use Rattle.std.specs.Borrow.{ftrue};
ghost use Rattle.c_host.specs.Talk.{Talk};

use ghost_diary::Noted;
use std::marker::Model;

/// What went to C and came from it so far. Only proofs read it.
pub type Diary = ghost_diary::Diary<Entry>;

/// One talk with C, as proofs see it. It has no bytes.
#[derive(Drop)]
pub struct Entry {
    ghost talk: { Talk },
}

impl Model for Entry {
    ghost Value = { Talk };

    ghost view = { λ entry. entry.talk };

    ghost also_owns = { λ _. ftrue };
}

/// A write to the stream, a read of it, or both.
#[derive(Clone, Copy, Drop)]
pub enum Call<'a> {
    /// A record was put.
    Tell {
        /// The record.
        put: &'a [u8],
    },
    /// A record was put, and bytes were taken for an answer.
    Ask {
        /// The record.
        put: &'a [u8],
        /// The bytes that came, zeros after them.
        answer: &'a [u8],
    },
    /// Bytes of a block were taken.
    Take {
        /// How many came.
        count: usize,
        /// The block's room.
        bytes: &'a [u8],
    },
}

/// What is noted.
#[derive(Clone, Copy, Drop)]
pub struct Note<'a> {
    /// The call.
    pub call: Call<'a>,
}

impl Noted<Entry> for Note<'_> {
    ghost use Rattle.c_host.specs.Noted.{talk_of};

    ghost says = { talk_of };
}
