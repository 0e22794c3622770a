// What a host did. It exists only in proofs: a diary has no bytes, and its functions do nothing at run time.
ghost use Rattle.std.specs.Prelude.{◌≡◌, List, ℕ};
ghost use Rattle.std.specs.Borrow.{ftrue};
ghost use Rattle.mmc_story.specs.Entry as Did;

use ghost_diary::Noted;
use mmc_bus::{Blocks, Moved};
use mmc_card::{DataIn, DataOut, Lines};
use mmc_host::{Heard, HostCommand, HostState, Ios, ResponseFault};
use std::marker::Model;

/// What a host did so far. Only proofs read it.
pub type Diary = ghost_diary::Diary<Entry>;

/// One call of a host, as proofs see it. It has no bytes.
#[derive(Drop)]
pub struct Entry {
    ghost did: { Did.Entry },
}

impl Model for Entry {
    ghost Value = { Did.Entry };

    ghost view = { λ entry. entry.did };

    ghost also_owns = { λ _. ftrue };
}

/// Blocks, as proofs see them. It has no bytes.
#[derive(Drop)]
pub struct Seen {
    // their bytes
    pub blocks: ghost_diary::Seen<Bytes>,
}

/// The bytes of blocks, as proofs see them. It has none itself.
#[derive(Drop)]
pub struct Bytes {
    ghost blocks: { List (List ℕ) },
}

impl Model for Bytes {
    ghost Value = { List (List ℕ) };

    ghost view = { λ bytes. bytes.blocks };

    ghost also_owns = { λ _. ftrue };
}

// Blocks that are shown.
#[derive(Drop)]
struct Shown<'a, D> {
    blocks: &'a D,
}

impl<D: Blocks> Noted<Bytes> for Shown<'_, D> {
    ghost says = { λ shown. D.blocks shown.blocks.now };
}

impl Seen {
    /// These blocks.
    #[inline(always)]
    pub fn of<D: Blocks>(blocks: &D) -> Seen
        ensures { result.blocks ≡ D.blocks blocks.now }
    {
        Seen {
            blocks: ghost_diary::Seen::of(&Shown { blocks }),
        }
    }
}

/// What a host was told so far, as proofs see it. It has no bytes.
#[derive(Drop)]
pub struct SeenState {
    // what it comes to
    pub state: ghost_diary::Seen<HostState>,
}

/// What a host is told, or what it says, as far as it bears on what it can be told next.
#[derive(Clone, Copy, Drop)]
pub enum HostStep {
    /// Its lines and clock were set.
    Set(Ios),
    /// A command was sent, and answered or not.
    Sent {
        /// The command.
        command: HostCommand,
        /// Whether it was answered as it was wanted.
        is_answered: bool,
    },
    /// A block passed, a good one or not.
    Passed {
        /// Whether it was good.
        is_good: bool,
    },
    /// Blocks were read with their command.
    Read(Moved<DataIn>),
    /// Blocks were written with their command.
    Written(Moved<DataOut>),
    /// It waited so many microseconds.
    Paused(u32),
}

// A step from a state.
#[derive(Drop)]
struct Stepped<'a> {
    state: &'a SeenState,
    step: &'a HostStep,
}

impl Noted<HostState> for Stepped<'_> {
    ghost use Rattle.mmc_story.specs.Steps.{after};

    ghost says = { λ stepped. after stepped.step.now stepped.state.now.state };
}

impl SeenState {
    ghost use Rattle.mmc_story.specs.Steps.{after};

    /// What this state says.
    #[inline(always)]
    pub fn of(state: &HostState) -> SeenState
        ensures { result.state ≡ state.now }
    {
        SeenState {
            state: ghost_diary::Seen::of(state),
        }
    }

    /// What it comes to after a step.
    #[inline(always)]
    pub fn after(&self, step: &HostStep) -> SeenState
        ensures { result.state ≡ after step.now self.now.state }
    {
        SeenState {
            state: ghost_diary::Seen::of(&Stepped { state: self, step }),
        }
    }
}

/// A call of a host, with its answer.
#[derive(Clone, Copy, Drop)]
pub enum Call<'a> {
    /// A command was sent, and this was heard.
    Send {
        /// The command.
        command: HostCommand,
        /// What was heard.
        heard: Result<Heard, ResponseFault>,
    },
    /// A block was asked for.
    ReadBlock {
        /// The length that was asked for, in bytes.
        length: usize,
        /// What came.
        got: DataIn,
        /// Its bytes, where a good one came.
        block: &'a [u8],
    },
    /// A block was offered.
    WriteBlock {
        /// The block.
        block: &'a [u8; 512],
        /// What the card answered.
        got: DataOut,
    },
    /// The card was looked at.
    Look {
        /// Whether it was busy.
        is_busy: bool,
    },
    /// A command was sent with places for the blocks after it.
    ReadWith {
        /// The command.
        command: HostCommand,
        /// What was heard.
        heard: Result<Heard, ResponseFault>,
        /// What was moved.
        moved: Moved<DataIn>,
        /// What the places hold.
        places: &'a Seen,
    },
    /// A command was sent with blocks to go after it.
    WriteWith {
        /// The command.
        command: HostCommand,
        /// What was heard.
        heard: Result<Heard, ResponseFault>,
        /// The blocks, whether they went or not.
        offered: &'a Seen,
        /// What was moved.
        moved: Moved<DataOut>,
    },
    /// It was asked for what no controller can do.
    Misused,
}

/// What is noted.
#[derive(Clone, Copy, Drop)]
pub struct Note<'a> {
    /// What the host had been told before.
    pub told: &'a SeenState,
    /// The most lines and the fastest timing that it can.
    pub limits: Lines,
    /// The call.
    pub call: Call<'a>,
}

impl Noted<Entry> for Note<'_> {
    ghost use Rattle.mmc_story.specs.Noted.{entry_of};

    ghost says = { entry_of };
}
