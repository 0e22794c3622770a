// The service of a device: which requests are served, and how far that has come. A turn of a run advances the run where it stands,
// and what begins, ends, selects or settles moves the phase, which is small; the requests stay where they are, since each move of a
// list copies all its places.
//
// 1. The requests of a group are served by one run. An attempt at it settles the card where something had failed, selects
//    the partition where another one is selected, and makes the run; each of these takes a turn of its own, and so does each
//    exchange of the run.
// 2. A group of several has two attempts. Then each of its requests is served alone, by ticket, before anything else.
// 3. A request that is served alone has four attempts. Then it fails, with the cause of the last one, and nobody else.
ghost use Rattle.std.specs.Prelude.{◌≡◌, []};
ghost use Rattle.mmc_block.specs.Service.{info_now_at};
ghost use Rattle.mmc_block.specs.Service.{session_of};

use arrayvec::ArrayVec;
use mmc_erase::EraseRun;
use mmc_queue::{Group, Members};
use mmc_switch::{Info, Session, Stands};
use mmc_transfer::Run;
use std::alloc::Global;

/// What serves a group.
#[derive(Debug, Drop)]
pub enum Work {
    /// A run that reads or writes blocks.
    Blocks(Run),
    /// A run that erases or trims.
    Erase(EraseRun),
}

impl Work {
    /// The session that it was begun with, once it is over.
    pub fn into_session(self) -> Session
        ensures { result ≡ session_of self }
    {
        match self {
            Work::Blocks(run) => run.into_session(),
            Work::Erase(run) => run.into_session(),
        }
    }
}

/// How far an attempt has come.
#[derive(Debug, Drop)]
pub enum Stage {
    /// The run is still to begin.
    At(Stands),
    /// The run is under way.
    Running(Work),
}

impl Stage {
    /// What is known of the card.
    pub fn info(&self) -> &Info
        ensures { result.now ≡ info_now_at self.now }
    {
        match self {
            Stage::At(stands) => stands.info(),
            Stage::Running(Work::Blocks(run)) => run.info(),
            Stage::Running(Work::Erase(run)) => run.info(),
        }
    }
}

/// An attempt at requests in service.
#[derive(Drop)]
pub struct Attempt {
    /// Those that are served together.
    pub group: Group,
    /// Those that are to be served alone after them, by ticket.
    pub others: Members,
    /// How many attempts at the group have failed.
    pub failed: u8,
}

impl Attempt {
    /// No requests.
    pub fn none(alloc: Global) -> Attempt
        ensures members { result.group.members.items ≡ [] }
        ensures others { result.others.items ≡ [] }
    {
        Attempt {
            group: Group::none(alloc),
            others: ArrayVec::new_in(alloc),
            failed: 0,
        }
    }
}

/// What the device is at.
#[derive(Debug, Drop)]
pub enum Phase {
    /// Nothing is in service, and the attempt has no requests; after a step, whose attempt is over, those that it was made for.
    Idle(Stands),
    /// The attempt is in service.
    Serving(Stage),
    /// It is in the hands of a call.
    Taken,
}
