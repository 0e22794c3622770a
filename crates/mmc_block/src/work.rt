// How much work is left, as a bound on the turns.
//
// 1. A run takes a turn for each of its exchanges, and for a group it has 1,024 blocks at most; an attempt also takes a settle and a
//    select.
// 2. After this attempt come those at the group that are left, and then, for a group of several, four at each request; and
//    four at each of the others.
// 3. A request that waits has at most one part in two attempts of a group and four of its own: 131,072 turns are enough.
ghost use Rattle.std.specs.Prelude.{◌*◌, ◌+◌, ◌-◌, ◌<◌, ◌≡◌, ◌≤◌, ◌↔◌, [], length};
ghost use Rattle.mmc_queue.specs.declared.extent.TheConstants.{MAX_GROUP};
ghost use Rattle.mmc_block.specs.Service.{in_service_of, service_of, tries};
ghost use Rattle.mmc_block.specs.Work.{IsCountable, IsShort, IsShortAt, attempts_left, is_on, run_left, service_left, split, stage_left};

use crate::conclude::tries;
use crate::device::BlockDev;
use crate::service::{Attempt, Phase, Stage, Work};
use mmc_bus::{Bus, Part};
use mmc_queue::{MAX_COUNT, Members};
use mmc_requests::ATTEMPTS;
use mmc_switch::Stands;
use mmc_transfer::{EXCHANGES_BESIDE_BLOCKS, EXCHANGES_OF_A_BLOCK};

/// The most turns of a run for a group.
pub const TURNS_OF_A_RUN: u64 = EXCHANGES_OF_A_BLOCK * MAX_COUNT + EXCHANGES_BESIDE_BLOCKS;

/// The most turns of an attempt.
pub const TURNS_OF_AN_ATTEMPT: u64 = TURNS_OF_A_RUN + 2;

/// The most turns for each request that has no answer yet.
pub const TURNS_OF_A_REQUEST: u64 = 131_072;

// Whether a partition is selected.
fn is_on(selected: Option<Part>, part: Part) -> bool
    ensures { result ≡ is_on selected part }
{
    selected == Some(part)
}

// What is left of a run.
fn run_left(work: &Work) -> u64
    requires { IsShort work.now }
    ensures left { result ≡ run_left work.now }
    ensures some { 0 < result }
    ensures bounded { result ≤ TURNS_OF_A_RUN }
{
    match work {
        Work::Blocks(run) => run.exchanges_left(),
        Work::Erase(run) => run.exchanges_left(),
    }
}

// What is left of an attempt at a group of this partition.
fn stage_left(stage: &Stage, part: Part) -> u64
    requires { IsShortAt stage.now }
    ensures left { result ≡ stage_left stage.now part }
    ensures some { 0 < result }
    ensures bounded { result ≤ TURNS_OF_AN_ATTEMPT }
{
    match stage {
        Stage::At(Stands::Broken(_)) => TURNS_OF_A_RUN + 2,
        Stage::At(Stands::Ready(session)) if is_on(session.selected(), part) => TURNS_OF_A_RUN,
        Stage::At(Stands::Ready(_)) => TURNS_OF_A_RUN + 1,
        Stage::Running(work) => run_left(work),
    }
}

// The attempts at each of several alone, once those at them together have failed.
fn split(members: &Members) -> u64
    ensures { result ≡ split members.now.items }
{
    if members.len() > 1 {
        ATTEMPTS * members.len() as u64
    } else {
        0
    }
}

// The attempts after this one.
#[tactic(auto, using(crate::proofs::WorkLemmas::attempts_most))]
fn attempts_left(attempt: &Attempt) -> u64
    requires some { 0 < length attempt.now.group.members.items }
    requires fits { attempt.now.failed < tries attempt.now.group.members.items }
    requires few { length attempt.now.group.members.items + length attempt.now.others.items ≤ MAX_GROUP }
    ensures left { result ≡ attempts_left attempt.now }
    ensures bounded { result + 1 ≤ 6 * (length attempt.now.group.members.items + length attempt.now.others.items) }
{
    let again = (tries(&attempt.group.members) - (attempt.failed + 1)) as u64;
    again + split(&attempt.group.members) + ATTEMPTS * attempt.others.len() as u64
}

// The turns for those in service.
fn service_left(phase: &Phase, attempt: &Attempt) -> u64
    requires { IsCountable (service_of phase.now attempt.now) }
    ensures left { result ≡ service_left (service_of phase.now attempt.now) }
    ensures none { (result ≡ 0) ↔ (in_service_of (service_of phase.now attempt.now) ≡ []) }
    ensures bounded { result ≤ TURNS_OF_A_REQUEST * length (in_service_of (service_of phase.now attempt.now)) }
{
    match phase {
        Phase::Idle(_) | Phase::Taken => 0,
        Phase::Serving(stage) => {
            stage_left(stage, attempt.group.extent.part)
                + TURNS_OF_AN_ATTEMPT * attempts_left(attempt)
        }
    }
}

impl<B: Bus> BlockDev<B> {
    ghost use Rattle.mmc_block.specs.Device.{unanswered_of, work_of};

    /// A bound on the turns until no request is without an answer. It is 0 exactly where none is, and each turn lowers it.
    #[tactic(auto, unfolding(crate::specs::Device::work_of), using(crate::proofs::WorkLemmas::countable))]
    pub fn work_left(&self) -> u64
        ensures work { result ≡ work_of self.now }
        ensures none { (result ≡ 0) ↔ (unanswered_of self.now ≡ 0) }
        ensures bounded { result ≤ TURNS_OF_A_REQUEST * unanswered_of self.now }
    {
        TURNS_OF_A_REQUEST * self.queue.len() as u64 + service_left(&self.phase, &self.attempt)
    }
}
