//! The device over a driver of which nothing is proved: what each call promises where controller and card conform.
//!
//! The functions are generic over a story, so what they promise holds of every story: where one is true of all that the driver
//! did, the device is the sector machine over the card of that story.
#![tactic(auto)]

ghost use Rattle.std.specs.Prelude.{◌+◌, ◌≡◌, ◌≤◌, [], IfErr, IfOk, OnErr, false};
ghost use Rattle.mmc_card.specs.Profile.{InProfile};
ghost use Rattle.mmc_block.specs.Device.{AgreesCounted, Comes, IsOpened};
ghost use Rattle.mmc_block.specs.Execution.{Counted, CountedSteps, submitted_reply};
ghost use Rattle.mmc_block.specs.Execution.Event.{Submit, Turn};
ghost use Rattle.mmc_block.specs.Execution.Reply.{Answers as Gives};
ghost use Rattle.mmc_story.specs.Story.{IsTrueOf};

use mmc_block::{BlockDev, Bus, Completions, OpenFault, Refused, Request, Ticket};
use mmc_host::{Host, HostBus};
use mmc_story::{HasStory, StoryBus, StoryHost};
use std::alloc::Global;

/// Opens the card behind a driver. Where the story is true of all that the driver did, the device agrees with the machine of
/// that card.
///
/// # Errors
/// What `BlockDev::open` says, with the bus.
pub fn open<H: Host, S: HasStory>(
    alloc: Global,
    driver: H,
) -> Result<BlockDev<StoryBus<H, S>>, (StoryBus<H, S>, OpenFault)>
    requires { (H.view driver).is_kept ≡ false }
    ensures machine { IfOk result (λ d. IsTrueOf S.story d.bus.host.diary.past → d.bus.is_misused ≡ false
        → (c : Counted) → IsOpened (⟦<StoryBus<H, S> as Bus>⟧.view d.bus) c → AgreesCounted ⟦<StoryBus<H, S> as Bus>⟧.view d c) }
    ensures refused { IfErr result (λ e. IsTrueOf S.story e.0.host.diary.past → e.0.is_misused ≡ false
        → InProfile (S.story.outcome []).card.made
        → (S.story.outcome []).faults + 3 ≤ (S.story.outcome e.0.host.diary.past).faults) }
{
    BlockDev::open(alloc, HostBus::new(StoryHost::new(driver)))
}

/// Accepts a request, or hands it back: a step of the machine.
///
/// # Errors
/// What `BlockDev::submit` says, with the request.
pub fn submit<H: Host, S: HasStory>(
    alloc: Global,
    device: &mut BlockDev<StoryBus<H, S>>,
    client: u32,
    request: Request,
) -> Result<Ticket, (Request, Refused)>
    ensures machine { Comes ⟦<StoryBus<H, S> as Bus>⟧.view device.old
        (λ (c n : Counted). CountedSteps device.old.info c (Submit client request) (submitted_reply result) n) device.new }
    ensures refused { OnErr result (device.new ≡ device.old) }
{
    device.submit(alloc, client, request)
}

/// A turn. Where the story is true of all that the driver did, this turn too, it is a turn of the machine.
pub fn turn<H: Host, S: HasStory>(device: &mut BlockDev<StoryBus<H, S>>) -> Completions
    ensures machine { IsTrueOf S.story device.new.bus.host.diary.past → device.new.bus.is_misused ≡ false
        → Comes ⟦<StoryBus<H, S> as Bus>⟧.view device.old
        (λ (c n : Counted). CountedSteps device.old.info c Turn (Gives result.items) n) device.new }
{
    device.turn()
}

#[cfg(test)]
mod tests;
