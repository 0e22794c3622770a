// What was done for C so far, which only proofs see.
ghost use Rattle.std.specs.Prelude.{◌≡◌, false};
ghost use Rattle.mmc_story.specs.Story.{IsTrueOf};
ghost use Rattle.kelifandro.specs.Done.{done_of, nothing_done};

use mmc_card::{Lines, Timing, Width};
use mmc_host::HostState;
use mmc_story::{Call, HasStory, Note, SeenState};

/// What was done so far. It has no bytes.
#[derive(Drop)]
pub struct Did {
    /// The calls of functions.
    pub calls: mmc_story::Diary,
    /// The accesses to registers.
    pub accesses: sdhci_story::Diary,
}

impl Did {
    /// Nothing so far.
    pub fn new() -> Did
        ensures { done_of result ≡ nothing_done }
    {
        Did {
            calls: mmc_story::Diary::new(),
            accesses: sdhci_story::Diary::new(),
        }
    }
}

/// The calls of functions that are used no more. Of them no story is true where something was asked for that no controller can do.
pub fn ended<S: HasStory>(calls: &mmc_story::Diary, is_misused: bool) -> mmc_story::Diary
    ensures { IsTrueOf S.story result.past → (is_misused ≡ false) × (result.past ≡ calls.now.past) }
{
    if !is_misused {
        return calls.again();
    }
    calls.then(&Note {
        told: &SeenState::of(&HostState::new()),
        limits: Lines {
            width: Width::One,
            timing: Timing::Default,
        },
        call: Call::Misused,
    })
}
