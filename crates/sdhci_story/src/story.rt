ghost use Rattle.sdhci_story.specs.RegisterStory.{RegisterStory, never_true};

use std::marker::Brand;

/// What is assumed of a controller and its card: a story of accesses. Only proofs read it.
pub trait HasRegisterStory {
    // What the controller was after each access.
    ghost story: { RegisterStory };
}

// A program that runs the generic code names no story: it passes `Brand`, at which a proof may pick any.
impl HasRegisterStory for Brand {
    ghost story = { never_true };
}
