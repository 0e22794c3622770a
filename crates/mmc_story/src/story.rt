ghost use Rattle.mmc_story.specs.Story.{Story};
ghost use Rattle.mmc_story.specs.Untrue.{never_true};

use std::marker::Brand;

/// What is assumed of a host controller and its card: a story. Only proofs read it.
///
/// Code that is generic over it is proved for every story, so whatever became of the card: no story has to be given.
pub trait HasStory {
    // What became of the card.
    ghost story: { Story };
}

// A program that runs the generic code names no story: it passes `Brand`, at which a proof may pick any.
impl HasStory for Brand {
    ghost story = { never_true };
}
