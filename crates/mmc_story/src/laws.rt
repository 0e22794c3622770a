//! What the assumption amounts to. The function does nothing; its contract is the law, which a caller then knows.
ghost use Rattle.mmc_story.specs.Conforming.{StepsGoOn, StepsHaveAStory, StoriesTellSteps};

/// A story can be true of what a host did exactly where each entry is a step that the card relation allows, or one fault of its
/// list: a true story tells of such steps, and to such steps, however many, there is a story that is true of them. There is
/// always a next one, whatever is sent.
pub fn to_have_a_story_is_to_conform()
    ensures steps { StoriesTellSteps }
    ensures story { StepsHaveAStory }
    ensures next { StepsGoOn }
{}
