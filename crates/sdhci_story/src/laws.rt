//! What the assumption amounts to. The function does nothing; its contract is the law, which a caller then knows.
ghost use Rattle.sdhci_story.specs.Conforming.{StepsHaveAStory, StoriesTellSteps};

/// A story can be told of accesses exactly where each is a step that the definition of a controller allows: to such steps, however
/// many, there is a story whose controller they lead to.
pub fn to_have_a_story_is_to_conform()
    ensures steps { StoriesTellSteps }
    ensures story { StepsHaveAStory }
{}
