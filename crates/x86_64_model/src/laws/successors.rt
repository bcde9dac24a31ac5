// The law of successors and predecessors.
ghost use Rattle.x86_64_model.specs.Laws.Successors.{StepsAreCounted};

/// Steps through the numbers below a count compose, steps back undo steps forward and the other way round, and `steps_between`
/// counts them.
#[tactic(auto, using(crate::proofs::Lemmas::Paths::Steps::steps_are_counted))]
pub fn steps_are_counted()
    ensures { StepsAreCounted }
{}
