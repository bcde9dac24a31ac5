// Laws that join the rules of calls, which mappers' contracts state, with the steps of the machine.
ghost use Rattle.x86_64_model.specs.Laws.Rules.{MapsAreSteps, ChangesAreSteps, CleanUpsAreSteps};

/// A map that may be made is a step of the machine: the step leads to what the map leaves, with the map's answer.
pub fn maps_are_steps()
    ensures { MapsAreSteps }
{}

/// A change of one entry that may be made is a step of the machine, with any pool: the step leads to what the change leaves, with its
/// answer.
pub fn changes_are_steps()
    ensures { ChangesAreSteps }
{}

/// A clean up is a step of the machine, with a pool that holds the same frames.
pub fn clean_ups_are_steps()
    ensures { CleanUpsAreSteps }
{}
