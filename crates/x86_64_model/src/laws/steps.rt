// Laws of the machine's steps and of lists of calls.
ghost use Rattle.x86_64_model.specs.Laws.Steps.{StepKeepsFit, StepIsHeld, RunConserves, RunKeepsFit, RunIsHeld, FlushesSuffice, RunMapsKeepWalks, RunMapsArrive, CallsSpareOthers};

/// After one step of the machine the pool fits again, with any words that are a valid hierarchy, mean the state after the step,
/// and have the frames that were there.
pub fn steps_keep_the_pool_fitting()
    ensures { StepKeepsFit }
{}

/// After one step of the machine there are words that are a valid hierarchy and mean the state, the pool fits them, and frames
/// that were neither free nor a table's are unchanged.
#[tactic(auto, using(crate::proofs::Lemmas::Machines::Laws::step_is_held))]
pub fn steps_are_held_by_words()
    ensures { StepIsHeld }
{}

/// The set of free and table frames is the same before and after any list of calls.
pub fn runs_conserve_frames()
    ensures { RunConserves }
{}

/// After any list of calls the pool fits again, with any words that are a valid hierarchy, mean the state after the calls, and
/// have the frames that were there.
pub fn runs_keep_the_pool_fitting()
    ensures { RunKeepsFit }
{}

/// If the walk arrives after some calls of a list, at a position outside the recursive window (a position is the number of an
/// address counted without the gap), and no item that the later calls record covers it, the walk still arrives at the end, at
/// the same address, with no right lost.
pub fn recorded_flushes_suffice()
    ensures { FlushesSuffice }
{}

/// An accepted map, unmap or change of a page's flags changes no answer of `translate` outside the page and the recursive window,
/// if every used parent of the page was present.
pub fn calls_spare_other_pages()
    ensures { CallsSpareOthers }
{}

/// After any list of calls there are words that are a valid hierarchy and mean the state, the pool fits them, and frames that
/// were neither free nor a table's are unchanged.
#[tactic(auto, using(crate::proofs::Lemmas::Machines::Laws::run_is_held))]
pub fn runs_are_held_by_words()
    ensures { RunIsHeld }
{}

/// If the page walk arrives before a map call of a list, it still arrives after it, whatever the call answers, at the same
/// address. It loses no right, and gains only rights that the parent flags grant.
pub fn maps_in_runs_keep_walks()
    ensures { RunMapsKeepWalks }
{}

/// After an accepted `map_to` or `identity_map` with PRESENT of a list, the page walk arrives everywhere in the page, with
/// exactly the requested rights.
pub fn maps_in_runs_arrive()
    ensures { RunMapsArrive }
{}
