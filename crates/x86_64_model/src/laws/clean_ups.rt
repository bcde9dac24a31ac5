// Laws of clean ups.
ghost use Rattle.x86_64_model.specs.Laws.CleanUps.{CleanUpConserves, CleanUpKeepsAnswers, CleanUpsOnce};

/// A clean up conserves free and table frames: their set stays the same, and if each had one use before, it has one use after.
pub fn clean_ups_conserve_frames()
    ensures { CleanUpConserves }
{}

/// A clean up changes no answer of `translate` outside the recursive window.
#[tactic(auto, using(crate::proofs::Lemmas::Machines::Laws::clean_up_keeps_answers))]
pub fn clean_ups_keep_answers()
    ensures { CleanUpKeepsAnswers }
{}

/// A second clean up of the same addresses changes nothing and frees nothing.
#[tactic(auto, using(crate::proofs::Lemmas::Machines::Laws::clean_ups_once))]
pub fn clean_ups_twice_are_once()
    ensures { CleanUpsOnce }
{}
