// Laws of the page walk and of `translate`.
ghost use Rattle.x86_64_model.specs.Laws.Walks.{FourWrittenOut, FiveWrittenOut, TranslateWrittenOut, TranslateFiveWrittenOut, TranslateAgrees, WalksArriveBySteps, WindowsReach};

/// The page walk of four levels equals the one that is written out word by word.
#[tactic(auto, using(crate::proofs::Lemmas::Walks::WrittenOut::walk_is))]
pub fn four_levels_written_out()
    ensures { FourWrittenOut }
{}

/// The page walk of five levels equals the one that reads the root's word and goes on with the walk of four levels.
#[tactic(auto, using(crate::proofs::Lemmas::Walks::WrittenOut::walk_5_is))]
pub fn five_levels_written_out()
    ensures { FiveWrittenOut }
{}

/// The page walk arrives by the words that it reads: in the page that the last of them maps, with the rights that all of them grant.
#[tactic(auto, using(crate::proofs::Lemmas::Walks::Steps::walks_arrive_by_steps))]
pub fn walks_arrive_by_their_steps()
    ensures { WalksArriveBySteps }
{}

/// The answer of `translate` with four levels equals the one that is written out entry by entry.
#[tactic(auto, using(crate::proofs::Lemmas::Walks::WrittenOut::translate_is))]
pub fn translate_written_out()
    ensures { TranslateWrittenOut }
{}

/// The answer of `translate` with five levels equals the one that reads the root's entry and goes on with that of four levels.
#[tactic(auto, using(crate::proofs::Lemmas::Walks::WrittenOut::translate_5_is))]
pub fn translate_of_five_levels_written_out()
    ensures { TranslateFiveWrittenOut }
{}

/// In every valid hierarchy and at every address, `translate` names a present mapping if and only if the walk arrives, and at the
/// same address.
#[tactic(auto, using(crate::proofs::Lemmas::Walks::Agrees::translate_agrees))]
pub fn translate_is_the_walk()
    ensures { TranslateAgrees }
{}

/// A page walk whose path is the recursive index, repeated, and then other indices, arrives at the frame to which the words
/// lead along these indices, whatever all other words hold. So the window of the root and of each table shows exactly that
/// table.
#[tactic(auto, using(crate::proofs::Lemmas::Walks::Windows::windows_reach))]
pub fn windows_reach_their_tables()
    ensures { WindowsReach }
{}
