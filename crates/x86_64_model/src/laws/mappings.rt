// Laws of the mappings below a root, and of their regions. A position is the number of an address counted without the gap.
ghost use Rattle.x86_64_model.specs.Laws.Mappings.{MappingsAreApart, WalksArriveInMappings, WordsOfWalksSayMappings};
ghost use Rattle.x86_64_model.specs.Laws.Mappings.{RegionsAreApart, RegionsLieInHalves, RegionsHoldMappings};
ghost use Rattle.x86_64_model.specs.Laws.Mappings.{MappingsAreLeaves, TranslateNamesMappings};

/// The mappings below a root are listed by ascending start, and no position is in two of them.
#[tactic(auto, using(crate::proofs::Lemmas::Mappings::Positions::mappings_are_apart))]
pub fn mappings_are_apart()
    ensures { MappingsAreApart }
{}

/// The page walk at a position arrives if and only if a mapping has the position, and then at the mapping's frame plus the offset,
/// with its rights to write and of user mode.
#[tactic(auto, using(crate::proofs::Lemmas::Mappings::Positions::walks_arrive))]
pub fn walks_arrive_in_mappings()
    ensures { WalksArriveInMappings }
{}

/// The words of the page walk to a position of a mapping are those of its leaf, and so determine its frame, its flags and all its
/// rights.
#[tactic(auto, using(crate::proofs::Lemmas::Mappings::Said::words_say))]
pub fn words_of_walks_say_mappings()
    ensures { WordsOfWalksSayMappings }
{}

/// The regions below a root are listed in ascending order, and no position is in two of them. If one starts just after another
/// ends, that is the middle of the address space, or their rights differ.
#[tactic(auto, using(crate::proofs::Lemmas::Mappings::RegionLaws::regions_apart, crate::proofs::Lemmas::Mappings::Placed::mappings_placed, crate::proofs::Lemmas::Mappings::Positions::mappings_are_apart))]
pub fn regions_are_apart()
    ensures { RegionsAreApart }
{}

/// Each region below a root lies in one half of the address space.
#[tactic(auto, using(crate::proofs::Lemmas::Mappings::RegionLaws::regions_in_halves, crate::proofs::Lemmas::Mappings::Placed::mappings_placed))]
pub fn regions_lie_in_halves()
    ensures { RegionsLieInHalves }
{}

/// A region below a root has a position if and only if a mapping has it, and both have the same rights.
#[tactic(auto, using(crate::proofs::Lemmas::Mappings::RegionLaws::regions_hold, crate::proofs::Lemmas::Mappings::Placed::mappings_placed))]
pub fn regions_hold_mappings()
    ensures { RegionsHoldMappings }
{}

/// In a valid hierarchy, outside the recursive window, what a path maps is what the path map's entries along it say.
#[tactic(auto, using(crate::proofs::Lemmas::Mappings::EntriesAlong::mappings_are_leaves))]
pub fn mappings_are_leaves()
    ensures { MappingsAreLeaves }
{}

/// In a valid hierarchy `translate` names the mapping of each position that has one, also in the recursive window.
#[tactic(auto, using(crate::proofs::Lemmas::Mappings::Translations::translate_names, crate::proofs::Lemmas::Mappings::Said::words_say))]
pub fn translate_names_mappings()
    ensures { TranslateNamesMappings }
{}
