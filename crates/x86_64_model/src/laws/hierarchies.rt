// Laws of words that hold path maps, and of valid hierarchies.
ghost use Rattle.x86_64_model.specs.Laws.Hierarchies.{OnePathMap, HeldIsPathsOf, PathsOfIsHeld, OneWordChanges, OthersMayChange, EmptyIsValid};

/// Words hold at most one path map from a root.
pub fn at_most_one_path_map()
    ensures { OnePathMap }
{}

/// A path map that words hold from a root is the one that is read from the words.
#[tactic(auto, using(crate::proofs::Lemmas::Hierarchies::Exists::held_is_paths_of))]
pub fn held_map_is_that_of_the_words()
    ensures { HeldIsPathsOf }
{}

/// Words hold the path map that is read from them, if each table that it leads to is in the memory.
pub fn map_of_the_words_is_held()
    ensures { PathsOfIsHeld }
{}

/// If one word of a table in a valid hierarchy is set to a word that its entry may become, the hierarchy is valid again, and its
/// path map changed at one path.
pub fn one_word_changes_one_path()
    ensures { OneWordChanges }
{}

/// A hierarchy stays valid, with the same path map, if only words outside its tables change.
pub fn other_words_may_change()
    ensures { OthersMayChange }
{}

/// A root in memory whose words are all 0 is a valid hierarchy, with no used entry.
pub fn empty_roots_are_valid()
    ensures { EmptyIsValid }
{}
