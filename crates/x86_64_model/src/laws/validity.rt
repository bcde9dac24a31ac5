// Laws of validity as a condition on the list of tables, which a test can check.
ghost use Rattle.x86_64_model.specs.Laws.Validity.{ValidForItsPaths, SoundIsValid, SoundIsFitting, MemoriesHaveSpots, MarksTell, MappingsShowFrames};

/// Some path map makes the words a valid hierarchy from a root if and only if the one that is read from the words does.
pub fn words_are_valid_for_their_map()
    ensures { ValidForItsPaths }
{}

/// The words are a valid hierarchy from a root if and only if the list of its tables is sound: each is in the memory and
/// visited once, only the root may be in frame 0, and no word above level three is huge.
pub fn sound_tables_are_valid()
    ensures { SoundIsValid }
{}

/// A pool that serves the frames below a limit fits a hierarchy if and only if the list of its tables and of the pool's frames
/// is sound.
pub fn sound_tables_and_pools_fit()
    ensures { SoundIsFitting }
{}

/// The tables of a memory have distinct spots, their numbers in the order of places (the indices of tables in memory).
#[tactic(auto, using(crate::proofs::Lemmas::Tables::Keyed::memories_have_spots))]
pub fn tables_have_spots_of_their_own()
    ensures { MemoriesHaveSpots }
{}

/// From clear marks, the tables from a root and the frames of a pool can all be marked if and only if they are sound.
#[tactic(auto, using(crate::proofs::Lemmas::Tables::Checked::marks_tell))]
pub fn marks_tell_sound_tables()
    ensures { MarksTell }
{}

/// With a frame mapping, only frames have tables in a memory.
#[tactic(auto, using(crate::proofs::Lemmas::Hierarchies::Memories::mappings_show_frames))]
pub fn mappings_show_frames_alone()
    ensures { MappingsShowFrames }
{}
