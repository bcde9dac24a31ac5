// Laws of address spaces: hierarchies that share the tables below some indices of the highest level.
ghost use Rattle.x86_64_model.specs.Laws.Spaces.{SharedEntriesAreTheSame, SharedTablesStay, SharedHalvesStay, SharedWalksAreTheSame, WalksStay, CallsKeepBelow, CallsKeepRootEntries, PinnedEntriesStay, OneIsASpace, SpacesStay, SpacesArePaired, PairedSpacesStay, NewSpaces, SpacesAreGivenUp, NoFrameIsLost, SyncedSpaces, FewerAreShared};

/// Two hierarchies that share have the same entries below the shared indices, if a pool fits the first.
pub fn shared_entries_are_the_same()
    ensures { SharedEntriesAreTheSame }
{}

/// After calls on one hierarchy that left the root's entries at the shared indices, a second one is valid. Below these indices it
/// has what the first one has now, elsewhere what it had. The pool fits it if it did before.
pub fn shared_tables_stay()
    ensures { SharedTablesStay }
{}

/// After calls on one hierarchy that changed nothing below the shared indices, a second one is valid with the same path map.
pub fn shared_halves_stay()
    ensures { SharedHalvesStay }
{}

/// Two hierarchies that share have the same page walks below the shared indices, outside the recursive windows. Elsewhere the
/// walks of one stay after calls on the other that left the root's entries at these indices.
pub fn shared_walks_stay()
    ensures same { SharedWalksAreTheSame }
    ensures elsewhere { WalksStay }
{}

/// Calls that avoid the shared indices change nothing below them.
pub fn calls_keep_what_they_avoid()
    ensures { CallsKeepBelow }
{}

/// Calls that add no flags to the root's entries at the shared indices, and clean up elsewhere, leave these entries.
pub fn calls_keep_root_entries()
    ensures { CallsKeepRootEntries }
{}

/// A clean up keeps the root's entry at an index if a page, or an entry without PRESENT, is used below it.
pub fn pinned_entries_stay()
    ensures { PinnedEntriesStay }
{}

/// A hierarchy that a pool fits is an address space, if there is no other. So the premise that there are address spaces can be
/// met.
#[tactic(auto, using(crate::proofs::Lemmas::Spaces::Many::one_is_a_space))]
pub fn one_hierarchy_is_a_space()
    ensures { OneIsASpace }
{}

/// After calls on one address space of many that left the root's entries at the shared indices, all are address spaces again.
pub fn spaces_stay()
    ensures { SpacesStay }
{}

/// A frame of the pool that gets the entries of a root at the shared indices, and 0 elsewhere but for a self-entry, is the root
/// of one more address space.
pub fn new_spaces_share()
    ensures { NewSpaces }
{}

/// If an address space is given up, its root may go back to the pool. If it had no tables of its own below the root, no frame is
/// lost.
pub fn spaces_are_given_up()
    ensures given_up { SpacesAreGivenUp }
    ensures none_lost { NoFrameIsLost }
{}

/// If all roots get the entries of one of them at more indices, the address spaces share these too. Before, indices at which all
/// roots are unused need not count as shared.
pub fn synced_spaces_share_more()
    ensures fewer { FewerAreShared }
    ensures more { SyncedSpaces }
{}

/// Address spaces that all share the same indices share them in pairs.
pub fn address_spaces_are_paired()
    ensures { SpacesArePaired }
{}

/// Address spaces that share in pairs stay so, after calls on one that left the root's entries at the indices that it shares
/// with any.
pub fn paired_spaces_stay()
    ensures { PairedSpacesStay }
{}
