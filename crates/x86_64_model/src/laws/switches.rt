// Laws of a processor that caches while it switches between address spaces.
ghost use Rattle.x86_64_model.specs.Laws.Switches.{SwitchesAreFlushed, StaleSwitchesAreOld, LetGoIsUnreachedHere, CurrentIsASpace, EachIsFlushedHere, AllSeeTheSame};
ghost use Rattle.x86_64_model.specs.Laws.SwitchedSpaces.{SpacesAreHeld, SpacesMayStart, NewSpacesMayBegin, CallsMaySwitch, NewSpacesMaySwitch, GivenUpMaySwitch};
ghost use Rattle.x86_64_model.specs.Laws.Globals.{CallsKeepGlobals};

/// With several address spaces, loads of CR3, PCIDs and global pages, what has to be flushed after each call is enough: each
/// access goes with the page walk from the current root, with no right more, at every moment, also during calls, if nothing
/// that is due for the items that serve concerns its address.
pub fn flushes_are_enough_with_switches()
    ensures { SwitchesAreFlushed }
{}

/// While something is due for the items that serve, each access goes with the page walk from the current root, or to a page
/// that may be cached still. Such a page is due, in the frame that it had when a call let it go, or all items on its path or
/// the recursive window in which it lies are due.
pub fn stale_accesses_go_where_pages_were_with_switches()
    ensures { StaleSwitchesAreOld }
{}

/// No access in a space reaches an address that no entry of it maps, if no page that had the address is due for the items that
/// serve, and the recursive window isn't due for them either.
pub fn frames_let_go_are_not_reached_with_switches()
    ensures { LetGoIsUnreachedHere }
{}

/// The current root is always that of a space, and its words hold the space's path map.
pub fn current_roots_are_spaces()
    ensures { CurrentIsASpace }
{}

/// If several processors switch between the same spaces, and each is flushed for itself, each access of any one goes with the
/// page walk from its current root, with no right more, if nothing that is due for its items concerns the address.
pub fn switching_processors_are_flushed_each()
    ensures { EachIsFlushedHere }
{}

/// Processors that start with the same spaces, free frames and words see the same ones always.
pub fn switching_processors_see_the_same()
    ensures { AllSeeTheSame }
{}

/// Address spaces of a memory, between which a processor may switch, are spaces whose path maps the words hold.
pub fn address_spaces_are_held()
    ensures { SpacesAreHeld }
{}

/// A processor may start in any of the address spaces of a memory between which it may switch, with any PCID.
pub fn processors_may_start_in_address_spaces()
    ensures { SpacesMayStart }
{}

/// One more address space of a memory may begin while a processor switches, if no PCID holds its root.
pub fn new_address_spaces_may_begin()
    ensures { NewSpacesMayBegin }
{}

/// A call on one of the address spaces of a memory, which conserves frames and keeps the root's entries at shared indices, may
/// happen while a processor switches between them.
pub fn calls_on_address_spaces_may_happen()
    ensures { CallsMaySwitch }
{}

/// A frame of the pool may become the root of one more address space while a processor switches, if no table that was in it is due
/// for a PCID, and none holds this root.
pub fn new_roots_may_happen()
    ensures { NewSpacesMaySwitch }
{}

/// An address space may end while a processor switches, and its root go back to the pool, if no PCID holds the root and no
/// other space has it.
pub fn given_up_roots_may_happen()
    ensures { GivenUpMaySwitch }
{}

/// If only entries of pages below shared indices have GLOBAL, this stays so after a call whose flags and parent flags have it
/// only for pages there, on a machine that adds no GLOBAL to entries of new tables.
pub fn calls_keep_globals_below_shared_indices()
    ensures { CallsKeepGlobals }
{}
