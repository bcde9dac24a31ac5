//! Laws of calls and replies, as public functions with empty bodies. The machine is the abstract mapper of the
//! specification, which goes from state to state with each call.
ghost use Rattle.std.specs.Prelude.{◌≡◌, ◌<◌, ◌≤◌, ℕ, [], ◌∷◌};
ghost use Rattle.x86_64_tables.specs.FlushRecorder.{flush_range, page_items, range_items};
ghost use Rattle.x86_64.specs.CallEvents.{RunCallsAreEvents};
ghost use Rattle.x86_64.specs.EmptyRoots.{EmptyRootsAreSpaces, EmptyRootsShareNothing, TwoEmptyRoots};
ghost use Rattle.x86_64.specs.EveryWord.{EveryWordIsDecided};
ghost use Rattle.x86_64.specs.FlushesDue.{FlushesSettle, FlushesAreLeast};
ghost use Rattle.x86_64.specs.OneEntry.{OneEntryDecides};
ghost use Rattle.x86_64.specs.PlacesStay.{PlacesStay, OffsetsFitStill};
ghost use Rattle.x86_64.specs.Processors.{ArisesFirst, ArisesByCaching, ArisesByCalls, ArisesByFlushes, ArisesByFlushedCalls, FlushedAccessesGo};
ghost use Rattle.x86_64.specs.RangeFlushes.{RangeFlushesSuffice};
ghost use Rattle.x86_64.specs.SeveralProcessors.{EachIsFlushed, ProcessorsSeeTheSame};
ghost use Rattle.x86_64.specs.SwitchingProcessors.{ReachedFirst, ReachedByEvents, ReachedByCalls, ReachedByFlushes, ReachedByFlushedCalls, ReachedAccessesGo};
ghost use Rattle.x86_64.specs.ToldReplies.{RepliesTell};

use x86_64_tables::tokens::{FlushItem, MOST_PAGE_ITEMS};

/// A reply determines the machine's reply to the call, for any number of levels, except for the frame in the
/// machine's reply to a map or to a change of flags.
pub fn replies_lose_nothing()
    ensures { RepliesTell }
{}

/// After any list of calls, a memory has the same places as before (a place is the index of a table in memory). So an
/// offset that fitted it still does. This follows from what [`run`](crate::run) ensures in its clause `keeps`.
pub fn places_stay()
    ensures places { PlacesStay }
    ensures offsets { OffsetsFitStill }
{}

/// A frame outside address spaces and their pool, whose words are all 0, is the root of one more, if they share nothing.
/// It maps nothing. So there are memories with several hierarchies that one pool fits.
pub fn empty_roots_are_spaces()
    ensures share { EmptyRootsShareNothing }
    ensures are_spaces { EmptyRootsAreSpaces }
    ensures there_are { TwoEmptyRoots }
{}

/// The result of a list of calls determines every word of the memory. The path map at the end determines the words of
/// the root and of the tables, free frames that were returned hold zeros, and all other words stay. This follows from
/// what [`run`](crate::run) ensures in its clauses `ran` and `keeps`.
pub fn every_word_is_decided()
    ensures { EveryWordIsDecided }
{}

/// What [`run_call`](crate::run_call) ensures in its clauses `step`, `free` and `keeps` lets the call happen between a
/// kernel that flushes and a processor that caches, so that the laws of caches of `x86_64_model` apply.
pub fn run_calls_are_events()
    ensures { RunCallsAreEvents }
{}

/// The flush that [`flush_after`](crate::flushing::flush_after) returns settles all that is due, and is the least that does.
pub fn flushes_settle_what_is_due()
    ensures settled { FlushesSettle }
    ensures least { FlushesAreLeast }
{}

/// Beside a processor that caches at any moment between calls: what [`run_call`](crate::run_call) ensures of a call, and
/// then the flush that [`flush_after`](crate::flushing::flush_after) returns, leave nothing due, and then each access goes
/// with the page walk, with no right more. So this holds after any calls with their flushes, from empty caches on. Several
/// calls may come before one flush, if tables are flushed before a frame is taken that a clean up freed, and a large page
/// before a smaller one is mapped there.
pub fn flushed_calls_leave_no_stale_item()
    ensures first { ArisesFirst }
    ensures caching { ArisesByCaching }
    ensures calls { ArisesByCalls }
    ensures flushes { ArisesByFlushes }
    ensures both { ArisesByFlushedCalls }
    ensures accesses { FlushedAccessesGo }
{}

/// Several processors that use one hierarchy: if what each sees may happen, with its own flushes before a frame is taken that
/// a clean up freed, the accesses of each go with the page walk, and all see the same words.
pub fn several_processors_are_flushed_each()
    ensures each { EachIsFlushed }
    ensures same { ProcessorsSeeTheSame }
{}

/// The same beside a processor that switches between address spaces of one memory, with loads of CR3, PCIDs and global pages,
/// and marks entries: what [`run_call`](crate::run_call) ensures of a call on one of them, and then the flush that
/// [`flush_after`](crate::flushing::flush_after) returns, leave nothing due, if the kernel gives up each other PCID that holds a
/// root that the call reaches: the next load of CR3 with this PCID keeps no items. If nothing is due, each access goes with the
/// page walk from the current root, with no right more.
pub fn flushed_calls_leave_no_stale_item_of_a_space()
    ensures first { ReachedFirst }
    ensures events { ReachedByEvents }
    ensures calls { ReachedByCalls }
    ensures flushes { ReachedByFlushes }
    ensures both { ReachedByFlushedCalls }
    ensures accesses { ReachedAccessesGo }
{}

/// If the entry that `update_flags` or a change of a table's flags writes loses nothing, as
/// [`loses`](crate::flushing::loses) tests, no used entry does. So
/// [`flush_after_change`](crate::flushing::flush_after_change) may be told that none does.
pub fn one_entry_decides_a_change_of_flags()
    ensures { OneEntryDecides }
{}

/// The flush of the token that a range's unmap or change of flags returns suffices: if none of its items
/// covers a position (the number of an address counted without the gap), and the page walk arrived there before, it
/// still arrives at the same address, with no right lost.
pub fn flushes_of_ranges_suffice()
    ensures { RangeFlushesSuffice }
{}

/// The flush of the token of a range of up to 32 pages records one item for each page, in order, and that of a longer
/// range records [`FlushItem::All`] alone.
pub fn ranges_of_up_to_32_pages_are_flushed_by_page()
    ensures limit { MOST_PAGE_ITEMS ≡ 32 }
    ensures each { (levels size page count : ℕ) → count ≤ 32
        → range_items levels size MOST_PAGE_ITEMS (flush_range page count)
        ≡ page_items levels size page count }
    ensures all { (levels size page count : ℕ) → 32 < count
        → range_items levels size MOST_PAGE_ITEMS (flush_range page count) ≡ FlushItem.All ∷ [] }
{}
