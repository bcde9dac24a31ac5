// Laws of the processor's caches.
ghost use Rattle.x86_64_model.specs.Laws.Caches.{WalksWithRights, WalksAreCached, FlushesAreEnough, AccessesAreWalks, OnlyTablesAreRead, StaleAccessesAreOld, LetGoIsUnreached, CallsMayHappen, ExchangesMayHappen, WordsTellLosses, ExchangesTell, ExchangedWords, UnflushedCleanUp, UnflushedNoExecute, UnclearedTable, OnlyMapsTakeFrames, FirstFramesAreTaken};

/// The page walk arrives if and only if the walk that also says the page's path and its right to execute leads to a page, and then
/// in this page, with the same rights to write and of user mode.
#[tactic(auto, using(crate::proofs::Lemmas::Caches::Walks::walks_with_rights))]
pub fn walks_with_rights_are_page_walks()
    ensures { WalksWithRights }
{}

/// From whatever it has cached, the processor may come to cache each page to which a page walk leads.
pub fn pages_of_walks_can_be_cached()
    ensures { WalksAreCached }
{}

/// What has to be flushed after each call and each exchange of an entry's word is enough: at every moment, also during calls, each
/// access goes to the page to which the page walk leads, with at most its rights, if nothing that is due concerns the address.
pub fn flushes_after_calls_are_enough()
    ensures { FlushesAreEnough }
{}

/// If an access goes to a page, and nothing that is due concerns the address, the page walk arrives at the same physical address,
/// with the same rights to write and of user mode at least.
pub fn accesses_are_page_walks()
    ensures { AccessesAreWalks }
{}

/// The processor reads only words of tables of the hierarchy and, until a clean up is flushed, words of the frames that it freed, all
/// of them 0.
pub fn processors_read_only_tables()
    ensures { OnlyTablesAreRead }
{}

/// Each access goes to the page to which the page walk leads, or to a page that is due: in the frame that it had when it was let
/// go, or in the frame in which its entry still maps it, with whatever rights, or in the recursive window.
pub fn stale_accesses_go_where_pages_were()
    ensures { StaleAccessesAreOld }
{}

/// No access reaches a physical address that no present entry maps, if nothing that is due may map it still: its frame may be used
/// for anything.
pub fn frames_let_go_are_not_reached()
    ensures { LetGoIsUnreached }
{}

/// Only maps take frames from the pool: any other call may begin while a clean up isn't flushed, and a map if none is.
pub fn only_maps_take_frames()
    ensures { OnlyMapsTakeFrames }
{}

/// A call takes only the first frames of the pool, one for each level but the first: it may begin while a clean up isn't flushed
/// that freed none of them.
pub fn only_first_frames_are_taken()
    ensures { FirstFramesAreTaken }
{}

/// A call may happen as one change of the words, if the words after it hold the machine's next state, and free frames are as a call
/// leaves them.
pub fn calls_may_happen()
    ensures { CallsMayHappen }
{}

/// An exchange of an entry's word may happen, if memory changes by this word alone, and the state fits memory again.
pub fn exchanges_may_happen()
    ensures { ExchangesMayHappen }
{}

/// The test of both words says of a present entry exactly whether it loses nothing and doesn't become a user's.
#[tactic(auto, using(crate::proofs::Lemmas::Caches::Exchanged::words_tell_losses))]
pub fn words_tell_what_is_lost()
    ensures { WordsTellLosses }
{}

/// An entry that is exchanged loses nothing, if it is present and nothing is due.
pub fn exchanges_tell_what_is_due()
    ensures { ExchangesTell }
{}

/// What is due after some exchanges.
#[tactic(auto, using(crate::proofs::Lemmas::Caches::Unflushed::exchanged_words))]
pub fn exchanged_pages_are_due()
    ensures { ExchangedWords }
{}

/// A clean up that isn't flushed lets the processor go on from a cached table that is freed and used again, to a page that was
/// never mapped.
#[tactic(auto, using(crate::proofs::Lemmas::Caches::Unflushed::unflushed_clean_up))]
pub fn clean_ups_have_to_be_flushed()
    ensures { UnflushedCleanUp }
{}

/// A map with `NO_EXECUTE` among its parent flags takes the right to execute from other pages, which has to be flushed too.
#[tactic(auto, using(crate::proofs::Lemmas::Caches::Unflushed::unflushed_no_execute))]
pub fn no_execute_has_to_be_flushed()
    ensures { UnflushedNoExecute }
{}

/// A map that names a table before it clears it lets the processor find pages in old words of the frame, and no flush is due for
/// them.
#[tactic(auto, using(crate::proofs::Lemmas::Caches::Unflushed::uncleared_table))]
pub fn tables_have_to_be_cleared_first()
    ensures { UnclearedTable }
{}
