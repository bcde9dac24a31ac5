//! Lists of calls of a mapper.
ghost use Rattle.std.specs.Prelude.{◌≡◌, ◌+◌, ◌<◌, ◌≤◌, ◌++◌, ◌&&◌, ℕ, true, not, length, OnOk, OnErr, vec_len};
ghost use Rattle.std.specs.Vec.{vec_capacity};
ghost use Rattle.x86_64_model.specs.Entry.{huge, no_address};
ghost use Rattle.x86_64_model.specs.Call.{SetFlags};
ghost use Rattle.x86_64_model.specs.Hierarchy.{MayCall, Valid, allows};
ghost use Rattle.x86_64_model.specs.Store.{StoreFits, Keeps, store_of};
ghost use Rattle.x86_64_tables.specs.PageTableFlags.{bits_of};
ghost use Rattle.x86_64.specs.Calls.{in_window, page_call, to_call};
ghost use Rattle.x86_64.specs.Flushes.{flush_items_of, items_told, size_items};
ghost use Rattle.x86_64.specs.Replies.{changes_nothing};
ghost use Rattle.x86_64.specs.Runs.{LeavesFree, Ran, Stepped, appended};
ghost use Rattle.x86_64.specs.private.Served.{PageStepped, PageLeavesFree, SetsFlags, recorded, items_where, changes_nothing_where};

mod flushed;
mod pair;
mod tokens;

use crate::call_values::{
    CallIn, LevelFiveFlags, MapperReply, PageReply, ReplyIn, SizeCallIn, SizeReplyIn, identity_page,
};
use bitflags::Flags;
pub use flushed::run_flushed;
pub use pair::run_pair;
use std::alloc::AllocError;
use tokens::{Ignored, Tokens, take, take_all, take_unmapped};
use x86_64_addr::level_count::LevelCount;
use x86_64_mappers::calls::{self, TableAccess};
use x86_64_page::page::{PageIn, PageSize, Size1GiB, Size2MiB, Size4KiB};
use x86_64_tables::frame_alloc::FrameStore;
use x86_64_tables::page_table::PageTableFlags;
use x86_64_tables::page_tables::{TablesIn, parent_flags};

/// Executes calls in order, and appends a reply for each. Also named `run_57`, for five levels.
///
/// Room for one reply per call is reserved first. A call whose condition does not hold gets the reply
/// [`NotAllowed`](crate::MapperReply::NotAllowed) and changes nothing. Only such calls get `NotAllowed`. If every
/// call is not allowed, a query, or a refused call other than a map, no word changes. The mapper's tokens are
/// ignored, so no flush is recorded.
///
/// Requires that the hierarchy is valid, and that the frame store fits it. For a `FramePool`,
/// [`pool_fits`](crate::pool_fits) tests both.
///
/// # Errors
///
/// `AllocError` if memory allocation fails for the replies. Then nothing changes.
pub fn run<L: LevelCount, P5: LevelFiveFlags<L>, M: TableAccess + TablesIn<L>, F: FrameStore>(
    mapper: &mut M,
    frames: &mut F,
    calls: &[CallIn<L, P5>],
    replies: &mut Vec<ReplyIn<L>>,
) -> Result<(), AllocError>
    requires { StoreFits (M.hierarchy mapper.old) (store_of F.FrameStore frames.old) }
    ensures ran { OnOk result (Ran (to_call L.LEVELS P5.bits) (M.hierarchy mapper.old)
        (store_of F.FrameStore frames.old)
        calls.now replies.old.items replies.new.items (M.hierarchy mapper.new) (F.supply frames.new)) }
    ensures unchanged { OnErr result (
        (replies.new.items ≡ replies.old.items) × (vec_capacity replies.new ≡ vec_capacity replies.old)
        × (mapper.new ≡ mapper.old) × (frames.new ≡ frames.old)) }
    ensures needs_room { OnErr result (vec_capacity replies.old < vec_len replies.old + length calls.now) }
    ensures keeps { Keeps (M.hierarchy mapper.old) (store_of F.FrameStore frames.old)
        (M.hierarchy mapper.new) (store_of F.FrameStore frames.new) }
{
    replies.reserve(calls.len())?;
    serve_all(mapper, frames, calls, replies, &mut Ignored);
    Ok(())
}

/// Executes one call, as [`run`] does each of a list, and takes no memory. With five levels its name is `run_call_57`, too.
///
/// Requires that the hierarchy is valid, and that the frame store fits it, as `run` does.
pub fn run_call<L: LevelCount, P5: LevelFiveFlags<L>, M: TableAccess + TablesIn<L>, F: FrameStore>(
    mapper: &mut M,
    frames: &mut F,
    call: CallIn<L, P5>,
) -> ReplyIn<L>
    requires { StoreFits (M.hierarchy mapper.old) (store_of F.FrameStore frames.old) }
    ensures step { Stepped (M.hierarchy mapper.old) (store_of F.FrameStore frames.old)
        (to_call L.LEVELS P5.bits call) result (M.hierarchy mapper.new) (F.supply frames.new) }
    ensures unchanged { changes_nothing result ≡ true
        → (M.hierarchy mapper.new).memory ≡ (M.hierarchy mapper.old).memory }
    ensures free { LeavesFree (M.hierarchy mapper.old) (store_of F.FrameStore frames.old)
        (to_call L.LEVELS P5.bits call) (M.hierarchy mapper.new) (F.supply frames.new) }
    ensures keeps { Keeps (M.hierarchy mapper.old) (store_of F.FrameStore frames.old)
        (M.hierarchy mapper.new) (store_of F.FrameStore frames.new) }
{
    serve(mapper, frames, call, &mut Ignored)
}

/// Executes calls in order. Requires that there is room for their replies.
fn serve_all<
    L: LevelCount,
    P5: LevelFiveFlags<L>,
    M: TableAccess + TablesIn<L>,
    F: FrameStore,
    K: Tokens,
>(
    mapper: &mut M,
    frames: &mut F,
    calls: &[CallIn<L, P5>],
    replies: &mut Vec<ReplyIn<L>>,
    tokens: &mut K,
)
    requires fits { StoreFits (M.hierarchy mapper.old) (store_of F.FrameStore frames.old) }
    requires reserved { vec_len replies.old + length calls.now ≤ vec_capacity replies.old }
    requires room { K.has_room tokens.old (length calls.now) }
    ensures ran { Ran (to_call L.LEVELS P5.bits) (M.hierarchy mapper.old) (store_of F.FrameStore frames.old)
        calls.now replies.old.items replies.new.items (M.hierarchy mapper.new) (F.supply frames.new) }
    ensures items { K.items tokens.new ≡ K.items tokens.old
        ++ recorded K.records (items_told L.LEVELS (appended replies.old.items replies.new.items)) }
    ensures keeps { Keeps (M.hierarchy mapper.old) (store_of F.FrameStore frames.old)
        (M.hierarchy mapper.new) (store_of F.FrameStore frames.new) }
{
    for call in calls {
        replies.push_reserved(serve(mapper, frames, *call, tokens));
    }
}

/// Executes a call, and returns the reply.
fn serve<
    L: LevelCount,
    P5: LevelFiveFlags<L>,
    M: TableAccess + TablesIn<L>,
    F: FrameStore,
    K: Tokens,
>(mapper: &mut M, frames: &mut F, call: CallIn<L, P5>, tokens: &mut K) -> ReplyIn<L>
    requires fits { StoreFits (M.hierarchy mapper.old) (store_of F.FrameStore frames.old) }
    requires room { K.has_room tokens.old 1 }
    ensures step { Stepped (M.hierarchy mapper.old) (store_of F.FrameStore frames.old)
        (to_call L.LEVELS P5.bits call) result (M.hierarchy mapper.new) (F.supply frames.new) }
    ensures still { changes_nothing result ≡ true
        → (M.hierarchy mapper.new).memory ≡ (M.hierarchy mapper.old).memory }
    ensures free { LeavesFree (M.hierarchy mapper.old) (store_of F.FrameStore frames.old)
        (to_call L.LEVELS P5.bits call) (M.hierarchy mapper.new) (F.supply frames.new) }
    ensures keeps { Keeps (M.hierarchy mapper.old) (store_of F.FrameStore frames.old)
        (M.hierarchy mapper.new) (store_of F.FrameStore frames.new) }
    ensures items { K.items tokens.new ≡ K.items tokens.old
        ++ recorded K.records (flush_items_of L.LEVELS result) }
    ensures room { (n : ℕ) → K.has_room tokens.old (n + 1) → K.has_room tokens.new n }
{
    match call {
        CallIn::Of4KiB(call) => match serve_page(mapper, frames, call, tokens) {
            Some(reply) => MapperReply::Of4KiB(reply),
            None => MapperReply::NotAllowed,
        },
        CallIn::Of2MiB(call) => match serve_page(mapper, frames, call, tokens) {
            Some(reply) => MapperReply::Of2MiB(reply),
            None => MapperReply::NotAllowed,
        },
        CallIn::Of1GiB(call) => match serve_page(mapper, frames, call, tokens) {
            Some(reply) => MapperReply::Of1GiB(reply),
            None => MapperReply::NotAllowed,
        },
        CallIn::Translate(addr) => MapperReply::Translate(calls::translate(mapper, addr)),
        CallIn::TranslateAddr(addr) => MapperReply::Address(calls::translate_addr(mapper, addr)),
        CallIn::CleanUp => {
            calls::clean_up(mapper, frames);
            MapperReply::Cleaned
        }
        CallIn::CleanUpRange(range) => {
            calls::clean_up_range(mapper, range, frames);
            MapperReply::Cleaned
        }
    }
}

/// Executes a call on a page, and returns the reply, or `None` if the call is not allowed.
fn serve_page<
    S: PageSize,
    L: LevelCount,
    P5: LevelFiveFlags<L>,
    M: TableAccess + TablesIn<L>,
    F: FrameStore,
    K: Tokens,
>(
    mapper: &mut M,
    frames: &mut F,
    call: SizeCallIn<S, L, P5>,
    tokens: &mut K,
) -> Option<SizeReplyIn<S, L>>
    requires fits { StoreFits (M.hierarchy mapper.old) (store_of F.FrameStore frames.old) }
    requires room { K.has_room tokens.old 1 }
    ensures step { PageStepped (M.hierarchy mapper.old) (store_of F.FrameStore frames.old)
        (page_call S.LEVEL P5.bits call) result (M.hierarchy mapper.new) (F.supply frames.new) }
    ensures still { changes_nothing_where result ≡ true
        → (M.hierarchy mapper.new).memory ≡ (M.hierarchy mapper.old).memory }
    ensures free { PageLeavesFree (M.hierarchy mapper.old) (F.supply frames.old)
        (M.hierarchy mapper.new) (F.supply frames.new) }
    ensures keeps { Keeps (M.hierarchy mapper.old) (store_of F.FrameStore frames.old)
        (M.hierarchy mapper.new) (store_of F.FrameStore frames.new) }
    ensures items { K.items tokens.new ≡ K.items tokens.old
        ++ recorded K.records (items_where L.LEVELS S.SIZE result) }
    ensures room { (n : ℕ) → K.has_room tokens.old (n + 1) → K.has_room tokens.new n }
{
    if !is_allowed(mapper, &call) {
        return None;
    }
    Some(match call {
        SizeCallIn::MapTo { page, frame, flags } => {
            PageReply::Map(take(tokens, calls::map_to(mapper, page, frame, flags, frames)))
        }
        SizeCallIn::MapToWithTableFlags {
            page,
            frame,
            flags,
            parent_flags,
        } => {
            let mapped = calls::map_to_with_table_flags(
                mapper,
                page,
                frame,
                flags,
                parent_flags,
                frames,
            );
            PageReply::Map(take(tokens, mapped))
        }
        SizeCallIn::IdentityMap { frame, flags } => {
            PageReply::Map(take(tokens, calls::identity_map(mapper, frame, flags, frames)))
        }
        SizeCallIn::Unmap { page } => {
            PageReply::Unmap(take_unmapped(tokens, calls::unmap(mapper, page)))
        }
        SizeCallIn::UpdateFlags { page, flags } => {
            PageReply::Update(take(tokens, calls::update_flags(mapper, page, flags)))
        }
        SizeCallIn::SetFlagsP5 { page, flags } => {
            set_flags(mapper, tokens, page, 5, P5::page_table_flags(Some(flags)))
        }
        SizeCallIn::SetFlagsP4 { page, flags } => set_flags(mapper, tokens, page, 4, flags),
        SizeCallIn::SetFlagsP3 { page, flags } => set_flags(mapper, tokens, page, 3, flags),
        SizeCallIn::SetFlagsP2 { page, flags } => set_flags(mapper, tokens, page, 2, flags),
        SizeCallIn::TranslatePage { page } => {
            PageReply::Frame(calls::translate_page(mapper, page))
        }
    })
}

/// Sets the flags of the entry of a level on a page's path, and returns the reply.
fn set_flags<S: PageSize, L: LevelCount, M: TableAccess + TablesIn<L>, K: Tokens>(
    mapper: &mut M,
    tokens: &mut K,
    page: PageIn<S, L>,
    level: u64,
    flags: PageTableFlags,
) -> SizeReplyIn<S, L>
    requires low { 2 ≤ level }
    requires high { level ≤ L.LEVELS }
    requires may { MayCall (M.hierarchy mapper.old) (SetFlags level S.LEVEL page (bits_of flags)) }
    requires room { K.has_room tokens.old 1 }
    ensures sets { SetsFlags (M.hierarchy mapper.old) (SetFlags level S.LEVEL page (bits_of flags))
        result (M.hierarchy mapper.new) }
    ensures items { K.items tokens.new ≡ K.items tokens.old
        ++ recorded K.records (size_items L.LEVELS S.SIZE result) }
    ensures room { (n : ℕ) → K.has_room tokens.old (n + 1) → K.has_room tokens.new n }
{
    let set = calls::set_table_flags(mapper, page, level, flags);
    PageReply::TableFlags(take_all(tokens, set))
}

/// Returns true if the condition of a call on a page holds.
fn is_allowed<S: PageSize, L: LevelCount, P5: LevelFiveFlags<L>, M: TableAccess + TablesIn<L>>(
    mapper: &M,
    call: &SizeCallIn<S, L, P5>,
) -> bool
    requires { Valid (M.hierarchy mapper.now) }
    ensures { result ≡ allows (M.hierarchy mapper.now) (page_call S.LEVEL P5.bits call.now) }
{
    match call {
        SizeCallIn::MapTo { page, flags, .. } => {
            calls::map_allowed(mapper, *page, *flags, parent_flags(*flags))
        }
        SizeCallIn::MapToWithTableFlags {
            page,
            flags,
            parent_flags,
            ..
        } => calls::map_allowed(mapper, *page, *flags, *parent_flags),
        SizeCallIn::IdentityMap { frame, flags } => match identity_page::<S, L>(*frame) {
            Some(page) => calls::map_allowed(mapper, page, *flags, parent_flags(*flags)),
            None => false,
        },
        SizeCallIn::Unmap { page } => is_outside_window(mapper, *page),
        SizeCallIn::UpdateFlags { page, flags } => {
            !flags.has_address_bits() && is_outside_window(mapper, *page)
        }
        SizeCallIn::SetFlagsP5 { page, flags } => {
            fit_high_entry(P5::page_table_flags(Some(*flags))) && is_outside_window(mapper, *page)
        }
        SizeCallIn::SetFlagsP4 { page, flags } => {
            fit_high_entry(*flags) && is_outside_window(mapper, *page)
        }
        SizeCallIn::SetFlagsP3 { page, flags } => {
            calls::table_flags_allowed(mapper, *page, 3, *flags)
        }
        SizeCallIn::SetFlagsP2 { page, flags } => {
            calls::table_flags_allowed(mapper, *page, 2, *flags)
        }
        SizeCallIn::TranslatePage { .. } => true,
    }
}

/// Returns true if an entry of level four or five may have these flags: they have no address bits and no `HUGE_PAGE`.
#[tactic(auto, unfolding(x86_64_model::specs::Entry::has))]
fn fit_high_entry(flags: PageTableFlags) -> bool
    ensures { result ≡ no_address (bits_of flags) && not (huge (bits_of flags)) }
{
    !flags.has_address_bits() && !flags.contains(PageTableFlags::HUGE_PAGE)
}

/// Returns true if a page is outside a mapper's recursive window: its index of the highest level isn't the recursive
/// index (the index of the root's entry for itself), or there is no recursive index. This is the condition on the
/// page for [`unmap`](calls::unmap), and part of the condition of the other calls that write. Also named
/// `is_outside_window_57`, for five levels.
pub fn is_outside_window<S: PageSize, L: LevelCount, M: TablesIn<L>>(
    mapper: &M,
    page: PageIn<S, L>,
) -> bool
    ensures { result ≡ not (in_window (M.hierarchy mapper.now) S.LEVEL page) }
{
    match mapper.recursive_index() {
        Some(index) => page.table_index(L::LEVELS) != index,
        None => true,
    }
}
