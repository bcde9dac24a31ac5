//! Calls of a mapper's methods, each if its condition holds, with the tokens flushed.
ghost use Rattle.std.specs.Prelude.{◌≡◌, ◌<◌, ◌^◌, IfSome};
ghost use Rattle.x86_64_model.specs.Call.{Unmap};
ghost use Rattle.x86_64_model.specs.Hierarchy.{Valid, MayCall, PoolFits, SupplyFits};
ghost use Rattle.x86_64_model.specs.Pool.{serves_below};

use super::{Exchange, State};
use crate::call_rows::{CallRow, PageCallRow};
use crate::prelude::*;
use x86_64::structures::paging::mapper::{CleanUp, MapperAllSizes, MapperFlush};
use x86_64::structures::paging::{Mapper, Page, Size1GiB, Size2MiB, Translate};
use x86_64::{SizeReply, is_outside_window, parent_flags};

/// Flushes the token of a change to a page, if there is one, and returns the page.
fn flush<S: PageSize, E: Drop>(
    rt: impl Test,
    changed: Result<MapperFlush<S>, E>,
    recorder: &mut FlushRecorder,
) -> Result<Page<S>, E> {
    match changed {
        Ok(token) => {
            let page = token.page();
            let flushed = token.flush(recorder).map_err(MapperFlush::ignore);
            assert_equal(rt, flushed, Ok(()));
            Ok(page)
        }
        Err(why) => Err(why),
    }
}

/// Flushes the token of a change of flags, if there is one.
fn flush_all(
    rt: impl Test,
    changed: Result<MapperFlushAll, FlagUpdateError>,
    recorder: &mut FlushRecorder,
) -> Result<(), FlagUpdateError> {
    let flushed = changed?.flush_all(recorder).map_err(MapperFlushAll::ignore);
    assert_equal(rt, flushed, Ok(()));
    Ok(())
}

/// Returns the page at a frame's own address, if that is in the lower half of the address space.
fn identity_page<S: PageSize>(frame: PhysFrame<S>) -> Option<Page<S>>
    ensures same { IfSome result (λ page. page ≡ frame) }
    ensures low { IfSome result (λ page. frame < 2 ^ 47) }
{
    let start = frame.start_address().as_u64();
    if start >= 1 << 47 {
        return None;
    }
    match Page::from_start_address(VirtAddr::new_truncate(start)) {
        Ok(page) => Some(page),
        Err(_) => None,
    }
}

/// Maps the page at a frame's own address, if that is allowed.
fn map_identity<S: PageSize, M: Mapper<S>>(
    rt: impl Test,
    mapper: &mut M,
    pool: &mut FramePool,
    page: Page<S>,
    frame: PhysFrame<S>,
    flags: PageTableFlags,
    recorder: &mut FlushRecorder,
) -> Option<SizeReply<S>>
    requires fits { SupplyFits (M.hierarchy mapper.old) pool.old.frames }
    requires same { page ≡ frame }
    requires low { frame < 2 ^ 47 }
{
    if !mapper.map_allowed(page, flags, parent_flags(flags)) {
        return None;
    }
    let mapped = mapper.identity_map(frame, flags, pool);
    Some(PageReply::Map(flush(rt, mapped, recorder)))
}

/// Maps a page, with given parent flags or with those from its flags, if that is allowed.
fn map<S: PageSize, M: Mapper<S>>(
    rt: impl Test,
    mapper: &mut M,
    pool: &mut FramePool,
    page: Page<S>,
    frame: PhysFrame<S>,
    flags: PageTableFlags,
    parents: Option<PageTableFlags>,
    recorder: &mut FlushRecorder,
) -> Option<SizeReply<S>>
    requires { SupplyFits (M.hierarchy mapper.old) pool.old.frames }
{
    if !mapper.map_allowed(page, flags, parents.unwrap_or(parent_flags(flags))) {
        return None;
    }
    let mapped = match parents {
        Some(parents) => mapper.map_to_with_table_flags(page, frame, flags, parents, pool),
        None => mapper.map_to(page, frame, flags, pool),
    };
    Some(PageReply::Map(flush(rt, mapped, recorder)))
}

/// Sets the flags of the entry of a level on a page's path, if that is allowed.
#[tactic(auto, unfolding(x86_64_model::specs::Entry::address, x86_64_model::specs::Entry::has))]
fn set_flags<S: PageSize, M: Mapper<S>>(
    rt: impl Test,
    mapper: &mut M,
    level: u8,
    page: Page<S>,
    flags: PageTableFlags,
    recorder: &mut FlushRecorder,
) -> Option<SizeReply<S>>
    requires { Valid (M.hierarchy mapper.old) }
{
    let is_allowed = match level {
        4 => {
            !flags.has_address_bits()
                && !flags.contains(PageTableFlags::HUGE_PAGE)
                && is_outside_window(mapper, page)
        }
        3 => mapper.p3_flags_allowed(page, flags),
        _ => mapper.p2_flags_allowed(page, flags),
    };
    if !is_allowed {
        return None;
    }
    let changed = match level {
        4 => mapper.set_flags_p4_entry(page, flags),
        3 => mapper.set_flags_p3_entry(page, flags),
        _ => mapper.set_flags_p2_entry(page, flags),
    };
    Some(PageReply::TableFlags(flush_all(rt, changed, recorder)))
}

/// Unmaps a page.
fn unmap<S: PageSize, M: Mapper<S>>(
    rt: impl Test,
    mapper: &mut M,
    page: Page<S>,
    recorder: &mut FlushRecorder,
) -> Result<(PhysFrame<S>, Page<S>), UnmapError>
    requires { MayCall (M.hierarchy mapper.old) (Unmap S.LEVEL page) }
{
    let (frame, token) = mapper.unmap(page)?;
    let page = unwrap(rt, flush::<S, UnmapError>(rt, Ok(token), recorder));
    Ok((frame, page))
}

/// Makes a call on a page, if it is allowed.
#[tactic(auto, unfolding(x86_64_model::specs::Entry::address))]
fn answer_page<S: PageSize, M: Mapper<S>>(
    rt: impl Test,
    mapper: &mut M,
    pool: &mut FramePool,
    call: PageCallRow,
    recorder: &mut FlushRecorder,
) -> Option<SizeReply<S>>
    requires { SupplyFits (M.hierarchy mapper.old) pool.old.frames }
{
    match call {
        PageCallRow::MapTo(page, frame, bits) => {
            let (page, frame, flags) = (page_at(page), frame_at(frame), flags_of(bits));
            map(rt, mapper, pool, page, frame, flags, None, recorder)
        }
        PageCallRow::MapToWithTableFlags(page, frame, bits, parent_bits) => {
            let (page, frame, flags) = (page_at(page), frame_at(frame), flags_of(bits));
            let parents = Some(flags_of(parent_bits));
            map(rt, mapper, pool, page, frame, flags, parents, recorder)
        }
        PageCallRow::IdentityMap(frame, bits) => {
            let (frame, flags) = (frame_at(frame), flags_of(bits));
            let page = identity_page(frame)?;
            map_identity(rt, mapper, pool, page, frame, flags, recorder)
        }
        PageCallRow::Unmap(page) => {
            let page = page_at(page);
            if !is_outside_window(mapper, page) {
                return None;
            }
            Some(PageReply::Unmap(unmap(rt, mapper, page, recorder)))
        }
        PageCallRow::UpdateFlags(page, bits) => {
            let (page, flags) = (page_at(page), flags_of(bits));
            if flags.has_address_bits() || !is_outside_window(mapper, page) {
                return None;
            }
            let changed = mapper.update_flags(page, flags);
            Some(PageReply::Update(flush(rt, changed, recorder)))
        }
        PageCallRow::SetFlags(level, page, bits) => {
            set_flags(rt, mapper, level, page_at(page), flags_of(bits), recorder)
        }
        PageCallRow::TranslatePage(page) => {
            Some(PageReply::Frame(mapper.translate_page(page_at(page))))
        }
    }
}

/// Makes a call, if it is allowed.
fn answer_call<M: MapperAllSizes + Translate + CleanUp>(
    rt: impl Test,
    mapper: &mut M,
    pool: &mut FramePool,
    call: CallRow,
    recorder: &mut FlushRecorder,
) -> Option<Reply>
    requires { PoolFits (M.hierarchy mapper.old) (serves_below pool.old.limit) pool.old.frames }
{
    Some(match call {
        CallRow::Small(call) => {
            MapperReply::Of4KiB(answer_page::<Size4KiB, _>(rt, mapper, pool, call, recorder)?)
        }
        CallRow::Large(call) => {
            MapperReply::Of2MiB(answer_page::<Size2MiB, _>(rt, mapper, pool, call, recorder)?)
        }
        CallRow::Giant(call) => {
            MapperReply::Of1GiB(answer_page::<Size1GiB, _>(rt, mapper, pool, call, recorder)?)
        }
        CallRow::Translate(addr) => {
            MapperReply::Translate(mapper.translate(VirtAddr::new_truncate(addr)))
        }
        CallRow::TranslateAddr(addr) => {
            MapperReply::Address(mapper.translate_addr(VirtAddr::new_truncate(addr)))
        }
        CallRow::CleanUp => {
            mapper.clean_up(pool);
            MapperReply::Cleaned
        }
        CallRow::CleanUpRange(first, last) => {
            let range = Page::range_inclusive(page_at(first), page_at(last));
            mapper.clean_up_addr_range(range, pool);
            MapperReply::Cleaned
        }
    })
}

/// Makes the calls of exchanges one by one, each with a mapper over the identity mapping that is then dropped, and
/// appends the replies.
pub fn answer_singly(
    rt: impl Test,
    state: &mut State,
    exchanges: &[Exchange],
    replies: &mut Vec<Reply>,
) {
    let root = frame_at(ROOT);
    for (call, _) in exchanges {
        let State {
            memory,
            pool,
            recorder,
        } = &mut *state;
        assert!(rt; fits::<FourLevels>(rt, memory, root, pool));
        let mut mapper = MappedPageTable::new(memory, root, IdentityMapping);
        let answer = answer_call(rt, &mut mapper, pool, *call, recorder);
        unwrap(rt, replies.push(answer.unwrap_or(Reply::NotAllowed)));
    }
}
