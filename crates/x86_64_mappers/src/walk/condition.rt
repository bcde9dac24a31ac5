//! Tests of the conditions of calls.
ghost use Rattle.std.specs.Prelude.{◌≡◌, ◌<◌, ◌≤◌, ◌+◌, ◌-◌, ◌*◌, ◌^◌, ◌==◌, ◌↔◌, ℕ, true, false, [], ◌∷◌, ◌++◌, length, IsTrue};
ghost use Rattle.x86_64_model.specs.Entry.{present};
ghost use Rattle.x86_64_model.specs.Hierarchy.{Valid, allows_map, paths, read_entry};
ghost use Rattle.x86_64_model.specs.Window.{begins_with};
ghost use Rattle.x86_64_mappers.specs.RangeChanges.{IsRange};
ghost use Rattle.x86_64_mappers.specs.Ranges.{MayMapRange, range_of};
ghost use Rattle.x86_64_mappers.specs.private.MapConditions.{flags_allowed, are_present, meets_none_absent, AreOutside};
ghost use Rattle.x86_64_mappers.specs.private.PathCalls.{flags_may_be_set};
ghost use Rattle.x86_64_mappers.specs.private.Results.{walk_result};
ghost use Rattle.x86_64_mappers.specs.private.TableFlags.{keeps_huge};
ghost use Rattle.x86_64_tables.specs.PageTableFlags.{bits_of};

use super::parents::{PageTableWalkError, find_table, path_to_level};
use super::{TableAccess, entry};
use bitflags::Flags;
use x86_64_addr::index::PageTableIndex;
use x86_64_addr::level_count::LevelCount;
use x86_64_page::frame::PhysFrame;
use x86_64_page::page::{PageIn, PageSize, Size4KiB};
use x86_64_tables::page_table::PageTableFlags;
use x86_64_tables::page_tables::TablesIn;

/// Returns true if the page that a path leads to may be mapped with these flags and parent flags.
pub fn path_allowed<S: PageSize, M: TableAccess>(
    mapper: &M,
    path: &[PageTableIndex],
    flags: PageTableFlags,
    parent_flags: PageTableFlags,
) -> bool
    requires levels { length path.now + S.LEVEL ≡ (M.hierarchy mapper.now).layout.levels + 1 }
    requires valid { Valid (M.hierarchy mapper.now) }
    ensures { result ≡ allows_map (M.hierarchy mapper.now) path.now (bits_of flags) (bits_of parent_flags) }
{
    (flags_allowed::<S>(flags, parent_flags) & !is_in_window(mapper, path))
        && (parent_flags.contains(PageTableFlags::PRESENT)
            || are_present(mapper, &path[..path.len() - 1]))
}

/// Returns true if the flags of the entry of level three or two on the path of a page may be set to these.
pub fn table_flags_allowed<S: PageSize, M: TableAccess>(
    mapper: &M,
    path: &[PageTableIndex],
    level: u64,
    flags: PageTableFlags,
) -> bool
    requires levels { length path.now + S.LEVEL ≡ (M.hierarchy mapper.now).layout.levels + 1 }
    requires low { 2 ≤ level }
    requires high { level ≤ 3 }
    requires valid { Valid (M.hierarchy mapper.now) }
    ensures { result ≡ flags_may_be_set (M.hierarchy mapper.now) level path.now (bits_of flags) }
{
    (!flags.has_address_bits() & !is_in_window(mapper, path))
        && (level <= S::LEVEL || keeps_huge(mapper, path_to_level::<S>(path, level), flags))
}

/// Returns true if a path begins with the recursive index, the index of the root's entry for itself.
fn is_in_window<M: TableAccess>(mapper: &M, path: &[PageTableIndex]) -> bool
    requires { 0 < length path.now }
    ensures { result ≡ begins_with (M.hierarchy mapper.now).layout.window path.now }
{
    match mapper.recursive_index() {
        Some(index) => path[0] == index,
        None => false,
    }
}

/// Returns true if the parents of a page have `PRESENT`, down to and including the first that also has `HUGE_PAGE`.
fn are_present<M: TableAccess>(mapper: &M, parents: &[PageTableIndex]) -> bool
    requires valid { Valid (M.hierarchy mapper.now) }
    requires short { length parents.now < (M.hierarchy mapper.now).layout.levels }
    ensures { (last : ℕ)
        → begins_with (M.hierarchy mapper.now).layout.window (parents.now ++ last ∷ []) ≡ false
        → result ≡ are_present (paths (M.hierarchy mapper.now)) (parents.now ++ last ∷ []) }
{
    meets_none_absent(find_table(mapper, parents))
}

/// Returns true if a walk down the parents of a page met none that lacks `PRESENT`.
fn meets_none_absent(found: Result<PhysFrame<Size4KiB>, PageTableWalkError>) -> bool
    ensures { result ≡ meets_none_absent (walk_result found) }
{
    !matches!(found, Err(PageTableWalkError::NotMapped))
}

/// Returns true if the flags and the parent flags suit a map of a page of this size, whatever its path. Neither may
/// have address bits. `HUGE_PAGE` may not be in the parent flags, nor in the flags of a 4KiB page.
fn flags_allowed<S: PageSize>(flags: PageTableFlags, parent_flags: PageTableFlags) -> bool
    ensures { result ≡ flags_allowed (S.LEVEL == 1) (bits_of flags) (bits_of parent_flags) }
{
    !flags.has_address_bits()
        & !parent_flags.has_address_bits()
        & !parent_flags.contains(PageTableFlags::HUGE_PAGE)
        & ((S::LEVEL != 1) | !flags.contains(PageTableFlags::HUGE_PAGE))
}

/// Returns true if the entry is unreachable or unused, or its `HUGE_PAGE` equals that of the flags.
fn keeps_huge<M: TableAccess>(mapper: &M, path: &[PageTableIndex], flags: PageTableFlags) -> bool
    requires valid { Valid (M.hierarchy mapper.now) }
    requires some { 0 < length path.now }
    requires levels { length path.now ≤ (M.hierarchy mapper.now).layout.levels }
    ensures { result ≡ keeps_huge (read_entry (M.hierarchy mapper.now)) path.now (bits_of flags) }
{
    let last = path.len() - 1;
    let parents = &path[..last];
    let Ok(table) = find_table(mapper, parents) else {
        return true;
    };
    let entry = entry(mapper, parents, table, path[last]);
    entry.is_unused()
        || entry.flags().contains(PageTableFlags::HUGE_PAGE)
            == flags.contains(PageTableFlags::HUGE_PAGE)
}

/// Returns true if a number of pages, from a page on, exist and are outside the recursive window: no page's index of
/// the highest level is the recursive index.
pub fn range_allowed<S: PageSize, L: LevelCount, M: TablesIn<L>>(
    mapper: &M,
    page: PageIn<S, L>,
    count: u64,
) -> bool
    ensures { IsTrue result ↔ IsRange (M.hierarchy mapper.now) S.LEVEL page count }
{
    if count == 0 {
        return true;
    }
    match PageIn::forward_checked(page, (count - 1) as usize) {
        Some(last) => are_outside_window(mapper, page, last),
        None => false,
    }
}

/// Returns true if all pages from the first to the last one are outside the recursive window.
fn are_outside_window<S: PageSize, L: LevelCount, M: TablesIn<L>>(
    mapper: &M,
    first: PageIn<S, L>,
    last: PageIn<S, L>,
) -> bool
    requires { first ≤ last }
    ensures { IsTrue result ↔ AreOutside (M.hierarchy mapper.now) S.LEVEL first last }
{
    let Some(index) = mapper.recursive_index() else {
        return true;
    };
    let index = u16::from(index);
    let first = u16::from(first.table_index(L::LEVELS));
    let last = u16::from(last.table_index(L::LEVELS));
    (index < first) | (last < index)
}

/// Returns true if the parent flags have `PRESENT`, and a number of pages, from a page on, may be mapped to the frames
/// from a frame on.
// With PRESENT among the parent flags, whether a page may be mapped depends on no entry.
#[tactic(auto, unfolding(x86_64_model::specs::Entry::has))]
pub fn map_range_allowed<S: PageSize, L: LevelCount, M: TablesIn<L>>(
    mapper: &M,
    page: PageIn<S, L>,
    count: u64,
    frame: PhysFrame<S>,
    flags: PageTableFlags,
    parent_flags: PageTableFlags,
) -> bool
    ensures { IsTrue result ↔ (present (bits_of parent_flags) ≡ true)
        × MayMapRange (M.hierarchy mapper.now)
        (range_of S.LEVEL page frame (bits_of flags) (bits_of parent_flags)) count }
{
    if !parent_flags.contains(PageTableFlags::PRESENT) {
        return false;
    }
    if count == 0 {
        return true;
    }
    frames_exist(frame, count)
        & range_allowed(mapper, page, count)
        & flags_allowed::<S>(flags, parent_flags)
}

/// Returns true if all of a number of frames, from a frame on, exist.
fn frames_exist<S: PageSize>(frame: PhysFrame<S>, count: u64) -> bool
    requires { 0 < count }
    ensures { IsTrue result ↔ (frame + (count - 1) * S.SIZE < 2 ^ 52) }
{
    match (count - 1).checked_mul(S::SIZE) {
        Some(bytes) => bytes < 0x10_0000_0000_0000 - frame.start_address().as_u64(),
        None => false,
    }
}
