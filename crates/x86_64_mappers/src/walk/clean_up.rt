//! Clean up: removes empty tables, from the lowest level up.
ghost use Rattle.std.specs.Prelude.{◌≡◌, ◌<◌, ◌≤◌, ◌+◌, ◌-◌, ◌*◌, ◌++◌, ◌∷◌, ℕ, [], true, false, cond, length, take, get_or};
ghost use Rattle.x86_64_model.specs.CleanUp.{meets};
ghost use Rattle.x86_64_model.specs.Hierarchy.{words};
ghost use Rattle.x86_64_model.specs.Memory.{word};
ghost use Rattle.x86_64_model.specs.Path.{AllBelow, begins, span_start};
ghost use Rattle.x86_64_model.specs.Position.{position_count};
ghost use Rattle.x86_64_model.specs.Window.{begins_with};
ghost use Rattle.x86_64_mappers.specs.private.CleaningUp.{IsPageRange, VisitsTable, MeetsPages, CleansBelow, CleansEntry, CleansUpPages};
ghost use Rattle.x86_64_mappers.specs.private.Stops.{leads_to_table};
ghost use Rattle.x86_64_mappers.specs.Reached.{PathReaches};
ghost use Rattle.x86_64_mappers.specs.CleanUps.{deallocator_store, MayCleanUpInto, CleansUpInto};

pub mod below_root;

use super::parents::next_table;
use super::path::{MOST_LEVELS, path_of_address};
use super::{TableAccess, entry_mut};
use x86_64_addr::addr::VirtAddrIn;
use x86_64_addr::index::PageTableIndex;
use x86_64_addr::level_count::LevelCount;
use x86_64_page::frame::PhysFrame;
use x86_64_page::page::{PageIn, Size4KiB};
use x86_64_page::range::BlockRangeInclusive;
use x86_64_tables::frame_alloc::FrameDeallocator;
use x86_64_tables::page_tables::TablesIn;

/// The paths of the first and the last page of a range, with one index per level of tables.
#[derive(Drop)]
struct PathRange<'a> {
    first: &'a [PageTableIndex],
    last: &'a [PageTableIndex],
}

/// Returns the range of all pages, in both halves of the address space.
pub fn all_pages<L: LevelCount>() -> BlockRangeInclusive<PageIn<Size4KiB, L>>
    ensures first { result.start ≡ 0 }
    ensures last { result.end ≡ position_count L.LEVELS - 0x1000 }
{
    let last = PageIn::containing_address(VirtAddrIn::new_truncate(u64::MAX));
    PageIn::range_inclusive(PageIn::containing_address(VirtAddrIn::zero()), last)
}

/// Removes the empty tables on the paths of the pages of a range, and returns their frames to the deallocator, with all
/// words 0.
///
/// Requires that the hierarchy is valid, and that the deallocator serves the frame of each table but the root and
/// doesn't hold it. [`CleanUp::clean_up_addr_range`](crate::mapper::CleanUp::clean_up_addr_range) says which tables are
/// removed.
pub fn clean_up_range<M: TableAccess + TablesIn<L>, L: LevelCount, D: FrameDeallocator<Size4KiB>>(
    mapper: &mut M,
    range: BlockRangeInclusive<PageIn<Size4KiB, L>>,
    frame_deallocator: &mut D,
)
    requires { MayCleanUpInto (M.hierarchy mapper.old)
        (deallocator_store D.FrameDeallocator frame_deallocator.old) }
    ensures { CleansUpInto (M.hierarchy mapper.old)
        (deallocator_store D.FrameDeallocator frame_deallocator.old) range.start (range.end + 0xfff)
        (M.hierarchy mapper.new) (deallocator_store D.FrameDeallocator frame_deallocator.new) }
{
    let first = path_of_address(mapper, range.start.start_address());
    let last = path_of_address(mapper, range.end.start_address());
    clean_up_paths(mapper, first.indices(), last.indices(), frame_deallocator);
}

/// Removes the empty tables on the paths of the pages between two paths, both included, and returns their frames to
/// the deallocator.
fn clean_up_paths<M: TableAccess, D: FrameDeallocator<Size4KiB>>(
    mapper: &mut M,
    first: &[PageTableIndex],
    last: &[PageTableIndex],
    frame_deallocator: &mut D,
)
    requires first { length first.now ≡ (M.hierarchy mapper.old).layout.levels }
    requires last { length last.now ≡ (M.hierarchy mapper.old).layout.levels }
    requires may { MayCleanUpInto (M.hierarchy mapper.old)
        (deallocator_store D.FrameDeallocator frame_deallocator.old) }
    ensures { CleansUpPages (M.hierarchy mapper.old)
        (deallocator_store D.FrameDeallocator frame_deallocator.old)
        first.now last.now (M.hierarchy mapper.new)
        (deallocator_store D.FrameDeallocator frame_deallocator.new) }
{
    if page_number(last) < page_number(first) {
        return;
    }
    let root = mapper.root();
    clean_up_table(
        mapper,
        &PathRange { first, last },
        &[],
        root,
        frame_deallocator,
    );
}

/// Removes the empty tables below the table that a path leads to.
#[cycle(clean_up)]
fn clean_up_table<M: TableAccess, D: FrameDeallocator<Size4KiB>>(
    mapper: &mut M,
    range: &PathRange,
    path: &[PageTableIndex],
    table: PhysFrame<Size4KiB>,
    frame_deallocator: &mut D,
)
    requires short { length path.now < (M.hierarchy mapper.old).layout.levels }
    requires may { MayCleanUpInto (M.hierarchy mapper.old)
        (deallocator_store D.FrameDeallocator frame_deallocator.old) }
    requires range { IsPageRange (M.hierarchy mapper.old).layout.levels
        range.now.first.now range.now.last.now }
    requires visited { VisitsTable (M.hierarchy mapper.old)
        range.now.first.now range.now.last.now path.now table }
    ensures cleaned { CleansBelow (M.hierarchy mapper.old)
        (deallocator_store D.FrameDeallocator frame_deallocator.old)
        range.now.first.now range.now.last.now path.now
        (M.hierarchy mapper.new) (deallocator_store D.FrameDeallocator frame_deallocator.new) }
    ensures layout { (M.hierarchy mapper.new).layout ≡ (M.hierarchy mapper.old).layout }
    ensures lent { (M.hierarchy mapper.new).lent ≡ (M.hierarchy mapper.old).lent }
{
    if path.len() + 1 < range.first.len() {
        let first = index_in_table(range.first, path, 0);
        let last = index_in_table(range.last, path, 511);
        let mut next = next_named(mapper, path, table, first, last);
        while next <= last {
            let index = PageTableIndex::new(next);
            clean_up_entry(mapper, range, path, table, index, frame_deallocator);
            next = next_named(mapper, path, table, next + 1, last);
        }
    }
}

/// Returns the first index between two indices, both included, whose entry in the table that a path leads to names a
/// table, or the index after the last one if there is none.
fn next_named<M: TableAccess>(
    mapper: &M,
    path: &[PageTableIndex],
    frame: PhysFrame<Size4KiB>,
    from: u16,
    last: u16,
) -> u16
    requires reached { PathReaches (M.hierarchy mapper.now) path.now frame }
    requires short { length path.now < (M.hierarchy mapper.now).layout.levels }
    requires last { last < 512 }
    ensures from { result ≤ last → from ≤ result }
    ensures last { result ≤ last + 1 }
    ensures passed { (i : ℕ) → from ≤ i → i < result
        → leads_to_table (word (words (M.hierarchy mapper.now)) frame i) ≡ false }
    ensures named { result ≤ last → leads_to_table (word (words (M.hierarchy mapper.now)) frame result)
        ≡ true }
{
    let table = mapper.table(path, frame);
    for index in from..last + 1 {
        if table[usize::from(index)].frame().is_ok() {
            return index;
        }
    }
    last + 1
}

/// Takes the entry at an index of the table that a path leads to. Removes the empty tables below the table that it
/// names, and then that table itself if it is empty.
///
/// An entry stays if it isn't present, maps a page, or is the root's entry for itself.
#[cycle(clean_up)]
fn clean_up_entry<M: TableAccess, D: FrameDeallocator<Size4KiB>>(
    mapper: &mut M,
    range: &PathRange,
    path: &[PageTableIndex],
    table: PhysFrame<Size4KiB>,
    index: PageTableIndex,
    frame_deallocator: &mut D,
)
    requires short { length path.now + 1 < (M.hierarchy mapper.old).layout.levels }
    requires may { MayCleanUpInto (M.hierarchy mapper.old)
        (deallocator_store D.FrameDeallocator frame_deallocator.old) }
    requires range { IsPageRange (M.hierarchy mapper.old).layout.levels
        range.now.first.now range.now.last.now }
    requires visited { VisitsTable (M.hierarchy mapper.old)
        range.now.first.now range.now.last.now path.now table }
    requires meets { MeetsPages (M.hierarchy mapper.old)
        range.now.first.now range.now.last.now (path.now ++ index ∷ []) }
    ensures cleaned { CleansEntry (M.hierarchy mapper.old)
        (deallocator_store D.FrameDeallocator frame_deallocator.old)
        range.now.first.now range.now.last.now (path.now ++ index ∷ [])
        (M.hierarchy mapper.new) (deallocator_store D.FrameDeallocator frame_deallocator.new) }
    ensures layout { (M.hierarchy mapper.new).layout ≡ (M.hierarchy mapper.old).layout }
    ensures lent { (M.hierarchy mapper.new).lent ≡ (M.hierarchy mapper.old).lent }
{
    if is_recursive(mapper, path, index) {
        return;
    }
    let Ok(below) = next_table(mapper, path, table, index) else {
        return;
    };
    let indices = child_indices(path, index);
    let child = &indices[..path.len() + 1];
    clean_up_table(mapper, range, child, below, frame_deallocator);
    if mapper.table(child, below).is_empty() {
        entry_mut(mapper, path, table, index).set_unused();
        frame_deallocator.deallocate_frame(below);
    }
}

/// Returns the number of the 4KiB page with a path, which is the number of pages before it.
pub fn page_number(path: &[PageTableIndex]) -> u64
    requires { length path.now ≤ 5 }
    ensures start { result * 0x1000 ≡ span_start (length path.now) path.now }
    ensures below { AllBelow path.now }
{
    let mut number = 0;
    for index in path {
        number = number * 512 + u64::from(*index);
    }
    number
}

/// Returns the index that follows a table's path in the path of a page, or another index if the page's path doesn't
/// lead through the table.
fn index_in_table(page: &[PageTableIndex], path: &[PageTableIndex], other: u16) -> u16
    requires { length path.now < length page.now }
    ensures index { result ≡ cond (begins path.now page.now) (get_or page.now (length path.now) 0) other }
    ensures small { other < 512 → result < 512 }
{
    if page.starts_with(path) {
        u16::from(page[path.len()])
    } else {
        other
    }
}

/// Returns true if the entry at an index of the table that a path leads to is the root's entry for itself.
fn is_recursive<M: TableAccess>(mapper: &M, path: &[PageTableIndex], index: PageTableIndex) -> bool
    requires { begins_with (M.hierarchy mapper.now).layout.window path.now ≡ false }
    ensures { result ≡ begins_with (M.hierarchy mapper.now).layout.window (path.now ++ index ∷ []) }
{
    path.is_empty() && mapper.recursive_index() == Some(index)
}

/// Gives the indices of a path and one more, in the first places.
fn child_indices(path: &[PageTableIndex], index: PageTableIndex) -> [PageTableIndex; MOST_LEVELS]
    requires { length path.now < 5 }
    ensures { take (length path.now + 1) result ≡ path.now ++ index ∷ [] }
{
    let mut indices = [index; MOST_LEVELS];
    indices[..path.len()].copy_from_slice(path);
    indices
}
