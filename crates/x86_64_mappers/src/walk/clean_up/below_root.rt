//! Clean up below the tables that the root's entries name. These tables are kept, as other roots may name them too.
ghost use Rattle.std.specs.Prelude.{◌≡◌, ◌+◌, ◌∷◌, [], length};
ghost use Rattle.x86_64_mappers.specs.CleanUps.{deallocator_store, MayCleanUpInto};
ghost use Rattle.x86_64_mappers.specs.CleanUpsBelowRoot.{CleansUpBelowRoot};
ghost use Rattle.x86_64_mappers.specs.private.CleaningUp.{IsPageRange, MeetsPages, CleansBelow, CleansUpPagesBelowRoot};

use super::{PathRange, clean_up_table, is_recursive, page_number};
use crate::walk::TableAccess;
use crate::walk::parents::next_table;
use crate::walk::path::path_of_address;
use x86_64_addr::index::PageTableIndex;
use x86_64_addr::level_count::LevelCount;
use x86_64_page::frame::PhysFrame;
use x86_64_page::page::{PageIn, Size4KiB};
use x86_64_page::range::BlockRangeInclusive;
use x86_64_tables::frame_alloc::FrameDeallocator;
use x86_64_tables::page_tables::TablesIn;

/// Removes the empty tables on the paths of the pages of a range, but none that an entry of the root names, and returns
/// their frames to the deallocator, with all words 0.
///
/// Requires that the hierarchy is valid, and that the deallocator serves the frame of each table but the root and
/// doesn't hold it. [`CleanUp::clean_up_below_root`](crate::mapper::CleanUp::clean_up_below_root) says which tables are
/// removed.
pub fn clean_up_below_root<
    M: TableAccess + TablesIn<L>,
    L: LevelCount,
    D: FrameDeallocator<Size4KiB>,
>(mapper: &mut M, range: BlockRangeInclusive<PageIn<Size4KiB, L>>, frame_deallocator: &mut D)
    requires { MayCleanUpInto (M.hierarchy mapper.old)
        (deallocator_store D.FrameDeallocator frame_deallocator.old) }
    ensures { CleansUpBelowRoot (M.hierarchy mapper.old)
        (deallocator_store D.FrameDeallocator frame_deallocator.old) range.start (range.end + 0xfff)
        (M.hierarchy mapper.new) (deallocator_store D.FrameDeallocator frame_deallocator.new) }
{
    let first = path_of_address(mapper, range.start.start_address());
    let last = path_of_address(mapper, range.end.start_address());
    clean_up_paths_below_root(mapper, first.indices(), last.indices(), frame_deallocator);
}

/// Removes the empty tables on the paths of the pages between two paths, both included, but none that an entry of the
/// root names, and returns their frames to the deallocator.
fn clean_up_paths_below_root<M: TableAccess, D: FrameDeallocator<Size4KiB>>(
    mapper: &mut M,
    first: &[PageTableIndex],
    last: &[PageTableIndex],
    frame_deallocator: &mut D,
)
    requires first { length first.now ≡ (M.hierarchy mapper.old).layout.levels }
    requires last { length last.now ≡ (M.hierarchy mapper.old).layout.levels }
    requires may { MayCleanUpInto (M.hierarchy mapper.old)
        (deallocator_store D.FrameDeallocator frame_deallocator.old) }
    ensures { CleansUpPagesBelowRoot (M.hierarchy mapper.old)
        (deallocator_store D.FrameDeallocator frame_deallocator.old)
        first.now last.now (M.hierarchy mapper.new)
        (deallocator_store D.FrameDeallocator frame_deallocator.new) }
{
    if page_number(last) < page_number(first) {
        return;
    }
    let range = PathRange { first, last };
    for index in u16::from(first[0])..u16::from(last[0]) + 1 {
        clean_up_below_entry(
            mapper,
            &range,
            PageTableIndex::new(index),
            frame_deallocator,
        );
    }
}

/// Removes the empty tables below the table that an entry of the root names, and keeps this table.
///
/// Nothing changes if the entry isn't present, or is the root's entry for itself.
fn clean_up_below_entry<M: TableAccess, D: FrameDeallocator<Size4KiB>>(
    mapper: &mut M,
    range: &PathRange,
    index: PageTableIndex,
    frame_deallocator: &mut D,
)
    requires may { MayCleanUpInto (M.hierarchy mapper.old)
        (deallocator_store D.FrameDeallocator frame_deallocator.old) }
    requires range { IsPageRange (M.hierarchy mapper.old).layout.levels
        range.now.first.now range.now.last.now }
    requires meets { MeetsPages (M.hierarchy mapper.old)
        range.now.first.now range.now.last.now (index ∷ []) }
    ensures cleaned { CleansBelow (M.hierarchy mapper.old)
        (deallocator_store D.FrameDeallocator frame_deallocator.old)
        range.now.first.now range.now.last.now (index ∷ [])
        (M.hierarchy mapper.new) (deallocator_store D.FrameDeallocator frame_deallocator.new) }
    ensures layout { (M.hierarchy mapper.new).layout ≡ (M.hierarchy mapper.old).layout }
    ensures lent { (M.hierarchy mapper.new).lent ≡ (M.hierarchy mapper.old).lent }
{
    if is_recursive(mapper, &[], index) {
        return;
    }
    let root = mapper.root();
    if let Ok(table) = next_table(mapper, &[], root, index) {
        clean_up_table(mapper, range, &[index], table, frame_deallocator);
    }
}
