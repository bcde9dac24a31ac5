//! Maps of ranges of pages.
ghost use Rattle.std.specs.Prelude.{◌≡◌, ◌<◌, ◌≤◌, ◌+◌, ◌-◌, ◌*◌, ◌^◌, ℕ, false, length, get_or, IfOk, IfErr};
ghost use Rattle.x86_64_model.specs.Entry.{IsParentFlags};
ghost use Rattle.x86_64_model.specs.Hierarchy.{SupplyFits, paths};
ghost use Rattle.x86_64_model.specs.Window.{begins_with};
ghost use Rattle.x86_64_mappers.specs.Ranges.{range_of, MayMapRange, MapsRange};
ghost use Rattle.x86_64_mappers.specs.Reached.{PathReaches};
ghost use Rattle.x86_64_mappers.specs.Supplies.{supply_of};
ghost use Rattle.x86_64_mappers.specs.private.OpenWay.{WillBePresent};
ghost use Rattle.x86_64_mappers.specs.private.RangeSteps.{with_leaves, AreUnused, SetsLeaves, MapsPart};
ghost use Rattle.x86_64_mappers.specs.private.Results.{create_result};
ghost use Rattle.x86_64_mappers.specs.private.RangeChangeSteps.{table_path, last_index};
ghost use Rattle.x86_64_tables.specs.FlushRecorder.{flush_range};
ghost use Rattle.x86_64_tables.specs.PageTableFlags.{bits_of};

use super::TableAccess;
use super::leaf::leaf_flags;
use super::map::{PageTableCreateError, create_tables};
use super::path::path_of_page;
use x86_64_addr::index::PageTableIndex;
use x86_64_addr::level_count::{FiveLevels, FourLevels, LevelCount};
use x86_64_page::frame::PhysFrame;
use x86_64_page::page::{PageIn, PageSize, Size4KiB};
use x86_64_tables::errors::MapToError;
use x86_64_tables::frame_alloc::FrameAllocator;
use x86_64_tables::page_table::{PageTable, PageTableFlags};
use x86_64_tables::page_tables::TablesIn;
use x86_64_tables::tokens::{MapperFlushRangeIn, page_after};

/// The refusal of a page of a range: the pages before it are mapped, and those behind it are left as they were.
pub struct MapRangeErrorIn<S: PageSize, L: LevelCount> {
    /// The token for the pages that were mapped.
    pub mapped: MapperFlushRangeIn<S, L>,
    /// The reason for the refusal.
    pub why: MapToError<S>,
}

/// The refusal of a page of a range, with four levels of page tables.
pub type MapRangeError<S> = MapRangeErrorIn<S, FourLevels>;

/// The refusal of a page of a range, with five levels of page tables.
pub type MapRangeError57<S> = MapRangeErrorIn<S, FiveLevels>;

/// Returns the number of unused entries of a table from an index on, up to the first used one and at most `count`.
fn unused_entries(table: &PageTable, first: usize, count: usize) -> usize
    requires { first + count ≤ 512 }
    ensures within { result ≤ count }
    ensures free { AreUnused table.now first count result }
    ensures size { 0 < count → length table.now ≡ 512 }
{
    for k in 0..count {
        if !table[first + k].is_unused() {
            return k;
        }
    }
    count
}

/// Writes the entries of pages, from an index of their table on, for the frames from a frame on.
fn write_entries<S: PageSize>(
    table: &mut PageTable,
    first: usize,
    count: usize,
    frame: PhysFrame<S>,
    flags: PageTableFlags,
)
    requires within { first + count ≤ 512 }
    requires frames { (k : ℕ) → k < count → frame + k * S.SIZE < 2 ^ 52 }
    ensures { table.new ≡ with_leaves S.LEVEL first frame (bits_of flags) table.old count }
{
    let all_flags = leaf_flags::<S>(flags);
    for k in 0..count {
        table[first + k].set_addr((frame + k as u64).start_address(), all_flags);
    }
}

/// Writes the entries of pages of the table that a path leads to, from an index on, for the frames from a frame on.
/// Stops at the first entry that is used. Returns the number of written entries.
// Counts first, so that the loop that writes has no other way out.
fn set_leaves<S: PageSize, M: TableAccess>(
    mapper: &mut M,
    parents: &[PageTableIndex],
    table: PhysFrame<Size4KiB>,
    first: usize,
    count: usize,
    frame: PhysFrame<S>,
    flags: PageTableFlags,
) -> usize
    requires reached { PathReaches (M.hierarchy mapper.old) parents.now table }
    requires short { length parents.now < (M.hierarchy mapper.old).layout.levels }
    requires some { 0 < count }
    requires within { first + count ≤ 512 }
    requires frames { (k : ℕ) → k < count → frame + k * S.SIZE < 2 ^ 52 }
    ensures within { result ≤ count }
    ensures set { SetsLeaves (M.hierarchy mapper.old) table S.LEVEL first frame (bits_of flags) count result
        (M.hierarchy mapper.new) }
    ensures layout { (M.hierarchy mapper.new).layout ≡ (M.hierarchy mapper.old).layout }
    ensures lent { (M.hierarchy mapper.new).lent ≡ (M.hierarchy mapper.old).lent }
{
    let entries = mapper.table_mut(parents, table);
    let free = unused_entries(entries, first, count);
    write_entries(entries, first, free, frame, flags);
    free
}

/// Maps pages of one table, from the one with a path on, to the frames from a frame on. Stops at the first page whose
/// entry is used. Returns the number of mapped pages.
///
/// # Errors
///
/// Those of [`create_tables`]. Then no page is mapped.
fn map_part<S: PageSize, M: TableAccess, A: FrameAllocator<Size4KiB>>(
    mapper: &mut M,
    path: &[PageTableIndex],
    count: usize,
    frame: PhysFrame<S>,
    flags: PageTableFlags,
    parent_flags: PageTableFlags,
    frame_allocator: &mut A,
) -> Result<usize, PageTableCreateError>
    requires levels { length path.now + S.LEVEL ≡ (M.hierarchy mapper.old).layout.levels + 1 }
    requires ready { SupplyFits (M.hierarchy mapper.old) (A.supply frame_allocator.old) }
    requires outside { begins_with (M.hierarchy mapper.old).layout.window path.now ≡ false }
    requires marks { IsParentFlags (bits_of parent_flags) }
    requires present { WillBePresent (paths (M.hierarchy mapper.old)) (bits_of parent_flags)
        (table_path path.now) }
    requires some { 0 < count }
    requires within { get_or path.now (length path.now - 1) 0 + count ≤ 512 }
    requires frames { (k : ℕ) → k < count → frame + k * S.SIZE < 2 ^ 52 }
    ensures within { IfOk result (λ mapped. mapped ≤ count) }
    ensures maps { MapsPart (M.hierarchy mapper.old) (supply_of A.FrameAllocator frame_allocator.old)
        (bits_of parent_flags) (table_path path.now) S.LEVEL (last_index path.now) frame (bits_of flags) count
        (create_result result) (M.hierarchy mapper.new) (supply_of A.FrameAllocator frame_allocator.new) }
    ensures layout { (M.hierarchy mapper.new).layout ≡ (M.hierarchy mapper.old).layout }
    ensures lent { (M.hierarchy mapper.new).lent ≡ (M.hierarchy mapper.old).lent }
{
    let last = path.len() - 1;
    let parents = &path[..last];
    let table = create_tables(mapper, parents, parent_flags, frame_allocator)?;
    let first = usize::from(path[last]);
    Ok(set_leaves(mapper, parents, table, first, count, frame, flags))
}

/// Maps a number of pages, from a page on, to as many frames, from a frame on, in order, up to the first page that is
/// refused.
///
/// Conditions and errors are those of [`Mapper::map_range`](crate::mapper::Mapper::map_range).
pub fn map_range<
    S: PageSize,
    L: LevelCount,
    M: TableAccess + TablesIn<L>,
    A: FrameAllocator<Size4KiB>,
>(
    mapper: &mut M,
    page: PageIn<S, L>,
    count: u64,
    frame: PhysFrame<S>,
    flags: PageTableFlags,
    parent_flags: PageTableFlags,
    frame_allocator: &mut A,
) -> Result<MapperFlushRangeIn<S, L>, MapRangeErrorIn<S, L>>
    requires fits { SupplyFits (M.hierarchy mapper.old) (A.supply frame_allocator.old) }
    requires may { MayMapRange (M.hierarchy mapper.old)
        (range_of S.LEVEL page frame (bits_of flags) (bits_of parent_flags)) count }
    ensures maps { MapsRange (M.hierarchy mapper.old) (supply_of A.FrameAllocator frame_allocator.old)
        (range_of S.LEVEL page frame (bits_of flags) (bits_of parent_flags)) count result
        (M.hierarchy mapper.new) (supply_of A.FrameAllocator frame_allocator.new) }
    ensures pages { IfOk result (λ flush. flush ≡ flush_range page count) }
    ensures first { IfErr result (λ error. error.mapped.page ≡ page) }
{
    let mut done = 0;
    'parts: while done < count {
        let path = path_of_page(mapper, page_after(page, done));
        let indices = path.indices();
        let room = 512 - u64::from(indices[indices.len() - 1]);
        let part = room.min(count - done);
        let from = frame + done;
        match map_part(
            mapper,
            indices,
            part as usize,
            from,
            flags,
            parent_flags,
            frame_allocator,
        ) {
            Ok(mapped) => {
                done += mapped as u64;
                if (mapped as u64) < part {
                    let why = MapToError::PageAlreadyMapped(frame + done);
                    let mapped = MapperFlushRangeIn::new(page, done);
                    return Err(MapRangeErrorIn { mapped, why });
                }
            }
            Err(why) => {
                let mapped = MapperFlushRangeIn::new(page, done);
                let why = why.into();
                return Err(MapRangeErrorIn { mapped, why });
            }
        }
    }
    Ok(MapperFlushRangeIn::new(page, count))
}
