//! Changes of the entries of ranges of pages.
ghost use Rattle.std.specs.Prelude.{◌≡◌, ◌<◌, ◌≤◌, ◌+◌, ◌-◌, ◌*◌, ◌/◌, ◌∷◌, [], ℕ, List, Ok, fold, true, length, take, IfOk, IfErr};
ghost use Rattle.x86_64_model.specs.Call.{Reply, Answered};
ghost use Rattle.x86_64_model.specs.Entry.{no_address};
ghost use Rattle.x86_64_model.specs.Hierarchy.{Valid, path_of};
ghost use Rattle.x86_64_model.specs.Position.{span};
ghost use Rattle.x86_64_mappers.specs.RangeChanges.{frames_done, IsRange, UnmapsEach, UpdatesEach};
ghost use Rattle.x86_64_mappers.specs.Reached.{PathReaches};
ghost use Rattle.x86_64_mappers.specs.private.OwnedSteps.{FindsTable};
ghost use Rattle.x86_64_mappers.specs.private.PageCalls.{unmap_says, update_says};
ghost use Rattle.x86_64_mappers.specs.private.RangeChangeSteps.{with_results, replies_said, count_unless, last_index, table_path, AreStopped, ChangesPart};
ghost use Rattle.x86_64_mappers.specs.private.Results.{walk_refusal};
ghost use Rattle.x86_64_tables.specs.FlushRecorder.{flush_range};
ghost use Rattle.x86_64_tables.specs.MapperAnswers.{frame_answer, flags_refusal};
ghost use Rattle.x86_64_tables.specs.PageTableFlags.{bits_of};

use super::TableAccess;
use super::change::{unmap_entry, update_entry};
use super::parents::{PageTableWalkError, walk_to_table};
use super::path::path_of_page;
use x86_64_addr::index::PageTableIndex;
use x86_64_addr::level_count::LevelCount;
use x86_64_page::frame::PhysFrame;
use x86_64_page::page::{PageIn, PageSize, Size4KiB};
use x86_64_tables::errors::{FlagUpdateError, UnmapError};
use x86_64_tables::page_table::{PageTable, PageTableFlags};
use x86_64_tables::page_tables::TablesIn;
use x86_64_tables::tokens::{MapperFlushRangeIn, page_after};

/// Takes the frames of unmapped pages, one after another.
pub trait FrameSink {
    ghost use Rattle.std.specs.Prelude.{ℕ};

    /// The sink after it takes a frame.
    ghost with_frame: { Self → ℕ → Self };

    /// Takes a frame.
    fn take<S: PageSize>(&mut self, frame: PhysFrame<S>)
        ensures { self.new ≡ Self.with_frame self.old frame };
}

/// The first pages of a range: those for which one walk decides.
#[derive(Clone, Copy)]
struct Part {
    /// The number of pages.
    pages: u64,
    /// The table with their entries, or the reason why there is none.
    table: Result<PhysFrame<Size4KiB>, PageTableWalkError>,
}

/// Returns the number of the pages, from a page on, that lie below the same entry of a level.
fn pages_below<S: PageSize, L: LevelCount>(page: PageIn<S, L>, level: u64) -> u64
    requires above { S.LEVEL ≤ level }
    requires low { level ≤ 5 }
    ensures some { 0 < result }
    ensures same { (k : ℕ) → k < result
        → (page + k * span S.LEVEL) / span level ≡ page / span level }
{
    let number = page.start_address().position() / S::SIZE;
    let pages = 1u64 << (9 * (level - S::LEVEL));
    pages - number % pages
}

/// Looks for the table with the entry of a page, which has this path. Returns it with the number of the pages, from
/// this one on and at most `count`, that have their entries in it too. If a parent refuses the page, it refuses all
/// pages below itself, and then their number is returned.
#[inline]
fn find_part<S: PageSize, L: LevelCount, M: TableAccess + TablesIn<L>>(
    mapper: &M,
    page: PageIn<S, L>,
    path: &[PageTableIndex],
    count: u64,
) -> Part
    requires valid { Valid (M.hierarchy mapper.now) }
    requires path { path.now ≡ path_of (M.hierarchy mapper.now) S.LEVEL page }
    requires levels { length path.now + S.LEVEL ≡ (M.hierarchy mapper.now).layout.levels + 1 }
    requires some { 0 < count }
    ensures some { 0 < result.pages }
    ensures within { result.pages ≤ count }
    ensures found { IfOk result.table (λ table.
        FindsTable (M.hierarchy mapper.now) (table_path path.now) (Ok table)) }
    ensures reached { IfOk result.table (λ table.
        PathReaches (M.hierarchy mapper.now) (table_path path.now) table) }
    ensures fits { IfOk result.table (λ _. last_index path.now + result.pages ≤ 512) }
    ensures refused { IfErr result.table (λ why.
        AreStopped (M.hierarchy mapper.now) S.LEVEL page result.pages (walk_refusal why)) }
{
    let last = path.len() - 1;
    match walk_to_table(mapper, &path[..last]) {
        Ok(table) => Part {
            pages: (512 - u64::from(path[last])).min(count),
            table: Ok(table),
        },
        Err(end) => Part {
            pages: pages_below(page, S::LEVEL + (path.len() - end.depth) as u64).min(count),
            table: Err(end.why),
        },
    }
}

/// Passes the frame of an unmapped page on, if it was unmapped.
fn pass_on<S: PageSize, K: FrameSink>(unmapped: Result<PhysFrame<S>, UnmapError>, sink: &mut K)
    ensures { sink.new
        ≡ fold K.with_frame sink.old (frames_done (Answered (frame_answer unmapped) ∷ [])) }
{
    if let Ok(frame) = unmapped {
        sink.take(frame);
    }
}

/// Unmaps pages by their entries in a table, from an index on, and passes their frames on.
fn unmap_entries<S: PageSize, K: FrameSink>(
    table: &mut PageTable,
    first: usize,
    count: usize,
    sink: &mut K,
)
    requires { first + count ≤ 512 }
    ensures words { table.new ≡ with_results (unmap_says S.LEVEL) first table.old count }
    ensures taken { sink.new ≡ fold K.with_frame sink.old
        (frames_done (replies_said (unmap_says S.LEVEL) first table.old count)) }
    ensures size { 0 < count → length table.old ≡ 512 }
{
    for k in 0..count {
        let unmapped = unmap_entry::<S>(&mut table[first + k]);
        pass_on(unmapped, sink);
    }
}

/// Unmaps the first pages of a number of pages, from a page on, and passes their frames on. Returns how many pages
/// these are: those for which one walk decides.
fn unmap_part<S: PageSize, L: LevelCount, M: TableAccess + TablesIn<L>, K: FrameSink>(
    mapper: &mut M,
    page: PageIn<S, L>,
    count: u64,
    sink: &mut K,
) -> u64
    requires valid { Valid (M.hierarchy mapper.old) }
    requires some { 0 < count }
    ensures some { 0 < result }
    ensures within { result ≤ count }
    ensures changes { (replies : List Reply)
        × ChangesPart (M.hierarchy mapper.old) S.LEVEL page (unmap_says S.LEVEL)
        result replies (M.hierarchy mapper.new)
        × (sink.new ≡ fold K.with_frame sink.old (frames_done replies)) }
    ensures layout { (M.hierarchy mapper.new).layout ≡ (M.hierarchy mapper.old).layout }
    ensures lent { (M.hierarchy mapper.new).lent ≡ (M.hierarchy mapper.old).lent }
{
    let path = path_of_page(mapper, page);
    let indices = path.indices();
    let part = find_part(mapper, page, indices, count);
    let table = match part.table {
        Ok(table) => table,
        Err(_why) => return part.pages,
    };
    let last = indices.len() - 1;
    let entries = mapper.table_mut(&indices[..last], table);
    unmap_entries::<S, K>(
        entries,
        usize::from(indices[last]),
        part.pages as usize,
        sink,
    );
    part.pages
}

/// Unmaps the pages of a range, and passes the frames of those that were mapped on, in order.
///
/// Conditions are those of [`Mapper::unmap_range`](crate::mapper::Mapper::unmap_range), which says more.
pub fn unmap_range<S: PageSize, L: LevelCount, M: TableAccess + TablesIn<L>, K: FrameSink>(
    mapper: &mut M,
    page: PageIn<S, L>,
    count: u64,
    sink: &mut K,
) -> MapperFlushRangeIn<S, L>
    requires valid { Valid (M.hierarchy mapper.old) }
    requires pages { IsRange (M.hierarchy mapper.old) S.LEVEL page count }
    ensures does { (replies : List Reply)
        × UnmapsEach (M.hierarchy mapper.old) S.LEVEL page count replies (M.hierarchy mapper.new)
        × (sink.new ≡ fold K.with_frame sink.old (frames_done replies)) }
    ensures pages { result ≡ flush_range page count }
{
    let mut done = 0;
    'parts: while done < count {
        done += unmap_part(mapper, page_after(page, done), count - done, sink);
    }
    MapperFlushRangeIn::new(page, count)
}

/// Returns 1 if the flags of an entry were set, and 0 otherwise.
fn count_of(updated: Result<(), FlagUpdateError>) -> u64
    ensures { result ≡ count_unless (flags_refusal updated) }
{
    match updated {
        Ok(()) => 1,
        Err(_) => 0,
    }
}

/// Sets the flags of pages by their entries in a table, from an index on. Entries that map no page stay. Returns the
/// number of entries that were changed.
fn update_entries<S: PageSize>(
    table: &mut PageTable,
    first: usize,
    count: usize,
    flags: PageTableFlags,
) -> u64
    requires { first + count ≤ 512 }
    ensures words { table.new ≡ with_results (update_says S.LEVEL (bits_of flags)) first table.old count }
    ensures changed { result ≡ length (frames_done
        (replies_said (update_says S.LEVEL (bits_of flags)) first table.old count)) }
    ensures few { result ≤ count }
    ensures size { 0 < count → length table.old ≡ 512 }
{
    let mut changed = 0;
    for k in 0..count {
        let updated = update_entry::<S>(&mut table[first + k], flags);
        changed += count_of(updated);
    }
    changed
}

/// The pages of a part whose flags were to be set.
#[derive(Clone, Copy)]
struct UpdatedPart {
    /// The number of pages.
    pages: u64,
    /// The number of pages whose flags were set.
    changed: u64,
}

/// Sets the flags of the first pages of a number of pages, from a page on: of those for which one walk decides.
fn update_part<S: PageSize, L: LevelCount, M: TableAccess + TablesIn<L>>(
    mapper: &mut M,
    page: PageIn<S, L>,
    count: u64,
    flags: PageTableFlags,
) -> UpdatedPart
    requires valid { Valid (M.hierarchy mapper.old) }
    requires some { 0 < count }
    ensures some { 0 < result.pages }
    ensures within { result.pages ≤ count }
    ensures few { result.changed ≤ result.pages }
    ensures changes { (replies : List Reply)
        × ChangesPart (M.hierarchy mapper.old) S.LEVEL page (update_says S.LEVEL (bits_of flags))
        result.pages replies (M.hierarchy mapper.new)
        × (result.changed ≡ length (frames_done replies)) }
    ensures layout { (M.hierarchy mapper.new).layout ≡ (M.hierarchy mapper.old).layout }
    ensures lent { (M.hierarchy mapper.new).lent ≡ (M.hierarchy mapper.old).lent }
{
    let path = path_of_page(mapper, page);
    let indices = path.indices();
    let part = find_part(mapper, page, indices, count);
    let pages = part.pages;
    let table = match part.table {
        Ok(table) => table,
        Err(_why) => return UpdatedPart { pages, changed: 0 },
    };
    let last = indices.len() - 1;
    let entries = mapper.table_mut(&indices[..last], table);
    let changed = update_entries::<S>(entries, usize::from(indices[last]), pages as usize, flags);
    UpdatedPart { pages, changed }
}

/// Sets the flags of the pages of a range. Returns how many were mapped, with the token for all of them.
///
/// Conditions are those of [`Mapper::update_flags_range`](crate::mapper::Mapper::update_flags_range), which says more.
pub fn update_flags_range<S: PageSize, L: LevelCount, M: TableAccess + TablesIn<L>>(
    mapper: &mut M,
    page: PageIn<S, L>,
    count: u64,
    flags: PageTableFlags,
) -> (u64, MapperFlushRangeIn<S, L>)
    requires valid { Valid (M.hierarchy mapper.old) }
    requires pages { IsRange (M.hierarchy mapper.old) S.LEVEL page count }
    requires flags { no_address (bits_of flags) ≡ true }
    ensures does { (replies : List Reply)
        × UpdatesEach (M.hierarchy mapper.old) S.LEVEL page (bits_of flags) count
        replies (M.hierarchy mapper.new)
        × (result.0 ≡ length (frames_done replies)) }
    ensures pages { result.1 ≡ flush_range page count }
{
    let mut done = 0;
    let mut changed = 0;
    'parts: while done < count {
        let part = update_part(mapper, page_after(page, done), count - done, flags);
        done += part.pages;
        changed += part.changed;
    }
    (changed, MapperFlushRangeIn::new(page, count))
}
