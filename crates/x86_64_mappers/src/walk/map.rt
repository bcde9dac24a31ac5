//! Maps of pages.
ghost use Rattle.std.specs.Prelude.{◌≡◌, ◌<◌, ◌+◌, true, false, if◌then◌else◌, length, take, get_or, bit_or, Some, IfOk, Ok, Err};
ghost use Rattle.x86_64_model.specs.Entry.{address, huge, IsParentFlags};
ghost use Rattle.x86_64_model.specs.Hierarchy.{allows_map, MayMapIf, SupplyFits, paths, words};
ghost use Rattle.x86_64_model.specs.private.MapperCalls.{MapsPath};
ghost use Rattle.x86_64_model.specs.Refusal.{ParentEntryHugePage};
ghost use Rattle.x86_64_model.specs.Window.{begins_with};
ghost use Rattle.x86_64_mappers.specs.Supplies.{supply_of};
ghost use Rattle.x86_64_mappers.specs.TablesAbove.{CreatesTables, tables_refusal};
ghost use Rattle.x86_64_mappers.specs.private.OpenWay.{WillBePresent};
ghost use Rattle.x86_64_mappers.specs.private.OwnedSteps.{LinksTable, MakesTable, MakesTables, SetsLeaf, SetsWord, LeadsOpenly, MayNameTable};
ghost use Rattle.x86_64_mappers.specs.Reached.{PathReaches};
ghost use Rattle.x86_64_mappers.specs.private.PageCalls.{page_word};
ghost use Rattle.x86_64_mappers.specs.private.Results.{create_refusal, create_result};
ghost use Rattle.x86_64_tables.specs.MapperAnswers.{map_answer};
ghost use Rattle.x86_64_tables.specs.PageTable.{zero_words};
ghost use Rattle.x86_64_tables.specs.PageTableFlags.{bits_of};

use super::leaf::leaf_flags;
use super::{TableAccess, entry_mut};
use bitflags::Flags;
use x86_64_addr::index::PageTableIndex;
use x86_64_page::frame::PhysFrame;
use x86_64_page::page::{PageSize, Size4KiB};
use x86_64_tables::errors::MapToError;
use x86_64_tables::frame_alloc::FrameAllocator;
use x86_64_tables::page_table::{PageTableEntry, PageTableFlags};

/// The reason why there is no table on the path of a page.
#[derive(Clone, Copy, Debug, PartialEq)]
pub enum PageTableCreateError {
    /// A parent of the page has `HUGE_PAGE`.
    MappedToHugePage,
    /// The table was missing, and no frame was left for it.
    FrameAllocationFailed,
}

impl<S: PageSize> From<PageTableCreateError> for MapToError<S> {
    ghost use Rattle.x86_64_tables.specs.MapperAnswers.{map_refusal};

    ghost from_gives = { λ error gives. map_refusal gives ≡ create_refusal error };

    fn from(error: PageTableCreateError) -> MapToError<S> {
        match error {
            PageTableCreateError::MappedToHugePage => MapToError::ParentEntryHugePage,
            PageTableCreateError::FrameAllocationFailed => MapToError::FrameAllocationFailed,
        }
    }
}

/// Makes the entry at index `k` of the parents, in the given table, name a frame. If the mapper reaches tables that no
/// entry names, it has cleared the table in the frame before.
// Inlined like `link_table`, which calls it.
#[inline(always)]
fn name_table<M: TableAccess>(
    mapper: &mut M,
    parents: &[PageTableIndex],
    k: usize,
    table: PhysFrame<Size4KiB>,
    frame: PhysFrame<Size4KiB>,
    flags: PageTableFlags,
)
    requires within { k < length parents.now }
    requires short { length parents.now < (M.hierarchy mapper.old).layout.levels }
    requires cleared { M.reaches_unnamed ≡ true → words (M.hierarchy mapper.old) frame ≡ Some zero_words }
    requires may { MayNameTable (M.hierarchy mapper.old) parents.now k table frame (bits_of flags) }
    ensures named { SetsWord (M.hierarchy mapper.old) table (get_or parents.now k 0)
        (bit_or frame (bits_of flags)) (M.hierarchy mapper.new) }
    ensures reached { PathReaches (M.hierarchy mapper.new) (take (k + 1) parents.now) frame }
    ensures layout { (M.hierarchy mapper.new).layout ≡ (M.hierarchy mapper.old).layout }
    ensures lent { (M.hierarchy mapper.new).lent ≡ (M.hierarchy mapper.old).lent }
{
    entry_mut(mapper, &parents[..k], table, parents[k]).set_frame(frame, flags);
}

/// Makes the entry at index `k` of the parents, in the given table, name a frame, and clears the table in that frame.
///
/// The table is cleared first, since a processor may follow the entry at once and would take old words of the frame for
/// entries. A mapper that reaches the table only through its entry clears it last.
// Inlined, since a call would pass the indices in memory, and each map would have to write them there.
#[inline(always)]
fn link_table<M: TableAccess>(
    mapper: &mut M,
    parents: &[PageTableIndex],
    k: usize,
    table: PhysFrame<Size4KiB>,
    frame: PhysFrame<Size4KiB>,
    flags: PageTableFlags,
)
    requires within { k < length parents.now }
    requires short { length parents.now < (M.hierarchy mapper.old).layout.levels }
    requires may { MayNameTable (M.hierarchy mapper.old) parents.now k table frame (bits_of flags) }
    ensures linked { LinksTable (M.hierarchy mapper.old) table (get_or parents.now k 0)
        (bit_or frame (bits_of flags)) frame (M.hierarchy mapper.new) }
    ensures layout { (M.hierarchy mapper.new).layout ≡ (M.hierarchy mapper.old).layout }
    ensures lent { (M.hierarchy mapper.new).lent ≡ (M.hierarchy mapper.old).lent }
{
    let cleared = mapper.clear_unnamed(frame);
    name_table(mapper, parents, k, table, frame, flags);
    if !cleared {
        mapper.table_mut(&parents[..k + 1], frame).zero();
    }
}

/// Adds flags to an entry. Writes it only if it lacks one of them, since the next map reads the word and would wait
/// for the write.
fn add_flags(entry: &mut PageTableEntry, more: PageTableFlags)
    ensures { entry.new ≡ bit_or entry.old (bits_of more) }
{
    let flags = entry.flags();
    if !flags.contains(more) {
        entry.set_flags(flags.union(more));
    }
}

/// Adds the parent flags to the used entry of a parent, and returns the frame of the table that it names.
///
/// # Errors
///
/// `MappedToHugePage` if the entry has `HUGE_PAGE`. It gets the flags then too.
fn mark_parent(
    entry: &mut PageTableEntry,
    parent_flags: PageTableFlags,
) -> Result<PhysFrame<Size4KiB>, PageTableCreateError>
    ensures marked { entry.new ≡ bit_or entry.old (bits_of parent_flags) }
    ensures names { create_result result
        ≡ (if huge entry.old then Err ParentEntryHugePage else Ok (address entry.old)) }
{
    let flags = entry.flags();
    let next = PhysFrame::from_start_address_unchecked(entry.addr());
    add_flags(entry, parent_flags);
    if flags.contains(PageTableFlags::HUGE_PAGE) {
        Err(PageTableCreateError::MappedToHugePage)
    } else {
        Ok(next)
    }
}

/// Returns the frame of the table that the entry at index `k` of the parents names. The entry is in the given table.
/// A used entry gets the parent flags, and an unused one is made to name a new table.
///
/// # Errors
///
/// `MappedToHugePage` if the entry is used and has `HUGE_PAGE`. `FrameAllocationFailed` if it is unused and the
/// allocator has no frame.
// Inlined, since callers know the number of indices, and then the window of each table takes a few instructions.
#[inline(always)]
fn create_next_table<M: TableAccess, A: FrameAllocator<Size4KiB>>(
    mapper: &mut M,
    parents: &[PageTableIndex],
    k: usize,
    table: PhysFrame<Size4KiB>,
    parent_flags: PageTableFlags,
    frame_allocator: &mut A,
) -> Result<PhysFrame<Size4KiB>, PageTableCreateError>
    requires ready { SupplyFits (M.hierarchy mapper.old) (A.supply frame_allocator.old) }
    requires within { k < length parents.now }
    requires short { length parents.now < (M.hierarchy mapper.old).layout.levels }
    requires outside { begins_with (M.hierarchy mapper.old).layout.window parents.now ≡ false }
    requires flags { IsParentFlags (bits_of parent_flags) }
    requires way { LeadsOpenly (M.hierarchy mapper.old) (bits_of parent_flags) parents.now k table }
    ensures made { MakesTable (M.hierarchy mapper.old) (supply_of A.FrameAllocator frame_allocator.old)
        (bits_of parent_flags) table (get_or parents.now k 0) (create_result result)
        (M.hierarchy mapper.new) (supply_of A.FrameAllocator frame_allocator.new) }
    ensures index { get_or parents.now k 0 < 512 }
    ensures layout { (M.hierarchy mapper.new).layout ≡ (M.hierarchy mapper.old).layout }
    ensures lent { (M.hierarchy mapper.new).lent ≡ (M.hierarchy mapper.old).lent }
{
    let entry = entry_mut(mapper, &parents[..k], table, parents[k]);
    if !entry.is_unused() {
        return mark_parent(entry, parent_flags);
    }
    let Some(frame) = frame_allocator.allocate_frame() else {
        return Err(PageTableCreateError::FrameAllocationFailed);
    };
    let flags = parent_flags.union(mapper.new_table_flags());
    link_table(mapper, parents, k, table, frame, flags);
    Ok(frame)
}

/// Returns the frame of the table below the parents of a page. From the root down, creates missing tables and adds
/// the parent flags to used parents.
///
/// # Errors
///
/// Those of the first call of [`create_next_table`] that fails.
// Inlined for the reason above.
#[inline(always)]
pub(super) fn create_tables<M: TableAccess, A: FrameAllocator<Size4KiB>>(
    mapper: &mut M,
    parents: &[PageTableIndex],
    parent_flags: PageTableFlags,
    frame_allocator: &mut A,
) -> Result<PhysFrame<Size4KiB>, PageTableCreateError>
    requires ready { SupplyFits (M.hierarchy mapper.old) (A.supply frame_allocator.old) }
    requires short { length parents.now < (M.hierarchy mapper.old).layout.levels }
    requires outside { begins_with (M.hierarchy mapper.old).layout.window parents.now ≡ false }
    requires flags { IsParentFlags (bits_of parent_flags) }
    requires present { WillBePresent (paths (M.hierarchy mapper.old)) (bits_of parent_flags) parents.now }
    ensures made { MakesTables (M.hierarchy mapper.old) (supply_of A.FrameAllocator frame_allocator.old)
        (bits_of parent_flags) parents.now (create_result result)
        (M.hierarchy mapper.new) (supply_of A.FrameAllocator frame_allocator.new) }
    ensures reached { IfOk result (λ frame. PathReaches (M.hierarchy mapper.new) parents.now frame) }
    ensures layout { (M.hierarchy mapper.new).layout ≡ (M.hierarchy mapper.old).layout }
    ensures lent { (M.hierarchy mapper.new).lent ≡ (M.hierarchy mapper.old).lent }
{
    let mut table = mapper.root();
    for k in 0..parents.len() {
        table = create_next_table(mapper, parents, k, table, parent_flags, frame_allocator)?;
    }
    Ok(table)
}

/// Makes the tables above the page with a path, and adds the parent flags to the entries above it. The path has one index per
/// level, from the root's level down to that of the page's own entry, which stays.
///
/// # Errors
///
/// Those of [`create_tables`].
pub fn create_tables_above<S: PageSize, M: TableAccess, A: FrameAllocator<Size4KiB>>(
    mapper: &mut M,
    path: &[PageTableIndex],
    parent_flags: PageTableFlags,
    frame_allocator: &mut A,
) -> Result<(), MapToError<S>>
    requires levels { length path.now + S.LEVEL ≡ (M.hierarchy mapper.old).layout.levels + 1 }
    requires may { MayMapIf (M.hierarchy mapper.old) (A.supply frame_allocator.old)
        (allows_map (M.hierarchy mapper.old) path.now 0 (bits_of parent_flags)) }
    ensures { CreatesTables (M.hierarchy mapper.old) (supply_of A.FrameAllocator frame_allocator.old)
        (bits_of parent_flags) path.now (tables_refusal result)
        (M.hierarchy mapper.new) (supply_of A.FrameAllocator frame_allocator.new) }
{
    let last = path.len() - 1;
    create_tables(mapper, &path[..last], parent_flags, frame_allocator)?;
    Ok(())
}

/// Writes the entry of a page that is mapped to a frame, at an index of the table below the page's parents. An entry
/// above level one gets `HUGE_PAGE` too.
///
/// # Errors
///
/// `PageAlreadyMapped` with the frame if the entry is used.
fn set_leaf<S: PageSize, M: TableAccess>(
    mapper: &mut M,
    parents: &[PageTableIndex],
    table: PhysFrame<Size4KiB>,
    index: PageTableIndex,
    frame: PhysFrame<S>,
    flags: PageTableFlags,
) -> Result<(), MapToError<S>>
    requires reached { PathReaches (M.hierarchy mapper.old) parents.now table }
    requires short { length parents.now < (M.hierarchy mapper.old).layout.levels }
    ensures set { SetsLeaf (M.hierarchy mapper.old) table index
        (page_word S.LEVEL frame (bits_of flags)) frame (map_answer frame result) (M.hierarchy mapper.new) }
    ensures index { index < 512 }
    ensures layout { (M.hierarchy mapper.new).layout ≡ (M.hierarchy mapper.old).layout }
    ensures lent { (M.hierarchy mapper.new).lent ≡ (M.hierarchy mapper.old).lent }
{
    let entry = entry_mut(mapper, parents, table, index);
    if !entry.is_unused() {
        return Err(MapToError::PageAlreadyMapped(frame));
    }
    entry.set_addr(frame.start_address(), leaf_flags::<S>(flags));
    Ok(())
}

/// Maps the page with a path to a frame. The path has one index per level, from the root's level down to that of the
/// page's own entry.
///
/// # Errors
///
/// Those of [`create_tables`], then those of [`set_leaf`].
pub fn map_path<S: PageSize, M: TableAccess, A: FrameAllocator<Size4KiB>>(
    mapper: &mut M,
    path: &[PageTableIndex],
    frame: PhysFrame<S>,
    flags: PageTableFlags,
    parent_flags: PageTableFlags,
    frame_allocator: &mut A,
) -> Result<(), MapToError<S>>
    requires levels { length path.now + S.LEVEL ≡ (M.hierarchy mapper.old).layout.levels + 1 }
    requires may { MayMapIf (M.hierarchy mapper.old) (A.supply frame_allocator.old)
        (allows_map (M.hierarchy mapper.old) path.now (bits_of flags) (bits_of parent_flags)) }
    ensures maps { MapsPath (M.hierarchy mapper.old) (A.supply frame_allocator.old)
        path.now frame (bits_of flags) (bits_of parent_flags) (map_answer frame result)
        (M.hierarchy mapper.new) (A.supply frame_allocator.new) }
    ensures serves { A.serves frame_allocator.new ≡ A.serves frame_allocator.old }
{
    let last = path.len() - 1;
    let parents = &path[..last];
    let table = create_tables(mapper, parents, parent_flags, frame_allocator)?;
    set_leaf(mapper, parents, table, path[last], frame, flags)
}
