//! The calls of mappers, over any number of levels. The methods of [`Mapper`](crate::mapper::Mapper),
//! [`Translate`](crate::mapper::Translate) and [`CleanUp`](crate::mapper::CleanUp), and those of five levels, call
//! these. Their documentation says more about each call.
ghost use Rattle.std.specs.Prelude.{◌≡◌, ◌<◌, ◌≤◌, ◌-◌, IfOk};
ghost use Rattle.x86_64_model.specs.Call.{MapTo, MapToWithTableFlags, IdentityMap, Unmap, UpdateFlags, SetFlags};
ghost use Rattle.x86_64_model.specs.Hierarchy.{allows, Does, MayCall, MayMap, Valid};
ghost use Rattle.x86_64_model.specs.Position.{lower_half, position_count};
ghost use Rattle.x86_64_mappers.specs.CleanUps.{deallocator_store, MayCleanUpInto, CleansUpInto};
ghost use Rattle.x86_64_mappers.specs.PageAnswers.{allows_page, translated_page, DoesFlags, ArrivesIfPresent};
ghost use Rattle.x86_64_mappers.specs.Supplies.{MapsFrom, supply_of};
ghost use Rattle.x86_64_mappers.specs.TablesAbove.{CreatesAbove, tables_refusal};
ghost use Rattle.x86_64_tables.specs.MapperAnswers.{map_answer, unmap_answer, translate_answer};
ghost use Rattle.x86_64_tables.specs.PageTableFlags.{bits_of};

pub use crate::walk::TableAccess;
pub use crate::walk::change_range::{FrameSink, unmap_range, update_flags_range};
use crate::walk::clean_up::all_pages;
pub use crate::walk::clean_up::below_root::clean_up_below_root;
pub use crate::walk::clean_up::clean_up_range;
pub use crate::walk::condition::{map_range_allowed, range_allowed};
pub use crate::walk::map_range::{MapRangeError, MapRangeError57, MapRangeErrorIn, map_range};
use crate::walk::path::path_of_page;
pub use crate::walk::translate::{translate, translate_addr};
use crate::walk::{change, condition, map, translate as translations};
use x86_64_addr::addr::VirtAddrIn;
use x86_64_addr::level_count::LevelCount;
use x86_64_page::frame::PhysFrame;
use x86_64_page::page::{PageIn, PageSize, Size4KiB};
use x86_64_tables::errors::{FlagUpdateError, MapToError, TranslateError, UnmapError};
use x86_64_tables::frame_alloc::{FrameAllocator, FrameDeallocator};
use x86_64_tables::page_table::PageTableFlags;
use x86_64_tables::page_tables::{TablesIn, parent_flags};
use x86_64_tables::tokens::{MapperFlushAll, MapperFlushIn};

/// Maps a page to a frame with these flags, and adds the parent flags to the entries above it. Missing tables are
/// created in frames of the allocator.
///
/// Conditions and errors are those of
/// [`Mapper::map_to_with_table_flags`](crate::mapper::Mapper::map_to_with_table_flags).
pub fn map_to_with_table_flags<
    S: PageSize,
    L: LevelCount,
    M: TableAccess + TablesIn<L>,
    A: FrameAllocator<Size4KiB>,
>(
    mapper: &mut M,
    page: PageIn<S, L>,
    frame: PhysFrame<S>,
    flags: PageTableFlags,
    parent_flags: PageTableFlags,
    frame_allocator: &mut A,
) -> Result<MapperFlushIn<S, L>, MapToError<S>>
    requires { MayMap (M.hierarchy mapper.old) (A.supply frame_allocator.old)
        (MapToWithTableFlags S.LEVEL page frame (bits_of flags) (bits_of parent_flags)) }
    ensures does { MapsFrom (M.hierarchy mapper.old) (supply_of A.FrameAllocator frame_allocator.old)
        (MapToWithTableFlags S.LEVEL page frame (bits_of flags) (bits_of parent_flags))
        (map_answer frame result) (M.hierarchy mapper.new)
        (supply_of A.FrameAllocator frame_allocator.new) }
    ensures page { IfOk result (λ flush. flush ≡ page) }
{
    let path = path_of_page(mapper, page);
    map::map_path(
        mapper,
        path.indices(),
        frame,
        flags,
        parent_flags,
        frame_allocator,
    )?;
    Ok(MapperFlushIn::new(page))
}

/// Makes the tables above a page as [`map_to_with_table_flags`] makes them, and leaves the page's own entry: adds the parent flags
/// to the entries above the page, and creates missing tables in frames of the allocator.
///
/// Conditions are those of [`map_to_with_table_flags`] for no flags. They hold again afterwards.
///
/// # Errors
///
/// - `ParentEntryHugePage` if an entry above the page's own has `HUGE_PAGE`.
/// - Otherwise `FrameAllocationFailed` if the allocator has too few frames.
///
/// The changes made before the refusal remain.
pub fn create_tables<
    S: PageSize,
    L: LevelCount,
    M: TableAccess + TablesIn<L>,
    A: FrameAllocator<Size4KiB>,
>(
    mapper: &mut M,
    page: PageIn<S, L>,
    parent_flags: PageTableFlags,
    frame_allocator: &mut A,
) -> Result<(), MapToError<S>>
    requires { MayMap (M.hierarchy mapper.old) (A.supply frame_allocator.old)
        (MapToWithTableFlags S.LEVEL page 0 0 (bits_of parent_flags)) }
    ensures { CreatesAbove (M.hierarchy mapper.old) (supply_of A.FrameAllocator frame_allocator.old)
        S.LEVEL page (bits_of parent_flags) (tables_refusal result)
        (M.hierarchy mapper.new) (supply_of A.FrameAllocator frame_allocator.new) }
{
    let path = path_of_page(mapper, page);
    map::create_tables_above(mapper, path.indices(), parent_flags, frame_allocator)
}

/// Maps a page to a frame with these flags. The entries above it get those of `PRESENT`, `WRITABLE` and
/// `USER_ACCESSIBLE` that the flags have. Missing tables are created in frames of the allocator.
///
/// Requires that the hierarchy is valid, that the frames that the allocator can hand out are distinct and in the
/// memory, and neither frame 0 nor the frame of a table, and that [`map_allowed`] returns true for the flags and these
/// parent flags.
///
/// # Errors
///
/// - `ParentEntryHugePage` if an entry above the page's own has `HUGE_PAGE`.
/// - Otherwise `FrameAllocationFailed` if the allocator has too few frames.
/// - Otherwise `PageAlreadyMapped` with the given frame if the page's entry is used.
///
/// The changes made before the refusal remain: new tables, and flags added to the entries above.
pub fn map_to<
    S: PageSize,
    L: LevelCount,
    M: TableAccess + TablesIn<L>,
    A: FrameAllocator<Size4KiB>,
>(
    mapper: &mut M,
    page: PageIn<S, L>,
    frame: PhysFrame<S>,
    flags: PageTableFlags,
    frame_allocator: &mut A,
) -> Result<MapperFlushIn<S, L>, MapToError<S>>
    requires { MayMap (M.hierarchy mapper.old) (A.supply frame_allocator.old)
        (MapTo S.LEVEL page frame (bits_of flags)) }
    ensures does { MapsFrom (M.hierarchy mapper.old) (supply_of A.FrameAllocator frame_allocator.old)
        (MapTo S.LEVEL page frame (bits_of flags)) (map_answer frame result)
        (M.hierarchy mapper.new) (supply_of A.FrameAllocator frame_allocator.new) }
    ensures page { IfOk result (λ flush. flush ≡ page) }
    ensures arrives { IfOk result (λ _.
        ArrivesIfPresent (M.hierarchy mapper.new) S.SIZE page frame (bits_of flags)) }
{
    let parent_flags = parent_flags(flags);
    map_to_with_table_flags(mapper, page, frame, flags, parent_flags, frame_allocator)
}

/// Maps the page that starts at a frame's own address to the frame.
///
/// Requires the conditions of [`map_to`] for this page, and that the frame's address is in the lower half of the
/// address space. Errors are those of [`map_to`].
pub fn identity_map<
    S: PageSize,
    L: LevelCount,
    M: TableAccess + TablesIn<L>,
    A: FrameAllocator<Size4KiB>,
>(
    mapper: &mut M,
    frame: PhysFrame<S>,
    flags: PageTableFlags,
    frame_allocator: &mut A,
) -> Result<MapperFlushIn<S, L>, MapToError<S>>
    requires low { frame < lower_half L.LEVELS }
    requires may { MayMap (M.hierarchy mapper.old) (A.supply frame_allocator.old)
        (MapTo S.LEVEL frame frame (bits_of flags)) }
    ensures does { MapsFrom (M.hierarchy mapper.old) (supply_of A.FrameAllocator frame_allocator.old)
        (IdentityMap S.LEVEL frame (bits_of flags)) (map_answer frame result)
        (M.hierarchy mapper.new) (supply_of A.FrameAllocator frame_allocator.new) }
    ensures page { IfOk result (λ flush. flush ≡ frame) }
    ensures arrives { IfOk result (λ _.
        ArrivesIfPresent (M.hierarchy mapper.new) S.SIZE frame frame (bits_of flags)) }
{
    let start = VirtAddrIn::new(frame.start_address().as_u64());
    map_to(
        mapper,
        PageIn::containing_address(start),
        frame,
        flags,
        frame_allocator,
    )
}

/// Returns true if a page may be mapped with these flags and parent flags, as
/// [`Mapper::map_allowed`](crate::mapper::Mapper::map_allowed) says.
///
/// Requires that the hierarchy is valid.
pub fn map_allowed<S: PageSize, L: LevelCount, M: TableAccess + TablesIn<L>>(
    mapper: &M,
    page: PageIn<S, L>,
    flags: PageTableFlags,
    parent_flags: PageTableFlags,
) -> bool
    requires { Valid (M.hierarchy mapper.now) }
    ensures { result
        ≡ allows_page (M.hierarchy mapper.now) S.LEVEL page (bits_of flags) (bits_of parent_flags) }
{
    let path = path_of_page(mapper, page);
    condition::path_allowed::<S, _>(mapper, path.indices(), flags, parent_flags)
}

/// Unmaps a page, and returns the frame that it was mapped to.
///
/// Conditions and errors are those of [`Mapper::unmap`](crate::mapper::Mapper::unmap).
pub fn unmap<S: PageSize, L: LevelCount, M: TableAccess + TablesIn<L>>(
    mapper: &mut M,
    page: PageIn<S, L>,
) -> Result<(PhysFrame<S>, MapperFlushIn<S, L>), UnmapError>
    requires { MayCall (M.hierarchy mapper.old) (Unmap S.LEVEL page) }
    ensures does { Does (M.hierarchy mapper.old) (Unmap S.LEVEL page)
        (unmap_answer result) (M.hierarchy mapper.new) }
    ensures page { IfOk result (λ unmapped. unmapped.1 ≡ page) }
{
    let path = path_of_page(mapper, page);
    let frame = change::unmap_path(mapper, path.indices())?;
    Ok((frame, MapperFlushIn::new(page)))
}

/// Sets the flags of a page's own entry.
///
/// Conditions and errors are those of [`Mapper::update_flags`](crate::mapper::Mapper::update_flags).
pub fn update_flags<S: PageSize, L: LevelCount, M: TableAccess + TablesIn<L>>(
    mapper: &mut M,
    page: PageIn<S, L>,
    flags: PageTableFlags,
) -> Result<MapperFlushIn<S, L>, FlagUpdateError>
    requires { MayCall (M.hierarchy mapper.old) (UpdateFlags S.LEVEL page (bits_of flags)) }
    ensures does { DoesFlags (M.hierarchy mapper.old) (UpdateFlags S.LEVEL page (bits_of flags))
        result (M.hierarchy mapper.new) }
    ensures page { IfOk result (λ flush. flush ≡ page) }
{
    let path = path_of_page(mapper, page);
    change::update_path::<S, _>(mapper, path.indices(), flags)?;
    Ok(MapperFlushIn::new(page))
}

/// Sets the flags of the entry of a level, two or above, on a page's path.
///
/// Conditions and errors are those of [`Mapper::set_flags_p4_entry`](crate::mapper::Mapper::set_flags_p4_entry) and
/// of the methods for the other levels.
pub fn set_table_flags<S: PageSize, L: LevelCount, M: TableAccess + TablesIn<L>>(
    mapper: &mut M,
    page: PageIn<S, L>,
    level: u64,
    flags: PageTableFlags,
) -> Result<MapperFlushAll, FlagUpdateError>
    requires low { 2 ≤ level }
    requires high { level ≤ L.LEVELS }
    requires may { MayCall (M.hierarchy mapper.old) (SetFlags level S.LEVEL page (bits_of flags)) }
    ensures { DoesFlags (M.hierarchy mapper.old) (SetFlags level S.LEVEL page (bits_of flags))
        result (M.hierarchy mapper.new) }
{
    let path = path_of_page(mapper, page);
    change::set_table_flags::<S, _>(mapper, path.indices(), level, flags)?;
    Ok(MapperFlushAll::new())
}

/// Returns true if the flags of the entry of level three or two on a page's path may be set to these, as
/// [`Mapper::p3_flags_allowed`](crate::mapper::Mapper::p3_flags_allowed) and
/// [`Mapper::p2_flags_allowed`](crate::mapper::Mapper::p2_flags_allowed) say.
///
/// Requires that the hierarchy is valid.
pub fn table_flags_allowed<S: PageSize, L: LevelCount, M: TableAccess + TablesIn<L>>(
    mapper: &M,
    page: PageIn<S, L>,
    level: u64,
    flags: PageTableFlags,
) -> bool
    requires low { 2 ≤ level }
    requires high { level ≤ 3 }
    requires valid { Valid (M.hierarchy mapper.now) }
    ensures { result ≡ allows (M.hierarchy mapper.now) (SetFlags level S.LEVEL page (bits_of flags)) }
{
    let path = path_of_page(mapper, page);
    condition::table_flags_allowed::<S, _>(mapper, path.indices(), level, flags)
}

/// Returns the frame that a page's entry names, `PRESENT` or not.
///
/// Requires that the hierarchy is valid. Errors are those of
/// [`Mapper::translate_page`](crate::mapper::Mapper::translate_page).
pub fn translate_page<S: PageSize, L: LevelCount, M: TableAccess + TablesIn<L>>(
    mapper: &M,
    page: PageIn<S, L>,
) -> Result<PhysFrame<S>, TranslateError>
    requires { Valid (M.hierarchy mapper.now) }
    ensures { translate_answer result ≡ translated_page (M.hierarchy mapper.now) S.LEVEL page }
{
    let path = path_of_page(mapper, page);
    translations::translate_path(mapper, path.indices())
}

/// Removes the empty tables of the whole address space, and returns their frames to the deallocator.
///
/// Requires that the hierarchy is valid, and that the deallocator serves the frame of each table but the root and
/// doesn't hold it.
pub fn clean_up<L: LevelCount, M: TableAccess + TablesIn<L>, D: FrameDeallocator<Size4KiB>>(
    mapper: &mut M,
    frame_deallocator: &mut D,
)
    requires { MayCleanUpInto (M.hierarchy mapper.old)
        (deallocator_store D.FrameDeallocator frame_deallocator.old) }
    ensures { CleansUpInto (M.hierarchy mapper.old)
        (deallocator_store D.FrameDeallocator frame_deallocator.old) 0 (position_count L.LEVELS - 1)
        (M.hierarchy mapper.new) (deallocator_store D.FrameDeallocator frame_deallocator.new) }
{
    clean_up_range(mapper, all_pages::<L>(), frame_deallocator);
}
