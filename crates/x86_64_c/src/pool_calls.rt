//! Maps as mappers make them, and clean ups.
ghost use Rattle.std.specs.Prelude.{◌≡◌, ◌+◌, ℕ, List};
ghost use Rattle.x86_64_c.specs.Calls.{result_status};
ghost use Rattle.x86_64_c.specs.PoolCalls as calls;
ghost use Rattle.x86_64_tables.specs.MapperAnswers.{map_refusal};

mod below_root;

use crate::arguments::{Hierarchy, Located, MapRequest, page_map};
use crate::operation::enter;
use crate::pool::pages::{PageOperation, PageStep};
use crate::pool::ranges::{RangeOperation, RangeStep};
use crate::pool::{PoolStep, Stepped, with_pool};
use crate::status::{self, map_status};
use x86_64::structures::paging::mapper::{
    MapToError, MappedPageTableIn, MapperFlushIn, PageTableFrameMapping,
};
use x86_64::structures::paging::{PageIn, PageSize, PageTable, Size4KiB};
use x86_64::{FrameStore, LevelCount, OwnFrames, TableMemory};
use x86_64_live::PageMap;
use x86_64_mappers::calls as mapper_calls;
use x86_64_page::range::BlockRangeInclusive;

// ---- maps

/// Maps a page, as the mapper's `map_to_with_table_flags` does. The frames of tables that are missing come from the pool.
///
/// Requires what `x64_map` requires, and returns what it returns. Both hold again afterwards: the hierarchy is valid, and the pool fits
/// it with room. If an argument is wrong, or the call isn't allowed, nothing changes. With `FRAME_ALLOCATION_FAILED`,
/// `PARENT_ENTRY_HUGE_PAGE` and `PAGE_ALREADY_MAPPED` the entries above the page may have got the parent flags, and new tables may have
/// been made.
#[unsafe(no_mangle)]
pub extern "C" fn x64_map_as_mapper(
    hierarchy: &Hierarchy,
    tables: &mut [PageTable],
    pool: &mut [u64],
    free_count: &mut usize,
    request: &MapRequest,
) -> u32
    ghost own: { List ℕ }
    requires { calls.MayExecute own hierarchy.now (calls.loan tables.old pool.old free_count.old)
        (calls.to_map request.now) }
    ensures { calls.Executes own hierarchy.now (calls.loan tables.old pool.old free_count.old)
        (calls.to_map request.now) result (calls.loan tables.new pool.new free_count.new) }
{
    let map = PageOperation {
        page: &request.page,
        free_count: *free_count,
        own: OwnFrames::of(),
        step: Map { request },
    };
    match enter(hierarchy, tables, pool, &map) {
        Ok(mapped) => {
            *free_count = mapped.free_count;
            mapped.out
        }
        Err(status) => status,
    }
}

/// The map of a page as mappers make it.
#[derive(Clone, Copy)]
pub struct Map<'a> {
    request: &'a MapRequest,
}

impl<'a> PageStep for Map<'a> {
    ghost use Rattle.x86_64_c.specs.Arguments.{wrong_frame};
    ghost use Rattle.x86_64_c.specs.PoolCalls.{RunsCall};
    ghost use Rattle.x86_64_model.specs.Call.{MapToWithTableFlags};

    ghost wrong = { λ map size. wrong_frame size map.request.now.frame };

    ghost does = { λ map h pool level page after rest status. let asked = map.request.now in
        RunsCall h pool (MapToWithTableFlags level page asked.frame asked.flags asked.parent_flags) after rest
        status };

    fn take<S: PageSize, L: LevelCount, T: TableMemory, P: PageTableFrameMapping + Copy>(
        &self,
        memory: &mut T,
        located: Located<P>,
        page: PageIn<S, L>,
        own: &OwnFrames,
        array: &mut [u64],
        free_count: usize,
    ) -> Result<Stepped<u32>, u32> {
        let map = page_map(self.request, page)?;
        Ok(with_pool(memory, located, own, array, free_count, &MapTo { map }))
    }
}

/// The map of a page to a frame.
#[derive(Clone, Copy)]
pub struct MapTo<S: PageSize, L: LevelCount> {
    map: PageMap<S, L>,
}

impl<S: PageSize, L: LevelCount> PoolStep<L> for MapTo<S, L> {
    ghost use Rattle.x86_64_c.specs.PoolCalls.{RunsCall};
    ghost use Rattle.x86_64_c.specs.private.PoolLaws.{own_runs};
    ghost use Rattle.x86_64_live.specs.MapsOrNothing.{call_for};

    type Out = u32;

    ghost does = { λ to h pool after rest status.
        RunsCall h pool (call_for S.LEVEL to.map) after rest status };

    fn take<T: TableMemory, P: PageTableFrameMapping + Copy, F: FrameStore>(
        &self,
        memory: &mut T,
        located: Located<P>,
        frames: &mut F,
        _free_count: usize,
    ) -> u32 {
        let mut mapper = MappedPageTableIn::<_, L, T>::new(memory, located.root, located.mapping);
        let map = self.map;
        if !mapper_calls::map_allowed(&mapper, map.page, map.flags, map.parent_flags) {
            return status::NOT_ALLOWED;
        }
        let mapped = mapper_calls::map_to_with_table_flags(
            &mut mapper,
            map.page,
            map.frame,
            map.flags,
            map.parent_flags,
            frames,
        );
        mapped_status(mapped)
    }

    ghost own_frames = { λ map own array count serves same h after free rest status.
        own_runs own array count same h after free rest _ status };
}

/// Returns the status of a map.
pub fn mapped_status<S: PageSize, L: LevelCount>(
    mapped: Result<MapperFlushIn<S, L>, MapToError<S>>,
) -> u32
    ensures { result ≡ result_status map_refusal mapped }
{
    match mapped {
        Ok(flush) => {
            flush.ignore();
            status::OK
        }
        Err(error) => map_status(error),
    }
}

// ---- clean ups

/// Frees the empty tables of a range of 4KiB pages, as the mapper's `clean_up_addr_range` does, and puts their frames on the pool.
///
/// Requires that the hierarchy is valid, and that the pool fits it with room, which `x64_pool_fits` tests; both hold again
/// afterwards. Returns `OK`, or what is wrong with an argument; then nothing changes. If the first page comes after the last, the range
/// is empty.
#[unsafe(no_mangle)]
pub extern "C" fn x64_clean_up(
    hierarchy: &Hierarchy,
    tables: &mut [PageTable],
    pool: &mut [u64],
    free_count: &mut usize,
    first_page: u64,
    last_page: u64,
) -> u32
    ghost own: { List ℕ }
    requires { calls.MayExecute own hierarchy.now (calls.loan tables.old pool.old free_count.old)
        (calls.to_clean_up first_page last_page) }
    ensures { calls.Executes own hierarchy.now (calls.loan tables.old pool.old free_count.old)
        (calls.to_clean_up first_page last_page) result
        (calls.loan tables.new pool.new free_count.new) }
{
    let clean_up = RangeOperation {
        first: first_page,
        last: last_page,
        free_count: *free_count,
        own: OwnFrames::of(),
        step: EmptyTables,
    };
    match enter(hierarchy, tables, pool, &clean_up) {
        Ok(cleaned) => {
            *free_count = cleaned.free_count;
            cleaned.out
        }
        Err(status) => status,
    }
}

/// The clean up of a range, which frees its empty tables.
#[derive(Clone, Copy)]
pub struct EmptyTables;

impl RangeStep for EmptyTables {
    ghost use Rattle.std.specs.Prelude.{◌+◌};
    ghost use Rattle.x86_64_c.specs.PoolCalls.{RunsCall};
    ghost use Rattle.x86_64_c.specs.private.PoolLaws.{own_runs};
    ghost use Rattle.x86_64_model.specs.Call as machine;

    type Out = u32;

    ghost does = { λ h pool first last after rest status.
        RunsCall h pool (machine.CleanUp first (last + 0xfff)) after rest status };

    fn take<L: LevelCount, T: TableMemory, P: PageTableFrameMapping + Copy, F: FrameStore>(
        &self,
        memory: &mut T,
        located: Located<P>,
        range: BlockRangeInclusive<PageIn<Size4KiB, L>>,
        frames: &mut F,
    ) -> u32 {
        let mut mapper = MappedPageTableIn::<_, L, T>::new(memory, located.root, located.mapping);
        mapper_calls::clean_up_range(&mut mapper, range, frames);
        status::OK
    }

    ghost own_frames = { λ own array count serves same h after free rest first last status.
        own_runs own array count same h after free rest _ status };
}
