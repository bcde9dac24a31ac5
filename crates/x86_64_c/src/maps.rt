//! Maps that are done or change nothing.
ghost use Rattle.std.specs.Prelude.{ℕ, List};
ghost use Rattle.x86_64_c.specs.PoolCalls as calls;

use crate::arguments::{Hierarchy, Located, MapRequest, page_map};
use crate::operation::enter;
use crate::pool::pages::{PageOperation, PageStep};
use crate::pool::{PoolStep, Stepped, with_pool};
use crate::pool_calls::mapped_status;
use crate::status;
use x86_64::structures::paging::mapper::PageTableFrameMapping;
use x86_64::structures::paging::{PageIn, PageSize, PageTable};
use x86_64::{FrameStore, LevelCount, OwnFrames, TableMemory};
use x86_64_live::{PageMap, map_or_nothing, may_map};

/// Maps a page, or changes nothing: unless it returns `OK`, the tables, the pool and its number of free frames are as before.
///
/// A map that is done is that of the mapper's `map_to_with_table_flags`, with the status of its answer. The frames of tables that are
/// missing come from the pool, a stack of addresses of free frames: the last of the first `free_count` entries is taken first.
///
/// Requires that the hierarchy is valid, and that the pool fits it with room, which `x64_pool_fits` tests; both hold again afterwards.
/// Returns `OK`, `NOT_ALLOWED`, `FRAME_ALLOCATION_FAILED`, `PARENT_ENTRY_HUGE_PAGE`, `PAGE_ALREADY_MAPPED`, or what is wrong with an
/// argument.
#[unsafe(no_mangle)]
pub extern "C" fn x64_map(
    hierarchy: &Hierarchy,
    tables: &mut [PageTable],
    pool: &mut [u64],
    free_count: &mut usize,
    request: &MapRequest,
) -> u32
    ghost own: { List ℕ }
    requires { calls.MayExecute own hierarchy.now (calls.loan tables.old pool.old free_count.old)
        (calls.to_map request.now) }
    ensures { calls.ExecutesOrNothing own hierarchy.now (calls.loan tables.old pool.old free_count.old)
        (calls.to_map request.now) result (calls.loan tables.new pool.new free_count.new) }
{
    let map = PageOperation {
        page: &request.page,
        free_count: *free_count,
        own: OwnFrames::of(),
        step: WholeMap { request },
    };
    match enter(hierarchy, tables, pool, &map) {
        Ok(mapped) => {
            *free_count = mapped.free_count;
            mapped.out
        }
        Err(status) => status,
    }
}

/// The map of a page that changes nothing if it is refused.
#[derive(Clone, Copy)]
pub struct WholeMap<'a> {
    request: &'a MapRequest,
}

impl<'a> PageStep for WholeMap<'a> {
    ghost use Rattle.x86_64_c.specs.Arguments.{wrong_frame};
    ghost use Rattle.x86_64_c.specs.private.OrNothing.{RunsIfOk, is_refusal};
    ghost use Rattle.x86_64_model.specs.Call.{MapToWithTableFlags};

    ghost wrong = { λ map size. wrong_frame size map.request.now.frame };

    ghost refused = { is_refusal };

    ghost does = { λ map h pool level page after rest status. let asked = map.request.now in
        RunsIfOk h pool (MapToWithTableFlags level page asked.frame asked.flags asked.parent_flags) after rest
        status };

    fn take<S: PageSize, L: LevelCount, T: TableMemory, P: PageTableFrameMapping + Copy>(
        &self,
        memory: &mut T,
        located: Located<P>,
        page: PageIn<S, L>,
        own: &OwnFrames,
        array: &mut [u64],
        free_count: usize,
    ) -> Result<Stepped<u32>, u32> {
        let map = page_map(self.request, page)?;
        Ok(with_pool(memory, located, own, array, free_count, &map))
    }
}

impl<S: PageSize, L: LevelCount> PoolStep<L> for PageMap<S, L> {
    ghost use Rattle.x86_64_c.specs.private.OrNothing.{RunsIfOk, is_refusal};
    ghost use Rattle.x86_64_c.specs.private.PoolLaws.{own_runs_if_ok};
    ghost use Rattle.x86_64_live.specs.MapsOrNothing.{call_for};

    type Out = u32;

    ghost refused = { is_refusal };

    ghost does = { λ map h pool after rest status.
        RunsIfOk h pool (call_for S.LEVEL map) after rest status };

    fn take<T: TableMemory, P: PageTableFrameMapping + Copy, F: FrameStore>(
        &self,
        memory: &mut T,
        located: Located<P>,
        frames: &mut F,
        free_count: usize,
    ) -> u32 {
        let Located { root, mapping } = located;
        if !may_map(memory, mapping, root, *self) {
            return status::NOT_ALLOWED;
        }
        let mapped = map_or_nothing(memory, mapping, root, *self, frames, free_count);
        mapped_status(mapped)
    }

    ghost own_frames = { λ map own array count serves same h after free rest status.
        own_runs_if_ok own array count same h after free rest _ status };
}
