//! Tables above a page
ghost use Rattle.std.specs.Prelude.{◌≡◌, ℕ, List};
ghost use Rattle.x86_64_c.specs.Calls.{result_status};
ghost use Rattle.x86_64_c.specs.PoolCalls as calls;
ghost use Rattle.x86_64_c.specs.Preparations as preparations;
ghost use Rattle.x86_64_tables.specs.MapperAnswers.{map_refusal};

use crate::arguments::{Hierarchy, Located, Page};
use crate::operation::enter;
use crate::pool::pages::{PageOperation, PageStep};
use crate::pool::{PoolStep, Stepped, with_pool};
use crate::status::{self, map_status};
use bitflags::Flags;
use x86_64::structures::paging::mapper::{MapToError, PageTableFrameMapping};
use x86_64::structures::paging::{PageIn, PageSize, PageTable, PageTableFlags};
use x86_64::{FrameStore, LevelCount, OwnFrames, TableMemory};
use x86_64_live::{may_prepare, prepare};

/// Makes the tables above a page, or changes nothing: unless it returns `OK`, the tables, the pool and its number of free frames are as
/// before.
///
/// Afterwards each entry above the page names a table and has the parent flags. The page's own entry stays, used or not. The frames of
/// tables that are missing come from the pool.
///
/// Requires what `x64_map` requires: that the hierarchy is valid, and that the pool fits it with room; both hold again afterwards. Returns
/// `OK`, `NOT_ALLOWED`, `FRAME_ALLOCATION_FAILED`, `PARENT_ENTRY_HUGE_PAGE`, or what is wrong with an argument.
#[unsafe(no_mangle)]
pub extern "C" fn x64_prepare(
    hierarchy: &Hierarchy,
    tables: &mut [PageTable],
    pool: &mut [u64],
    free_count: &mut usize,
    page: &Page,
    parent_flags: u64,
) -> u32
    ghost own: { List ℕ }
    requires { let lent = calls.loan tables.old pool.old free_count.old in
        calls.HasPool own hierarchy.now lent (preparations.wrong_preparation hierarchy.now lent page.now) }
    ensures { preparations.ExecutesPreparation own hierarchy.now
        (calls.loan tables.old pool.old free_count.old) page.now parent_flags result
        (calls.loan tables.new pool.new free_count.new) }
{
    let parent_flags = PageTableFlags::from_bits_retain(parent_flags);
    let preparation = PageOperation {
        page,
        free_count: *free_count,
        own: OwnFrames::of(),
        step: Preparation { parent_flags },
    };
    match enter(hierarchy, tables, pool, &preparation) {
        Ok(prepared) => {
            *free_count = prepared.free_count;
            prepared.out
        }
        Err(status) => status,
    }
}

/// The making of the tables above a page, which get these flags.
#[derive(Clone, Copy)]
pub struct Preparation {
    parent_flags: PageTableFlags,
}

impl PageStep for Preparation {
    ghost use Rattle.x86_64_c.specs.Preparations.{PreparesPage};
    ghost use Rattle.x86_64_c.specs.private.OrNothing.{is_refusal};
    ghost use Rattle.x86_64_tables.specs.PageTableFlags.{bits_of};

    ghost refused = { is_refusal };

    ghost does = { λ new h pool level page after rest status.
        PreparesPage h pool level page (bits_of new.parent_flags) after rest status };

    fn take<S: PageSize, L: LevelCount, T: TableMemory, P: PageTableFrameMapping + Copy>(
        &self,
        memory: &mut T,
        located: Located<P>,
        page: PageIn<S, L>,
        own: &OwnFrames,
        array: &mut [u64],
        free_count: usize,
    ) -> Result<Stepped<u32>, u32> {
        let parent_flags = self.parent_flags;
        let tables = TablesAbove { page, parent_flags };
        Ok(with_pool(memory, located, own, array, free_count, &tables))
    }
}

/// The tables above a page.
#[derive(Clone, Copy)]
pub struct TablesAbove<S: PageSize, L: LevelCount> {
    page: PageIn<S, L>,
    parent_flags: PageTableFlags,
}

impl<S: PageSize, L: LevelCount> PoolStep<L> for TablesAbove<S, L> {
    ghost use Rattle.x86_64_c.specs.Preparations.{PreparesPage};
    ghost use Rattle.x86_64_c.specs.private.OrNothing.{is_refusal};
    ghost use Rattle.x86_64_c.specs.private.PoolLaws.{own_prepares};
    ghost use Rattle.x86_64_tables.specs.PageTableFlags.{bits_of};

    type Out = u32;

    ghost refused = { is_refusal };

    ghost does = { λ new h pool after rest status.
        PreparesPage h pool S.LEVEL new.page (bits_of new.parent_flags) after rest status };

    fn take<T: TableMemory, P: PageTableFrameMapping + Copy, F: FrameStore>(
        &self,
        memory: &mut T,
        located: Located<P>,
        frames: &mut F,
        free_count: usize,
    ) -> u32 {
        let Located { root, mapping } = located;
        let TablesAbove { page, parent_flags } = *self;
        if !may_prepare(memory, mapping, root, page, parent_flags) {
            return status::NOT_ALLOWED;
        }
        let prepared = prepare(
            memory,
            mapping,
            root,
            page,
            parent_flags,
            frames,
            free_count,
        );
        prepared_status(prepared)
    }

    ghost own_frames = { λ new own array count serves same h after free rest status.
        own_prepares own array count same h after free rest _ _ _ status };
}

/// Returns the status of a preparation that is allowed.
fn prepared_status<S: PageSize>(prepared: Result<(), MapToError<S>>) -> u32
    ensures { result ≡ result_status map_refusal prepared }
{
    match prepared {
        Ok(()) => status::OK,
        Err(error) => map_status(error),
    }
}
