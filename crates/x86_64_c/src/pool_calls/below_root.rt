//! Clean ups that keep the tables which the root's entries name
ghost use Rattle.std.specs.Prelude.{ℕ, List};
ghost use Rattle.x86_64_c.specs.BelowRoot as below;
ghost use Rattle.x86_64_c.specs.PoolCalls as calls;

use crate::arguments::{Hierarchy, Located};
use crate::operation::enter;
use crate::pool::ranges::{RangeOperation, RangeStep};
use crate::status;
use x86_64::structures::paging::mapper::{MappedPageTableIn, PageTableFrameMapping};
use x86_64::structures::paging::{PageIn, PageTable, Size4KiB};
use x86_64::{FrameStore, LevelCount, OwnFrames, TableMemory};
use x86_64_mappers::calls as mapper_calls;
use x86_64_page::range::BlockRangeInclusive;

/// Frees what `x64_clean_up` frees but the tables that an entry of the root names, and puts their frames on the pool. The root's entries
/// stay, and so does the result of each page walk.
///
/// Requires that the hierarchy is valid, and that the pool fits it with room, which `x64_pool_fits` tests; both hold again
/// afterwards. Returns `OK`, or what is wrong with an argument; then nothing changes. If the first page comes after the last, the range
/// is empty.
#[unsafe(no_mangle)]
pub extern "C" fn x64_clean_up_below_root(
    hierarchy: &Hierarchy,
    tables: &mut [PageTable],
    pool: &mut [u64],
    free_count: &mut usize,
    first_page: u64,
    last_page: u64,
) -> u32
    ghost own: { List ℕ }
    requires { calls.MayExecute own hierarchy.now (calls.loan tables.old pool.old free_count.old)
        (calls.to_clean_up first_page last_page) }
    ensures { below.ExecutesBelowRoot own hierarchy.now
        (calls.loan tables.old pool.old free_count.old) first_page last_page result
        (calls.loan tables.new pool.new free_count.new) }
{
    let clean_up = RangeOperation {
        first: first_page,
        last: last_page,
        free_count: *free_count,
        own: OwnFrames::of(),
        step: EmptyTablesBelowRoot,
    };
    match enter(hierarchy, tables, pool, &clean_up) {
        Ok(cleaned) => {
            *free_count = cleaned.free_count;
            cleaned.out
        }
        Err(status) => status,
    }
}

/// The clean up of a range below the root's entries, which frees the empty tables that no entry of the root names.
#[derive(Clone, Copy)]
pub struct EmptyTablesBelowRoot;

impl RangeStep for EmptyTablesBelowRoot {
    ghost use Rattle.std.specs.Prelude.{◌+◌};
    ghost use Rattle.x86_64_c.specs.BelowRoot.{CleansBelowRoot};
    ghost use Rattle.x86_64_c.specs.private.BelowRootLaws.{own_cleans};

    type Out = u32;

    ghost does = { λ h pool first last after rest status.
        CleansBelowRoot h pool first (last + 0xfff) after rest status };

    fn take<L: LevelCount, T: TableMemory, P: PageTableFrameMapping + Copy, F: FrameStore>(
        &self,
        memory: &mut T,
        located: Located<P>,
        range: BlockRangeInclusive<PageIn<Size4KiB, L>>,
        frames: &mut F,
    ) -> u32 {
        let mut mapper = MappedPageTableIn::<_, L, T>::new(memory, located.root, located.mapping);
        mapper_calls::clean_up_below_root(&mut mapper, range, frames);
        status::OK
    }

    ghost own_frames = { λ own array count serves same h after free rest first last status.
        own_cleans own array count same h after free rest _ _ status };
}
