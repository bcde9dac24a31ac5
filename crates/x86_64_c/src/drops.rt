//! Ranges of pages that are dropped with their tables, as at the end of a process.
ghost use Rattle.std.specs.Prelude.{◌≡◌, ℕ, List};
ghost use Rattle.x86_64_c.specs.Drops as drops;
ghost use Rattle.x86_64_c.specs.PoolCalls as calls;
ghost use Rattle.x86_64_c.specs.WordRanges as words;

use crate::arguments::{Hierarchy, Located};
use crate::operation::enter;
use crate::pool::ranges::{RangeOperation, RangeStep};
use crate::word_ranges::status_of;
use x86_64::structures::paging::mapper::PageTableFrameMapping;
use x86_64::structures::paging::{PageIn, PageTable, Size4KiB};
use x86_64::{FrameStore, LevelCount, OwnFrames, TableMemory};
use x86_64_live::{RangeEnd, drop_range};
use x86_64_page::range::BlockRangeInclusive;

/// Takes all pages of a range away, as `x64_take_range` does, but tells none, and then frees the empty tables of the range, as
/// `x64_clean_up` does. Their frames go to the top of the pool.
///
/// Requires that the hierarchy is valid, and that the pool fits it with room, which `x64_pool_fits` tests; both hold again
/// afterwards. Returns `OK`, `PARENT_ENTRY_HUGE_PAGE` at a larger page that is only partly in the range, or what is wrong with an
/// argument; then nothing changes. With `PARENT_ENTRY_HUGE_PAGE` all pages before the address `next` are gone, and empty tables of
/// the range are freed.
#[unsafe(no_mangle)]
pub extern "C" fn x64_drop(
    hierarchy: &Hierarchy,
    tables: &mut [PageTable],
    pool: &mut [u64],
    free_count: &mut usize,
    first: u64,
    last: u64,
    next: &mut u64,
) -> u32
    ghost own: { List ℕ }
    requires { let lent = calls.loan tables.old pool.old free_count.old in
        calls.HasPool own hierarchy.now lent (drops.wrong_drop hierarchy.now lent first last) }
    ensures { drops.ExecutesDrop own hierarchy.now (calls.loan tables.old pool.old free_count.old)
        first last next.old result (calls.loan tables.new pool.new free_count.new) next.new }
{
    let drop = RangeOperation {
        first,
        last,
        free_count: *free_count,
        own: OwnFrames::of(),
        step: PageDrop,
    };
    let dropped = match enter(hierarchy, tables, pool, &drop) {
        Ok(dropped) => dropped,
        Err(status) => return status,
    };
    *free_count = dropped.free_count;
    if let Some(address) = dropped.out.next {
        *next = address;
    }
    dropped.out.status
}

/// What is told of a range that is dropped.
#[derive(Clone, Copy)]
pub struct Dropped {
    /// The status.
    pub status: u32,
    /// The address of a larger page that is only partly in the range, where the range goes on, if there is one.
    pub next: Option<u64>,
}

/// The drop of the pages of a range, and of the tables that are empty then.
#[derive(Clone, Copy)]
pub struct PageDrop;

impl RangeStep for PageDrop {
    ghost use Rattle.x86_64_c.specs.Drops.{DropsPages};
    ghost use Rattle.x86_64_c.specs.private.DropLaws.{own_drops};

    type Out = Dropped;

    ghost does = { λ h pool first last after rest dropped.
        DropsPages h pool first last after rest dropped.status dropped.next };

    fn take<L: LevelCount, T: TableMemory, P: PageTableFrameMapping + Copy, F: FrameStore>(
        &self,
        memory: &mut T,
        located: Located<P>,
        range: BlockRangeInclusive<PageIn<Size4KiB, L>>,
        frames: &mut F,
    ) -> Dropped {
        let end = drop_range(memory, located.mapping, located.root, range, frames);
        Dropped::of(&end)
    }

    ghost own_frames = { λ own array count serves same h after free rest first last dropped.
        own_drops own array count same h after free rest _ _ _ _ };
}

impl Dropped {
    /// Tells why a range ends.
    fn of<L: LevelCount>(end: &RangeEnd<L>) -> Dropped
        ensures status { result.status ≡ words.range_status end.now }
        ensures next { result.next ≡ words.range_next L.LEVELS end.now }
    {
        Dropped {
            status: status_of(end),
            next: end.next_address(),
        }
    }
}
