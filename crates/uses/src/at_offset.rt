//! Runs lists of calls on a memory that is mapped as a whole at an offset, each with a mapper of its own.
ghost use Rattle.x86_64_mappers.specs.Layouts.{direct_at};
ghost use Rattle.x86_64_mappers.specs.Offsets.{OffsetFits};
ghost use Rattle.x86_64_model.specs.Hierarchy.{◌laid_in◌, PoolFits};
ghost use Rattle.x86_64_model.specs.Memory.{identity_places};
ghost use Rattle.x86_64_model.specs.Pool.{serves_below};

use std::alloc::AllocError;
use x86_64::structures::paging::{PhysFrame, Size4KiB};
use x86_64::{CallIn, FramePool, LevelCount, LevelFiveFlags, PhysMemory, ReplyIn, run};
use x86_64_addr::addr::VirtAddrIn;
use x86_64_mappers::laws::offset_has_the_tables_of_the_identity;
use x86_64_mappers::offset_page_table::OffsetPageTableIn;

/// Executes calls with a mapper at an offset, which is then dropped. The owner knows that another one can be created.
pub fn run_at_offset<L: LevelCount, P5: LevelFiveFlags<L>>(
    memory: &mut PhysMemory,
    root: PhysFrame<Size4KiB>,
    phys_offset: VirtAddrIn<L>,
    pool: &mut FramePool,
    calls: &[CallIn<L, P5>],
    replies: &mut Vec<ReplyIn<L>>,
) -> Result<(), AllocError>
    requires pool { let layout = direct_at L.LEVELS identity_places root in
        PoolFits (layout laid_in memory.old) (serves_below pool.old.limit) pool.old.frames }
    requires offset { OffsetFits L.LEVELS memory.old phys_offset }
    ensures pool { let layout = direct_at L.LEVELS identity_places root in
        PoolFits (layout laid_in memory.new) (serves_below pool.new.limit) pool.new.frames }
    ensures offset { OffsetFits L.LEVELS memory.new phys_offset }
{
    offset_has_the_tables_of_the_identity(memory, phys_offset);
    let mut mapper = OffsetPageTableIn::new(memory, root, phys_offset);
    run(&mut mapper, pool, calls, replies)
}
