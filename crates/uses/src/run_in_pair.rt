//! Runs lists of calls on two alike hierarchies at once, the second of which has a recursive index.
ghost use Rattle.std.specs.Prelude.{◌≡◌, [], false, IfOk};
ghost use Rattle.std.specs.List.{AllByRecursion};
ghost use Rattle.uses.specs.AlikePair.{AreAlikePair};
ghost use Rattle.uses.specs.Owned.{hierarchy_at};
ghost use Rattle.x86_64_model.specs.Memory.{identity_places};
ghost use Rattle.x86_64.specs.Calls.{names, to_call};
ghost use Rattle.x86_64.specs.Pairs.{pool_store};
ghost use Rattle.x86_64.specs.Runs.{Ran};

use std::alloc::{AllocError, Global};
use x86_64::structures::paging::{PageTableIndex, PhysFrame, Size4KiB};
use x86_64::{
    CallIn, FramePool, IdentityMapping, LevelCount, LevelFiveFlags, PhysMemory, ReplyIn, run_pair,
};
use x86_64_mappers::mapped_page_table::MappedPageTableIn;
use x86_64_mappers::recursive_page_table::RecursivePageTableIn;
use x86_64_tables::phys_memory::Active;

/// Executes calls with the mapper over the identity mapping and with the recursive one, and returns the replies, which
/// are the same for both. Afterwards the hierarchies are alike again, and the pools fit them and are equal, so that the
/// next list may run.
///
/// Requires that no call names the recursive index.
///
/// # Errors
///
/// `AllocError` if memory allocation fails for the replies.
pub fn run_in_pair<L: LevelCount, P5: LevelFiveFlags<L>>(
    alloc: Global,
    root: PhysFrame<Size4KiB>,
    index: PageTableIndex,
    memory: &mut PhysMemory,
    pool: &mut FramePool,
    walked: &mut PhysMemory,
    walked_pool: &mut FramePool,
    calls: &[CallIn<L, P5>],
) -> Result<Vec<ReplyIn<L>>, AllocError>
    requires pair { AreAlikePair L.LEVELS root index memory.old pool.old walked.old walked_pool.old }
    requires unnamed { AllByRecursion (λ call. names L.LEVELS P5.bits call index ≡ false) calls.now }
    ensures again { AreAlikePair L.LEVELS root index memory.new pool.new walked.new walked_pool.new }
    ensures ran { let h = hierarchy_at L.LEVELS identity_places root in IfOk result (λ replies.
        Ran (to_call L.LEVELS P5.bits) (h memory.old) (pool_store pool.old) calls.now
        [] replies.items (h memory.new) pool.new.frames) }
{
    let mut direct = MappedPageTableIn::<IdentityMapping, L>::new(memory, root, IdentityMapping);
    let active = Active::<L>::new(walked, root);
    let mut recursive = RecursivePageTableIn::<L>::new_unchecked(active, index);
    run_pair(alloc, &mut direct, pool, &mut recursive, walked_pool, calls)
}
