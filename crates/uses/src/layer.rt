//! A layer around a mapper, which has all of a mapper's calls. The owner of the memory below learns what they did.
ghost use Rattle.std.specs.Prelude.{◌≡◌};
ghost use Rattle.x86_64_model.specs.Call.{Unmap};
ghost use Rattle.x86_64_model.specs.Memory.{identity_places};
ghost use Rattle.x86_64_model.specs.Hierarchy.{◌laid_in◌, MayCall, Does, PoolFits, Valid};
ghost use Rattle.x86_64_model.specs.Pool.{serves_below};
ghost use Rattle.x86_64_mappers.specs.Layouts.{direct, owned};
ghost use Rattle.x86_64_tables.specs.MapperAnswers.{frame_answer};

use std::alloc::AllocError;
use x86_64::structures::paging::mapper::{TableAccess, UnmapError};
use x86_64::structures::paging::{
    MappedPageTable, Mapper, Page, PageSize, PageTable, PageTableFlags, PageTableIndex, PhysFrame,
    Size4KiB,
};
use x86_64::{
    Call, FramePool, IdentityMapping, LevelCount, PhysMemory, Reply, Tables, TablesIn, run,
};

/// A layer that passes on each table of a mapper, and counts the tables that it lends to be changed.
#[derive(Drop)]
pub struct Counting<'a, M> {
    mapper: &'a mut M,
    count: u64,
}

impl<'a, M> Counting<'a, M> {
    /// Creates a layer around a mapper. No table has been lent yet.
    pub fn new(mapper: &'a mut M) -> Self
        ensures lent { result.mapper.ghost_name ≡ mapper.entry.ghost_name }
        ensures mapper { result.mapper.now ≡ mapper.old }
    {
        Counting { mapper, count: 0 }
    }
}

impl<'a, M: Tables> Tables for Counting<'a, M> {
    ghost use Rattle.std.specs.Borrow.{GName};

    ghost Lent = { GName × M.Lent };

    ghost hierarchy = { λ layer. let below = M.hierarchy layer.mapper.now in
        record {
          layout = below.layout;
          memory = below.memory;
          lent = (layer.mapper.ghost_name, below.lent);
        } };

    ghost added_flags = { λ layer. M.added_flags layer.mapper.now };

    fn recursive_index(&self) -> Option<PageTableIndex> {
        self.mapper.recursive_index()
    }

    ghost at_least_four = { λ layer. M.at_least_four layer.mapper.now };

    ghost at_most_five = { λ layer. M.at_most_five layer.mapper.now };

    ghost is_mapping = { λ layer. M.is_mapping layer.mapper.now };
}

impl<'a, M: TablesIn<L>, L: LevelCount> TablesIn<L> for Counting<'a, M> {
    ghost level_count = { λ layer. M.level_count layer.mapper.now };
}

impl<'a, M: TableAccess> TableAccess for Counting<'a, M> {
    ghost use Rattle.std.specs.Prelude.{◌+◌, ◌-◌, ◌^◌, min};
    ghost use Rattle.std.proofs.Common.{ap};

    ghost with_table = { λ layer frame table. record layer {
      mapper = record (layer.mapper) { now = M.with_table layer.mapper.now frame table };
      count = min (layer.count + 1) (2 ^ 64 - 1);
    } };

    fn root(&self) -> PhysFrame<Size4KiB> {
        self.mapper.root()
    }

    fn new_table_flags(&self) -> PageTableFlags {
        self.mapper.new_table_flags()
    }

    fn table(&self, path: &[PageTableIndex], frame: PhysFrame<Size4KiB>) -> &PageTable {
        self.mapper.table(path, frame)
    }

    fn table_mut(&mut self, path: &[PageTableIndex], frame: PhysFrame<Size4KiB>) -> &mut PageTable {
        self.count = self.count.saturating_add(1);
        self.mapper.table_mut(path, frame)
    }

    ghost reaches_unnamed = { M.reaches_unnamed };

    fn clear_unnamed(&mut self, frame: PhysFrame<Size4KiB>) -> bool {
        self.mapper.clear_unnamed(frame)
    }

    ghost puts = { λ layer frame table there. M.puts layer.mapper.now frame table there };

    ghost keeps_layout = { λ layer frame table. M.keeps_layout layer.mapper.now frame table };

    ghost keeps_lent = { λ layer frame table.
        ap (λ lent. (layer.mapper.ghost_name, lent)) (M.keeps_lent layer.mapper.now frame table) };
}

/// Unmaps a page with any mapper. Requires that its path is not in the recursive window.
pub fn unmap_by<S: PageSize, M: Mapper<S>>(
    mapper: &mut M,
    page: Page<S>,
) -> Result<PhysFrame<S>, UnmapError>
    requires { MayCall (M.hierarchy mapper.old) (Unmap S.LEVEL page) }
    ensures { Does (M.hierarchy mapper.old) (Unmap S.LEVEL page) (frame_answer result)
        (M.hierarchy mapper.new) }
{
    let (frame, flush) = mapper.unmap(page)?;
    flush.ignore();
    Ok(frame)
}

/// Unmaps a page with a layer around any mapper, and returns the number of tables that the layer lent to be changed.
/// The layer is then dropped. The call has its usual effect on the mapper.
pub fn unmap_by_layer<S: PageSize, M: Mapper<S>>(
    mapper: &mut M,
    page: Page<S>,
) -> (Result<PhysFrame<S>, UnmapError>, u64)
    requires { MayCall (M.hierarchy mapper.old) (Unmap S.LEVEL page) }
    ensures { Does (M.hierarchy mapper.old) (Unmap S.LEVEL page) (frame_answer result.0)
        (M.hierarchy mapper.new) }
{
    let mut layer = Counting::new(mapper);
    let answer = unmap_by(&mut layer, page);
    (answer, layer.count)
}

/// Does this with a layer around a mapper of a memory. The owner knows what the call did to the memory.
pub fn unmap_counted<S: PageSize>(
    memory: &mut PhysMemory,
    root: PhysFrame<Size4KiB>,
    page: Page<S>,
) -> (Result<PhysFrame<S>, UnmapError>, u64)
    requires { Valid (direct identity_places root laid_in memory.old) }
    ensures { let h = owned identity_places root memory.old (tt {0}) in
        Does h (Unmap S.LEVEL page) (frame_answer result.0) (record h { memory = memory.new }) }
{
    let mut mapper = MappedPageTable::new(memory, root, IdentityMapping);
    unmap_by_layer(&mut mapper, page)
}

/// Executes calls with a layer, and returns the number of tables that were lent to be changed.
pub fn run_counted(
    memory: &mut PhysMemory,
    root: PhysFrame<Size4KiB>,
    pool: &mut FramePool,
    calls: &[Call],
    replies: &mut Vec<Reply>,
) -> Result<u64, AllocError>
    requires { let layout = direct identity_places root in
        PoolFits (layout laid_in memory.old) (serves_below pool.old.limit) pool.old.frames }
{
    let mut mapper = MappedPageTable::new(memory, root, IdentityMapping);
    let mut layer = Counting::new(&mut mapper);
    run(&mut layer, pool, calls, replies)?;
    Ok(layer.count)
}
