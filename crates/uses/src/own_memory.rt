//! Maps a page in the caller's own tables.
ghost use Rattle.std.specs.Prelude.{◌≡◌, ◌↔◌, false, IfOk, IsTrue};
ghost use Rattle.uses.specs.Owned.{hierarchy};
ghost use Rattle.uses.specs.PageMaps.{MappedArrives, StepsIfAllowed};
ghost use Rattle.x86_64_model.specs.Call.{MapTo};
ghost use Rattle.x86_64_model.specs.Hierarchy.{SupplyFits, allows};
ghost use Rattle.x86_64_model.specs.Store.{StoreFits};
ghost use Rattle.x86_64_tables.specs.LentMemory.{numbered};
ghost use Rattle.x86_64_tables.specs.MapperAnswers.{map_answer};
ghost use Rattle.x86_64_tables.specs.PageTableFlags.{bits_of};
ghost use Rattle.x86_64.specs.Pairs.{pool_store};

use std::alloc::{AllocError, Global};
use x86_64::structures::paging::mapper::MapToError;
use x86_64::structures::paging::{
    MappedPageTable, Mapper, Page, PageTable, PageTableFlags, PhysFrame, Size4KiB,
};
use x86_64::{FramePool, IdentityMapping, LentMemory, TableMemory, parent_flags, pool_fits};

/// Maps a page in any memory. Returns false if it may not be mapped with these flags.
pub fn map_in<T: TableMemory>(
    memory: &mut T,
    root: PhysFrame<Size4KiB>,
    page: Page<Size4KiB>,
    frame: PhysFrame<Size4KiB>,
    flags: PageTableFlags,
    pool: &mut FramePool,
) -> Result<bool, MapToError<Size4KiB>>
    requires { SupplyFits (hierarchy root (T.tables memory.old)) pool.old.frames }
    ensures fits { SupplyFits (hierarchy root (T.tables memory.new)) pool.new.frames }
    ensures allowed { IfOk result (λ mapped. mapped
        ≡ allows (hierarchy root (T.tables memory.old)) (MapTo 1 page frame (bits_of flags))) }
    ensures does { StepsIfAllowed (hierarchy root (T.tables memory.old)) pool.old.frames
        (MapTo 1 page frame (bits_of flags)) (map_answer frame result)
        (hierarchy root (T.tables memory.new)) pool.new.frames }
    ensures kept { result ≡ Ok false → (T.tables memory.new ≡ T.tables memory.old) × (pool.new ≡ pool.old) }
    ensures arrives { MappedArrives result (hierarchy root (T.tables memory.new)) page frame (bits_of flags) }
    ensures lent { T.lent memory.new ≡ T.lent memory.old }
{
    let mut mapper = MappedPageTable::new(memory, root, IdentityMapping);
    if !mapper.map_allowed(page, flags, parent_flags(flags)) {
        return Ok(false);
    }
    mapper.map_to(page, frame, flags, pool)?.ignore();
    Ok(true)
}

/// Returns true if the tables of a slice are a valid hierarchy that a pool fits, so that pages can be mapped in it.
pub fn is_ready(
    alloc: Global,
    tables: &mut [PageTable],
    root: PhysFrame<Size4KiB>,
    pool: &FramePool,
) -> Result<bool, AllocError>
    ensures exact { IfOk result (λ ready. IsTrue ready
        ↔ StoreFits (hierarchy root (numbered tables.old)) (pool_store pool.now)) }
    ensures ready { IfOk result (λ ready. IsTrue ready
        → SupplyFits (hierarchy root (numbered tables.new)) pool.now.frames) }
    ensures kept { tables.new ≡ tables.old }
{
    let memory = LentMemory::new(tables);
    pool_fits(alloc, &memory, &IdentityMapping, root, pool)
}

/// Maps a page in tables that are a slice, as the memory of a guest is.
pub fn map_in_slice(
    tables: &mut [PageTable],
    root: PhysFrame<Size4KiB>,
    page: Page<Size4KiB>,
    frame: PhysFrame<Size4KiB>,
    flags: PageTableFlags,
    pool: &mut FramePool,
) -> Result<bool, MapToError<Size4KiB>>
    requires { SupplyFits (hierarchy root (numbered tables.old)) pool.old.frames }
    ensures fits { SupplyFits (hierarchy root (numbered tables.new)) pool.new.frames }
    ensures allowed { IfOk result (λ mapped. mapped
        ≡ allows (hierarchy root (numbered tables.old)) (MapTo 1 page frame (bits_of flags))) }
    ensures does { StepsIfAllowed (hierarchy root (numbered tables.old)) pool.old.frames
        (MapTo 1 page frame (bits_of flags)) (map_answer frame result)
        (hierarchy root (numbered tables.new)) pool.new.frames }
    ensures kept { result ≡ Ok false → (tables.new ≡ tables.old) × (pool.new ≡ pool.old) }
    ensures arrives { MappedArrives result (hierarchy root (numbered tables.new)) page frame (bits_of flags) }
{
    let mut memory = LentMemory::new(tables);
    map_in(&mut memory, root, page, frame, flags, pool)
}
