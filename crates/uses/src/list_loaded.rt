//! Loads segments, drops the mapper, and lists all mappings below the root.
ghost use Rattle.std.specs.Prelude.{◌≡◌, IfOk, IfSome, IsSome, IsTrue};
ghost use Rattle.std.specs.List.{All};
ghost use Rattle.uses.specs.Listed.{AreListed};
ghost use Rattle.x86_64_loader.specs.Segments.{IsAllowed, IsLoaded, Suffices, small_pages};
ghost use Rattle.x86_64_mappers.specs.Layouts.{direct, owned};
ghost use Rattle.x86_64_model.specs.Hierarchy.{◌laid_in◌, SupplyFits};
ghost use Rattle.x86_64_model.specs.Mappings.{mappings_of};
ghost use Rattle.x86_64_model.specs.Memory.{identity_places, words_of};

use crate::list_mappings::list_all;
use std::alloc::{AllocError, Global};
use x86_64::structures::paging::mapper::MapperAllSizes;
use x86_64::structures::paging::{MappedPageTable, PhysFrame, Size4KiB};
use x86_64::{FramePool, IdentityMapping, Mapping, TableMemory};
use x86_64_loader::{Segment, load, segments_allowed};

/// Loads segments with any mapper, if they may be loaded, and returns true if all of them were.
fn load_by<M: MapperAllSizes>(mapper: &mut M, pool: &mut FramePool, segments: &[Segment]) -> bool
    requires { SupplyFits (M.hierarchy mapper.old) pool.old.frames }
    ensures loaded { IsTrue result → All (IsLoaded small_pages (M.hierarchy mapper.new)) segments.now }
    ensures succeeds { let h = M.hierarchy mapper.old in
        All (IsAllowed h) segments.now → Suffices small_pages h pool.old.frames segments.now
        → IsTrue result }
    ensures fits { SupplyFits (M.hierarchy mapper.new) pool.new.frames }
    ensures layout { (M.hierarchy mapper.new).layout ≡ (M.hierarchy mapper.old).layout }
    ensures lent { (M.hierarchy mapper.new).lent ≡ (M.hierarchy mapper.old).lent }
{
    if !segments_allowed(mapper, segments) {
        return false;
    }
    load(mapper, pool, segments).is_ok()
}

/// Loads segments with a mapper that is then dropped, if they may be loaded, and returns true if all of them were.
fn load_into<T: TableMemory>(
    memory: &mut T,
    root: PhysFrame<Size4KiB>,
    pool: &mut FramePool,
    segments: &[Segment],
) -> bool
    requires { SupplyFits (direct identity_places root laid_in T.tables memory.old) pool.old.frames }
    ensures loaded { let h = owned identity_places root (T.tables memory.new) (tt {0}) in
        IsTrue result → All (IsLoaded small_pages h) segments.now }
    ensures succeeds { let h = owned identity_places root (T.tables memory.old) (tt {0}) in
        All (IsAllowed h) segments.now → Suffices small_pages h pool.old.frames segments.now
        → IsTrue result }
    ensures fits { SupplyFits (direct identity_places root laid_in T.tables memory.new) pool.new.frames }
    ensures lent { T.lent memory.new ≡ T.lent memory.old }
{
    let mut mapper = MappedPageTable::new(memory, root, IdentityMapping);
    load_by(&mut mapper, pool, segments)
}

/// Loads segments with pages of 4KiB, drops the mapper, and lists all mappings below the root. Each page of the
/// segments is among them. Returns `None` if the segments may not be loaded, or not all of them were.
pub fn load_and_list<T: TableMemory>(
    alloc: Global,
    memory: &mut T,
    root: PhysFrame<Size4KiB>,
    pool: &mut FramePool,
    segments: &[Segment],
) -> Result<Option<Vec<Mapping>>, AllocError>
    requires { SupplyFits (direct identity_places root laid_in T.tables memory.old) pool.old.frames }
    ensures all { let words = words_of (T.tables memory.new) identity_places in
        IfOk result (λ listed. IfSome listed (λ mappings. mappings.items ≡ mappings_of 4 words root)) }
    ensures loaded { IfOk result (λ listed.
        IfSome listed (λ mappings. All (AreListed mappings.items) segments.now)) }
    ensures succeeds { let h = owned identity_places root (T.tables memory.old) (tt {0}) in
        All (IsAllowed h) segments.now → Suffices small_pages h pool.old.frames segments.now
        → IfOk result IsSome }
    ensures fits { SupplyFits (direct identity_places root laid_in T.tables memory.new) pool.new.frames }
    ensures lent { T.lent memory.new ≡ T.lent memory.old }
{
    if !load_into(memory, root, pool, segments) {
        return Ok(None);
    }
    let listed = list_all(alloc, memory, root)?;
    Ok(Some(listed))
}
