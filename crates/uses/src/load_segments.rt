//! Maps the segments of a program.
ghost use Rattle.std.specs.Prelude.{◌≡◌, ◌≤◌, ◌↔◌, false, length, IfErr, IfOk, IsTrue};
ghost use Rattle.std.specs.List.{All, AllByRecursion};
ghost use Rattle.x86_64_loader.specs.Segments.{Disjoint, IsAllowed, IsInside, IsLoaded, LoadIsRefused, frames_for, small_pages};
ghost use Rattle.x86_64_model.specs.Hierarchy.{SupplyFits, paths};
ghost use Rattle.x86_64_model.specs.PageMappings.{IsUnmapped, entry_path};

use x86_64::FramePool;
use x86_64::structures::paging::mapper::MapperAllSizes;
use x86_64_loader::{LoadError, Segment, frames_needed, load, segments_allowed};

/// Maps the segments of a program. Returns false if they may not be mapped.
pub fn load_program<M: MapperAllSizes>(
    mapper: &mut M,
    pool: &mut FramePool,
    segments: &[Segment],
) -> Result<bool, LoadError>
    requires { SupplyFits (M.hierarchy mapper.old) pool.old.frames }
    ensures fits { SupplyFits (M.hierarchy mapper.new) pool.new.frames }
    ensures allowed { IfOk result (λ loaded. IsTrue loaded
        ↔ All (IsAllowed (M.hierarchy mapper.old)) segments.now) }
    ensures kept { result ≡ Ok false → (mapper.new ≡ mapper.old) × (pool.new ≡ pool.old) }
    ensures refused { IfErr result (λ error. LoadIsRefused small_pages (M.hierarchy mapper.old)
        pool.old.frames segments.now error (M.hierarchy mapper.new) pool.new.frames) }
    ensures loaded { IfOk result (λ loaded. IsTrue loaded
        → All (IsLoaded small_pages (M.hierarchy mapper.new)) segments.now) }
{
    if !segments_allowed(mapper, segments) {
        return Ok(false);
    }
    load(mapper, pool, segments)?;
    Ok(true)
}

/// Loads segments that do not overlap, into addresses where nothing is mapped, if there are as many frames as needed.
/// Returns true if there are. Then no map is refused.
pub fn load_unmapped<M: MapperAllSizes>(
    mapper: &mut M,
    pool: &mut FramePool,
    segments: &[Segment],
) -> bool
    requires fits { SupplyFits (M.hierarchy mapper.old) pool.old.frames }
    requires allowed { All (IsAllowed (M.hierarchy mapper.old)) segments.now }
    requires inside { All IsInside segments.now }
    requires unmapped { let h = M.hierarchy mapper.old in let levels = h.layout.levels in
        All (λ s. AllByRecursion (λ x. IsUnmapped (paths h) (entry_path levels x)) (small_pages s))
        segments.now }
    requires disjoint { Disjoint segments.now }
    ensures enough { IsTrue result ↔ (frames_for segments.now ≤ length pool.old.frames) }
    ensures loaded { IsTrue result → All (IsLoaded small_pages (M.hierarchy mapper.new)) segments.now }
{
    let free = pool.len() as u64;
    let Some(needed) = frames_needed(segments) else {
        return false;
    };
    if free < needed {
        return false;
    }
    match load(mapper, pool, segments) {
        Ok(()) => true,
        Err(_) => unreachable!(),
    }
}
