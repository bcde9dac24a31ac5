//! Maps a range of pages.
ghost use Rattle.std.specs.Prelude.{◌≡◌, ◌↔◌, false, IfErr, IfOk, IsTrue};
ghost use Rattle.uses.specs.PageMaps.{MayMapBuffer, buffer_at};
ghost use Rattle.x86_64_mappers.specs.Ranges.{MapsAll, StopsAt};
ghost use Rattle.x86_64_model.specs.Hierarchy.{SupplyFits};
ghost use Rattle.x86_64_tables.specs.MapperAnswers.{map_refusal};
ghost use Rattle.x86_64_tables.specs.PageTableFlags.{bits_of};

use x86_64::structures::paging::mapper::{MapRangeErrorIn, MapToError};
use x86_64::structures::paging::{Mapper, Page, PageTableFlags, PhysFrame, Size4KiB};
use x86_64::{FramePool, parent_flags};

/// How far a map of a buffer came, and why it stopped.
#[derive(Clone, Copy)]
pub struct Stopped {
    /// The number of mapped pages.
    pub mapped: u64,
    /// The reason why the next one was refused.
    pub why: MapToError<Size4KiB>,
}

/// Maps the pages of a buffer to frames that follow each other. Returns false if they may not be mapped.
pub fn map_buffer<M: Mapper<Size4KiB>>(
    mapper: &mut M,
    page: Page<Size4KiB>,
    count: u64,
    frame: PhysFrame<Size4KiB>,
    flags: PageTableFlags,
    pool: &mut FramePool,
) -> Result<bool, Stopped>
    requires { SupplyFits (M.hierarchy mapper.old) pool.old.frames }
    ensures fits { SupplyFits (M.hierarchy mapper.new) pool.new.frames }
    ensures allowed { IfOk result (λ mapped. IsTrue mapped
        ↔ MayMapBuffer (M.hierarchy mapper.old) (buffer_at page frame (bits_of flags)) count) }
    ensures kept { result ≡ Ok false → (mapper.new ≡ mapper.old) × (pool.new ≡ pool.old) }
    ensures maps { IfOk result (λ mapped. IsTrue mapped → MapsAll (M.hierarchy mapper.old) pool.old.frames
        (buffer_at page frame (bits_of flags)) count (M.hierarchy mapper.new) pool.new.frames) }
    ensures stops { IfErr result (λ stopped. StopsAt (M.hierarchy mapper.old) pool.old.frames
        (buffer_at page frame (bits_of flags)) count stopped.mapped (map_refusal stopped.why)
        (M.hierarchy mapper.new) pool.new.frames) }
{
    let parent_flags = parent_flags(flags);
    if !mapper.map_range_allowed(page, count, frame, flags, parent_flags) {
        return Ok(false);
    }
    match mapper.map_range(page, count, frame, flags, parent_flags, pool) {
        Ok(flush) => {
            flush.ignore();
            Ok(true)
        }
        Err(error) => {
            let MapRangeErrorIn { mapped: flush, why } = error;
            let mapped = flush.count();
            flush.ignore();
            Err(Stopped { mapped, why })
        }
    }
}
