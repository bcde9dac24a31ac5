//! Maps of runs of pages of one size.
ghost use Rattle.std.specs.Prelude.{◌≡◌, ◌%◌, ◌<◌, ℕ, true, OnOk, IfErr};
ghost use Rattle.x86_64_loader.specs.private.Loads.{AreMapped, IsStopped};
ghost use Rattle.x86_64_loader.specs.Pages.{MayBeMapped};
ghost use Rattle.x86_64_mappers.specs.Supplies.{supply_of};
ghost use Rattle.x86_64_model.specs.Entry.{present};
ghost use Rattle.x86_64_model.specs.Hierarchy.{SupplyFits};
ghost use Rattle.x86_64_tables.specs.MapperAnswers.{map_refusal};
ghost use Rattle.x86_64_tables.specs.PageTableFlags.{bits_of};

use x86_64::parent_flags;
use x86_64::structures::paging::mapper::{MapRangeError, MapToError};
use x86_64::structures::paging::{
    FrameAllocator, Mapper, Page, PageSize, PageTableFlags, PhysFrame, Size4KiB,
};

/// The page at which a run of maps stopped.
#[derive(Clone, Copy)]
pub(crate) struct Stopped<S: PageSize> {
    /// The number of pages mapped before the refused one.
    pub(crate) mapped: u64,
    /// The reason for the refusal.
    pub(crate) why: MapToError<S>,
}

/// Maps a number of pages, from a page on, to the frames from a frame on, in order and with `PRESENT`.
pub(crate) fn map_pages<S: PageSize, M: Mapper<S>, A: FrameAllocator<Size4KiB>>(
    mapper: &mut M,
    frames: &mut A,
    page: Page<S>,
    frame: PhysFrame<S>,
    count: u64,
    flags: PageTableFlags,
) -> Result<(), Stopped<S>>
    requires fits { SupplyFits (M.hierarchy mapper.old) (A.supply frames.old) }
    requires is_present { present (bits_of flags) ≡ true }
    requires may { (k : ℕ) → k < count
        → MayBeMapped (M.hierarchy mapper.old) S.LEVEL S.SIZE page frame (bits_of flags) k }
    ensures mapped { OnOk result (AreMapped (M.hierarchy mapper.old) (supply_of A.FrameAllocator frames.old)
        S.LEVEL S.SIZE page frame (bits_of flags) count
        (M.hierarchy mapper.new) (supply_of A.FrameAllocator frames.new)) }
    ensures stopped { IfErr result (λ stopped. IsStopped (M.hierarchy mapper.old)
        (supply_of A.FrameAllocator frames.old)
        S.LEVEL S.SIZE page frame (bits_of flags) count stopped.mapped (map_refusal stopped.why)
        (M.hierarchy mapper.new) (supply_of A.FrameAllocator frames.new)) }
    ensures page_aligned { page % S.SIZE ≡ 0 }
    ensures frame_aligned { frame % S.SIZE ≡ 0 }
{
    let parent_flags = parent_flags(flags);
    match mapper.map_range(page, count, frame, flags, parent_flags, frames) {
        // No flush is due, since no page walk arrived in the pages before.
        Ok(flush) => {
            flush.ignore();
            Ok(())
        }
        Err(error) => {
            let MapRangeError { mapped, why } = error;
            let count = mapped.count();
            mapped.ignore();
            Err(Stopped { mapped: count, why })
        }
    }
}
