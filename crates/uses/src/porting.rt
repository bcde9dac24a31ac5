//! Calls of the Rust crate, as they are written here.
ghost use Rattle.std.specs.Prelude.{◌≡◌, ◌↔◌, ◌<◌, ◌++◌, [], ◌∷◌, true, false, None, IfErr, IfOk, IfSome, IsSome, IsTrue};
ghost use Rattle.uses.specs.PageMaps.{MapsIfAllowed};
ghost use Rattle.x86_64_model.specs.Call.{MapTo, Unmap};
ghost use Rattle.x86_64_model.specs.Hierarchy.{CleansUp, Does, MayCleanUp, SupplyFits, Valid, allows, translation};
ghost use Rattle.x86_64_model.specs.Refusal.{Done, Refused};
ghost use Rattle.x86_64_model.specs.Translation.{address_of};
ghost use Rattle.x86_64_tables.specs.FlushRecorder.{page_item};
ghost use Rattle.x86_64_tables.specs.MapperAnswers.{map_answer, refusal_of_unmap};
ghost use Rattle.x86_64_tables.specs.PageTableFlags.{bits_of};

use x86_64::structures::paging::mapper::{CleanUp, MapToError, UnmapError};
use x86_64::structures::paging::{
    FrameAllocator, FrameDeallocator, Mapper, Page, PageTableFlags, PhysFrame, Size4KiB, Translate,
};
use x86_64::{FlushRecorder, PhysAddr, VirtAddr, is_outside_window, parent_flags};

/// Maps a page, and records its flush. Returns false if it may not be mapped.
pub fn map<M: Mapper<Size4KiB>, A: FrameAllocator<Size4KiB>>(
    mapper: &mut M,
    page: Page<Size4KiB>,
    frame: PhysFrame<Size4KiB>,
    flags: PageTableFlags,
    frames: &mut A,
    recorder: &mut FlushRecorder,
) -> Result<bool, MapToError<Size4KiB>>
    requires { SupplyFits (M.hierarchy mapper.old) (A.supply frames.old) }
    ensures allowed { IfOk result (λ mapped. mapped
        ≡ allows (M.hierarchy mapper.old) (MapTo 1 page frame (bits_of flags))) }
    ensures does { MapsIfAllowed (M.hierarchy mapper.old) (A.supply frames.old)
        (MapTo 1 page frame (bits_of flags)) (map_answer frame result)
        (M.hierarchy mapper.new) (A.supply frames.new) }
    ensures kept { result ≡ Ok false
        → (mapper.new ≡ mapper.old) × (frames.new ≡ frames.old) × (recorder.new ≡ recorder.old) }
    ensures recorded { IfOk result (λ mapped. IsTrue mapped → 0 < recorder.old.room →
        recorder.new.items ≡ recorder.old.items ++ page_item 4 page 4096 ∷ []) }
{
    if !mapper.map_allowed(page, flags, parent_flags(flags)) {
        return Ok(false);
    }
    let flush = mapper.map_to(page, frame, flags, frames)?;
    if let Err(flush) = flush.flush(recorder) {
        flush.ignore();
    }
    Ok(true)
}

/// Unmaps a page, which no processor has loaded. Returns `None` if it may not be unmapped.
pub fn unmap<M: Mapper<Size4KiB>>(
    mapper: &mut M,
    page: Page<Size4KiB>,
) -> Result<Option<PhysFrame<Size4KiB>>, UnmapError>
    requires { Valid (M.hierarchy mapper.old) }
    ensures allowed { IfOk result (λ frame. IsSome frame
        ↔ (allows (M.hierarchy mapper.old) (Unmap 1 page) ≡ true)) }
    ensures unmapped { IfOk result (λ some. IfSome some (λ frame. Does (M.hierarchy mapper.old)
        (Unmap 1 page) (Done frame) (M.hierarchy mapper.new))) }
    ensures refused { IfErr result (λ why. Does (M.hierarchy mapper.old) (Unmap 1 page)
        (Refused (refusal_of_unmap why)) (M.hierarchy mapper.new)) }
    ensures kept { result ≡ Ok None → mapper.new ≡ mapper.old }
{
    if !is_outside_window(mapper, page) {
        return Ok(None);
    }
    let (frame, flush) = mapper.unmap(page)?;
    flush.ignore();
    Ok(Some(frame))
}

/// Translates an address.
pub fn translate<M: Translate>(mapper: &M, addr: VirtAddr) -> Option<PhysAddr>
    requires { Valid (M.hierarchy mapper.now) }
    ensures { result ≡ address_of (translation (M.hierarchy mapper.now) addr) }
{
    mapper.translate_addr(addr)
}

/// Returns the frames of empty tables.
pub fn clean_up<M: CleanUp, D: FrameDeallocator<Size4KiB>>(mapper: &mut M, frames: &mut D)
    requires { MayCleanUp (M.hierarchy mapper.old) (D.serves frames.old) (D.held frames.old) }
    ensures { CleansUp (M.hierarchy mapper.old) D.take_back (D.held frames.old) 0 0xffff_ffff_ffff
        (M.hierarchy mapper.new) (D.held frames.new) }
{
    mapper.clean_up(frames);
}
