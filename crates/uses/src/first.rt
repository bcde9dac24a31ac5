//! Maps a page, by any mapper.
ghost use Rattle.std.specs.Prelude.{◌≡◌, false, IfOk};
ghost use Rattle.uses.specs.PageMaps.{MappedArrives, MapsIfAllowed};
ghost use Rattle.x86_64_model.specs.Call.{MapTo};
ghost use Rattle.x86_64_model.specs.Hierarchy.{SupplyFits, allows};
ghost use Rattle.x86_64_tables.specs.MapperAnswers.{map_answer};
ghost use Rattle.x86_64_tables.specs.PageTableFlags.{bits_of};

use x86_64::structures::paging::mapper::MapToError;
use x86_64::structures::paging::{Mapper, Page, PageTableFlags, PhysFrame, Size4KiB};
use x86_64::{FramePool, parent_flags};

/// Maps a page to a frame. Returns false if it may not be mapped with these flags.
pub fn map_page<M: Mapper<Size4KiB>>(
    mapper: &mut M,
    page: Page<Size4KiB>,
    frame: PhysFrame<Size4KiB>,
    flags: PageTableFlags,
    pool: &mut FramePool,
) -> Result<bool, MapToError<Size4KiB>>
    requires { SupplyFits (M.hierarchy mapper.old) pool.old.frames }
    ensures fits { SupplyFits (M.hierarchy mapper.new) pool.new.frames }
    ensures allowed { IfOk result (λ mapped. mapped
        ≡ allows (M.hierarchy mapper.old) (MapTo 1 page frame (bits_of flags))) }
    ensures does { MapsIfAllowed (M.hierarchy mapper.old) pool.old.frames (MapTo 1 page frame (bits_of flags))
        (map_answer frame result) (M.hierarchy mapper.new) pool.new.frames }
    ensures kept { result ≡ Ok false → (mapper.new ≡ mapper.old) × (pool.new ≡ pool.old) }
    ensures arrives { MappedArrives result (M.hierarchy mapper.new) page frame (bits_of flags) }
{
    if !mapper.map_allowed(page, flags, parent_flags(flags)) {
        return Ok(false);
    }
    mapper.map_to(page, frame, flags, pool)?.ignore();
    Ok(true)
}
