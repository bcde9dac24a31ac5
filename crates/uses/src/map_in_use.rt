//! Maps a page in tables that are in use, where a refused map must change nothing.
ghost use Rattle.std.specs.Prelude.{◌≡◌, ◌≢◌, true, IfOk, Ok};
ghost use Rattle.uses.specs.Owned.{hierarchy};
ghost use Rattle.uses.specs.PageMaps.{MapsByFlags};
ghost use Rattle.x86_64_model.specs.Call.{MapTo};
ghost use Rattle.x86_64_model.specs.Hierarchy.{SupplyFits, allows};
ghost use Rattle.x86_64_tables.specs.PageTableFlags.{bits_of};

use x86_64::structures::paging::mapper::MapToError;
use x86_64::structures::paging::{Page, PageTableFlags, PhysFrame, Size4KiB};
use x86_64::{FramePool, IdentityMapping, TableMemory, parent_flags};
use x86_64_live::{PageMap, map_or_nothing, may_map};

/// Maps a page in any memory. Returns false if it may not be mapped with these flags. Unless it is mapped, the tables and the
/// pool stay as they are.
pub fn map_in_use<T: TableMemory>(
    memory: &mut T,
    root: PhysFrame<Size4KiB>,
    page: Page<Size4KiB>,
    frame: PhysFrame<Size4KiB>,
    flags: PageTableFlags,
    pool: &mut FramePool,
) -> Result<bool, MapToError<Size4KiB>>
    requires { SupplyFits (hierarchy root (T.tables memory.old)) pool.old.frames }
    ensures fits { SupplyFits (hierarchy root (T.tables memory.new)) pool.new.frames }
    ensures allowed { IfOk result (λ mapped. mapped
        ≡ allows (hierarchy root (T.tables memory.old)) (MapTo 1 page frame (bits_of flags))) }
    ensures maps { result ≡ Ok true → MapsByFlags (hierarchy root (T.tables memory.old)) pool.old.frames
        page frame (bits_of flags) (hierarchy root (T.tables memory.new)) pool.new.frames }
    ensures kept { result ≢ Ok true → (T.tables memory.new ≡ T.tables memory.old) × (pool.new ≡ pool.old) }
    ensures lent { T.lent memory.new ≡ T.lent memory.old }
{
    let map = PageMap {
        page,
        frame,
        flags,
        parent_flags: parent_flags(flags),
    };
    if !may_map(memory, IdentityMapping, root, map) {
        return Ok(false);
    }
    let free_frames = pool.len();
    map_or_nothing(memory, IdentityMapping, root, map, pool, free_frames)?.ignore();
    Ok(true)
}
