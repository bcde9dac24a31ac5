//! Lists what page tables map.
ghost use Rattle.std.specs.Prelude.{◌≡◌, ◌&&◌, IfOk};
ghost use Rattle.std.specs.List.{find};
ghost use Rattle.x86_64_model.specs.Mappings.{mappings_of};
ghost use Rattle.x86_64_model.specs.Memory.{identity_places, words_of};
ghost use Rattle.x86_64_model.specs.Regions.{regions_of};

use std::alloc::{AllocError, Global};
use x86_64::structures::paging::{PhysFrame, Size4KiB};
use x86_64::{IdentityMapping, Mapping, Region, TableMemory, mappings, regions};

/// Lists all mappings below a root.
pub fn list_all<T: TableMemory>(
    alloc: Global,
    memory: &T,
    root: PhysFrame<Size4KiB>,
) -> Result<Vec<Mapping>, AllocError>
    ensures { let words = words_of (T.tables memory.now) identity_places in
        IfOk result (λ mappings. mappings.items ≡ mappings_of 4 words root) }
{
    mappings(memory, &IdentityMapping, root).collect(alloc)
}

/// Returns the first region that can be both written and executed, or `None` if there is none.
pub fn writable_code<T: TableMemory>(memory: &T, root: PhysFrame<Size4KiB>) -> Option<Region>
    ensures { let words = words_of (T.tables memory.now) identity_places in
        result ≡ find (λ region. region.rights.write && region.rights.execute) (regions_of 4 words root) }
{
    for region in regions(memory, &IdentityMapping, root) {
        if region.rights.write && region.rights.execute {
            return Some(region);
        }
    }
    None
}
