//! Changes the root's table by hand.
ghost use Rattle.std.specs.Prelude.{◌≡◌, None, IfOk};
ghost use Rattle.uses.specs.Owned.{RootIsCleared, hierarchy};
ghost use Rattle.x86_64_model.specs.Hierarchy.{Valid, translation};
ghost use Rattle.x86_64_model.specs.Translation.{address_of};

use std::alloc::{AllocError, Global};
use x86_64::structures::paging::{MappedPageTable, PhysFrame, Size4KiB, Translate};
use x86_64::{IdentityMapping, PhysAddr, PhysMemory, VirtAddr};

/// Makes the root's first entry unused, and translates an address if the hierarchy is still valid.
pub fn unmap_first_entry(
    alloc: Global,
    memory: &mut PhysMemory,
    root: PhysFrame<Size4KiB>,
    addr: VirtAddr,
) -> Result<Option<PhysAddr>, AllocError>
    requires { Valid (hierarchy root memory.old) }
    ensures cleared { RootIsCleared root memory.old memory.new }
    ensures valid { IfOk result (λ found. Valid (hierarchy root memory.new)
        → found ≡ address_of (translation (hierarchy root memory.new) addr)) }
    ensures invalid { IfOk result (λ found. (Valid (hierarchy root memory.new) → ⊥) → found ≡ None) }
{
    let mut mapper = MappedPageTable::new(memory, root, IdentityMapping);
    mapper.level_4_table_mut()[0].set_unused();
    if !mapper.is_valid(alloc)? {
        return Ok(None);
    }
    Ok(mapper.translate_addr(addr))
}
