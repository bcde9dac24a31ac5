//! Translates an address with the mapper that reaches tables through the root's entry for itself, if there is one.
ghost use Rattle.std.specs.Prelude.{◌≡◌, None, Some, IfErr, IfOk};
ghost use Rattle.x86_64_mappers.specs.InvalidPageTables.{refuses_at};
ghost use Rattle.x86_64_mappers.specs.Recursive.{ValidThrough, recursive_now_at};
ghost use Rattle.x86_64_model.specs.Hierarchy.{◌laid_in◌, translation};
ghost use Rattle.x86_64_model.specs.Position.{index};
ghost use Rattle.x86_64_model.specs.Translation.{address_of};

use x86_64::addr::VirtAddrIn;
use x86_64::structures::paging::mapper::InvalidPageTable;
use x86_64::structures::paging::{PhysFrame, Size4KiB};
use x86_64::{LevelCount, PhysAddr, PhysMemory};
use x86_64_mappers::calls::translate_addr;
use x86_64_mappers::recursive_page_table::RecursivePageTableIn;
use x86_64_tables::phys_memory::Active;

/// Translates an address by the hierarchy of the table in a frame, which is reached at the address of its window. The
/// owner of the memory knows that no word changed, whether or not there is a mapper for this table.
///
/// Requires that the hierarchy is valid for the window's index, unless the mapper is refused.
///
/// # Errors
///
/// The reason why there is no mapper for this table and window, given the frame in CR3.
pub fn translate_through<L: LevelCount>(
    memory: &mut PhysMemory,
    cr3: PhysFrame<Size4KiB>,
    table: PhysFrame<Size4KiB>,
    window: VirtAddrIn<L>,
    addr: VirtAddrIn<L>,
) -> Result<Option<PhysAddr>, InvalidPageTable>
    requires { refuses_at L.LEVELS memory.old cr3 table window ≡ None
        → ValidThrough L.LEVELS memory.old cr3 (index L.LEVELS window) }
    ensures words { memory.new ≡ memory.old }
    ensures refused { IfErr result (λ why. refuses_at L.LEVELS memory.old cr3 table window ≡ Some why) }
    ensures made { IfOk result (λ _. refuses_at L.LEVELS memory.old cr3 table window ≡ None) }
    ensures translated { let layout = recursive_now_at L.LEVELS memory.old cr3 (index L.LEVELS window) in
        IfOk result (λ found. found ≡ address_of (translation (layout laid_in memory.old) addr)) }
{
    match RecursivePageTableIn::new(Active::new(memory, cr3), table, window) {
        Ok(mapper) => Ok(translate_addr(&mapper, addr)),
        Err(why) => Err(why),
    }
}
