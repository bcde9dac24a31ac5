//! Does what a guest's processor does before it stores something.
ghost use Rattle.std.specs.Prelude.{◌≡◌, ◌≤◌, true};
ghost use Rattle.x86_64_access.specs.Accesses.{controls_of, outcome_of};
ghost use Rattle.x86_64_access.specs.Marks.{OnlyMarks};
ghost use Rattle.x86_64_model.specs.Access as model;
ghost use Rattle.x86_64_model.specs.Memory.{identity_places, words_of};

use x86_64::structures::paging::{PhysFrame, Size4KiB};
use x86_64::{IdentityMapping, PhysAddr, TableMemory, VirtAddr};
use x86_64_access::{Access, AccessKind, Controls, Fault, access_and_mark, laws};

/// Returns where code of a guest at privilege level 3 stores something, or the fault that the guest gets. The entries on the way are
/// marked as its processor marks them.
///
/// Requires at most 52 bits of physical addresses.
pub fn store_by_user<T: TableMemory>(
    memory: &mut T,
    root: PhysFrame<Size4KiB>,
    addr: VirtAddr,
    controls: &Controls,
) -> Result<PhysAddr, Fault>
    requires { controls.now.physical_bits ≤ 52 }
    ensures outcome { outcome_of result ≡ model.access 4 (controls_of controls.now)
        (words_of (T.tables memory.old) identity_places) root addr
        (record { kind = model.Write; user = true }) }
    ensures marks { OnlyMarks (words_of (T.tables memory.old) identity_places)
        (words_of (T.tables memory.new) identity_places) }
{
    let access = Access {
        kind: AccessKind::Write,
        user: true,
    };
    let result = access_and_mark(memory, &IdentityMapping, root, addr, access, controls);
    laws::accesses_leave_only_marks();
    result
}
