//! Laws of mappers. The bodies are empty, the contracts are the laws.
ghost use Rattle.std.specs.Prelude.{◌≡◌};
ghost use Rattle.x86_64_model.specs.Memory.{identity_places, words_of};
ghost use Rattle.x86_64_mappers.specs.CleanUpsBelowRoot.{SpacesStayCleanedBelowRoot};
ghost use Rattle.x86_64_mappers.specs.Layouts.{AreValidAlike, FitAlike};
ghost use Rattle.x86_64_mappers.specs.Offsets.{offset_places, OffsetFits};
ghost use Rattle.x86_64_mappers.specs.Windows.{WindowsShowTables};

use x86_64_addr::addr::VirtAddrIn;
use x86_64_addr::level_count::LevelCount;
use x86_64_tables::phys_memory::TableMemory;

/// If an offset fits a memory, each frame has the same table at the offset as by the identity mapping. So the same
/// hierarchies are valid with both mappings, and the same pools fit them.
#[tactic(auto, using(crate::proofs::Memory::OffsetTables::offset_words))]
pub fn offset_has_the_tables_of_the_identity<L: LevelCount, T: TableMemory>(
    memory: &T,
    phys_offset: VirtAddrIn<L>,
)
    requires { OffsetFits L.LEVELS (T.tables memory.now) phys_offset }
    ensures tables { words_of (T.tables memory.now) (offset_places L.LEVELS phys_offset)
        ≡ words_of (T.tables memory.now) identity_places }
    ensures valid { AreValidAlike L.LEVELS (T.tables memory.now)
        identity_places (offset_places L.LEVELS phys_offset) }
    ensures fits { FitAlike L.LEVELS (T.tables memory.now)
        identity_places (offset_places L.LEVELS phys_offset) }
{}

/// If an entry of the root names the root itself, and each entry on the path to a table names a table, all of them with
/// `PRESENT` and without `HUGE_PAGE`, the page walk of the table's window arrives at the table, whatever all other
/// words are.
#[tactic(auto, using(crate::proofs::Window::Windows::windows_show_tables))]
pub fn windows_show_their_tables()
    ensures { WindowsShowTables }
{}

/// If one of many address spaces is cleaned up below its root's entries, which it may share with the others, all are
/// address spaces again, and each page walk of each of them has the result that it had, outside the recursive windows.
pub fn spaces_stay_after_clean_ups_below_root()
    ensures { SpacesStayCleanedBelowRoot }
{}
