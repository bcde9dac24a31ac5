//! What every mapper holds: page tables in a memory that was lent.
ghost use Rattle.std.specs.Prelude.{◌≡◌, ◌<◌, ◌≤◌, option_map};
ghost use Rattle.x86_64_model.specs.Laws.Pairs.{IsAdded};
ghost use Rattle.x86_64_model.specs.Memory.{IsMapping};
ghost use Rattle.x86_64_model.specs.MapRule.{parent_part};
ghost use Rattle.x86_64_model.specs.Hierarchy.{Hierarchy};
ghost use Rattle.x86_64_tables.specs.PageTableFlags.{bits_of};

use crate::page_table::PageTableFlags;
use bitflags::Flags;
use x86_64_addr::index::PageTableIndex;
use x86_64_addr::level_count::{FiveLevels, FourLevels, LevelCount};

/// Page tables of four or five levels, in a memory that was lent.
///
/// A place is the number under which the memory holds a table. A frame that has a place is covered.
///
/// Laws: only frames are covered, and distinct covered frames have distinct places.
pub trait Tables {
    ghost Lent: { Type 0 };

    /// The hierarchy now: its layout, which no call changes, the memory, which memory was lent, and what finds frames in it.
    ghost hierarchy: { Self → Hierarchy Lent };

    // The flags that a new table entry gets in addition to the parent flags: `PRESENT` or not, and `WRITABLE` or not.
    ghost added_flags: { (tables : Self) → IsAdded (hierarchy tables).layout.added_flags };

    /// Returns the recursive index, at which the root has an entry that names the root itself, or `None` if there is none.
    fn recursive_index(&self) -> Option<PageTableIndex>
        ensures { result ≡ option_map (λ window. window.index) (Self.hierarchy self.now).layout.window };

    // Pages are mapped at levels one to three, and there is a level above.
    ghost at_least_four: { (tables : Self) → 3 < (hierarchy tables).layout.levels };

    // Processors have at most five levels, so a path has at most five indices.
    ghost at_most_five: { (tables : Self) → (hierarchy tables).layout.levels ≤ 5 };

    ghost is_mapping: { (tables : Self) → IsMapping (hierarchy tables).layout.places };
}

/// Page tables of `L::LEVELS` levels.
pub trait TablesIn<L: LevelCount>: Tables {
    ghost level_count: { (tables : Self) → (Self.Tables.hierarchy tables).layout.levels ≡ L.LEVELS };
}

/// Page tables of four levels.
pub trait PageTables: TablesIn<FourLevels> {}

impl<T: TablesIn<FourLevels>> PageTables for T {}

/// Page tables of five levels.
pub trait PageTables57: TablesIn<FiveLevels> {}

impl<T: TablesIn<FiveLevels>> PageTables57 for T {}

/// Returns the parent flags that `map_to` uses: `PRESENT`, `WRITABLE` and `USER_ACCESSIBLE`, as far as
/// they are among the flags.
pub fn parent_flags(flags: PageTableFlags) -> PageTableFlags
    ensures { bits_of result ≡ parent_part (bits_of flags) }
{
    flags.intersection(
        PageTableFlags::PRESENT
            .union(PageTableFlags::WRITABLE)
            .union(PageTableFlags::USER_ACCESSIBLE),
    )
}
