//! Tables that are reached at virtual addresses.
ghost use Rattle.std.specs.Prelude.{◌≡◌, ◌<◌, ◌/◌, ℕ, List, IsSome};
ghost use Rattle.std.specs.Borrow.{sem};
ghost use Rattle.std.specs.FinMap.{insert};
ghost use Rattle.std.specs.Option.{option_copied, option_copied_mut};
ghost use Rattle.x86_64_model.specs.Memory.{Memory, words_of, identity_places};
ghost use Rattle.x86_64_model.specs.Position.{position_count};
ghost use Rattle.x86_64_mappers.specs.Recursive.{by_number, shown_frame};
ghost use Rattle.x86_64_tables.specs.ActiveMemory.{walked_table};
ghost use Rattle.x86_64_tables.specs.SelfEntries.{has_self_entry};
ghost use Rattle.x86_64_tables.specs.Lending.{LendsTableIfBy};

use x86_64_addr::addr::VirtAddrIn;
use x86_64_addr::index::PageTableIndex;
use x86_64_addr::level_count::LevelCount;
use x86_64_page::frame::PhysFrame;
use x86_64_page::page::Size4KiB;
use x86_64_tables::page_table::PageTable;
use x86_64_tables::phys_memory::{Active, TableMemory};

/// Access to tables at virtual addresses alone, by page walks through the tables as they are at that moment.
pub trait WalkedTables<L: LevelCount> {
    /// The memory as it is. Each frame lies at the place of its number (a place is the index of a table in memory).
    ghost memory: { Self → Memory };

    /// The frame at which page walks start.
    ghost root: { Self → ℕ };

    /// The type of the value that identifies the memory that was lent.
    ghost Lent: { Type 0 };

    ghost lent: { Self → Lent };

    /// `Self` with another table in a frame.
    ghost with_table: { Self → ℕ → List ℕ → Self };

    /// Returns the frame at which page walks start.
    fn cr3(&self) -> PhysFrame<Size4KiB>
        ensures { result ≡ Self.root self.now };

    /// Returns true if the root's word at an index has `PRESENT`, lacks `HUGE_PAGE` and names the root.
    fn self_entry(&self, index: PageTableIndex) -> bool
        ensures { result ≡ has_self_entry (by_number (Self.memory self.now)) (Self.root self.now) index };

    /// Returns the table at which the page walk of a position arrives, if there is one. A position is an address
    /// counted without the gap between the halves.
    ///
    /// Requires that the position is one of the address space.
    fn table(&self, position: u64) -> Option<&PageTable>
        requires { position < position_count L.LEVELS }
        ensures { option_copied result
            ≡ walked_table L.LEVELS (by_number (Self.memory self.now)) (Self.root self.now) position };

    /// Lends the table at which the page walk of a position arrives, if there is one.
    ///
    /// Requires that the position is one of the address space.
    fn table_mut(&mut self, position: u64) -> Option<&mut PageTable>
        requires { position < position_count L.LEVELS }
        ensures* lends { sem 𝓛 (LendsTableIfBy Self.row self.entry result (Self.with_table self.old
            (shown_frame L.LEVELS (Self.memory self.old) (Self.root self.old) position))) }
        ensures value { option_copied_mut result
            ≡ walked_table L.LEVELS (by_number (Self.memory self.old)) (Self.root self.old) position };

    ghost puts: { (s : Self) (f : ℕ) (t : List ℕ) → IsSome (words_of (memory s) identity_places f) →
        memory (with_table s f t) ≡ insert (memory s) (identity_places.place f) t };

    ghost keeps_root: { (s : Self) (f : ℕ) (t : List ℕ) → root (with_table s f t) ≡ root s };

    ghost keeps_lent: { (s : Self) (f : ℕ) (t : List ℕ) → lent (with_table s f t) ≡ lent s };
}

impl<'a, L: LevelCount, T: TableMemory> WalkedTables<L> for Active<'a, L, T> {
    ghost use Rattle.std.proofs.Common.{refl, ap};
    ghost use Rattle.std.specs.Borrow.{GName};
    ghost use Rattle.x86_64_mappers.specs.private.ImplLaws.{place_there};
    ghost use Rattle.x86_64_tables.specs.ActiveMemory.{memory_of, cr3_of, lent as lent_of, with_table_put as active_with};

    ghost memory = { λ s. T.tables (memory_of s) };

    ghost root = { cr3_of };

    ghost Lent = { GName × T.Lent };

    ghost lent = { λ s. (lent_of s, T.lent (memory_of s)) };

    ghost with_table = { active_with T.with_table };

    fn cr3(&self) -> PhysFrame<Size4KiB> {
        Active::cr3(self)
    }

    fn self_entry(&self, index: PageTableIndex) -> bool {
        Active::self_entry(self, index)
    }

    fn table(&self, position: u64) -> Option<&PageTable> {
        Active::table(self, VirtAddrIn::new_truncate(position))
    }

    fn table_mut(&mut self, position: u64) -> Option<&mut PageTable> {
        Active::table_mut(self, VirtAddrIn::new_truncate(position))
    }

    ghost puts = { λ s f t there. let memory = memory_of s in
        T.puts memory (f / 4096) t (place_there identity_places (T.tables memory) f there) };

    ghost keeps_root = { λ s f t. refl };

    ghost keeps_lent = { λ s f t.
        ap (λ held. (lent_of s, held)) (T.keeps_lent (memory_of s) (f / 4096) t) };
}
