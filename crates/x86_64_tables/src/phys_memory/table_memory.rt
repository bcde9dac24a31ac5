//! The trait of memories of page tables, whether these are owned or borrowed.
ghost use Rattle.std.specs.Prelude.{◌≡◌, ℕ, List, IsSome};
ghost use Rattle.std.specs.Borrow.{sem};
ghost use Rattle.std.specs.FinMap as map;
ghost use Rattle.std.specs.List.{position, slice_get};
ghost use Rattle.std.specs.Option.{option_copied, option_copied_mut};
ghost use Rattle.std.specs.Ordering.{nat_cmp, eq_by_cmp};
ghost use Rattle.x86_64_model.specs.Memory.{Memory};
ghost use Rattle.x86_64_tables.specs.Lending.{LendsTableBy, LendsTableIfBy};

use super::{FramePlace, PhysMemory};
use crate::page_table::PageTable;

/// A memory of page tables. Contracts see it as a finite map from the numbers of places to tables. The places never change.
///
/// [`PhysMemory`] owns its tables, [`LentMemory`](super::LentMemory) borrows them.
pub trait TableMemory {
    /// The tables by their places.
    ghost tables: { Self → Memory };

    /// Which tables were lent to the memory, if they aren't its own.
    ghost Lent: { Type 0 };

    ghost lent: { Self → Lent };

    /// The memory with another table at a place that it has.
    ghost with_table: { Self → ℕ → List ℕ → Self };

    /// Replacing a table keeps all places.
    ghost keeps_places: { (memory : Self) (place : ℕ) (table : List ℕ) (other : ℕ) →
        IsSome (map.get (tables memory) other)
        → IsSome (map.get (tables (with_table memory place table)) other) };

    /// Returns the number of places.
    fn len(&self) -> usize
        ensures { result ≡ map.len (tables self.now) };

    /// Returns the `n`-th place in increasing order, counted from 0, or `None` if the memory has no more than `n` places.
    fn place_at(&self, n: usize) -> Option<FramePlace>
        ensures { result ≡ slice_get (map.keys (tables self.now)) n };

    /// Returns the number of places before a place, or `None` if the memory lacks it.
    fn index_of(&self, place: FramePlace) -> Option<usize>
        ensures { result ≡ position (eq_by_cmp nat_cmp place) (map.keys (tables self.now)) };

    /// Returns the table at a place, or `None` if the memory lacks the place.
    fn table(&self, place: FramePlace) -> Option<&PageTable>
        ensures { option_copied result ≡ map.get (tables self.now) place };

    /// Lends the table at a place mutably, or returns `None` if the memory lacks the place.
    fn table_mut(&mut self, place: FramePlace) -> Option<&mut PageTable>
        ensures* writes_back { sem 𝓛 (LendsTableIfBy Self.row self.entry result (with_table self.old place)) }
        ensures value { option_copied_mut result ≡ map.get (tables self.old) place };

    /// Returns the table at a place.
    ///
    /// Requires that the memory has the place.
    fn table_at(&self, place: FramePlace) -> &PageTable
        requires { IsSome (map.get (tables self.now) place) }
        ensures { map.get (tables self.now) place ≡ Some result.now };

    /// Lends the table at a place mutably.
    ///
    /// Requires that the memory has the place.
    fn table_at_mut(&mut self, place: FramePlace) -> &mut PageTable
        requires { IsSome (map.get (tables self.old) place) }
        ensures* writes_back { sem 𝓛 (LendsTableBy Self.row self.entry result (with_table self.old place)) }
        ensures value { map.get (tables self.old) place ≡ Some result.now };

    ghost puts: { (memory : Self) (place : ℕ) (table : List ℕ) → IsSome (map.get (tables memory) place) →
        tables (with_table memory place table) ≡ map.insert (tables memory) place table };

    ghost keeps_lent: { (memory : Self) (place : ℕ) (table : List ℕ) →
        lent (with_table memory place table) ≡ lent memory };
}

impl TableMemory for PhysMemory {
    ghost use Rattle.std.proofs.Common.{refl};
    ghost use Rattle.x86_64_tables.specs.private.TableLaws.{stays_there};

    ghost tables = { λ memory. memory };

    ghost Lent = { Unit {0} };

    ghost lent = { λ memory. tt };

    ghost with_table = { λ memory place table. map.insert memory place table };

    ghost keeps_places = { stays_there };

    fn len(&self) -> usize {
        PhysMemory::len(self)
    }

    fn place_at(&self, n: usize) -> Option<FramePlace> {
        PhysMemory::place_at(self, n)
    }

    fn index_of(&self, place: FramePlace) -> Option<usize> {
        PhysMemory::index_of(self, place)
    }

    fn table(&self, place: FramePlace) -> Option<&PageTable> {
        PhysMemory::table(self, place)
    }

    fn table_mut(&mut self, place: FramePlace) -> Option<&mut PageTable> {
        PhysMemory::table_mut(self, place)
    }

    fn table_at(&self, place: FramePlace) -> &PageTable {
        &self[place]
    }

    fn table_at_mut(&mut self, place: FramePlace) -> &mut PageTable {
        &mut self[place]
    }

    ghost puts = { λ memory place table there. refl };

    ghost keeps_lent = { λ memory place table. refl };
}
