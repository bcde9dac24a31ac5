//! A memory whose tables are a borrowed slice.
ghost use Rattle.std.specs.Prelude.{◌≡◌, ◌<◌, length, slice_set, slice_get, Some};
ghost use Rattle.std.specs.FinMap as map;
ghost use Rattle.x86_64_tables.specs.LentMemory.{numbered, tables_in_order};

use super::{FramePlace, TableMemory};
use crate::page_table::PageTable;

/// A memory over a borrowed slice of page tables, which allocates nothing. The place with number `n` has the `n`-th table
/// of the slice.
///
/// For example, the memory of a guest is such a slice, with one table for each frame. When the loan ends, the slice
/// consists of the tables of the map, in order.
pub struct LentMemory<'a> {
    slice: &'a mut [PageTable],
}

impl<'a> LentMemory<'a> {
    /// Creates a memory over a slice. No word changes.
    pub fn new(slice: &'a mut [PageTable]) -> LentMemory<'a>
        ensures lent { ⟦<Self as TableMemory>⟧.lent result ≡ slice.entry.ghost_name }
        ensures tables { ⟦<Self as TableMemory>⟧.tables result ≡ numbered slice.old }
    {
        LentMemory { slice }
    }
}

impl<'a> Drop for LentMemory<'a> {
    // The slice is the tables of the memory then, in the order of their places.
    fn drop(self)
        ensures tables { numbered self.exit.0.now ≡ ⟦<Self as TableMemory>⟧.tables self.entry }
        ensures in_order { self.exit.0.now ≡ tables_in_order (⟦<Self as TableMemory>⟧.tables self.entry) }
    {
        let LentMemory { slice: _ } = self;
    }
}

impl<'a> TableMemory for LentMemory<'a> {
    ghost use Rattle.std.specs.Borrow.{GName};
    ghost use Rattle.std.proofs.Common.{refl};
    ghost use Rattle.x86_64_tables.specs.private.TableLaws.{numbered_set, stays_numbered};

    ghost tables = { λ memory. numbered memory.slice.now };

    ghost Lent = { GName };

    ghost lent = { λ memory. memory.slice.ghost_name };

    ghost with_table = { λ memory place table.
        record memory { slice = record memory.slice { now = slice_set memory.slice.now place table } } };

    ghost keeps_places = { λ memory place table other there.
        stays_numbered memory.slice.now place table other there };

    fn len(&self) -> usize {
        self.slice.len()
    }

    fn place_at(&self, n: usize) -> Option<FramePlace> {
        if n < self.slice.len() {
            Some(FramePlace::new(n as u64))
        } else {
            None
        }
    }

    fn index_of(&self, place: FramePlace) -> Option<usize> {
        let number = place.number() as usize;
        if number < self.slice.len() {
            Some(number)
        } else {
            None
        }
    }

    fn table(&self, place: FramePlace) -> Option<&PageTable> {
        self.slice.get(place.number() as usize)
    }

    fn table_mut(&mut self, place: FramePlace) -> Option<&mut PageTable> {
        let index = place.0 as usize;
        if index < self.slice.len() {
            return Some(&mut self.slice[index]);
        }
        None
    }

    fn table_at(&self, place: FramePlace) -> &PageTable {
        item_at(self.slice, place.number() as usize)
    }

    fn table_at_mut(&mut self, place: FramePlace) -> &mut PageTable {
        &mut self.slice[place.0 as usize]
    }

    ghost puts = { λ memory place table there. numbered_set memory.slice.now place table there };

    ghost keeps_lent = { λ memory place table. refl };
}

/// Returns the table at an index of a slice.
///
/// Requires that the index is below the length.
fn item_at(slice: &[PageTable], index: usize) -> &PageTable
    requires { index < length slice.now }
    ensures { slice_get slice.now index ≡ Some result.now }
{
    &slice[index]
}
