//! Page tables of 512 entries.
ghost use Rattle.std.specs.Prelude.{◌≡◌, ◌<◌, ◌↔◌, All, IsTrue, length, slice_index};
ghost use Rattle.std.specs.Borrow.{sem};
ghost use Rattle.x86_64_tables.specs.PageTable.{zero_words};
ghost use Rattle.x86_64_tables.specs.Lending.{LendsWord};

use super::{Entries, EntriesMut, PageTableEntry};
use std::marker::Model;
use std::ops::{Index, IndexMut};
use std::{array, fmt};
use x86_64_addr::index::PageTableIndex;

/// The number of entries of a page table.
const ENTRY_COUNT: usize = 512;

/// A page table of 512 entries. Contracts see it as the list of their words. Intel SDM vol. 3A, "Hierarchical Paging
/// Structures: an Overview".
///
/// An entry is accessed by its index, as in `table[15]`.
///
/// Requires that an index of type `usize` is below 512.
#[derive(Clone, Drop)]
#[repr(C)]
pub struct PageTable {
    entries: [PageTableEntry; ENTRY_COUNT],
}

impl Model for PageTable {
    ghost use Rattle.std.specs.Prelude.{List, ℕ};

    ghost Value = { List ℕ };

    ghost view = { λ table. table.entries };

    ghost inverse = { λ words. record { entries = words } };
}

impl PageTable {
    /// Creates a table of unused entries: 512 words 0.
    pub fn new() -> PageTable
        ensures { result ≡ zero_words }
    {
        PageTable {
            entries: array::from_fn(|_| PageTableEntry::new()),
        }
    }

    /// Makes all entries unused.
    // Mapping a page rarely clears a table, so this is kept out of the common path.
    #[cold]
    #[inline(never)]
    pub fn zero(&mut self)
        ensures { self.new ≡ zero_words }
    {
        let entries = &mut self.entries[..];
        for entry in entries.iter_mut() {
            entry.set_unused();
        }
    }

    /// Returns an iterator over the entries, each once, in order of index.
    pub fn iter(&self) -> Entries<'_>
        ensures words { result ≡ self.now }
        ensures size { length self.now ≡ 512 }
    {
        Entries::new(&self.entries)
    }

    /// Returns the entries as a slice.
    pub fn as_slice(&self) -> &[PageTableEntry]
        ensures words { result.now ≡ self.now }
        ensures size { length self.now ≡ 512 }
    {
        &self.entries
    }

    /// Returns an iterator that lends the entries mutably, each once, in order of index.
    ///
    /// A proof learns in which order the words come, but not what the table is afterwards.
    pub fn iter_mut(&mut self) -> EntriesMut<'_>
        ensures words { result ≡ self.old }
        ensures size { length self.old ≡ 512 }
    {
        let entries = &mut self.entries;
        EntriesMut::new(&mut entries[..])
    }

    /// Returns true if all entries are unused.
    #[tactic(auto, unfolding(x86_64_model::specs::Entry::used))]
    pub fn is_empty(&self) -> bool
        ensures empty { IsTrue result ↔ All (λ word. word ≡ 0) self.now }
        ensures size { length self.now ≡ 512 }
    {
        self.entries.iter().all(|entry| entry.is_unused())
    }
}

impl Index<usize> for PageTable {
    type Output = PageTableEntry;

    ghost can_index = { λ _ i. i < 512 };

    ghost index_gives = { λ table i word. (word ≡ slice_index table i) × (length table ≡ 512) };

    fn index(&self, index: usize) -> &PageTableEntry {
        &self.entries[index]
    }
}

impl IndexMut<usize> for PageTable {
    fn index_mut(&mut self, index: usize) -> &mut PageTableEntry
        requires { index < 512 }
        ensures* writes_back { sem 𝓛 (LendsWord self.entry index result) }
        ensures value { result.now ≡ slice_index self.old index }
        ensures size { length self.old ≡ 512 }
    {
        &mut self.entries[index]
    }
}

impl Index<PageTableIndex> for PageTable {
    type Output = PageTableEntry;

    ghost index_gives = { λ table i word. (word ≡ slice_index table i) × (length table ≡ 512) };

    fn index(&self, index: PageTableIndex) -> &PageTableEntry {
        &self.entries[usize::from(index)]
    }
}

impl IndexMut<PageTableIndex> for PageTable {
    fn index_mut(&mut self, index: PageTableIndex) -> &mut PageTableEntry
        ensures* writes_back { sem 𝓛 (LendsWord self.entry index result) }
        ensures value { result.now ≡ slice_index self.old index }
        ensures size { length self.old ≡ 512 }
    {
        let i = usize::from(index);
        &mut self.entries[i]
    }
}

impl Default for PageTable {
    ghost is_default = { λ table. table ≡ zero_words };

    fn default() -> PageTable {
        PageTable::new()
    }
}

impl fmt::Debug for PageTable {
    fn fmt<W: fmt::Write>(&self, f: &mut fmt::Formatter<W>) -> fmt::Result {
        f.debug_list().entries(self.entries.iter()).finish()
    }
}
