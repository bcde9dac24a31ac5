//! A view of a hierarchy for reading: the words of its tables, without the root's word at the recursive index, the index at
//! which the root names itself.
ghost use Rattle.std.specs.Prelude.{◌≡◌, ◌<◌, ◌-◌, ◌↔◌, IsTrue, unwrap_or};
ghost use Rattle.std.specs.Option.{option_copied};
ghost use Rattle.x86_64_model.specs.Entry.{huge};
ghost use Rattle.x86_64_model.specs.Memory.{word, words_of};
ghost use Rattle.x86_64_model.specs.Window.{SelfEntry};
ghost use Rattle.x86_64_model.specs.private.Tables.{NoneHuge};
ghost use Rattle.x86_64_tables.specs.Views.{words_in, words_seen, below_word};
ghost use Rattle.x86_64_tables.specs.SelfEntries.{has_self_entry, names_frame, window_in};

use super::walk::{entry_at, has_flag};
use super::{PageTableFrameMapping, TableMemory};
use crate::page_table::{PageTableEntry, PageTableFlags};
use bitflags::Flags;
use std::marker::PhantomData;
use x86_64_addr::index::PageTableIndex;
use x86_64_addr::level_count::LevelCount;
use x86_64_page::frame::PhysFrame;
use x86_64_page::page::Size4KiB;

/// A view of the hierarchy of `L` levels below a root in a memory, whose frames lie where a mapping says. The root's word at the
/// recursive index, if there is one, is read as 0.
#[derive(Drop)]
pub struct HierarchyView<'a, L, T, P> {
    pub(super) memory: &'a T,
    pub(super) mapping: &'a P,
    pub(super) root: PhysFrame<Size4KiB>,
    pub(super) recursive: Option<PageTableIndex>,
    levels: PhantomData<L>,
}

impl<'a, L: LevelCount, T: TableMemory, P: PageTableFrameMapping> HierarchyView<'a, L, T, P> {
    /// Creates the view of the hierarchy below a root, with a recursive index or none.
    pub fn new(
        memory: &'a T,
        mapping: &'a P,
        root: PhysFrame<Size4KiB>,
        recursive: Option<PageTableIndex>,
    ) -> Self
        ensures { result ≡ record {
          memory = memory.entry;
          mapping = mapping.entry;
          root = root;
          recursive = recursive;
          levels = record {};
        } }
    {
        HierarchyView {
            memory,
            mapping,
            root,
            recursive,
            levels: PhantomData,
        }
    }

    /// Returns the number of levels of tables below the root's.
    pub fn levels_below(&self) -> u8
        ensures { result ≡ L.LEVELS - 1 }
    {
        L::LEVELS as u8 - 1
    }

    /// Returns true if the root's word at the recursive index, if there is one, has `PRESENT`, lacks `HUGE_PAGE` and names the
    /// root.
    pub fn names_itself(&self) -> bool
        ensures { let words = words_in T.tables P.places self.now in
            IsTrue result ↔ SelfEntry words self.now.root (window_in words self.now.root self.now.recursive) }
    {
        match self.recursive {
            Some(index) => has_self_entry(self.memory, self.mapping, self.root, index),
            None => true,
        }
    }

    /// Returns true if no word above level three has `HUGE_PAGE`, in the table in a frame and in the tables of `levels` levels
    /// below it.
    pub fn none_huge(&self, frame: PhysFrame<Size4KiB>, levels: u8) -> bool
        ensures { IsTrue result ↔ NoneHuge levels (words_seen T.tables P.places self.now) frame }
    {
        if 2 < levels {
            for index in 0..512 {
                if self.is_huge(frame, index) {
                    return false;
                }
                if let Some(below) = self.table_below(frame, index) {
                    if !self.none_huge(below, levels - 1) {
                        return false;
                    }
                }
            }
        }
        true
    }

    /// Returns true if the word at an index of the table in a frame has `HUGE_PAGE`.
    fn is_huge(&self, frame: PhysFrame<Size4KiB>, index: usize) -> bool
        requires { index < 512 }
        ensures { result ≡ huge (word (words_seen T.tables P.places self.now) frame index) }
    {
        match self.entry(frame, index) {
            Some(entry) => has_flag(entry, PageTableFlags::HUGE_PAGE),
            None => false,
        }
    }

    /// Returns the frame of the table that the word at an index of the table in a frame names. This is meant for tables above level
    /// one, whose words name tables.
    ///
    /// Returns `None` if the word is unused or has `HUGE_PAGE`, if the frame has no table in the memory, or for the root's word at
    /// the recursive index. The word may lack `PRESENT`.
    ///
    /// Requires that the index is below 512.
    pub fn table_below(
        &self,
        frame: PhysFrame<Size4KiB>,
        index: usize,
    ) -> Option<PhysFrame<Size4KiB>>
        requires { index < 512 }
        ensures { result ≡ below_word (word (words_seen T.tables P.places self.now) frame index) }
    {
        match self.entry(frame, index) {
            Some(entry) => named_table(entry),
            None => None,
        }
    }

    /// Returns the word at an index of the table in a frame, or 0 if the frame has no table in the memory. The root's word at the
    /// recursive index, if there is one, is read as 0.
    ///
    /// Requires that the index is below 512.
    pub fn word(&self, frame: PhysFrame<Size4KiB>, index: usize) -> u64
        requires { index < 512 }
        ensures { result ≡ word (words_seen T.tables P.places self.now) frame index }
    {
        match self.entry(frame, index) {
            Some(entry) => entry.word(),
            None => 0,
        }
    }

    /// Returns the entry at an index of the table in a frame, if there is one and it isn't the recursive one.
    fn entry(&self, frame: PhysFrame<Size4KiB>, index: usize) -> Option<&'a PageTableEntry>
        requires { index < 512 }
        ensures { unwrap_or (option_copied result) 0
            ≡ word (words_seen T.tables P.places self.now) frame index }
    {
        match self.recursive {
            Some(recursive) if frame == self.root && index == usize::from(recursive) => None,
            _ => entry_at(self.memory, self.mapping, frame, index),
        }
    }
}

/// Returns true if there is a table in the root's frame, and `frame` of its entry at an index is the root.
pub(super) fn has_self_entry<T: TableMemory, P: PageTableFrameMapping>(
    memory: &T,
    mapping: &P,
    root: PhysFrame<Size4KiB>,
    index: PageTableIndex,
) -> bool
    ensures { result ≡ has_self_entry (words_of (T.tables memory.now) (P.places mapping.now)) root index }
{
    match entry_at(memory, mapping, root, usize::from(index)) {
        Some(entry) => names_frame(entry, root),
        None => false,
    }
}

/// Returns true if `frame` of an entry is the given frame.
fn names_frame(entry: &PageTableEntry, frame: PhysFrame<Size4KiB>) -> bool
    ensures { result ≡ names_frame entry.now frame }
{
    entry.frame() == Ok(frame)
}

/// Returns the frame of the table that an entry above level one names, if the entry is used and lacks `HUGE_PAGE`.
fn named_table(entry: &PageTableEntry) -> Option<PhysFrame<Size4KiB>>
    ensures { result ≡ below_word entry.now }
{
    if entry.is_unused() || has_flag(entry, PageTableFlags::HUGE_PAGE) {
        None
    } else {
        Some(PhysFrame::from_start_address_unchecked(entry.addr()))
    }
}
