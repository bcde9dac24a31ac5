//! An address space, and the indices that address spaces share, all alike or in groups.
ghost use Rattle.std.specs.Prelude.{◌≡◌, ◌<◌};

use x86_64_addr::index::PageTableIndex;
use x86_64_addr::level_count::{FourLevels, LevelCount};
use x86_64_page::frame::PhysFrame;
use x86_64_page::page::Size4KiB;
use x86_64_tables::phys_memory::{HierarchyView, PageTableFrameMapping, TableMemory};

/// The indices of the highest level below which address spaces have the same tables: those from `from` up to, but not including,
/// `to`.
#[derive(Clone, Copy, Debug, PartialEq)]
pub struct SharedIndices {
    /// The first index.
    pub from: u16,
    /// The end of the range: the last index plus one.
    pub to: u16,
}

impl SharedIndices {
    /// The upper half of the address space, the half that kernels use.
    pub const UPPER_HALF: SharedIndices = SharedIndices { from: 256, to: 512 };

    ghost use Rattle.x86_64_spaces.specs.SpaceLayouts.{indices_of};

    /// Returns true if an index of the highest level is shared.
    pub fn contains(self, index: usize) -> bool
        ensures { result ≡ indices_of self index }
    {
        usize::from(self.from) <= index && index < usize::from(self.to)
    }
}

/// An address space: the hierarchy below a root, whose recursive index is the index at which the root names itself, if it does.
#[derive(Clone, Copy, Debug, PartialEq)]
pub struct Space {
    /// The root's frame.
    pub root: PhysFrame<Size4KiB>,
    /// The index at which the root's entry names the root, if there is one.
    pub recursive: Option<PageTableIndex>,
}

/// A range of indices of the highest level, and the group in which a root is there.
#[derive(Clone, Copy, Debug, PartialEq)]
pub struct GroupIndices {
    /// The indices, from `from` up to, but not including, `to`.
    pub indices: SharedIndices,
    /// The number of the group, which has no other meaning.
    pub group: u64,
}

/// An address space whose root shares each index with the roots that are in one group with it there. A root is in the group of
/// the first range that has the index, and shares the index with no other root if none has it.
#[derive(Clone, Copy, Debug)]
pub struct GroupedSpace<'a> {
    /// The address space.
    pub space: Space,
    /// The ranges of indices at which the root is in a group.
    pub groups: &'a [GroupIndices],
}

impl<'a> GroupedSpace<'a> {
    ghost use Rattle.x86_64_spaces.specs.SpaceGroups.{grouped};

    /// Returns the group in which the root is at an index, if it is in one there.
    pub fn group(&self, index: usize) -> Option<u64>
        ensures { result ≡ (grouped self.now).group index }
    {
        for range in self.groups {
            if range.indices.contains(index) {
                return Some(range.group);
            }
        }
        None
    }
}

impl Space {
    ghost use Rattle.x86_64_spaces.specs.private.SpaceTables.{root_words};

    /// Returns the view of the space's hierarchy in a memory.
    pub(crate) fn view<'a, L: LevelCount, T: TableMemory, P: PageTableFrameMapping>(
        &self,
        memory: &'a T,
        mapping: &'a P,
    ) -> HierarchyView<'a, L, T, P>
        ensures { result ≡ record {
          memory = memory.entry;
          mapping = mapping.entry;
          root = self.now.root;
          recursive = self.now.recursive;
          levels = record {};
        } }
    {
        HierarchyView::new(memory, mapping, self.root, self.recursive)
    }

    /// Returns a word of the root in a memory, or 0 at the recursive index.
    ///
    /// Requires that the index is below 512.
    pub(crate) fn word<T: TableMemory, P: PageTableFrameMapping>(
        &self,
        memory: &T,
        mapping: &P,
        index: usize,
    ) -> u64
        requires { index < 512 }
        ensures { result ≡ root_words (T.tables memory.now) (P.places mapping.now) self.now index }
    {
        // The root's words are the same for any number of levels.
        let view = self.view::<FourLevels, _, _>(memory, mapping);
        view.word(self.root, index)
    }
}
