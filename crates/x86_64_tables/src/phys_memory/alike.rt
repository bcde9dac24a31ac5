//! A test of whether two hierarchies have path maps that are alike. A path map has the entry at each path: the list of
//! indices from the root to the entry.
ghost use Rattle.std.specs.Prelude.{◌≡◌, ◌==◌, ◌↔◌, IsTrue};
ghost use Rattle.x86_64_model.specs.Alike.{Alike, without_writable};
ghost use Rattle.x86_64_tables.specs.Views.{words_in, words_seen};
ghost use Rattle.x86_64_tables.specs.PathsSeen.{AlikeFrom, paths_in, paths_seen, paths_seen_57, paths_seen_at};

use super::hierarchy_view::HierarchyView;
use super::{IdentityMapping, PageTableFrameMapping, TableMemory};
use x86_64_addr::index::PageTableIndex;
use x86_64_addr::level_count::{FiveLevels, FourLevels, LevelCount};
use x86_64_page::frame::PhysFrame;
use x86_64_page::page::Size4KiB;

/// All bits of an entry except `WRITABLE`.
const ALL_BUT_WRITABLE: u64 = 0xffff_ffff_ffff_fffd;

/// Returns true if two hierarchies of four levels are alike: their path maps are equal except for `WRITABLE` of table
/// entries.
///
/// If an index is given, the hierarchy is read as by `is_valid_recursive`: each frame lies at the place (the number of its
/// table in the memory) with the frame's number, whatever the given mapping says, and the root's word at the index is read
/// as 0. If none is given, the hierarchy is read as by `is_valid_hierarchy`. Entries without `PRESENT` count like others,
/// and entries that name no table are compared in full.
///
/// The test terminates for any words: a table that the memory lacks is read as one of unused entries. It allocates no
/// memory.
pub fn tables_alike<
    T: TableMemory,
    P: PageTableFrameMapping,
    U: TableMemory,
    Q: PageTableFrameMapping,
>(
    memory: &T,
    mapping: &P,
    root: PhysFrame<Size4KiB>,
    index: Option<PageTableIndex>,
    other_memory: &U,
    other_mapping: &Q,
    other_root: PhysFrame<Size4KiB>,
    other_index: Option<PageTableIndex>,
) -> bool
    ensures { IsTrue result ↔ Alike 4
        (paths_seen (T.tables memory.now) (P.places mapping.now) root index)
        (paths_seen (U.tables other_memory.now) (Q.places other_mapping.now) other_root other_index) }
{
    match index {
        Some(_) => HierarchyView::<FourLevels, _, _>::new(
            memory,
            &IdentityMapping,
            root,
            index,
        ).is_alike_read(other_memory, other_mapping, other_root, other_index),
        None => HierarchyView::<FourLevels, _, _>::new(memory, mapping, root, None).is_alike_read(
            other_memory,
            other_mapping,
            other_root,
            other_index,
        ),
    }
}

/// Returns true if two hierarchies of five levels are alike: their path maps are equal except for `WRITABLE` of table
/// entries.
///
/// If an index is given, the hierarchy is read as by `is_valid_recursive_57`: each frame lies at the place (the number of its
/// table in the memory) with the frame's number, whatever the given mapping says, and the root's word at the index is read
/// as 0. If none is given, the hierarchy is read as by `is_valid_hierarchy_57`. Entries without `PRESENT` count like others,
/// and entries that name no table are compared in full.
///
/// The test terminates for any words: a table that the memory lacks is read as one of unused entries. It allocates no
/// memory.
pub fn tables_alike_57<
    T: TableMemory,
    P: PageTableFrameMapping,
    U: TableMemory,
    Q: PageTableFrameMapping,
>(
    memory: &T,
    mapping: &P,
    root: PhysFrame<Size4KiB>,
    index: Option<PageTableIndex>,
    other_memory: &U,
    other_mapping: &Q,
    other_root: PhysFrame<Size4KiB>,
    other_index: Option<PageTableIndex>,
) -> bool
    ensures { IsTrue result ↔ Alike 5
        (paths_seen_57 (T.tables memory.now) (P.places mapping.now) root index)
        (paths_seen_57 (U.tables other_memory.now) (Q.places other_mapping.now) other_root other_index) }
{
    match index {
        Some(_) => HierarchyView::<FiveLevels, _, _>::new(
            memory,
            &IdentityMapping,
            root,
            index,
        ).is_alike_read(other_memory, other_mapping, other_root, other_index),
        None => HierarchyView::<FiveLevels, _, _>::new(memory, mapping, root, None).is_alike_read(
            other_memory,
            other_mapping,
            other_root,
            other_index,
        ),
    }
}

impl<'a, L: LevelCount, T: TableMemory, P: PageTableFrameMapping> HierarchyView<'a, L, T, P> {
    /// Returns true if the hierarchy and another one are alike: their path maps are equal except for `WRITABLE` of table entries.
    ///
    /// Entries without `PRESENT` count like others, and entries that name no table are compared in full. The test terminates for
    /// any words: a table that the memory lacks is read as one of unused entries. It allocates no memory.
    pub fn is_alike<U: TableMemory, Q: PageTableFrameMapping>(
        &self,
        other: &HierarchyView<L, U, Q>,
    ) -> bool
        ensures { IsTrue result ↔ Alike L.LEVELS
            (paths_in L.LEVELS (words_in T.tables P.places self.now) self.now.root self.now.recursive)
            (paths_in L.LEVELS (words_in U.tables Q.places other.now) other.now.root other.now.recursive) }
    {
        alike_from(self, self.root, other, other.root, self.levels_below())
    }

    /// Returns true if the hierarchy and another one are alike, of which each frame lies at the place with its number if it has a
    /// recursive index, else as the mapping says.
    fn is_alike_read<U: TableMemory, Q: PageTableFrameMapping>(
        &self,
        memory: &U,
        mapping: &Q,
        root: PhysFrame<Size4KiB>,
        recursive: Option<PageTableIndex>,
    ) -> bool
        ensures { IsTrue result ↔ Alike L.LEVELS
            (paths_in L.LEVELS (words_in T.tables P.places self.now) self.now.root self.now.recursive)
            (paths_seen_at L.LEVELS (U.tables memory.now) (Q.places mapping.now) root recursive) }
    {
        match recursive {
            Some(_) => self.is_alike(&HierarchyView::new(
                memory,
                &IdentityMapping,
                root,
                recursive,
            )),
            None => self.is_alike(&HierarchyView::new(memory, mapping, root, None)),
        }
    }
}

/// Returns true if the entries at each path from the tables in two frames are alike, with `levels` levels of tables below
/// each.
fn alike_from<
    L: LevelCount,
    T: TableMemory,
    P: PageTableFrameMapping,
    U: TableMemory,
    Q: PageTableFrameMapping,
>(
    one: &HierarchyView<L, T, P>,
    frame: PhysFrame<Size4KiB>,
    other: &HierarchyView<L, U, Q>,
    other_frame: PhysFrame<Size4KiB>,
    levels: u8,
) -> bool
    ensures { IsTrue result ↔ AlikeFrom levels
        (words_seen T.tables P.places one.now) frame (words_seen U.tables Q.places other.now) other_frame }
{
    for index in 0..512 {
        let word = one.word(frame, index);
        let other_word = other.word(other_frame, index);
        let is_alike = match one.table_below(frame, index) {
            Some(below) if 0 < levels => match other.table_below(other_frame, index) {
                Some(other_below) => {
                    equal_but_writable(word, other_word)
                        && alike_from(one, below, other, other_below, levels - 1)
                }
                None => false,
            },
            _ => word == other_word,
        };
        if !is_alike {
            return false;
        }
    }
    true
}

/// Returns true if two words are equal except for `WRITABLE`.
fn equal_but_writable(word: u64, other: u64) -> bool
    ensures { result ≡ (without_writable word == without_writable other) }
{
    word & ALL_BUT_WRITABLE == other & ALL_BUT_WRITABLE
}
