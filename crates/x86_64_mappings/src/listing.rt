//! The mappings below a root, one after the other.
ghost use Rattle.std.specs.Prelude.{◌≡◌, ◌<◌, ◌≤◌};
ghost use Rattle.std.specs.Iterator.{YieldsFirst, item_count};
ghost use Rattle.x86_64_model.specs.Mappings as model;
ghost use Rattle.x86_64_model.specs.Memory.{words_of};

mod cursor;

use crate::mapping::MappingIn;
use cursor::{Cursor, find_page};
use std::marker::{Model, PhantomData};
use x86_64_addr::addr::VirtAddrIn;
use x86_64_addr::level_count::{FiveLevels, FourLevels, LevelCount};
use x86_64_page::frame::PhysFrame;
use x86_64_page::page::Size4KiB;
use x86_64_tables::phys_memory::{PageTableFrameMapping, TableMemory};

/// An iterator over the mappings below a root, each once, in order of their starts. After the last it always returns `None`.
/// Contracts see it as the list of the mappings that are still to come.
///
/// It allocates no memory. It reads a table entry by entry, and walks down from the root again only after a lower table
/// ends. A table that several entries name is read for each of them.
#[derive(Drop)]
pub struct MappingsIn<'a, L: LevelCount, T: TableMemory, P: PageTableFrameMapping> {
    memory: &'a T,
    mapping: &'a P,
    root: PhysFrame<Size4KiB>,
    cursor: Cursor<'a>,
    levels: PhantomData<L>,
}

/// The iterator over the mappings below a root with four levels of page tables.
pub type Mappings<'a, T, P> = MappingsIn<'a, FourLevels, T, P>;

/// The iterator over the mappings below a root with five levels of page tables.
pub type Mappings57<'a, T, P> = MappingsIn<'a, FiveLevels, T, P>;

impl<'a, L: LevelCount, T: TableMemory, P: PageTableFrameMapping> Model
    for MappingsIn<'a, L, T, P> {
    ghost use Rattle.std.specs.Prelude.{List};
    ghost use Rattle.x86_64_model.specs.Mappings.{Mapping, mappings_from, mappings_of};
    ghost use Rattle.x86_64_model.specs.Memory.{words_of};

    ghost Value = { List Mapping };

    ghost view = { λ s. let words = words_of (T.tables s.memory.now) (P.places s.mapping.now) in
        mappings_from s.cursor.next (mappings_of L.LEVELS words s.root) };

    ghost use Rattle.x86_64_mappings.specs.private.Cursors.{IsCursor};

    ghost invariant = { λ s. let words = words_of (T.tables s.memory.now) (P.places s.mapping.now) in
        IsCursor L.LEVELS words s.root s.cursor };
}

impl<'a, L: LevelCount, T: TableMemory, P: PageTableFrameMapping> Iterator
    for MappingsIn<'a, L, T, P> {
    type Item = MappingIn<L>;

    ghost next_gives = { YieldsFirst (λ s. s) };

    ghost remaining = { item_count (λ s. s) };

    #[inline]
    fn next(&mut self) -> Option<MappingIn<L>> {
        if self.cursor.is_at_small_page() {
            // The level is a constant here, and so is all that follows from it.
            let entry = &self.cursor.rest[0];
            let page = MappingIn::of_page(1, self.cursor.next, entry, self.cursor.rights);
            self.cursor = self.cursor.past(1);
            return Some(page);
        }
        // The call changes a copy, so that the cursor itself can stay in registers.
        let mut found = self.cursor.copied();
        find_page::<L, T, P>(self.memory, self.mapping, self.root, &mut found);
        let Some(entry) = found.rest.first() else {
            self.cursor = found;
            return None;
        };
        self.cursor = found.past(1);
        Some(MappingIn::of_page(found.level, found.next, entry, found.rights))
    }
}

/// Returns an iterator over the mappings below a root with four levels of page tables, in order of their starts. It
/// allocates no memory.
///
/// The tables may contain any words, and the iterator ends for all of them: a table that names itself is read again only as
/// a table of the level below, down to level one. Nothing is mapped below an entry whose frame isn't covered by the mapping,
/// or lies at a place (the number of a table in the memory) that the memory lacks, nor by an entry above level three with
/// `HUGE_PAGE`. [`page_walk`](x86_64_tables::phys_memory::page_walk) arrives for exactly the addresses that are mapped.
///
/// Intel SDM vol. 3A, "4-Level Paging and 5-Level Paging"; AMD APM vol. 2, "Long-Mode Page Translation".
pub fn mappings<'a, T: TableMemory, P: PageTableFrameMapping>(
    memory: &'a T,
    mapping: &'a P,
    root: PhysFrame<Size4KiB>,
) -> Mappings<'a, T, P>
    ensures { result ≡ model.mappings_of 4 (words_of (T.tables memory.now) (P.places mapping.now)) root }
{
    all_mappings(memory, mapping, root)
}

/// Returns an iterator over the mappings below a root with five levels of page tables, in order of their starts. It
/// allocates no memory.
///
/// The tables may contain any words, and the iterator ends for all of them: a table that names itself is read again only as
/// a table of the level below, down to level one. Nothing is mapped below an entry whose frame isn't covered by the mapping,
/// or lies at a place (the number of a table in the memory) that the memory lacks, nor by an entry above level three with
/// `HUGE_PAGE`.
///
/// Intel SDM vol. 3A, "4-Level Paging and 5-Level Paging"; AMD APM vol. 2, "Long-Mode Page Translation".
pub fn mappings_57<'a, T: TableMemory, P: PageTableFrameMapping>(
    memory: &'a T,
    mapping: &'a P,
    root: PhysFrame<Size4KiB>,
) -> Mappings57<'a, T, P>
    ensures { result ≡ model.mappings_of 5 (words_of (T.tables memory.now) (P.places mapping.now)) root }
{
    all_mappings(memory, mapping, root)
}

/// Returns an iterator over the mappings below a root with `L::LEVELS` levels of page tables.
pub(crate) fn all_mappings<'a, L: LevelCount, T: TableMemory, P: PageTableFrameMapping>(
    memory: &'a T,
    mapping: &'a P,
    root: PhysFrame<Size4KiB>,
) -> MappingsIn<'a, L, T, P>
    ensures { result
        ≡ model.mappings_of L.LEVELS (words_of (T.tables memory.now) (P.places mapping.now)) root }
{
    mappings_from(memory, mapping, root, VirtAddrIn::zero())
}

/// Returns an iterator over the mappings below a root, in order of their starts, from the first on that contains an address
/// or lies after it. There are as many levels of page tables as the address has. It allocates no memory.
///
/// The tables may contain any words, as for [`mappings`], and the iterator ends for all of them.
pub fn mappings_from<'a, L: LevelCount, T: TableMemory, P: PageTableFrameMapping>(
    memory: &'a T,
    mapping: &'a P,
    root: PhysFrame<Size4KiB>,
    addr: VirtAddrIn<L>,
) -> MappingsIn<'a, L, T, P>
    ensures { result ≡ model.mappings_from addr
        (model.mappings_of L.LEVELS (words_of (T.tables memory.now) (P.places mapping.now)) root) }
{
    MappingsIn {
        memory,
        mapping,
        root,
        cursor: Cursor::at(addr.position()),
        levels: PhantomData,
    }
}
