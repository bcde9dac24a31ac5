//! The mapper that finds page tables by a frame mapping.
ghost use Rattle.std.specs.Prelude.{◌≡◌, ◌<◌, ◌↔◌, Some, IfOk, OnErr, IsTrue};
ghost use Rattle.std.specs.FinMap.{len};
ghost use Rattle.x86_64_model.specs.Hierarchy.{◌laid_in◌, Valid};
ghost use Rattle.x86_64_mappers.specs.Layouts.{direct_at, root_table, HasRoot};

use crate::walk::TableAccess;
use bitflags::Flags;
use std::alloc::{AllocError, Global};
use std::marker::{Model, PhantomData};
use x86_64_addr::addr::{VirtAddr, VirtAddr57};
use x86_64_addr::index::PageTableIndex;
use x86_64_addr::level_count::{FiveLevels, FourLevels, LevelCount};
use x86_64_page::frame::PhysFrame;
use x86_64_page::page::{PageSize, Size4KiB};
use x86_64_tables::page_table::{PageTable, PageTableFlags};
use x86_64_tables::page_tables::{Tables, TablesIn};
use x86_64_tables::phys_memory::{
    FramePlace, PageTableFrameMapping, PhysMemory, TableMemory, is_valid_hierarchy,
    is_valid_hierarchy_57,
};

/// A mapper for a hierarchy of `L` levels of page tables, which it finds in a memory by a frame mapping.
///
/// It borrows the memory until it is dropped. Its hierarchy has no recursive index. It reaches a table by its frame, so
/// a map clears a new table before it writes the entry that names it. A new table's entry gets the parent flags alone.
pub struct Direct<'a, P: PageTableFrameMapping, L: LevelCount, T: TableMemory = PhysMemory> {
    memory: &'a mut T,
    root: PhysFrame<Size4KiB>,
    mapping: P,
    levels: PhantomData<L>,
    ghost has_root: { HasRoot (P.places mapping) root (T.tables memory.now) },
}

/// A frame mapping given by the caller.
///
/// It is a type of its own to keep apart [`MappedPageTable::new`] and [`OffsetPageTable::new`], which take different
/// arguments.
///
/// [`OffsetPageTable::new`]: crate::offset_page_table::OffsetPageTable
#[derive(Drop)]
pub struct GivenMapping<P> {
    mapping: P,
}

impl<P> Model for GivenMapping<P> {
    ghost Value = { P };

    ghost view = { λ given. given.mapping };
}

impl<P: PageTableFrameMapping> PageTableFrameMapping for GivenMapping<P> {
    ghost places = { P.places };

    fn frame_to_pointer(&self, frame: PhysFrame<Size4KiB>) -> FramePlace {
        self.mapping.frame_to_pointer(frame)
    }

    fn covers(&self, frame: PhysFrame<Size4KiB>) -> bool {
        self.mapping.covers(frame)
    }

    ghost is_mapping = { P.is_mapping };
}

/// A mapper for a hierarchy of any number of levels of page tables, which finds them by a frame mapping that the caller
/// gives.
pub type MappedPageTableIn<'a, P, L, T = PhysMemory> = Direct<'a, GivenMapping<P>, L, T>;

/// A [`MappedPageTableIn`] with four levels of page tables.
pub type MappedPageTable<'a, P, T = PhysMemory> = MappedPageTableIn<'a, P, FourLevels, T>;

/// A [`MappedPageTableIn`] with five levels of page tables.
pub type MappedPageTable57<'a, P, T = PhysMemory> = MappedPageTableIn<'a, P, FiveLevels, T>;

impl<'a, P: PageTableFrameMapping + Drop, L: LevelCount, T: TableMemory> Drop
    for Direct<'a, P, L, T> {
    // The lent memory has the mapper's words then, over the same tables.
    fn drop(self)
        ensures memory { T.tables self.exit.0.now ≡ (⟦<Self as Tables>⟧.hierarchy self.entry).memory }
        ensures lent { T.lent self.exit.0.now ≡ (⟦<Self as Tables>⟧.hierarchy self.entry).lent.0.1 }
    {
        let Direct {
            memory: _,
            root: _,
            mapping: _,
            levels: _,
        } = self;
    }
}

impl<'a, P: PageTableFrameMapping, L: LevelCount, T: TableMemory> Direct<'a, P, L, T> {
    /// Creates a mapper for the hierarchy with this root, in a memory whose frames lie where the mapping says.
    ///
    /// Requires that the hierarchy is valid, which
    /// [`is_valid_hierarchy`](x86_64_tables::phys_memory::is_valid_hierarchy), or
    /// [`is_valid_hierarchy_57`](x86_64_tables::phys_memory::is_valid_hierarchy_57) for five levels, tests with the
    /// same mapping.
    pub(crate) fn over(memory: &'a mut T, root: PhysFrame<Size4KiB>, mapping: P) -> Self
        requires { Valid (direct_at L.LEVELS (P.places mapping) root laid_in T.tables memory.old) }
        ensures lent { (⟦<Self as Tables>⟧.hierarchy result).lent
            ≡ ((memory.entry.ghost_name, T.lent memory.old), mapping) }
        ensures memory { (⟦<Self as Tables>⟧.hierarchy result).memory ≡ T.tables memory.old }
        ensures layout { (⟦<Self as Tables>⟧.hierarchy result).layout
            ≡ direct_at L.LEVELS (P.places mapping) root }
    {
        Direct {
            memory,
            root,
            mapping,
            levels: PhantomData,
        }
    }

    /// Returns the frame mapping.
    pub(crate) fn mapping(&self) -> &P
        ensures mapping { result.now ≡ (⟦<Self as Tables>⟧.hierarchy self.now).lent.1 }
        ensures places { P.places result.now ≡ (⟦<Self as Tables>⟧.hierarchy self.now).layout.places }
    {
        &self.mapping
    }
}

impl<'a, P: PageTableFrameMapping, L: LevelCount, T: TableMemory> Direct<
    'a,
    GivenMapping<P>,
    L,
    T,
> {
    /// Creates a mapper for the hierarchy with this root, in a memory whose frames lie where the mapping says.
    ///
    /// Requires that the hierarchy is valid, which
    /// [`is_valid_hierarchy`](x86_64_tables::phys_memory::is_valid_hierarchy), or
    /// [`is_valid_hierarchy_57`](x86_64_tables::phys_memory::is_valid_hierarchy_57) for five levels, tests with the
    /// same mapping.
    pub fn new(memory: &'a mut T, root: PhysFrame<Size4KiB>, mapping: P) -> Self
        requires { Valid (direct_at L.LEVELS (P.places mapping) root laid_in T.tables memory.old) }
        ensures lent { (⟦<Self as Tables>⟧.hierarchy result).lent
            ≡ ((memory.entry.ghost_name, T.lent memory.old), mapping) }
        ensures memory { (⟦<Self as Tables>⟧.hierarchy result).memory ≡ T.tables memory.old }
        ensures layout { (⟦<Self as Tables>⟧.hierarchy result).layout
            ≡ direct_at L.LEVELS (P.places mapping) root }
    {
        Direct::over(memory, root, GivenMapping { mapping })
    }

    /// Returns the frame mapping that the mapper was created with.
    pub fn page_table_frame_mapping(&self) -> &P
        ensures mapping { result.now ≡ (⟦<Self as Tables>⟧.hierarchy self.now).lent.1 }
        ensures places { P.places result.now ≡ (⟦<Self as Tables>⟧.hierarchy self.now).layout.places }
    {
        &self.mapping.mapping
    }
}

impl<'a, P: PageTableFrameMapping, T: TableMemory> Direct<'a, P, FourLevels, T> {
    ghost use Rattle.std.specs.Borrow.{sem};
    ghost use Rattle.x86_64_mappers.specs.Lending.{LendsRootTable};

    /// Returns the table of level four, which is in the root's frame.
    pub fn level_4_table(&self) -> &PageTable
        ensures { root_table (⟦<Self as Tables>⟧.hierarchy self.now) ≡ Some result.now }
    {
        self.table(&[], self.root)
    }

    /// Lends the table of level four, to be changed. When the loan ends, the table has the words that were written to
    /// it.
    ///
    /// Other calls of the mapper require a valid hierarchy, and [`is_valid`](Self::is_valid) tests whether it is one
    /// after the changes.
    pub fn level_4_table_mut(&mut self) -> &mut PageTable
        ensures* lends { sem 𝓛 (LendsRootTable P.row T.row
            ⟦<P as PageTableFrameMapping>⟧ ⟦<T as TableMemory>⟧ self.entry result) }
        ensures value { root_table (⟦<Self as Tables>⟧.hierarchy self.old) ≡ Some result.now }
    {
        let level_4 = self.root;
        self.table_mut(&[], level_4)
    }

    /// Returns whether the hierarchy is valid now.
    ///
    /// # Errors
    ///
    /// `AllocError` if memory allocation fails. A memory without places needs no allocation.
    pub fn is_valid(&self, alloc: Global) -> Result<bool, AllocError>
        ensures decides { IfOk result (λ valid. IsTrue valid
            ↔ Valid (⟦<Self as Tables>⟧.hierarchy self.now)) }
        ensures needs_memory { OnErr result (0 < len (⟦<Self as Tables>⟧.hierarchy self.now).memory) }
    {
        is_valid_hierarchy(alloc, self.memory, &self.mapping, self.root)
    }
}

impl<'a, P: PageTableFrameMapping, T: TableMemory> Direct<'a, P, FiveLevels, T> {
    ghost use Rattle.std.specs.Borrow.{sem};
    ghost use Rattle.x86_64_mappers.specs.Lending.{LendsRootTable57};

    /// Returns the table of level five, which is in the root's frame.
    pub fn level_5_table(&self) -> &PageTable
        ensures { root_table (⟦<Self as Tables>⟧.hierarchy self.now) ≡ Some result.now }
    {
        self.table(&[], self.root)
    }

    /// Lends the table of level five, to be changed. When the loan ends, the table has the words that were written to
    /// it.
    ///
    /// Other calls of the mapper require a valid hierarchy, and [`is_valid`](Self::is_valid) tests whether it is one
    /// after the changes.
    pub fn level_5_table_mut(&mut self) -> &mut PageTable
        ensures* lends { sem 𝓛 (LendsRootTable57 P.row T.row
            ⟦<P as PageTableFrameMapping>⟧ ⟦<T as TableMemory>⟧ self.entry result) }
        ensures value { root_table (⟦<Self as Tables>⟧.hierarchy self.old) ≡ Some result.now }
    {
        let level_5 = self.root;
        self.table_mut(&[], level_5)
    }

    /// Returns whether the hierarchy is valid now.
    ///
    /// # Errors
    ///
    /// `AllocError` if memory allocation fails. A memory without places needs no allocation.
    pub fn is_valid(&self, alloc: Global) -> Result<bool, AllocError>
        ensures decides { IfOk result (λ valid. IsTrue valid
            ↔ Valid (⟦<Self as Tables>⟧.hierarchy self.now)) }
        ensures needs_memory { OnErr result (0 < len (⟦<Self as Tables>⟧.hierarchy self.now).memory) }
    {
        is_valid_hierarchy_57(alloc, self.memory, &self.mapping, self.root)
    }
}

impl<'a, P: PageTableFrameMapping, L: LevelCount, T: TableMemory> Tables for Direct<'a, P, L, T> {
    ghost use Rattle.std.specs.Borrow.{GName};
    ghost use Rattle.x86_64_mappers.specs.private.ImplLaws.{no_flags};
    ghost use Rattle.x86_64_mappers.specs.Layouts.{owned_at};

    ghost Lent = { (GName × T.Lent) × P };

    ghost hierarchy = { λ mapper. let memory = mapper.memory in
        let lent : (GName × T.Lent) × P = ((memory.ghost_name, T.lent memory.now), mapper.mapping) in
        owned_at L.LEVELS (P.places mapper.mapping) mapper.root (T.tables memory.now) lent };

    ghost added_flags = { λ _. no_flags };

    fn recursive_index(&self) -> Option<PageTableIndex> {
        None
    }

    ghost at_least_four = { λ _. L.at_least_four };

    ghost at_most_five = { λ _. L.at_most_five };

    ghost is_mapping = { λ mapper. P.is_mapping mapper.mapping };
}

impl<'a, P: PageTableFrameMapping, L: LevelCount, T: TableMemory> TablesIn<L>
    for Direct<'a, P, L, T> {
    ghost use Rattle.std.proofs.Common.{refl};

    ghost level_count = { λ _. refl };
}

impl<'a, P: PageTableFrameMapping, L: LevelCount, T: TableMemory> TableAccess
    for Direct<'a, P, L, T> {
    ghost use Rattle.std.proofs.Common.{true, refl, ap};
    ghost use Rattle.x86_64_mappers.specs.Lending.{root_stays};
    ghost use Rattle.x86_64_mappers.specs.private.ImplLaws.{place_there};

    ghost with_table = { λ mapper frame table. let places = P.places mapper.mapping in
        let now = mapper.memory.now in let after = T.with_table now (places.place frame) table in
        record mapper {
          memory = record mapper.memory { now = after };
          has_root = root_stays places mapper.root (T.tables now) (T.tables after)
              (T.keeps_places now (places.place frame) table) mapper.has_root;
        } };

    fn root(&self) -> PhysFrame<Size4KiB> {
        self.root
    }

    fn new_table_flags(&self) -> PageTableFlags {
        PageTableFlags::empty()
    }

    fn table(&self, _path: &[PageTableIndex], frame: PhysFrame<Size4KiB>) -> &PageTable {
        self.memory.table_at(self.mapping.frame_to_pointer(frame))
    }

    fn table_mut(
        &mut self,
        _path: &[PageTableIndex],
        frame: PhysFrame<Size4KiB>,
    ) -> &mut PageTable {
        let place = self.mapping.frame_to_pointer(frame);
        self.memory.table_at_mut(place)
    }

    ghost reaches_unnamed = { true };

    fn clear_unnamed(&mut self, frame: PhysFrame<Size4KiB>) -> bool {
        self.memory
            .table_at_mut(self.mapping.frame_to_pointer(frame))
            .zero();
        true
    }

    ghost puts = { λ mapper frame table there. let places = P.places mapper.mapping in
        let now = mapper.memory.now in
        T.puts now (places.place frame) table (place_there places (T.tables now) frame there) };

    ghost keeps_layout = { λ mapper frame table. refl };

    ghost keeps_lent = { λ mapper frame table. let place = (P.places mapper.mapping).place frame in
        ap (λ held. ((mapper.memory.ghost_name, held), mapper.mapping))
        (T.keeps_lent mapper.memory.now place table) };
}
