//! The mapper that reaches page tables through the root's entry for itself, and the windows (pages) at which it finds
//! them.
ghost use Rattle.std.specs.Prelude.{◌≡◌, Some, bit_or};
ghost use Rattle.std.specs.Borrow.{sem};
ghost use Rattle.x86_64_model.specs.Memory.{word};
ghost use Rattle.x86_64_model.specs.Hierarchy.{Valid};
ghost use Rattle.x86_64_tables.specs.PageTableFlags.{bits_of};
ghost use Rattle.x86_64_mappers.specs.InvalidPageTables.{is_root_window};
ghost use Rattle.x86_64_mappers.specs.Layouts.{root_table};
ghost use Rattle.x86_64_mappers.specs.RefusedMappers.{RestsUnlessMade};
ghost use Rattle.x86_64_mappers.specs.Recursive.{recursive_now_at, by_number, ValidThrough};

mod made;
mod walked_tables;
mod windows;

use crate::walk::TableAccess;
use bitflags::Flags;
use made::made;
use std::fmt::{Display, Formatter, Result as FmtResult, Write};
use std::marker::PhantomData;
pub use walked_tables::WalkedTables;
use windows::{window, window_position};
pub use windows::{
    p1_window, p1_window as p1_window_57, p2_window, p2_window as p2_window_57, p3_window,
    p3_window as p3_window_57, p4_window_57,
};
use x86_64_addr::addr::VirtAddrIn;
use x86_64_addr::index::PageTableIndex;
use x86_64_addr::level_count::{FiveLevels, FourLevels, LevelCount};
use x86_64_page::frame::PhysFrame;
use x86_64_page::page::{PageSize, Size4KiB};
use x86_64_tables::page_table::{PageTable, PageTableFlags};
use x86_64_tables::page_tables::{Tables, TablesIn};
use x86_64_tables::phys_memory::{Active, PhysMemory};

/// The reason why no recursive mapper was created.
#[derive(Clone, Copy, Debug, PartialEq)]
pub enum InvalidPageTable {
    /// The address has indices that differ, or an offset in the page other than 0.
    NotRecursive,
    /// The table isn't the one at which page walks start, or its entry at the index lacks `PRESENT`, has `HUGE_PAGE`
    /// or doesn't name the table.
    NotActive,
}

impl Display for InvalidPageTable {
    fn fmt<W: Write>(&self, f: &mut Formatter<W>) -> FmtResult {
        f.write_str(match self {
            InvalidPageTable::NotRecursive => "given page table address is not recursive",
            InvalidPageTable::NotActive => "given page table is not active on the CPU",
        })
    }
}

/// A mapper for a hierarchy of `L` levels of page tables, which reaches each table at its window. The window is a
/// page whose walk goes through the root's entry for itself, and through the tables as they are at that moment. The
/// index of that entry is the recursive index. The mapper is handed no memory.
///
/// A new table's entry gets `PRESENT` and `WRITABLE` in addition to the parent flags, since the table can be reached
/// only once the entry names it. For the same reason a map clears the table after that, so if a processor walks these
/// tables meanwhile, the frames of the allocator have to hold only zeros. For an address that begins with the recursive
/// index, [`translate`](crate::mapper::Translate::translate) and [`translate_page`](crate::mapper::Mapper::translate_page)
/// follow the rest of its path, as the processor does.
#[derive(Drop)]
pub struct Recursive<A, L> {
    active: A,
    index: PageTableIndex,
    self_flags: PageTableFlags,
    levels: PhantomData<L>,
}

/// A [`Recursive`] mapper for an active memory with any number of levels of page tables.
pub type RecursivePageTableIn<'a, L, T = PhysMemory> = Recursive<Active<'a, L, T>, L>;

/// A [`Recursive`] mapper for an active memory with four levels of page tables.
pub type RecursivePageTable<'a, T = PhysMemory> = RecursivePageTableIn<'a, FourLevels, T>;

/// A [`Recursive`] mapper for an active memory with five levels of page tables.
pub type RecursivePageTable57<'a, T = PhysMemory> = RecursivePageTableIn<'a, FiveLevels, T>;

impl<'a, L: LevelCount> RecursivePageTableIn<'a, L> {
    ghost use Rattle.std.specs.Prelude.{◌↔◌, None, IsOk, IfOk, IfErr};
    ghost use Rattle.x86_64_model.specs.Position.{index};
    ghost use Rattle.x86_64_tables.specs.ActiveMemory.{memory_of, cr3_of};
    ghost use Rattle.x86_64_mappers.specs.InvalidPageTables.{invalid_table};
    ghost use Rattle.x86_64_mappers.specs.Recursive.{active_in, layout_through};

    /// Creates a mapper for the hierarchy whose root is the table in a frame, given the address of the root's window.
    ///
    /// If it is refused, no word changes.
    ///
    /// Requires that the hierarchy is valid for the index of the address, unless [`refusal`](Self::refusal) returns
    /// an error.
    ///
    /// # Errors
    ///
    /// The error that [`refusal`](Self::refusal) returns.
    pub fn new(
        active: Active<'a, L>,
        table: PhysFrame<Size4KiB>,
        virt: VirtAddrIn<L>,
    ) -> Result<Self, InvalidPageTable>
        requires { invalid_table L.LEVELS active table virt ≡ None
            → ValidThrough L.LEVELS (memory_of active) (cr3_of active) (index L.LEVELS virt) }
        ensures* unchanged { sem 𝓛 (RestsUnlessMade active.entry result) }
        ensures active { IfOk result (λ mapper. active_in mapper ≡ active.entry) }
        ensures layout { IfOk result (λ mapper. (⟦<Self as Tables>⟧.hierarchy mapper).layout
            ≡ layout_through L.LEVELS active.entry (index L.LEVELS virt)) }
        ensures made { IsOk result ↔ (invalid_table L.LEVELS active.entry table virt ≡ None) }
        ensures refused { IfErr result (λ why. invalid_table L.LEVELS active.entry table virt ≡ Some why) }
    {
        let refusal = Self::refusal(&active, table, virt);
        let index = virt.root_index();
        let self_flags = Self::flags_unless(refusal, &active, index);
        let why = refusal.unwrap_or(InvalidPageTable::NotActive);
        made(active, refusal.is_none(), index, self_flags, why)
    }
}

impl<A: WalkedTables<L>, L: LevelCount> Recursive<A, L> {
    ghost use Rattle.std.specs.Prelude.{None};
    ghost use Rattle.x86_64_mappers.specs.InvalidPageTables.{refuses_at};
    ghost use Rattle.x86_64_mappers.specs.Recursive.{active_in};

    /// Returns the reason why no mapper is created for a table at an address, or `None` if one is.
    ///
    /// The reason is `NotRecursive` if the address isn't that of a root's window, and otherwise `NotActive` if the
    /// table isn't the one at which page walks start, or its entry at the index lacks `PRESENT`, has `HUGE_PAGE` or
    /// doesn't name the table.
    pub fn refusal(
        active: &A,
        table: PhysFrame<Size4KiB>,
        virt: VirtAddrIn<L>,
    ) -> Option<InvalidPageTable>
        ensures { result ≡ refuses_at L.LEVELS (A.memory active.now) (A.root active.now) table virt }
    {
        if !is_root_window::<L>(virt) {
            return Some(InvalidPageTable::NotRecursive);
        }
        let index = virt.root_index();
        if table != active.cr3() || !active.self_entry(index) {
            return Some(InvalidPageTable::NotActive);
        }
        None
    }

    /// Creates a mapper with a recursive index for the hierarchy whose root is in the frame at which page walks start.
    ///
    /// Requires that the hierarchy is valid for the index, and that the root's entry at the index is present, lacks
    /// `HUGE_PAGE` and names the root.
    pub fn new_unchecked(active: A, index: PageTableIndex) -> Self
        requires { ValidThrough L.LEVELS (A.memory active) (A.root active) index }
        ensures active { active_in result ≡ active }
        ensures layout { (⟦<Self as Tables>⟧.hierarchy result).layout
            ≡ recursive_now_at L.LEVELS (A.memory active) (A.root active) index }
    {
        let self_flags = self_flags::<A, L>(&active, index);
        Recursive {
            active,
            index,
            self_flags,
            levels: PhantomData,
        }
    }

    /// Returns the flags of the root's entry at an index, or no flags if the mapper is refused.
    fn flags_unless(
        refusal: Option<InvalidPageTable>,
        active: &A,
        index: PageTableIndex,
    ) -> PageTableFlags
        requires { refusal ≡ None → ValidThrough L.LEVELS (A.memory active.now) (A.root active.now) index }
        ensures { refusal ≡ None → bit_or (A.root active.now) (bits_of result)
            ≡ word (by_number (A.memory active.now)) (A.root active.now) index }
    {
        match refusal {
            Some(_) => PageTableFlags::empty(),
            None => self_flags::<A, L>(active, index),
        }
    }
}

impl<A: WalkedTables<L>, L: LevelCount> Recursive<A, L> {
    ghost use Rattle.x86_64_mappers.specs.Recursive.{LendsRootWindowAt};

    /// Returns the root's table, through its window.
    fn root_window(&self) -> &PageTable
        requires { Valid (⟦<Self as Tables>⟧.hierarchy self.now) }
        ensures { root_table (⟦<Self as Tables>⟧.hierarchy self.now) ≡ Some result.now }
    {
        self.table(&[], self.active.cr3())
    }

    /// Lends the root's table through its window, to be changed.
    fn root_window_mut(&mut self) -> &mut PageTable
        requires { Valid (⟦<Self as Tables>⟧.hierarchy self.old) }
        ensures* lends { sem 𝓛 (
            LendsRootWindowAt A.row L.row A.with_table self.entry (A.root self.old.active) result) }
        ensures value { root_table (⟦<Self as Tables>⟧.hierarchy self.old) ≡ Some result.now }
    {
        let root = self.active.cr3();
        self.table_mut(&[], root)
    }
}

impl<A: WalkedTables<FourLevels>> Recursive<A, FourLevels> {
    ghost use Rattle.x86_64_mappers.specs.Recursive.{LendsRootWindow};

    /// Returns the table of level four, through its window.
    ///
    /// Requires that the hierarchy is valid.
    pub fn level_4_table(&self) -> &PageTable
        requires { Valid (⟦<Self as Tables>⟧.hierarchy self.now) }
        ensures { root_table (⟦<Self as Tables>⟧.hierarchy self.now) ≡ Some result.now }
    {
        self.root_window()
    }

    /// Lends the table of level four through its window, to be changed. When the loan ends, the table has the words
    /// that were written to it.
    ///
    /// Requires that the hierarchy is valid. Other calls of the mapper require that it is valid after the changes.
    pub fn level_4_table_mut(&mut self) -> &mut PageTable
        requires { Valid (⟦<Self as Tables>⟧.hierarchy self.old) }
        ensures* lends { sem 𝓛 (
            LendsRootWindow A.row A.with_table self.entry (A.root self.old.active) result) }
        ensures value { root_table (⟦<Self as Tables>⟧.hierarchy self.old) ≡ Some result.now }
    {
        self.root_window_mut()
    }
}

impl<A: WalkedTables<FiveLevels>> Recursive<A, FiveLevels> {
    ghost use Rattle.x86_64_mappers.specs.Recursive.{LendsRootWindow57};

    /// Returns the table of level five, through its window.
    ///
    /// Requires that the hierarchy is valid.
    pub fn level_5_table(&self) -> &PageTable
        requires { Valid (⟦<Self as Tables>⟧.hierarchy self.now) }
        ensures { root_table (⟦<Self as Tables>⟧.hierarchy self.now) ≡ Some result.now }
    {
        self.root_window()
    }

    /// Lends the table of level five through its window, to be changed. When the loan ends, the table has the words
    /// that were written to it.
    ///
    /// Requires that the hierarchy is valid. Other calls of the mapper require that it is valid after the changes.
    pub fn level_5_table_mut(&mut self) -> &mut PageTable
        requires { Valid (⟦<Self as Tables>⟧.hierarchy self.old) }
        ensures* lends { sem 𝓛 (
            LendsRootWindow57 A.row A.with_table self.entry (A.root self.old.active) result) }
        ensures value { root_table (⟦<Self as Tables>⟧.hierarchy self.old) ≡ Some result.now }
    {
        self.root_window_mut()
    }
}

/// Returns true if an address is the root's window: its indices are all equal, and its offset in the page is 0.
fn is_root_window<L: LevelCount>(addr: VirtAddrIn<L>) -> bool
    ensures { result ≡ is_root_window L.LEVELS addr }
{
    addr.position() == window_position::<L>(addr.root_index(), &[])
}

/// Returns the flags of the root's entry for itself.
fn self_flags<A: WalkedTables<L>, L: LevelCount>(
    active: &A,
    index: PageTableIndex,
) -> PageTableFlags
    requires { ValidThrough L.LEVELS (A.memory active.now) (A.root active.now) index }
    ensures { bit_or (A.root active.now) (bits_of result)
        ≡ word (by_number (A.memory active.now)) (A.root active.now) index }
{
    let table = active.table(window::<L>(index, &[]).position()).unwrap();
    table[usize::from(index)].flags()
}

impl<A: WalkedTables<L>, L: LevelCount> Tables for Recursive<A, L> {
    ghost use Rattle.x86_64_mappers.specs.private.ImplLaws.{present_writable, numbers_are_mapping};
    ghost use Rattle.x86_64_mappers.specs.Recursive.{owned_by, window_with};

    ghost Lent = { A.Lent };

    ghost hierarchy = { λ mapper. let root = A.root mapper.active in
        owned_by L.LEVELS root (window_with root mapper.index (bits_of mapper.self_flags))
        (A.memory mapper.active) (A.lent mapper.active) };

    ghost added_flags = { λ _. present_writable };

    fn recursive_index(&self) -> Option<PageTableIndex> {
        Some(self.index)
    }

    ghost at_least_four = { λ _. L.at_least_four };

    ghost at_most_five = { λ _. L.at_most_five };

    ghost is_mapping = { λ _. numbers_are_mapping };
}

impl<A: WalkedTables<L>, L: LevelCount> TablesIn<L> for Recursive<A, L> {
    ghost use Rattle.std.proofs.Common.{refl};

    ghost level_count = { λ _. refl };
}

impl<A: WalkedTables<L>, L: LevelCount> TableAccess for Recursive<A, L> {
    ghost use Rattle.std.proofs.Common.{false, ap};
    ghost use Rattle.x86_64_mappers.specs.Recursive.{recursive_at, window_with};

    ghost with_table = { λ mapper frame table.
        record mapper { active = A.with_table mapper.active frame table } };

    fn root(&self) -> PhysFrame<Size4KiB> {
        self.active.cr3()
    }

    fn new_table_flags(&self) -> PageTableFlags {
        PageTableFlags::PRESENT.union(PageTableFlags::WRITABLE)
    }

    fn table(&self, path: &[PageTableIndex], _frame: PhysFrame<Size4KiB>) -> &PageTable {
        self.active
            .table(window::<L>(self.index, path).position())
            .unwrap()
    }

    fn table_mut(
        &mut self,
        path: &[PageTableIndex],
        _frame: PhysFrame<Size4KiB>,
    ) -> &mut PageTable {
        let addr = window::<L>(self.index, path);
        let position = addr.position();
        self.active.table_mut(position).unwrap()
    }

    ghost reaches_unnamed = { false };

    fn clear_unnamed(&mut self, _frame: PhysFrame<Size4KiB>) -> bool {
        false
    }

    ghost puts = { λ mapper frame table there. A.puts mapper.active frame table there };

    ghost keeps_layout = { λ mapper frame table.
        ap (λ root. recursive_at L.LEVELS root (window_with root mapper.index (bits_of mapper.self_flags)))
        (A.keeps_root mapper.active frame table) };

    ghost keeps_lent = { λ mapper frame table. A.keeps_lent mapper.active frame table };
}
