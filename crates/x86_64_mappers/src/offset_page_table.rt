//! The mapper for a memory that is mapped as a whole into the virtual address space, at an offset.
ghost use Rattle.std.specs.Prelude.{◌≡◌, ◌↔◌, IsTrue};
ghost use Rattle.x86_64_model.specs.Hierarchy.{◌laid_in◌, Valid};
ghost use Rattle.x86_64_model.specs.Memory.{identity_places};
ghost use Rattle.x86_64_mappers.specs.Layouts.{direct_at};
ghost use Rattle.x86_64_mappers.specs.Offsets.{offset_places, OffsetFits};

mod phys_offset;

use crate::mapped_page_table::Direct;
use phys_offset::{PhysOffset, reaches_place};
use x86_64_addr::addr::VirtAddrIn;
use x86_64_addr::level_count::{FiveLevels, FourLevels, LevelCount};
use x86_64_page::frame::PhysFrame;
use x86_64_page::page::Size4KiB;
use x86_64_tables::page_tables::Tables;
use x86_64_tables::phys_memory::{PhysMemory, TableMemory};

/// A mapper for a hierarchy of any number of levels of page tables, in a memory that is mapped as a whole into the
/// virtual address space. The virtual address at which it begins is the offset.
///
/// It borrows the memory until it is dropped. Its hierarchy has no recursive index.
pub type OffsetPageTableIn<'a, L, T = PhysMemory> = Direct<'a, PhysOffset<L>, L, T>;

/// An [`OffsetPageTableIn`] with four levels of page tables.
pub type OffsetPageTable<'a, T = PhysMemory> = OffsetPageTableIn<'a, FourLevels, T>;

/// An [`OffsetPageTableIn`] with five levels of page tables.
pub type OffsetPageTable57<'a, T = PhysMemory> = OffsetPageTableIn<'a, FiveLevels, T>;

impl<'a, L: LevelCount, T: TableMemory> Direct<'a, PhysOffset<L>, L, T> {
    /// Creates a mapper for the hierarchy with this root, in a memory that is mapped at an offset.
    ///
    /// Requires that the hierarchy is valid with each frame at the place of its number (a place is the index of a
    /// table in memory), and that the offset fits the memory. The first is tested by
    /// [`is_valid_hierarchy`](x86_64_tables::phys_memory::is_valid_hierarchy), or by
    /// [`is_valid_hierarchy_57`](x86_64_tables::phys_memory::is_valid_hierarchy_57) for five levels, with
    /// [`IdentityMapping`](x86_64_tables::phys_memory::IdentityMapping), and the second by
    /// [`offset_fits`](Self::offset_fits).
    pub fn new(memory: &'a mut T, root: PhysFrame<Size4KiB>, phys_offset: VirtAddrIn<L>) -> Self
        requires valid { Valid (direct_at L.LEVELS identity_places root laid_in T.tables memory.old) }
        requires fits { OffsetFits L.LEVELS (T.tables memory.old) phys_offset }
        ensures lent { (⟦<Self as Tables>⟧.hierarchy result).lent
            ≡ ((memory.entry.ghost_name, T.lent memory.old), phys_offset) }
        ensures memory { (⟦<Self as Tables>⟧.hierarchy result).memory ≡ T.tables memory.old }
        ensures layout { (⟦<Self as Tables>⟧.hierarchy result).layout
            ≡ direct_at L.LEVELS (offset_places L.LEVELS phys_offset) root }
        ensures valid { Valid (⟦<Self as Tables>⟧.hierarchy result) }
    {
        let mapping = PhysOffset::new(phys_offset);
        Direct::over(memory, root, mapping)
    }

    /// Returns true if an offset fits a memory: for the frame of each place, the sum of the offset and of the frame's
    /// address is canonical, and so below 2^64.
    pub fn offset_fits(memory: &T, phys_offset: VirtAddrIn<L>) -> bool
        ensures { IsTrue result ↔ OffsetFits L.LEVELS (T.tables memory.now) phys_offset }
    {
        for n in 0..memory.len() {
            if let Some(place) = memory.place_at(n) {
                if !reaches_place(phys_offset, place) {
                    return false;
                }
            }
        }
        true
    }

    /// Returns the offset that the mapper was created with.
    pub fn phys_offset(&self) -> VirtAddrIn<L>
        ensures offset { result ≡ (⟦<Self as Tables>⟧.hierarchy self.now).lent.1 }
        ensures places { (⟦<Self as Tables>⟧.hierarchy self.now).layout.places
            ≡ offset_places L.LEVELS result }
    {
        self.mapping().offset()
    }
}
