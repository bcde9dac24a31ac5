//! Laws of addresses, indices, offsets and levels: their order agrees with equality and with hashes. The bodies are empty; the
//! contracts are the laws.
//!
//! The law of steps is stated with their definitions, in `x86_64_model::laws::successors`.
ghost use Rattle.std.specs.Prelude.{◌≡◌, ◌==◌, Some, pos};
ghost use Rattle.std.specs.Ordering.{nat_cmp};
ghost use Rattle.std.specs.Hash as fed;
ghost use Rattle.x86_64_addr.specs.Levels.{level_number};
ghost use Rattle.x86_64_addr.specs.Levels57.{level_number_57};
ghost use Rattle.x86_64_model.specs.Position.{raw};

use crate::addr::{PhysAddr, VirtAddrIn};
use crate::index::{PageOffset, PageTableIndex, PageTableLevel, PageTableLevel57};
use crate::level_count::LevelCount;
use std::hash::Hash;

/// Virtual addresses are equal and ordered by position (the number of an address counted without the gap in the middle of the
/// address space), and hashed by raw value.
pub fn virtual_addresses_are_ordered_by_position<L: LevelCount>(
    left: VirtAddrIn<L>,
    right: VirtAddrIn<L>,
)
    ensures equality { ⟦<VirtAddrIn<L> as PartialEq>⟧.eq left right ≡ (left == right) }
    ensures order { ⟦<VirtAddrIn<L> as Ord>⟧.cmp left right ≡ nat_cmp left right }
    ensures partial_order { ⟦<VirtAddrIn<L> as PartialOrd>⟧.partial_cmp left right
        ≡ Some (nat_cmp left right) }
    ensures hash { ⟦<VirtAddrIn<L> as Hash>⟧.hash_input left ≡ fed.u64 (raw L.LEVELS left) }
{}

/// Physical addresses are equal, ordered and hashed as numbers.
pub fn physical_addresses_are_ordered_by_number(left: PhysAddr, right: PhysAddr)
    ensures equality { ⟦<PhysAddr as PartialEq>⟧.eq left right ≡ (left == right) }
    ensures order { ⟦<PhysAddr as Ord>⟧.cmp left right ≡ nat_cmp left right }
    ensures partial_order { ⟦<PhysAddr as PartialOrd>⟧.partial_cmp left right ≡ Some (nat_cmp left right) }
    ensures hash { ⟦<PhysAddr as Hash>⟧.hash_input left ≡ fed.u64 left }
{}

/// Indices of page tables are equal, ordered and hashed as numbers.
pub fn indices_are_ordered_by_number(left: PageTableIndex, right: PageTableIndex)
    ensures equality { ⟦<PageTableIndex as PartialEq>⟧.eq left right ≡ (left == right) }
    ensures order { ⟦<PageTableIndex as Ord>⟧.cmp left right ≡ nat_cmp left right }
    ensures partial_order { ⟦<PageTableIndex as PartialOrd>⟧.partial_cmp left right
        ≡ Some (nat_cmp left right) }
    ensures hash { ⟦<PageTableIndex as Hash>⟧.hash_input left ≡ fed.u16 left }
{}

/// Offsets in pages are equal, ordered and hashed as numbers.
pub fn offsets_are_ordered_by_number(left: PageOffset, right: PageOffset)
    ensures equality { ⟦<PageOffset as PartialEq>⟧.eq left right ≡ (left == right) }
    ensures order { ⟦<PageOffset as Ord>⟧.cmp left right ≡ nat_cmp left right }
    ensures partial_order { ⟦<PageOffset as PartialOrd>⟧.partial_cmp left right ≡ Some (nat_cmp left right) }
    ensures hash { ⟦<PageOffset as Hash>⟧.hash_input left ≡ fed.u16 left }
{}

/// Levels are equal, ordered and hashed by their numbers.
pub fn levels_are_ordered_by_number(left: PageTableLevel, right: PageTableLevel)
    ensures equality { ⟦<PageTableLevel as PartialEq>⟧.eq left right
        ≡ (level_number left == level_number right) }
    ensures order { ⟦<PageTableLevel as Ord>⟧.cmp left right
        ≡ nat_cmp (level_number left) (level_number right) }
    ensures partial_order { ⟦<PageTableLevel as PartialOrd>⟧.partial_cmp left right
        ≡ Some (nat_cmp (level_number left) (level_number right)) }
    ensures hash { ⟦<PageTableLevel as Hash>⟧.hash_input left ≡ fed.isize (pos (level_number left)) }
{}

/// Levels of 5-level paging are equal, ordered and hashed by their numbers.
pub fn levels_57_are_ordered_by_number(left: PageTableLevel57, right: PageTableLevel57)
    ensures equality { ⟦<PageTableLevel57 as PartialEq>⟧.eq left right
        ≡ (level_number_57 left == level_number_57 right) }
    ensures order { ⟦<PageTableLevel57 as Ord>⟧.cmp left right
        ≡ nat_cmp (level_number_57 left) (level_number_57 right) }
    ensures partial_order { ⟦<PageTableLevel57 as PartialOrd>⟧.partial_cmp left right
        ≡ Some (nat_cmp (level_number_57 left) (level_number_57 right)) }
    ensures hash { ⟦<PageTableLevel57 as Hash>⟧.hash_input left ≡ fed.isize (pos (level_number_57 left)) }
{}
