//! Levels of page tables with 5-level paging.
//!
//! Intel SDM vol. 3A, "4-Level Paging and 5-Level Paging".
ghost use Rattle.std.specs.Prelude.{◌≡◌, ◌+◌, ◌-◌, ◌*◌, ◌^◌, ◌<◌, ◌≤◌, ◌↔◌, IsSome, IfSome};
ghost use Rattle.x86_64_addr.specs.Levels57.{level_number_57};

use crate::index::table_span;

/// A level of page tables with 5-level paging. The root is of level five, and the entries of level one map 4KiB pages.
///
/// Levels are ordered by their numbers.
#[derive(Debug, Clone, Copy, PartialEq, Eq, PartialOrd, Ord, Hash)]
pub enum PageTableLevel57 {
    /// The level of a page table (PT).
    One = 1,
    /// The level of a page directory (PD).
    Two,
    /// The level of a page directory pointer table (PDPT).
    Three,
    /// The level of a table that the root names (PML4).
    Four,
    /// The level of the root (PML5).
    Five,
}

impl PageTableLevel57 {
    /// Returns the level below: that of the tables that entries of this level name.
    ///
    /// Returns `None` only for level one, whose entries name no tables.
    ///
    /// Intel SDM vol. 3A, "Hierarchical Paging Structures: an Overview".
    pub fn next_lower_level(self) -> Option<PageTableLevel57>
        ensures above_one { IsSome result ↔ (1 < level_number_57 self) }
        ensures number { IfSome result (λ lower. level_number_57 lower + 1 ≡ level_number_57 self) }
    {
        match self {
            PageTableLevel57::Five => Some(PageTableLevel57::Four),
            PageTableLevel57::Four => Some(PageTableLevel57::Three),
            PageTableLevel57::Three => Some(PageTableLevel57::Two),
            PageTableLevel57::Two => Some(PageTableLevel57::One),
            PageTableLevel57::One => None,
        }
    }

    /// Returns the level above: that of the entries that name tables of this level.
    ///
    /// Returns `None` only for level five, the root's level.
    ///
    /// Intel SDM vol. 3A, "Hierarchical Paging Structures: an Overview".
    pub fn next_higher_level(self) -> Option<PageTableLevel57>
        ensures below_five { IsSome result ↔ (level_number_57 self < 5) }
        ensures number { IfSome result (λ higher. level_number_57 higher ≡ level_number_57 self + 1) }
    {
        match self {
            PageTableLevel57::Five => None,
            PageTableLevel57::Four => Some(PageTableLevel57::Five),
            PageTableLevel57::Three => Some(PageTableLevel57::Four),
            PageTableLevel57::Two => Some(PageTableLevel57::Three),
            PageTableLevel57::One => Some(PageTableLevel57::Two),
        }
    }

    /// Returns the alignment of the address range that a table of this level covers, which is also its size in bytes.
    ///
    /// Intel SDM vol. 3A, "Hierarchical Paging Structures: an Overview".
    pub fn table_address_space_alignment(self) -> u64
        ensures { result ≡ 2 ^ (12 + 9 * level_number_57 self) }
    {
        table_span(self.number())
    }

    /// Returns the alignment of the address range that an entry of this level covers, which is also its size in bytes.
    ///
    /// Intel SDM vol. 3A, "Hierarchical Paging Structures: an Overview".
    pub fn entry_address_space_alignment(self) -> u64
        ensures { result ≡ 2 ^ (12 + 9 * (level_number_57 self - 1)) }
    {
        table_span(self.number() - 1)
    }

    /// Returns the number of the level, from one to five.
    pub(crate) fn number(self) -> u64
        ensures value { result ≡ level_number_57 self }
        ensures one_to_five { (1 ≤ result) × (result ≤ 5) }
    {
        self as u64
    }
}
