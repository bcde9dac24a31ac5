//! Indices of page tables, offsets in pages, and levels of page tables.
//!
//! Intel SDM vol. 3A, "4-Level Paging and 5-Level Paging"; AMD APM vol. 2, "Long-Mode Page Translation".
ghost use Rattle.std.specs.Prelude.{◌≡◌, ℕ, ◌+◌, ◌-◌, ◌*◌, ◌%◌, ◌^◌, ◌<◌, ◌≤◌, ◌↔◌, IsSome, IfSome};
ghost use Rattle.x86_64_addr.specs.Levels.{level_number};
ghost use Rattle.x86_64_model.specs.Successor.{forward, backward, steps_between};

use std::marker::Model;

mod level57;

pub use level57::PageTableLevel57;

/// The index of an entry in a page table, a number below 512.
#[derive(Debug, Clone, Copy, PartialEq, Eq, PartialOrd, Ord, Hash)]
pub struct PageTableIndex(u16);

impl Model for PageTableIndex {
    ghost Value = { ℕ };

    ghost view = { λ i. i.0 };

    ghost invariant = { λ i. i.0 < 512 };

    ghost inverse = { λ n. record { 0 = n } };
}

impl PageTableIndex {
    /// Creates an index from a number.
    ///
    /// Requires that the number is below 512.
    pub const fn new(index: u16) -> PageTableIndex
        requires { index < 512 }
        ensures { result ≡ index }
    {
        PageTableIndex(index)
    }

    /// Creates an index from a number modulo 512.
    pub const fn new_truncate(index: u16) -> PageTableIndex
        ensures { result ≡ index % 512 }
    {
        PageTableIndex(index % 512)
    }

    /// Returns the index `count` entries after `start`.
    ///
    /// Returns `None` if the sum isn't below 512.
    pub fn forward_checked(start: PageTableIndex, count: usize) -> Option<PageTableIndex>
        ensures { result ≡ forward 512 start count }
    {
        if count <= 511 - usize::from(start) {
            Some(PageTableIndex(start.0 + count as u16))
        } else {
            None
        }
    }

    /// Returns the index `count` entries before `start`.
    ///
    /// Returns `None` if the count is above the index.
    pub fn backward_checked(start: PageTableIndex, count: usize) -> Option<PageTableIndex>
        ensures { result ≡ backward start count }
    {
        if count <= usize::from(start) {
            Some(PageTableIndex(start.0 - count as u16))
        } else {
            None
        }
    }

    /// Returns the number of entries from `start` to `end`, as equal lower and upper bounds.
    ///
    /// Returns `(0, None)` if `end` is below `start`.
    pub fn steps_between(start: &PageTableIndex, end: &PageTableIndex) -> (usize, Option<usize>)
        ensures { result ≡ steps_between start.now end.now }
    {
        let (start, end) = (usize::from(*start), usize::from(*end));
        if start <= end {
            let count = end - start;
            (count, Some(count))
        } else {
            (0, None)
        }
    }
}

impl From<PageTableIndex> for u16 {
    ghost from_gives = { λ i n. (n ≡ i) × (n < 512) };

    /// Returns the number, which is below 512.
    fn from(index: PageTableIndex) -> u16 {
        index.0
    }
}

impl From<PageTableIndex> for u32 {
    ghost from_gives = { λ i n. (n ≡ i) × (n < 512) };

    /// Returns the number, which is below 512.
    fn from(index: PageTableIndex) -> u32 {
        index.0 as u32
    }
}

impl From<PageTableIndex> for u64 {
    ghost from_gives = { λ i n. (n ≡ i) × (n < 512) };

    /// Returns the number, which is below 512.
    fn from(index: PageTableIndex) -> u64 {
        index.0 as u64
    }
}

impl From<PageTableIndex> for usize {
    ghost from_gives = { λ i n. (n ≡ i) × (n < 512) };

    /// Returns the number, which is below 512.
    fn from(index: PageTableIndex) -> usize {
        index.0 as usize
    }
}

/// An offset in a 4KiB page, a number of bytes below 4096.
#[derive(Debug, Clone, Copy, PartialEq, Eq, PartialOrd, Ord, Hash)]
pub struct PageOffset(u16);

impl Model for PageOffset {
    ghost Value = { ℕ };

    ghost view = { λ o. o.0 };

    ghost invariant = { λ o. o.0 < 4096 };

    ghost inverse = { λ n. record { 0 = n } };
}

impl PageOffset {
    /// Creates an offset from a number of bytes.
    ///
    /// Requires that the number is below 4096.
    pub const fn new(offset: u16) -> PageOffset
        requires { offset < 4096 }
        ensures { result ≡ offset }
    {
        PageOffset(offset)
    }

    /// Creates an offset from a number of bytes modulo 4096.
    pub const fn new_truncate(offset: u16) -> PageOffset
        ensures { result ≡ offset % 4096 }
    {
        PageOffset(offset % 4096)
    }
}

impl From<PageOffset> for u16 {
    ghost from_gives = { λ o n. (n ≡ o) × (n < 4096) };

    /// Returns the number of bytes, which is below 4096.
    fn from(offset: PageOffset) -> u16 {
        offset.0
    }
}

impl From<PageOffset> for u32 {
    ghost from_gives = { λ o n. (n ≡ o) × (n < 4096) };

    /// Returns the number of bytes, which is below 4096.
    fn from(offset: PageOffset) -> u32 {
        offset.0 as u32
    }
}

impl From<PageOffset> for u64 {
    ghost from_gives = { λ o n. (n ≡ o) × (n < 4096) };

    /// Returns the number of bytes, which is below 4096.
    fn from(offset: PageOffset) -> u64 {
        offset.0 as u64
    }
}

impl From<PageOffset> for usize {
    ghost from_gives = { λ o n. (n ≡ o) × (n < 4096) };

    /// Returns the number of bytes, which is below 4096.
    fn from(offset: PageOffset) -> usize {
        offset.0 as usize
    }
}

/// A level of page tables. The root is of level four, and the entries of level one map 4KiB pages.
///
/// Levels are ordered by their numbers.
#[derive(Debug, Clone, Copy, PartialEq, Eq, PartialOrd, Ord, Hash)]
pub enum PageTableLevel {
    /// The level of a page table (PT).
    One = 1,
    /// The level of a page directory (PD).
    Two,
    /// The level of a page directory pointer table (PDPT).
    Three,
    /// The level of the root (PML4).
    Four,
}

impl PageTableLevel {
    /// Returns the level below: that of the tables that entries of this level name.
    ///
    /// Returns `None` only for level one, whose entries name no tables.
    ///
    /// Intel SDM vol. 3A, "Hierarchical Paging Structures: an Overview".
    pub fn next_lower_level(self) -> Option<PageTableLevel>
        ensures above_one { IsSome result ↔ (1 < level_number self) }
        ensures number { IfSome result (λ lower. level_number lower + 1 ≡ level_number self) }
    {
        match self {
            PageTableLevel::One => None,
            PageTableLevel::Two => Some(PageTableLevel::One),
            PageTableLevel::Three => Some(PageTableLevel::Two),
            PageTableLevel::Four => Some(PageTableLevel::Three),
        }
    }

    /// Returns the level above: that of the entries that name tables of this level.
    ///
    /// Returns `None` only for level four, the root's level.
    ///
    /// Intel SDM vol. 3A, "Hierarchical Paging Structures: an Overview".
    pub fn next_higher_level(self) -> Option<PageTableLevel>
        ensures below_four { IsSome result ↔ (level_number self < 4) }
        ensures number { IfSome result (λ higher. level_number higher ≡ level_number self + 1) }
    {
        match self {
            PageTableLevel::One => Some(PageTableLevel::Two),
            PageTableLevel::Two => Some(PageTableLevel::Three),
            PageTableLevel::Three => Some(PageTableLevel::Four),
            PageTableLevel::Four => None,
        }
    }

    /// Returns the alignment of the address range that a table of this level covers, which is also its size in bytes.
    ///
    /// Intel SDM vol. 3A, "Hierarchical Paging Structures: an Overview".
    pub fn table_address_space_alignment(self) -> u64
        ensures { result ≡ 2 ^ (12 + 9 * level_number self) }
    {
        table_span(self.number())
    }

    /// Returns the alignment of the address range that an entry of this level covers, which is also its size in bytes.
    ///
    /// Intel SDM vol. 3A, "Hierarchical Paging Structures: an Overview".
    pub fn entry_address_space_alignment(self) -> u64
        ensures { result ≡ 2 ^ (12 + 9 * (level_number self - 1)) }
    {
        table_span(self.number() - 1)
    }
    /// Returns the number of the level, from one to four.
    pub(crate) fn number(self) -> u64
        ensures value { result ≡ level_number self }
        ensures one_to_four { (1 ≤ result) × (result ≤ 4) }
    {
        self as u64
    }
}

/// Returns the number of bytes that a table of a level covers. Level zero stands for a 4KiB page.
///
/// Requires that the level is at most five.
fn table_span(level: u64) -> u64
    requires { level ≤ 5 }
    ensures { result ≡ 2 ^ (12 + 9 * level) }
{
    1 << (12 + 9 * level)
}
