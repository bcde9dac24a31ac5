//! Ranges of pages, in order of position: the number of an address counted without the gap in the middle of the address space.
ghost use Rattle.std.specs.Prelude.{◌≡◌, ℕ, ◌%◌};

use crate::page::{Page, Page57, PageIn, PageSize, Size2MiB, Size4KiB};
use crate::range::{Block, BlockRange, BlockRangeInclusive};
use x86_64_addr::addr::VirtAddrIn;
use x86_64_addr::level_count::LevelCount;

/// The pages from `start` up to but excluding `end`, by position.
pub type PageRange<S = Size4KiB> = BlockRange<Page<S>>;

/// The pages from `start` up to and including `end`, by position.
pub type PageRangeInclusive<S = Size4KiB> = BlockRangeInclusive<Page<S>>;

/// The pages from `start` up to and including `end`, by position, with five levels of page tables.
pub type PageRangeInclusive57<S = Size4KiB> = BlockRangeInclusive<Page57<S>>;

impl<S: PageSize, L: LevelCount> Block for PageIn<S, L> {
    ghost use Rattle.x86_64_page.specs.Blocks.{limit_of_levels, size_of_level};

    ghost SIZE = { S.SIZE };

    ghost LIMIT = { L.POSITION_COUNT };

    ghost place = { λ page. page };

    const SIZE: u64 = S::SIZE;

    const LIMIT: u64 = L::POSITION_COUNT;

    const RANGE: &'static str = if L::LEVELS == 4 {
        "PageRange"
    } else {
        "PageRange57"
    };

    const RANGE_INCLUSIVE: &'static str = if L::LEVELS == 4 {
        "PageRangeInclusive"
    } else {
        "PageRangeInclusive57"
    };

    fn place(&self) -> u64 {
        self.start_address.position()
    }

    fn at(start: u64) -> Self {
        PageIn::from_start_address_unchecked(VirtAddrIn::new_truncate(start))
    }

    ghost known_size = { size_of_level S.SIZE S.LEVEL S.low S.high S.size };

    ghost known_limit = { limit_of_levels L.LEVELS L.POSITION_COUNT L.known_levels L.known_count };
}

impl<S: PageSize> Page<S> {
    /// Returns the pages from `start` up to but excluding `end`. The range continues after the gap in the middle of the address
    /// space, and is empty unless `start` lies before `end`.
    pub fn range(start: Self, end: Self) -> PageRange<S>
        ensures start { result.start ≡ start }
        ensures end { result.end ≡ end }
    {
        PageRange { start, end }
    }
}

impl<S: PageSize, L: LevelCount> PageIn<S, L> {
    /// Returns the pages from `start` up to and including `end`. The range continues after the gap in the middle of the address
    /// space, and is empty if `start` lies after `end`.
    pub fn range_inclusive(start: Self, end: Self) -> BlockRangeInclusive<Self>
        ensures start { result.start ≡ start }
        ensures end { result.end ≡ end }
    {
        BlockRangeInclusive { start, end }
    }
}

impl BlockRange<Page<Size2MiB>> {
    /// Returns the 4KiB pages that make up the pages of the range.
    pub fn as_4kib_page_range(self) -> PageRange<Size4KiB>
        ensures start { result.start ≡ self.start }
        ensures end { result.end ≡ self.end }
    {
        PageRange {
            start: Page::from_start_address_unchecked(self.start.start_address()),
            end: Page::from_start_address_unchecked(self.end.start_address()),
        }
    }
}
