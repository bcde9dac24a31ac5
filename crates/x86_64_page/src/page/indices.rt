//! Pages by the indices of their paths.
ghost use Rattle.std.specs.Prelude.{◌≡◌, ◌+◌, ◌*◌};
ghost use Rattle.x86_64_addr.specs.Position.{span, index};

use crate::page::{Page, Size1GiB, Size2MiB, Size4KiB};
use x86_64_addr::addr::VirtAddr;
use x86_64_addr::index::PageTableIndex;

impl Page<Size4KiB> {
    /// Returns the 4KiB page with the given indices, from level four down.
    pub fn from_page_table_indices(
        p4_index: PageTableIndex,
        p3_index: PageTableIndex,
        p2_index: PageTableIndex,
        p1_index: PageTableIndex,
    ) -> Self
        ensures start { result
            ≡ p4_index * span 4 + p3_index * span 3 + p2_index * span 2 + p1_index * span 1 }
        ensures level_four { index 4 result ≡ p4_index }
        ensures level_three { index 3 result ≡ p3_index }
        ensures level_two { index 2 result ≡ p2_index }
        ensures level_one { index 1 result ≡ p1_index }
    {
        let p4_start = u64::from(p4_index) << 39;
        let p3_start = u64::from(p3_index) << 30;
        let p2_start = u64::from(p2_index) << 21;
        let p1_start = u64::from(p1_index) << 12;
        let position = p4_start | (p3_start | (p2_start | p1_start));
        Page::from_start_address_unchecked(VirtAddr::new_truncate(position))
    }
}

impl Page<Size2MiB> {
    /// Returns the 2MiB page with the given indices, from level four down.
    pub fn from_page_table_indices_2mib(
        p4_index: PageTableIndex,
        p3_index: PageTableIndex,
        p2_index: PageTableIndex,
    ) -> Self
        ensures start { result ≡ p4_index * span 4 + p3_index * span 3 + p2_index * span 2 }
        ensures level_four { index 4 result ≡ p4_index }
        ensures level_three { index 3 result ≡ p3_index }
        ensures level_two { index 2 result ≡ p2_index }
    {
        let zero = PageTableIndex::new(0);
        let first = Page::from_page_table_indices(p4_index, p3_index, p2_index, zero);
        Page::from_start_address_unchecked(first.start_address())
    }
}

impl Page<Size1GiB> {
    /// Returns the 1GiB page with the given indices, from level four down.
    pub fn from_page_table_indices_1gib(p4_index: PageTableIndex, p3_index: PageTableIndex) -> Self
        ensures start { result ≡ p4_index * span 4 + p3_index * span 3 }
        ensures level_four { index 4 result ≡ p4_index }
        ensures level_three { index 3 result ≡ p3_index }
    {
        let zero = PageTableIndex::new(0);
        let first = Page::from_page_table_indices_2mib(p4_index, p3_index, zero);
        Page::from_start_address_unchecked(first.start_address())
    }
}
