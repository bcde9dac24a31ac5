//! Windows: the pages at which tables are reached if an entry of the root names the root itself.
//!
//! A page walk through that entry comes back to the root one level further down. So a window's indices begin with the
//! index of that entry, the recursive index. It is repeated once for each level by which the walk is to end early.
//! The indices that lead to the table follow. The root's window has only the recursive index, once per level.
ghost use Rattle.std.specs.Prelude.{◌≡◌, ◌+◌, ◌++◌, ◌-◌, ◌%◌, ◌<◌, ◌≤◌, length, replicate};
ghost use Rattle.x86_64_model.specs.Path.{path_at};
ghost use Rattle.x86_64_model.specs.Position.{page_path, position_count};
ghost use Rattle.x86_64_mappers.specs.Windows.{ShowsTable};

use crate::walk::path::EntryPath;
use x86_64_addr::addr::VirtAddrIn;
use x86_64_addr::index::PageTableIndex;
use x86_64_addr::level_count::LevelCount;
use x86_64_page::page::{NotGiantPageSize, Page57, PageIn, PageSize, Size4KiB};

/// An index times this number is the index five times in a row, with nine bits each. The window with the most levels
/// has it five times.
const FIVE_TIMES: u64 = 0x10_0804_0201;

/// Returns the window of the table of level three on the path of a page, which is reached through a recursive index.
///
/// The page walk of the window arrives at the table if the root's entry at this index names the root, and each entry on
/// the path down to the table names a table, all of them with `PRESENT` and without `HUGE_PAGE`.
pub fn p3_window<S: PageSize, L: LevelCount>(
    page: PageIn<S, L>,
    index: PageTableIndex,
) -> PageIn<Size4KiB, L>
    ensures path { page_path L.LEVELS result ≡ replicate 3 index ++ path_at L.LEVELS 4 page }
    ensures table { ShowsTable L.LEVELS index (path_at L.LEVELS 4 page) result }
{
    table_window(page, index, 3)
}

/// Returns the window of the table of level two on the path of a page, which is reached through a recursive index.
///
/// The page walk of the window arrives at the table if the root's entry at this index names the root, and each entry on
/// the path down to the table names a table, all of them with `PRESENT` and without `HUGE_PAGE`.
pub fn p2_window<S: NotGiantPageSize, L: LevelCount>(
    page: PageIn<S, L>,
    index: PageTableIndex,
) -> PageIn<Size4KiB, L>
    ensures path { page_path L.LEVELS result ≡ replicate 2 index ++ path_at L.LEVELS 3 page }
    ensures table { ShowsTable L.LEVELS index (path_at L.LEVELS 3 page) result }
{
    table_window(page, index, 2)
}

/// Returns the window of the table of level one on the path of a page, which is reached through a recursive index.
///
/// The page walk of the window arrives at the table if the root's entry at this index names the root, and each entry on
/// the path down to the table names a table, all of them with `PRESENT` and without `HUGE_PAGE`.
pub fn p1_window<L: LevelCount>(
    page: PageIn<Size4KiB, L>,
    index: PageTableIndex,
) -> PageIn<Size4KiB, L>
    ensures path { page_path L.LEVELS result ≡ replicate 1 index ++ path_at L.LEVELS 2 page }
    ensures table { ShowsTable L.LEVELS index (path_at L.LEVELS 2 page) result }
{
    table_window(page, index, 1)
}

/// Returns the window of the table of level four on the path of a page with five levels of page tables, which is
/// reached through a recursive index.
///
/// The page walk of the window arrives at the table if the root's entry at this index names the root, and each entry on
/// the path down to the table names a table, all of them with `PRESENT` and without `HUGE_PAGE`.
pub fn p4_window_57<S: PageSize>(page: Page57<S>, index: PageTableIndex) -> Page57<Size4KiB>
    ensures path { page_path 5 result ≡ replicate 4 index ++ path_at 5 5 page }
    ensures table { ShowsTable 5 index (path_at 5 5 page) result }
{
    table_window(page, index, 4)
}

/// Returns the window of the table of a level below the root's on the path of a page, which is reached through a
/// recursive index.
fn table_window<S: PageSize, L: LevelCount>(
    page: PageIn<S, L>,
    index: PageTableIndex,
    level: u64,
) -> PageIn<Size4KiB, L>
    requires { (1 ≤ level) × (level < L.LEVELS) }
    ensures path { page_path L.LEVELS result ≡ replicate level index ++ path_at L.LEVELS (level + 1) page }
    ensures table { ShowsTable L.LEVELS index (path_at L.LEVELS (level + 1) page) result }
{
    let path = EntryPath::to_level(page.start_address(), level + 1);
    PageIn::containing_address(window(index, path.indices()))
}

/// Returns the address of the window of the table that a path leads to.
pub(super) fn window<L: LevelCount>(index: PageTableIndex, path: &[PageTableIndex]) -> VirtAddrIn<L>
    requires { length path.now < L.LEVELS }
    ensures path { page_path L.LEVELS result ≡ replicate (L.LEVELS - length path.now) index ++ path.now }
    ensures aligned { result % 4096 ≡ 0 }
    ensures table { ShowsTable L.LEVELS index path.now result }
{
    VirtAddrIn::new_truncate(window_position::<L>(index, path))
}

/// Returns the window's position. A position is an address counted without the gap between the halves.
pub(super) fn window_position<L: LevelCount>(index: PageTableIndex, path: &[PageTableIndex]) -> u64
    requires { length path.now < L.LEVELS }
    ensures path { page_path L.LEVELS result ≡ replicate (L.LEVELS - length path.now) index ++ path.now }
    ensures aligned { result % 4096 ≡ 0 }
    ensures inside { result < position_count L.LEVELS }
{
    // Bits above those of a position are dropped, so the index may be repeated more often than needed.
    let mut number = u64::from(index) * FIVE_TIMES;
    for index in path {
        number = number.wrapping_mul(512).wrapping_add(u64::from(*index));
    }
    number.wrapping_mul(Size4KiB::SIZE) % L::POSITION_COUNT
}
