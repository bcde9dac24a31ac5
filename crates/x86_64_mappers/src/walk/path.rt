//! Paths: the indices from the root to an entry.
ghost use Rattle.std.specs.Prelude.{◌≡◌, ◌+◌, ◌≤◌, length};
ghost use Rattle.x86_64_model.specs.Hierarchy.{path_of};
ghost use Rattle.x86_64_model.specs.Path.{path_at};
ghost use Rattle.x86_64_model.specs.Position.{page_path};

use std::marker::Model;
use x86_64_addr::addr::VirtAddrIn;
use x86_64_addr::index::PageTableIndex;
use x86_64_addr::level_count::LevelCount;
use x86_64_page::page::{PageIn, PageSize};
use x86_64_tables::page_tables::TablesIn;

/// The length of the longest path, which has one index per level of tables that a processor supports.
pub const MOST_LEVELS: usize = 5;

/// The path to an entry, with one index per level from the root's level down to that of the entry.
#[derive(Drop)]
pub struct EntryPath {
    /// The path's indices, followed by unrelated ones.
    indices: [PageTableIndex; MOST_LEVELS],
    length: usize,
}

impl Model for EntryPath {
    ghost use Rattle.std.specs.Prelude.{◌≤◌, ℕ, List, take};

    ghost Value = { List ℕ };

    ghost view = { λ path. take path.length path.indices };

    ghost invariant = { λ path. path.length ≤ 5 };
}

impl EntryPath {
    /// Returns the path to the entry of a level for an address.
    pub fn to_level<L: LevelCount>(addr: VirtAddrIn<L>, level: u64) -> EntryPath
        requires { (1 ≤ level) × (level ≤ L.LEVELS) }
        ensures path { result ≡ path_at L.LEVELS level addr }
        ensures levels { length result + level ≡ L.LEVELS + 1 }
    {
        let indices = [
            addr.table_index(L::LEVELS),
            addr.table_index(L::LEVELS - 1),
            addr.table_index(L::LEVELS - 2),
            addr.table_index(L::LEVELS - 3),
            addr.table_index(1),
        ];
        EntryPath {
            indices,
            length: (L::LEVELS + 1 - level) as usize,
        }
    }

    /// Returns the indices, beginning with that of the root's level.
    pub fn indices(&self) -> &[PageTableIndex]
        ensures { result.now ≡ self.now }
    {
        &self.indices[..self.length]
    }
}

/// Returns the path to the entry of a page.
pub fn path_of_page<M: TablesIn<L>, S: PageSize, L: LevelCount>(
    mapper: &M,
    page: PageIn<S, L>,
) -> EntryPath
    ensures path { result ≡ path_of (M.hierarchy mapper.now) S.LEVEL page }
    ensures levels { length result + S.LEVEL ≡ (M.hierarchy mapper.now).layout.levels + 1 }
{
    EntryPath::to_level(page.start_address(), S::LEVEL)
}

/// Returns the path to the entry of level one for an address.
#[tactic(auto, using(crate::proofs::Way::EntryPaths::to_the_last))]
pub fn path_of_address<M: TablesIn<L>, L: LevelCount>(mapper: &M, addr: VirtAddrIn<L>) -> EntryPath
    ensures path { result ≡ page_path (M.hierarchy mapper.now).layout.levels addr }
    ensures levels { length result ≡ (M.hierarchy mapper.now).layout.levels }
{
    EntryPath::to_level(addr, 1)
}
