//! Access to tables by the paths that lead to them, which all mappers have in common.
ghost use Rattle.std.specs.Prelude.{◌≡◌, ◌<◌, ℕ, Bool, if◌then◌else◌, List, length, Some, IsSome};
ghost use Rattle.std.specs.Borrow.{sem};
ghost use Rattle.x86_64_model.specs.Memory.{word};
ghost use Rattle.x86_64_model.specs.Hierarchy.{words};
ghost use Rattle.x86_64_mappers.specs.AccessLending.{LendsEntryBy, put_table, with_zeros, table_with};
ghost use Rattle.x86_64_tables.specs.Lending.{LendsTableBy};
ghost use Rattle.x86_64_mappers.specs.private.OwnedSteps.{SetsWord};
ghost use Rattle.x86_64_mappers.specs.Reached.{PathReaches};
ghost use Rattle.x86_64_tables.specs.PageTableFlags.{bits_of};

pub mod change;
pub mod change_range;
pub mod clean_up;
pub mod condition;
pub mod leaf;
pub mod map;
pub mod map_range;
pub mod parents;
pub mod path;
pub mod translate;

use x86_64_addr::index::PageTableIndex;
use x86_64_page::frame::PhysFrame;
use x86_64_page::page::Size4KiB;
use x86_64_tables::page_table::{PageTable, PageTableEntry, PageTableFlags};
use x86_64_tables::page_tables::Tables;

/// Access to the tables of a hierarchy. Each table is named by the path that leads to it and by its frame, and a
/// mapper uses whichever it needs.
///
/// A path has one index per level, from the root's level down. The empty path leads to the root's table.
pub trait TableAccess: Tables {
    /// The mapper with another table in a frame.
    ghost with_table: { Self → ℕ → List ℕ → Self };

    /// Whether the mapper reaches a table that no entry names.
    ghost reaches_unnamed: { Bool };

    /// Returns the root's frame.
    fn root(&self) -> PhysFrame<Size4KiB>
        ensures { result ≡ (Self.hierarchy self.now).layout.root };

    /// Returns the flags that the entry of a new table gets in addition to the parent flags.
    fn new_table_flags(&self) -> PageTableFlags
        ensures { bits_of result ≡ (Self.hierarchy self.now).layout.added_flags };

    /// Returns the table in the frame that a path leads to.
    ///
    /// Requires that the path leads to the table in this frame, through present entries that name tables, and that it
    /// has fewer indices than there are levels.
    fn table(&self, path: &[PageTableIndex], frame: PhysFrame<Size4KiB>) -> &PageTable
        requires reached { PathReaches (Self.hierarchy self.now) path.now frame }
        requires short { length path.now < (Self.hierarchy self.now).layout.levels }
        ensures { words (Self.hierarchy self.now) frame ≡ Some result.now };

    /// Lends the table in the frame that a path leads to.
    ///
    /// Requires that the path leads to the table in this frame, through present entries that name tables, and that it
    /// has fewer indices than there are levels.
    fn table_mut(&mut self, path: &[PageTableIndex], frame: PhysFrame<Size4KiB>) -> &mut PageTable
        requires reached { PathReaches (Self.hierarchy self.old) path.now frame }
        requires short { length path.now < (Self.hierarchy self.old).layout.levels }
        ensures* lends { sem 𝓛 (LendsTableBy Self.row self.entry result (Self.with_table self.old frame)) }
        ensures value { words (Self.hierarchy self.old) frame ≡ Some result.now };

    /// Clears the table in a frame and returns true, if the mapper reaches tables that no entry names. Otherwise
    /// returns false, and changes nothing.
    ///
    /// Requires that the frame's table is in the memory.
    fn clear_unnamed(&mut self, frame: PhysFrame<Size4KiB>) -> bool
        requires { IsSome (words (Self.hierarchy self.old) frame) }
        ensures result { result ≡ Self.reaches_unnamed }
        ensures cleared { Self.hierarchy self.new
            ≡ (if result then with_zeros (Self.hierarchy self.old) frame else Self.hierarchy self.old) };

    ghost puts: { (s : Self) (f : ℕ) (t : List ℕ) → IsSome (words (Self.Tables.hierarchy s) f) →
        (Self.Tables.hierarchy (with_table s f t)).memory ≡ put_table (Self.Tables.hierarchy s) f t };

    ghost keeps_layout: { (s : Self) (f : ℕ) (t : List ℕ) →
        (Self.Tables.hierarchy (with_table s f t)).layout ≡ (Self.Tables.hierarchy s).layout };

    ghost keeps_lent: { (s : Self) (f : ℕ) (t : List ℕ) →
        (Self.Tables.hierarchy (with_table s f t)).lent ≡ (Self.Tables.hierarchy s).lent };
}

/// Returns the entry at an index of the table that a path leads to.
fn entry<'m, M: TableAccess>(
    mapper: &'m M,
    path: &[PageTableIndex],
    frame: PhysFrame<Size4KiB>,
    index: PageTableIndex,
) -> &'m PageTableEntry
    requires reached { PathReaches (M.hierarchy mapper.now) path.now frame }
    requires short { length path.now < (M.hierarchy mapper.now).layout.levels }
    ensures value { result.now ≡ word (words (M.hierarchy mapper.now)) frame index }
    ensures index { index < 512 }
{
    &mapper.table(path, frame)[usize::from(index)]
}

/// Lends the entry at an index of the table that a path leads to.
fn entry_mut<'m, M: TableAccess>(
    mapper: &'m mut M,
    path: &[PageTableIndex],
    frame: PhysFrame<Size4KiB>,
    index: PageTableIndex,
) -> &'m mut PageTableEntry
    requires reached { PathReaches (M.hierarchy mapper.old) path.now frame }
    requires short { length path.now < (M.hierarchy mapper.old).layout.levels }
    ensures* lends { sem 𝓛 (LendsEntryBy M.row mapper.entry result
        (λ w. M.with_table mapper.old frame (table_with (M.hierarchy mapper.old) frame index w))) }
    ensures value { result.now ≡ word (words (M.hierarchy mapper.old)) frame index }
    ensures set { (w : ℕ) → SetsWord (M.hierarchy mapper.old) frame index w
        (M.hierarchy (M.with_table mapper.old frame (table_with (M.hierarchy mapper.old) frame index w))) }
    ensures index { index < 512 }
{
    &mut mapper.table_mut(path, frame)[usize::from(index)]
}
