//! Clean up of page tables of five levels.
ghost use Rattle.std.specs.Prelude.{◌≡◌, ◌+◌};

use crate::calls::{self, TableAccess};
use x86_64_addr::addr::VirtAddr57;
use x86_64_page::page::{Page57, PageRangeInclusive57, Size4KiB};
use x86_64_tables::frame_alloc::FrameDeallocator;
use x86_64_tables::page_tables::PageTables57;

/// Removes empty tables of a hierarchy of five levels, and returns their frames to a deallocator.
///
/// A mapper gets these calls by an implementation of [`TableAccess`].
pub trait CleanUp57: TableAccess + PageTables57 {
    ghost use Rattle.x86_64_mappers.specs.CleanUps.{deallocator_store, MayCleanUpInto, CleansUpInto};
    ghost use Rattle.x86_64_mappers.specs.CleanUpsBelowRoot.{CleansUpBelowRoot};

    /// Removes the empty tables of the whole address space, in both halves, and returns their frames to the
    /// deallocator, with all words 0.
    ///
    /// A table other than the root is removed if and only if two things hold. Each entry on its path is present and
    /// lacks `HUGE_PAGE`. And each used entry below it is present and names a table. The removed table's entry becomes
    /// unused. The tables below a table are removed before it, and otherwise tables are removed in order of index.
    ///
    /// Requires that the hierarchy is valid, and that the deallocator serves the frame of each table but the root and
    /// doesn't hold it.
    final fn clean_up<D: FrameDeallocator<Size4KiB>>(&mut self, frame_deallocator: &mut D)
        requires { MayCleanUpInto (Self.hierarchy self.old)
            (deallocator_store D.FrameDeallocator frame_deallocator.old) }
        ensures { CleansUpInto (Self.hierarchy self.old)
            (deallocator_store D.FrameDeallocator frame_deallocator.old) 0 0x1ff_ffff_ffff_ffff
            (Self.hierarchy self.new) (deallocator_store D.FrameDeallocator frame_deallocator.new) }
    {
        calls::clean_up(self, frame_deallocator);
    }

    /// Removes the empty tables of a range of pages, and returns their frames to the deallocator, with all words 0.
    ///
    /// A table other than the root is removed if and only if two things hold. Each entry on its path is present,
    /// lacks `HUGE_PAGE` and spans an address of the range. And each used entry below it is present, names a table and
    /// spans an address of the range. The removed table's entry becomes unused. The tables below a table are removed
    /// before it, and otherwise tables are removed in order of index. An empty range removes nothing.
    ///
    /// Requires that the hierarchy is valid, and that the deallocator serves the frame of each table but the root and
    /// doesn't hold it.
    final fn clean_up_addr_range<D: FrameDeallocator<Size4KiB>>(
        &mut self,
        range: PageRangeInclusive57<Size4KiB>,
        frame_deallocator: &mut D,
    )
        requires { MayCleanUpInto (Self.hierarchy self.old)
            (deallocator_store D.FrameDeallocator frame_deallocator.old) }
        ensures { CleansUpInto (Self.hierarchy self.old)
            (deallocator_store D.FrameDeallocator frame_deallocator.old) range.start (range.end + 0xfff)
            (Self.hierarchy self.new) (deallocator_store D.FrameDeallocator frame_deallocator.new) }
    {
        calls::clean_up_range(self, range, frame_deallocator);
    }

    /// Removes the empty tables of a range of pages but none that an entry of the root names, and returns their frames
    /// to the deallocator, with all words 0.
    ///
    /// It is for entries that several roots have in common, as those of a kernel in each process: they stay, and so no
    /// root names a freed frame. What [`clean_up_addr_range`](CleanUp57::clean_up_addr_range) removes is removed, but
    /// for the tables that the root's entries name: these stay, empty or not. The root's entries stay, and so does the
    /// result of each page walk outside the recursive window. An empty range removes nothing.
    ///
    /// Requires that the hierarchy is valid, and that the deallocator serves the frame of each table but the root and
    /// doesn't hold it.
    final fn clean_up_below_root<D: FrameDeallocator<Size4KiB>>(
        &mut self,
        range: PageRangeInclusive57<Size4KiB>,
        frame_deallocator: &mut D,
    )
        requires { MayCleanUpInto (Self.hierarchy self.old)
            (deallocator_store D.FrameDeallocator frame_deallocator.old) }
        ensures { CleansUpBelowRoot (Self.hierarchy self.old)
            (deallocator_store D.FrameDeallocator frame_deallocator.old) range.start (range.end + 0xfff)
            (Self.hierarchy self.new) (deallocator_store D.FrameDeallocator frame_deallocator.new) }
    {
        calls::clean_up_below_root(self, range, frame_deallocator);
    }
}

impl<M: TableAccess + PageTables57> CleanUp57 for M {}
