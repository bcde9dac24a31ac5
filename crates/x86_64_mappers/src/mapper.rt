//! Translates addresses and maps pages, over any mapper's access to its tables.
ghost use Rattle.std.specs.Prelude.{◌≡◌, ◌<◌, ◌^◌, ◌↔◌, true, List, Some, option_map, fold, length, IsTrue, IfOk, IfErr};
ghost use Rattle.x86_64_model.specs.Hierarchy.{Valid, walk, translation};
ghost use Rattle.x86_64_model.specs.Translation.{address_of};
ghost use Rattle.x86_64_tables.specs.PageTableFlags.{bits_of};

mod clean_up;
mod clean_up57;
mod mapper57;
mod translate57;

use crate::calls;
pub use crate::calls::{FrameSink, MapRangeError, MapRangeError57, TableAccess};
pub use clean_up::CleanUp;
pub use clean_up57::CleanUp57;
pub use mapper57::{Mapper57, MapperAllSizes57};
pub use translate57::Translate57;
use x86_64_addr::addr::{PhysAddr, VirtAddr};
use x86_64_page::frame::PhysFrame;
use x86_64_page::page::{Page, PageSize, Size1GiB, Size2MiB, Size4KiB};
use x86_64_tables::errors::{FlagUpdateError, MapToError, TranslateError, UnmapError};
use x86_64_tables::frame_alloc::FrameAllocator;
use x86_64_tables::page_table::PageTableFlags;
use x86_64_tables::page_tables::PageTables;
use x86_64_tables::tokens::{MapperFlush, MapperFlushAll, MapperFlushRange};
use x86_64_tables::translation::TranslateResult;

/// Translates virtual addresses.
pub trait Translate: TableAccess + PageTables {
    ghost use Rattle.x86_64_tables.specs.Translations.{translation_of, reaches};

    /// Returns what an address is mapped to.
    ///
    /// The address is `NotMapped` if an entry of level four, three or two on its path lacks `PRESENT`. With
    /// `HUGE_PAGE`, an entry of level three maps a page of 1GiB, and an entry of level two a page of 2MiB. An entry
    /// of level one maps a page of 4KiB unless it is unused, even without `PRESENT`. The page walk succeeds if and
    /// only if the flags in the result have `PRESENT`, and arrives at the address of the result.
    ///
    /// Intel SDM vol. 3A, "Linear-Address Translation with 4-Level Paging and 5-Level Paging".
    ///
    /// Requires that the hierarchy is valid.
    final fn translate(&self, addr: VirtAddr) -> TranslateResult
        requires { Valid (Self.hierarchy self.now) }
        ensures answer { translation_of result ≡ Some (translation (Self.hierarchy self.now) addr) }
        ensures walk { reaches result
            ≡ option_map (λ walked. walked.address) (walk (Self.hierarchy self.now) addr) }
    {
        calls::translate(self, addr)
    }

    /// Returns the physical address that an address is mapped to, `PRESENT` or not: the frame's start plus the
    /// offset. Returns `None` if [`translate`](Self::translate) finds no mapping.
    ///
    /// Requires that the hierarchy is valid.
    final fn translate_addr(&self, addr: VirtAddr) -> Option<PhysAddr>
        requires { Valid (Self.hierarchy self.now) }
        ensures { result ≡ address_of (translation (Self.hierarchy self.now) addr) }
    {
        calls::translate_addr(self, addr)
    }
}

impl<M: TableAccess + PageTables> Translate for M {}

/// Maps and unmaps pages of one size, and changes the flags of the entries on their paths.
///
/// The parents of a page are the entries on its path from the root down to the one above the page's own.
pub trait Mapper<S: PageSize>: TableAccess + PageTables {
    ghost use Rattle.x86_64_model.specs.Call.{Reply};
    ghost use Rattle.x86_64_model.specs.Entry.{no_address, present};
    ghost use Rattle.x86_64_model.specs.Hierarchy.{allows, Does, MayCall, MayMap, SupplyFits};
    ghost use Rattle.x86_64_model.specs.Call.{MapTo, MapToWithTableFlags, IdentityMap, Unmap, UpdateFlags, SetFlags};
    ghost use Rattle.x86_64_mappers.specs.RangeChanges.{IsRange, frames_done, UnmapsEach, UpdatesEach};
    ghost use Rattle.x86_64_mappers.specs.Ranges.{MayMapRange, range_of, MapsRange};
    ghost use Rattle.x86_64_mappers.specs.PageAnswers.{allows_page, translated_page, DoesFlags, ArrivesIfPresent};
    ghost use Rattle.x86_64_mappers.specs.Supplies.{MapsFrom, supply_of};
    ghost use Rattle.x86_64_tables.specs.FlushRecorder.{flush_range};
    ghost use Rattle.x86_64_tables.specs.MapperAnswers.{map_answer, unmap_answer, translate_answer};

    /// Maps a page to a frame with these flags, and `HUGE_PAGE` for 2MiB and 1GiB.
    ///
    /// From level four down, each missing table gets the next frame of the allocator. The frame is cleared, and its new
    /// entry gets the parent flags and those that the mapper adds (none, or `PRESENT` and `WRITABLE` with a recursive
    /// index). A parent that is already used gets the parent flags added. The frames may hold any words.
    ///
    /// Intel SDM vol. 3A, "Hierarchical Paging Structures: an Overview".
    ///
    /// Requires that the hierarchy is valid, that the frames that the allocator can hand out are distinct and in the
    /// memory, and neither frame 0 nor the frame of a table, and that [`map_allowed`](Self::map_allowed) returns true.
    ///
    /// # Errors
    ///
    /// - `ParentEntryHugePage` if a parent has `HUGE_PAGE`.
    /// - Otherwise `FrameAllocationFailed` if the allocator has too few frames.
    /// - Otherwise `PageAlreadyMapped` with the given frame if the page's entry is used.
    ///
    /// The changes made before the refusal remain: new tables, and flags added to parents.
    ///
    /// Even after a refused map, each page walk that succeeded before still arrives at its address. It loses no right,
    /// and gains none that the parent flags lack.
    final fn map_to_with_table_flags<A: FrameAllocator<Size4KiB>>(
        &mut self,
        page: Page<S>,
        frame: PhysFrame<S>,
        flags: PageTableFlags,
        parent_flags: PageTableFlags,
        frame_allocator: &mut A,
    ) -> Result<MapperFlush<S>, MapToError<S>>
        requires { MayMap (Self.hierarchy self.old) (A.supply frame_allocator.old)
            (MapToWithTableFlags S.LEVEL page frame (bits_of flags) (bits_of parent_flags)) }
        ensures does { MapsFrom (Self.hierarchy self.old) (supply_of A.FrameAllocator frame_allocator.old)
            (MapToWithTableFlags S.LEVEL page frame (bits_of flags) (bits_of parent_flags))
            (map_answer frame result) (Self.hierarchy self.new)
            (supply_of A.FrameAllocator frame_allocator.new) }
        ensures page { IfOk result (λ flush. flush ≡ page) }
    {
        calls::map_to_with_table_flags(self, page, frame, flags, parent_flags, frame_allocator)
    }

    /// Maps a page to a frame with these flags, and `HUGE_PAGE` for 2MiB and 1GiB. The parent flags are those of
    /// `PRESENT`, `WRITABLE` and `USER_ACCESSIBLE` that the flags have.
    ///
    /// From level four down, each missing table gets the next frame of the allocator. The frame is cleared, and its new
    /// entry gets the parent flags and those that the mapper adds (none, or `PRESENT` and `WRITABLE` with a recursive
    /// index). A parent that is already used gets the parent flags added. The frames may hold any words.
    ///
    /// If it succeeds with `PRESENT`, the page walk of each address of the page arrives at the frame's start plus the
    /// offset in the page. It has the right to write if and only if `WRITABLE` is among the flags, and that of a user
    /// if and only if `USER_ACCESSIBLE` is.
    ///
    /// Intel SDM vol. 3A, "Hierarchical Paging Structures: an Overview".
    ///
    /// Requires that the hierarchy is valid, that the frames that the allocator can hand out are distinct and in the
    /// memory, and neither frame 0 nor the frame of a table, and that [`map_allowed`](Self::map_allowed) returns true
    /// for the flags and these parent flags. This is so if the flags have `PRESENT` and no address bits, those of a
    /// 4KiB page lack `HUGE_PAGE`, and the page's index of level four isn't the recursive index.
    ///
    /// # Errors
    ///
    /// - `ParentEntryHugePage` if a parent has `HUGE_PAGE`.
    /// - Otherwise `FrameAllocationFailed` if the allocator has too few frames.
    /// - Otherwise `PageAlreadyMapped` with the given frame if the page's entry is used.
    ///
    /// The changes made before the refusal remain: new tables, and flags added to parents.
    ///
    /// Even after a refused map, each page walk that succeeded before still arrives at its address. It loses no right,
    /// and gains none that the parent flags lack.
    final fn map_to<A: FrameAllocator<Size4KiB>>(
        &mut self,
        page: Page<S>,
        frame: PhysFrame<S>,
        flags: PageTableFlags,
        frame_allocator: &mut A,
    ) -> Result<MapperFlush<S>, MapToError<S>>
        requires { MayMap (Self.hierarchy self.old) (A.supply frame_allocator.old)
            (MapTo S.LEVEL page frame (bits_of flags)) }
        ensures does { MapsFrom (Self.hierarchy self.old) (supply_of A.FrameAllocator frame_allocator.old)
            (MapTo S.LEVEL page frame (bits_of flags)) (map_answer frame result)
            (Self.hierarchy self.new) (supply_of A.FrameAllocator frame_allocator.new) }
        ensures page { IfOk result (λ flush. flush ≡ page) }
        ensures arrives { IfOk result (λ _.
            ArrivesIfPresent (Self.hierarchy self.new) S.SIZE page frame (bits_of flags)) }
    {
        calls::map_to(self, page, frame, flags, frame_allocator)
    }

    /// Maps the page that starts at a frame's own address to the frame with these flags, as [`map_to`](Self::map_to)
    /// does for this page. The parent flags are those of `PRESENT`, `WRITABLE` and `USER_ACCESSIBLE` that the flags
    /// have.
    ///
    /// If it succeeds with `PRESENT`, the page walk of each address of the page arrives at the same physical address.
    ///
    /// Requires that the hierarchy is valid, that the frames that the allocator can hand out are distinct and in the
    /// memory, and neither frame 0 nor the frame of a table, that [`map_allowed`](Self::map_allowed) returns true for
    /// this page, the flags and these parent flags, and that the frame starts below 2^47, in the lower half of the
    /// address space.
    ///
    /// # Errors
    ///
    /// - `ParentEntryHugePage` if a parent has `HUGE_PAGE`.
    /// - Otherwise `FrameAllocationFailed` if the allocator has too few frames.
    /// - Otherwise `PageAlreadyMapped` with the given frame if the page's entry is used.
    ///
    /// The changes made before the refusal remain: new tables, and flags added to parents.
    final fn identity_map<A: FrameAllocator<Size4KiB>>(
        &mut self,
        frame: PhysFrame<S>,
        flags: PageTableFlags,
        frame_allocator: &mut A,
    ) -> Result<MapperFlush<S>, MapToError<S>>
        requires low { frame < 2 ^ 47 }
        requires may { MayMap (Self.hierarchy self.old) (A.supply frame_allocator.old)
            (MapTo S.LEVEL frame frame (bits_of flags)) }
        ensures does { MapsFrom (Self.hierarchy self.old) (supply_of A.FrameAllocator frame_allocator.old)
            (IdentityMap S.LEVEL frame (bits_of flags)) (map_answer frame result)
            (Self.hierarchy self.new) (supply_of A.FrameAllocator frame_allocator.new) }
        ensures page { IfOk result (λ flush. flush ≡ frame) }
        ensures arrives { IfOk result (λ _.
            ArrivesIfPresent (Self.hierarchy self.new) S.SIZE frame frame (bits_of flags)) }
    {
        calls::identity_map(self, frame, flags, frame_allocator)
    }

    /// Returns true if a page may be mapped with these flags and parent flags.
    ///
    /// Neither may have address bits. `HUGE_PAGE` may not be in the parent flags, nor in the flags of a 4KiB page.
    /// The parent flags must have `PRESENT`, unless every parent has it, down to and including the first that also
    /// has `HUGE_PAGE`. The page's index of level four must not be the recursive index.
    ///
    /// Requires that the hierarchy is valid.
    final fn map_allowed(
        &self,
        page: Page<S>,
        flags: PageTableFlags,
        parent_flags: PageTableFlags,
    ) -> bool
        requires { Valid (Self.hierarchy self.now) }
        ensures { result
            ≡ allows_page (Self.hierarchy self.now) S.LEVEL page (bits_of flags) (bits_of parent_flags) }
    {
        calls::map_allowed(self, page, flags, parent_flags)
    }

    /// Unmaps a page, and returns the frame that it was mapped to. Tables that become empty stay.
    ///
    /// Requires that the hierarchy is valid, and that the page's index of level four isn't the recursive index.
    ///
    /// # Errors
    ///
    /// The first parent that lacks `PRESENT` or has `HUGE_PAGE` refuses the call: with `PageNotMapped` if it lacks
    /// `PRESENT`, otherwise with `ParentEntryHugePage`. After the parents, the page's own entry refuses it:
    ///
    /// - with `PageNotMapped` if it lacks `PRESENT`;
    /// - otherwise with `ParentEntryHugePage` if it has `HUGE_PAGE` and the page is one of 4KiB, or lacks it and the
    ///   page is one of 2MiB or 1GiB;
    /// - otherwise with `InvalidFrameAddress` if its address isn't a multiple of the page's size.
    ///
    /// A refused call changes nothing.
    final fn unmap(&mut self, page: Page<S>) -> Result<(PhysFrame<S>, MapperFlush<S>), UnmapError>
        requires { MayCall (Self.hierarchy self.old) (Unmap S.LEVEL page) }
        ensures does { Does (Self.hierarchy self.old) (Unmap S.LEVEL page)
            (unmap_answer result) (Self.hierarchy self.new) }
        ensures page { IfOk result (λ unmapped. unmapped.1 ≡ page) }
    {
        calls::unmap(self, page)
    }

    /// Sets the flags of a page's own entry, and `HUGE_PAGE` for 2MiB and 1GiB. The entry keeps its frame.
    ///
    /// Requires that the hierarchy is valid, that the flags have no address bits, and that the page's index of level
    /// four isn't the recursive index.
    ///
    /// # Errors
    ///
    /// - `PageNotMapped` or `ParentEntryHugePage` if a parent lacks `PRESENT` or has `HUGE_PAGE`, as for
    ///   [`unmap`](Self::unmap).
    /// - Otherwise `PageNotMapped` if the page's own entry is unused, or lacks `HUGE_PAGE` for 2MiB and 1GiB.
    ///
    /// A refused call changes nothing.
    final fn update_flags(
        &mut self,
        page: Page<S>,
        flags: PageTableFlags,
    ) -> Result<MapperFlush<S>, FlagUpdateError>
        requires { MayCall (Self.hierarchy self.old) (UpdateFlags S.LEVEL page (bits_of flags)) }
        ensures does { DoesFlags (Self.hierarchy self.old) (UpdateFlags S.LEVEL page (bits_of flags))
            result (Self.hierarchy self.new) }
        ensures page { IfOk result (λ flush. flush ≡ page) }
    {
        calls::update_flags(self, page, flags)
    }

    /// Maps a number of pages, from a page on, to as many frames, from a frame on. Does what
    /// [`map_to_with_table_flags`](Self::map_to_with_table_flags) of each page in turn would do, up to the first one
    /// that is refused, but looks up each table only once. Does nothing for no pages.
    ///
    /// Returns one token for all pages.
    ///
    /// Requires that the hierarchy is valid, that the frames that the allocator can hand out are distinct and in the
    /// memory, and neither frame 0 nor the frame of a table, that all pages and frames of the range exist, and that
    /// each page may be mapped, as [`map_allowed`](Self::map_allowed) says. If the parent flags have `PRESENT`,
    /// [`map_range_allowed`](Self::map_range_allowed) tests the conditions of the pages and frames of the range.
    ///
    /// # Errors
    ///
    /// The reason of the first refusal (`ParentEntryHugePage`, `FrameAllocationFailed` or `PageAlreadyMapped`), with
    /// the token for the pages before the refused one, which stay mapped. The changes that the refused map made on its
    /// way stay too, as for a single map.
    ///
    /// Even then, each page walk that succeeded before still arrives at its address. It loses no right, and gains none
    /// that the parent flags lack.
    final fn map_range<A: FrameAllocator<Size4KiB>>(
        &mut self,
        page: Page<S>,
        count: u64,
        frame: PhysFrame<S>,
        flags: PageTableFlags,
        parent_flags: PageTableFlags,
        frame_allocator: &mut A,
    ) -> Result<MapperFlushRange<S>, MapRangeError<S>>
        requires fits { SupplyFits (Self.hierarchy self.old) (A.supply frame_allocator.old) }
        requires may { MayMapRange (Self.hierarchy self.old)
            (range_of S.LEVEL page frame (bits_of flags) (bits_of parent_flags)) count }
        ensures maps { MapsRange (Self.hierarchy self.old) (supply_of A.FrameAllocator frame_allocator.old)
            (range_of S.LEVEL page frame (bits_of flags) (bits_of parent_flags)) count result
            (Self.hierarchy self.new) (supply_of A.FrameAllocator frame_allocator.new) }
        ensures pages { IfOk result (λ flush. flush ≡ flush_range page count) }
        ensures first { IfErr result (λ error. error.mapped.page ≡ page) }
    {
        calls::map_range(
            self,
            page,
            count,
            frame,
            flags,
            parent_flags,
            frame_allocator,
        )
    }

    /// Returns true if the parent flags have `PRESENT`, and a number of pages, from a page on, may be mapped to the
    /// frames from a frame on: all pages and frames exist, and each page may be mapped with these flags and parent
    /// flags, as [`map_allowed`](Self::map_allowed) says. Looks at the first and the last page alone, and at no table.
    final fn map_range_allowed(
        &self,
        page: Page<S>,
        count: u64,
        frame: PhysFrame<S>,
        flags: PageTableFlags,
        parent_flags: PageTableFlags,
    ) -> bool
        ensures { IsTrue result ↔ (present (bits_of parent_flags) ≡ true)
            × MayMapRange (Self.hierarchy self.now)
            (range_of S.LEVEL page frame (bits_of flags) (bits_of parent_flags)) count }
    {
        calls::map_range_allowed(self, page, count, frame, flags, parent_flags)
    }

    /// Unmaps a number of pages, from a page on, and passes the frames that they were mapped to on to a sink, in order.
    /// Does what [`unmap`](Self::unmap) of each page in turn would do, but looks up each table only once, and passes
    /// over all pages below a missing one at once. A page whose `unmap` would be refused, for whatever reason, is
    /// passed over and stays as it is. Does nothing for no pages.
    ///
    /// Returns one token for all pages, those that were passed over too.
    ///
    /// Requires that the hierarchy is valid, and that [`range_allowed`](Self::range_allowed) returns true.
    final fn unmap_range<K: FrameSink>(
        &mut self,
        page: Page<S>,
        count: u64,
        sink: &mut K,
    ) -> MapperFlushRange<S>
        requires valid { Valid (Self.hierarchy self.old) }
        requires pages { IsRange (Self.hierarchy self.old) S.LEVEL page count }
        ensures does { (replies : List Reply)
            × UnmapsEach (Self.hierarchy self.old) S.LEVEL page count replies (Self.hierarchy self.new)
            × (sink.new ≡ fold K.with_frame sink.old (frames_done replies)) }
        ensures pages { result ≡ flush_range page count }
    {
        calls::unmap_range(self, page, count, sink)
    }

    /// Sets the flags of a number of pages, from a page on, and `HUGE_PAGE` for 2MiB and 1GiB. Does what
    /// [`update_flags`](Self::update_flags) of each page in turn would do, but looks up each table only once, and
    /// passes over all pages below a missing one at once. A page whose `update_flags` would be refused, for whatever
    /// reason, is passed over and stays as it is. Does nothing for no pages.
    ///
    /// Returns the number of pages whose flags were set, and one token for all pages, those that were passed over too.
    ///
    /// Requires that the hierarchy is valid, that [`range_allowed`](Self::range_allowed) returns true, and that the
    /// flags have no address bits.
    final fn update_flags_range(
        &mut self,
        page: Page<S>,
        count: u64,
        flags: PageTableFlags,
    ) -> (u64, MapperFlushRange<S>)
        requires valid { Valid (Self.hierarchy self.old) }
        requires pages { IsRange (Self.hierarchy self.old) S.LEVEL page count }
        requires flags { no_address (bits_of flags) ≡ true }
        ensures does { (replies : List Reply)
            × UpdatesEach (Self.hierarchy self.old) S.LEVEL page (bits_of flags) count
            replies (Self.hierarchy self.new)
            × (result.0 ≡ length (frames_done replies)) }
        ensures pages { result.1 ≡ flush_range page count }
    {
        calls::update_flags_range(self, page, count, flags)
    }

    /// Returns true if a number of pages, from a page on, exist and are outside the recursive window: no page's index
    /// of level four is the recursive index.
    final fn range_allowed(&self, page: Page<S>, count: u64) -> bool
        ensures { IsTrue result ↔ IsRange (Self.hierarchy self.now) S.LEVEL page count }
    {
        calls::range_allowed(self, page, count)
    }

    /// Sets the flags of the entry of level four on a page's path. The entry keeps its address.
    ///
    /// Requires that the hierarchy is valid, that the flags have no address bits and no `HUGE_PAGE`, and that the
    /// page's index of level four isn't the recursive index.
    ///
    /// # Errors
    ///
    /// `PageNotMapped` if the entry is unused. A refused call changes nothing.
    final fn set_flags_p4_entry(
        &mut self,
        page: Page<S>,
        flags: PageTableFlags,
    ) -> Result<MapperFlushAll, FlagUpdateError>
        requires { MayCall (Self.hierarchy self.old) (SetFlags 4 S.LEVEL page (bits_of flags)) }
        ensures { DoesFlags (Self.hierarchy self.old) (SetFlags 4 S.LEVEL page (bits_of flags))
            result (Self.hierarchy self.new) }
    {
        calls::set_table_flags(self, page, 4, flags)
    }

    /// Sets the flags of the entry of level three on a page's path. The entry keeps its address.
    ///
    /// Requires that the hierarchy is valid, and that [`p3_flags_allowed`](Self::p3_flags_allowed) returns true.
    ///
    /// # Errors
    ///
    /// - `ParentEntryHugePage` for a 1GiB page, whose own entry this is.
    /// - Otherwise `PageNotMapped` if the parent lacks `PRESENT`, or the entry is unused.
    ///
    /// A refused call changes nothing.
    final fn set_flags_p3_entry(
        &mut self,
        page: Page<S>,
        flags: PageTableFlags,
    ) -> Result<MapperFlushAll, FlagUpdateError>
        requires { MayCall (Self.hierarchy self.old) (SetFlags 3 S.LEVEL page (bits_of flags)) }
        ensures { DoesFlags (Self.hierarchy self.old) (SetFlags 3 S.LEVEL page (bits_of flags))
            result (Self.hierarchy self.new) }
    {
        calls::set_table_flags(self, page, 3, flags)
    }

    /// Sets the flags of the entry of level two on a page's path. The entry keeps its address.
    ///
    /// Requires that the hierarchy is valid, and that [`p2_flags_allowed`](Self::p2_flags_allowed) returns true.
    ///
    /// # Errors
    ///
    /// - `ParentEntryHugePage` for a 2MiB or 1GiB page.
    /// - Otherwise `PageNotMapped` or `ParentEntryHugePage` if a parent lacks `PRESENT` or has `HUGE_PAGE`, as for
    ///   [`unmap`](Self::unmap).
    /// - Otherwise `PageNotMapped` if the entry is unused.
    ///
    /// A refused call changes nothing.
    final fn set_flags_p2_entry(
        &mut self,
        page: Page<S>,
        flags: PageTableFlags,
    ) -> Result<MapperFlushAll, FlagUpdateError>
        requires { MayCall (Self.hierarchy self.old) (SetFlags 2 S.LEVEL page (bits_of flags)) }
        ensures { DoesFlags (Self.hierarchy self.old) (SetFlags 2 S.LEVEL page (bits_of flags))
            result (Self.hierarchy self.new) }
    {
        calls::set_table_flags(self, page, 2, flags)
    }

    /// Returns true if the flags of the entry of level three on a page's path may be set to these. They must have no
    /// address bits, and the page's index of level four must not be the recursive index. Unless
    /// [`set_flags_p3_entry`](Self::set_flags_p3_entry) would be refused, the flags must have `HUGE_PAGE` if and only
    /// if the entry has it.
    ///
    /// Requires that the hierarchy is valid.
    final fn p3_flags_allowed(&self, page: Page<S>, flags: PageTableFlags) -> bool
        requires { Valid (Self.hierarchy self.now) }
        ensures { result ≡ allows (Self.hierarchy self.now) (SetFlags 3 S.LEVEL page (bits_of flags)) }
    {
        calls::table_flags_allowed(self, page, 3, flags)
    }

    /// Returns true if the flags of the entry of level two on a page's path may be set to these. They must have no
    /// address bits, and the page's index of level four must not be the recursive index. Unless
    /// [`set_flags_p2_entry`](Self::set_flags_p2_entry) would be refused, the flags must have `HUGE_PAGE` if and only
    /// if the entry has it.
    ///
    /// Requires that the hierarchy is valid.
    final fn p2_flags_allowed(&self, page: Page<S>, flags: PageTableFlags) -> bool
        requires { Valid (Self.hierarchy self.now) }
        ensures { result ≡ allows (Self.hierarchy self.now) (SetFlags 2 S.LEVEL page (bits_of flags)) }
    {
        calls::table_flags_allowed(self, page, 2, flags)
    }

    /// Returns the frame that a page's entry names, `PRESENT` or not.
    ///
    /// Requires that the hierarchy is valid.
    ///
    /// # Errors
    ///
    /// - `PageNotMapped` or `ParentEntryHugePage` if a parent lacks `PRESENT` or has `HUGE_PAGE`, as for
    ///   [`unmap`](Self::unmap).
    /// - Otherwise `PageNotMapped` if the page's own entry is unused.
    /// - Otherwise `InvalidFrameAddress` if the entry of a 2MiB or 1GiB page names a table, or an address that isn't
    ///   a multiple of the size.
    final fn translate_page(&self, page: Page<S>) -> Result<PhysFrame<S>, TranslateError>
        requires { Valid (Self.hierarchy self.now) }
        ensures { translate_answer result ≡ translated_page (Self.hierarchy self.now) S.LEVEL page }
    {
        calls::translate_page(self, page)
    }
}

impl<M: TableAccess + PageTables, S: PageSize> Mapper<S> for M {}

/// Maps pages of all three sizes, 4KiB, 2MiB and 1GiB. Its calls are those of [`Mapper`] for each size.
pub trait MapperAllSizes: Mapper<Size4KiB> + Mapper<Size2MiB> + Mapper<Size1GiB> {}

impl<M: Mapper<Size4KiB> + Mapper<Size2MiB> + Mapper<Size1GiB>> MapperAllSizes for M {}
