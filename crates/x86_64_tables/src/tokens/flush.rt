//! Tokens for changes to page tables that the TLB may not reflect yet.
//!
//! Intel SDM vol. 3A, "Invalidation of TLBs and Paging-Structure Caches".
ghost use Rattle.std.specs.Prelude.{◌≡◌, ◌+◌, ◌-◌, ◌*◌, ◌<◌, ◌≤◌, ℕ, [], ◌∷◌, ◌++◌, length, IsOk, IfErr, OnOk, OnErr};
ghost use Rattle.x86_64_addr.specs.Position.{position_count};
ghost use Rattle.x86_64_tables.specs.FlushRecorder.{page_item, page_items, range_items, flush_range};

use super::recorder::{FlushItem, FlushRecorder};
use std::alloc::AllocError;
use std::fmt::{Debug, Formatter, Result as FmtResult, Write};
use std::marker::Model;
use x86_64_addr::level_count::{FiveLevels, FourLevels, LevelCount};
use x86_64_page::page::{PageIn, PageSize, Size4KiB};

/// A token for a change to the mapping of a page that the TLB may not reflect yet.
///
/// It must be consumed by [`flush`](Self::flush) or [`ignore`](Self::ignore). Dropping it is a compile error.
#[must_use]
pub struct MapperFlushIn<S: PageSize, L: LevelCount> {
    page: PageIn<S, L>,
}

/// The token for a page with four levels of page tables.
pub type MapperFlush<S = Size4KiB> = MapperFlushIn<S, FourLevels>;

/// The token for a page with five levels of page tables.
pub type MapperFlush57<S = Size4KiB> = MapperFlushIn<S, FiveLevels>;

impl<S: PageSize, L: LevelCount> Model for MapperFlushIn<S, L> {
    ghost use Rattle.std.specs.Prelude.{ℕ};

    ghost Value = { ℕ };

    ghost view = { λ flush. flush.page };
}

impl<S: PageSize, L: LevelCount> MapperFlushIn<S, L> {
    /// Creates a token for a page.
    pub fn new(page: PageIn<S, L>) -> Self
        ensures { result ≡ page }
    {
        MapperFlushIn { page }
    }

    /// Returns the page.
    pub fn page(&self) -> PageIn<S, L>
        ensures { result ≡ self.now }
    {
        self.page
    }

    /// Consumes the token and records a flush of its page, by the page's start address and size.
    ///
    /// If the recorder has room, this succeeds, allocates no memory, and lowers the room by one.
    ///
    /// # Errors
    ///
    /// The token itself if memory allocation fails. Then the recorder is unchanged.
    pub fn flush(self, recorder: &mut FlushRecorder) -> Result<(), Self>
        ensures items { OnOk result (recorder.new.items
            ≡ recorder.old.items ++ page_item L.LEVELS self S.SIZE ∷ []) }
        ensures room { OnOk result (recorder.new.room ≡ recorder.old.room - 1) }
        ensures succeeds { 0 < recorder.old.room → IsOk result }
        ensures token { IfErr result (λ token. token ≡ self) }
        ensures unchanged { OnErr result (recorder.new ≡ recorder.old) }
    {
        let item = FlushItem::of_page(self.page.start_address(), S::SIZE);
        if recorder.record(item).is_err() {
            return Err(self);
        }
        self.ignore();
        Ok(())
    }

    /// Consumes the token without a flush. The TLB may keep the mapping that the page had before.
    pub fn ignore(self) {
        let MapperFlushIn { page: _ } = self;
    }
}

impl<S: PageSize, L: LevelCount> Debug for MapperFlushIn<S, L> {
    fn fmt<W: Write>(&self, f: &mut Formatter<W>) -> FmtResult {
        let (suffix, page) = (L::SUFFIX, self.page);
        write!(f, "MapperFlush{suffix} {{ page: {page:?} }}")
    }
}

/// The number of pages up to which a flush of a range of pages records one item per page. For more pages it records
/// one item, [`FlushItem::All`].
pub const MOST_PAGE_ITEMS: u64 = 32;

/// A token for changes to the mappings of a range of pages that the TLB may not reflect yet.
///
/// It must be consumed by [`flush`](Self::flush) or [`ignore`](Self::ignore). Dropping it is a compile error.
#[must_use]
pub struct MapperFlushRangeIn<S: PageSize, L: LevelCount> {
    page: PageIn<S, L>,
    count: u64,
}

/// The token for a range of pages with four levels of page tables.
pub type MapperFlushRange<S = Size4KiB> = MapperFlushRangeIn<S, FourLevels>;

/// The token for a range of pages with five levels of page tables.
pub type MapperFlushRange57<S = Size4KiB> = MapperFlushRangeIn<S, FiveLevels>;

impl<S: PageSize, L: LevelCount> Model for MapperFlushRangeIn<S, L> {
    ghost use Rattle.std.specs.Prelude.{◌+◌, ◌*◌, ◌<◌, ℕ};
    ghost use Rattle.x86_64_addr.specs.Position.{position_count};
    ghost use Rattle.x86_64_tables.specs.FlushRecorder.{FlushRange};

    ghost Value = { FlushRange };

    ghost view = { λ flush. record { page = flush.page; count = flush.count } };

    ghost invariant = { λ flush. (k : ℕ) → k < flush.count
        → flush.page + k * S.SIZE < position_count L.LEVELS };
}

impl<S: PageSize, L: LevelCount> MapperFlushRangeIn<S, L> {
    /// Creates a token for `count` pages, from a page on. The range continues after the gap in the middle of the address space.
    ///
    /// Requires that none of these pages lies past the end of the address space.
    pub fn new(page: PageIn<S, L>, count: u64) -> Self
        requires { (k : ℕ) → k < count → page + k * S.SIZE < position_count L.LEVELS }
        ensures { result ≡ flush_range page count }
    {
        MapperFlushRangeIn { page, count }
    }

    /// Returns the first page.
    pub fn page(&self) -> PageIn<S, L>
        ensures { result ≡ self.now.page }
    {
        self.page
    }

    /// Returns the number of pages.
    pub fn count(&self) -> u64
        ensures { result ≡ self.now.count }
    {
        self.count
    }

    /// Consumes the token and records a flush of its pages: of each page by its start address and size, in order, if
    /// there are at most [`MOST_PAGE_ITEMS`], and of all mappings otherwise. Records nothing for a range of no pages.
    ///
    /// If the recorder has room for these items, this succeeds, allocates no memory, and lowers the room by at most
    /// their number.
    ///
    /// # Errors
    ///
    /// The token itself if memory allocation fails. Then the recorder is unchanged.
    pub fn flush(self, recorder: &mut FlushRecorder) -> Result<(), Self>
        ensures items { OnOk result (recorder.new.items
            ≡ recorder.old.items ++ range_items L.LEVELS S.SIZE MOST_PAGE_ITEMS self) }
        ensures room { OnOk result (recorder.old.room
            ≤ recorder.new.room + length (range_items L.LEVELS S.SIZE MOST_PAGE_ITEMS self)) }
        ensures succeeds { length (range_items L.LEVELS S.SIZE MOST_PAGE_ITEMS self) ≤ recorder.old.room
            → IsOk result }
        ensures token { IfErr result (λ token. token ≡ self) }
        ensures unchanged { OnErr result (recorder.new ≡ recorder.old) }
    {
        if record_pages(self.page, self.count, recorder).is_err() {
            return Err(self);
        }
        self.ignore();
        Ok(())
    }

    /// Consumes the token without a flush. The TLB may keep the mappings that the pages had before.
    pub fn ignore(self) {
        let MapperFlushRangeIn { page: _, count: _ } = self;
    }
}

impl<S: PageSize, L: LevelCount> Debug for MapperFlushRangeIn<S, L> {
    fn fmt<W: Write>(&self, f: &mut Formatter<W>) -> FmtResult {
        let (suffix, page, count) = (L::SUFFIX, self.page, self.count);
        write!(
            f,
            "MapperFlushRange{suffix} {{ page: {page:?}, count: {count} }}"
        )
    }
}

/// A token for a change to a table entry, after which the TLB may hold stale mappings of any pages.
///
/// It must be consumed by [`flush_all`](Self::flush_all) or [`ignore`](Self::ignore). Dropping it is a compile error.
#[must_use]
#[derive(Debug)]
pub struct MapperFlushAll(());

impl MapperFlushAll {
    /// Creates a token.
    pub fn new() -> Self {
        MapperFlushAll(())
    }

    /// Consumes the token and records a flush of all mappings.
    ///
    /// If the recorder has room, this succeeds, allocates no memory, and lowers the room by one.
    ///
    /// # Errors
    ///
    /// The token itself if memory allocation fails. Then the recorder is unchanged.
    pub fn flush_all(self, recorder: &mut FlushRecorder) -> Result<(), Self>
        ensures items { OnOk result (recorder.new.items ≡ recorder.old.items ++ FlushItem.All ∷ []) }
        ensures room { OnOk result (recorder.new.room ≡ recorder.old.room - 1) }
        ensures succeeds { 0 < recorder.old.room → IsOk result }
        ensures token { IfErr result (λ token. token ≡ self) }
        ensures unchanged { OnErr result (recorder.new ≡ recorder.old) }
    {
        if recorder.record(FlushItem::All).is_err() {
            return Err(self);
        }
        self.ignore();
        Ok(())
    }

    /// Consumes the token without a flush. The TLB may keep stale mappings of any pages.
    pub fn ignore(self) {
        let MapperFlushAll(_) = self;
    }
}

/// Records a flush of a number of pages, from a page on.
///
/// # Errors
///
/// `AllocError` if memory allocation fails. Then nothing changes.
fn record_pages<S: PageSize, L: LevelCount>(
    page: PageIn<S, L>,
    count: u64,
    recorder: &mut FlushRecorder,
) -> Result<(), AllocError>
    requires there { (k : ℕ) → k < count → page + k * S.SIZE < position_count L.LEVELS }
    ensures items { OnOk result (recorder.new.items
        ≡ recorder.old.items ++ range_items L.LEVELS S.SIZE MOST_PAGE_ITEMS (flush_range page count)) }
    ensures room { OnOk result (recorder.old.room
        ≤ recorder.new.room + length (range_items L.LEVELS S.SIZE MOST_PAGE_ITEMS (flush_range page count))) }
    ensures succeeds { length (range_items L.LEVELS S.SIZE MOST_PAGE_ITEMS (flush_range page count))
        ≤ recorder.old.room → IsOk result }
    ensures unchanged { OnErr result (recorder.new ≡ recorder.old) }
{
    if count > MOST_PAGE_ITEMS {
        return recorder.record(FlushItem::All);
    }
    recorder.reserve(count as usize)?;
    record_each(page, count, recorder);
    Ok(())
}

/// Records a flush of each of a number of pages, from a page on.
fn record_each<S: PageSize, L: LevelCount>(
    page: PageIn<S, L>,
    count: u64,
    recorder: &mut FlushRecorder,
)
    requires there { (k : ℕ) → k < count → page + k * S.SIZE < position_count L.LEVELS }
    requires room { count ≤ recorder.old.room }
    ensures items { recorder.new.items ≡ recorder.old.items ++ page_items L.LEVELS S.SIZE page count }
    ensures room { recorder.new.room + count ≡ recorder.old.room }
{
    for k in 0..count {
        let page = page_after(page, k);
        recorder.record_reserved(FlushItem::of_page(page.start_address(), S::SIZE));
    }
}

/// Returns the page `count` pages after a page. Steps continue after the gap in the middle of the address space.
///
/// Requires that the page doesn't lie past the end of the address space. Check this with [`PageIn::forward_checked`].
pub fn page_after<S: PageSize, L: LevelCount>(page: PageIn<S, L>, count: u64) -> PageIn<S, L>
    requires { page + count * S.SIZE < position_count L.LEVELS }
    ensures { result ≡ page + count * S.SIZE }
{
    match PageIn::forward_checked(page, count as usize) {
        Some(page) => page,
        None => unreachable!(),
    }
}
