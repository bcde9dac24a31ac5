//! Calls on ranges of pages of one size: maps, unmaps and changes of flags.
ghost use Rattle.std.specs.Prelude.{◌≡◌, ◌≤◌, ◌-◌, ◌*◌, ℕ, List, nat_le, length, Some, None, IfOk, IfErr, OnErr};
ghost use Rattle.x86_64_c.specs.Calls.{result_status};
ghost use Rattle.x86_64_c.specs.Arguments as given;
ghost use Rattle.x86_64_c.specs.PoolCalls.{loan};
ghost use Rattle.x86_64_c.specs.Ranges as ranges;
ghost use Rattle.x86_64_c.specs.private.Pools as pools;
ghost use Rattle.x86_64_c.specs.private.RangeMaps as maps;
ghost use Rattle.x86_64_model.specs.Hierarchy.{Valid};
ghost use Rattle.x86_64_tables.specs.MapperAnswers.{map_refusal};
ghost use Rattle.x86_64_tables.specs.PageTableFlags.{bits_of};

use crate::arguments::{AnyPage, Hierarchy, Located, MapRequest, Page, frame_at, page_of};
use crate::operation::{Operation, enter};
use crate::pool::{PoolStep, Stepped, with_pool};
use crate::status::{self, map_status};
use bitflags::Flags;
use x86_64::structures::paging::mapper::{
    MapRangeErrorIn, MappedPageTableIn, MapperFlushRangeIn, PageTableFrameMapping,
};
use x86_64::structures::paging::{PageIn, PageSize, PageTable, PageTableFlags, PhysFrame};
use x86_64::{FrameStore, LevelCount, OwnFrames, TableMemory};
use x86_64_mappers::calls::{self, FrameSink};

/// The end of physical addresses.
const PHYSICAL_END: u64 = 1 << 52;

// ---- arguments

/// Returns true if a number of pages or frames of a size take at most so many bytes.
fn fit_in(count: u64, size: u64, bytes: u64) -> bool
    ensures { result ≡ nat_le (count * size) bytes }
{
    match count.checked_mul(size) {
        Some(all) => all <= bytes,
        None => false,
    }
}

/// Returns the number of bytes from an address on to the end of its half of the address space with `L` levels of tables.
fn bytes_in_half<L: LevelCount>(address: u64) -> u64
    ensures { result ≡ ranges.half_end L.LEVELS (given.position_of L.LEVELS address)
        - given.position_of L.LEVELS address }
{
    let position = address % L::POSITION_COUNT;
    let half = L::POSITION_COUNT / 2;
    if position < half {
        half - position
    } else {
        L::POSITION_COUNT - position
    }
}

/// Returns the first of a number of pages, or the status that says that they aren't pages in one half of the address space with `L`
/// levels of tables.
fn first_page<L: LevelCount>(page: &Page, count: u64) -> Result<AnyPage<L>, u32>
    ensures page { IfOk result (λ any.
        given.IsPageOf L.LEVELS page.now (given.any_level any) (given.any_position any)) }
    ensures good { IfOk result (λ _. ranges.bad_pages L.LEVELS page.now count ≡ None) }
    ensures bad { IfErr result (λ status. ranges.bad_pages L.LEVELS page.now count ≡ Some status) }
{
    let first = page_of::<L>(page)?;
    if fit_in(count, page.size, bytes_in_half::<L>(page.start)) {
        Ok(first)
    } else {
        Err(status::BAD_PAGE)
    }
}

/// Returns the first of a number of frames of a size, or the status that says that there aren't as many.
fn first_frame<S: PageSize>(start: u64, count: u64) -> Result<PhysFrame<S>, u32>
    ensures frame { IfOk result (λ frame. frame ≡ start) }
    ensures good { IfOk result (λ _. ranges.bad_frames S.SIZE start count ≡ None) }
    ensures bad { IfErr result (λ status. ranges.bad_frames S.SIZE start count ≡ Some status) }
{
    let first = frame_at::<S>(start)?;
    if fit_in(count, S::SIZE, PHYSICAL_END - start) {
        Ok(first)
    } else {
        Err(status::BAD_FRAME)
    }
}

// ---- maps

/// Maps a number of pages, from the page of a request on, to as many frames, from its frame on: each in turn as `x64_map_as_mapper` does,
/// up to the first one that is refused. Writes how many were mapped.
///
/// Requires what `x64_map` requires, and it holds again afterwards. Returns `OK`, the status of the refused map, `NOT_ALLOWED` if the
/// parent flags lack `PRESENT` or a page may not be mapped so, or what is wrong with an argument. With `NOT_ALLOWED` or a wrong argument
/// nothing changes.
#[unsafe(no_mangle)]
pub extern "C" fn x64_map_range(
    hierarchy: &Hierarchy,
    tables: &mut [PageTable],
    pool: &mut [u64],
    free_count: &mut usize,
    request: &MapRequest,
    count: u64,
    done: &mut u64,
) -> u32
    ghost own: { List ℕ }
    requires { ranges.MayMapWith own hierarchy.now (loan tables.old pool.old free_count.old) request.now
        count }
    ensures { ranges.MapsWith own hierarchy.now (loan tables.old pool.old free_count.old) request.now count
        done.old result (loan tables.new pool.new free_count.new) done.new }
{
    let map = MapFrom {
        request,
        count,
        free_count: *free_count,
        own: OwnFrames::of(),
    };
    let mapped = match enter(hierarchy, tables, pool, &map) {
        Ok(mapped) => mapped,
        Err(status) => return status,
    };
    *free_count = mapped.free_count;
    if let Some(number) = mapped.out.done {
        *done = number;
    }
    mapped.out.status
}

/// The map of a number of pages from the page of a request on, with the number of free frames of the pool in the operation's array, and
/// its own frames.
#[derive(Drop)]
pub struct MapFrom<'a> {
    request: &'a MapRequest,
    count: u64,
    free_count: usize,
    own: OwnFrames,
}

/// What a map of a range tells.
#[derive(Clone, Copy)]
pub struct Mapped {
    /// The status.
    pub status: u32,
    /// How many pages were mapped, if the map is allowed.
    pub done: Option<u64>,
}

impl<'a> Operation for MapFrom<'a> {
    ghost use Rattle.x86_64_c.specs.PoolCalls.{bad_pool};
    ghost use Rattle.x86_64_c.specs.Ranges.{bad_maps, range_asked};
    ghost use Rattle.x86_64_c.specs.private.Pools.{FitsIn};
    ghost use Rattle.x86_64_c.specs.private.RangeMaps.{MapsInPool};

    type Out = Stepped<Mapped>;

    type Entry = u64;

    ghost wrong = { λ map levels tables room.
        bad_pool map.free_count room (bad_maps levels map.request.now map.count) };

    ghost may = { λ map h array. FitsIn map.own.frames h array map.free_count };

    ghost does = { λ map h array after left mapped. MapsInPool map.own.frames
        (range_asked h.layout.levels map.request.now) map.count h array map.free_count after left
        mapped.free_count mapped.out };

    fn execute<L: LevelCount, T: TableMemory, P: PageTableFrameMapping + Copy>(
        &self,
        memory: &mut T,
        located: Located<P>,
        array: &mut [u64],
    ) -> Result<Stepped<Mapped>, u32> {
        if array.len() < self.free_count {
            return Err(status::BAD_ARRAY);
        }
        let page = first_page::<L>(&self.request.page, self.count)?;
        match page {
            AnyPage::Of4KiB(page) => self.map_from(memory, located, page, array),
            AnyPage::Of2MiB(page) => self.map_from(memory, located, page, array),
            AnyPage::Of1GiB(page) => self.map_from(memory, located, page, array),
        }
    }
}

impl<'a> MapFrom<'a> {
    /// Maps the pages from a page on to the frames of the request.
    fn map_from<S: PageSize, L: LevelCount, T: TableMemory, P: PageTableFrameMapping + Copy>(
        &self,
        memory: &mut T,
        located: Located<P>,
        page: PageIn<S, L>,
        array: &mut [u64],
    ) -> Result<Stepped<Mapped>, u32>
        requires in_array { self.now.free_count ≤ length array.old }
        requires pages { ranges.bad_pages L.LEVELS self.now.request.now.page self.now.count ≡ None }
        requires is_page { given.IsPageOf L.LEVELS self.now.request.now.page S.LEVEL page }
        requires fits { ranges.bad_maps L.LEVELS self.now.request.now self.now.count ≡ None
            → pools.FitsIn self.now.own.frames (given.at P.places L.LEVELS located (T.tables memory.old))
            array.old self.now.free_count }
        ensures bad { IfErr result (λ status.
            ranges.bad_maps L.LEVELS self.now.request.now self.now.count ≡ Some status) }
        ensures unchanged { OnErr result ((T.tables memory.new ≡ T.tables memory.old)
            × (array.new ≡ array.old)) }
        ensures good { IfOk result (λ _.
            ranges.bad_maps L.LEVELS self.now.request.now self.now.count ≡ None) }
        ensures does { IfOk result (λ mapped. maps.MapsInPool self.now.own.frames
            (ranges.range_asked L.LEVELS self.now.request.now) self.now.count
            (given.at P.places L.LEVELS located (T.tables memory.old)) array.old self.now.free_count
            (given.at P.places L.LEVELS located (T.tables memory.new)) array.new mapped.free_count
            mapped.out) }
        ensures lent { T.lent memory.new ≡ T.lent memory.old }
    {
        let frame = first_frame::<S>(self.request.frame, self.count)?;
        let map = RangeMap {
            page,
            count: self.count,
            frame,
            flags: PageTableFlags::from_bits_retain(self.request.flags),
            parent_flags: PageTableFlags::from_bits_retain(self.request.parent_flags),
        };
        Ok(with_pool(memory, located, &self.own, array, self.free_count, &map))
    }
}

/// A map of a number of pages of a size, from a page on, to as many frames, from a frame on.
#[derive(Clone, Copy)]
pub struct RangeMap<S: PageSize, L: LevelCount> {
    page: PageIn<S, L>,
    count: u64,
    frame: PhysFrame<S>,
    flags: PageTableFlags,
    parent_flags: PageTableFlags,
}

impl<S: PageSize, L: LevelCount> PoolStep<L> for RangeMap<S, L> {
    ghost use Rattle.x86_64_c.specs.Ranges.{range_of_request};
    ghost use Rattle.x86_64_c.specs.private.PoolLaws.{own_tells};
    ghost use Rattle.x86_64_c.specs.private.RangeMaps.{TellsMaps, is_without_number};

    type Out = Mapped;

    ghost refused = { λ mapped. is_without_number mapped.done };

    ghost does = { λ map h pool after rest mapped.
        TellsMaps h pool (range_of_request S.LEVEL map) map.count after rest mapped };

    fn take<T: TableMemory, P: PageTableFrameMapping + Copy, F: FrameStore>(
        &self,
        memory: &mut T,
        located: Located<P>,
        frames: &mut F,
        _free_count: usize,
    ) -> Mapped {
        let mut mapper = MappedPageTableIn::<_, L, T>::new(memory, located.root, located.mapping);
        let RangeMap {
            page,
            count,
            frame,
            flags,
            parent_flags,
        } = *self;
        if !calls::map_range_allowed(&mapper, page, count, frame, flags, parent_flags) {
            return Mapped {
                status: status::NOT_ALLOWED,
                done: None,
            };
        }
        let mapped = calls::map_range(&mut mapper, page, count, frame, flags, parent_flags, frames);
        tell_mapped(mapped)
    }

    ghost own_frames = { λ map own array count serves same h after free rest mapped.
        own_tells own array count same h after free rest _ map.count mapped };
}

/// Tells the status, and how many pages were mapped.
fn tell_mapped<S: PageSize, L: LevelCount>(
    mapped: Result<MapperFlushRangeIn<S, L>, MapRangeErrorIn<S, L>>,
) -> Mapped
    ensures status { result.status ≡ result_status (λ error. map_refusal error.why) mapped }
    ensures all { IfOk mapped (λ flush. result.done ≡ Some flush.count) }
    ensures some { IfErr mapped (λ error. result.done ≡ Some error.mapped.count) }
{
    match mapped {
        Ok(flush) => {
            let done = Some(flush.count());
            flush.ignore();
            Mapped {
                status: status::OK,
                done,
            }
        }
        Err(error) => {
            let MapRangeErrorIn { mapped, why } = error;
            let done = Some(mapped.count());
            mapped.ignore();
            Mapped {
                status: map_status(why),
                done,
            }
        }
    }
}

// ---- unmaps

/// Takes frames into an array that is lent, from its start on, as long as there is room.
pub struct FrameArray<'a> {
    frames: &'a mut [u64],
    count: usize,
}

impl<'a> Drop for FrameArray<'a> {
    // The array has what was written.
    fn drop(self)
        ensures { self.exit.0.now ≡ self.entry.frames.now }
    {
        let FrameArray {
            frames: _,
            count: _,
        } = self;
    }
}

impl<'a> FrameSink for FrameArray<'a> {
    ghost use Rattle.x86_64_c.specs.Ranges.{with_one};

    ghost with_frame = { with_one };

    fn take<S: PageSize>(&mut self, frame: PhysFrame<S>)
        ensures { self.new ≡ with_one self.old frame }
    {
        if self.count < self.frames.len() {
            self.frames[self.count] = frame.start_address().as_u64();
            self.count += 1;
        }
    }
}

/// Unmaps a number of pages, from a page on, each in turn as `x64_unmap` does, and writes the addresses of the frames of those that
/// were mapped. Passes over those that aren't, or whose unmap is refused for another reason. Writes how many pages were looked at: all of
/// them, or as many as the array has entries.
///
/// Requires that the hierarchy is valid, which `x64_is_valid` tests; it is valid again afterwards. Returns `OK`, `MORE` if there are
/// more pages, or what is wrong with an argument; then nothing changes.
#[unsafe(no_mangle)]
pub extern "C" fn x64_unmap_range(
    hierarchy: &Hierarchy,
    tables: &mut [PageTable],
    first: &Page,
    count: u64,
    frames: &mut [u64],
    frame_count: &mut usize,
    done: &mut u64,
) -> u32
    requires { ranges.wrong_page_range hierarchy.now (length tables.old) first.now count ≡ None
        → Valid (given.hierarchy_in hierarchy.now tables.old) }
    ensures bad { (status : ℕ) → ranges.wrong_page_range hierarchy.now (length tables.old) first.now count
        ≡ Some status → (result ≡ status) × (tables.new ≡ tables.old) × (frames.new ≡ frames.old)
        × (frame_count.new ≡ frame_count.old) × (done.new ≡ done.old) }
    ensures unmaps { ranges.wrong_page_range hierarchy.now (length tables.old) first.now count ≡ None
        → ranges.UnmapsRange (given.hierarchy_in hierarchy.now tables.old)
        (given.level_of_page_size first.now.size)
        (given.position_of hierarchy.now.levels first.now.start) count frames.old
        (given.hierarchy_in hierarchy.now tables.new) result frames.new frame_count.new done.new }
{
    match enter(hierarchy, tables, frames, &UnmapFrom { first, count }) {
        Ok(unmapped) => {
            *frame_count = unmapped.frame_count;
            *done = unmapped.done;
            end_status(unmapped.done, count)
        }
        Err(status) => status,
    }
}

/// The unmap of a number of pages from a page on.
#[derive(Clone, Copy)]
pub struct UnmapFrom<'a> {
    first: &'a Page,
    count: u64,
}

/// What an unmap of a range tells beside the frames.
#[derive(Clone, Copy)]
pub struct Unmapped {
    /// The number of frames.
    pub frame_count: usize,
    /// How many pages were looked at.
    pub done: u64,
}

impl<'a> Operation for UnmapFrom<'a> {
    ghost use Rattle.x86_64_c.specs.Arguments.{level_of_page_size, position_of};
    ghost use Rattle.x86_64_c.specs.Ranges.{UnmapsRange, bad_pages, end_status};
    ghost use Rattle.x86_64_model.specs.Hierarchy.{Valid};

    type Out = Unmapped;

    type Entry = u64;

    ghost wrong = { λ from levels tables room. bad_pages levels from.first.now from.count };

    ghost may = { λ from h array. Valid h };

    ghost does = { λ from h array after left unmapped. UnmapsRange h (level_of_page_size from.first.now.size)
        (position_of h.layout.levels from.first.now.start) from.count array after
        (end_status unmapped.done from.count) left unmapped.frame_count unmapped.done };

    fn execute<L: LevelCount, T: TableMemory, P: PageTableFrameMapping + Copy>(
        &self,
        memory: &mut T,
        located: Located<P>,
        array: &mut [u64],
    ) -> Result<Unmapped, u32> {
        let page = first_page::<L>(self.first, self.count)?;
        Ok(match page {
            AnyPage::Of4KiB(page) => self.unmap_pages(memory, located, page, array),
            AnyPage::Of2MiB(page) => self.unmap_pages(memory, located, page, array),
            AnyPage::Of1GiB(page) => self.unmap_pages(memory, located, page, array),
        })
    }
}

impl<'a> UnmapFrom<'a> {
    /// Unmaps the pages from a page on.
    fn unmap_pages<S: PageSize, L: LevelCount, T: TableMemory, P: PageTableFrameMapping + Copy>(
        &self,
        memory: &mut T,
        located: Located<P>,
        page: PageIn<S, L>,
        frames: &mut [u64],
    ) -> Unmapped
        requires valid { Valid (given.at P.places L.LEVELS located (T.tables memory.old)) }
        requires pages { ranges.bad_pages L.LEVELS self.now.first.now self.now.count ≡ None }
        requires is_page { given.IsPageOf L.LEVELS self.now.first.now S.LEVEL page }
        ensures unmaps { ranges.UnmapsRange (given.at P.places L.LEVELS located (T.tables memory.old))
            (given.level_of_page_size self.now.first.now.size)
            (given.position_of L.LEVELS self.now.first.now.start) self.now.count frames.old
            (given.at P.places L.LEVELS located (T.tables memory.new))
            (ranges.end_status result.done self.now.count) frames.new result.frame_count result.done }
        ensures lent { T.lent memory.new ≡ T.lent memory.old }
    {
        let most = self.count.min(frames.len() as u64);
        let mut mapper = MappedPageTableIn::<_, L, T>::new(memory, located.root, located.mapping);
        let mut sink = FrameArray { frames, count: 0 };
        calls::unmap_range(&mut mapper, page, most, &mut sink).ignore();
        Unmapped {
            frame_count: sink.count,
            done: most,
        }
    }
}

/// Returns the status of a call that looked at so many of a number of pages.
fn end_status(done: u64, count: u64) -> u32
    ensures { result ≡ ranges.end_status done count }
{
    if done == count {
        status::OK
    } else {
        status::MORE
    }
}

// ---- changes of flags

/// Sets the flags of the own entries of a number of pages, from a page on, each in turn as `x64_update_flags` does. Passes over those
/// that aren't mapped, or whose change is refused for another reason. Writes how many were changed.
///
/// Requires that the hierarchy is valid, which `x64_is_valid` tests; it is valid again afterwards. Returns `OK`, `NOT_ALLOWED` if the
/// flags have address bits, or what is wrong with an argument. If it isn't `OK`, nothing changes.
#[unsafe(no_mangle)]
pub extern "C" fn x64_update_flags_range(
    hierarchy: &Hierarchy,
    tables: &mut [PageTable],
    first: &Page,
    count: u64,
    flags: u64,
    changed: &mut u64,
) -> u32
    requires { ranges.wrong_page_range hierarchy.now (length tables.old) first.now count ≡ None
        → Valid (given.hierarchy_in hierarchy.now tables.old) }
    ensures bad { (status : ℕ) → ranges.wrong_page_range hierarchy.now (length tables.old) first.now count
        ≡ Some status → (result ≡ status) × (tables.new ≡ tables.old) × (changed.new ≡ changed.old) }
    ensures updates { ranges.wrong_page_range hierarchy.now (length tables.old) first.now count ≡ None
        → ranges.MayUpdate (given.hierarchy_in hierarchy.now tables.old)
        (given.level_of_page_size first.now.size)
        (given.position_of hierarchy.now.levels first.now.start) flags count changed.old
        (given.hierarchy_in hierarchy.now tables.new) result changed.new }
{
    let flags = PageTableFlags::from_bits_retain(flags);
    let update = UpdateFrom {
        first,
        count,
        flags,
    };
    let updated = match enter(hierarchy, tables, &mut [], &update) {
        Ok(updated) => updated,
        Err(status) => return status,
    };
    match updated {
        Some(number) => {
            *changed = number;
            status::OK
        }
        None => status::NOT_ALLOWED,
    }
}

/// The change of the flags of a number of pages from a page on.
#[derive(Clone, Copy)]
pub struct UpdateFrom<'a> {
    first: &'a Page,
    count: u64,
    flags: PageTableFlags,
}

impl<'a> Operation for UpdateFrom<'a> {
    ghost use Rattle.x86_64_c.specs.Arguments.{level_of_page_size, position_of};
    ghost use Rattle.x86_64_c.specs.Ranges.{bad_pages};
    ghost use Rattle.x86_64_c.specs.private.RangeMaps.{TellsUpdates};
    ghost use Rattle.x86_64_model.specs.Hierarchy.{Valid};
    ghost use Rattle.x86_64_tables.specs.PageTableFlags.{bits_of};

    type Out = Option<u64>;

    type Entry = u64;

    ghost wrong = { λ from levels tables room. bad_pages levels from.first.now from.count };

    ghost may = { λ from h array. Valid h };

    ghost does = { λ from h array after left changed. TellsUpdates h (level_of_page_size from.first.now.size)
        (position_of h.layout.levels from.first.now.start) (bits_of from.flags) from.count after changed };

    fn execute<L: LevelCount, T: TableMemory, P: PageTableFrameMapping + Copy>(
        &self,
        memory: &mut T,
        located: Located<P>,
        _array: &mut [u64],
    ) -> Result<Option<u64>, u32> {
        let page = first_page::<L>(self.first, self.count)?;
        Ok(match page {
            AnyPage::Of4KiB(page) => self.update_pages(memory, located, page),
            AnyPage::Of2MiB(page) => self.update_pages(memory, located, page),
            AnyPage::Of1GiB(page) => self.update_pages(memory, located, page),
        })
    }
}

impl<'a> UpdateFrom<'a> {
    /// Sets the flags of the pages from a page on, and returns how many were changed, or `None` if the flags have address bits.
    fn update_pages<S: PageSize, L: LevelCount, T: TableMemory, P: PageTableFrameMapping + Copy>(
        &self,
        memory: &mut T,
        located: Located<P>,
        page: PageIn<S, L>,
    ) -> Option<u64>
        requires valid { Valid (given.at P.places L.LEVELS located (T.tables memory.old)) }
        requires pages { ranges.bad_pages L.LEVELS self.now.first.now self.now.count ≡ None }
        requires is_page { given.IsPageOf L.LEVELS self.now.first.now S.LEVEL page }
        ensures updates { maps.TellsUpdates (given.at P.places L.LEVELS located (T.tables memory.old))
            (given.level_of_page_size self.now.first.now.size)
            (given.position_of L.LEVELS self.now.first.now.start) (bits_of self.now.flags) self.now.count
            (given.at P.places L.LEVELS located (T.tables memory.new)) result }
        ensures lent { T.lent memory.new ≡ T.lent memory.old }
    {
        if self.flags.has_address_bits() {
            return None;
        }
        let mut mapper = MappedPageTableIn::<_, L, T>::new(memory, located.root, located.mapping);
        let (number, flush) = calls::update_flags_range(&mut mapper, page, self.count, self.flags);
        flush.ignore();
        Some(number)
    }
}
