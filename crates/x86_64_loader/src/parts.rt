//! Maps of parts of a segment with pages of one size.
ghost use Rattle.std.specs.Prelude.{◌≡◌, ◌+◌, ◌*◌, ◌%◌, ◌<◌, ◌≤◌};
ghost use Rattle.x86_64_loader.specs.private.Loads.{LoadsPart};
ghost use Rattle.x86_64_loader.specs.Segments.{IsAllowed, count_before, pages_of_part, size_of};
ghost use Rattle.x86_64_mappers.specs.Supplies.{supply_of};
ghost use Rattle.x86_64_model.specs.Hierarchy.{SupplyFits};
ghost use Rattle.x86_64_tables.specs.MapperAnswers.{map_refusal};

use crate::pages::{Stopped, map_pages};
use crate::segment::Segment;
use x86_64::page_after;
use x86_64::structures::paging::mapper::MapToError;
use x86_64::structures::paging::{FrameAllocator, Mapper, Page, PageSize, PhysFrame, Size4KiB};

/// Maps a number of pages of one size, from a page of a segment on. For sizes above 4KiB, this page and its frame
/// must start at a multiple of the size.
pub(crate) fn map_part<S: PageSize, M: Mapper<S>, A: FrameAllocator<Size4KiB>>(
    mapper: &mut M,
    frames: &mut A,
    segment: &Segment,
    first: u64,
    count: u64,
) -> Result<(), Stopped<Size4KiB>>
    requires fits { SupplyFits (M.hierarchy mapper.old) (A.supply frames.old) }
    requires allowed { IsAllowed (M.hierarchy mapper.old) segment.now }
    requires page_aligned { 0 < count → 1 < S.LEVEL → (segment.now.page + first * 0x1000) % S.SIZE ≡ 0 }
    requires frame_aligned { 0 < count → 1 < S.LEVEL → (segment.now.frame + first * 0x1000) % S.SIZE ≡ 0 }
    requires within { first * 0x1000 + count * S.SIZE ≤ size_of segment.now }
    ensures { LoadsPart (M.hierarchy mapper.old) (supply_of A.FrameAllocator frames.old) segment.now
        (pages_of_part S.LEVEL segment.now first count) (first * 0x1000) (count * S.SIZE) result
        (M.hierarchy mapper.new) (supply_of A.FrameAllocator frames.new) }
{
    if count == 0 {
        return Ok(());
    }
    let page = page_after(segment.page, first);
    let page = Page::<S>::from_start_address_unchecked(page.start_address());
    let frame = segment.frame + first;
    let frame = PhysFrame::<S>::from_start_address_unchecked(frame.start_address());
    match map_pages(mapper, frames, page, frame, count, segment.flags) {
        Ok(()) => Ok(()),
        Err(stopped) => Err(Stopped {
            mapped: first + stopped.mapped * (S::SIZE / 0x1000),
            why: in_4kib(stopped.why),
        }),
    }
}

/// Returns the reason as one for a page of 4KiB. The frame in it is the one at the start of the page's frame.
fn in_4kib<S: PageSize>(why: MapToError<S>) -> MapToError<Size4KiB>
    ensures { map_refusal result ≡ map_refusal why }
{
    match why {
        MapToError::FrameAllocationFailed => MapToError::FrameAllocationFailed,
        MapToError::ParentEntryHugePage => MapToError::ParentEntryHugePage,
        MapToError::PageAlreadyMapped(frame) => {
            let frame = PhysFrame::containing_address(frame.start_address());
            MapToError::PageAlreadyMapped(frame)
        }
    }
}

/// Returns the number of 4KiB pages of a segment before the first possible page of 2MiB. These are all pages if the
/// first page and the first frame have different offsets in their 2MiB pages.
#[tactic(auto, unfolding(x86_64_model::specs::Position::index))]
pub(crate) fn pages_before_large(segment: &Segment) -> u64
    ensures counts { result ≡ count_before segment.now }
    ensures within { result ≤ segment.now.pages }
    ensures page { result < segment.now.pages
        → (segment.now.page + result * 0x1000) % 0x20_0000 ≡ 0 }
    ensures frame { result < segment.now.pages
        → (segment.now.frame + result * 0x1000) % 0x20_0000 ≡ 0 }
{
    let page = segment.page.start_address();
    let frame = segment.frame.start_address().as_u64();
    let number = u64::from(page.p1_index());
    if frame / 0x1000 % 512 != number {
        return segment.pages;
    }
    let before = (512 - number) % 512;
    before.min(segment.pages)
}
