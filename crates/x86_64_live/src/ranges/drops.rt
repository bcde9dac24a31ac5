//! Ranges of pages that are dropped, with the tables that become empty.
ghost use Rattle.std.specs.Prelude.{◌≡◌};
ghost use Rattle.x86_64_mappers.specs.CleanUps.{deallocator_store, MayCleanUpInto};
ghost use Rattle.x86_64_mappers.specs.Layouts.{direct_at};
ghost use Rattle.x86_64_live.specs.DroppedRanges.{DropsRange, EndsAtPage};
ghost use Rattle.x86_64_live.specs.PageRanges.{page_entries, reached, AllWhole, ExchangesPages, HasNoPage};
ghost use Rattle.x86_64_model.specs.Entry.{used};
ghost use Rattle.x86_64_model.specs.Hierarchy.{◌laid_in◌, Valid, paths};

use super::search::{Cursor, Wanted, next_page};
use super::{RangeEnd, end_of, set_word_at};
use x86_64_addr::level_count::LevelCount;
use x86_64_mappers::calls::clean_up_range;
use x86_64_mappers::mapped_page_table::MappedPageTableIn;
use x86_64_page::frame::PhysFrame;
use x86_64_page::page::{PageIn, Size4KiB};
use x86_64_page::range::{Block, BlockRangeInclusive};
use x86_64_tables::frame_alloc::FrameDeallocator;
use x86_64_tables::phys_memory::{PageTableFrameMapping, TableMemory};

/// Takes away the pages of a range, as [`take_range`](super::take_range) does, but tells none, and then frees the empty tables of the
/// range, as [`clean_up_range`] does: their frames go to the deallocator, with all words 0. So a process can be ended by one call.
///
/// It passes over the range twice, and each time reads at most all entries of the tables that are there. It stops at a larger page that
/// lies only partly in the range, and returns where: the pages before it are gone, and it and those behind it stay. It never returns
/// [`RangeEnd::More`].
///
/// Requires that the hierarchy is valid, and that the deallocator serves the frame of each table but the root and doesn't hold it.
pub fn drop_range<
    L: LevelCount,
    T: TableMemory,
    P: PageTableFrameMapping + Drop,
    D: FrameDeallocator<Size4KiB>,
>(
    memory: &mut T,
    mapping: P,
    root: PhysFrame<Size4KiB>,
    range: BlockRangeInclusive<PageIn<Size4KiB, L>>,
    frame_deallocator: &mut D,
) -> RangeEnd<L>
    requires { MayCleanUpInto (direct_at L.LEVELS (P.places mapping) root laid_in T.tables memory.old)
        (deallocator_store D.FrameDeallocator frame_deallocator.old) }
    ensures drops { let layout = direct_at L.LEVELS (P.places mapping) root in
        DropsRange (layout laid_in T.tables memory.old)
        (deallocator_store D.FrameDeallocator frame_deallocator.old) range.start range.end result
        (layout laid_in T.tables memory.new)
        (deallocator_store D.FrameDeallocator frame_deallocator.new) }
    ensures lent { T.lent memory.new ≡ T.lent memory.old }
{
    let pages = PageIn::range_inclusive(range.start, range.end);
    let end = take_all::<L, T, P>(memory, &mapping, root, range);
    let mut mapper = MappedPageTableIn::<_, L, T>::new(memory, root, mapping);
    clean_up_range(&mut mapper, pages, frame_deallocator);
    end
}

/// Takes away the pages of a range, and returns why it ends.
fn take_all<L: LevelCount, T: TableMemory, P: PageTableFrameMapping>(
    memory: &mut T,
    mapping: &P,
    root: PhysFrame<Size4KiB>,
    range: BlockRangeInclusive<PageIn<Size4KiB, L>>,
) -> RangeEnd<L>
    requires { Valid (direct_at L.LEVELS (P.places mapping.now) root laid_in T.tables memory.old) }
    ensures whole { AllWhole L.LEVELS used
        (paths (direct_at L.LEVELS (P.places mapping.now) root laid_in T.tables memory.old))
        range.start (reached range.end result) }
    ensures end { EndsAtPage L.LEVELS used
        (paths (direct_at L.LEVELS (P.places mapping.now) root laid_in T.tables memory.old))
        range.start range.end result }
    ensures changes { let layout = direct_at L.LEVELS (P.places mapping.now) root in
        ExchangesPages layout (λ _. 0)
        (page_entries L.LEVELS used (paths (layout laid_in T.tables memory.old))
        range.start (reached range.end result)) (T.tables memory.old) (T.tables memory.new) }
    ensures none { HasNoPage L.LEVELS used
        (paths (direct_at L.LEVELS (P.places mapping.now) root laid_in T.tables memory.new))
        range.start (reached range.end result) }
    ensures lent { T.lent memory.new ≡ T.lent memory.old }
{
    let end = end_of(range);
    let mut cursor = Cursor::at_root::<L>(range.start.place(), root);
    loop {
        match next_page::<L, T, P>(memory, mapping, root, end, Wanted::Used, cursor) {
            Ok(spot) => {
                set_word_at(memory, mapping, &spot, 0);
                cursor = spot.past::<L>(root);
            }
            Err(end) => return end,
        }
    }
}
