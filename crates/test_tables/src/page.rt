//! Tests of pages and frames against the values of the Rust crate: steps, numbers of frames, and ranges from both ends.
ghost use Rattle.std.specs.Iterator.{IsFinite};

use crate::addr::steps::{Stepped, Steps, check_steps};
use crate::prelude::*;
use std::hash::Hash;
use x86_64_page::laws::{
    blocks_are_taken_in_turn, blocks_are_the_range, frames_are_ordered_by_address,
    page_steps_are_counted, pages_are_ordered_by_position,
};

/// The last page of the lower half of the address space and the first one of the upper half, with four levels.
pub(crate) const LOWER_LAST: u64 = 0x7fff_ffff_f000;

pub(crate) const UPPER_FIRST: u64 = 0xffff_8000_0000_0000;

/// These with five levels.
const LOWER_LAST_57: u64 = 0x00ff_ffff_ffff_f000;

pub(crate) const UPPER_FIRST_57: u64 = 0xff00_0000_0000_0000;

/// The last page of the address space, and the one before it.
pub(crate) const LAST: u64 = 0xffff_ffff_ffff_f000;

pub(crate) const LAST_BUT_ONE: u64 = 0xffff_ffff_ffff_e000;

/// The last frame of 4KiB.
const LAST_FRAME: u64 = 0x000f_ffff_ffff_f000;

/// Steps along pages of 4KiB.
const STEPS: [Steps; 20] = [
    (Some(0), 0, Some(0)),
    (Some(LAST), 0, Some(LAST)),
    (Some(0), 1, Some(0x1000)),
    (Some(0x1000), 1, Some(0x2000)),
    (Some(LOWER_LAST), 1, Some(UPPER_FIRST)),
    (Some(UPPER_FIRST), 1, Some(0xffff_8000_0000_1000)),
    (Some(LOWER_LAST), 0x1_2345_6789, Some(0xffff_9234_5678_8000)),
    (Some(LOWER_LAST), 1 << 35, Some(LAST)),
    (Some(0x7fff_fff0_0000), 0x8_0000_00ff, Some(LAST)),
    (Some(0), 1 << 20, Some(1 << 32)),
    (Some(0), 1 << 32, Some(1 << 44)),
    (Some(0), 1 << 35, Some(UPPER_FIRST)),
    (Some(0xf_f000), 0x7_ffff_ff01, Some(UPPER_FIRST)),
    (Some(LAST), 1, None),
    (Some(0x7fff_fff0_0000), 0x8_0000_0100, None),
    (Some(LOWER_LAST), (1 << 35) + 1, None),
    (Some(0), usize::MAX, None),
    (None, 1, Some(0)),
    (None, (1 << 35) + 1, Some(UPPER_FIRST)),
    (None, usize::MAX, Some(LAST)),
];

const STEPS_57: [Steps; 2] = [
    (Some(LOWER_LAST_57), 1, Some(UPPER_FIRST_57)),
    (Some(UPPER_FIRST_57), 1 << 44, None),
];

/// Steps along pages of 1GiB.
const GIANT_STEPS: [Steps; 2] = [
    (Some(0), 0x3_ffff, Some(0xffff_ffff_c000_0000)),
    (Some(0), 0x4_0000, None),
];

impl<S: PageSize, L: LevelCount> Stepped for PageIn<S, L> {
    fn at(raw: u64) -> Self {
        page(raw)
    }

    fn forward(self, count: usize) -> Option<Self> {
        PageIn::forward_checked(self, count)
    }

    fn backward(self, count: usize) -> Option<Self> {
        PageIn::backward_checked(self, count)
    }

    fn steps_to(self, other: Self) -> (usize, Option<usize>) {
        PageIn::steps_between(&self, &other)
    }
}

/// The rows of `page_step_forward`, `page_step_backwards` and `page_steps_between` of the Rust crate, and more.
#[test]
fn pages_step(rt: HostRuntime) {
    check_steps::<Page<Size4KiB>>(rt, &STEPS);
    check_steps::<Page57<Size4KiB>>(rt, &STEPS_57);
    check_steps::<Page<Size1GiB>>(rt, &GIANT_STEPS);
}

/// Compares the number of the frame that contains an address and the frame with that number, and asserts that no frame
/// has the number `past`.
fn check_number<S: PageSize>(rt: impl Abort + Copy, address: u64, number: u64, past: u64) {
    let frame = frame::<S>(address);
    assert_equal(rt, frame.pfn(), number);
    assert_equal(rt, PhysFrame::try_from_pfn(number), Ok(frame));
    let refused = PhysFrame::<S>::try_from_pfn(past);
    assert_equal(rt, refused, Err(PfnNotValid(past)));
}

#[test]
fn frames_have_numbers(rt: HostRuntime) {
    check_number::<Size4KiB>(rt, 0xc000_0000, 0xc_0000, 0x100_0000_0000);
    check_number::<Size4KiB>(rt, 0x12_3000, 0x123, u64::MAX);
    check_number::<Size4KiB>(rt, u64::MAX, 0xff_ffff_ffff, u64::MAX);
    check_number::<Size2MiB>(rt, 0xc000_0000, 0x600, 0x8000_0000);
    check_number::<Size1GiB>(rt, 0xc000_0000, 3, u64::MAX);
    let found = PhysFrame::<Size4KiB>::from_pfn(0x123);
    assert_equal(rt, found, frame(0x12_3000));
    assert_equal(rt, PhysFrame::from_pfn_unchecked(0x123), found);
}

/// Calls the laws of a size, which hold for all its pages and frames.
fn call_laws<S: PageSize + Hash>() {
    let (four, five) = (page::<S, FourLevels>(0), page::<S, FiveLevels>(0));
    pages_are_ordered_by_position(four, four);
    pages_are_ordered_by_position(five, five);
    frames_are_ordered_by_address(frame::<S>(0), frame(0));
    page_steps_are_counted::<S, FourLevels>();
    page_steps_are_counted::<S, FiveLevels>();
}

#[test]
fn laws_hold_in_three_sizes(_rt: HostRuntime) {
    call_laws::<Size4KiB>();
    call_laws::<Size2MiB>();
    call_laws::<Size1GiB>();
}

/// Compares the number of blocks from one to another, without the other and with it.
fn check_len<B: Block>(rt: impl Abort + Copy, start: B, end: B, lens: [u64; 2]) {
    let (open, closed) = (BlockRange { start, end }, closed(start, end));
    let found = [(open.len(), open.size()), (closed.len(), closed.size())];
    let wanted = lens.map(|len| (len, len.saturating_mul(B::SIZE)));
    assert_equal(rt, found, wanted);
    let hints = [open.size_hint(), closed.size_hint()];
    assert_equal(
        rt,
        hints,
        lens.map(|len| (len as usize, Some(len as usize))),
    );
    assert_equal(
        rt,
        [open.is_empty(), closed.is_empty()],
        lens.map(|len| len == 0),
    );
}

/// The starts of 4KiB pages, and the number of pages from the first one to the second, without it and with it.
const LENS: [(u64, u64, [u64; 2]); 6] = [
    (0xdead_b000, 0xdead_b000 + 50 * 0x1000, [50, 51]),
    (0xdead_b000, 0xdead_b000 + 1000 * 0x1000, [1000, 1001]),
    (LOWER_LAST, UPPER_FIRST + 0x1000, [2, 3]),
    (0x2000, 0x1000, [0, 0]),
    (0x1000, 0x1000, [0, 1]),
    (0, LAST, [68_719_476_735, 68_719_476_736]),
];

/// The rows of `test_page_range_len` of the Rust crate, and more.
#[test]
fn ranges_of_pages_have_lengths(rt: HostRuntime) {
    for (start, end, lens) in LENS {
        check_len(rt, page::<Size4KiB, FourLevels>(start), page(end), lens);
    }
    let (start, end) = (page::<Size2MiB, FourLevels>(0x20_0000), page(0x60_0000));
    check_len(rt, start, end, [2, 3]);
    let small = Page::range(start, end).as_4kib_page_range();
    assert_equal(rt, (small.len(), small.size()), (1024, 4_194_304));
    assert_equal(rt, small, Page::range(page(0x20_0000), page(0x60_0000)));
    let giant = page::<Size1GiB, FourLevels>(0x7fff_c000_0000);
    check_len(rt, giant, page(UPPER_FIRST), [1, 2]);
    let below = page::<Size4KiB, FiveLevels>(LOWER_LAST_57);
    check_len(rt, below, page(UPPER_FIRST_57), [1, 2]);
    let zero = page::<Size4KiB, FiveLevels>(0);
    check_len(rt, zero, page(LAST), [(1 << 45) - 1, 1 << 45]);
}

/// The rows of `test_frame_range_len` of the Rust crate, and more.
#[test]
fn ranges_of_frames_have_lengths(rt: HostRuntime) {
    let start = frame::<Size4KiB>(0xdead_b000);
    check_len(rt, start, frame(0xdead_b000 + 50 * 0x1000), [50, 51]);
    check_len(rt, frame::<Size2MiB>(0), frame(0), [0, 1]);
    let giant = frame::<Size1GiB>(0);
    check_len(rt, giant, frame(LAST_FRAME), [4_194_303, 4_194_304]);
    let all = [1_099_511_627_775, 1_099_511_627_776];
    check_len(rt, frame::<Size4KiB>(0), frame(LAST_FRAME), all);
}

/// Iterates over pages, which start at `first` and at each multiple of 4KiB after it, `count` in all.
fn check_each<I: Iterator<Item = Page<Size4KiB>> + Drop>(
    rt: impl Abort + Copy,
    pages: I,
    first: u64,
    count: u64,
)
    requires { I.Iterator.can_next pages × IsFinite (I.Iterator.remaining pages) }
{
    let mut seen = 0u64;
    for page in pages {
        let start = seen.wrapping_mul(0x1000).wrapping_add(first);
        assert_equal(rt, page.start_address().as_u64(), start);
        seen = seen.saturating_add(1);
    }
    assert_equal(rt, seen, count);
}

/// The rows of `test_page_ranges` and `test_page_range_inclusive_overflow` of the Rust crate.
#[test]
fn ranges_have_each_page(rt: HostRuntime) {
    let first = 0xdead_b000;
    let (start, end) = (page(first), page(first + 1000 * 0x1000));
    check_each(rt, Page::range(start, end), first, 1000);
    check_each(rt, Page::range_inclusive(start, end), first, 1001);
    let first = 0xffff_ffff_ffc1_7000;
    let range = Page::range_inclusive(page(first), page(LAST));
    check_each(rt, range, first, 1001);
}

/// Takes the last page below the gap and the first one above it from a range of these two pages.
fn check_gap<L: LevelCount>(rt: impl Abort + Copy, below: u64, above: u64) {
    let (below, above) = (page::<Size4KiB, L>(below), page(above));
    let mut range = PageIn::range_inclusive(below, above);
    let taken = (range.next(), range.next_back());
    assert_equal(rt, taken, (Some(below), Some(above)));
    let more = (range.next(), range.next_back(), range.is_empty());
    assert_equal(rt, more, (None, None, true));
}

#[test]
fn ranges_go_on_after_the_gap(rt: HostRuntime) {
    check_gap::<FourLevels>(rt, LOWER_LAST, UPPER_FIRST);
    check_gap::<FiveLevels>(rt, LOWER_LAST_57, UPPER_FIRST_57);
    let (below, above) = (page::<Size4KiB, FourLevels>(LOWER_LAST), page(UPPER_FIRST));
    let mut range = Page::range(below, page(UPPER_FIRST + 0x1000));
    let taken = (range.next_back(), range.next());
    assert_equal(rt, taken, (Some(above), Some(below)));
    assert_equal(rt, (range.next(), range.next_back()), (None, None));
}

/// Returns the range from a block to another one.
pub(crate) fn closed<B: Block>(start: B, end: B) -> BlockRangeInclusive<B> {
    BlockRangeInclusive { start, end }
}

/// Takes the last block of all, and compares the range that is left, from it to the one before.
fn check_last<B: Block + Debug + PartialEq>(rt: impl Abort + Copy, last: B, before: B) {
    let mut range = closed(last, last);
    assert_equal(rt, range.next(), Some(last));
    assert_equal(rt, range, closed(last, before));
    assert_equal(rt, (range.next(), range.nth_back(0)), (None, None));
}

/// Takes the first block of all from the back, and compares the range that is left, from the second one to it.
fn check_first<B: Block + Debug + PartialEq>(rt: impl Abort + Copy, first: B, second: B) {
    let mut range = closed(first, first);
    assert_equal(rt, range.next_back(), Some(first));
    assert_equal(rt, range, closed(second, first));
    assert_equal(rt, (range.next_back(), range.nth(0)), (None, None));
}

#[test]
fn the_ends_of_memory_are_in_ranges(rt: HostRuntime) {
    check_last(rt, page::<Size4KiB, FourLevels>(LAST), page(LAST_BUT_ONE));
    check_last(rt, page::<Size4KiB, FiveLevels>(LAST), page(LAST_BUT_ONE));
    let before: PhysFrame<Size4KiB> = frame(0x000f_ffff_ffff_e000);
    check_last(rt, frame(LAST_FRAME), before);
    check_first(rt, page::<Size4KiB, FourLevels>(0), page(0x1000));
    check_first(rt, page::<Size4KiB, FiveLevels>(0), page(0x1000));
}
