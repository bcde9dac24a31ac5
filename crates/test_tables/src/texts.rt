//! Tests of the texts of addresses, pages, frames, ranges, flags, entries and tables.
use crate::addr::{FIRST_HIGH, FIRST_HIGH_57};
use crate::page::UPPER_FIRST_57;
use crate::prelude::*;
use x86_64_addr::addr::{PhysAddrNotValid, VirtAddr57NotValid, VirtAddrNotValid};
use x86_64_page::page::AddressNotAligned;
use x86_64_tables::page_table::{FrameError, PageTable, PageTableEntry};

/// Aborts unless a value has this Debug text.
fn assert_text<T: Debug>(rt: impl Abort + AllocGlobal + Copy, value: &T, wanted: &str) {
    let text = unwrap(rt, format!(in rt.alloc(); "{value:?}"));
    assert_equal(rt, text.as_str(), wanted);
}

#[test]
fn addresses_have_texts(rt: HostRuntime) {
    let (low, high) = (VirtAddr::new(0x1000), VirtAddr::new(FIRST_HIGH));
    let wanted = "(VirtAddr(0x1000), VirtAddr(0xffff800000000000))";
    assert_text(rt, &(low, high), wanted);
    let (low, high) = (VirtAddr57::new(0x1000), VirtAddr57::new(FIRST_HIGH_57));
    let wanted = "(VirtAddr57(0x1000), VirtAddr57(0xff00000000000000))";
    assert_text(rt, &(low, high), wanted);
    let addresses = (PhysAddr::new(0x1000), PhysAddr::zero());
    assert_text(rt, &addresses, "(PhysAddr(0x1000), PhysAddr(0x0))");
    let errors = (VirtAddrNotValid(1 << 47), PhysAddrNotValid(1 << 52));
    let wanted = "(VirtAddrNotValid(0x800000000000), PhysAddrNotValid(0x10000000000000))";
    assert_text(rt, &errors, wanted);
    let error = VirtAddr57NotValid(1 << 56);
    assert_text(rt, &error, "VirtAddr57NotValid(0x100000000000000)");
}

#[test]
fn pages_and_frames_have_texts(rt: HostRuntime) {
    let (small, large) = (page::<Size4KiB, FourLevels>(0x4020_1abc), 0x4020_1abc);
    let (large, giant): (Page<Size2MiB>, Page<Size1GiB>) = (page(large), page(large));
    let wanted = "(Page[4KiB](0x40201000), Page[2MiB](0x40200000), Page[1GiB](0x40000000))";
    assert_text(rt, &(small, large, giant), wanted);
    let five: Page57<Size2MiB> = page(UPPER_FIRST_57);
    assert_text(rt, &five, "Page57[2MiB](0xff00000000000000)");
    let (small, large) = (frame::<Size4KiB>(0x4020_1abc), frame::<Size2MiB>(0x20_0000));
    let wanted = "(PhysFrame[4KiB](0x40201000), PhysFrame[2MiB](0x200000))";
    assert_text(rt, &(small, large), wanted);
    let giant = frame::<Size1GiB>(0x4020_1abc);
    assert_text(rt, &giant, "PhysFrame[1GiB](0x40000000)");
    let (error, past) = (AddressNotAligned, PfnNotValid(0x100_0000_0000));
    let text = unwrap(rt, format!(in rt.alloc(); "{error}: {past}"));
    let wanted = "the given address was not sufficiently aligned: PfnNotValid(0x10000000000)";
    assert_equal(rt, text.as_str(), wanted);
}

#[test]
fn ranges_have_texts(rt: HostRuntime) {
    let (start, end) = (page::<Size4KiB, FourLevels>(0), page(0x1000));
    let wanted = "PageRange { start: Page[4KiB](0x0), end: Page[4KiB](0x1000) }";
    assert_text(rt, &Page::range(start, end), wanted);
    let wanted = "PageRangeInclusive { start: Page[4KiB](0x0), end: Page[4KiB](0x1000) }";
    assert_text(rt, &Page::range_inclusive(start, end), wanted);
    let five = Page57::<Size4KiB>::range_inclusive(page(0), page(0x1000));
    let wanted = "PageRangeInclusive57 { start: Page57[4KiB](0x0), end: Page57[4KiB](0x1000) }";
    assert_text(rt, &five, wanted);
    let (start, end) = (frame::<Size2MiB>(0), frame(0x20_0000));
    let wanted = "PhysFrameRange { start: PhysFrame[2MiB](0x0), end: PhysFrame[2MiB](0x200000) }";
    assert_text(rt, &PhysFrame::range(start, end), wanted);
    let closed = PhysFrame::range_inclusive(start, end);
    let wanted =
        "PhysFrameRangeInclusive { start: PhysFrame[2MiB](0x0), end: PhysFrame[2MiB](0x200000) }";
    assert_text(rt, &closed, wanted);
}

/// Returns the texts of all entries, separated by commas, in brackets.
fn text_of(rt: impl Abort + AllocGlobal + Copy, table: &PageTable) -> String {
    let mut text = unwrap(rt, format!(in rt.alloc(); "[{:?}", table[0]));
    for index in 1..512 {
        text = unwrap(rt, format!(in rt.alloc(); "{text}, {:?}", table[index]));
    }
    unwrap(rt, format!(in rt.alloc(); "{text}]"))
}

#[test]
fn flags_and_entries_have_texts(rt: HostRuntime) {
    let odd = PageTableFlags::from_bits_retain(0x1003);
    let flags = (PageTableFlags::empty(), odd, PageTableFlags::all());
    let wanted =
        "(PageTableFlags(0x0), PageTableFlags(0x1003), PageTableFlags(0xfff0000000000fff))";
    assert_text(rt, &flags, wanted);
    let entry = PageTableEntry::from_word(0x5003);
    let wanted = "PageTableEntry { addr: PhysAddr(0x5000), flags: PageTableFlags(0x3) }";
    assert_text(rt, &entry, wanted);
    let errors = [FrameError::FrameNotPresent, FrameError::HugeFrame];
    assert_text(rt, &errors, "[FrameNotPresent, HugeFrame]");
    let mut table = PageTable::new();
    table[511].set_addr(PhysAddr::new(0x6000), PageTableFlags::WRITABLE);
    let wanted = text_of(rt, &table);
    assert_text(rt, &table, &wanted);
}
