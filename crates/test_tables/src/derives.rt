//! Common properties of addresses, pages, frames, indices, levels and flags: they can be copied, ordered and hashed.
use crate::prelude::*;
use std::cmp::Ordering;
use std::hash::{BuildHasher, BuildHasherDefault, DefaultHasher, Hash};

/// Returns the hash of a value.
fn hash_of<T: Hash + Drop>(value: T) -> u64 {
    BuildHasherDefault::<DefaultHasher>::default().hash_one(value)
}

/// Compares two equal values that were created separately, their hashes, and the clone of the first one.
fn check_equal<T: Debug + Copy + Eq + Hash>(rt: impl Abort + Copy, one: T, same: T) {
    let clone = unwrap(rt, one.clone());
    assert_equal_in(rt, one, (clone, hash_of(one)), (same, hash_of(same)));
}

/// Compares two such values with each other, and with a greater one.
fn check_derives<T: Debug + Copy + Ord + Hash>(rt: impl Abort + Copy, one: T, same: T, greater: T) {
    check_equal(rt, one, same);
    let orders = (one.cmp(&same), one.cmp(&greater));
    assert_equal_in(rt, one, orders, (Ordering::Equal, Ordering::Less));
    let orders = (one.partial_cmp(&same), greater.partial_cmp(&one));
    let wanted = (Some(Ordering::Equal), Some(Ordering::Greater));
    assert_equal_in(rt, one, orders, wanted);
    assert!(rt; one != greater);
}

/// Compares the address 0, the first one above the gap and the last one.
fn check_addresses<L: LevelCount>(rt: impl Abort + Copy, middle: u64) {
    let high = VirtAddrIn::<L>::new_truncate(middle);
    let same = VirtAddrIn::new_truncate(0_u64.wrapping_sub(middle));
    check_derives(rt, high, same, VirtAddrIn::new_truncate(u64::MAX));
    let same = VirtAddrIn::new_truncate(middle.wrapping_mul(2));
    check_derives(rt, VirtAddrIn::zero(), same, high);
}

#[test]
fn addresses_have_derives(rt: HostRuntime) {
    check_addresses::<FourLevels>(rt, 1 << 47);
    check_addresses::<FiveLevels>(rt, 1 << 56);
    let five = PhysAddr::new_truncate((1 << 52) + 5);
    check_derives(rt, PhysAddr::new(5), five, PhysAddr::new(6));
}

#[test]
fn indices_and_offsets_have_derives(rt: HostRuntime) {
    let index = PageTableIndex::new_truncate(513);
    check_derives(rt, PageTableIndex::new(1), index, PageTableIndex::new(511));
    let offset = PageOffset::new_truncate(4097);
    check_derives(rt, PageOffset::new(1), offset, PageOffset::new(4095));
}

#[test]
fn levels_and_flags_have_derives(rt: HostRuntime) {
    let (low, high) = (PageTableLevel::Three, PageTableLevel::Four);
    let same = unwrap_some(rt, high.next_lower_level());
    check_derives(rt, low, same, high);
    let (low, high) = (PageTableLevel57::Four, PageTableLevel57::Five);
    let same = unwrap_some(rt, high.next_lower_level());
    check_derives(rt, low, same, high);
    let low = PageTableFlags::PRESENT.union(PageTableFlags::WRITABLE);
    let same = PageTableFlags::from_bits_retain(0x3);
    check_derives(rt, low, same, PageTableFlags::NO_EXECUTE);
}

/// Compares such pages or frames, and ranges of them.
fn check_blocks<B: Block + Debug + Ord + Hash>(rt: impl Abort + Copy, start: B, same: B, end: B) {
    check_derives(rt, start, same, end);
    let range = BlockRange { start, end };
    check_equal(rt, range, BlockRange { start: same, end });
    assert!(rt; range != BlockRange { start: end, end });
    let range = BlockRangeInclusive { start, end };
    check_equal(rt, range, BlockRangeInclusive { start: same, end });
    assert!(rt; range != BlockRangeInclusive { start: end, end });
}

/// Compares two values of a size type, which has no others, and pages and frames of this size.
fn check_size<S: PageSize + Debug + Hash>(rt: impl Abort + Copy, size: S, same: S) {
    check_equal(rt, size, same);
    let orders = (size.cmp(&same), size.partial_cmp(&same));
    assert_equal(rt, orders, (Ordering::Equal, Some(Ordering::Equal)));
    check_blocks(rt, page::<S, FourLevels>(0), page(0x123), page(0x4000_0000));
    check_blocks(rt, page::<S, FiveLevels>(0), page(0x123), page(0x4000_0000));
    check_blocks(rt, frame::<S>(0), frame(0x123), frame(0x4000_0000));
}

/// The rows of `test_page_is_hash` of the Rust crate, and more.
#[test]
fn test_page_is_hash_and_others_have_derives(rt: HostRuntime) {
    check_size(rt, Size4KiB, Size4KiB);
    check_size(rt, Size2MiB, Size2MiB);
    check_size(rt, Size1GiB, Size1GiB);
}
