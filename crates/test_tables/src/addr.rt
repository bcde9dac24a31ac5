//! Tests of addresses against the values of the Rust crate: numbers cut to addresses, alignment and steps.

use crate::prelude::*;

pub(crate) mod steps;

/// The last address below the gap and the first one above it, with four levels.
pub(crate) const LAST_LOW: u64 = 0x7fff_ffff_ffff;

pub(crate) const FIRST_HIGH: u64 = 0xffff_8000_0000_0000;

/// These with five levels.
pub(crate) const LAST_LOW_57: u64 = 0x00ff_ffff_ffff_ffff;

pub(crate) const FIRST_HIGH_57: u64 = 0xff00_0000_0000_0000;

/// Numbers, and the raw values of the addresses that they are truncated to, with four levels.
const NUMBERS: [(u64, u64); 8] = [
    (0, 0),
    (1 << 47, FIRST_HIGH),
    (123, 123),
    (123 << 47, FIRST_HIGH),
    (0xffff_7fff_ffff_ffff, LAST_LOW),
    (LAST_LOW, LAST_LOW),
    (FIRST_HIGH, FIRST_HIGH),
    (u64::MAX, u64::MAX),
];

/// These with five levels.
const NUMBERS_57: [(u64, u64); 7] = [
    (0, 0),
    (1 << 47, 1 << 47),
    (LAST_LOW_57, LAST_LOW_57),
    (1 << 56, FIRST_HIGH_57),
    (0xfeff_ffff_ffff_ffff, LAST_LOW_57),
    (FIRST_HIGH_57, FIRST_HIGH_57),
    (u64::MAX, u64::MAX),
];

/// Compares the raw values of the addresses that numbers are truncated to. A number is an address if this is its own.
fn check_truncated<L: LevelCount>(rt: impl Abort + Copy, rows: &[(u64, u64)]) {
    for (number, raw) in rows {
        let address = VirtAddrIn::<L>::new_truncate(*number);
        let is_address = VirtAddrIn::<L>::checked_new(*number).is_some();
        let found = (address.as_u64(), is_address);
        assert_equal_in(rt, *number, found, (*raw, number == raw));
    }
}

#[test]
fn virtaddr_new_truncate(rt: HostRuntime) {
    check_truncated::<FourLevels>(rt, &NUMBERS);
    check_truncated::<FiveLevels>(rt, &NUMBERS_57);
}

/// Returns the least multiple of `align` that isn't below a number. Returns `None` if `align` is no power of two, or
/// the multiple has more than 64 bits.
fn aligned_up(addr: u64, align: u64) -> Option<u64> {
    if !align.is_power_of_two() {
        return None;
    }
    addr.checked_next_multiple_of(align)?;
    Some(align_up(addr, align))
}

/// Numbers, alignments, and the least multiple that isn't below the number, if there is one.
const MULTIPLES: [(u64, u64, Option<u64>); 10] = [
    (0, 1, Some(0)),
    (0, 2, Some(0)),
    (0, 128, Some(0)),
    (0, 1 << 63, Some(0)),
    (1234, 1, Some(1234)),
    (u64::MAX, 1, Some(u64::MAX)),
    (1233, 2, Some(1234)),
    (u64::MAX - 1, 2, Some(u64::MAX - 1)),
    (u64::MAX, 2, None),
    (1234, 3, None),
];

#[test]
#[tactic(auto, using(x86_64_addr::proofs::PowersOfTwo::numeral_power))]
fn test_align_up(rt: HostRuntime) {
    for (addr, align, multiple) in MULTIPLES {
        assert_equal_in(rt, (addr, align), aligned_up(addr, align), multiple);
    }
    assert_equal(rt, align_down(1235, 2), 1234);
    assert_equal(rt, align_down(u64::MAX, 1 << 63), 1 << 63);
}

/// Aligns the address with a raw value up, if the multiple fits in 64 bits, and down, and tests whether it is
/// aligned. Returns `None` if `align` is no power of two.
fn aligned<L: LevelCount>(raw: u64, align: u64) -> Option<(Option<u64>, u64, bool)> {
    if !align.is_power_of_two() {
        return None;
    }
    let address = VirtAddrIn::<L>::new_truncate(raw);
    let up = match address.as_u64().checked_next_multiple_of(align) {
        Some(_) => Some(address.align_up(align).as_u64()),
        None => None,
    };
    let down = address.align_down(align).as_u64();
    Some((up, down, address.is_aligned(align)))
}

/// Raw values, alignments, and the results for their addresses: aligned up, aligned down, and whether they are
/// aligned.
type Row = (u64, u64, Option<u64>, u64, bool);

const ROWS: [Row; 7] = [
    (LAST_LOW, 2, Some(FIRST_HIGH), LAST_LOW - 1, false),
    (FIRST_HIGH, 1 << 47, Some(FIRST_HIGH), FIRST_HIGH, true),
    (FIRST_HIGH, 1 << 48, None, 0, false),
    (0, 1 << 63, Some(0), 0, true),
    (0x1fff, 0x1000, Some(0x2000), 0x1000, false),
    (0x2000, 0x1000, Some(0x2000), 0x2000, true),
    (0x2001, 2, Some(0x2002), 0x2000, false),
];

const ROWS_57: [Row; 3] = [
    (LAST_LOW_57, 2, Some(FIRST_HIGH_57), LAST_LOW_57 - 1, false),
    (
        FIRST_HIGH_57,
        1 << 56,
        Some(FIRST_HIGH_57),
        FIRST_HIGH_57,
        true,
    ),
    (FIRST_HIGH_57, 1 << 57, None, 0, false),
];

/// Aligns addresses, and compares the results.
fn check_aligned<L: LevelCount>(rt: impl Abort + Copy, rows: &[Row]) {
    for (raw, align, up, down, is_aligned) in rows {
        let wanted = Some((*up, *down, *is_aligned));
        assert_equal_in(rt, (*raw, *align), aligned::<L>(*raw, *align), wanted);
    }
}

/// The rows of `test_virt_addr_align_up` and `test_virt_addr_align_down` of the Rust crate, and more.
#[test]
fn test_virt_addr_align_up_and_align_down(rt: HostRuntime) {
    check_aligned::<FourLevels>(rt, &ROWS);
    check_aligned::<FiveLevels>(rt, &ROWS_57);
}
