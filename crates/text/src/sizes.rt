//! Sizes in units. A size is a number of bytes.
ghost use Rattle.std.specs.Fmt.{WritesOnOk};
ghost use Rattle.std.specs.Prelude.{◌≡◌, ◌<◌, ◌≤◌, Bool, length};
ghost use Rattle.std.specs.Str.{IsAscii};
ghost use Rattle.text.specs.Sizes as sizes;

use crate::pieces::{CAPACITY, put_size, text_from};
use std::fmt::{Formatter, Result as FmtResult, Write};

/// A unit of sizes.
#[derive(Clone, Copy)]
pub struct SizeUnit {
    /// Its number of bytes.
    pub bytes: u64,
    /// Its name.
    pub name: &'static str,
}

/// Returns the largest of KiB, MiB, GiB and TiB that divides a number of bytes. For 0 bytes, or if none of them divides the
/// number, the unit is KiB.
pub fn exact_unit(bytes: u64) -> SizeUnit
    ensures bytes { result.bytes ≡ (sizes.exact_unit bytes).bytes }
    ensures name { result.name.now ≡ (sizes.exact_unit bytes).name }
    ensures some { 0 < result.bytes }
    ensures length { length result.name.now ≡ 3 }
    ensures ascii { IsAscii result.name.now }
{
    largest_unit(bytes, true)
}

/// Returns the largest of KiB, MiB, GiB and TiB that is at most a number of bytes, or KiB if there is none.
pub fn unit_of(bytes: u64) -> SizeUnit
    ensures bytes { result.bytes ≡ (sizes.unit_of bytes).bytes }
    ensures name { result.name.now ≡ (sizes.unit_of bytes).name }
    ensures some { 0 < result.bytes }
    ensures low { result.bytes ≤ 0x100_0000_0000 }
{
    largest_unit(bytes, false)
}

/// Returns the largest of TiB, GiB and MiB that is at most a number of bytes and, if it is to be exact, divides it, or KiB
/// if there is none.
fn largest_unit(bytes: u64, exact: bool) -> SizeUnit
    ensures bytes { result.bytes ≡ (sizes.largest_unit (sizes.serves exact bytes)).bytes }
    ensures name { result.name.now ≡ (sizes.largest_unit (sizes.serves exact bytes)).name }
    ensures some { 0 < result.bytes }
    ensures low { result.bytes ≤ 0x100_0000_0000 }
    ensures length { length result.name.now ≡ 3 }
    ensures ascii { IsAscii result.name.now }
{
    let (bytes, name) = if serves(1 << 40, bytes, exact) {
        (1 << 40, "TiB")
    } else if serves(1 << 30, bytes, exact) {
        (1 << 30, "GiB")
    } else if serves(1 << 20, bytes, exact) {
        (1 << 20, "MiB")
    } else {
        (1 << 10, "KiB")
    };
    SizeUnit { bytes, name }
}

/// Returns true if a unit is at most a number of bytes and, if it is to be exact, divides it.
fn serves(unit: u64, bytes: u64, exact: bool) -> bool
    requires some { 0 < unit }
    ensures { result ≡ sizes.serves exact bytes unit }
{
    unit <= bytes && (!exact || bytes % unit == 0)
}

/// Writes a number of bytes in the largest of KiB, MiB, GiB and TiB that divides it. Writes 0 bytes as 0KiB, and rounds down
/// to KiB if none of them divides the number.
///
/// # Errors
///
/// The formatter's error if it doesn't take the text.
pub fn write_size<W: Write>(f: &mut Formatter<W>, bytes: u64) -> FmtResult
    ensures { WritesOnOk W.write_str_gives f.old result (sizes.size_text bytes) f.new }
{
    let mut line = [0; CAPACITY];
    let start = put_size(&mut line, CAPACITY, bytes);
    f.write_str(text_from(&line, start))
}
