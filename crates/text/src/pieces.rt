//! Pieces of a line. They are written into a buffer one before the other, from the end of the line to its start.
ghost use Rattle.std.specs.Fmt.{digit_glyph, digits};
ghost use Rattle.std.specs.Prelude.{◌≡◌, ◌+◌, ◌<◌, ◌≤◌, ◌/◌, ◌%◌, ◌∷◌, ◌++◌, ◌⊎◌, [], codes, decimal, drop, false, length};
ghost use Rattle.std.specs.Str.{IsAscii};
ghost use Rattle.text.specs.Numbers.{hexadecimal};
ghost use Rattle.text.specs.Sizes.{size_text};

use crate::sizes::{SizeUnit, exact_unit};
use std::str::from_utf8_unchecked;

/// The size in bytes of a buffer for a line, which has room for the text of a mapping or of a region.
pub const CAPACITY: usize = 96;

/// The characters of the digits below 16.
const DIGITS: [u8; 16] = *b"0123456789abcdef";

/// The characters of the two digits in base 16 of each number below 256.
const PAIRS: [u8; 512] = *b"000102030405060708090a0b0c0d0e0f101112131415161718191a1b1c1d1e1f\
    202122232425262728292a2b2c2d2e2f303132333435363738393a3b3c3d3e3f\
    404142434445464748494a4b4c4d4e4f505152535455565758595a5b5c5d5e5f\
    606162636465666768696a6b6c6d6e6f707172737475767778797a7b7c7d7e7f\
    808182838485868788898a8b8c8d8e8f909192939495969798999a9b9c9d9e9f\
    a0a1a2a3a4a5a6a7a8a9aaabacadaeafb0b1b2b3b4b5b6b7b8b9babbbcbdbebf\
    c0c1c2c3c4c5c6c7c8c9cacbcccdcecfd0d1d2d3d4d5d6d7d8d9dadbdcdddedf\
    e0e1e2e3e4e5e6e7e8e9eaebecedeeeff0f1f2f3f4f5f6f7f8f9fafbfcfdfeff";

/// Writes an ASCII character so that it ends at `end`, and returns where it starts.
#[inline(always)]
pub fn put(line: &mut [u8; CAPACITY], end: usize, character: u8) -> usize
    requires ascii { character < 128 }
    requires room { 0 < end }
    requires inside { end ≤ 96 }
    ensures text { drop result line.new ≡ character ∷ drop end line.old }
    ensures start { result + 1 ≡ end }
    ensures ascii { IsAscii (drop end line.old) → IsAscii (drop result line.new) }
{
    line[end - 1] = character;
    end - 1
}

/// Writes a number in base 16 so that it ends at `end`, after `0x`, in lower case and without leading zeros. Returns where
/// it starts.
#[inline(always)]
pub fn put_hexadecimal(line: &mut [u8; CAPACITY], end: usize, number: u64) -> usize
    requires room { 18 ≤ end }
    requires inside { end ≤ 96 }
    ensures text { drop result line.new ≡ hexadecimal number ++ drop end line.old }
    ensures start { result ≤ end }
    ensures short { end ≤ result + 18 }
    ensures ascii { IsAscii (drop end line.old) → IsAscii (drop result line.new) }
{
    let start = put_hexadecimal_digits(line, end, number);
    let start = put(line, start, b'x');
    put(line, start, b'0')
}

/// Writes the digits of a number in base 16 so that they end at `end`, two at once, and returns where they start.
#[inline(always)]
fn put_hexadecimal_digits(line: &mut [u8; CAPACITY], end: usize, number: u64) -> usize
    requires room { length (digits 16 false number) ≤ end }
    requires inside { end ≤ 96 }
    ensures text { drop result line.new ≡ digits 16 false number ++ drop end line.old }
    ensures start { result + length (digits 16 false number) ≡ end }
    ensures ascii { IsAscii (drop end line.old) → IsAscii (drop result line.new) }
{
    let mut start = end;
    let mut left = number;
    while left >= 256 {
        let (high, low) = pair(left % 256);
        start = put(line, start, low);
        start = put(line, start, high);
        left /= 256;
    }
    put_digits(line, start, left, 16)
}

/// Returns the characters of the two digits in base 16 of a number below 256.
#[inline(always)]
fn pair(number: u64) -> (u8, u8)
    requires { number < 256 }
    ensures high { result.0 ≡ digit_glyph false (number / 16) }
    ensures low { result.1 ≡ digit_glyph false (number % 16) }
    ensures ascii { (result.0 < 128) × (result.1 < 128) }
{
    let at = 2 * number as usize;
    (PAIRS[at], PAIRS[at + 1])
}

/// Writes a number in base 10 so that it ends at `end`, and returns where it starts.
#[inline(always)]
pub fn put_decimal(line: &mut [u8; CAPACITY], end: usize, number: u64) -> usize
    requires room { 20 ≤ end }
    requires inside { end ≤ 96 }
    ensures text { drop result line.new ≡ decimal number ++ drop end line.old }
    ensures start { result ≤ end }
    ensures short { end ≤ result + 20 }
    ensures ascii { IsAscii (drop end line.old) → IsAscii (drop result line.new) }
{
    put_digits(line, end, number, 10)
}

/// Writes the digits of a number in a base so that they end at `end`, and returns where they start.
#[inline(always)]
fn put_digits(line: &mut [u8; CAPACITY], end: usize, number: u64, base: u64) -> usize
    requires base { (base ≡ 10) ⊎ (base ≡ 16) }
    requires room { length (digits base false number) ≤ end }
    requires inside { end ≤ 96 }
    ensures text { drop result line.new ≡ digits base false number ++ drop end line.old }
    ensures start { result + length (digits base false number) ≡ end }
    ensures ascii { IsAscii (drop end line.old) → IsAscii (drop result line.new) }
{
    let mut start = end;
    let mut left = number;
    while left >= base {
        start = put(line, start, digit(left % base));
        left /= base;
    }
    put(line, start, digit(left))
}

/// Returns the character of a digit below 16.
#[inline(always)]
fn digit(number: u64) -> u8
    requires { number < 16 }
    ensures text { result ≡ digit_glyph false number }
    ensures ascii { result < 128 }
{
    DIGITS[number as usize]
}

/// Writes a number of bytes so that it ends at `end`, in the largest of KiB, MiB, GiB and TiB that divides it, and returns
/// where it starts.
#[inline(always)]
pub fn put_size(line: &mut [u8; CAPACITY], end: usize, bytes: u64) -> usize
    requires room { 23 ≤ end }
    requires inside { end ≤ 96 }
    ensures text { drop result line.new ≡ size_text bytes ++ drop end line.old }
    ensures start { result ≤ end }
    ensures short { end ≤ result + 23 }
    ensures ascii { IsAscii (drop end line.old) → IsAscii (drop result line.new) }
{
    let unit = exact_unit(bytes);
    let start = put_unit(line, end, unit);
    put_decimal(line, start, bytes / unit.bytes)
}

/// Writes the name of a unit so that it ends at `end`, and returns where it starts.
#[inline(always)]
fn put_unit(line: &mut [u8; CAPACITY], end: usize, unit: SizeUnit) -> usize
    requires name { length unit.name.now ≡ 3 }
    requires name_ascii { IsAscii unit.name.now }
    requires room { 3 ≤ end }
    requires inside { end ≤ 96 }
    ensures text { drop result line.new ≡ unit.name.now ++ drop end line.old }
    ensures start { result + 3 ≡ end }
    ensures ascii { IsAscii (drop end line.old) → IsAscii (drop result line.new) }
{
    let name = unit.name.as_bytes();
    let start = put(line, end, name[2]);
    let start = put(line, start, name[1]);
    put(line, start, name[0])
}

/// Returns the text from `start` on.
#[inline(always)]
pub fn text_from(line: &[u8; CAPACITY], start: usize) -> &str
    requires inside { start ≤ 96 }
    requires ascii { IsAscii (drop start line.now) }
    ensures { result.now ≡ drop start line.now }
{
    unsafe { from_utf8_unchecked(&line[start..]) }
}
