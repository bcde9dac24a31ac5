//! Numbers as text. They are read in base 10 or 16, and written in base 16.

ghost use Rattle.std.specs.Prelude.{◌≤◌, ◌<◌, ◌^◌};
ghost use Rattle.std.specs.Fmt.{WritesOnOk};
ghost use Rattle.std.specs.Option.{SomeIff};
ghost use Rattle.std.specs.Str.Parse.{IsNumeral, digits_value};
ghost use Rattle.text.specs.Numbers.{IsNumber, number_of, hexadecimal};

use crate::pieces::{CAPACITY, put_hexadecimal, text_from};
use std::fmt::{Formatter, Result as FmtResult, Write};

/// Parses a number below 2^64: decimal digits, or `0x` and hexadecimal digits of either case.
///
/// Returns `None` if and only if the text isn't such a number. Leading zeros are accepted. Signs, `0X` and `_` are not.
pub fn parse_number(text: &str) -> Option<u64>
    ensures { SomeIff result (IsNumber text.now) (number_of text.now) }
{
    match text.strip_prefix("0x") {
        Some(digits) => parse_digits(digits, 16),
        None => parse_digits(text, 10),
    }
}

/// Parses a number below 2^64 in a radix. Returns `None` unless the text consists of one or more digits, with a number below
/// 2^64.
///
/// Requires that the radix is from 2 to 36.
pub fn parse_digits(digits: &str, radix: u32) -> Option<u64>
    requires lower_bound { 2 ≤ radix }
    requires upper_bound { radix ≤ 36 }
    ensures { SomeIff result (IsNumeral radix digits.now × (digits_value radix digits.now < 2 ^ 64))
        (digits_value radix digits.now) }
{
    if digits.starts_with('+') {
        return None;
    }
    u64::from_str_radix(digits, radix).ok()
}

/// Writes a number in base 16, after `0x`, in lower case and without leading zeros.
///
/// # Errors
///
/// The formatter's error if it doesn't take the text.
pub fn write_hexadecimal<W: Write>(f: &mut Formatter<W>, number: u64) -> FmtResult
    ensures { WritesOnOk W.write_str_gives f.old result (hexadecimal number) f.new }
{
    let mut line = [0; CAPACITY];
    let start = put_hexadecimal(&mut line, CAPACITY, number);
    f.write_str(text_from(&line, start))
}
