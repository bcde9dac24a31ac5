//! Where the bytes of a raw file lie in physical memory, as the command line says it.
ghost use Rattle.std.specs.Prelude.{◌≡◌, ◌⊎◌, ◌==◌, List, IfOk, IfErr, IfSome, IfNone, codes, map};
ghost use Rattle.std.specs.List.{slice_split};
ghost use Rattle.std.specs.Option.{option_copied};
ghost use Rattle.clap.specs.Matches.{first_value, found_of};
ghost use Rattle.ptdump.specs.Placements.{AreRangeParts, AreRanges, IsPlacement, IsRawRange};
ghost use Rattle.ptdump.specs.Reasons.{IsNoPlacement, IsNoRange, IsStopReason};
ghost use Rattle.ptdump.specs.Requests.{IsUnreadArgument, values};
ghost use Rattle.ptdump.specs.declared.stop.Stop.TheVariants.{Failed, NoRange};
ghost use Rattle.ptdump_engine.specs.declared.failure.Failure.TheVariants.{OutOfMemory};
ghost use Rattle.x86_64_dump.specs.declared.placement.RawRange.{RawRange};

use crate::numbers::{NumberOption, number_of, read_number};
use crate::stop::Stop;
use clap::ArgMatches;
use std::alloc::{AllocError, Global};
use x86_64_dump::{Placement, RawRange};

/// Returns the placement that the options for a raw file describe.
///
/// # Errors
///
/// `Failure::OutOfMemory` if memory allocation fails, otherwise what is wrong with the words.
pub fn placement_of<'a>(alloc: Global, arguments: &ArgMatches<'a>) -> Result<Placement, Stop<'a>>
    ensures ok { IfOk result (IsPlacement
        (first_value (found_of arguments.now) (codes "base"))
        (values (found_of arguments.now) (codes "range"))) }
    ensures err { IfErr result (IsUnreadArgument (IsPlacement
        (first_value (found_of arguments.now) (codes "base"))
        (values (found_of arguments.now) (codes "range")))) }
    ensures reason { IfErr result (IsStopReason (found_of arguments.now)) }
{
    placed(
        alloc,
        arguments.get_str("base"),
        arguments.get_strs("range").unwrap_or(&[]),
    )
}

/// Returns the placement that a base describes, if there is one, or ranges.
fn placed<'a>(
    alloc: Global,
    base: Option<&'a str>,
    ranges: &[&'a str],
) -> Result<Placement, Stop<'a>>
    ensures ok { IfOk result
        (IsPlacement (option_copied base.entry) (map (λ text. text.now) ranges.now)) }
    ensures err { IfErr result
        (IsUnreadArgument (IsPlacement (option_copied base.entry) (map (λ text. text.now) ranges.now))) }
    ensures reason { IfErr result
        (IsNoPlacement (option_copied base.entry) (map (λ text. text.now) ranges.now)) }
{
    match (base, ranges) {
        (None, []) => Ok(Placement::Unstated),
        (Some(text), []) => Ok(Placement::Base(number_of(NumberOption::Base, text)?)),
        (None, texts) => Ok(Placement::Ranges(ranges_of(alloc, texts)?)),
        (Some(_), _) => Err(Stop::BaseAndRanges),
    }
}

/// Reads ranges.
fn ranges_of<'a>(alloc: Global, texts: &[&'a str]) -> Result<Vec<RawRange>, Stop<'a>>
    ensures ok { IfOk result (λ ranges. AreRanges (map (λ text. text.now) texts.now) ranges.items) }
    ensures err { IfErr result (IsUnreadArgument (AreRanges (map (λ text. text.now) texts.now))) }
    ensures reason { IfErr result (IsNoRange (map (λ text. text.now) texts.now)) }
{
    let mut ranges = Vec::new(alloc);
    for text in texts {
        ranges.push(range_of(alloc, text)?)?;
    }
    Ok(ranges)
}

/// Reads a range: the offset of its first byte in the file, its address, and the number of its bytes.
fn range_of<'a>(alloc: Global, text: &'a str) -> Result<RawRange, Stop<'a>>
    ensures ok { IfOk result (IsRawRange text.now) }
    ensures err { IfErr result (IsUnreadArgument (IsRawRange text.now)) }
    ensures reason { IfErr result (λ stop. (stop ≡ Failed OutOfMemory) ⊎ (stop ≡ NoRange text.entry)) }
{
    let parts = parts_of(alloc, text)?;
    match range_in(&parts) {
        Some(range) => Ok(range),
        None => Err(Stop::NoRange(text)),
    }
}

/// Returns the parts of a text between its colons.
///
/// # Errors
///
/// `AllocError` if memory allocation fails.
pub fn parts_of<'a>(alloc: Global, text: &'a str) -> Result<Vec<&'a str>, AllocError>
    ensures { IfOk result (λ parts.
        map (λ part. part.now) parts.items ≡ slice_split (λ c. c == 0x3a) text.now) }
{
    text.split(':').collect(alloc)
}

/// Returns the range with an offset, an address and a size.
fn range_in(parts: &[&str]) -> Option<RawRange>
    ensures some { IfSome result (AreRangeParts (map (λ part. part.now) parts.now)) }
    ensures none { IfNone result ((range : RawRange) →
        ¬ (AreRangeParts (map (λ part. part.now) parts.now) range)) }
{
    let [offset, address, size] = parts else {
        return None;
    };
    Some(RawRange {
        offset: read_number(offset)?,
        address: read_number(address)?,
        size: read_number(size)?,
    })
}
