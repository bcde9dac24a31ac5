//! Where the kernel's direct map lies, as the command line says it.
ghost use Rattle.std.specs.Prelude.{◌≡◌, ◌⊎◌, IfOk, IfErr, IfSome, IfNone, codes, map};
ghost use Rattle.clap.specs.Matches.{first_value, found_of};
ghost use Rattle.ptdump.specs.DirectMaps.{AreEnds, IsAddressRange, IsDirectMap};
ghost use Rattle.ptdump.specs.Reasons.{IsStopReason};
ghost use Rattle.ptdump.specs.Requests.{IsUnreadArgument};
ghost use Rattle.ptdump.specs.declared.stop.Stop.TheVariants.{Failed, NoDirectMap};
ghost use Rattle.ptdump_check.specs.declared.checking.AddressRange.{AddressRange};
ghost use Rattle.ptdump_engine.specs.declared.failure.Failure.TheVariants.{OutOfMemory};

use crate::numbers::read_number;
use crate::placement::parts_of;
use crate::stop::Stop;
use clap::ArgMatches;
use ptdump_engine::AddressRange;
use std::alloc::Global;

/// Reads the addresses of the direct map, if they are given.
///
/// # Errors
///
/// `Failure::OutOfMemory` if memory allocation fails, `NoDirectMap` if the text isn't two addresses.
pub fn direct_map_of<'a>(
    alloc: Global,
    arguments: &ArgMatches<'a>,
) -> Result<Option<AddressRange>, Stop<'a>>
    ensures ok { IfOk result
        (IsDirectMap (first_value (found_of arguments.now) (codes "direct-map"))) }
    ensures err { IfErr result
        (IsUnreadArgument (IsDirectMap (first_value (found_of arguments.now) (codes "direct-map")))) }
    ensures reason { IfErr result (IsStopReason (found_of arguments.now)) }
{
    let Some(text) = arguments.get_str("direct-map") else {
        return Ok(None);
    };
    let range = range_of(alloc, text)?;
    Ok(Some(range))
}

/// Reads a range of addresses: its first and its last one.
fn range_of<'a>(alloc: Global, text: &'a str) -> Result<AddressRange, Stop<'a>>
    ensures ok { IfOk result (IsAddressRange text.now) }
    ensures err { IfErr result (IsUnreadArgument (IsAddressRange text.now)) }
    ensures reason { IfErr result (λ stop. (stop ≡ Failed OutOfMemory) ⊎ (stop ≡ NoDirectMap text.entry)) }
{
    let parts = parts_of(alloc, text)?;
    match ends_in(&parts) {
        Some(range) => Ok(range),
        None => Err(Stop::NoDirectMap(text)),
    }
}

/// Returns the range with a first and a last address.
fn ends_in(parts: &[&str]) -> Option<AddressRange>
    ensures some { IfSome result (AreEnds (map (λ part. part.now) parts.now)) }
    ensures none { IfNone result ((range : AddressRange) →
        ¬ (AreEnds (map (λ part. part.now) parts.now) range)) }
{
    let [first, last] = parts else {
        return None;
    };
    Some(AddressRange {
        first: read_number(first)?,
        last: read_number(last)?,
    })
}
