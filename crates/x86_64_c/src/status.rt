//! The statuses that calls return.
ghost use Rattle.std.specs.Prelude.{◌≡◌};
ghost use Rattle.x86_64_c.specs.Calls as calls;
ghost use Rattle.x86_64_c.specs.Entries.{walk_end_status};
ghost use Rattle.x86_64_tables.specs.MapperAnswers.{map_refusal, refusal_of_update};

use x86_64::structures::paging::PageSize;
use x86_64::structures::paging::mapper::{FlagUpdateError, MapToError};
use x86_64_mappings::WalkEnd;

/// Done.
pub const OK: u32 = 0;

/// The address is mapped nowhere.
pub const NOT_MAPPED: u32 = 1;

/// There are more mappings or pages than the array has room for.
pub const MORE: u32 = 2;

/// The hierarchy isn't valid, or the pool doesn't fit it.
pub const NOT_VALID: u32 = 3;

/// The call's condition does not hold.
pub const NOT_ALLOWED: u32 = 4;

/// Too few frames are free for the tables that are missing, or none is for a root.
pub const FRAME_ALLOCATION_FAILED: u32 = 5;

/// An entry above the page has `HUGE_PAGE`, an unmap finds `HUGE_PAGE` in the entry of a 4KiB page or misses it in that of a larger
/// one, or the level of a table's entry isn't above that of the page's own.
pub const PARENT_ENTRY_HUGE_PAGE: u32 = 6;

/// The page's entry is used.
pub const PAGE_ALREADY_MAPPED: u32 = 7;

/// An entry above lacks `PRESENT`, an unmap finds the page's entry without `PRESENT`, or the entry whose flags are to be set is 0 or, as
/// the own entry of a page larger than 4KiB, lacks `HUGE_PAGE`.
pub const PAGE_NOT_MAPPED: u32 = 8;

/// The page's entry names an address that isn't a multiple of the page's size.
pub const INVALID_FRAME_ADDRESS: u32 = 9;

/// The access ends in a page fault.
pub const PAGE_FAULT: u32 = 10;

/// The access needs the table in a frame that has none in the array.
pub const NO_TABLE: u32 = 11;

/// An entry of the root that isn't shared is used.
pub const SPACE_IN_USE: u32 = 12;

/// The entry names a table.
pub const HAS_TABLE: u32 = 13;

/// There are neither four nor five levels, or no such level of tables.
pub const BAD_LEVELS: u32 = 16;

/// The root isn't the address of a frame that has a table.
pub const BAD_ROOT: u32 = 17;

/// An array is too short for what it is said to hold.
pub const BAD_ARRAY: u32 = 18;

/// The address isn't canonical.
pub const BAD_ADDRESS: u32 = 19;

/// The page has none of the three sizes, or its start isn't canonical or no multiple of the size.
pub const BAD_PAGE: u32 = 20;

/// The frame's start isn't below 2^52 or no multiple of the size.
pub const BAD_FRAME: u32 = 21;

/// The kind of the access isn't one of the three, or the number of bits of physical addresses isn't from 32 to 52.
pub const BAD_ACCESS: u32 = 22;

/// The shared indices are out of order, or one is above 511.
pub const BAD_INDICES: u32 = 23;

/// The segments are out of order, overlap, have a place twice, or reach 2^64.
pub const BAD_SEGMENTS: u32 = 24;

/// Returns the status of a refused change of flags.
pub fn flags_status(error: FlagUpdateError) -> u32
    ensures { result ≡ calls.refusal_status (refusal_of_update error) }
{
    match error {
        FlagUpdateError::PageNotMapped => PAGE_NOT_MAPPED,
        FlagUpdateError::ParentEntryHugePage => PARENT_ENTRY_HUGE_PAGE,
    }
}

/// Returns the status of a refused map.
pub fn map_status<S: PageSize>(error: MapToError<S>) -> u32
    ensures { result ≡ calls.refusal_status (map_refusal error) }
{
    match error {
        MapToError::FrameAllocationFailed => FRAME_ALLOCATION_FAILED,
        MapToError::ParentEntryHugePage => PARENT_ENTRY_HUGE_PAGE,
        MapToError::PageAlreadyMapped(_) => PAGE_ALREADY_MAPPED,
    }
}

/// Returns the status that says why a walk ends.
pub fn walk_status(end: WalkEnd) -> u32
    ensures { result ≡ walk_end_status end }
{
    match end {
        WalkEnd::Page => OK,
        WalkEnd::NotPresent => NOT_MAPPED,
        WalkEnd::HugePage => PARENT_ENTRY_HUGE_PAGE,
        WalkEnd::NoTable => NO_TABLE,
    }
}
