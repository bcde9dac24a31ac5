//! The meaning of the entries of pages.
ghost use Rattle.std.specs.Prelude.{◌≡◌, ◌==◌, if◌then◌else◌, bit_or};
ghost use Rattle.x86_64_mappers.specs.private.LeafFrames.{leaf_frame, is_page_entry, named_frame};
ghost use Rattle.x86_64_mappers.specs.private.Results.{translation_answer, unmap_result};
ghost use Rattle.x86_64_tables.specs.PageTableFlags.{bits_of};

use bitflags::Flags;
use x86_64_page::frame::PhysFrame;
use x86_64_page::page::{AddressNotAligned, PageSize};
use x86_64_tables::errors::{TranslateError, UnmapError};
use x86_64_tables::page_table::{PageTableEntry, PageTableFlags};

/// Returns the frame that the entry of a page of this size names.
///
/// # Errors
///
/// - `PageNotMapped` if the entry lacks `PRESENT`.
/// - Otherwise `ParentEntryHugePage` if it has `HUGE_PAGE` and the size is 4KiB, or lacks it and the size is 2MiB or
///   1GiB.
/// - Otherwise `InvalidFrameAddress` if its address isn't a multiple of the size.
pub fn leaf_frame<S: PageSize>(entry: &PageTableEntry) -> Result<PhysFrame<S>, UnmapError>
    ensures { unmap_result result ≡ leaf_frame S.LEVEL entry.now }
{
    let flags = entry.flags();
    if !flags.contains(PageTableFlags::PRESENT) {
        return Err(UnmapError::PageNotMapped);
    }
    if flags.contains(PageTableFlags::HUGE_PAGE) != (S::LEVEL > 1) {
        return Err(UnmapError::ParentEntryHugePage);
    }
    let address = entry.addr();
    match PhysFrame::from_start_address(address) {
        Ok(frame) => Ok(frame),
        Err(AddressNotAligned) => Err(UnmapError::InvalidFrameAddress(address)),
    }
}

/// Returns true if an entry maps a page of this size: it is used, and has `HUGE_PAGE` for 2MiB and 1GiB.
pub fn maps_page<S: PageSize>(entry: &PageTableEntry) -> bool
    ensures { result ≡ is_page_entry S.LEVEL entry.now }
{
    !entry.is_unused() && (S::LEVEL == 1 || entry.flags().contains(PageTableFlags::HUGE_PAGE))
}

/// Returns the frame that the entry of a page of this size names, `PRESENT` or not.
///
/// # Errors
///
/// - `PageNotMapped` if the entry is unused.
/// - Otherwise `InvalidFrameAddress`, for 2MiB and 1GiB, if it lacks `HUGE_PAGE` or its address isn't a multiple of
///   the size.
pub fn named_frame<S: PageSize>(entry: &PageTableEntry) -> Result<PhysFrame<S>, TranslateError>
    ensures { translation_answer result ≡ named_frame S.LEVEL entry.now }
{
    if entry.is_unused() {
        return Err(TranslateError::PageNotMapped);
    }
    let address = entry.addr();
    if !maps_page::<S>(entry) {
        return Err(TranslateError::InvalidFrameAddress(address));
    }
    match PhysFrame::from_start_address(address) {
        Ok(frame) => Ok(frame),
        Err(AddressNotAligned) => Err(TranslateError::InvalidFrameAddress(address)),
    }
}

/// Returns the flags for the entry of a page of this size: the given ones, and `HUGE_PAGE` for 2MiB and 1GiB.
pub fn leaf_flags<S: PageSize>(flags: PageTableFlags) -> PageTableFlags
    ensures { bits_of result ≡ (if S.LEVEL == 1 then bits_of flags else bit_or (bits_of flags) 0x80) }
{
    if S::LEVEL == 1 {
        flags
    } else {
        flags.union(PageTableFlags::HUGE_PAGE)
    }
}
