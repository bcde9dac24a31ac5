//! Segments, the tests of them, and the errors of loads.
ghost use Rattle.std.specs.Prelude.{◌≡◌, ◌+◌, ◌-◌, ◌*◌, ◌/◌, ◌^◌, ◌<◌, ◌≤◌, ◌↔◌, true, None, IsTrue, IfSome};
ghost use Rattle.std.specs.List.{All};
ghost use Rattle.x86_64_loader.specs.Segments.{IsAllowed, IsInside, frames_for, table_estimate};
ghost use Rattle.x86_64_model.specs.Hierarchy.{Valid};

use x86_64::structures::paging::mapper::MapToError;
use x86_64::structures::paging::{Mapper, Page, PageTableFlags, PhysFrame, Size4KiB};
use x86_64::{VirtAddr, parent_flags};

/// Pages and the frames that they are mapped to: a number of pages from the first one on, in the order of their
/// positions (addresses counted without the gap), and as many frames from the first one on.
#[derive(Clone, Copy, Debug, PartialEq)]
pub struct Segment {
    /// The first page.
    pub page: Page<Size4KiB>,
    /// The frame that the first page is mapped to.
    pub frame: PhysFrame<Size4KiB>,
    /// The number of pages.
    pub pages: u64,
    /// The flags that each page is mapped with.
    pub flags: PageTableFlags,
}

/// The page at which a load was refused, and the reason. The segments before are mapped, and so are the pages of this
/// segment before the page.
#[derive(Clone, Copy, Debug, PartialEq)]
pub struct LoadError {
    /// The index of the segment.
    pub segment: usize,
    /// The page that was refused.
    pub page: Page<Size4KiB>,
    /// The number of pages of the segment that are mapped.
    pub mapped: u64,
    /// The reason for the refusal.
    pub why: MapToError<Size4KiB>,
}

/// Returns true if segments may be loaded: the flags of each have `PRESENT`, each of its pages and frames exists, and
/// each page may be mapped with its flags, as [`map_allowed`](Mapper::map_allowed) says.
///
/// Looks at each segment once, however many pages it has.
///
/// Requires that the hierarchy is valid.
pub fn segments_allowed<M: Mapper<Size4KiB>>(mapper: &M, segments: &[Segment]) -> bool
    requires { Valid (M.hierarchy mapper.now) }
    ensures allowed { IsTrue result ↔ All (IsAllowed (M.hierarchy mapper.now)) segments.now }
    ensures inside { IsTrue result → All IsInside segments.now }
{
    for segment in segments {
        if !segment_allowed(mapper, segment) {
            return false;
        }
    }
    true
}

/// Returns true if a segment may be loaded.
fn segment_allowed<M: Mapper<Size4KiB>>(mapper: &M, segment: &Segment) -> bool
    ensures { IsTrue result ↔ IsAllowed (M.hierarchy mapper.now) segment.now }
{
    mapper.map_range_allowed(
        segment.page,
        segment.pages,
        segment.frame,
        segment.flags,
        parent_flags(segment.flags),
    )
}

/// Returns a number of frames that suffices to load segments: one for each table on the paths to their pages, as if
/// no table existed and no two segments shared one. Returns `None` if the number has more than 64 bits.
///
/// [`load`](crate::load) and [`load_large`](crate::load_large) say what else they need to succeed.
///
/// Requires that the last page of each segment exists, which [`segments_allowed`] tests.
pub fn frames_needed(segments: &[Segment]) -> Option<u64>
    requires { All IsInside segments.now }
    ensures count { IfSome result (λ count. count ≡ frames_for segments.now) }
    ensures too_many { result ≡ None → 2 ^ 64 ≤ frames_for segments.now }
{
    let mut count = 0u64;
    for segment in segments {
        count = count.checked_add(tables_needed(segment))?;
    }
    Some(count)
}

/// Returns the number of tables on the paths to the pages of a segment.
fn tables_needed(segment: &Segment) -> u64
    requires { IsInside segment.now }
    ensures { result ≡ table_estimate segment.now }
{
    if segment.pages == 0 {
        return 0;
    }
    let (start, _) = VirtAddr::steps_between(&VirtAddr::zero(), &segment.page.start_address());
    let first = start as u64;
    let last = first + (segment.pages - 1) * 0x1000;
    entries_between(first, last, 0x80_0000_0000)
        + entries_between(first, last, 0x4000_0000)
        + entries_between(first, last, 0x20_0000)
}

/// Returns the number of entries, each of which spans `span` positions, on the paths to the positions from `first` to
/// `last`.
fn entries_between(first: u64, last: u64, span: u64) -> u64
    requires some { 0 < span }
    requires ordered { first ≤ last }
    requires room { last < 2 ^ 48 }
    ensures { result ≡ last / span - first / span + 1 }
{
    last / span - first / span + 1
}
