//! The tests of a hierarchy over marks that the caller lends. They take no memory.
ghost use Rattle.std.specs.Prelude.{◌≡◌, ◌≤◌, ◌+◌, ◌-◌, ◌↔◌, suc, if◌then◌else◌, length, replicate, reverse, count_by, IsTrue, Some, None, false};
ghost use Rattle.std.specs.FinMap as map;
ghost use Rattle.x86_64_model.specs.Entry.{is_frame};
ghost use Rattle.x86_64_model.specs.Memory.{words_of};
ghost use Rattle.x86_64_model.specs.private.Marks.{mark_one, mark_all};
ghost use Rattle.x86_64_tables.specs.LentPool.{FitsRoom};
ghost use Rattle.x86_64_tables.specs.Tested.{ValidWith};
ghost use Rattle.x86_64_tables.specs.Views.{mark_of};
ghost use Rattle.x86_64_tables.specs.private.Soundness.{TablesSoundFor, tables_met};

use super::hierarchy_view::HierarchyView;
use super::validity::{FRAME_COUNT, HierarchyTest};
use super::{PageTableFrameMapping, TableMemory};
use x86_64_addr::addr::PhysAddr;
use x86_64_addr::level_count::LevelCount;
use x86_64_page::frame::PhysFrame;
use x86_64_page::page::Size4KiB;

/// Returns true if the words below the root form a valid hierarchy. Allocates no memory.
///
/// The hierarchies are those of [`is_valid_hierarchy`](super::is_valid_hierarchy) with four levels, and of
/// [`is_valid_hierarchy_57`](super::is_valid_hierarchy_57) with five. The marks are the test's to write to.
///
/// Requires that there are as many marks as places. They may be set or not. The test ends for any words.
pub fn is_valid_by_marks<L: LevelCount, T: TableMemory, P: PageTableFrameMapping>(
    memory: &T,
    mapping: &P,
    root: PhysFrame<Size4KiB>,
    marks: &mut [bool],
) -> bool
    requires { length marks.old ≡ map.len (T.tables memory.now) }
    ensures { IsTrue result
        ↔ ValidWith L.LEVELS (words_of (T.tables memory.now) (P.places mapping.now)) root None }
{
    marks.fill(false);
    let view = HierarchyView::<L, _, _>::new(memory, mapping, root, None);
    view.test(FRAME_COUNT).mark_hierarchy(marks)
}

/// Returns true if the words below the root form a valid hierarchy, a pool fits it, and an array has room for every frame that the
/// pool may ever hold. Allocates no memory.
///
/// The pool is a stack of the addresses of frames: the last is handed out first. An address that is no multiple of 4096 below 2^52
/// fits no hierarchy. The array has places for `capacity` frames, which are those of the pool, and those of the tables but for the
/// root, since these may come back to the pool. The hierarchies are those of [`is_valid_by_marks`], and the marks are the test's to
/// write to.
///
/// Requires that there are as many marks as places. They may be set or not. The test ends for any words and any addresses.
pub fn pool_fits_by_marks<L: LevelCount, T: TableMemory, P: PageTableFrameMapping>(
    memory: &T,
    mapping: &P,
    root: PhysFrame<Size4KiB>,
    frames: &[u64],
    capacity: usize,
    marks: &mut [bool],
) -> bool
    requires { length marks.old ≡ map.len (T.tables memory.now) }
    ensures { IsTrue result ↔ FitsRoom L.LEVELS
        (words_of (T.tables memory.now) (P.places mapping.now)) root capacity (reverse frames.now) }
{
    marks.fill(false);
    let view = HierarchyView::<L, _, _>::new(memory, mapping, root, None);
    view.test(FRAME_COUNT).has_room_by(frames, capacity, marks)
}

impl<'a, L: LevelCount, T: TableMemory, P: PageTableFrameMapping> HierarchyTest<'a, L, T, P> {
    /// Returns whether the tables and these frames are sound, and there are at most one more of them than the capacity, by marks
    /// that are all clear at first.
    fn has_room_by(&self, frames: &[u64], capacity: usize, marks: &mut [bool]) -> bool
        requires { marks.old ≡ replicate (length (map.keys (T.tables self.now.view.memory.now))) false }
        ensures { IsTrue result ↔ (TablesSoundFor T.tables P.places self.now (L.LEVELS - 1) frames.now
            × (length (tables_met T.tables P.places self.now (L.LEVELS - 1)) + length frames.now
            ≤ suc capacity)) }
    {
        if !self.mark_hierarchy(marks) {
            return false;
        }
        if !self.mark_frames(marks, frames) {
            return false;
        }
        // The root is marked too.
        count_set(marks) <= capacity.saturating_add(1)
    }

    /// Marks the frame at each address, in order. Returns false, perhaps with some of them marked, if an address isn't that of a
    /// frame (a multiple of 4096 below 2^52), or its frame has no mark or was marked before.
    ///
    /// Requires that there are as many marks as places.
    pub fn mark_frames(&self, marks: &mut [bool], frames: &[u64]) -> bool
        requires { length marks.old ≡ length (map.keys (T.tables self.now.view.memory.now)) }
        ensures { (if result then Some marks.new else None)
            ≡ mark_all (mark_of T.tables P.places self.now) marks.old frames.now }
    {
        for &address in frames {
            if !self.mark_at(marks, address) {
                return false;
            }
        }
        true
    }

    /// Marks the frame at an address, if there is one that may be met and was not before.
    fn mark_at(&self, marks: &mut [bool], address: u64) -> bool
        requires { length marks.old ≡ length (map.keys (T.tables self.now.view.memory.now)) }
        ensures { (if result then Some marks.new else None)
            ≡ mark_one (mark_of T.tables P.places self.now) marks.old address }
    {
        match frame_at(address) {
            Some(frame) => self.mark(marks, frame),
            None => false,
        }
    }
}

/// Returns the frame that starts at an address, if one does.
fn frame_at(address: u64) -> Option<PhysFrame<Size4KiB>>
    ensures { result ≡ (if is_frame address then Some address else None) }
{
    let address = PhysAddr::try_new(address).ok()?;
    PhysFrame::from_start_address(address).ok()
}

/// Returns the number of marks that are set.
pub fn count_set(marks: &[bool]) -> usize
    ensures { result ≡ count_by (λ mark. mark) marks.now }
{
    marks.iter().filter(|mark| **mark).count()
}
