//! Tests of whether the words below a root form a valid hierarchy, and whether a pool fits it.
ghost use Rattle.std.specs.Prelude.{◌≡◌, ◌<◌, ◌-◌, ◌↔◌, ℕ, List, if◌then◌else◌, length, replicate, IfOk, OnErr, IsTrue, Some, None, false};
ghost use Rattle.std.specs.FinMap.{keys, len};
ghost use Rattle.x86_64_model.specs.Memory.{identity_places, words_of};
ghost use Rattle.x86_64_model.specs.private.Tables.{tables_from};
ghost use Rattle.x86_64_model.specs.private.Marks.{mark_one, mark_all};
ghost use Rattle.x86_64_tables.specs.Tested.{ValidWith, FitsWith};
ghost use Rattle.x86_64_tables.specs.Views.{words_in, words_seen, mark_of};
ghost use Rattle.x86_64_tables.specs.private.Soundness.{AreMarked, TablesSoundFor};

use super::hierarchy_view::HierarchyView;
use super::{IdentityMapping, PageTableFrameMapping, TableMemory};
use crate::frame_alloc::FramePool;
use std::alloc::{AllocError, Global};
use x86_64_addr::index::PageTableIndex;
use x86_64_addr::level_count::{FiveLevels, FourLevels, LevelCount};
use x86_64_page::frame::PhysFrame;
use x86_64_page::page::{PageSize, Size4KiB};

/// The number of 4KiB frames that an entry can address.
pub const FRAME_COUNT: u64 = 1 << 40;

/// Returns true if the words below the root form a valid hierarchy of four levels.
///
/// In a valid hierarchy the root is in the memory, and so is each table that a used word without `HUGE_PAGE` above level one
/// names, present or not. No two of these words name the same table, and none names the root. No table but the root is in
/// frame 0, and no word of level four has `HUGE_PAGE`. Words of level one may have any value.
///
/// The test terminates for any words. It allocates only one mark for each place (the number of a table in the memory).
///
/// # Errors
///
/// `AllocError` if memory allocation fails. A memory without places needs no allocation.
pub fn is_valid_hierarchy<T: TableMemory, P: PageTableFrameMapping>(
    alloc: Global,
    memory: &T,
    mapping: &P,
    root: PhysFrame<Size4KiB>,
) -> Result<bool, AllocError>
    ensures decides { IfOk result (λ b. IsTrue b
        ↔ ValidWith 4 (words_of (T.tables memory.now) (P.places mapping.now)) root None) }
    ensures needs_memory { OnErr result (0 < len (T.tables memory.now)) }
{
    HierarchyView::<FourLevels, _, _>::new(memory, mapping, root, None).is_valid(alloc)
}

/// Returns true if the words below the root form a valid hierarchy of five levels.
///
/// In a valid hierarchy the root is in the memory, and so is each table that a used word without `HUGE_PAGE` above level one
/// names, present or not. No two of these words name the same table, and none names the root. No table but the root is in
/// frame 0, and no word of levels five and four has `HUGE_PAGE`. Words of level one may have any value.
///
/// The test terminates for any words. It allocates only one mark for each place.
///
/// # Errors
///
/// `AllocError` if memory allocation fails. A memory without places needs no allocation.
pub fn is_valid_hierarchy_57<T: TableMemory, P: PageTableFrameMapping>(
    alloc: Global,
    memory: &T,
    mapping: &P,
    root: PhysFrame<Size4KiB>,
) -> Result<bool, AllocError>
    ensures decides { IfOk result (λ b. IsTrue b
        ↔ ValidWith 5 (words_of (T.tables memory.now) (P.places mapping.now)) root None) }
    ensures needs_memory { OnErr result (0 < len (T.tables memory.now)) }
{
    HierarchyView::<FiveLevels, _, _>::new(memory, mapping, root, None).is_valid(alloc)
}

/// Returns true if the words below the root form a valid hierarchy of four levels with a recursive index, the index at which
/// the root names itself. Each frame lies at the place with its number.
///
/// In such a hierarchy the root's word at the index has `PRESENT`, lacks `HUGE_PAGE` and names the root. With that word read
/// as 0, the hierarchy is valid as defined for `is_valid_hierarchy`.
///
/// The test terminates for any words. It allocates only one mark for each place.
///
/// # Errors
///
/// `AllocError` if memory allocation fails. A memory without places needs no allocation.
pub fn is_valid_recursive<T: TableMemory>(
    alloc: Global,
    memory: &T,
    root: PhysFrame<Size4KiB>,
    index: PageTableIndex,
) -> Result<bool, AllocError>
    ensures decides { IfOk result (λ b. IsTrue b
        ↔ ValidWith 4 (words_of (T.tables memory.now) identity_places) root (Some index)) }
    ensures needs_memory { OnErr result (0 < len (T.tables memory.now)) }
{
    HierarchyView::<FourLevels, _, _>::new(memory, &IdentityMapping, root, Some(index)).is_valid(
        alloc,
    )
}

/// Returns true if the words below the root form a valid hierarchy of five levels with a recursive index, the index at which
/// the root names itself. Each frame lies at the place with its number.
///
/// In such a hierarchy the root's word at the index has `PRESENT`, lacks `HUGE_PAGE` and names the root. With that word read
/// as 0, the hierarchy is valid as defined for `is_valid_hierarchy_57`.
///
/// The test terminates for any words. It allocates only one mark for each place.
///
/// # Errors
///
/// `AllocError` if memory allocation fails. A memory without places needs no allocation.
pub fn is_valid_recursive_57<T: TableMemory>(
    alloc: Global,
    memory: &T,
    root: PhysFrame<Size4KiB>,
    index: PageTableIndex,
) -> Result<bool, AllocError>
    ensures decides { IfOk result (λ b. IsTrue b
        ↔ ValidWith 5 (words_of (T.tables memory.now) identity_places) root (Some index)) }
    ensures needs_memory { OnErr result (0 < len (T.tables memory.now)) }
{
    HierarchyView::<FiveLevels, _, _>::new(memory, &IdentityMapping, root, Some(index)).is_valid(
        alloc,
    )
}

/// Returns true if the words below the root form a valid hierarchy of four levels, and a pool fits it.
///
/// The hierarchy is valid as defined for `is_valid_hierarchy`. A pool fits if its frames are distinct, covered and in the
/// memory, none of them is frame 0, the root or a table, and the pool serves the frame of every table but the root: the
/// frame's number is below the pool's limit.
///
/// The test terminates for any words and any pool. It allocates only one mark for each place.
///
/// # Errors
///
/// `AllocError` if memory allocation fails. A memory without places needs no allocation.
pub fn pool_fits<T: TableMemory, P: PageTableFrameMapping>(
    alloc: Global,
    memory: &T,
    mapping: &P,
    root: PhysFrame<Size4KiB>,
    pool: &FramePool,
) -> Result<bool, AllocError>
    ensures decides { IfOk result (λ b. IsTrue b
        ↔ FitsWith 4 (words_of (T.tables memory.now) (P.places mapping.now)) root None pool.now) }
    ensures needs_memory { OnErr result (0 < len (T.tables memory.now)) }
{
    HierarchyView::<FourLevels, _, _>::new(memory, mapping, root, None).pool_fits(alloc, pool)
}

/// Returns true if the words below the root form a valid hierarchy of five levels, and a pool fits it.
///
/// The hierarchy is valid as defined for `is_valid_hierarchy_57`. A pool fits if its frames are distinct, covered and in the
/// memory, none of them is frame 0, the root or a table, and the pool serves the frame of every table but the root: the
/// frame's number is below the pool's limit.
///
/// The test terminates for any words and any pool. It allocates only one mark for each place.
///
/// # Errors
///
/// `AllocError` if memory allocation fails. A memory without places needs no allocation.
pub fn pool_fits_57<T: TableMemory, P: PageTableFrameMapping>(
    alloc: Global,
    memory: &T,
    mapping: &P,
    root: PhysFrame<Size4KiB>,
    pool: &FramePool,
) -> Result<bool, AllocError>
    ensures decides { IfOk result (λ b. IsTrue b
        ↔ FitsWith 5 (words_of (T.tables memory.now) (P.places mapping.now)) root None pool.now) }
    ensures needs_memory { OnErr result (0 < len (T.tables memory.now)) }
{
    HierarchyView::<FiveLevels, _, _>::new(memory, mapping, root, None).pool_fits(alloc, pool)
}

/// Returns true if the words below the root form a valid hierarchy of four levels with a recursive index, and a pool fits
/// it. Each frame lies at the place with its number.
///
/// The hierarchy is valid as defined for `is_valid_recursive`. With the root's word at the index read as 0, a pool fits if
/// its frames are distinct and in the memory, none of them is frame 0, the root or a table, and the pool serves the frame of
/// every table but the root: the frame's number is below the pool's limit.
///
/// The test terminates for any words and any pool. It allocates only one mark for each place.
///
/// # Errors
///
/// `AllocError` if memory allocation fails. A memory without places needs no allocation.
pub fn pool_fits_recursive<T: TableMemory>(
    alloc: Global,
    memory: &T,
    root: PhysFrame<Size4KiB>,
    index: PageTableIndex,
    pool: &FramePool,
) -> Result<bool, AllocError>
    ensures decides { IfOk result (λ b. IsTrue b
        ↔ FitsWith 4 (words_of (T.tables memory.now) identity_places) root (Some index) pool.now) }
    ensures needs_memory { OnErr result (0 < len (T.tables memory.now)) }
{
    HierarchyView::<FourLevels, _, _>::new(memory, &IdentityMapping, root, Some(index)).pool_fits(
        alloc, pool,
    )
}

/// Returns true if the words below the root form a valid hierarchy of five levels with a recursive index, and a pool fits
/// it. Each frame lies at the place with its number.
///
/// The hierarchy is valid as defined for `is_valid_recursive_57`. With the root's word at the index read as 0, a pool fits if
/// its frames are distinct and in the memory, none of them is frame 0, the root or a table, and the pool serves the frame of
/// every table but the root: the frame's number is below the pool's limit.
///
/// The test terminates for any words and any pool. It allocates only one mark for each place.
///
/// # Errors
///
/// `AllocError` if memory allocation fails. A memory without places needs no allocation.
pub fn pool_fits_recursive_57<T: TableMemory>(
    alloc: Global,
    memory: &T,
    root: PhysFrame<Size4KiB>,
    index: PageTableIndex,
    pool: &FramePool,
) -> Result<bool, AllocError>
    ensures decides { IfOk result (λ b. IsTrue b
        ↔ FitsWith 5 (words_of (T.tables memory.now) identity_places) root (Some index) pool.now) }
    ensures needs_memory { OnErr result (0 < len (T.tables memory.now)) }
{
    HierarchyView::<FiveLevels, _, _>::new(memory, &IdentityMapping, root, Some(index)).pool_fits(
        alloc, pool,
    )
}

impl<'a, L: LevelCount, T: TableMemory, P: PageTableFrameMapping> HierarchyView<'a, L, T, P> {
    /// Returns true if the hierarchy is valid.
    ///
    /// Without a recursive index this is defined as for [`is_valid_hierarchy`] with four levels, and as for
    /// [`is_valid_hierarchy_57`] with five; with one as for [`is_valid_recursive`] and [`is_valid_recursive_57`].
    ///
    /// The test terminates for any words. It allocates only one mark for each place.
    ///
    /// # Errors
    ///
    /// `AllocError` if memory allocation fails. A memory without places needs no allocation.
    pub fn is_valid(&self, alloc: Global) -> Result<bool, AllocError>
        ensures decides { IfOk result (λ b. IsTrue b ↔ ValidWith L.LEVELS
            (words_in T.tables P.places self.now) self.now.root self.now.recursive) }
        ensures needs_memory { OnErr result (0 < len (T.tables self.now.memory.now)) }
    {
        if !self.names_itself() {
            return Ok(false);
        }
        let mut marks = clear_marks(alloc, self.memory)?;
        Ok(self.test(FRAME_COUNT).mark_hierarchy(&mut marks))
    }

    /// Returns true if the hierarchy is valid as by [`is_valid`](HierarchyView::is_valid), and a pool fits it as defined for
    /// [`pool_fits`].
    ///
    /// The test terminates for any words and any pool. It allocates only one mark for each place.
    ///
    /// # Errors
    ///
    /// `AllocError` if memory allocation fails. A memory without places needs no allocation.
    pub fn pool_fits(&self, alloc: Global, pool: &FramePool) -> Result<bool, AllocError>
        ensures decides { IfOk result (λ b. IsTrue b ↔ FitsWith L.LEVELS
            (words_in T.tables P.places self.now) self.now.root self.now.recursive pool.now) }
        ensures needs_memory { OnErr result (0 < len (T.tables self.now.memory.now)) }
    {
        if !self.names_itself() {
            return Ok(false);
        }
        let mut marks = clear_marks(alloc, self.memory)?;
        let marks: &mut [bool] = &mut marks;
        let test = self.test(pool.limit());
        Ok(test.mark_hierarchy(marks) && test.mark_pool(marks, pool))
    }

    /// Returns a test of the hierarchy in which the root and the frames with numbers from 1 to `limit` - 1 may be met.
    pub fn test(&self, limit: u64) -> HierarchyTest<'a, L, T, P>
        ensures { result ≡ record { limit = limit; view = self.now } }
    {
        let view = HierarchyView::new(self.memory, self.mapping, self.root, self.recursive);
        HierarchyTest { view, limit }
    }
}

/// Creates one clear mark for each place of a memory.
///
/// # Errors
///
/// `AllocError` if memory allocation fails. A memory without places needs no allocation.
#[tactic(auto, using(crate::specs::PhysMemory::length_keys))]
pub fn clear_marks<T: TableMemory>(alloc: Global, memory: &T) -> Result<Vec<bool>, AllocError>
    ensures clear { IfOk result (λ marks.
        marks.items ≡ replicate (length (keys (T.tables memory.now))) false) }
    ensures needs_memory { OnErr result (0 < len (T.tables memory.now)) }
{
    let mut marks = Vec::new(alloc);
    marks.resize(memory.len(), false)?;
    Ok(marks)
}

/// A hierarchy to be tested. The frames that may be met are the root, and those with numbers from 1 to `limit` - 1.
///
/// There is a mark for each place (the number of a table in the memory), which is set when the place's frame is met.
#[derive(Drop)]
pub struct HierarchyTest<'a, L, T, P> {
    /// The hierarchy.
    pub view: HierarchyView<'a, L, T, P>,
    /// The bound of frame numbers.
    pub limit: u64,
}

impl<'a, L: LevelCount, T: TableMemory, P: PageTableFrameMapping> HierarchyTest<'a, L, T, P> {
    /// Marks the tables, by marks that are all clear at first. Returns false if one of them can't be marked, or a word above level
    /// three has `HUGE_PAGE`.
    pub(super) fn mark_hierarchy(&self, marks: &mut [bool]) -> bool
        requires { marks.old ≡ replicate (length (keys (T.tables self.now.view.memory.now))) false }
        ensures sound { (pool : List ℕ)
            → TablesSoundFor T.tables P.places self.now (L.LEVELS - 1) pool → IsTrue result }
        ensures marked { IsTrue result
            → AreMarked T.tables P.places self.now (L.LEVELS - 1) marks.old marks.new }
    {
        let levels = self.view.levels_below();
        self.mark_tables(marks, self.view.root, levels)
            && self.view.none_huge(self.view.root, levels)
    }

    /// Marks the table in a frame and the tables of `levels` levels below it. Returns false, perhaps with some of them marked, if
    /// one of them has no mark or was marked before.
    ///
    /// Requires that there are as many marks as places.
    pub fn mark_tables(&self, marks: &mut [bool], frame: PhysFrame<Size4KiB>, levels: u8) -> bool
        requires { length marks.old ≡ length (keys (T.tables self.now.view.memory.now)) }
        ensures { (if result then Some marks.new else None) ≡ mark_all (mark_of T.tables P.places self.now)
            marks.old (tables_from levels (words_seen T.tables P.places self.now.view) frame) }
    {
        if !self.mark(marks, frame) {
            return false;
        }
        if 0 < levels {
            for index in 0..512 {
                if let Some(below) = self.view.table_below(frame, index) {
                    if !self.mark_tables(marks, below, levels - 1) {
                        return false;
                    }
                }
            }
        }
        true
    }

    /// Marks each frame of a pool. Returns false, perhaps with some of them marked, if one of them has no mark or was marked
    /// before.
    ///
    /// Requires that there are as many marks as places.
    pub fn mark_pool(&self, marks: &mut [bool], pool: &FramePool) -> bool
        requires { length marks.old ≡ length (keys (T.tables self.now.view.memory.now)) }
        ensures { (if result then Some marks.new else None)
            ≡ mark_all (mark_of T.tables P.places self.now) marks.old pool.now.frames }
    {
        for n in 0..pool.len() {
            if let Some(frame) = pool.frame_at(n) {
                if !self.mark(marks, frame) {
                    return false;
                }
            }
        }
        true
    }

    /// Marks a frame. Returns false if the frame was marked before, or has no mark: it may not be met, or isn't in the memory.
    ///
    /// Requires that there are as many marks as places.
    #[tactic(auto, unfolding(x86_64_model::specs::private::Marks::mark_one))]
    pub fn mark(&self, marks: &mut [bool], frame: PhysFrame<Size4KiB>) -> bool
        requires { length marks.old ≡ length (keys (T.tables self.now.view.memory.now)) }
        ensures { (if result then Some marks.new else None)
            ≡ mark_one (mark_of T.tables P.places self.now) marks.old frame }
    {
        match self.slot(frame) {
            Some(place) => {
                if marks[place] {
                    false
                } else {
                    marks[place] = true;
                    true
                }
            }
            None => false,
        }
    }

    /// Returns the index of a frame's mark, or `None` if the frame may not be met, or isn't in the memory.
    #[tactic(auto, unfolding(x86_64_model::specs::private::Marks::spot_of))]
    fn slot(&self, frame: PhysFrame<Size4KiB>) -> Option<usize>
        ensures value { result ≡ mark_of T.tables P.places self.now frame }
        ensures within { (k : ℕ) → result ≡ Some k → k < length (keys (T.tables self.now.view.memory.now)) }
    {
        let number = frame.start_address().as_u64() / Size4KiB::SIZE;
        if frame == self.view.root || (0 < number && number < self.limit) {
            if self.view.mapping.covers(frame) {
                return self
                    .view
                    .memory
                    .index_of(self.view.mapping.frame_to_pointer(frame));
            }
        }
        None
    }
}
