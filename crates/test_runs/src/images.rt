//! Memories and pools for tests, runs on them, and their contents afterwards.
ghost use Rattle.std.specs.Prelude.{◌↔◌, IsTrue, IfOk};
ghost use Rattle.x86_64_model.specs.Pool.{serves_below};
ghost use Rattle.x86_64_model.specs.Memory.{identity_places};
ghost use Rattle.x86_64_mappers.specs.Layouts.{direct, direct_at};
ghost use Rattle.x86_64_mappers.specs.Offsets.{offset_places, OffsetFits};
ghost use Rattle.x86_64_mappers.specs.Recursive.{recursive_now_at};
ghost use Rattle.x86_64_model.specs.Hierarchy.{◌laid_in◌, PoolFits};

use crate::prelude::*;

/// The number of words of a table.
pub const WORD_COUNT: u16 = 512;

/// The address of the root's frame.
pub const ROOT: u64 = 0x1000;

/// Returns the frame of a size that contains an address.
pub fn frame_at<S: PageSize>(address: u64) -> PhysFrame<S> {
    PhysFrame::containing_address(PhysAddr::new_truncate(address))
}

/// Returns the page of a size that contains an address, for any number of levels.
pub fn page_at<S: PageSize, L: LevelCount>(address: u64) -> PageIn<S, L> {
    PageIn::containing_address(VirtAddrIn::new_truncate(address))
}

/// Returns the flags with these bits, which may include address bits.
pub fn flags_of(bits: u64) -> PageTableFlags {
    PageTableFlags::from_bits_retain(bits)
}

/// Sets the word at an index of the table in a frame.
pub fn set_word(rt: impl Test, memory: &mut PhysMemory, frame: u64, index: u16, word: u64) {
    let table = unwrap_some(rt, memory.table_mut(FramePlace::new(frame / 0x1000)));
    table[PageTableIndex::new_truncate(index)].set_word(word);
}

/// Sets all bits of the words of the table in a frame.
pub fn fill(rt: impl Test, memory: &mut PhysMemory, frame: u64) {
    for index in 0..WORD_COUNT {
        set_word(rt, memory, frame, index, u64::MAX);
    }
}

/// Returns the word at an index of the table in a frame.
pub fn word_at(rt: impl Test, memory: &PhysMemory, frame: u64, index: u16) -> u64 {
    let table = unwrap_some(rt, memory.table(FramePlace::new(frame / 0x1000)));
    table[PageTableIndex::new_truncate(index)].word()
}

/// Creates a pool of free frames, with numbers below a limit.
pub fn pool_of(rt: impl Test, limit: u64, frames: &[u64]) -> FramePool {
    let mut pool = unwrap(rt, FramePool::new(rt.alloc(), limit));
    for frame in frames {
        unwrap(rt, pool.try_add(frame_at(*frame)));
    }
    pool
}

/// Tests whether a hierarchy with this number of levels is valid and a pool fits it.
fn pool_fits_in<L: LevelCount>(
    alloc: Global,
    memory: &PhysMemory,
    root: PhysFrame<Size4KiB>,
    pool: &FramePool,
) -> Result<bool, AllocError>
    ensures { let layout = direct_at L.LEVELS identity_places root in
        let serves = serves_below pool.now.limit in
        IfOk result (λ fits. IsTrue fits ↔ PoolFits (layout laid_in memory.now) serves pool.now.frames) }
{
    if L::LEVELS == 4 {
        pool_fits(alloc, memory, &IdentityMapping, root, pool)
    } else {
        pool_fits_57(alloc, memory, &IdentityMapping, root, pool)
    }
}

/// This for a recursive index.
fn pool_fits_recursive_in<L: LevelCount>(
    alloc: Global,
    memory: &PhysMemory,
    root: PhysFrame<Size4KiB>,
    index: PageTableIndex,
    pool: &FramePool,
) -> Result<bool, AllocError>
    ensures { let layout = recursive_now_at L.LEVELS memory.now root index in
        let serves = serves_below pool.now.limit in
        IfOk result (λ fits. IsTrue fits ↔ PoolFits (layout laid_in memory.now) serves pool.now.frames) }
{
    if L::LEVELS == 4 {
        pool_fits_recursive(alloc, memory, root, index, pool)
    } else {
        pool_fits_recursive_57(alloc, memory, root, index, pool)
    }
}

/// Returns whether a hierarchy with this number of levels is valid and a pool fits it.
pub fn fits<L: LevelCount>(
    rt: impl Test,
    memory: &PhysMemory,
    root: PhysFrame<Size4KiB>,
    pool: &FramePool,
) -> bool
    ensures { let layout = direct_at L.LEVELS identity_places root in
        IsTrue result → PoolFits (layout laid_in memory.now) (serves_below pool.now.limit) pool.now.frames }
{
    unwrap(rt, pool_fits_in::<L>(rt.alloc(), memory, root, pool))
}

/// Returns whether a hierarchy with this number of levels is valid for a recursive index and a pool fits it.
pub fn fits_recursive<L: LevelCount>(
    rt: impl Test,
    memory: &PhysMemory,
    root: PhysFrame<Size4KiB>,
    index: PageTableIndex,
    pool: &FramePool,
) -> bool
    ensures { let layout = recursive_now_at L.LEVELS memory.now root index in
        IsTrue result → PoolFits (layout laid_in memory.now) (serves_below pool.now.limit) pool.now.frames }
{
    let ran = pool_fits_recursive_in::<L>(rt.alloc(), memory, root, index, pool);
    unwrap(rt, ran)
}

/// Executes calls with a mapper over a frame mapping. The mapper is then dropped, and the owner of the memory and of
/// the pool knows that they fit again.
pub fn run_over<P: PageTableFrameMapping + Drop, L: LevelCount, P5: LevelFiveFlags<L>>(
    memory: &mut PhysMemory,
    root: PhysFrame<Size4KiB>,
    mapping: P,
    pool: &mut FramePool,
    calls: &[CallIn<L, P5>],
    replies: &mut Vec<ReplyIn<L>>,
) -> Result<(), AllocError>
    requires { let layout = direct_at L.LEVELS (P.places mapping) root in
        PoolFits (layout laid_in memory.old) (serves_below pool.old.limit) pool.old.frames }
    ensures { let layout = direct_at L.LEVELS (P.places mapping) root in
        PoolFits (layout laid_in memory.new) (serves_below pool.new.limit) pool.new.frames }
{
    let mut mapper = MappedPageTableIn::<P, L>::new(memory, root, mapping);
    run(&mut mapper, pool, calls, replies)
}

/// Executes calls with a mapper of a memory that is mapped at an offset, like [`run_over`].
pub fn run_at_offset(
    memory: &mut PhysMemory,
    root: PhysFrame<Size4KiB>,
    phys_offset: VirtAddr,
    pool: &mut FramePool,
    calls: &[Call],
    replies: &mut Vec<Reply>,
) -> Result<(), AllocError>
    requires pool { let layout = direct identity_places root in
        PoolFits (layout laid_in memory.old) (serves_below pool.old.limit) pool.old.frames }
    requires offset { OffsetFits 4 memory.old phys_offset }
    ensures { let layout = direct (offset_places 4 phys_offset) root in
        PoolFits (layout laid_in memory.new) (serves_below pool.new.limit) pool.new.frames }
{
    offset_has_the_tables_of_the_identity(memory, phys_offset);
    let mut mapper = OffsetPageTable::new(memory, root, phys_offset);
    run(&mut mapper, pool, calls, replies)
}

/// Executes calls with a mapper that reaches tables through the root's entry for itself, like [`run_over`]. That
/// entry stays.
pub fn run_recursive_on<L: LevelCount, P5: LevelFiveFlags<L>>(
    memory: &mut PhysMemory,
    root: PhysFrame<Size4KiB>,
    index: PageTableIndex,
    pool: &mut FramePool,
    calls: &[CallIn<L, P5>],
    replies: &mut Vec<ReplyIn<L>>,
) -> Result<(), AllocError>
    requires { let layout = recursive_now_at L.LEVELS memory.old root index in
        PoolFits (layout laid_in memory.old) (serves_below pool.old.limit) pool.old.frames }
    ensures { let layout = recursive_now_at L.LEVELS memory.new root index in
        PoolFits (layout laid_in memory.new) (serves_below pool.new.limit) pool.new.frames }
{
    let active = Active::<L>::new(memory, root);
    let mut mapper = RecursivePageTableIn::<L>::new_unchecked(active, index);
    run(&mut mapper, pool, calls, replies)
}

/// Executes calls with a mapper over the identity mapping, like [`run_over`], and records their flushes.
pub fn run_flushed_on(
    memory: &mut PhysMemory,
    root: PhysFrame<Size4KiB>,
    pool: &mut FramePool,
    calls: &[Call],
    replies: &mut Vec<Reply>,
    recorder: &mut FlushRecorder,
) -> Result<(), AllocError>
    requires { let layout = direct identity_places root in
        PoolFits (layout laid_in memory.old) (serves_below pool.old.limit) pool.old.frames }
    ensures { let layout = direct identity_places root in
        PoolFits (layout laid_in memory.new) (serves_below pool.new.limit) pool.new.frames }
{
    let mut mapper = MappedPageTable::new(memory, root, IdentityMapping);
    run_flushed(&mut mapper, pool, calls, replies, recorder)
}
