//! A kernel with several processes. Each has an address space of its own, whose upper half is the kernel's, and one pool
//! has the frames for all tables.
ghost use Rattle.std.specs.Prelude.{◌≡◌, [], ◌∷◌, true, false, IfNone, IfSome, OnErr, OnOk};
ghost use Rattle.uses.specs.Owned.{hierarchy};
ghost use Rattle.uses.specs.Processes.{is_kernels, ending, lower_clean_up, own_map, own_unmap, GoesOn, IsEnded, IsServed, ProcessIsStarted};
ghost use Rattle.x86_64_model.specs.Call.{MapTo};
ghost use Rattle.x86_64_model.specs.Pool.{serves_below};
ghost use Rattle.x86_64_model.specs.Position.{index};
ghost use Rattle.x86_64_model.specs.Store.{StoreFits};
ghost use Rattle.x86_64_tables.specs.PageTableFlags.{bits_of};
ghost use Rattle.x86_64.specs.declared.call_values.MapperReply.TheVariants.{NotAllowed};
ghost use Rattle.x86_64.specs.Runs.{Stepped};
ghost use Rattle.x86_64.specs.Pairs.{pool_store};

use crate::run_in_space::call_on;
use x86_64::structures::paging::{Page, PageTableFlags, PhysFrame, Size4KiB};
use x86_64::{
    Call, FourLevels, FramePool, GiveUpError, IdentityMapping, Reply, SharedIndices, SizeCall,
    Space, TableMemory, VirtAddr, give_up_space, new_space,
};

/// Starts a process: makes an address space for it, with the kernel's half and nothing mapped in its own half. Returns
/// its root, or `None` if no frame is free. Whatever other processes run, they keep their maps.
///
/// Requires that the kernel's hierarchy is valid, and that the pool fits it.
pub fn start<T: TableMemory>(
    memory: &mut T,
    kernel: PhysFrame<Size4KiB>,
    pool: &mut FramePool,
) -> Option<PhysFrame<Size4KiB>>
    requires { StoreFits (hierarchy kernel (T.tables memory.old)) (pool_store pool.old) }
    ensures started { IfSome result (λ root. ProcessIsStarted (hierarchy kernel (T.tables memory.old))
        (pool_store pool.old) (hierarchy root (T.tables memory.new)) pool.new.frames) }
    ensures full { IfNone result ((pool.old.frames ≡ []) × (memory.new ≡ memory.old)) }
    ensures lent { T.lent memory.new ≡ T.lent memory.old }
    ensures limit { serves_below pool.new.limit ≡ serves_below pool.old.limit }
{
    let template = Space {
        root: kernel,
        recursive: None,
    };
    let half = SharedIndices::UPPER_HALF;
    new_space::<FourLevels, _, _, _>(memory, &IdentityMapping, &template, half, None, pool)
}

/// Maps a page of a process to a frame, and returns the reply, which is `NotAllowed` for a page of the kernel's half.
/// Whatever other processes run, they keep their maps.
///
/// Requires that the hierarchy of the process is valid, and that the pool fits it.
pub fn map_in<T: TableMemory>(
    memory: &mut T,
    process: PhysFrame<Size4KiB>,
    page: Page<Size4KiB>,
    frame: PhysFrame<Size4KiB>,
    flags: PageTableFlags,
    pool: &mut FramePool,
) -> Reply
    requires { StoreFits (hierarchy process (T.tables memory.old)) (pool_store pool.old) }
    ensures served { IsServed (hierarchy process (T.tables memory.old)) (pool_store pool.old)
        (own_map page frame (bits_of flags)) (hierarchy process (T.tables memory.new)) pool.new.frames }
    ensures reply { is_kernels (index 4 page) ≡ false → Stepped (hierarchy process (T.tables memory.old))
        (pool_store pool.old) (MapTo 1 page frame (bits_of flags)) result
        (hierarchy process (T.tables memory.new)) pool.new.frames }
    ensures refused { is_kernels (index 4 page) ≡ true
        → (result ≡ NotAllowed) × (memory.new ≡ memory.old) × (pool.new ≡ pool.old) }
    ensures lent { T.lent memory.new ≡ T.lent memory.old }
    ensures limit { serves_below pool.new.limit ≡ serves_below pool.old.limit }
{
    if is_kernels(page) {
        return Reply::NotAllowed;
    }
    let call = Call::Of4KiB(SizeCall::MapTo { page, frame, flags });
    call_on(memory, IdentityMapping, process, pool, call)
}

/// Ends a process: unmaps these pages of its half, and returns the frames of its tables and its root to the pool.
/// Whatever other processes run, they keep their maps. No frame is lost.
///
/// Requires that the hierarchy of the process is valid, and that the pool fits it and serves its root.
///
/// # Errors
///
/// `EntryUsed` if more is mapped in its half. Then it goes on without these pages.
pub fn end<T: TableMemory>(
    memory: &mut T,
    process: PhysFrame<Size4KiB>,
    pages: &[Page<Size4KiB>],
    pool: &mut FramePool,
) -> Result<(), GiveUpError>
    requires fits { StoreFits (hierarchy process (T.tables memory.old)) (pool_store pool.old) }
    requires served { serves_below pool.old.limit process ≡ true }
    ensures ended { OnOk result (IsEnded (hierarchy process (T.tables memory.old)) (pool_store pool.old)
        (T.tables memory.new) pool.new.frames) }
    ensures goes_on { OnErr result (GoesOn (hierarchy process (T.tables memory.old)) (pool_store pool.old)
        (ending pages.now) (hierarchy process (T.tables memory.new)) pool.new.frames) }
    ensures lent { T.lent memory.new ≡ T.lent memory.old }
    ensures limit { serves_below pool.new.limit ≡ serves_below pool.old.limit }
{
    for page in pages {
        unmap_in(memory, process, *page, pool);
    }
    free_tables(memory, process, pool);
    let space = Space {
        root: process,
        recursive: None,
    };
    let half = SharedIndices::UPPER_HALF;
    give_up_space::<FourLevels, _, _, _>(memory, &IdentityMapping, &space, half, pool)
}

/// Unmaps a page of a process, if it isn't one of the kernel's half.
fn unmap_in<T: TableMemory>(
    memory: &mut T,
    process: PhysFrame<Size4KiB>,
    page: Page<Size4KiB>,
    pool: &mut FramePool,
)
    requires { StoreFits (hierarchy process (T.tables memory.old)) (pool_store pool.old) }
    ensures served { IsServed (hierarchy process (T.tables memory.old)) (pool_store pool.old)
        (own_unmap page) (hierarchy process (T.tables memory.new)) pool.new.frames }
    ensures lent { T.lent memory.new ≡ T.lent memory.old }
    ensures limit { serves_below pool.new.limit ≡ serves_below pool.old.limit }
{
    if !is_kernels(page) {
        let call = Call::Of4KiB(SizeCall::Unmap { page });
        call_on(memory, IdentityMapping, process, pool, call);
    }
}

/// Returns the frames of the empty tables of a process to the pool. Those below the kernel's half stay.
fn free_tables<T: TableMemory>(memory: &mut T, process: PhysFrame<Size4KiB>, pool: &mut FramePool)
    requires { StoreFits (hierarchy process (T.tables memory.old)) (pool_store pool.old) }
    ensures served { IsServed (hierarchy process (T.tables memory.old)) (pool_store pool.old)
        (lower_clean_up ∷ []) (hierarchy process (T.tables memory.new)) pool.new.frames }
    ensures lent { T.lent memory.new ≡ T.lent memory.old }
    ensures limit { serves_below pool.new.limit ≡ serves_below pool.old.limit }
{
    let first = Page::containing_address(VirtAddr::new_truncate(0));
    let last = Page::containing_address(VirtAddr::new_truncate(0x7fff_ffff_f000));
    let call = Call::CleanUpRange(Page::range_inclusive(first, last));
    call_on(memory, IdentityMapping, process, pool, call);
}

/// Returns whether a page is in the upper half of the address space, which is the kernel's.
pub fn is_kernels(page: Page<Size4KiB>) -> bool
    ensures { result ≡ is_kernels (index 4 page) }
{
    usize::from(page.p4_index()) >= 256
}
