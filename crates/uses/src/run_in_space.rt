//! Runs a list of calls on one of several address spaces: hierarchies in one memory, with one pool, whose roots have the
//! same entries at some indices of the highest level, and so the same tables below these.
ghost use Rattle.std.specs.Prelude.{◌≡◌, [], ◌∷◌, map, OnErr, OnOk};
ghost use Rattle.uses.specs.Owned.{hierarchy_at};
ghost use Rattle.uses.specs.SpacesBeside.{LeavesSpaces};
ghost use Rattle.x86_64_model.specs.Store.{StoreFits, store_of};
ghost use Rattle.x86_64.specs.Calls.{to_call};
ghost use Rattle.x86_64.specs.Runs.{LeavesFree, Ran, Stepped};

use std::alloc::AllocError;
use x86_64::structures::paging::mapper::{MappedPageTableIn, PageTableFrameMapping};
use x86_64::structures::paging::{PhysFrame, Size4KiB};
use x86_64::{CallIn, FrameStore, LevelCount, LevelFiveFlags, ReplyIn, TableMemory, run, run_call};
use x86_64_model::laws::spaces::{
    calls_keep_root_entries, calls_keep_what_they_avoid, shared_halves_stay, spaces_stay,
};

/// Executes calls on one address space, whichever others there are beside it, and appends a reply for each.
///
/// If the calls touch nothing below the shared indices, as those of a process do, the others keep all their mappings. If
/// they leave the root's entries there, as those of a kernel do, the others see what was done below these. All are
/// address spaces again, so that the next calls may be on any of them.
///
/// Requires that the hierarchy with this root is valid, and that the frames fit it.
///
/// # Errors
///
/// `AllocError` if memory allocation fails for the replies. Then nothing changes.
pub fn run_on<
    L: LevelCount,
    P5: LevelFiveFlags<L>,
    T: TableMemory,
    P: PageTableFrameMapping + Drop,
    F: FrameStore,
>(
    memory: &mut T,
    mapping: P,
    root: PhysFrame<Size4KiB>,
    frames: &mut F,
    calls: &[CallIn<L, P5>],
    replies: &mut Vec<ReplyIn<L>>,
) -> Result<(), AllocError>
    requires { StoreFits (hierarchy_at L.LEVELS (P.places mapping) root (T.tables memory.old))
        (store_of F.FrameStore frames.old) }
    ensures ran { let h = hierarchy_at L.LEVELS (P.places mapping) root in OnOk result (
        Ran (to_call L.LEVELS P5.bits) (h (T.tables memory.old)) (store_of F.FrameStore frames.old) calls.now
        replies.old.items replies.new.items (h (T.tables memory.new)) (F.supply frames.new)) }
    ensures refused { OnErr result ((T.tables memory.new ≡ T.tables memory.old) × (frames.new ≡ frames.old)) }
    ensures beside { LeavesSpaces (hierarchy_at L.LEVELS (P.places mapping) root (T.tables memory.old))
        (store_of F.FrameStore frames.old) (map (to_call L.LEVELS P5.bits) calls.now)
        (T.tables memory.new) (F.supply frames.new) }
    ensures same { (T.lent memory.new ≡ T.lent memory.old) × (F.serves frames.new ≡ F.serves frames.old) }
{
    spaces_stay();
    shared_halves_stay();
    calls_keep_what_they_avoid();
    calls_keep_root_entries();
    let mut mapper: MappedPageTableIn<P, L, T> = MappedPageTableIn::new(memory, root, mapping);
    run(&mut mapper, frames, calls, replies)
}

/// Executes one call on one address space, as [`run_on`] does each of a list, and takes no memory.
///
/// Requires that the hierarchy with this root is valid, and that the frames fit it.
pub fn call_on<
    L: LevelCount,
    P5: LevelFiveFlags<L>,
    T: TableMemory,
    P: PageTableFrameMapping + Drop,
    F: FrameStore,
>(
    memory: &mut T,
    mapping: P,
    root: PhysFrame<Size4KiB>,
    frames: &mut F,
    call: CallIn<L, P5>,
) -> ReplyIn<L>
    requires { StoreFits (hierarchy_at L.LEVELS (P.places mapping) root (T.tables memory.old))
        (store_of F.FrameStore frames.old) }
    ensures step { let h = hierarchy_at L.LEVELS (P.places mapping) root in
        Stepped (h (T.tables memory.old)) (store_of F.FrameStore frames.old) (to_call L.LEVELS P5.bits call)
        result (h (T.tables memory.new)) (F.supply frames.new) }
    ensures free { let h = hierarchy_at L.LEVELS (P.places mapping) root in
        LeavesFree (h (T.tables memory.old)) (store_of F.FrameStore frames.old)
        (to_call L.LEVELS P5.bits call) (h (T.tables memory.new)) (F.supply frames.new) }
    ensures beside { LeavesSpaces (hierarchy_at L.LEVELS (P.places mapping) root (T.tables memory.old))
        (store_of F.FrameStore frames.old) (to_call L.LEVELS P5.bits call ∷ [])
        (T.tables memory.new) (F.supply frames.new) }
    ensures same { (T.lent memory.new ≡ T.lent memory.old) × (F.serves frames.new ≡ F.serves frames.old) }
{
    spaces_stay();
    shared_halves_stay();
    calls_keep_what_they_avoid();
    calls_keep_root_entries();
    let mut mapper: MappedPageTableIn<P, L, T> = MappedPageTableIn::new(memory, root, mapping);
    run_call(&mut mapper, frames, call)
}
