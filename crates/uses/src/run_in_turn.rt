//! Runs lists of calls on two hierarchies in one memory, with one pool, which share no tables.
ghost use Rattle.std.specs.Prelude.{◌≡◌};
ghost use Rattle.uses.specs.TwoRoots.{AreTwoRoots};
ghost use Rattle.x86_64_model.specs.Pool.{serves_below};

use crate::run_in_space::run_on;
use std::alloc::AllocError;
use x86_64::structures::paging::{PhysFrame, Size4KiB};
use x86_64::{Call, FramePool, IdentityMapping, Reply, TableMemory};

/// A frame of 4KiB.
type Frame = PhysFrame<Size4KiB>;

/// Executes calls on a first hierarchy, and then on a second one, which isn't tested again. The pool fits both again.
pub fn run_in_turn<T: TableMemory>(
    memory: &mut T,
    roots: (Frame, Frame),
    pool: &mut FramePool,
    calls: (&[Call], &[Call]),
    replies: &mut Vec<Reply>,
) -> Result<(), AllocError>
    requires { AreTwoRoots roots.0 roots.1 (T.tables memory.old)
        (serves_below pool.old.limit) pool.old.frames }
    ensures again { AreTwoRoots roots.0 roots.1 (T.tables memory.new)
        (serves_below pool.new.limit) pool.new.frames }
    ensures lent { T.lent memory.new ≡ T.lent memory.old }
{
    run_on(memory, IdentityMapping, roots.0, pool, calls.0, replies)?;
    run_on(memory, IdentityMapping, roots.1, pool, calls.1, replies)
}
