//! The way in for ranges of pages whose tables go to a pool: what clean ups and drops share.
ghost use Rattle.std.specs.Prelude.{◌≡◌, ℕ, Bool, List};
ghost use Rattle.std.specs.Borrow.{GName};
ghost use Rattle.x86_64_c.specs.Arguments as given;
ghost use Rattle.x86_64_c.specs.private.Pools as pools;
ghost use Rattle.x86_64_model.specs.Hierarchy as mapper;
ghost use Rattle.x86_64_model.specs.Store.{Store, StoreFits, store_of};
ghost use Rattle.x86_64_tables.specs.LentPool.{is_in, served_by};

use super::{PoolStep, Stepped, with_pool};
use crate::arguments::{Located, range_at};
use crate::operation::Operation;
use crate::status;
use x86_64::structures::paging::mapper::PageTableFrameMapping;
use x86_64::structures::paging::{PageIn, Size4KiB};
use x86_64::{FrameStore, LevelCount, OwnFrames, TableMemory};
use x86_64_page::range::BlockRangeInclusive;

/// What an operation does to the pages of a range and to a store of frames.
pub trait RangeStep {
    /// What the step returns.
    type Out;

    /// What the step does to the pages from the first to the last, by their positions, and what it returns.
    ghost does: { (before : mapper.Hierarchy (Unit {0})) → (store : Store) → (first last : ℕ)
        → (after : mapper.Hierarchy (Unit {0})) → (rest : Store) → (out : Self.Out) → Type 0 };

    /// Takes the step.
    fn take<L: LevelCount, T: TableMemory, P: PageTableFrameMapping + Copy, F: FrameStore>(
        &self,
        memory: &mut T,
        located: Located<P>,
        range: BlockRangeInclusive<PageIn<Size4KiB, L>>,
        frames: &mut F,
    ) -> Self::Out
        requires { StoreFits (given.at P.places L.LEVELS located (T.tables memory.old))
            (store_of F.FrameStore frames.old) }
        ensures does { does (given.at P.places L.LEVELS located (T.tables memory.old))
            (store_of F.FrameStore frames.old) range.start range.end
            (given.at P.places L.LEVELS located (T.tables memory.new))
            (store_of F.FrameStore frames.new) result }
        ensures serves { F.serves frames.new ≡ F.serves frames.old }
        ensures lent { T.lent memory.new ≡ T.lent memory.old };

    /// The step does the same to a pool that also serves the names of its loans, and to one that serves its own frames alone.
    ghost own_frames: { (own : List ℕ) (array count : GName) (serves : ℕ → Bool) →
        serves ≡ served_by own array count → (h after : mapper.Hierarchy (Unit {0})) (free rest : List ℕ)
        (first last : ℕ) (out : Self.Out)
        → does h (pools.stack serves free) first last after (pools.stack serves rest) out
        → does h (pools.stack (is_in own) free) first last after (pools.stack (is_in own) rest) out };
}

/// A step on the pages from the first to the last, with the number of free frames of the pool in the operation's array, and its own
/// frames.
#[derive(Drop)]
pub struct RangeOperation<R> {
    /// The address of the first page.
    pub first: u64,
    /// The address of the last page.
    pub last: u64,
    /// The number of free frames.
    pub free_count: usize,
    /// The pool's own frames.
    pub own: OwnFrames,
    /// The step.
    pub step: R,
}

impl<R: RangeStep + Copy> Operation for RangeOperation<R> {
    ghost use Rattle.x86_64_c.specs.Arguments.{position_of, wrong_ends};
    ghost use Rattle.x86_64_c.specs.PoolCalls.{bad_pool};
    ghost use Rattle.x86_64_c.specs.private.Pools.{FitsIn, Leaves};

    type Out = Stepped<R::Out>;

    type Entry = u64;

    ghost wrong = { λ new levels tables room.
        bad_pool new.free_count room (wrong_ends levels new.first new.last) };

    ghost may = { λ new h array. FitsIn new.own.frames h array new.free_count };

    ghost does = { λ new h array after left stepped.
        Leaves new.own.frames array new.free_count left stepped.free_count (λ pool rest.
        R.does h pool (position_of h.layout.levels new.first) (position_of h.layout.levels new.last)
        after rest stepped.out) };

    fn execute<L: LevelCount, T: TableMemory, P: PageTableFrameMapping + Copy>(
        &self,
        memory: &mut T,
        located: Located<P>,
        array: &mut [u64],
    ) -> Result<Stepped<R::Out>, u32> {
        if array.len() < self.free_count {
            return Err(status::BAD_ARRAY);
        }
        let step = StepOn::<R, L> {
            range: range_at(self.first, self.last)?,
            step: self.step,
        };
        Ok(with_pool(memory, located, &self.own, array, self.free_count, &step))
    }
}

/// A step on the pages of a range.
#[derive(Clone, Copy)]
pub struct StepOn<R, L: LevelCount> {
    range: BlockRangeInclusive<PageIn<Size4KiB, L>>,
    step: R,
}

impl<L: LevelCount, R: RangeStep> PoolStep<L> for StepOn<R, L> {
    type Out = R::Out;

    ghost does = { λ on h pool after rest out. R.does h pool on.range.start on.range.end after rest out };

    fn take<T: TableMemory, P: PageTableFrameMapping + Copy, F: FrameStore>(
        &self,
        memory: &mut T,
        located: Located<P>,
        frames: &mut F,
        _free_count: usize,
    ) -> R::Out {
        self.step.take(memory, located, self.range, frames)
    }

    ghost own_frames = { λ on own array count serves same h after free rest out.
        R.own_frames own array count serves same h after free rest on.range.start on.range.end out };
}
