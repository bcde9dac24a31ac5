//! The way in with a pool: what each operation that takes frames from a pool or returns frames to it shares.
ghost use Rattle.std.specs.Prelude.{◌≡◌, ◌≤◌, ℕ, Bool, List, true, false, length};
ghost use Rattle.std.specs.Borrow.{GName};
ghost use Rattle.x86_64_c.specs.Arguments as given;
ghost use Rattle.x86_64_c.specs.private.Pools as pools;
ghost use Rattle.x86_64_model.specs.Hierarchy as mapper;
ghost use Rattle.x86_64_model.specs.Store.{StoreFits, Store, store_of};
ghost use Rattle.x86_64_tables.specs.LentPool.{is_in, served_by};

pub mod pages;
pub mod ranges;

use crate::arguments::Located;
use x86_64::structures::paging::mapper::PageTableFrameMapping;
use x86_64::{FrameStore, LentPool, LevelCount, OwnFrames, TableMemory};

/// What an operation with right arguments does to a hierarchy of `L` levels of tables and to a store of frames.
pub trait PoolStep<L: LevelCount> {
    /// What the step returns.
    type Out;

    /// Whether the store gets the root.
    ghost gives_root: { Self → Bool } = { λ _. false };

    /// Whether a result says that nothing changed.
    ghost refused: { Self.Out → Bool } = { λ _. false };

    /// What the step does, and what it returns.
    ghost does: { Self → (before : mapper.Hierarchy (Unit {0})) → (store : Store)
        → (after : mapper.Hierarchy (Unit {0})) → (rest : Store) → (out : Self.Out) → Type 0 };

    /// Takes the step. The store has `free_count` free frames.
    fn take<T: TableMemory, P: PageTableFrameMapping + Copy, F: FrameStore>(
        &self,
        memory: &mut T,
        located: Located<P>,
        frames: &mut F,
        free_count: usize,
    ) -> Self::Out
        requires fits { StoreFits (given.at P.places L.LEVELS located (T.tables memory.old))
            (store_of F.FrameStore frames.old) }
        requires root { gives_root self.now ≡ true → F.serves frames.old located.root ≡ true }
        requires count { length (F.supply frames.old) ≡ free_count }
        ensures does { does self.now (given.at P.places L.LEVELS located (T.tables memory.old))
            (store_of F.FrameStore frames.old) (given.at P.places L.LEVELS located (T.tables memory.new))
            (store_of F.FrameStore frames.new) result }
        ensures unchanged { refused result ≡ true
            → (T.tables memory.new ≡ T.tables memory.old) × (frames.new ≡ frames.old) }
        ensures serves { F.serves frames.new ≡ F.serves frames.old }
        ensures lent { T.lent memory.new ≡ T.lent memory.old };

    /// The step does the same to a pool that also serves the names of its loans, and to one that serves its own frames alone.
    ghost own_frames: { (step : Self) (own : List ℕ) (array count : GName) (serves : ℕ → Bool) →
        serves ≡ served_by own array count → (h after : mapper.Hierarchy (Unit {0})) (free rest : List ℕ)
        (out : Self.Out) → does step h (pools.stack serves free) after (pools.stack serves rest) out
        → does step h (pools.stack (is_in own) free) after (pools.stack (is_in own) rest) out };
}

/// What is left of a pool after a step, and what the step returned.
#[derive(Drop)]
pub struct Stepped<X> {
    /// What the step returned.
    pub out: X,
    /// The number of free frames.
    pub free_count: usize,
}

/// Returns a list of frames once more. It takes no memory.
fn once_more(own: &OwnFrames) -> OwnFrames
    ghost frames: { List ℕ }
    requires { own.now.frames ≡ frames }
    ensures { result.frames ≡ frames }
{
    let _ = own;
    OwnFrames::of()
}

/// Takes a step with the pool in an array whose first entries are its free frames.
pub fn with_pool<L: LevelCount, T: TableMemory, P: PageTableFrameMapping + Copy, S: PoolStep<L>>(
    memory: &mut T,
    located: Located<P>,
    own: &OwnFrames,
    array: &mut [u64],
    free_count: usize,
    step: &S,
) -> Stepped<S::Out>
    requires in_array { free_count ≤ length array.old }
    requires fits { pools.FitsIn own.now.frames (given.at P.places L.LEVELS located (T.tables memory.old))
        array.old free_count }
    requires root { S.gives_root step.now ≡ true → is_in own.now.frames located.root ≡ true }
    ensures does { pools.Leaves own.now.frames array.old free_count array.new result.free_count
        (λ pool rest. S.does step.now (given.at P.places L.LEVELS located (T.tables memory.old)) pool
        (given.at P.places L.LEVELS located (T.tables memory.new)) rest result.out) }
    ensures unchanged { S.refused result.out ≡ true → (T.tables memory.new ≡ T.tables memory.old)
        × (array.new ≡ array.old) × (result.free_count ≡ free_count) }
    ensures lent { T.lent memory.new ≡ T.lent memory.old }
{
    let mut left = free_count;
    let mut frames = LentPool::new(array, &mut left, once_more(own));
    let out = step.take(memory, located, &mut frames, free_count);
    drop(frames);
    Stepped {
        out,
        free_count: left,
    }
}
