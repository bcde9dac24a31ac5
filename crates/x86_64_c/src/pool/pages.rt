//! The way in for pages whose tables come from a pool: what maps and preparations share.
ghost use Rattle.std.specs.Prelude.{◌≡◌, ◌≤◌, ℕ, Bool, false, length, Option, None, Some, IfOk, IfErr, OnErr};
ghost use Rattle.x86_64_c.specs.Arguments as given;
ghost use Rattle.x86_64_c.specs.private.Pools as pools;
ghost use Rattle.x86_64_model.specs.Hierarchy as mapper;
ghost use Rattle.x86_64_model.specs.Store.{Store};

use super::Stepped;
use crate::arguments::{AnyPage, Located, Page, page_of};
use crate::operation::Operation;
use crate::status;
use x86_64::structures::paging::mapper::PageTableFrameMapping;
use x86_64::structures::paging::{PageIn, PageSize};
use x86_64::{LevelCount, OwnFrames, TableMemory};

/// What an operation does to a page and to a store of frames. It returns a status.
pub trait PageStep {
    /// What is wrong with what is asked for beside a page of this size.
    ghost wrong: { Self → (size : ℕ) → Option ℕ } = { λ _ _. None };

    /// Whether a status says that nothing changed.
    ghost refused: { (status : ℕ) → Bool } = { λ _. false };

    /// What the step does, with the level of the page's entry and its position, and which status it returns.
    ghost does: { Self → (before : mapper.Hierarchy (Unit {0})) → (store : Store) → (level page : ℕ)
        → (after : mapper.Hierarchy (Unit {0})) → (rest : Store) → (status : ℕ) → Type 0 };

    /// Takes the step with the pool in an array whose first entries are its free frames, or returns the status that says what is wrong
    /// with what is asked for. Then nothing changes.
    fn take<S: PageSize, L: LevelCount, T: TableMemory, P: PageTableFrameMapping + Copy>(
        &self,
        memory: &mut T,
        located: Located<P>,
        page: PageIn<S, L>,
        own: &OwnFrames,
        array: &mut [u64],
        free_count: usize,
    ) -> Result<Stepped<u32>, u32>
        requires in_array { free_count ≤ length array.old }
        requires fits { wrong self.now S.SIZE ≡ None → pools.FitsIn own.now.frames
            (given.at P.places L.LEVELS located (T.tables memory.old)) array.old free_count }
        ensures bad { IfErr result (λ status. wrong self.now S.SIZE ≡ Some status) }
        ensures unchanged { OnErr result ((T.tables memory.new ≡ T.tables memory.old)
            × (array.new ≡ array.old)) }
        ensures good { IfOk result (λ _. wrong self.now S.SIZE ≡ None) }
        ensures does { IfOk result (λ stepped. pools.TakesStep own.now.frames
            (given.at P.places L.LEVELS located (T.tables memory.old)) array.old free_count
            (λ pool rest. does self.now (given.at P.places L.LEVELS located (T.tables memory.old)) pool
            S.LEVEL page (given.at P.places L.LEVELS located (T.tables memory.new)) rest stepped.out)
            (refused stepped.out)
            (given.at P.places L.LEVELS located (T.tables memory.new)) array.new stepped.free_count) }
        ensures lent { T.lent memory.new ≡ T.lent memory.old };
}

/// A step on a page, with the number of free frames of the pool in the operation's array, and its own frames.
#[derive(Drop)]
pub struct PageOperation<'a, K> {
    /// The page.
    pub page: &'a Page,
    /// The number of free frames.
    pub free_count: usize,
    /// The pool's own frames.
    pub own: OwnFrames,
    /// The step.
    pub step: K,
}

impl<'a, K: PageStep> Operation for PageOperation<'a, K> {
    ghost use Rattle.std.specs.Option.{option_or};
    ghost use Rattle.x86_64_c.specs.Arguments.{level_of_page_size, position_of, wrong_page};
    ghost use Rattle.x86_64_c.specs.PoolCalls.{bad_pool};
    ghost use Rattle.x86_64_c.specs.private.Pools.{FitsIn, TakesStep};

    type Out = Stepped<u32>;

    type Entry = u64;

    ghost wrong = { λ on levels tables room. bad_pool on.free_count room
        (option_or (wrong_page levels on.page.now) (K.wrong on.step on.page.now.size)) };

    ghost may = { λ on h array. FitsIn on.own.frames h array on.free_count };

    ghost does = { λ on h array after left stepped. TakesStep on.own.frames h array on.free_count
        (λ pool rest. K.does on.step h pool (level_of_page_size on.page.now.size)
        (position_of h.layout.levels on.page.now.start) after rest stepped.out) (K.refused stepped.out) after
        left stepped.free_count };

    fn execute<L: LevelCount, T: TableMemory, P: PageTableFrameMapping + Copy>(
        &self,
        memory: &mut T,
        located: Located<P>,
        array: &mut [u64],
    ) -> Result<Stepped<u32>, u32> {
        let count = self.free_count;
        if array.len() < count {
            return Err(status::BAD_ARRAY);
        }
        let page = page_of::<L>(self.page)?;
        let own = &self.own;
        match page {
            AnyPage::Of4KiB(page) => self.step.take(memory, located, page, own, array, count),
            AnyPage::Of2MiB(page) => self.step.take(memory, located, page, own, array, count),
            AnyPage::Of1GiB(page) => self.step.take(memory, located, page, own, array, count),
        }
    }
}
