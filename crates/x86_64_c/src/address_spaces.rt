//! Several address spaces in the caller's tables: a test whether they fit together with one pool, a new space, and one that is given up.
ghost use Rattle.std.specs.Prelude.{◌≡◌, ◌↔◌, ◌⊎◌, ℕ, List, length, reverse, IsTrue, true, Some, None, IfOk, IfErr};
ghost use Rattle.std.specs.FinMap.{len};
ghost use Rattle.x86_64_c.specs.AddressSpaces as spaces;
ghost use Rattle.x86_64_c.specs.Arguments as given;
ghost use Rattle.x86_64_c.specs.PoolCalls as calls;
ghost use Rattle.x86_64_c.specs.Validity as validity;
ghost use Rattle.x86_64_spaces.specs.Room.{spaces_in, ShareWithRoom};
ghost use Rattle.x86_64_spaces.specs.SpaceLayouts.{indices_of, spaces_at};
ghost use Rattle.x86_64_tables.specs.LentPool.{is_in};
ghost use Rattle.x86_64_tables.specs.Shifted.{shifted_places};

use crate::arguments::{Hierarchy, Located};
use crate::operation::{Operation, enter};
use crate::pool::{PoolStep, Stepped, with_pool};
use crate::status;
use crate::validity::status_of_test;
use x86_64::structures::paging::mapper::PageTableFrameMapping;
use x86_64::structures::paging::{PageTable, PhysFrame, Size4KiB};
use x86_64::{
    FiveLevels, FourLevels, FrameStore, GiveUpError, LentMemory, LevelCount, OwnFrames,
    SegmentMapping, SharedIndices, ShiftMapping, Space, TableMemory, give_up_space, new_space,
    roots_fit_by_marks,
};
use x86_64_model::laws::spaces::{calls_keep_what_they_avoid, shared_halves_stay, spaces_stay};

/// Tests whether hierarchies are address spaces that share the tables below some indices of the highest level, whether a pool fits
/// each, and whether its array has room for every frame that it may ever hold: its own, and those of all tables and roots.
///
/// They are if the roots are distinct, each hierarchy is valid, all roots have the same words from index `shared_from` up to, but not
/// including, `shared_to`, and no table is in two hierarchies but those below these indices. The marks, one for each table, may hold
/// anything before and after. Returns `OK`, also for no root, `NOT_VALID`, or what is wrong with an argument.
#[unsafe(no_mangle)]
pub extern "C" fn x64_spaces_fit(
    first: u64,
    levels: u64,
    tables: &mut [PageTable],
    roots: &[u64],
    shared_from: u64,
    shared_to: u64,
    pool: &[u64],
    free_count: usize,
    marks: &mut [bool],
) -> u32
    ensures bad { (status : ℕ) → spaces.wrong_spaces_test levels shared_from shared_to
        (calls.loan tables.old pool.now free_count) (length marks.old) ≡ Some status
        → (result ≡ status) × (marks.new ≡ marks.old) }
    ensures fit { spaces.wrong_spaces_test levels shared_from shared_to
        (calls.loan tables.old pool.now free_count)
        (length marks.old) ≡ None → validity.TellsWhether (spaces.SpacesFit
        (spaces.shared_in shared_from shared_to) (shifted_places first) levels roots.now
        (calls.loan tables.old pool.now free_count)) result }
    ensures tables { tables.new ≡ tables.old }
{
    if levels != 4 && levels != 5 {
        return status::BAD_LEVELS;
    }
    test_spaces(
        levels,
        &ShiftMapping::new(first),
        tables,
        roots,
        shared_from,
        shared_to,
        pool,
        free_count,
        marks,
    )
}

/// Tests what `x64_spaces_fit` tests, with the number of levels of a hierarchy, in its memory, which may have segments. Its root isn't
/// looked at.
///
/// Returns what `x64_spaces_fit` returns, or `BAD_SEGMENTS`.
#[unsafe(no_mangle)]
pub extern "C" fn x64_spaces_fit_in(
    hierarchy: &Hierarchy,
    tables: &mut [PageTable],
    roots: &[u64],
    shared_from: u64,
    shared_to: u64,
    pool: &[u64],
    free_count: usize,
    marks: &mut [bool],
) -> u32
    ensures bad { (status : ℕ) → spaces.wrong_spaces_in hierarchy.now shared_from shared_to
        (calls.loan tables.old pool.now free_count) (length marks.old) ≡ Some status
        → (result ≡ status) × (marks.new ≡ marks.old) }
    ensures fit { spaces.wrong_spaces_in hierarchy.now shared_from shared_to
        (calls.loan tables.old pool.now free_count)
        (length marks.old) ≡ None → validity.TellsWhether (spaces.SpacesFit
        (spaces.shared_in shared_from shared_to) (given.places_given hierarchy.now) hierarchy.now.levels
        roots.now (calls.loan tables.old pool.now free_count)) result }
    ensures tables { tables.new ≡ tables.old }
{
    let levels = hierarchy.levels;
    if levels != 4 && levels != 5 {
        return status::BAD_LEVELS;
    }
    if hierarchy.segments.is_empty() {
        let mapping = ShiftMapping::new(hierarchy.first);
        return test_spaces(
            levels,
            &mapping,
            tables,
            roots,
            shared_from,
            shared_to,
            pool,
            free_count,
            marks,
        );
    }
    let Ok(mapping) = SegmentMapping::new(hierarchy.segments) else {
        return status::BAD_SEGMENTS;
    };
    test_spaces(
        levels,
        &mapping,
        tables,
        roots,
        shared_from,
        shared_to,
        pool,
        free_count,
        marks,
    )
}

/// Tests whether hierarchies with 4 or 5 levels of tables are address spaces that fit together, whose frames lie where a mapping says.
#[tactic(auto, using(crate::proofs::ArgumentsGiven::handed_back, crate::proofs::ArgumentsGiven::counted))]
fn test_spaces<P: PageTableFrameMapping>(
    levels: u64,
    mapping: &P,
    tables: &mut [PageTable],
    roots: &[u64],
    shared_from: u64,
    shared_to: u64,
    pool: &[u64],
    free_count: usize,
    marks: &mut [bool],
) -> u32
    requires levels { levels ≡ 4 ⊎ levels ≡ 5 }
    ensures bad { (status : ℕ) → spaces.wrong_room shared_from shared_to
        (calls.loan tables.old pool.now free_count) (length marks.old) ≡ Some status
        → (result ≡ status) × (marks.new ≡ marks.old) }
    ensures fit { spaces.wrong_room shared_from shared_to (calls.loan tables.old pool.now free_count)
        (length marks.old) ≡ None → validity.TellsWhether (spaces.SpacesFit
        (spaces.shared_in shared_from shared_to) (P.places mapping.now) levels roots.now
        (calls.loan tables.old pool.now free_count)) result }
    ensures tables { tables.new ≡ tables.old }
{
    let count = tables.len();
    if pool.len() < free_count || marks.len() < count {
        return status::BAD_ARRAY;
    }
    let shared = match shared_indices(shared_from, shared_to) {
        Ok(shared) => shared,
        Err(status) => return status,
    };
    let memory = LentMemory::new(tables);
    let passed = fit(
        levels,
        &memory,
        mapping,
        roots,
        shared,
        &pool[..free_count],
        pool.len(),
        &mut marks[..count],
    );
    status_of_test(passed)
}

/// Returns the indices from a first one up to, but not including, an end, or the status that says that they are out of order or that
/// one is above 511.
fn shared_indices(from: u64, to: u64) -> Result<SharedIndices, u32>
    ensures shared { IfOk result (λ shared. shared ≡ record { from = from; to = to }) }
    ensures good { IfOk result (λ _. spaces.wrong_indices from to ≡ None) }
    ensures bad { IfErr result (λ status. spaces.wrong_indices from to ≡ Some status) }
{
    if to < from || 512 < to {
        return Err(status::BAD_INDICES);
    }
    Ok(SharedIndices {
        from: from as u16,
        to: to as u16,
    })
}

/// Tests whether hierarchies with 4 or 5 levels of tables are address spaces, a pool of free frames fits each, and there is room for so
/// many frames.
fn fit<T: TableMemory, P: PageTableFrameMapping>(
    levels: u64,
    memory: &T,
    mapping: &P,
    roots: &[u64],
    shared: SharedIndices,
    free: &[u64],
    capacity: usize,
    marks: &mut [bool],
) -> bool
    requires levels { levels ≡ 4 ⊎ levels ≡ 5 }
    requires marks { length marks.old ≡ len (T.tables memory.now) }
    ensures { IsTrue result ↔ ShareWithRoom (indices_of shared)
        (spaces_in levels (P.places mapping.now) (T.tables memory.now) (spaces_at roots.now))
        capacity (reverse free.now) }
{
    if levels == 4 {
        roots_fit_by_marks::<FourLevels, _, _>(
            memory, mapping, roots, shared, free, capacity, marks,
        )
    } else {
        roots_fit_by_marks::<FiveLevels, _, _>(
            memory, mapping, roots, shared, free, capacity, marks,
        )
    }
}

// ---- a new space

/// Makes one more address space: the last free frame of the pool becomes a root. It gets the template's entries from index
/// `shared_from` up to, but not including, `shared_to`, and maps nothing elsewhere. Writes the root's address.
///
/// With all spaces with which the template fits together, as `x64_spaces_fit` tests it, the new one fits together, too. Requires that
/// the template is valid, and that the pool fits it with room. Returns `OK`, `FRAME_ALLOCATION_FAILED` if the pool is empty, or what is
/// wrong with an argument. If it isn't `OK`, nothing changes.
#[unsafe(no_mangle)]
pub extern "C" fn x64_new_space(
    template_space: &Hierarchy,
    tables: &mut [PageTable],
    pool: &mut [u64],
    free_count: &mut usize,
    shared_from: u64,
    shared_to: u64,
    root: &mut u64,
) -> u32
    ghost own: { List ℕ }
    requires { let lent = calls.loan tables.old pool.old free_count.old in
        spaces.HasPool own template_space.now lent
        (spaces.bad_new template_space.now lent shared_from shared_to) }
    ensures { spaces.MakesSpace own template_space.now (calls.loan tables.old pool.old free_count.old)
        shared_from shared_to result root.old (calls.loan tables.new pool.new free_count.new) root.new }
{
    let new = NewSpace {
        shared_from,
        shared_to,
        free_count: *free_count,
        own: OwnFrames::of(),
    };
    let made = match enter(template_space, tables, pool, &new) {
        Ok(made) => made,
        Err(status) => return status,
    };
    *free_count = made.free_count;
    match made.out {
        Some(frame) => {
            *root = frame.start_address().as_u64();
            status::OK
        }
        None => status::FRAME_ALLOCATION_FAILED,
    }
}

/// The making of an address space, with the number of free frames of the pool in the operation's array, and its own frames.
#[derive(Drop)]
pub struct NewSpace {
    shared_from: u64,
    shared_to: u64,
    free_count: usize,
    own: OwnFrames,
}

impl Operation for NewSpace {
    ghost use Rattle.x86_64_c.specs.AddressSpaces.{wrong_indices, shared_in};
    ghost use Rattle.x86_64_c.specs.PoolCalls.{bad_pool};
    ghost use Rattle.x86_64_c.specs.private.Pools.{FitsIn};
    ghost use Rattle.x86_64_c.specs.private.Spaces.{MakesRoot};

    type Out = Stepped<Option<PhysFrame<Size4KiB>>>;

    type Entry = u64;

    ghost wrong = { λ new levels tables room.
        bad_pool new.free_count room (wrong_indices new.shared_from new.shared_to) };

    ghost may = { λ new h array. FitsIn new.own.frames h array new.free_count };

    ghost does = { λ new h array after left made. MakesRoot new.own.frames
        (shared_in new.shared_from new.shared_to) h array new.free_count after left made.free_count
        made.out };

    fn execute<L: LevelCount, T: TableMemory, P: PageTableFrameMapping + Copy>(
        &self,
        memory: &mut T,
        located: Located<P>,
        array: &mut [u64],
    ) -> Result<Stepped<Option<PhysFrame<Size4KiB>>>, u32> {
        if array.len() < self.free_count {
            return Err(status::BAD_ARRAY);
        }
        let shared = shared_indices(self.shared_from, self.shared_to)?;
        if self.free_count == 0 {
            return Ok(Stepped {
                out: None,
                free_count: 0,
            });
        }
        let step = MakeRoot { shared };
        Ok(with_pool::<L, _, _, _>(memory, located, &self.own, array, self.free_count, &step))
    }
}

/// The making of a root with shared entries.
#[derive(Clone, Copy)]
pub struct MakeRoot {
    shared: SharedIndices,
}

impl<L: LevelCount> PoolStep<L> for MakeRoot {
    ghost use Rattle.std.specs.Prelude.{IfSome};
    ghost use Rattle.x86_64_c.specs.AddressSpaces.{space_at};
    ghost use Rattle.x86_64_c.specs.private.PoolLaws.{own_root};
    ghost use Rattle.x86_64_spaces.specs.SpaceCalls.{IsMade, TakesFirst};
    ghost use Rattle.x86_64_spaces.specs.SpaceLayouts.{indices_of};

    type Out = Option<PhysFrame<Size4KiB>>;

    ghost does = { λ make h pool after rest made. TakesFirst pool made rest × IfSome made (λ root.
        IsMade (indices_of make.shared) h pool (space_at root) after.memory rest) };

    fn take<T: TableMemory, P: PageTableFrameMapping + Copy, F: FrameStore>(
        &self,
        memory: &mut T,
        located: Located<P>,
        frames: &mut F,
        _free_count: usize,
    ) -> Option<PhysFrame<Size4KiB>> {
        let template = space_of(located.root);
        new_space::<L, _, _, _>(
            memory,
            &located.mapping,
            &template,
            self.shared,
            None,
            frames,
        )
    }

    ghost own_frames = { λ make own array count serves same h after free rest made.
        own_root own array count same (indices_of make.shared) h after.memory free rest made };
}

// ---- a space that is given up

/// Gives up an address space: its root is cleared, and goes to the top of the pool.
///
/// The entries of the root from index `shared_from` up to, but not including, `shared_to` don't count. All others must be 0, as after
/// a clean up of all pages that aren't shared. The other spaces stay. Requires that the hierarchy is valid, and that the pool fits it,
/// with room for the root, too, as `x64_spaces_fit` tests it. Returns `OK`, `SPACE_IN_USE` if an entry that isn't shared is used, or
/// what is wrong with an argument: a root in frame 0 can't be given up. If it isn't `OK`, nothing changes.
#[unsafe(no_mangle)]
pub extern "C" fn x64_give_up_space(
    hierarchy: &Hierarchy,
    tables: &mut [PageTable],
    pool: &mut [u64],
    free_count: &mut usize,
    shared_from: u64,
    shared_to: u64,
) -> u32
    ghost own: { List ℕ }
    requires pool { let lent = calls.loan tables.old pool.old free_count.old in
        spaces.HasPool own hierarchy.now lent (spaces.bad_gone hierarchy.now lent shared_from shared_to) }
    requires root { is_in own hierarchy.now.root ≡ true }
    ensures { spaces.GivesUpSpace own hierarchy.now (calls.loan tables.old pool.old free_count.old)
        shared_from shared_to result (calls.loan tables.new pool.new free_count.new) }
{
    let gone = GiveUp {
        root: hierarchy.root,
        shared_from,
        shared_to,
        free_count: *free_count,
        own: OwnFrames::of(),
    };
    let given_up = match enter(hierarchy, tables, pool, &gone) {
        Ok(given_up) => given_up,
        Err(status) => return status,
    };
    *free_count = given_up.free_count;
    match given_up.out {
        Ok(()) => status::OK,
        Err(GiveUpError::EntryUsed) => status::SPACE_IN_USE,
        Err(GiveUpError::FrameZero) => status::BAD_ROOT,
    }
}

/// The giving up of the address space with this root, with the number of free frames of the pool in the operation's array, and its own
/// frames.
#[derive(Drop)]
pub struct GiveUp {
    root: u64,
    shared_from: u64,
    shared_to: u64,
    free_count: usize,
    own: OwnFrames,
}

impl Operation for GiveUp {
    ghost use Rattle.std.specs.Prelude.{◌≡◌, true};
    ghost use Rattle.x86_64_c.specs.AddressSpaces.{shared_in, wrong_gone};
    ghost use Rattle.x86_64_c.specs.private.Pools.{FitsIn};
    ghost use Rattle.x86_64_c.specs.private.Spaces.{GivesUpRoot};
    ghost use Rattle.x86_64_tables.specs.LentPool.{is_in};

    type Out = Stepped<Result<(), GiveUpError>>;

    type Entry = u64;

    ghost wrong = { λ gone levels tables room.
        wrong_gone gone.root gone.free_count room gone.shared_from gone.shared_to };

    ghost may = { λ gone h array.
        FitsIn gone.own.frames h array gone.free_count × (is_in gone.own.frames h.layout.root ≡ true) };

    ghost does = { λ gone h array after left given_up. GivesUpRoot gone.own.frames
        (shared_in gone.shared_from gone.shared_to) h array gone.free_count after left given_up.free_count
        given_up.out };

    fn execute<L: LevelCount, T: TableMemory, P: PageTableFrameMapping + Copy>(
        &self,
        memory: &mut T,
        located: Located<P>,
        array: &mut [u64],
    ) -> Result<Stepped<Result<(), GiveUpError>>, u32> {
        if self.root == 0 {
            return Err(status::BAD_ROOT);
        }
        if array.len() < self.free_count {
            return Err(status::BAD_ARRAY);
        }
        let shared = shared_indices(self.shared_from, self.shared_to)?;
        let step = GiveUpRoot { shared };
        Ok(with_pool::<L, _, _, _>(memory, located, &self.own, array, self.free_count, &step))
    }
}

/// The giving up of a root with shared entries.
#[derive(Clone, Copy)]
pub struct GiveUpRoot {
    shared: SharedIndices,
}

impl<L: LevelCount> PoolStep<L> for GiveUpRoot {
    ghost use Rattle.std.specs.Prelude.{true, IfErr, OnOk};
    ghost use Rattle.x86_64_c.specs.private.PoolLaws.{own_gone};
    ghost use Rattle.x86_64_c.specs.private.Spaces.{failed};
    ghost use Rattle.x86_64_spaces.specs.SpaceCalls.{IsGivenUp, IsReason};
    ghost use Rattle.x86_64_spaces.specs.SpaceLayouts.{indices_of};

    type Out = Result<(), GiveUpError>;

    ghost gives_root = { λ _. true };

    ghost refused = { failed };

    ghost does = { λ give_up h pool after rest given_up.
        IfErr given_up (λ why. IsReason (indices_of give_up.shared) h why)
        × OnOk given_up (IsGivenUp (indices_of give_up.shared) h pool after.memory rest) };

    fn take<T: TableMemory, P: PageTableFrameMapping + Copy, F: FrameStore>(
        &self,
        memory: &mut T,
        located: Located<P>,
        frames: &mut F,
        _free_count: usize,
    ) -> Result<(), GiveUpError> {
        let space = space_of(located.root);
        give_up_space::<L, _, _, _>(memory, &located.mapping, &space, self.shared, frames)
    }

    ghost own_frames = { λ give_up own array count serves same h after free rest given_up.
        own_gone own array count same (indices_of give_up.shared) h after.memory free rest given_up };
}

/// Returns the address space with this root.
fn space_of(root: PhysFrame<Size4KiB>) -> Space
    ensures { result ≡ spaces.space_at root }
{
    Space {
        root,
        recursive: None,
    }
}

// ---- calls on one of several spaces

/// Calls on each of several address spaces that fit together may be made, and they fit together again afterwards, as long as the
/// entries of its root at the shared indices stay. So after `x64_spaces_fit` returned `OK` no further test is needed.
pub fn calls_keep_spaces()
    ensures used { spaces.EachMayBeUsed }
    ensures requests { spaces.RequestsKeepSpaces }
    ensures requests_or_nothing { spaces.RequestsOrNothingKeepSpaces }
    ensures changes { spaces.ChangesKeepSpaces }
    ensures maps { spaces.RangeMapsKeepSpaces }
    ensures range_changes { spaces.RangeChangesKeepSpaces }
    ensures others { spaces.RequestsKeepOthers }
    ensures others_or_nothing { spaces.RequestsOrNothingKeepOthers }
    ensures others_of_maps { spaces.RangeMapsKeepOthers }
    ensures others_of_changes { spaces.RangeChangesKeepOthers }
{
    spaces_stay();
    shared_halves_stay();
    calls_keep_what_they_avoid();
}
