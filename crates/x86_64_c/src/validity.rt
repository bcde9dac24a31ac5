//! The tests of a hierarchy and of a pool, over marks that the caller lends.
ghost use Rattle.std.specs.Prelude.{◌≡◌, ℕ, length, Some, None};
ghost use Rattle.x86_64_c.specs.Arguments as given;
ghost use Rattle.x86_64_c.specs.Validity as validity;
ghost use Rattle.x86_64_model.specs.Hierarchy.{Valid};

use crate::arguments::{Hierarchy, Located};
use crate::operation::{Operation, enter};
use crate::status;
use x86_64::structures::paging::PageTable;
use x86_64::structures::paging::mapper::PageTableFrameMapping;
use x86_64::{LevelCount, TableMemory, is_valid_by_marks, pool_fits_by_marks};

/// Returns the status of a test.
pub fn status_of_test(passed: bool) -> u32
    ensures { result ≡ validity.test_status passed }
{
    if passed {
        status::OK
    } else {
        status::NOT_VALID
    }
}

// ---- the hierarchy

/// Tests whether a hierarchy is valid: the root, and each table that a used word without `HUGE_PAGE` names above level one, has a table
/// in the array and a frame of its own, which is frame 0 for none but the root, and no word above level three has `HUGE_PAGE`.
///
/// The marks, one for each table, may hold anything before and after. Returns `OK`, `NOT_VALID`, or what is wrong with an argument.
#[tactic(auto, using(crate::proofs::ArgumentsGiven::kept))]
#[unsafe(no_mangle)]
pub extern "C" fn x64_is_valid(
    hierarchy: &Hierarchy,
    tables: &mut [PageTable],
    marks: &mut [bool],
) -> u32
    ensures bad { (status : ℕ) →
        given.wrong_test hierarchy.now (length tables.old) (length marks.old) ≡ Some status →
        (result ≡ status) × (marks.new ≡ marks.old) }
    ensures valid { given.wrong_test hierarchy.now (length tables.old) (length marks.old) ≡ None
        → validity.TellsWhether (Valid (given.hierarchy_in hierarchy.now tables.old)) result }
    ensures tables { tables.new ≡ tables.old }
{
    match enter(hierarchy, tables, marks, &IsValid) {
        Ok(passed) => status_of_test(passed),
        Err(status) => status,
    }
}

/// The test of a hierarchy.
#[derive(Clone, Copy)]
pub struct IsValid;

impl Operation for IsValid {
    ghost use Rattle.std.specs.Prelude.{◌≡◌, ◌↔◌, IsTrue};
    ghost use Rattle.x86_64_c.specs.Arguments.{bad_marks};
    ghost use Rattle.x86_64_model.specs.Hierarchy.{Valid};

    type Out = bool;

    type Entry = bool;

    ghost wrong = { λ _ levels tables room. bad_marks tables room };

    ghost does = { λ _ h array after left passed. (after.memory ≡ h.memory) × (IsTrue passed ↔ Valid h) };

    fn execute<L: LevelCount, T: TableMemory, P: PageTableFrameMapping + Copy>(
        &self,
        memory: &mut T,
        located: Located<P>,
        array: &mut [bool],
    ) -> Result<bool, u32> {
        let count = memory.len();
        if array.len() < count {
            return Err(status::BAD_ARRAY);
        }
        let marks = &mut array[..count];
        Ok(is_valid_by_marks::<L, _, _>(memory, &located.mapping, located.root, marks))
    }
}

// ---- the pool

/// Tests whether a hierarchy is valid, whether a pool fits it, and whether the pool's array has room for every frame that the pool may
/// ever hold: its own free frames, and those of the tables below the root.
///
/// A pool fits if its free frames have tables in the array, are there once, and none is frame 0, the root or a table of the hierarchy.
/// The marks, one for each table, may hold anything before and after. Returns `OK`, `NOT_VALID`, or what is wrong with an argument.
#[tactic(auto, using(crate::proofs::ArgumentsGiven::kept))]
#[unsafe(no_mangle)]
pub extern "C" fn x64_pool_fits(
    hierarchy: &Hierarchy,
    tables: &mut [PageTable],
    pool: &[u64],
    free_count: usize,
    marks: &mut [bool],
) -> u32
    ensures bad { (status : ℕ) →
        given.bad_fit hierarchy.now (length tables.old) (length pool.now) free_count (length marks.old)
        ≡ Some status → (result ≡ status) × (marks.new ≡ marks.old) }
    ensures fits { given.bad_fit hierarchy.now (length tables.old) (length pool.now) free_count
        (length marks.old) ≡ None → validity.TellsWhether
        (validity.FitsArray (given.hierarchy_in hierarchy.now tables.old) pool.now free_count) result }
    ensures tables { tables.new ≡ tables.old }
{
    match enter(hierarchy, tables, marks, &PoolFits { pool, free_count }) {
        Ok(passed) => status_of_test(passed),
        Err(status) => status,
    }
}

/// The test of a pool in an array whose first entries are its free frames.
#[derive(Clone, Copy)]
pub struct PoolFits<'a> {
    pool: &'a [u64],
    free_count: usize,
}

impl<'a> Operation for PoolFits<'a> {
    ghost use Rattle.std.specs.Prelude.{◌≡◌, ◌↔◌, IsTrue, length};
    ghost use Rattle.x86_64_c.specs.Arguments.{bad_room};
    ghost use Rattle.x86_64_c.specs.Validity.{FitsArray};

    type Out = bool;

    type Entry = bool;

    ghost wrong = { λ test levels tables room. bad_room test.free_count (length test.pool.now) tables room };

    ghost does = { λ test h array after left passed.
        (after.memory ≡ h.memory) × (IsTrue passed ↔ FitsArray h test.pool.now test.free_count) };

    fn execute<L: LevelCount, T: TableMemory, P: PageTableFrameMapping + Copy>(
        &self,
        memory: &mut T,
        located: Located<P>,
        array: &mut [bool],
    ) -> Result<bool, u32> {
        let count = memory.len();
        if self.pool.len() < self.free_count || array.len() < count {
            return Err(status::BAD_ARRAY);
        }
        Ok(pool_fits_by_marks::<L, _, _>(
            memory,
            &located.mapping,
            located.root,
            &self.pool[..self.free_count],
            self.pool.len(),
            &mut array[..count],
        ))
    }
}
