//! The way in, which each operation on the caller's tables shares
ghost use Rattle.std.specs.Prelude.{◌≡◌, ℕ, true, List, length, Option, Some, None, IfOk, IfErr, OnErr, ⊤};
ghost use Rattle.std.specs.FinMap.{len};
ghost use Rattle.x86_64_c.specs.Arguments as given;
ghost use Rattle.x86_64_c.specs.private.Operations as operations;
ghost use Rattle.x86_64_model.specs.Hierarchy as mapper;
ghost use Rattle.x86_64_tables.specs.FrameSegments.{are_in_order};

use crate::arguments::{Hierarchy, Located, locate};
use crate::status;
use x86_64::structures::paging::PageTable;
use x86_64::structures::paging::mapper::PageTableFrameMapping;
use x86_64::{
    FiveLevels, FourLevels, LentMemory, LevelCount, SegmentMapping, ShiftMapping, TableMemory,
};

/// An operation on a hierarchy, which may write into an array that the caller lends.
pub trait Operation {
    /// What the operation returns.
    type Out;

    /// What the array holds.
    type Entry;

    /// What is wrong with the operation's own arguments, with these numbers of levels, of tables and of entries of the array.
    ghost wrong: { Self → (levels tables room : ℕ) → Option ℕ };

    /// What must hold of a hierarchy and of the array, if anything.
    ghost may: { Self → mapper.Hierarchy (Unit {0}) → (array : List Self.Entry) → Type 0 } = { λ _ _ _. ⊤ };

    /// What the operation does to them, and what it returns.
    ghost does: { Self → (before : mapper.Hierarchy (Unit {0})) → (array : List Self.Entry)
        → (after : mapper.Hierarchy (Unit {0})) → (left : List Self.Entry) → (out : Self.Out) → Type 0 };

    /// Does the operation, or returns the status that says what is wrong with its own arguments. Then nothing changes.
    fn execute<L: LevelCount, T: TableMemory, P: PageTableFrameMapping + Copy>(
        &self,
        memory: &mut T,
        located: Located<P>,
        array: &mut [Self::Entry],
    ) -> Result<Self::Out, u32>
        requires may { wrong self.now L.LEVELS (len (T.tables memory.old)) (length array.old) ≡ None
            → may self.now (given.at P.places L.LEVELS located (T.tables memory.old)) array.old }
        ensures bad { IfErr result (λ status.
            wrong self.now L.LEVELS (len (T.tables memory.old)) (length array.old) ≡ Some status) }
        ensures unchanged { OnErr result ((T.tables memory.new ≡ T.tables memory.old)
            × (array.new ≡ array.old)) }
        ensures good { IfOk result (λ _.
            wrong self.now L.LEVELS (len (T.tables memory.old)) (length array.old) ≡ None) }
        ensures does { IfOk result (λ out. does self.now
            (given.at P.places L.LEVELS located (T.tables memory.old)) array.old
            (given.at P.places L.LEVELS located (T.tables memory.new)) array.new out) }
        ensures lent { T.lent memory.new ≡ T.lent memory.old };
}

/// Does an operation on a hierarchy in the caller's tables, or returns the status that says what is wrong with an argument. Then
/// nothing changes.
pub fn enter<O: Operation>(
    hierarchy: &Hierarchy,
    tables: &mut [PageTable],
    array: &mut [O::Entry],
    operation: &O,
) -> Result<O::Out, u32>
    requires { operations.MayEnter (O.wrong operation.now) (O.may operation.now) hierarchy.now tables.old
        array.old }
    ensures bad { IfErr result (λ status. operations.wrong_call (O.wrong operation.now) hierarchy.now
        (length tables.old) (length array.old) ≡ Some status) }
    ensures unchanged { OnErr result ((tables.new ≡ tables.old) × (array.new ≡ array.old)) }
    ensures good { IfOk result (λ _. operations.wrong_call (O.wrong operation.now) hierarchy.now
        (length tables.old) (length array.old) ≡ None) }
    ensures does { IfOk result (λ out. O.does operation.now
        (given.hierarchy_in hierarchy.now tables.old) array.old
        (given.hierarchy_in hierarchy.now tables.new) array.new out) }
{
    match hierarchy.levels {
        4 => enter_in::<FourLevels, O>(hierarchy, tables, array, operation),
        5 => enter_in::<FiveLevels, O>(hierarchy, tables, array, operation),
        _ => Err(status::BAD_LEVELS),
    }
}

/// Does an operation on a hierarchy with `L` levels of tables.
fn enter_in<L: LevelCount, O: Operation>(
    hierarchy: &Hierarchy,
    tables: &mut [PageTable],
    array: &mut [O::Entry],
    operation: &O,
) -> Result<O::Out, u32>
    requires levels { hierarchy.now.levels ≡ L.LEVELS }
    requires may { operations.MayEnter (O.wrong operation.now) (O.may operation.now) hierarchy.now
        tables.old array.old }
    ensures bad { IfErr result (λ status. operations.wrong_call (O.wrong operation.now) hierarchy.now
        (length tables.old) (length array.old) ≡ Some status) }
    ensures unchanged { OnErr result ((tables.new ≡ tables.old) × (array.new ≡ array.old)) }
    ensures good { IfOk result (λ _. operations.wrong_call (O.wrong operation.now) hierarchy.now
        (length tables.old) (length array.old) ≡ None) }
    ensures does { IfOk result (λ out. O.does operation.now
        (given.hierarchy_in hierarchy.now tables.old) array.old
        (given.hierarchy_in hierarchy.now tables.new) array.new out) }
{
    if hierarchy.segments.is_empty() {
        let mapping = ShiftMapping::new(hierarchy.first);
        return enter_by::<L, _, O>(hierarchy, mapping, tables, array, operation);
    }
    match SegmentMapping::new(hierarchy.segments) {
        Ok(mapping) => enter_by::<L, _, O>(hierarchy, mapping, tables, array, operation),
        Err(_) => Err(status::BAD_SEGMENTS),
    }
}

/// Does an operation on a hierarchy with `L` levels of tables, whose frames lie where a mapping says.
#[tactic(auto, using(crate::proofs::ArgumentsGiven::handed_back, crate::proofs::ArgumentsGiven::counted))]
fn enter_by<L: LevelCount, P: PageTableFrameMapping + Copy, O: Operation>(
    hierarchy: &Hierarchy,
    mapping: P,
    tables: &mut [PageTable],
    array: &mut [O::Entry],
    operation: &O,
) -> Result<O::Out, u32>
    requires levels { hierarchy.now.levels ≡ L.LEVELS }
    requires segments { are_in_order hierarchy.now.segments.now ≡ true }
    requires places { P.places mapping ≡ given.places_given hierarchy.now }
    requires may { operations.MayEnter (O.wrong operation.now) (O.may operation.now) hierarchy.now
        tables.old array.old }
    ensures bad { IfErr result (λ status. operations.wrong_call (O.wrong operation.now) hierarchy.now
        (length tables.old) (length array.old) ≡ Some status) }
    ensures unchanged { OnErr result ((tables.new ≡ tables.old) × (array.new ≡ array.old)) }
    ensures good { IfOk result (λ _. operations.wrong_call (O.wrong operation.now) hierarchy.now
        (length tables.old) (length array.old) ≡ None) }
    ensures does { IfOk result (λ out. O.does operation.now
        (given.hierarchy_in hierarchy.now tables.old) array.old
        (given.hierarchy_in hierarchy.now tables.new) array.new out) }
{
    let Some(located) = locate(hierarchy.root, mapping, tables.len()) else {
        return Err(status::BAD_ROOT);
    };
    let mut memory = LentMemory::new(tables);
    operation.execute::<L, _, P>(&mut memory, located, array)
}
