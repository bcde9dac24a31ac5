//! The page walk with all rights.
ghost use Rattle.std.specs.Prelude.{◌≡◌, ℕ, length, Some, None};
ghost use Rattle.x86_64_c.specs.Arguments as given;
ghost use Rattle.x86_64_c.specs.Reads.{WritesIfFound};
ghost use Rattle.x86_64_c.specs.Walks as walks;

use crate::arguments::{Hierarchy, Located, address_of};
use crate::operation::{Operation, enter};
use crate::reads::tell;
use x86_64::structures::paging::PageTable;
use x86_64::structures::paging::mapper::PageTableFrameMapping;
use x86_64::{LevelCount, TableMemory, VirtAddrIn};
use x86_64_tables::page_table::Rights;
use x86_64_tables::phys_memory::{Step, Steps};

/// Where a page walk arrives, and what all entries on its way allow.
#[derive(Clone, Copy)]
#[repr(C)]
pub struct WalkResult {
    /// The physical address.
    pub address: u64,
    /// Whether all entries have `WRITABLE`.
    pub write: bool,
    /// Whether all entries have `USER_ACCESSIBLE`.
    pub user: bool,
    /// Whether no entry has `NO_EXECUTE`.
    pub execute: bool,
}

impl WalkResult {
    /// Creates the result of a walk that arrives at an address with these rights.
    fn of(address: u64, rights: Rights) -> WalkResult
        ensures { result ≡ walks.result_written address rights }
    {
        WalkResult {
            address,
            write: rights.write,
            user: rights.user,
            execute: rights.execute,
        }
    }
}

/// Walks to an address as `x64_page_walk` does, whatever words the tables hold, and tells all rights.
///
/// Returns `OK` with where the walk arrives, `NOT_MAPPED`, or what is wrong with an argument; then nothing is written.
#[tactic(auto, using(crate::proofs::ArgumentsGiven::kept))]
#[unsafe(no_mangle)]
pub extern "C" fn x64_walk(
    hierarchy: &Hierarchy,
    tables: &mut [PageTable],
    address: u64,
    walked: &mut WalkResult,
) -> u32
    ensures bad { (status : ℕ) → given.bad_read hierarchy.now (length tables.old) address ≡ Some status
        → (result ≡ status) × (walked.new ≡ walked.old) }
    ensures told { given.bad_read hierarchy.now (length tables.old) address ≡ None
        → WritesIfFound (walks.result_walked (given.hierarchy_in hierarchy.now tables.old) address)
        result walked.old walked.new }
    ensures tables { tables.new ≡ tables.old }
{
    match enter(hierarchy, tables, &mut [], &Walk { address }) {
        Ok(found) => tell(found, walked),
        Err(status) => status,
    }
}

/// The page walk to an address with all rights.
#[derive(Clone, Copy)]
pub struct Walk {
    address: u64,
}

impl Operation for Walk {
    ghost use Rattle.std.specs.Prelude.{◌≡◌};
    ghost use Rattle.x86_64_c.specs.Arguments.{wrong_address};
    ghost use Rattle.x86_64_c.specs.Walks.{result_walked};

    type Out = Option<WalkResult>;

    type Entry = u64;

    ghost wrong = { λ walk levels tables room. wrong_address levels walk.address };

    ghost does = { λ walk h array after left found. (after.memory ≡ h.memory)
        × (found ≡ result_walked h walk.address) };

    fn execute<L: LevelCount, T: TableMemory, P: PageTableFrameMapping + Copy>(
        &self,
        memory: &mut T,
        located: Located<P>,
        _array: &mut [u64],
    ) -> Result<Option<WalkResult>, u32> {
        let address = address_of::<L>(self.address)?;
        Ok(walk_at(memory, located, address))
    }
}

/// Walks to an address, and returns where the walk arrives.
fn walk_at<L: LevelCount, T: TableMemory, P: PageTableFrameMapping + Copy>(
    memory: &T,
    located: Located<P>,
    address: VirtAddrIn<L>,
) -> Option<WalkResult>
    ensures { result ≡ walks.walked_at (given.at P.places L.LEVELS located (T.tables memory.now)) address }
{
    let Located { root, mapping } = located;
    let mut rights = Rights::ALL;
    let mut last = None;
    for step in Steps::new(memory, &mapping, root, address) {
        rights = rights.below(&step.entry());
        last = Some(step);
    }
    told(last, address.position(), rights)
}

/// Returns where a walk to a position, the number of an address counted without the gap, arrives by the last word that it reads. All its
/// words allow `rights`.
fn told(last: Option<Step>, position: u64, rights: Rights) -> Option<WalkResult>
    ensures { result ≡ walks.told_by position rights last }
{
    let to = last?.address(position)?;
    Some(WalkResult::of(to.as_u64(), rights))
}
