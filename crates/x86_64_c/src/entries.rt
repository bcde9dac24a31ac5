//! The entries that a page walk reads.
ghost use Rattle.std.specs.Prelude.{◌≡◌, ℕ, length, Some, None};
ghost use Rattle.x86_64_c.specs.Entries as steps;
ghost use Rattle.x86_64_c.specs.Arguments as given;

use crate::arguments::{Hierarchy, Located, address_of};
use crate::operation::{Operation, enter};
use crate::status;
use x86_64::structures::paging::PageTable;
use x86_64::structures::paging::mapper::PageTableFrameMapping;
use x86_64::{LevelCount, TableMemory};
use x86_64_mappings::{EntriesRead, WalkEntry, read_entries};

/// Writes the entries that the page walk to an address reads, from the root's on, whatever words the tables hold, and their number.
///
/// Returns `OK` if the last one maps a page, `NOT_MAPPED` if it lacks `PRESENT`, `PARENT_ENTRY_HUGE_PAGE` if it has `HUGE_PAGE` above
/// level three, `NO_TABLE` if the table that it names isn't in the array, or what is wrong with an argument; then nothing is written.
/// `BAD_ARRAY` says that there is room for fewer entries than levels.
#[unsafe(no_mangle)]
pub extern "C" fn x64_entries(
    hierarchy: &Hierarchy,
    tables: &mut [PageTable],
    address: u64,
    entries: &mut [WalkEntry],
    count: &mut usize,
) -> u32
    ensures bad { (status : ℕ) →
        steps.wrong_entries_call hierarchy.now (length tables.old) (length entries.old) address ≡ Some status
        → (result ≡ status) × (entries.new ≡ entries.old) × (count.new ≡ count.old) }
    ensures writes { steps.wrong_entries_call hierarchy.now (length tables.old) (length entries.old) address
        ≡ None
        → steps.WritesEntries (steps.steps_walked (given.hierarchy_in hierarchy.now tables.old) address)
        entries.old result entries.new count.new }
    ensures tables { tables.new ≡ tables.old }
{
    match enter(hierarchy, tables, entries, &EntriesTo { address }) {
        Ok(read) => {
            *count = read.count;
            status::walk_status(read.end)
        }
        Err(status) => status,
    }
}

/// The entries that the page walk to an address reads.
#[derive(Clone, Copy)]
pub struct EntriesTo {
    address: u64,
}

impl Operation for EntriesTo {
    ghost use Rattle.std.specs.Prelude.{◌≡◌};
    ghost use Rattle.x86_64_c.specs.Entries.{WritesEntries, walk_end_status, steps_walked, wrong_walk};

    type Out = EntriesRead;

    type Entry = WalkEntry;

    ghost wrong = { λ to levels tables room. wrong_walk levels room to.address };

    ghost does = { λ to h array after left read.
        (after.memory ≡ h.memory) × WritesEntries (steps_walked h to.address) array (walk_end_status read.end)
        left read.count };

    fn execute<L: LevelCount, T: TableMemory, P: PageTableFrameMapping + Copy>(
        &self,
        memory: &mut T,
        located: Located<P>,
        array: &mut [WalkEntry],
    ) -> Result<EntriesRead, u32> {
        if (array.len() as u64) < L::LEVELS {
            return Err(status::BAD_ARRAY);
        }
        let address = address_of::<L>(self.address)?;
        Ok(read_entries(memory, &located.mapping, located.root, address, array))
    }
}
