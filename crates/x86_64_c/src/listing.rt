//! What is mapped.
ghost use Rattle.std.specs.Prelude.{◌≡◌, ℕ, ◌++◌, length, map, take, drop, Some, None};
ghost use Rattle.x86_64_c.specs.Arguments as given;
ghost use Rattle.x86_64_c.specs.Listing as listing;

use crate::arguments::{Hierarchy, Located, address_of};
use crate::operation::{Operation, enter};
use crate::status;
use bitflags::Flags;
use x86_64::structures::paging::PageTable;
use x86_64::structures::paging::mapper::PageTableFrameMapping;
use x86_64::{LevelCount, MappingIn, MappingsIn, TableMemory, mappings_from};

/// What a leaf maps: the addresses from `start` on, `size` bytes, to those from `frame` on.
#[derive(Drop)]
#[repr(C)]
pub struct Mapping {
    /// The first address.
    pub start: u64,
    /// The size in bytes: 4KiB, 2MiB or 1GiB.
    pub size: u64,
    /// The physical address of the frame's start.
    pub frame: u64,
    /// The flags of the leaf's entry.
    pub flags: u64,
    /// Whether the leaf and all entries above it have `WRITABLE`.
    pub write: bool,
    /// Whether the leaf and all entries above it have `USER_ACCESSIBLE`.
    pub user: bool,
    /// Whether neither the leaf nor an entry above it has `NO_EXECUTE`.
    pub execute: bool,
}

impl Mapping {
    /// Creates the mapping that is written for one of the library's.
    fn of<L: LevelCount>(mapping: MappingIn<L>) -> Mapping
        ensures { result ≡ listing.mapping_written L.LEVELS mapping }
    {
        Mapping {
            start: mapping.start.as_u64(),
            size: mapping.size(),
            frame: mapping.frame.start_address().as_u64(),
            flags: mapping.flags.bits(),
            write: mapping.rights.write,
            user: mapping.rights.user,
            execute: mapping.rights.execute,
        }
    }
}

/// Lists what is mapped from an address on, whatever words the tables hold, in order of addresses, into an array.
///
/// Writes as many mappings as the array has room for, and their number to `count`. Returns `OK` if these are all, or `MORE` if there
/// are others; then `next` is the address to go on from. Or returns what is wrong with an argument; then nothing is written.
#[tactic(auto, using(crate::proofs::ArgumentsGiven::kept))]
#[unsafe(no_mangle)]
pub extern "C" fn x64_mappings(
    hierarchy: &Hierarchy,
    tables: &mut [PageTable],
    from: u64,
    mappings: &mut [Mapping],
    count: &mut usize,
    next: &mut u64,
) -> u32
    ensures bad { (status : ℕ) → given.bad_read hierarchy.now (length tables.old) from ≡ Some status
        → (result ≡ status) × (mappings.new ≡ mappings.old)
        × (count.new ≡ count.old) × (next.new ≡ next.old) }
    ensures lists { given.bad_read hierarchy.now (length tables.old) from ≡ None
        → listing.Lists (listing.mappings_from_address (given.hierarchy_in hierarchy.now tables.old) from)
        hierarchy.now.levels mappings.old result mappings.new count.new next.old next.new }
    ensures tables { tables.new ≡ tables.old }
{
    let listed = match enter(hierarchy, tables, mappings, &Listing { from }) {
        Ok(listed) => listed,
        Err(status) => return status,
    };
    *count = listed.count;
    match listed.next {
        Some(start) => {
            *next = start;
            status::MORE
        }
        None => status::OK,
    }
}

/// The listing of what is mapped from an address on.
#[derive(Clone, Copy)]
pub struct Listing {
    from: u64,
}

/// What a listing tells beside the mappings.
#[derive(Clone, Copy)]
pub struct Listed {
    /// The number of mappings that were written.
    pub count: usize,
    /// The address of the next one, if there are more.
    pub next: Option<u64>,
}

impl Operation for Listing {
    ghost use Rattle.std.specs.Prelude.{◌≡◌, drop, length};
    ghost use Rattle.x86_64_c.specs.Arguments.{wrong_address};
    ghost use Rattle.x86_64_c.specs.Listing.{WritesMappings, mappings_from_address, next_of};

    type Out = Listed;

    type Entry = Mapping;

    ghost wrong = { λ new levels tables room. wrong_address levels new.from };

    ghost does = { λ new h array after left listed. let all = mappings_from_address h new.from in
        (after.memory ≡ h.memory) × WritesMappings all h.layout.levels array left listed.count
        × (listed.next ≡ next_of h.layout.levels (drop (length array) all)) };

    fn execute<L: LevelCount, T: TableMemory, P: PageTableFrameMapping + Copy>(
        &self,
        memory: &mut T,
        located: Located<P>,
        array: &mut [Mapping],
    ) -> Result<Listed, u32> {
        let from = address_of::<L>(self.from)?;
        let mut coming = mappings_from(memory, &located.mapping, located.root, from);
        let count = fill(&mut coming, array);
        let next = match coming.next() {
            Some(mapping) => Some(mapping.start.as_u64()),
            None => None,
        };
        Ok(Listed { count, next })
    }
}

/// Fills an array with mappings to come, and returns how many it got.
fn fill<L: LevelCount, T: TableMemory, P: PageTableFrameMapping>(
    coming: &mut MappingsIn<'_, L, T, P>,
    mappings: &mut [Mapping],
) -> usize
    ensures count { result ≡ length (take (length mappings.old) coming.old) }
    ensures rest { coming.new ≡ drop (length mappings.old) coming.old }
    ensures array { mappings.new
        ≡ map (listing.mapping_written L.LEVELS) (take (length mappings.old) coming.old) ++ drop result
        mappings.old }
{
    for n in 0..mappings.len() {
        match coming.next() {
            Some(mapping) => mappings[n] = Mapping::of(mapping),
            None => return n,
        }
    }
    mappings.len()
}
