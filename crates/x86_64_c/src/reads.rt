//! Calls that read at an address: page walk and translation.
ghost use Rattle.std.specs.Prelude.{◌≡◌, ℕ, length, Some, None};
ghost use Rattle.x86_64_c.specs.Arguments as given;
ghost use Rattle.x86_64_c.specs.Reads as reads;
ghost use Rattle.x86_64_model.specs.Hierarchy.{Valid};

use crate::arguments::{Hierarchy, Located, address_of};
use crate::operation::{Operation, enter};
use crate::status;
use bitflags::Flags;
use x86_64::structures::paging::PageTable;
use x86_64::structures::paging::mapper::{
    MappedPageTableIn, PageTableFrameMapping, TranslateResult,
};
use x86_64::{LevelCount, TableMemory, page_walk};
use x86_64_mappers::calls;

/// Where a page walk arrives, and what all entries on its way allow.
#[derive(Drop)]
#[repr(C)]
pub struct Walked {
    /// The physical address.
    pub address: u64,
    /// Whether all entries have `WRITABLE`.
    pub write: bool,
    /// Whether all entries have `USER_ACCESSIBLE`.
    pub user: bool,
}

/// What an address is mapped to.
#[derive(Drop)]
#[repr(C)]
pub struct Translation {
    /// The physical address of the frame's start.
    pub frame: u64,
    /// The size of the page and of the frame, in bytes.
    pub size: u64,
    /// The offset of the address in the page, in bytes.
    pub offset: u64,
    /// The flags of the page's entry.
    pub flags: u64,
}

/// Writes what was found, and returns the status that says whether anything was.
pub fn tell<X: Drop>(found: Option<X>, place: &mut X) -> u32
    ensures { reads.WritesIfFound found result place.old place.new }
{
    match found {
        Some(found) => {
            *place = found;
            status::OK
        }
        None => status::NOT_MAPPED,
    }
}

// ---- the page walk

/// Walks to an address through the entries with `PRESENT`, whatever words the tables hold. Reserved bits don't end it.
///
/// Returns `OK` with where the walk arrives, `NOT_MAPPED`, or what is wrong with an argument; then nothing is written.
#[tactic(auto, using(crate::proofs::ArgumentsGiven::kept))]
#[unsafe(no_mangle)]
pub extern "C" fn x64_page_walk(
    hierarchy: &Hierarchy,
    tables: &mut [PageTable],
    address: u64,
    walked: &mut Walked,
) -> u32
    ensures bad { (status : ℕ) → given.bad_read hierarchy.now (length tables.old) address ≡ Some status
        → (result ≡ status) × (walked.new ≡ walked.old) }
    ensures told { given.bad_read hierarchy.now (length tables.old) address ≡ None
        → reads.WritesIfFound (reads.walked_to (given.hierarchy_in hierarchy.now tables.old) address)
        result walked.old walked.new }
    ensures tables { tables.new ≡ tables.old }
{
    match enter(hierarchy, tables, &mut [], &PageWalk { address }) {
        Ok(found) => tell(found, walked),
        Err(status) => status,
    }
}

/// The page walk to an address.
#[derive(Clone, Copy)]
pub struct PageWalk {
    address: u64,
}

impl Operation for PageWalk {
    ghost use Rattle.std.specs.Prelude.{◌≡◌};
    ghost use Rattle.x86_64_c.specs.Arguments.{wrong_address};
    ghost use Rattle.x86_64_c.specs.Reads.{walked_to};

    type Out = Option<Walked>;

    type Entry = u64;

    ghost wrong = { λ walk levels tables room. wrong_address levels walk.address };

    ghost does = { λ walk h array after left found. (after.memory ≡ h.memory)
        × (found ≡ walked_to h walk.address) };

    fn execute<L: LevelCount, T: TableMemory, P: PageTableFrameMapping + Copy>(
        &self,
        memory: &mut T,
        located: Located<P>,
        _array: &mut [u64],
    ) -> Result<Option<Walked>, u32> {
        let address = address_of::<L>(self.address)?;
        match page_walk(memory, &located.mapping, located.root, address) {
            Some(arrival) => Ok(Some(Walked {
                address: arrival.address.as_u64(),
                write: arrival.write,
                user: arrival.user,
            })),
            None => Ok(None),
        }
    }
}

// ---- the translation

/// Returns what an address is mapped to, present or not at level one, as the mapper's `translate` does.
///
/// Requires that the hierarchy is valid, which `x64_is_valid` tests. Returns `OK` with the translation, `NOT_MAPPED`, or what is wrong
/// with an argument; then nothing is written.
#[tactic(auto, using(crate::proofs::ArgumentsGiven::kept))]
#[unsafe(no_mangle)]
pub extern "C" fn x64_translate(
    hierarchy: &Hierarchy,
    tables: &mut [PageTable],
    address: u64,
    translation: &mut Translation,
) -> u32
    requires { given.bad_read hierarchy.now (length tables.old) address ≡ None
        → Valid (given.hierarchy_in hierarchy.now tables.old) }
    ensures bad { (status : ℕ) → given.bad_read hierarchy.now (length tables.old) address ≡ Some status
        → (result ≡ status) × (translation.new ≡ translation.old) }
    ensures told { given.bad_read hierarchy.now (length tables.old) address ≡ None
        → reads.WritesIfFound (reads.translated_at (given.hierarchy_in hierarchy.now tables.old) address)
        result translation.old translation.new }
    ensures tables { tables.new ≡ tables.old }
{
    match enter(hierarchy, tables, &mut [], &Translate { address }) {
        Ok(found) => tell(found, translation),
        Err(status) => status,
    }
}

/// The translation of an address.
#[derive(Clone, Copy)]
pub struct Translate {
    address: u64,
}

impl Operation for Translate {
    ghost use Rattle.std.specs.Prelude.{◌≡◌};
    ghost use Rattle.x86_64_c.specs.Arguments.{wrong_address};
    ghost use Rattle.x86_64_c.specs.Reads.{translated_at};
    ghost use Rattle.x86_64_model.specs.Hierarchy.{Valid};

    type Out = Option<Translation>;

    type Entry = u64;

    ghost wrong = { λ translate levels tables room. wrong_address levels translate.address };

    ghost may = { λ translate h array. Valid h };

    ghost does = { λ translate h array after left found.
        (after.memory ≡ h.memory) × (found ≡ translated_at h translate.address) };

    fn execute<L: LevelCount, T: TableMemory, P: PageTableFrameMapping + Copy>(
        &self,
        memory: &mut T,
        located: Located<P>,
        _array: &mut [u64],
    ) -> Result<Option<Translation>, u32> {
        let address = address_of::<L>(self.address)?;
        let mapper = MappedPageTableIn::<_, L, T>::new(memory, located.root, located.mapping);
        match calls::translate(&mapper, address) {
            TranslateResult::Mapped {
                frame,
                offset,
                flags,
            } => Ok(Some(Translation {
                frame: frame.start_address().as_u64(),
                size: frame.size(),
                offset,
                flags: flags.bits(),
            })),
            _ => Ok(None),
        }
    }
}
