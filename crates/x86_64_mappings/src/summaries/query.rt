//! Queries: a memory, and which mappings of its tables are wanted.
ghost use Rattle.std.specs.Prelude.{◌≡◌, ◌<◌, ◌≤◌, ◌*◌, ◌/◌, ◌∷◌, ◌==◌, [], ℕ, true, bit_and, filter};
ghost use Rattle.std.specs.Option.{option_copied};
ghost use Rattle.x86_64_model.specs.Entry.{address};
ghost use Rattle.x86_64_model.specs.Mappings.{maps_page as page_mapped, every_right};
ghost use Rattle.x86_64_model.specs.private.Found.{page_from};
ghost use Rattle.x86_64_mappings.specs.Summaries.{summary_of};
ghost use Rattle.x86_64_mappings.specs.Wanted.{asked_of, is_wanted};
ghost use Rattle.x86_64_mappings.specs.private.Known.{asking};

use crate::MappingIn;
use crate::summaries::summary::Summary;
use x86_64_addr::addr::PhysAddr;
use x86_64_addr::level_count::{FiveLevels, LevelCount};
use x86_64_page::frame::PhysFrame;
use x86_64_page::page::Size4KiB;
use x86_64_tables::page_table::{PageTable, PageTableEntry, Rights};
use x86_64_tables::phys_memory::{PageTableFrameMapping, TableMemory, table_in};

/// A query: a memory, and which mappings of its tables are wanted.
#[derive(Clone, Copy)]
pub(crate) struct Query<'a, T, P> {
    /// The memory.
    pub(crate) memory: &'a T,
    /// The mapping of frames to places, the numbers under which the memory holds tables.
    pub(crate) mapping: &'a P,
    /// The physical address that wanted mappings lead to. If there is none, all mappings are wanted.
    pub(crate) wanted: Option<PhysAddr>,
}

impl<'a, T: TableMemory, P: PageTableFrameMapping> Query<'a, T, P> {
    /// Returns the table in a frame, or `None` if there is none in the memory.
    pub(crate) fn table(&self, frame: PhysFrame<Size4KiB>) -> Option<&'a PageTable>
        ensures { option_copied result ≡ (asked_of T.tables P.places (asking self.now)).words frame }
    {
        table_in(self.memory, self.mapping, frame)
    }
}

impl<'a, T, P> Query<'a, T, P> {
    /// Returns true if a mapping is wanted.
    pub(crate) fn wants<L: LevelCount>(&self, mapping: &MappingIn<L>) -> bool
        ensures { result ≡ is_wanted self.now.wanted mapping.now }
    {
        match self.wanted {
            Some(address) => {
                let start = mapping.frame.start_address().as_u64();
                let address = address.as_u64();
                start <= address && address - start < mapping.size()
            }
            None => true,
        }
    }

    /// Returns the test that tells which pages by entries of level one are wanted.
    pub(crate) fn small_page_test(&self) -> FrameTest
        ensures { (entry : ℕ) → (bit_and (address entry) result.mask == result.frame)
            ≡ is_wanted self.now.wanted (page_from 0 1 every_right entry) }
    {
        match self.wanted {
            Some(address) => FrameTest {
                mask: u64::MAX,
                frame: frame_of(address),
            },
            None => FrameTest { mask: 0, frame: 0 },
        }
    }

    /// Returns the summary of the mapping by an entry of a level that maps a page, or of no mappings if it isn't wanted.
    pub(crate) fn page_summary(&self, level: u64, entry: &PageTableEntry) -> Summary
        requires low { 1 ≤ level }
        requires page { page_mapped level entry.now ≡ true }
        ensures { (start : ℕ) → result ≡ summary_of
            (filter (is_wanted self.now.wanted) (page_from start level every_right entry.now ∷ [])) }
    {
        let page = MappingIn::<FiveLevels>::of_page(level, 0, entry, Rights::ALL);
        if self.wants(&page) {
            Summary::of_one(page.size(), page.rights)
        } else {
            Summary::NONE
        }
    }
}

/// A test of entries of level one by the frames that they name.
#[derive(Clone, Copy)]
pub(crate) struct FrameTest {
    /// The bits of the frame's address that are tested: all, or none if every entry passes.
    mask: u64,
    /// What these bits are in an entry that passes.
    frame: u64,
}

impl FrameTest {
    /// Returns true if an entry passes.
    #[inline(always)]
    pub(crate) fn passes(self, entry: &PageTableEntry) -> bool
        ensures { result ≡ (bit_and (address entry.now) self.mask == self.frame) }
    {
        entry.addr().as_u64() & self.mask == self.frame
    }
}

/// Returns the start address of the 4KiB frame that contains an address.
fn frame_of(address: PhysAddr) -> u64
    ensures { result ≡ address / 4096 * 4096 }
{
    PhysFrame::<Size4KiB>::containing_address(address)
        .start_address()
        .as_u64()
}
