//! Calls that change one entry: unmaps and changes of flags.
ghost use Rattle.std.specs.Prelude.{◌≡◌, ◌≤◌, ℕ, length, Option, Some, None};
ghost use Rattle.x86_64_c.specs.Calls as calls;
ghost use Rattle.x86_64_c.specs.Arguments as given;
ghost use Rattle.x86_64_model.specs.Call.{UpdateFlags, SetFlags};
ghost use Rattle.x86_64_model.specs.Hierarchy.{Hierarchy, Valid, allows};
ghost use Rattle.x86_64_model.specs.Refusal.{Refused};
ghost use Rattle.x86_64_tables.specs.MapperAnswers.{unmap_answer, refusal_of_unmap, flags_answer};
ghost use Rattle.x86_64_tables.specs.PageTableFlags.{bits_of};

use crate::arguments::{AnyPage, Hierarchy, Located, Page, page_of};
use crate::operation::{Operation, enter};
use crate::status::{self, flags_status};
use bitflags::Flags;
use x86_64::structures::paging::mapper::{
    FlagUpdateError, MappedPageTableIn, MapperFlushAll, MapperFlushIn, PageTableFrameMapping,
    TablesIn, UnmapError,
};
use x86_64::structures::paging::{PageIn, PageSize, PageTable, PageTableFlags, PhysFrame};
use x86_64::{LevelCount, TableMemory, is_outside_window};
use x86_64_mappers::calls::{self, TableAccess};

/// A change of one entry on the path of a page.
pub trait EntryChange {
    /// What the change returns.
    type Out;

    /// What is wrong with the change, for a number of levels of tables.
    ghost wrong: { Self → (levels : ℕ) → Option ℕ } = { λ _ _. None };

    /// What the change does to a hierarchy, with the level of the page's entry and its position, and what it returns.
    ghost makes: { Self → Hierarchy (Unit {0}) → (level page : ℕ) → (after : Hierarchy (Unit {0}))
        → (out : Self.Out) → Type 0 };

    /// Returns what is wrong with the change, for a number of levels of tables.
    fn wrong_with(&self, levels: u64) -> Option<u32>
        ensures { result ≡ wrong self.now levels };

    /// Makes the change.
    fn make<S: PageSize, L: LevelCount, T: TableMemory, P: PageTableFrameMapping + Copy>(
        &self,
        memory: &mut T,
        located: Located<P>,
        page: PageIn<S, L>,
    ) -> Self::Out
        requires good { wrong self.now L.LEVELS ≡ None }
        requires valid { Valid (given.at P.places L.LEVELS located (T.tables memory.old)) }
        ensures makes { makes self.now (given.at P.places L.LEVELS located (T.tables memory.old)) S.LEVEL page
            (given.at P.places L.LEVELS located (T.tables memory.new)) result }
        ensures lent { T.lent memory.new ≡ T.lent memory.old };
}

/// A change of one entry on the path of this page.
#[derive(Clone, Copy)]
pub struct OnPage<'a, C> {
    page: &'a Page,
    change: &'a C,
}

impl<'a, C: EntryChange> Operation for OnPage<'a, C> {
    ghost use Rattle.std.specs.Option.{option_or};
    ghost use Rattle.x86_64_c.specs.Arguments.{wrong_page, level_of_page_size, position_of};
    ghost use Rattle.x86_64_model.specs.Hierarchy.{Valid};

    type Out = C::Out;

    type Entry = u64;

    ghost wrong = { λ on levels tables room.
        option_or (C.wrong on.change.now levels) (wrong_page levels on.page.now) };

    ghost may = { λ on h array. Valid h };

    ghost does = { λ on h array after left out.
        C.makes on.change.now h (level_of_page_size on.page.now.size)
        (position_of h.layout.levels on.page.now.start) after out };

    fn execute<L: LevelCount, T: TableMemory, P: PageTableFrameMapping + Copy>(
        &self,
        memory: &mut T,
        located: Located<P>,
        _array: &mut [u64],
    ) -> Result<C::Out, u32> {
        if let Some(wrong) = self.change.wrong_with(L::LEVELS) {
            return Err(wrong);
        }
        let page = page_of::<L>(self.page)?;
        Ok(match page {
            AnyPage::Of4KiB(page) => self.change.make(memory, located, page),
            AnyPage::Of2MiB(page) => self.change.make(memory, located, page),
            AnyPage::Of1GiB(page) => self.change.make(memory, located, page),
        })
    }
}

// ---- unmaps

/// Unmaps a page, as the mapper's `unmap` does, and writes the address of the frame that it was mapped to.
///
/// Requires that the hierarchy is valid, which `x64_is_valid` tests; it is valid again afterwards. Returns `OK`,
/// `PARENT_ENTRY_HUGE_PAGE`, `PAGE_NOT_MAPPED`, `INVALID_FRAME_ADDRESS` and writes this address, or what is wrong with an argument. If
/// it isn't `OK`, no word changes.
#[unsafe(no_mangle)]
pub extern "C" fn x64_unmap(
    hierarchy: &Hierarchy,
    tables: &mut [PageTable],
    page: &Page,
    frame: &mut u64,
) -> u32
    requires { calls.bad_on_page hierarchy.now (length tables.old) page.now ≡ None
        → Valid (given.hierarchy_in hierarchy.now tables.old) }
    ensures bad { (status : ℕ) → calls.bad_on_page hierarchy.now (length tables.old) page.now ≡ Some status
        → (result ≡ status) × (tables.new ≡ tables.old) × (frame.new ≡ frame.old) }
    ensures unmaps { calls.bad_on_page hierarchy.now (length tables.old) page.now ≡ None
        → calls.Unmaps (given.hierarchy_in hierarchy.now tables.old) (given.level_of_page_size page.now.size)
        (given.position_of hierarchy.now.levels page.now.start)
        (given.hierarchy_in hierarchy.now tables.new) result frame.old frame.new }
{
    let on = OnPage {
        page,
        change: &Unmap,
    };
    let told = match enter(hierarchy, tables, &mut [], &on) {
        Ok(told) => told,
        Err(status) => return status,
    };
    if let Some(address) = told.address {
        *frame = address;
    }
    told.status
}

/// The unmap of a page.
#[derive(Clone, Copy)]
pub struct Unmap;

/// What an unmap tells.
#[derive(Clone, Copy)]
pub struct Told {
    /// The status.
    pub status: u32,
    /// The address that the page's entry names, if the unmap returns it.
    pub address: Option<u64>,
}

impl EntryChange for Unmap {
    ghost use Rattle.x86_64_c.specs.Calls as calls;

    type Out = Told;

    ghost makes = { λ _ h level page after told.
        calls.TellsUnmap h level page after told.status told.address };

    fn wrong_with(&self, _levels: u64) -> Option<u32> {
        None
    }

    fn make<S: PageSize, L: LevelCount, T: TableMemory, P: PageTableFrameMapping + Copy>(
        &self,
        memory: &mut T,
        located: Located<P>,
        page: PageIn<S, L>,
    ) -> Told {
        let mut mapper = MappedPageTableIn::<_, L, T>::new(memory, located.root, located.mapping);
        let unmapped = calls::unmap(&mut mapper, page);
        tell_unmapped(unmapped)
    }
}

/// Tells what an unmap returned.
fn tell_unmapped<S: PageSize, L: LevelCount>(
    unmapped: Result<(PhysFrame<S>, MapperFlushIn<S, L>), UnmapError>,
) -> Told
    ensures status { result.status ≡ calls.answer_status (unmap_answer unmapped) }
    ensures address { result.address ≡ calls.told_by (unmap_answer unmapped) }
{
    match unmapped {
        Ok(unmapped) => {
            unmapped.1.ignore();
            Told {
                status: status::OK,
                address: Some(unmapped.0.start_address().as_u64()),
            }
        }
        Err(error) => tell_refused(error),
    }
}

/// Tells why an unmap was refused.
fn tell_refused(error: UnmapError) -> Told
    ensures status { result.status ≡ calls.refusal_status (refusal_of_unmap error) }
    ensures address { result.address ≡ calls.told_by (Refused (refusal_of_unmap error)) }
{
    match error {
        UnmapError::PageNotMapped => Told {
            status: status::PAGE_NOT_MAPPED,
            address: None,
        },
        UnmapError::ParentEntryHugePage => Told {
            status: status::PARENT_ENTRY_HUGE_PAGE,
            address: None,
        },
        UnmapError::InvalidFrameAddress(address) => Told {
            status: status::INVALID_FRAME_ADDRESS,
            address: Some(address.as_u64()),
        },
    }
}

// ---- flags of pages

/// Sets the flags of a page's own entry, as the mapper's `update_flags` does.
///
/// Requires that the hierarchy is valid, which `x64_is_valid` tests; it is valid again afterwards. Returns `OK`, `NOT_ALLOWED` if the
/// flags have address bits, `PARENT_ENTRY_HUGE_PAGE`, `PAGE_NOT_MAPPED`, or what is wrong with an argument. If it isn't `OK`, no word
/// changes.
#[unsafe(no_mangle)]
pub extern "C" fn x64_update_flags(
    hierarchy: &Hierarchy,
    tables: &mut [PageTable],
    page: &Page,
    flags: u64,
) -> u32
    requires { calls.bad_on_page hierarchy.now (length tables.old) page.now ≡ None
        → Valid (given.hierarchy_in hierarchy.now tables.old) }
    ensures bad { (status : ℕ) → calls.bad_on_page hierarchy.now (length tables.old) page.now ≡ Some status
        → (result ≡ status) × (tables.new ≡ tables.old) }
    ensures updates { calls.bad_on_page hierarchy.now (length tables.old) page.now ≡ None
        → calls.MayChange (given.hierarchy_in hierarchy.now tables.old)
        (UpdateFlags (given.level_of_page_size page.now.size)
        (given.position_of hierarchy.now.levels page.now.start) flags)
        (given.hierarchy_in hierarchy.now tables.new) result }
{
    let flags = PageTableFlags::from_bits_retain(flags);
    let on = OnPage {
        page,
        change: &FlagsOfPage { flags },
    };
    match enter(hierarchy, tables, &mut [], &on) {
        Ok(status) => status,
        Err(status) => status,
    }
}

/// The flags that a page's own entry is to have.
#[derive(Clone, Copy)]
pub struct FlagsOfPage {
    flags: PageTableFlags,
}

impl EntryChange for FlagsOfPage {
    ghost use Rattle.x86_64_c.specs.Calls as calls;
    ghost use Rattle.x86_64_model.specs.Call.{UpdateFlags};
    ghost use Rattle.x86_64_tables.specs.PageTableFlags.{bits_of};

    type Out = u32;

    ghost makes = { λ new h level page after status.
        calls.MayChange h (UpdateFlags level page (bits_of new.flags)) after status };

    fn wrong_with(&self, _levels: u64) -> Option<u32> {
        None
    }

    fn make<S: PageSize, L: LevelCount, T: TableMemory, P: PageTableFrameMapping + Copy>(
        &self,
        memory: &mut T,
        located: Located<P>,
        page: PageIn<S, L>,
    ) -> u32 {
        if self.flags.has_address_bits() {
            return status::NOT_ALLOWED;
        }
        let mut mapper = MappedPageTableIn::<_, L, T>::new(memory, located.root, located.mapping);
        let updated = calls::update_flags(&mut mapper, page, self.flags);
        updated_status(updated)
    }
}

/// Returns the status of a change of a page's flags.
fn updated_status<S: PageSize, L: LevelCount>(
    updated: Result<MapperFlushIn<S, L>, FlagUpdateError>,
) -> u32
    ensures { (frame : ℕ) → result ≡ calls.answer_status (flags_answer frame updated) }
{
    match updated {
        Ok(flush) => {
            flush.ignore();
            status::OK
        }
        Err(error) => flags_status(error),
    }
}

// ---- flags of tables

/// Sets the flags of the entry of a level from two up on a page's path, as the mapper's `set_flags_p4_entry` and its kin do.
///
/// Requires that the hierarchy is valid, which `x64_is_valid` tests; it is valid again afterwards. Returns `OK`, `NOT_ALLOWED` if the
/// flags have address bits or if `HUGE_PAGE` would change, `PARENT_ENTRY_HUGE_PAGE`, `PAGE_NOT_MAPPED`, or what is wrong with an
/// argument: `BAD_LEVELS` if there is no such level. If it isn't `OK`, no word changes.
#[unsafe(no_mangle)]
pub extern "C" fn x64_set_table_flags(
    hierarchy: &Hierarchy,
    tables: &mut [PageTable],
    page: &Page,
    level: u64,
    flags: u64,
) -> u32
    requires { calls.bad_on_table hierarchy.now (length tables.old) level page.now ≡ None
        → Valid (given.hierarchy_in hierarchy.now tables.old) }
    ensures bad { (status : ℕ) →
        calls.bad_on_table hierarchy.now (length tables.old) level page.now ≡ Some status →
        (result ≡ status) × (tables.new ≡ tables.old) }
    ensures sets { calls.bad_on_table hierarchy.now (length tables.old) level page.now ≡ None
        → calls.MayChange (given.hierarchy_in hierarchy.now tables.old)
        (SetFlags level (given.level_of_page_size page.now.size)
        (given.position_of hierarchy.now.levels page.now.start) flags)
        (given.hierarchy_in hierarchy.now tables.new) result }
{
    let flags = PageTableFlags::from_bits_retain(flags);
    let on = OnPage {
        page,
        change: &FlagsOfTable { level, flags },
    };
    match enter(hierarchy, tables, &mut [], &on) {
        Ok(status) => status,
        Err(status) => status,
    }
}

/// The flags that the entry of a level from two up is to have.
#[derive(Clone, Copy)]
pub struct FlagsOfTable {
    level: u64,
    flags: PageTableFlags,
}

impl EntryChange for FlagsOfTable {
    ghost use Rattle.x86_64_c.specs.Calls as calls;
    ghost use Rattle.x86_64_c.specs.Arguments.{unless};
    ghost use Rattle.x86_64_c.specs.Status.{bad_levels};
    ghost use Rattle.x86_64_model.specs.Call.{SetFlags};
    ghost use Rattle.x86_64_tables.specs.PageTableFlags.{bits_of};

    type Out = u32;

    ghost wrong = { λ new levels. unless (calls.is_table_level levels new.level) bad_levels };

    ghost makes = { λ new h level page after status.
        calls.MayChange h (SetFlags new.level level page (bits_of new.flags)) after status };

    fn wrong_with(&self, levels: u64) -> Option<u32> {
        if self.level < 2 || levels < self.level {
            Some(status::BAD_LEVELS)
        } else {
            None
        }
    }

    fn make<S: PageSize, L: LevelCount, T: TableMemory, P: PageTableFrameMapping + Copy>(
        &self,
        memory: &mut T,
        located: Located<P>,
        page: PageIn<S, L>,
    ) -> u32 {
        let mut mapper = MappedPageTableIn::<_, L, T>::new(memory, located.root, located.mapping);
        if !may_set(&mapper, page, self.level, self.flags) {
            return status::NOT_ALLOWED;
        }
        let set = calls::set_table_flags(&mut mapper, page, self.level, self.flags);
        set_status(set)
    }
}

/// Returns whether the flags of the entry of a level on a page's path may be set to these.
#[tactic(auto, unfolding(x86_64_model::specs::Entry::has))]
fn may_set<S: PageSize, L: LevelCount, M: TableAccess + TablesIn<L>>(
    mapper: &M,
    page: PageIn<S, L>,
    level: u64,
    flags: PageTableFlags,
) -> bool
    requires low { 2 ≤ level }
    requires high { level ≤ L.LEVELS }
    requires valid { Valid (M.hierarchy mapper.now) }
    ensures { result ≡ allows (M.hierarchy mapper.now)
        (SetFlags level S.LEVEL page (bits_of flags)) }
{
    if level <= 3 {
        return calls::table_flags_allowed(mapper, page, level, flags);
    }
    !flags.has_address_bits()
        && !flags.contains(PageTableFlags::HUGE_PAGE)
        && is_outside_window(mapper, page)
}

/// Returns the status of a change of a table's flags.
fn set_status(set: Result<MapperFlushAll, FlagUpdateError>) -> u32
    ensures { (frame : ℕ) → result ≡ calls.answer_status (flags_answer frame set) }
{
    match set {
        Ok(flush) => {
            flush.ignore();
            status::OK
        }
        Err(error) => flags_status(error),
    }
}
