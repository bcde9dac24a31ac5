//! What most tests use: assertions as functions, so that the messages of failed ones are here once, and shorthands.
ghost use Rattle.std.specs.Prelude.{◌≡◌, Ok, Some};

pub use bitflags::Flags;
pub use std::fmt::Debug;
pub use std::process::Abort;
pub use x86_64_addr::addr::{PhysAddr, VirtAddr, VirtAddr57, VirtAddrIn, align_down, align_up};
pub use x86_64_addr::index::{PageOffset, PageTableIndex, PageTableLevel, PageTableLevel57};
pub use x86_64_addr::level_count::{FiveLevels, FourLevels, LevelCount};
pub use x86_64_page::frame::{PfnNotValid, PhysFrame};
pub use x86_64_page::page::{Page, Page57, PageIn, PageSize, Size1GiB, Size2MiB, Size4KiB};
pub use x86_64_page::range::{Block, BlockRange, BlockRangeInclusive};
pub use x86_64_tables::page_table::PageTableFlags;

/// Aborts unless two values are equal.
pub fn assert_equal<T: PartialEq + Debug + Drop>(rt: impl Abort + Copy, found: T, wanted: T) {
    assert_eq!(rt; found, wanted);
}

/// Aborts unless two values are equal, and prints the case that they belong to.
pub fn assert_equal_in<C: Debug + Drop, T: PartialEq + Debug + Drop>(
    rt: impl Abort + Copy,
    case: C,
    found: T,
    wanted: T,
) {
    assert_eq!(rt; found, wanted, "in {case:?}");
}

/// Returns the value of a result, or aborts if it is an error. A call has only one exit. With `?`, a test would have
/// a second exit that drops all it owns, and this would have to be proved as well.
pub fn unwrap<T, E: Drop>(rt: impl Abort + Copy, answer: Result<T, E>) -> T
    ensures { answer ≡ Ok result }
{
    match answer {
        Ok(value) => value,
        Err(_) => panic!(rt; "an error where there must be a value"),
    }
}

/// Returns the value, or aborts if there is none.
pub fn unwrap_some<T>(rt: impl Abort + Copy, found: Option<T>) -> T
    ensures { found ≡ Some result }
{
    match found {
        Some(value) => value,
        None => panic!(rt; "none where there must be a value"),
    }
}

/// Returns the page that contains a raw address.
pub fn page<S: PageSize, L: LevelCount>(raw: u64) -> PageIn<S, L> {
    PageIn::containing_address(VirtAddrIn::new_truncate(raw))
}

/// Returns the frame that contains a physical address.
pub fn frame<S: PageSize>(raw: u64) -> PhysFrame<S> {
    PhysFrame::containing_address(PhysAddr::new_truncate(raw))
}
