//! What most tests use: assertions as functions, so that the messages of failed ones are here once, for the values of all
//! tests, and imports.
ghost use Rattle.std.specs.Prelude.{◌≡◌, Ok, Some};

pub use crate::images::{
    ROOT, WORD_COUNT, fill, fits, fits_recursive, flags_of, frame_at, page_at, pool_of,
    run_at_offset, run_flushed_on, run_over, run_recursive_on, set_word, word_at,
};
pub use bitflags::Flags;
pub use pagetab_engine::ending::{Ending, Fault};
pub use std::alloc::{AllocError, Global};
pub use std::fmt::Debug;
use std::process::Abort;
pub use test_reference::Answer::Done;
pub use test_reference::PlainReply::{Answered, Cleaned};
pub use test_reference::words::address;
pub use test_reference::{Answer, PlainReply, Refusal, Translated};
pub use x86_64::addr::VirtAddrIn;
pub use x86_64::structures::paging::mapper::{
    FlagUpdateError, MappedFrame, MapperFlushAll, PageTableFrameMapping, UnmapError,
};
pub use x86_64::structures::paging::page::PageIn;
pub use x86_64::structures::paging::{
    MappedPageTable, OffsetPageTable, PageSize, PageTableFlags, PageTableIndex, PhysFrame, Size4KiB,
};
pub use x86_64::{
    Call, CallIn, FiveLevels, FlushItem, FlushRecorder, FourLevels, FramePlace, FramePool,
    IdentityMapping, LevelCount, LevelFiveFlags, MapperReply, NoLevelFive, PageReply, PhysAddr,
    PhysMemory, Reply, ReplyIn, SizeCallIn, VirtAddr, pool_fits, pool_fits_57, pool_fits_recursive,
    pool_fits_recursive_57, run, run_flushed,
};
pub use x86_64_mappers::laws::offset_has_the_tables_of_the_identity;
pub use x86_64_mappers::mapped_page_table::MappedPageTableIn;
pub use x86_64_mappers::recursive_page_table::RecursivePageTableIn;
pub use x86_64_tables::phys_memory::Active;

/// What tests need of the runtime: it aborts, and allocates memory.
pub trait Test: Abort + AllocGlobal + Copy {}

impl<R: Abort + AllocGlobal + Copy> Test for R {}

/// Aborts unless two values are equal.
pub fn assert_equal<T: PartialEq + Debug + Drop>(rt: impl Abort + Copy, found: T, wanted: T) {
    assert_eq!(rt; found, wanted);
}

/// Aborts unless two values are equal, and prints the case that they belong to.
pub fn assert_equal_in<C: Debug + Drop, T: PartialEq + Debug + Drop>(
    rt: impl Abort + Copy,
    case: C,
    found: T,
    wanted: T,
) {
    assert_eq!(rt; found, wanted, "in {case:?}");
}

/// Returns the value of a result, or aborts if it is an error. A call has only one exit. With `?`, a test would have
/// a second exit that drops all it owns, and this would have to be proved as well.
pub fn unwrap<T, E: Drop>(rt: impl Abort + Copy, answer: Result<T, E>) -> T
    ensures { answer ≡ Ok result }
{
    match answer {
        Ok(value) => value,
        Err(_) => panic!(rt; "an error where there must be a value"),
    }
}

/// Returns the value, or aborts if there is none.
pub fn unwrap_some<T>(rt: impl Abort + Copy, found: Option<T>) -> T
    ensures { found ≡ Some result }
{
    match found {
        Some(value) => value,
        None => panic!(rt; "none where there must be a value"),
    }
}
