//! Page tables, pages, frames and mappers.
pub mod mapper;
pub mod page_table;

pub use mapper::{
    MappedPageTable, MappedPageTable57, Mapper, Mapper57, OffsetPageTable, OffsetPageTable57,
    RecursivePageTable, RecursivePageTable57, Translate, Translate57,
};
pub use page_table::{PageOffset, PageTable, PageTableFlags, PageTableIndex};
pub use x86_64_page::frame::PhysFrame;
pub use x86_64_page::page::{Page, Page57, PageIn, PageSize, Size1GiB, Size2MiB, Size4KiB};
pub use x86_64_page::{frame, page};
pub use x86_64_tables::frame_alloc::{FrameAllocator, FrameDeallocator};
