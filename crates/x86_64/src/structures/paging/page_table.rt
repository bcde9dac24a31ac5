//! Page tables, their entries, indices and levels.
pub use x86_64_addr::index::{PageOffset, PageTableIndex, PageTableLevel, PageTableLevel57};
pub use x86_64_tables::page_table::{
    Entries, EntriesMut, FrameError, PageTable, PageTableEntry, PageTableFlags,
};
