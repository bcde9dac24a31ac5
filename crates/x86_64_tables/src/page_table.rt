//! Page tables and page table entries.
mod entries;
mod entry;
mod flags;
mod rights;
mod table;
mod target;

pub use entries::{Entries, EntriesMut};
pub use entry::{FrameError, PageTableEntry, has_flag};
pub use flags::PageTableFlags;
pub use rights::Rights;
pub use table::PageTable;
pub use target::EntryTarget;
