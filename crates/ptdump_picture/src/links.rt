//! The links between tables.
mod listing;

pub use listing::table_links;
use x86_64_page::frame::PhysFrame;
use x86_64_page::page::Size4KiB;

/// A link: an entry of a table that names a table one level below.
#[derive(Clone, Copy)]
pub struct TableLink {
    /// The level of the table with the entry.
    pub level: u64,
    /// The frame of the table with the entry.
    pub parent: PhysFrame<Size4KiB>,
    /// The index of the entry.
    pub index: u64,
    /// The frame of the table that the entry names.
    pub child: PhysFrame<Size4KiB>,
}
