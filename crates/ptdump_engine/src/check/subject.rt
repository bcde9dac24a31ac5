//! What a check looks at.

use crate::request::Selection;
use ptdump_check::{Finding, Name, Table};
use x86_64_access::Controls;
use x86_64_page::frame::PhysFrame;
use x86_64_page::page::Size4KiB;
use x86_64_tables::phys_memory::PhysMemory;

/// The tables below a root, the names in them, and which regions count.
#[derive(Clone, Copy)]
pub struct Subject<'a> {
    /// The memory that holds the tables.
    pub memory: &'a PhysMemory,
    /// The regions that are looked at.
    pub selection: Selection,
    /// Whether frames are looked for that are mapped with different rights.
    pub aliases: bool,
    /// The processor whose reserved bits are looked for.
    pub processor: Controls,
    /// The frame of the root.
    pub root: PhysFrame<Size4KiB>,
    /// The tables, in order.
    pub tables: &'a [Table],
    /// The names of tables in their entries, in order.
    pub names: &'a [Name],
    /// The findings of the tables to which mappings lead.
    pub reached: &'a [Finding],
}
