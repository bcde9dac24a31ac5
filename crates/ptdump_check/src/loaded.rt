//! The data for reports.

use std::marker::PhantomData;
use x86_64_addr::level_count::LevelCount;
use x86_64_dump::DumpTables;
use x86_64_mappings::Summaries;
use x86_64_page::frame::PhysFrame;
use x86_64_page::page::Size4KiB;
use x86_64_tables::phys_memory::{IdentityMapping, PhysMemory};

/// The data for all reports: the tables that a root leads to, with the number of levels of `L`, and what they map.
#[derive(Clone, Copy)]
pub struct Loaded<'a, L: LevelCount> {
    /// The frame of the root.
    pub root: PhysFrame<Size4KiB>,
    /// The tables.
    pub tables: &'a DumpTables,
    /// What each of the tables maps.
    pub summaries: &'a Summaries<'a, PhysMemory, IdentityMapping>,
    /// The number of levels.
    pub levels: PhantomData<L>,
}
