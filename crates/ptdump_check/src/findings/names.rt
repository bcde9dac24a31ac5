//! Entries that name tables.
ghost use Rattle.std.specs.Prelude.{◌≡◌, ◌++◌, [], IfOk, OnOk};
ghost use Rattle.std.specs.List.{cons_option};
ghost use Rattle.x86_64_model.specs.Memory.{identity_places, words_of};
ghost use Rattle.ptdump_check.specs.Findings.{name_by, names_in, names_in_order};

use crate::findings::entry::{Slot, Table};
use crate::findings::tables::frames_above_level_one;
use std::alloc::{AllocError, Global};
use x86_64_page::frame::PhysFrame;
use x86_64_page::page::Size4KiB;
use x86_64_tables::page_table::PageTableEntry;
use x86_64_tables::phys_memory::{IdentityMapping, PhysMemory, table_in};

/// A frame that an entry names as a table.
#[derive(Clone, Copy)]
pub struct Name {
    /// The frame.
    pub frame: PhysFrame<Size4KiB>,
    /// The slot of the entry.
    pub by: Slot,
}

impl Name {
    /// Returns the name in an entry, if the entry names a table.
    fn of(slot: Slot, entry: &PageTableEntry) -> Option<Name>
        ensures { result ≡ name_by slot entry.now }
    {
        let frame = entry.frame().ok()?;
        Some(Name { frame, by: slot })
    }
}

/// Returns the names in the tables above level one, by the frames that they name, and those of one frame in the order of their
/// slots. The entries of a frame that has tables of several levels count once.
///
/// # Errors
///
/// `AllocError` if memory allocation fails.
#[tactic(auto, unfolding(crate::specs::Findings::names_in_order))]
pub fn names_in_order(
    alloc: Global,
    memory: &PhysMemory,
    tables: &[Table],
) -> Result<Vec<Name>, AllocError>
    ensures { IfOk result (λ names.
        names.items ≡ names_in_order (words_of memory.now identity_places) tables.now) }
{
    let frames = frames_above_level_one(alloc, tables)?;
    let mut names = Vec::new(alloc);
    for frame in &frames {
        add_names(memory, *frame, &mut names)?;
    }
    names.sort_by_key(|name: &Name| -> u64 { name.frame.start_address().as_u64() })?;
    Ok(names)
}

/// Adds the names in the table in a frame.
#[tactic(auto, unfolding(crate::specs::Findings::names_in))]
fn add_names(
    memory: &PhysMemory,
    frame: PhysFrame<Size4KiB>,
    names: &mut Vec<Name>,
) -> Result<(), AllocError>
    ensures { OnOk result (names.new.items
        ≡ names.old.items ++ names_in (words_of memory.now identity_places) frame) }
{
    let Some(table) = table_in(memory, &IdentityMapping, frame) else {
        return Ok(());
    };
    for index in 0..512 {
        let slot = Slot {
            table: frame,
            index,
        };
        add_name(names, Name::of(slot, &table[index]))?;
    }
    Ok(())
}

/// Adds a name, if there is one.
fn add_name(names: &mut Vec<Name>, name: Option<Name>) -> Result<(), AllocError>
    ensures { OnOk result (names.new.items ≡ names.old.items ++ cons_option name []) }
{
    if let Some(name) = name {
        names.push(name)?;
    }
    Ok(())
}
