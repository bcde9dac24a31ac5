//! The tables in which findings are looked for.
ghost use Rattle.std.specs.Prelude.{◌≡◌, ◌++◌, IfOk, OnOk, map};
ghost use Rattle.x86_64_dump.specs.Loaded.{frames_of};
ghost use Rattle.ptdump_check.specs.Findings.{frames_above, tables_from_level, tables_by_address};

use crate::findings::entry::Table;
use std::alloc::{AllocError, Global};
use x86_64_dump::TablesByLevel;
use x86_64_page::frame::PhysFrame;
use x86_64_page::page::Size4KiB;

/// Returns the tables by address, those of one frame by level.
///
/// # Errors
///
/// `AllocError` if memory allocation fails.
#[tactic(auto, unfolding(crate::specs::Findings::tables_by_address))]
pub fn tables_in_order(alloc: Global, frames: TablesByLevel<'_>) -> Result<Vec<Table>, AllocError>
    ensures { IfOk result (λ tables. tables.items ≡ tables_by_address (frames_of frames.now)) }
{
    let mut tables = tables_by_level(alloc, frames)?;
    tables.sort_by_key(|table: &Table| -> u64 { table.frame.start_address().as_u64() })?;
    Ok(tables)
}

/// Returns the tables by level.
fn tables_by_level(alloc: Global, frames: TablesByLevel<'_>) -> Result<Vec<Table>, AllocError>
    ensures { IfOk result (λ tables. tables.items ≡ tables_from_level 1 (frames_of frames.now)) }
{
    let mut tables = Vec::new(alloc);
    let mut level = 0;
    for of_level in frames {
        level += 1;
        add_tables(&mut tables, level, of_level)?;
    }
    Ok(tables)
}

/// Adds the tables of a level.
fn add_tables(
    tables: &mut Vec<Table>,
    level: u64,
    frames: &[PhysFrame<Size4KiB>],
) -> Result<(), AllocError>
    ensures { OnOk result (tables.new.items
        ≡ tables.old.items ++ map (λ frame. record { frame = frame; level = level }) frames.now) }
{
    for frame in frames {
        tables.push(Table {
            frame: *frame,
            level,
        })?;
    }
    Ok(())
}

/// Returns the frames of the tables above level one, each once if the tables are in the order of their frames.
pub fn frames_above_level_one(
    alloc: Global,
    tables: &[Table],
) -> Result<Vec<PhysFrame<Size4KiB>>, AllocError>
    ensures { IfOk result (λ frames. frames.items ≡ frames_above tables.now) }
{
    let mut frames = Vec::new(alloc);
    for table in tables {
        if table.level > 1 {
            frames.push(table.frame)?;
        }
    }
    frames.dedup();
    Ok(frames)
}
