//! The links between the tables of a memory.
ghost use Rattle.std.specs.Prelude.{◌<◌, All, IfOk, IfSome, OnOk};
ghost use Rattle.x86_64_model.specs.Memory.{words_of};
ghost use Rattle.ptdump_picture.specs.Links.{IsLink};

use crate::links::TableLink;
use std::alloc::{AllocError, Global};
use x86_64_dump::TablesByLevel;
use x86_64_page::frame::PhysFrame;
use x86_64_page::page::Size4KiB;
use x86_64_tables::phys_memory::{PageTableFrameMapping, TableMemory, table_in};

/// Lists the entries by which tables name tables. `tables` has the frames of the tables by level, level one first. An entry
/// names a table if it has `PRESENT` and no `HUGE_PAGE`.
pub fn table_links<T: TableMemory, P: PageTableFrameMapping>(
    alloc: Global,
    memory: &T,
    mapping: &P,
    tables: TablesByLevel<'_>,
) -> Result<Vec<TableLink>, AllocError>
    ensures { IfOk result (λ links.
        All (IsLink (words_of (T.tables memory.now) (P.places mapping.now))) links.items) }
{
    let mut links = Vec::new(alloc);
    for (index, frames) in tables.iter().enumerate().skip(1) {
        let level = (index as u64).saturating_add(1);
        for frame in frames.iter() {
            push_links(&mut links, memory, mapping, level, *frame)?;
        }
    }
    Ok(links)
}

/// Adds the links by the entries of the table in a frame.
fn push_links<T: TableMemory, P: PageTableFrameMapping>(
    links: &mut Vec<TableLink>,
    memory: &T,
    mapping: &P,
    level: u64,
    parent: PhysFrame<Size4KiB>,
) -> Result<(), AllocError>
    requires { All (IsLink (words_of (T.tables memory.now) (P.places mapping.now))) links.old.items }
    ensures { OnOk result (
        All (IsLink (words_of (T.tables memory.now) (P.places mapping.now))) links.new.items) }
{
    for index in 0..512 {
        if let Some(link) = link_at(memory, mapping, level, parent, index) {
            links.push(link)?;
        }
    }
    Ok(())
}

/// Returns the link by an entry of the table in a frame, or `None` if the entry names no table.
fn link_at<T: TableMemory, P: PageTableFrameMapping>(
    memory: &T,
    mapping: &P,
    level: u64,
    parent: PhysFrame<Size4KiB>,
    index: usize,
) -> Option<TableLink>
    requires { index < 512 }
    ensures { IfSome result (IsLink (words_of (T.tables memory.now) (P.places mapping.now))) }
{
    let table = table_in(memory, mapping, parent)?;
    let child = table[index].frame().ok()?;
    Some(TableLink {
        level,
        parent,
        index: index as u64,
        child,
    })
}
