//! Page tables to which mappings lead: those for user code, and writable ones outside the direct map.
ghost use Rattle.std.specs.Prelude.{◌≡◌, ◌++◌, [], ℕ, Option, Some, IfOk, OnOk, filter_map, length, map};
ghost use Rattle.std.specs.List.{cons_option};
ghost use Rattle.x86_64_model.specs.Memory.{identity_places, words_of};
ghost use Rattle.ptdump_check.specs.ReachedTables as reached;
ghost use Rattle.ptdump_check.specs.WritableTables as writables;
ghost use Rattle.ptdump_check.specs.Ascending.{Ascend};

mod firsts;
mod positions;
mod search;

use crate::checking::AddressRange;
use crate::findings::{Finding, Table};
use crate::reached::positions::Positions;
use crate::reached::search::{Search, first_addresses};
use std::alloc::{AllocError, Global};
use x86_64_addr::level_count::LevelCount;
use x86_64_page::frame::PhysFrame;
use x86_64_page::page::Size4KiB;
use x86_64_tables::page_table::Rights;
use x86_64_tables::phys_memory::PhysMemory;

/// The rights of pages that user code can access.
const FOR_USER: Rights = Rights {
    write: false,
    user: true,
    execute: false,
};

/// The rights of pages to which user code can write.
const WRITABLE_FOR_USER: Rights = Rights {
    write: true,
    user: true,
    execute: false,
};

/// The rights of pages to which code can write.
const WRITABLE: Rights = Rights {
    write: true,
    user: false,
    execute: false,
};

/// Returns the findings of the tables to which mappings lead: first each frame's to which those for user code lead, and then each
/// frame's to which writable ones outside the direct map lead, if it is known. Both are in order, as the tables are.
///
/// # Errors
///
/// `AllocError` if memory allocation fails.
pub fn mapped_tables<L: LevelCount>(
    alloc: Global,
    memory: &PhysMemory,
    root: PhysFrame<Size4KiB>,
    direct_map: Option<AddressRange>,
    tables: &[Table],
) -> Result<Vec<Finding>, AllocError>
    requires { Ascend (λ table. table.frame) tables.now }
    ensures { IfOk result (λ findings. findings.items
        ≡ reached.all_reached L.LEVELS (words_of memory.now identity_places) root tables.now
        ++ writables.all_writable L.LEVELS (words_of memory.now identity_places) root direct_map tables.now) }
{
    let mut findings = reached_tables::<L>(alloc, memory, root, tables)?;
    if let Some(direct_map) = direct_map {
        add_writable::<L>(alloc, memory, root, direct_map, tables, &mut findings)?;
    }
    Ok(findings)
}

/// Returns the findings of the tables to which mappings for user code lead, each frame's once, in order. The tables are in
/// order.
///
/// # Errors
///
/// `AllocError` if memory allocation fails.
fn reached_tables<L: LevelCount>(
    alloc: Global,
    memory: &PhysMemory,
    root: PhysFrame<Size4KiB>,
    tables: &[Table],
) -> Result<Vec<Finding>, AllocError>
    requires { Ascend (λ table. table.frame) tables.now }
    ensures { IfOk result (λ findings. findings.items
        ≡ reached.all_reached L.LEVELS (words_of memory.now identity_places) root tables.now) }
{
    let frames = frames_in_order(alloc, tables)?;
    let mut search = Search {
        memory,
        needed: WRITABLE_FOR_USER,
        left_out: None,
        frames: &frames,
    };
    let writable = first_addresses::<L>(alloc, &search, root)?;
    search.needed = FOR_USER;
    let mapped = first_addresses::<L>(alloc, &search, root)?;
    findings_at(alloc, &frames, &writable, &mapped)
}

/// Adds the findings of the tables to which writable mappings outside the direct map lead, each frame's once, in order. The tables
/// are in order.
///
/// # Errors
///
/// `AllocError` if memory allocation fails.
fn add_writable<L: LevelCount>(
    alloc: Global,
    memory: &PhysMemory,
    root: PhysFrame<Size4KiB>,
    direct_map: AddressRange,
    tables: &[Table],
    findings: &mut Vec<Finding>,
) -> Result<(), AllocError>
    requires { Ascend (λ table. table.frame) tables.now }
    ensures { OnOk result (findings.new.items ≡ findings.old.items
        ++ writables.all_writable L.LEVELS (words_of memory.now identity_places) root
        (Some direct_map) tables.now) }
{
    let frames = frames_in_order(alloc, tables)?;
    let search = Search {
        memory,
        needed: WRITABLE,
        left_out: Some(Positions::of_range::<L>(direct_map)),
        frames: &frames,
    };
    let addresses = first_addresses::<L>(alloc, &search, root)?;
    add_writable_at(&frames, &addresses, findings)
}

/// Returns the frames of tables that are in order, each once.
fn frames_in_order(alloc: Global, tables: &[Table]) -> Result<Vec<PhysFrame<Size4KiB>>, AllocError>
    ensures { IfOk result (λ frames. frames.items ≡ reached.frames_in_order tables.now) }
{
    let mut frames = Vec::new(alloc);
    for table in tables {
        frames.push(table.frame)?;
    }
    frames.dedup();
    Ok(frames)
}

/// Returns the findings of frames of tables, given for each frame where user code can write to it, and where it can access it.
fn findings_at(
    alloc: Global,
    frames: &[PhysFrame<Size4KiB>],
    writable: &[Option<u64>],
    mapped: &[Option<u64>],
) -> Result<Vec<Finding>, AllocError>
    requires writable { length writable.now ≡ length frames.now }
    requires mapped { length mapped.now ≡ length frames.now }
    ensures { (w m : ℕ → Option ℕ) → writable.now ≡ map w frames.now → mapped.now ≡ map m frames.now →
        IfOk result (λ findings. findings.items
        ≡ filter_map (λ frame. reached.reached_at frame (w frame) (m frame)) frames.now) }
{
    let mut findings = Vec::new(alloc);
    for i in 0..frames.len() {
        let finding = Finding::of_reached(frames[i], writable[i], mapped[i]);
        add_finding(&mut findings, finding)?;
    }
    Ok(findings)
}

/// Adds the findings of frames of tables, given for each frame where it is writable outside the direct map.
fn add_writable_at(
    frames: &[PhysFrame<Size4KiB>],
    addresses: &[Option<u64>],
    findings: &mut Vec<Finding>,
) -> Result<(), AllocError>
    requires { length addresses.now ≡ length frames.now }
    ensures { (at : ℕ → Option ℕ) → addresses.now ≡ map at frames.now →
        OnOk result (findings.new.items ≡ findings.old.items
        ++ filter_map (λ frame. writables.writable_at frame (at frame)) frames.now) }
{
    for i in 0..frames.len() {
        add_finding(findings, Finding::of_writable(frames[i], addresses[i]))?;
    }
    Ok(())
}

/// Adds a finding, if there is one.
fn add_finding(findings: &mut Vec<Finding>, finding: Option<Finding>) -> Result<(), AllocError>
    ensures { OnOk result (findings.new.items ≡ findings.old.items ++ cons_option finding []) }
{
    if let Some(finding) = finding {
        findings.push(finding)?;
    }
    Ok(())
}
