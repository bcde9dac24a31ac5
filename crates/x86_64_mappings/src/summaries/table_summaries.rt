//! The summaries of the tables of a memory.
ghost use Rattle.std.specs.Prelude.{◌≡◌, ◌+◌, ◌<◌, ◌≤◌, ℕ, length, IfOk, IfSome};
ghost use Rattle.x86_64_model.specs.Mappings.{every_right};
ghost use Rattle.x86_64_mappings.specs.Summaries.{summary_of};
ghost use Rattle.x86_64_mappings.specs.Wanted.{asked_of, asked_mappings};
ghost use Rattle.x86_64_mappings.specs.private.Known.{IsLevel, AreLevels, asking};
ghost use Rattle.x86_64_mappings.specs.private.Targets.{asked_by, asked_on};

use crate::summaries::query::Query;
use crate::summaries::summary::Summary;
use std::alloc::{AllocError, Global};
use std::collections::HashMap;
use std::marker::Model;
use x86_64_addr::addr::PhysAddr;
use x86_64_page::frame::PhysFrame;
use x86_64_page::page::Size4KiB;
use x86_64_tables::page_table::{EntryTarget, PageTableEntry, PageTableFlags, Rights, has_flag};
use x86_64_tables::phys_memory::{PageTableFrameMapping, TableMemory};

/// The largest number of levels of tables.
const LEVEL_COUNT: usize = 5;

/// Summaries of what the tables of a memory map, for each table at the levels at which it is used. All mappings count, or
/// only those that lead to a physical address. Tables that are shared, or that name each other in a cycle, cost no more than
/// others.
///
/// A table of level `n` is treated as the root of a hierarchy of `n` levels.
#[derive(Drop)]
pub struct Summaries<'a, T: TableMemory, P: PageTableFrameMapping> {
    query: Query<'a, T, P>,
    /// The summaries of the tables of level one by their frames, then those of level two, and so on.
    levels: Vec<HashMap<u64, Summary>>,
}

impl<'a, T: TableMemory, P: PageTableFrameMapping> Model for Summaries<'a, T, P> {
    ghost use Rattle.x86_64_mappings.specs.Wanted.{Asking};

    ghost Value = { Asking T P };

    ghost use Rattle.x86_64_mappings.specs.Wanted.{asked_of};
    ghost use Rattle.x86_64_mappings.specs.private.Known.{AreLevels, asking};

    ghost view = { λ s. asking s.query };

    ghost invariant = { λ s. AreLevels (asked_of T.tables P.places (asking s.query)) s.levels.items };
}

impl<'a, T: TableMemory, P: PageTableFrameMapping> Summaries<'a, T, P> {
    /// Computes what tables map. `frames` has the frames of the tables of level one, then of those of level two, and so on.
    /// Levels above five are ignored. If `wanted` is a physical address, only mappings that lead to it count, and otherwise all.
    ///
    /// A frame may occur at several levels. A table gets no summary if it names a frame that has a table in the memory but no
    /// summary one level below, or if the numbers don't fit. A frame without a table in the memory maps nothing.
    ///
    /// # Errors
    ///
    /// `AllocError` if memory allocation fails.
    pub fn new(
        alloc: Global,
        memory: &'a T,
        mapping: &'a P,
        frames: &[Vec<PhysFrame<Size4KiB>>],
        wanted: Option<PhysAddr>,
    ) -> Result<Self, AllocError>
        ensures { IfOk result (λ summaries. summaries
            ≡ record { memory = memory.now; mapping = mapping.now; wanted = wanted }) }
    {
        let query = Query {
            memory,
            mapping,
            wanted,
        };
        let mut levels = Vec::new(alloc);
        let count = frames.len().min(LEVEL_COUNT);
        for level_frames in &frames[..count] {
            let level = summarize(alloc, &query, &levels, level_frames)?;
            levels.push(level)?;
        }
        Ok(Summaries { query, levels })
    }

    /// Returns the summary of the wanted mappings of a frame's table of a level, if it is known. The contract says that a summary
    /// that is returned is right, but not for which tables there is one.
    pub fn of(&self, level: u64, frame: PhysFrame<Size4KiB>) -> Option<Summary>
        ensures { IfSome result (λ summary.
            summary ≡ summary_of (asked_mappings (asked_of T.tables P.places self.now) level frame)) }
    {
        let below = level.checked_sub(1)?;
        let known = self.levels.get(below as usize)?;
        known.get(&frame.start_address().as_u64()).copied()
    }

    /// Returns the query.
    pub(crate) fn query(&self) -> &Query<'a, T, P>
        ensures { asking result.now ≡ self.now }
    {
        &self.query
    }
}

/// Summarizes the tables of a level, given the summaries of the levels below.
///
/// # Errors
///
/// `AllocError` if memory allocation fails.
fn summarize<T: TableMemory, P: PageTableFrameMapping>(
    alloc: Global,
    query: &Query<'_, T, P>,
    below: &[HashMap<u64, Summary>],
    frames: &[PhysFrame<Size4KiB>],
) -> Result<HashMap<u64, Summary>, AllocError>
    requires few { length below.now < 5 }
    requires known { AreLevels (asked_of T.tables P.places (asking query.now)) below.now }
    ensures { IfOk result (IsLevel (asked_of T.tables P.places (asking query.now)) (length below.now + 1)) }
{
    let mut level = HashMap::with_capacity(alloc, frames.len())?;
    for frame in frames {
        if let Some(summary) = table_summary(query, below, *frame) {
            level.insert(frame.start_address().as_u64(), summary)?;
        }
    }
    Ok(level)
}

/// Summarizes a table, given the summaries of the levels below. Returns `None` if the summary of a table that it names isn't
/// known, or the numbers don't fit.
fn table_summary<T: TableMemory, P: PageTableFrameMapping>(
    query: &Query<'_, T, P>,
    below: &[HashMap<u64, Summary>],
    frame: PhysFrame<Size4KiB>,
) -> Option<Summary>
    requires few { length below.now < 5 }
    requires known { AreLevels (asked_of T.tables P.places (asking query.now)) below.now }
    ensures { IfSome result (λ summary. summary ≡ summary_of
        (asked_mappings (asked_of T.tables P.places (asking query.now)) (length below.now + 1) frame)) }
{
    let Some(table) = query.table(frame) else {
        return Some(Summary::NONE);
    };
    let entries = table.as_slice();
    if below.is_empty() {
        return Some(small_pages_summary(query, entries));
    }
    let mut sum = Summary::NONE;
    for entry in entries {
        sum = sum.with(entry_summary(query, below, entry)?)?;
    }
    Some(sum)
}

/// Summarizes the wanted pages by the entries of a table of level one. The loop collects their bits, so that the compiler takes
/// several entries at once. What the bits say of rights is derived at the end.
fn small_pages_summary<T: TableMemory, P: PageTableFrameMapping>(
    query: &Query<'_, T, P>,
    entries: &[PageTableEntry],
) -> Summary
    requires { length entries.now ≡ 512 }
    ensures { result ≡ summary_of
        (asked_on (asked_of T.tables P.places (asking query.now)) 1 0 every_right entries.now) }
{
    let test = query.small_page_test();
    let mut count = 0;
    let mut some = 0;
    let mut all = u64::MAX;
    for entry in entries {
        if has_flag(entry, PageTableFlags::PRESENT) && test.passes(entry) {
            let word = entry.word();
            count += 1;
            some |= word;
            all &= word;
        }
    }
    Summary::of_small_pages(count, some, all)
}

/// Summarizes what an entry of a table maps, given the summaries of the levels below. Returns `None` if the summary of the
/// table that it names isn't known.
fn entry_summary<T: TableMemory, P: PageTableFrameMapping>(
    query: &Query<'_, T, P>,
    below: &[HashMap<u64, Summary>],
    entry: &PageTableEntry,
) -> Option<Summary>
    requires few { length below.now < 5 }
    requires known { AreLevels (asked_of T.tables P.places (asking query.now)) below.now }
    ensures { (start : ℕ) → IfSome result (λ summary. summary ≡ summary_of
        (asked_by (asked_of T.tables P.places (asking query.now)) (length below.now + 1) start
        every_right entry.now)) }
{
    let level = below.len() as u64 + 1;
    match entry.target(level) {
        EntryTarget::Nothing => Some(Summary::NONE),
        EntryTarget::Page => Some(query.page_summary(level, entry)),
        EntryTarget::Table(frame) => {
            let summary = child_summary(query, below, frame)?;
            Some(summary.below(Rights::ALL.below(entry)))
        }
    }
}

/// Returns the summary of a frame's table of the highest level that is known, if there is one. A frame without a table maps
/// nothing.
fn child_summary<T: TableMemory, P: PageTableFrameMapping>(
    query: &Query<'_, T, P>,
    known: &[HashMap<u64, Summary>],
    frame: PhysFrame<Size4KiB>,
) -> Option<Summary>
    requires { AreLevels (asked_of T.tables P.places (asking query.now)) known.now }
    ensures { IfSome result (λ summary. summary ≡ summary_of
        (asked_mappings (asked_of T.tables P.places (asking query.now)) (length known.now) frame)) }
{
    match known.last()?.get(&frame.start_address().as_u64()) {
        Some(summary) => Some(*summary),
        None if query.table(frame).is_none() => Some(Summary::NONE),
        None => None,
    }
}
