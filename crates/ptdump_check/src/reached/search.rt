//! Searches for frames of tables in what page tables map.
ghost use Rattle.std.specs.Prelude.{◌≡◌, ◌<◌, ◌≤◌, ◌+◌, ◌-◌, ◌*◌, ◌%◌, ◌++◌, ◌∷◌, [], List, IfOk, OnOk, IsSomeAnd, map, nat_eq, true, false};
ghost use Rattle.std.specs.HashMap.{get};
ghost use Rattle.std.specs.List.Sorted.{IsNonDecreasingBy};
ghost use Rattle.x86_64_model.specs.Mappings.{Mapping};
ghost use Rattle.x86_64_model.specs.Memory.{identity_places, words_of};
ghost use Rattle.x86_64_model.specs.Position.{span as span_of, position_count};
ghost use Rattle.x86_64_mappings.specs.Selections as selections;
ghost use Rattle.ptdump_check.specs.private.Reaching as reaching;

use crate::reached::firsts::note;
use crate::reached::positions::Positions;
use std::alloc::{AllocError, Global};
use std::collections::{HashMap, HashSet};
use x86_64_addr::level_count::LevelCount;
use x86_64_mappings::{MappingIn, includes, span};
use x86_64_page::frame::PhysFrame;
use x86_64_page::page::{PageSize, Size4KiB};
use x86_64_tables::page_table::{EntryTarget, Rights};
use x86_64_tables::phys_memory::{IdentityMapping, PhysMemory, table_in};

/// What is searched for: the first mapping with some rights, at other positions than some, that leads to each of some frames.
#[derive(Clone, Copy)]
pub struct Search<'a> {
    /// The memory that holds the tables.
    pub memory: &'a PhysMemory,
    /// The rights that the mappings have, perhaps with others.
    pub needed: Rights,
    /// Positions, if there are such: a mapping all of whose positions are among them is left out.
    pub left_out: Option<Positions>,
    /// The frames, which ascend.
    pub frames: &'a [PhysFrame<Size4KiB>],
}

/// What is found so far.
#[derive(Drop)]
struct Found {
    /// For each frame, the virtual address in the first mapping that leads to it.
    firsts: Vec<Option<u64>>,
    /// The tables that were visited: the sum of address and level of each. Another visit finds no frame for the first time.
    visited: HashSet<u64>,
    /// The largest size of the pages above level one that were noted, by the start of their frames.
    pages: HashMap<u64, u64>,
}

/// A table, as a walk down from the root reaches it.
#[derive(Drop)]
struct Visit {
    /// The frame of the table.
    frame: PhysFrame<Size4KiB>,
    /// Its level.
    level: u64,
    /// The position (the number of an address counted without the gap) at which its span starts.
    start: u64,
    /// What the entries above it allow.
    above: Rights,
}

/// Returns the virtual address in the first mapping below a root that has the needed rights, isn't left out, and leads to each of
/// the frames.
///
/// # Errors
///
/// `AllocError` if memory allocation fails.
pub fn first_addresses<L: LevelCount>(
    alloc: Global,
    search: &Search<'_>,
    root: PhysFrame<Size4KiB>,
) -> Result<Vec<Option<u64>>, AllocError>
    requires { IsNonDecreasingBy (λ f. f) search.now.frames.now }
    ensures { IfOk result (λ addresses. addresses.items ≡ map (reaching.first_sought L.LEVELS
        (words_of search.now.memory.now identity_places) root search.now.needed search.now.left_out)
        search.now.frames.now) }
{
    let mut found = Found {
        firsts: Vec::from_elem(alloc, None, search.frames.len())?,
        visited: HashSet::new(alloc),
        pages: HashMap::new(alloc),
    };
    let table = Visit {
        frame: root,
        level: L::LEVELS,
        start: 0,
        above: Rights::ALL,
    };
    visit_table::<L>(search, &table, &mut found)?;
    Ok(found.firsts)
}

/// Visits a table: notes for each of the frames the first address that leads to it.
///
/// A table that was visited at the same level is skipped: the frames to which it leads are found already.
fn visit_table<L: LevelCount>(
    search: &Search<'_>,
    table: &Visit,
    found: &mut Found,
) -> Result<(), AllocError>
    requires low { 1 ≤ table.now.level }
    requires high { table.now.level ≤ 5 }
    requires aligned { table.now.start % span_of table.now.level ≡ 0 }
    requires inside { table.now.start + 512 * span_of table.now.level ≤ position_count L.LEVELS }
    ensures { OnOk result (reaching.TakesFound L.LEVELS search.now found.old found.new
        (reaching.sought_in search.now table.now)) }
{
    let Some(words) = table_in(search.memory, &IdentityMapping, table.frame) else {
        return Ok(());
    };
    let size = span(table.level);
    let mut start = table.start;
    let entries = words.as_slice();
    for entry in entries {
        match entry.target(table.level) {
            EntryTarget::Page => {
                let page = MappingIn::of_page(table.level, start, entry, table.above);
                note_page::<L>(search, &page, found)?;
            }
            EntryTarget::Table(frame) => {
                let below = table.below(frame, start, table.above.below(entry));
                if is_new::<L>(search, &below, found) {
                    visit_table::<L>(search, &below, found)?;
                    mark::<L>(search, &below, found)?;
                }
            }
            EntryTarget::Nothing => {}
        }
        start += size;
    }
    Ok(())
}

/// Notes the addresses in a page, if it has the needed rights and isn't left out.
///
/// # Errors
///
/// `AllocError` if memory allocation fails.
fn note_page<L: LevelCount>(
    search: &Search<'_>,
    page: &MappingIn<L>,
    found: &mut Found,
) -> Result<(), AllocError>
    requires { page.now.start + page.now.size ≤ position_count L.LEVELS }
    ensures { OnOk result (reaching.TakesFound L.LEVELS search.now found.old found.new
        (reaching.sought search.now (page.now ∷ []))) }
{
    if !search.seeks::<L>(page) {
        return Ok(());
    }
    if page.size() > Size4KiB::SIZE {
        return note_large_page::<L>(search, page, found);
    }
    note::<L>(search.frames, page, &mut found.firsts);
    Ok(())
}

/// Notes the addresses in a page that is larger than others, unless a page as large with the same frame was noted.
///
/// # Errors
///
/// `AllocError` if memory allocation fails.
fn note_large_page<L: LevelCount>(
    search: &Search<'_>,
    page: &MappingIn<L>,
    found: &mut Found,
) -> Result<(), AllocError>
    requires { page.now.start + page.now.size ≤ position_count L.LEVELS }
    ensures { OnOk result (reaching.TakesFound L.LEVELS search.now found.old found.new (page.now ∷ [])) }
{
    let start = page.frame.start_address().as_u64();
    if is_noted(&found.pages, start, page.size()) {
        return Ok(());
    }
    note::<L>(search.frames, page, &mut found.firsts);
    found.pages.insert(start, page.size())?;
    Ok(())
}

/// Returns true if a page with this start of its frame and at least this size was noted.
fn is_noted(pages: &HashMap<u64, u64>, start: u64, size: u64) -> bool
    ensures { result ≡ true → IsSomeAnd (get nat_eq pages.now start) (λ noted. size ≤ noted) }
{
    match pages.get(&start) {
        Some(noted) => size <= *noted,
        None => false,
    }
}

/// Returns true if a table may lead to a frame for the first time. If not, it lacks a needed right, is left out, or was visited.
fn is_new<L: LevelCount>(search: &Search<'_>, table: &Visit, found: &Found) -> bool
    requires low { 1 ≤ table.now.level }
    requires high { table.now.level ≤ 5 }
    requires inside { table.now.start + 512 * span_of table.now.level ≤ position_count L.LEVELS }
    ensures old { result ≡ false → reaching.TakesFound L.LEVELS search.now found.now found.now
        (reaching.sought_in search.now table.now) }
    ensures rights { result ≡ true → selections.includes table.now.above search.now.needed ≡ true }
{
    if !includes(table.above, search.needed) {
        return false;
    }
    if search.leaves_out(table.positions::<L>()) {
        return false;
    }
    !found.visited.contains(&table.key())
}

/// Records that a table is visited, unless some of its positions are left out: another visit may find more there.
///
/// # Errors
///
/// `AllocError` if memory allocation fails.
fn mark<L: LevelCount>(
    search: &Search<'_>,
    table: &Visit,
    found: &mut Found,
) -> Result<(), AllocError>
    requires low { 1 ≤ table.now.level }
    requires high { table.now.level ≤ 5 }
    requires inside { table.now.start + 512 * span_of table.now.level ≤ position_count L.LEVELS }
    requires rights { selections.includes table.now.above search.now.needed ≡ true }
    ensures { OnOk result ((ms : List Mapping) →
        reaching.IsFoundAfter L.LEVELS search.now found.old (ms ++ reaching.sought_in search.now table.now) →
        reaching.IsFoundAfter L.LEVELS search.now found.new (ms ++ reaching.sought_in search.now table.now)) }
{
    if !search.is_apart(table.positions::<L>()) {
        return Ok(());
    }
    found.visited.insert(table.key())?;
    Ok(())
}

impl Search<'_> {
    /// Returns true if a page has the needed rights and isn't left out.
    fn seeks<L: LevelCount>(&self, page: &MappingIn<L>) -> bool
        requires { page.now.start + page.now.size ≤ position_count L.LEVELS }
        ensures { result ≡ reaching.is_sought self.now page.now }
    {
        includes(page.rights, self.needed) && !self.leaves_out(Positions::of_mapping::<L>(page))
    }

    /// Returns true if positions are all left out.
    fn leaves_out(&self, positions: Positions) -> bool
        ensures { result ≡ reaching.are_left_out self.now.left_out positions }
    {
        match self.left_out {
            Some(left_out) => left_out.contains(positions),
            None => false,
        }
    }

    /// Returns true if none of some positions is left out.
    fn is_apart(&self, positions: Positions) -> bool
        ensures { result ≡ reaching.are_apart self.now.left_out positions }
    {
        match self.left_out {
            Some(left_out) => left_out.is_apart(positions),
            None => true,
        }
    }
}

impl Visit {
    /// Returns a table below this one, in a frame that an entry names, at whose span's start the table's span starts.
    fn below(&self, frame: PhysFrame<Size4KiB>, start: u64, above: Rights) -> Visit
        requires { 1 ≤ self.now.level }
        ensures { result ≡ record {
          frame = frame;
          level = self.now.level - 1;
          start = start;
          above = above;
        } }
    {
        Visit {
            frame,
            level: self.level - 1,
            start,
            above,
        }
    }

    /// Returns the positions of the table's span.
    fn positions<L: LevelCount>(&self) -> Positions
        requires low { 1 ≤ self.now.level }
        requires high { self.now.level ≤ 5 }
        requires inside { self.now.start + 512 * span_of self.now.level ≤ position_count L.LEVELS }
        ensures { result ≡ reaching.span_of_table self.now }
    {
        Positions {
            first: self.start,
            last: self.start + (512 * span(self.level) - 1),
        }
    }

    /// Returns a number that is different for each frame and level.
    fn key(&self) -> u64
        requires { self.now.level < 4096 }
        ensures sum { result ≡ self.now.frame + self.now.level }
        ensures aligned { self.now.frame % 4096 ≡ 0 }
    {
        self.frame.start_address().as_u64() + self.level
    }
}
