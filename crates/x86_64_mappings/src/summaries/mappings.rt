//! Visits of mappings.
ghost use Rattle.std.specs.Prelude.{◌≡◌, ◌<◌, ◌≤◌, ◌+◌, ◌*◌, ◌%◌, ◌&&◌, List, OnOk, filter, length, true, []};
ghost use Rattle.x86_64_model.specs.Position.{span as span_of, position_count};
ghost use Rattle.x86_64_model.specs.Mappings.{Mapping};
ghost use Rattle.x86_64_mappings.specs.Kinds.{distinct};
ghost use Rattle.x86_64_mappings.specs.Selections.{is_mapping_selected};
ghost use Rattle.x86_64_mappings.specs.Wanted.{asked_of, asked_mappings, is_wanted};
ghost use Rattle.x86_64_mappings.specs.private.Targets.{asked_in, asked_on, selected_in};
ghost use Rattle.x86_64_mappings.specs.private.Known.{asking};
ghost use Rattle.x86_64_mappings.specs.declared.summaries.reached_table.ReachedTable.{ReachedTable as Table};

use crate::selection::{Selection, includes};
use crate::summaries::distinct::Distinct;
use crate::summaries::query::Query;
use crate::summaries::reached_table::ReachedTable;
use crate::summaries::table_summaries::Summaries;
use crate::summaries::table_visitor::{EachTable, TableVisitor};
use crate::summaries::visitor::Visitor;
use crate::{MappingIn, span};
use std::alloc::{AllocError, Global};
use x86_64_addr::level_count::LevelCount;
use x86_64_page::frame::PhysFrame;
use x86_64_page::page::Size4KiB;
use x86_64_tables::page_table::{EntryTarget, PageTableEntry, PageTableFlags, Rights, has_flag};
use x86_64_tables::phys_memory::{PageTableFrameMapping, TableMemory};

/// Visits all wanted mappings below a root with `L::LEVELS` levels of page tables, in order of their starts. Wanted are the
/// mappings that the summaries count: all, or those that lead to a physical address.
///
/// A table that is known to map nothing wanted is skipped.
///
/// # Errors
///
/// The error of the visitor, which ends the visits.
pub fn visit_mappings<
    L: LevelCount,
    T: TableMemory,
    P: PageTableFrameMapping,
    V: Visitor<MappingIn<L>>,
>(
    summaries: &Summaries<'_, T, P>,
    root: PhysFrame<Size4KiB>,
    visitor: &mut V,
) -> Result<(), V::Error>
    ensures { OnOk result (V.Visits visitor.old visitor.new
        (asked_mappings (asked_of T.tables P.places summaries.now) L.LEVELS root)) }
{
    visit_selected_mappings::<L, T, P, V>(summaries, root, Selection::ALL, visitor)
}

/// Visits the wanted mappings below a root with `L::LEVELS` levels of page tables that are selected, in order of their starts.
/// Wanted are the mappings that the summaries count: all, or those that lead to a physical address.
///
/// A table that is known to map nothing wanted is skipped, and so is a table that can't map anything selected, by the addresses
/// that it spans and by the rights that some of its mappings have.
///
/// # Errors
///
/// The error of the visitor, which ends the visits.
pub fn visit_selected_mappings<
    L: LevelCount,
    T: TableMemory,
    P: PageTableFrameMapping,
    V: Visitor<MappingIn<L>>,
>(
    summaries: &Summaries<'_, T, P>,
    root: PhysFrame<Size4KiB>,
    selection: Selection,
    visitor: &mut V,
) -> Result<(), V::Error>
    ensures { OnOk result (V.Visits visitor.old visitor.new (filter (is_mapping_selected L.LEVELS selection)
        (asked_mappings (asked_of T.tables P.places summaries.now) L.LEVELS root))) }
{
    let table = ReachedTable::root::<L>(root);
    let mut each = EachTable::new(visitor);
    visit_table::<L, T, P, EachTable<'_, V>>(summaries, &selection, &table, &mut each)
}

/// Visits the first of the wanted and selected mappings of each kind below a root with `L::LEVELS` levels of page tables, in
/// order of their starts. Mappings are of the same kind if they lead to the same frame, and have the same size and rights. Wanted
/// are the mappings that the summaries count: all, or those that lead to a physical address.
///
/// A table that is named by many entries is read once for each set of rights that the entries above it allow, unless only a part
/// of its span is selected.
///
/// # Errors
///
/// `AllocError`, as an error of the visitor, if memory allocation fails. An error of the visitor ends the visits.
pub fn visit_distinct_mappings<
    L: LevelCount,
    T: TableMemory,
    P: PageTableFrameMapping,
    V: Visitor<MappingIn<L>>,
>(
    alloc: Global,
    summaries: &Summaries<'_, T, P>,
    root: PhysFrame<Size4KiB>,
    selection: Selection,
    visitor: &mut V,
) -> Result<(), V::Error>
where
    V::Error: From<AllocError>,
    ensures { OnOk result (V.Visits visitor.old visitor.new (distinct (filter
        (is_mapping_selected L.LEVELS selection)
        (asked_mappings (asked_of T.tables P.places summaries.now) L.LEVELS root)))) }
{
    let table = ReachedTable::root::<L>(root);
    let mut firsts = Distinct::new(alloc, selection, visitor);
    visit_table::<L, T, P, Distinct<'_, V>>(summaries, &selection, &table, &mut firsts)?;
    Ok(())
}

/// Visits the wanted mappings of a table that are selected.
fn visit_table<
    L: LevelCount,
    T: TableMemory,
    P: PageTableFrameMapping,
    V: TableVisitor<MappingIn<L>>,
>(
    summaries: &Summaries<'_, T, P>,
    selection: &Selection,
    table: &ReachedTable,
    visitor: &mut V,
) -> Result<(), V::Error>
    requires low { 1 ≤ table.now.level }
    requires high { table.now.level ≤ 5 }
    requires aligned { table.now.start % span_of table.now.level ≡ 0 }
    requires inside { table.now.start + 512 * span_of table.now.level ≤ position_count L.LEVELS }
    ensures { OnOk result (V.Visits
        (selected_in L.LEVELS selection.now (asked_of T.tables P.places summaries.now))
        visitor.old visitor.new
        (selected_in L.LEVELS selection.now (asked_of T.tables P.places summaries.now) table.now)) }
{
    let query = summaries.query();
    let Some(words) = query.table(table.frame) else {
        return Ok(());
    };
    let entries = words.as_slice();
    if table.level == 1 {
        return visit_small_pages::<L, T, P, V>(
            query,
            selection,
            entries,
            table.start,
            table.above,
            visitor,
        );
    }
    let size = span(table.level);
    let mut start = table.start;
    for entry in entries {
        match entry.target(table.level) {
            EntryTarget::Page => {
                let page = MappingIn::of_page(table.level, start, entry, table.above);
                if takes(query, selection, &page) {
                    visitor.visit(page)?;
                }
            }
            EntryTarget::Table(frame) => {
                let below = table.below(entry, frame, start);
                if !maps_nothing::<L, T, P>(summaries, selection, &below)
                    && !visitor.passes_over(&below)
                {
                    visit_table::<L, T, P, V>(summaries, selection, &below, visitor)?;
                    visitor.remember(&below)?;
                }
            }
            EntryTarget::Nothing => {}
        }
        start += size;
    }
    Ok(())
}

/// Returns true if a mapping is wanted and selected.
fn takes<L: LevelCount, T, P>(
    query: &Query<'_, T, P>,
    selection: &Selection,
    mapping: &MappingIn<L>,
) -> bool
    ensures { result ≡ (is_wanted query.now.wanted mapping.now
        && is_mapping_selected L.LEVELS selection.now mapping.now) }
{
    let first = mapping.start.position();
    let last = first + (mapping.size() - 1);
    query.wants(mapping) && selection.selects::<L>(first, last, mapping.rights)
}

/// Returns true if a table is known to map nothing that is wanted and selected.
fn maps_nothing<L: LevelCount, T: TableMemory, P: PageTableFrameMapping>(
    summaries: &Summaries<'_, T, P>,
    selection: &Selection,
    table: &ReachedTable,
) -> bool
    requires low { 1 ≤ table.now.level }
    requires high { table.now.level < 5 }
    requires inside { table.now.start + position_count table.now.level ≤ position_count L.LEVELS }
    ensures { result ≡ true →
        selected_in L.LEVELS selection.now (asked_of T.tables P.places summaries.now) table.now ≡ [] }
{
    let last = table.start + (span(table.level + 1) - 1);
    if !selection.reaches::<L>(table.start, last) {
        return true;
    }
    match summaries.of(table.level, table.frame) {
        Some(summary) if summary.count == 0 => true,
        Some(summary) => !includes(table.above.and(summary.some), selection.rights),
        None => !includes(table.above, selection.rights),
    }
}

/// Visits the wanted mappings that are selected, by the entries of a table of level one, whose span starts at a position, below
/// entries that allow `above`.
fn visit_small_pages<
    L: LevelCount,
    T: TableMemory,
    P: PageTableFrameMapping,
    V: TableVisitor<MappingIn<L>>,
>(
    query: &Query<'_, T, P>,
    selection: &Selection,
    entries: &[PageTableEntry],
    start: u64,
    above: Rights,
    visitor: &mut V,
) -> Result<(), V::Error>
    requires size { length entries.now ≡ 512 }
    requires aligned { start % span_of 1 ≡ 0 }
    requires inside { start + 512 * span_of 1 ≤ position_count L.LEVELS }
    ensures { OnOk result ((visited : Table → List Mapping) → V.Visits visited visitor.old visitor.new
        (filter (is_mapping_selected L.LEVELS selection.now)
        (asked_on (asked_of T.tables P.places (asking query.now)) 1 start above entries.now))) }
{
    let mut start = start;
    for entry in entries {
        if has_flag(entry, PageTableFlags::PRESENT) {
            let page = MappingIn::of_page(1, start, entry, above);
            if takes(query, selection, &page) {
                visitor.visit(page)?;
            }
        }
        start += 4096;
    }
    Ok(())
}
