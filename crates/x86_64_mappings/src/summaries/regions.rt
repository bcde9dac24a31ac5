//! Visits of regions.
ghost use Rattle.std.specs.Prelude.{◌≡◌, ◌<◌, ◌≤◌, ◌+◌, ◌%◌, ◌∷◌, [], None, OnOk, filter, length};
ghost use Rattle.x86_64_model.specs.Position.{position_count};
ghost use Rattle.x86_64_mappings.specs.Wanted.{Asked, asked_of, asked_regions, is_wanted};
ghost use Rattle.x86_64_mappings.specs.private.Joined.{region_between, listed, Joins};
ghost use Rattle.x86_64_mappings.specs.private.Targets.{asked_in, asked_on};

mod extent;
mod runs;

use crate::joiner::Joiner;
use crate::summaries::query::Query;
use crate::summaries::reached_table::ReachedTable;
use crate::summaries::table_summaries::Summaries;
use crate::summaries::visitor::Visitor;
use crate::{MappingIn, RegionIn, span};
use extent::{Extent, extent_of};
use runs::run_length;
use x86_64_addr::addr::VirtAddrIn;
use x86_64_addr::level_count::LevelCount;
use x86_64_page::frame::PhysFrame;
use x86_64_page::page::{PageSize, Size4KiB};
use x86_64_tables::page_table::{EntryTarget, PageTableEntry, PageTableFlags, Rights, has_flag};
use x86_64_tables::phys_memory::{PageTableFrameMapping, TableMemory};

/// Visits the regions formed by all wanted mappings below a root with `L::LEVELS` levels of page tables, in order of their
/// addresses. Wanted are the mappings that the summaries count: all, or those that lead to a physical address.
///
/// A table that is known to map nothing wanted is skipped, and a table that is known to map its whole span with equal rights
/// is taken at once, so the time depends only on the other tables.
///
/// # Errors
///
/// The error of the visitor, which ends the visits.
pub fn visit_regions<
    L: LevelCount,
    T: TableMemory,
    P: PageTableFrameMapping,
    V: Visitor<RegionIn<L>>,
>(
    summaries: &Summaries<'_, T, P>,
    root: PhysFrame<Size4KiB>,
    visitor: &mut V,
) -> Result<(), V::Error>
    ensures { OnOk result (V.Visits visitor.old visitor.new
        (asked_regions (asked_of T.tables P.places summaries.now) L.LEVELS root)) }
{
    let mut joiner = Joiner::new();
    let table = ReachedTable::root::<L>(root);
    join_table(summaries, &table, &mut joiner, visitor)?;
    visit_joined(joiner.finish(), visitor)
}

/// Joins the regions of a table.
#[cycle(regions)]
fn join_table<L: LevelCount, T: TableMemory, P: PageTableFrameMapping, V: Visitor<RegionIn<L>>>(
    summaries: &Summaries<'_, T, P>,
    table: &ReachedTable,
    joiner: &mut Joiner<L>,
    visitor: &mut V,
) -> Result<(), V::Error>
    requires low { 1 ≤ table.now.level }
    requires high { table.now.level ≤ L.LEVELS }
    requires aligned { table.now.start % position_count table.now.level ≡ 0 }
    requires inside { table.now.start + position_count table.now.level ≤ position_count L.LEVELS }
    ensures { OnOk result (Joins V.Visits L.LEVELS
        (asked_in (asked_of T.tables P.places summaries.now) table.now)
        joiner.old visitor.old joiner.new visitor.new) }
{
    let query = summaries.query();
    let Some(words) = query.table(table.frame) else {
        return Ok(());
    };
    let entries = words.as_slice();
    if table.level == 1 && query.wanted.is_none() {
        return join_small_pages(entries, table.start, table.above, joiner, visitor);
    }
    let size = span(table.level);
    let mut start = table.start;
    for entry in entries {
        match entry.target(table.level) {
            EntryTarget::Page => {
                let page = MappingIn::of_page(table.level, start, entry, table.above);
                join_page(query, &page, joiner, visitor)?;
            }
            EntryTarget::Table(frame) => {
                let below = table.below(entry, frame, start);
                join_below(summaries, &below, joiner, visitor)?;
            }
            EntryTarget::Nothing => {}
        }
        start += size;
    }
    Ok(())
}

/// Joins the regions of a table below the root's, using its summary if that is known.
#[cycle(regions)]
fn join_below<L: LevelCount, T: TableMemory, P: PageTableFrameMapping, V: Visitor<RegionIn<L>>>(
    summaries: &Summaries<'_, T, P>,
    table: &ReachedTable,
    joiner: &mut Joiner<L>,
    visitor: &mut V,
) -> Result<(), V::Error>
    requires low { 1 ≤ table.now.level }
    requires high { table.now.level < L.LEVELS }
    requires aligned { table.now.start % position_count table.now.level ≡ 0 }
    requires inside { table.now.start + position_count table.now.level ≤ position_count L.LEVELS }
    ensures { OnOk result (Joins V.Visits L.LEVELS
        (asked_in (asked_of T.tables P.places summaries.now) table.now)
        joiner.old visitor.old joiner.new visitor.new) }
{
    match extent_of(
        summaries.of(table.level, table.frame),
        table.level,
        table.above,
    ) {
        Extent::Nothing => Ok(()),
        Extent::Whole(rights) => {
            let region = region_from(table.start, span(table.level + 1), rights);
            visit_joined(joiner.join(region), visitor)
        }
        Extent::Mixture => join_table(summaries, table, joiner, visitor),
    }
}

/// Joins the pages by the entries of a table of level one, whose span starts at a position, below entries that allow `above`.
/// All mappings are wanted. A run of pages with equal rights is joined at once.
fn join_small_pages<L: LevelCount, V: Visitor<RegionIn<L>>>(
    entries: &[PageTableEntry],
    start: u64,
    above: Rights,
    joiner: &mut Joiner<L>,
    visitor: &mut V,
) -> Result<(), V::Error>
    requires size { length entries.now ≡ 512 }
    requires aligned { start % position_count 1 ≡ 0 }
    requires inside { start + position_count 1 ≤ position_count L.LEVELS }
    ensures { (asked : Asked) → asked.wanted ≡ None → OnOk result (Joins V.Visits L.LEVELS
        (asked_on asked 1 start above entries.now) joiner.old visitor.old joiner.new visitor.new) }
{
    let mut index = 0;
    while index < entries.len() {
        let run = run_length(&entries[index..]);
        let first = &entries[index];
        if has_flag(first, PageTableFlags::PRESENT) {
            let position = start + index as u64 * Size4KiB::SIZE;
            let size = run as u64 * Size4KiB::SIZE;
            let region = region_from(position, size, above.below(first));
            visit_joined(joiner.join(region), visitor)?;
        }
        index += run;
    }
    Ok(())
}

/// Joins a page, if it is wanted.
#[inline(always)]
fn join_page<L: LevelCount, T, P, V: Visitor<RegionIn<L>>>(
    query: &Query<'_, T, P>,
    page: &MappingIn<L>,
    joiner: &mut Joiner<L>,
    visitor: &mut V,
) -> Result<(), V::Error>
    requires { page.now.start + page.now.size ≤ position_count L.LEVELS }
    ensures { OnOk result (Joins V.Visits L.LEVELS (filter (is_wanted query.now.wanted) (page.now ∷ []))
        joiner.old visitor.old joiner.new visitor.new) }
{
    if query.wants(page) {
        return visit_joined(joiner.join(RegionIn::of(page)), visitor);
    }
    Ok(())
}

/// Visits a region that a joiner hands out, if there is one.
#[inline(always)]
fn visit_joined<L: LevelCount, V: Visitor<RegionIn<L>>>(
    joined: Option<RegionIn<L>>,
    visitor: &mut V,
) -> Result<(), V::Error>
    ensures { OnOk result (V.Visits visitor.old visitor.new (listed joined)) }
{
    match joined {
        Some(region) => visitor.visit(region),
        None => Ok(()),
    }
}

/// Returns the region of this many bytes from a position on.
fn region_from<L: LevelCount>(start: u64, size: u64, rights: Rights) -> RegionIn<L>
    requires some { 0 < size }
    requires inside { start + size ≤ position_count L.LEVELS }
    ensures { result ≡ region_between start (start + size) rights }
{
    RegionIn {
        first: VirtAddrIn::new_truncate(start),
        last: VirtAddrIn::new_truncate(start + (size - 1)),
        rights,
    }
}
