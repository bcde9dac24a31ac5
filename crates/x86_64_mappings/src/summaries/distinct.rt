//! Visits of the first mapping of each kind.
ghost use Rattle.std.specs.Prelude.{◌≡◌, ◌<◌, ◌≤◌, ◌+◌, []};
ghost use Rattle.std.specs.HashSet.{keys};
ghost use Rattle.x86_64_model.specs.Position.{position_count};
ghost use Rattle.x86_64_mappings.specs.private.Distinct as distinct;

use crate::selection::Selection;
use crate::summaries::reached_table::ReachedTable;
use crate::summaries::table_visitor::TableVisitor;
use crate::summaries::visitor::Visitor;
use crate::{MappingIn, span};
use std::alloc::{AllocError, Global};
use std::collections::HashSet;
use x86_64_addr::addr::PhysAddr;
use x86_64_addr::level_count::LevelCount;
use x86_64_tables::page_table::Rights;

/// What mappings of a kind have in common.
#[derive(Clone, Copy, PartialEq, Eq, Hash)]
pub(crate) struct Kind {
    /// The start of the frame.
    frame: PhysAddr,
    /// The size in bytes.
    size: u64,
    /// The rights.
    rights: KindRights,
}

/// What determines the kinds of the mappings of a table, whose span starts anywhere.
#[derive(Clone, Copy, PartialEq, Eq, Hash)]
pub(crate) struct TableKind {
    /// The frame of the table.
    frame: PhysAddr,
    /// Its level.
    level: u64,
    /// What the entries above it allow.
    above: KindRights,
}

/// The rights of mappings of a kind. Unlike [`Rights`], they can be hashed.
#[derive(Clone, Copy, PartialEq, Eq, Hash)]
pub(crate) struct KindRights {
    /// Whether they may be written.
    write: bool,
    /// Whether user code may access them.
    user: bool,
    /// Whether they may be executed.
    execute: bool,
}

impl Kind {
    /// Returns the kind of a mapping.
    fn of<L: LevelCount>(mapping: &MappingIn<L>) -> Kind
        ensures { result ≡ distinct.kind_of mapping.now }
    {
        Kind {
            frame: mapping.frame.start_address(),
            size: mapping.size(),
            rights: KindRights::of(mapping.rights),
        }
    }
}

impl TableKind {
    /// Returns the kind of a table.
    fn of(table: &ReachedTable) -> TableKind
        ensures { result ≡ distinct.table_kind table.now }
    {
        TableKind {
            frame: table.frame.start_address(),
            level: table.level,
            above: KindRights::of(table.above),
        }
    }
}

impl KindRights {
    /// Returns rights in this form.
    fn of(rights: Rights) -> KindRights
        ensures { result ≡ distinct.kind_rights rights }
    {
        KindRights {
            write: rights.write,
            user: rights.user,
            execute: rights.execute,
        }
    }
}

/// What is remembered of the mappings so far.
#[derive(Drop)]
pub(crate) struct Memo {
    /// Their kinds.
    seen: HashSet<Kind>,
    /// Tables of which the kinds of all selected mappings are seen.
    known: HashSet<TableKind>,
}

/// A visitor that passes on the first mapping of each kind, and passes over tables that have none.
///
/// What it remembers is a `Memo`. This and the visitor of the first mappings are type parameters so that contracts can identify
/// that visitor once it is returned.
pub(crate) struct Distinct<'a, V, M: Drop = Memo> {
    /// The visitor of the first mappings.
    visitor: &'a mut V,
    /// Which mappings are visited.
    selection: Selection,
    /// What is remembered.
    memo: M,
}

impl<V, M: Drop> Drop for Distinct<'_, V, M> {
    fn drop(self)
        ensures { self.exit.0.now ≡ self.entry.visitor.now }
    {
        let Distinct {
            visitor: _visitor,
            selection: _,
            memo: _,
        } = self;
    }
}

impl<'a, V> Distinct<'a, V> {
    /// Begins with no kind seen.
    pub(crate) fn new(alloc: Global, selection: Selection, visitor: &'a mut V) -> Self
        ensures name { result.visitor.ghost_name ≡ visitor.entry.ghost_name }
        ensures now { result.visitor.now ≡ visitor.old }
        ensures selection { result.selection ≡ selection }
        ensures seen { keys result.memo.seen ≡ [] }
        ensures known { keys result.memo.known ≡ [] }
    {
        let memo = Memo {
            seen: HashSet::new(alloc),
            known: HashSet::new(alloc),
        };
        Distinct {
            visitor,
            selection,
            memo,
        }
    }

    /// Returns true if all positions of a table's span are selected.
    fn covers<L: LevelCount>(&self, table: &ReachedTable) -> bool
        requires low { 1 ≤ table.now.level }
        requires high { table.now.level < 5 }
        requires inside { table.now.start + position_count table.now.level ≤ position_count 5 }
        ensures { result ≡ distinct.covers_table L.LEVELS self.now.selection table.now }
    {
        let last = table.start + (span(table.level + 1) - 1);
        self.selection.covers::<L>(table.start, last)
    }
}

impl<L: LevelCount, V: Visitor<MappingIn<L>>> TableVisitor<MappingIn<L>> for Distinct<'_, V>
where
    V::Error: From<AllocError>,
{
    type Error = V::Error;

    ghost use Rattle.x86_64_mappings.specs.private.Distinct.{TakesDistinct};
    ghost use Rattle.x86_64_mappings.specs.private.DistinctLaws.{taken_nothing, taken_both};

    ghost Visits = { λ visited old new mappings. TakesDistinct V.Visits L.LEVELS visited old new mappings };

    /// Passes a mapping on, unless one of its kind was seen.
    fn visit(&mut self, mapping: MappingIn<L>) -> Result<(), V::Error> {
        let kind = Kind::of(&mapping);
        if self.memo.seen.insert(kind).map_err(AllocError::from)? {
            self.visitor.visit(mapping)?;
        }
        Ok(())
    }

    /// Returns true if the kinds of all selected mappings of a table are known to be seen.
    fn passes_over(&self, table: &ReachedTable) -> bool {
        self.memo.known.contains(&TableKind::of(table)) && self.covers::<L>(table)
    }

    /// Records that the kinds of all mappings of a table are seen, if all its positions are selected.
    fn remember(&mut self, table: &ReachedTable) -> Result<(), V::Error> {
        if self.covers::<L>(table) {
            let kind = TableKind::of(table);
            self.memo.known.insert(kind).map_err(AllocError::from)?;
        }
        Ok(())
    }

    ghost none = { taken_nothing V.Visits V.none L.LEVELS };

    ghost both = { taken_both V.Visits V.both L.LEVELS };
}
