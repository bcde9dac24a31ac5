//! Visitors that may pass over tables.
ghost use Rattle.std.specs.Prelude.{◌≡◌, ◌<◌, ◌≤◌, ◌+◌, ◌∷◌, ◌++◌, List, OnOk, true, []};
ghost use Rattle.x86_64_model.specs.Position.{position_count};
ghost use Rattle.x86_64_mappings.specs.declared.summaries.reached_table.ReachedTable.{ReachedTable as Table};

use crate::summaries::reached_table::ReachedTable;
use crate::summaries::visitor::Visitor;

/// A visitor that takes items of tables, as their mappings, one after the other, and may pass over tables.
pub(crate) trait TableVisitor<T> {
    /// The reason why an item isn't taken or a table isn't remembered.
    type Error: Drop;

    /// How a visitor changes when it takes items, in order: from the visitor before to the visitor after, given the items of each
    /// table that are visited.
    ghost Visits: { (Table → List T) → Self → Self → List T → Type 0 };

    /// Takes an item.
    fn visit(&mut self, item: T) -> Result<(), Self::Error>
        ensures { OnOk result ((visited : Table → List T) → Visits visited self.old self.new (item ∷ [])) };

    /// Returns true if the items of a table wouldn't change the visitor.
    fn passes_over(&self, table: &ReachedTable) -> bool
        requires low { 1 ≤ table.now.level }
        requires high { table.now.level < 5 }
        requires inside { table.now.start + position_count table.now.level ≤ position_count 5 }
        ensures { result ≡ true → (visited : Table → List T) →
            Visits visited self.now self.now (visited table.now) };

    /// Remembers a table whose items were taken.
    fn remember(&mut self, table: &ReachedTable) -> Result<(), Self::Error>
        requires low { 1 ≤ table.now.level }
        requires high { table.now.level < 5 }
        requires inside { table.now.start + position_count table.now.level ≤ position_count 5 }
        ensures { OnOk result ((visited : Table → List T) (before : Self) →
            Visits visited before self.old (visited table.now) →
            Visits visited before self.new (visited table.now)) };

    /// A visitor that takes no item doesn't change.
    ghost none: { (visited : Table → List T) (visitor : Self) → Visits visited visitor visitor [] };

    /// Items may be taken in parts.
    ghost both: { (visited : Table → List T) (before between after : Self) (front back : List T) →
        Visits visited before between front → Visits visited between after back →
        Visits visited before after (front ++ back) };
}

/// A visitor that passes over no table.
///
/// The visitor of items is a type parameter so that contracts can identify it once it is returned.
pub(crate) struct EachTable<'a, V> {
    /// The visitor of items.
    visitor: &'a mut V,
}

impl<V> Drop for EachTable<'_, V> {
    fn drop(self)
        ensures { self.exit.0.now ≡ self.entry.visitor.now }
    {
        let EachTable { visitor: _visitor } = self;
    }
}

impl<'a, V> EachTable<'a, V> {
    /// Creates a visitor that passes over no table.
    pub(crate) fn new(visitor: &'a mut V) -> Self
        ensures name { result.visitor.ghost_name ≡ visitor.entry.ghost_name }
        ensures now { result.visitor.now ≡ visitor.old }
    {
        EachTable { visitor }
    }
}

impl<T, V: Visitor<T>> TableVisitor<T> for EachTable<'_, V> {
    type Error = V::Error;

    ghost use Rattle.x86_64_mappings.specs.private.EachTable.{IsPassedOn, passed_nothing, passed_both};

    ghost Visits = { λ visited old new mappings. IsPassedOn V.Visits old new mappings };

    /// Passes an item on.
    fn visit(&mut self, item: T) -> Result<(), V::Error> {
        self.visitor.visit(item)
    }

    fn passes_over(&self, _table: &ReachedTable) -> bool {
        false
    }

    fn remember(&mut self, _table: &ReachedTable) -> Result<(), V::Error> {
        Ok(())
    }

    ghost none = { λ visited visitor. passed_nothing V.Visits V.none visitor };

    ghost both = { λ visited before between after front back first second.
        passed_both V.Visits V.both before between after front back first second };
}
