//! Progress while memory is searched, and while tables are read.
ghost use Rattle.std.specs.Prelude.{ℕ, List, [], ◌∷◌, ◌++◌};

/// An observer of how much of a file was searched, and of the number of tables that have been read.
pub trait Progress {
    /// How an observer changes when it is told these numbers of tables, in order: from the observer before to the observer after.
    ghost Told: { Self → Self → (counts : List ℕ) → Type 0 };

    /// How an observer changes when it is told that no more tables are read.
    ghost Ended: { Self → Self → Type 0 };

    /// Called after each table is read, with the number of tables so far.
    fn tables(&mut self, count: usize)
        ensures { Told self.old self.new (count ∷ []) };

    /// Called when no more tables are read.
    fn end(&mut self)
        ensures { Ended self.old self.new };

    /// Called after each part of a file that is searched, with the offset at which it ends.
    fn searched(&self, end: u64);

    /// Called when no more is searched.
    fn search_ended(&self);

    /// An observer that is told nothing doesn't change.
    ghost none: { (observer : Self) → Told observer observer [] };

    /// Numbers may be told in parts.
    ghost both: { (before between after : Self) (front back : List ℕ) →
        Told before between front → Told between after back → Told before after (front ++ back) };
}

/// An observer that ignores all calls.
#[derive(Clone, Copy, Debug)]
pub struct NoProgress;

impl Progress for NoProgress {
    ghost Told = { λ _ _ _. Unit {0} };

    ghost Ended = { λ _ _. Unit {0} };

    fn tables(&mut self, _count: usize) {}

    fn end(&mut self) {}

    fn searched(&self, _end: u64) {}

    fn search_ended(&self) {}

    ghost none = { λ _. tt };

    ghost both = { λ _ _ _ _ _ _ _. tt };
}
