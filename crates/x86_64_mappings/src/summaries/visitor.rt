//! Visitors, which take items one after the other.
ghost use Rattle.std.specs.Prelude.{List, [], ◌∷◌, ◌++◌, OnOk};

/// A visitor, which takes items one after the other.
pub trait Visitor<T> {
    /// The reason why an item isn't taken.
    type Error: Drop;

    /// How a visitor changes when it takes items, in order: from the visitor before to the visitor after.
    ghost Visits: { Self → Self → List T → Type 0 };

    /// Takes an item, or returns the reason why it isn't taken.
    fn visit(&mut self, item: T) -> Result<(), Self::Error>
        ensures { OnOk result (Visits self.old self.new (item ∷ [])) };

    /// A visitor that takes no item doesn't change.
    ghost none: { (visitor : Self) → Visits visitor visitor [] };

    /// Items may be taken in parts.
    ghost both: { (before between after : Self) (front back : List T) →
        Visits before between front → Visits between after back → Visits before after (front ++ back) };
}
