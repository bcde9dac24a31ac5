//! Destinations of lines that may be text or JSON.
ghost use Rattle.std.specs.Prelude.{◌++◌, List, [], ◌∷◌, IfSome, OnOk};
ghost use Rattle.ptdump_engine.specs.Said.{Said};

use ptdump_json::ToJson;
use std::alloc::AllocError;
use std::fmt::Display;

/// A destination of lines.
pub trait LineOutput {
    /// The reason why a line isn't put in.
    type Error: Drop + From<AllocError>;

    /// That lines were put in, in order.
    ghost Lines: { Self → Self → List Said → Type 0 };

    ghost nothing: { (output : Self) → Lines output output [] };

    ghost parts: { (before between after : Self) (front back : List Said) →
        Lines before between front → Lines between after back → Lines before after (front ++ back) };

    /// Puts a line in, which says an item.
    fn write_line<T: ToJson + Display + Drop>(&mut self, item: T) -> Result<(), Self::Error>
        ensures { OnOk result (IfSome (T.output item) (λ text.
            Lines self.old self.new (record { text = text; object = T.json item } ∷ []))) };
}
