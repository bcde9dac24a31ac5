//! Destinations of lines of text.
ghost use Rattle.std.specs.Prelude.{◌++◌, ℕ, List, [], IfSome, OnOk};
ghost use Rattle.ptdump_json.specs.Walks.{line};

use std::alloc::AllocError;
use std::fmt::Display;

/// A destination for lines of text. It is a trait so that contracts can identify an output that a struct has borrowed, once
/// it is returned.
pub trait Lines {
    /// The reason why a line isn't put in.
    type Error: Drop + From<AllocError>;

    /// That a text was put in.
    ghost puts: { Self → Self → List ℕ → Type 0 };

    ghost nothing: { (output : Self) → puts output output [] };

    ghost parts: { (before between after : Self) (front back : List ℕ) →
        puts before between front → puts between after back → puts before after (front ++ back) };

    /// Puts a text in as a line.
    fn write_line<D: Display + Drop>(&mut self, text: D) -> Result<(), Self::Error>
        ensures { OnOk result (IfSome (D.output text) (λ text. puts self.old self.new (line text))) };
}
