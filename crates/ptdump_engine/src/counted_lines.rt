//! Lines that are counted.
ghost use Rattle.std.specs.Prelude.{◌≡◌};

use crate::line_output::LineOutput;
use crate::request::Form;
use ptdump_json::{Lines, ToJson, write_as};
use std::alloc::Global;
use std::fmt::Display;

/// A destination of lines that passes them on in a form and counts them.
///
/// The other destination is a type parameter so that contracts can identify it once it is returned.
pub struct CountedLines<'a, O> {
    output: &'a mut O,
    alloc: Global,
    form: Form,
    count: u64,
}

impl<O> Drop for CountedLines<'_, O> {
    fn drop(self)
        ensures { self.exit.0.now ≡ self.entry.output.now }
    {
        let CountedLines {
            output: _output,
            alloc: _,
            form: _,
            count: _,
        } = self;
    }
}

impl<'a, O: Lines> CountedLines<'a, O> {
    /// Begins to count.
    pub fn new(alloc: Global, form: Form, output: &'a mut O) -> Self
        ensures name { result.output.ghost_name ≡ output.entry.ghost_name }
        ensures now { result.output.now ≡ output.old }
        ensures form { result.form ≡ form }
        ensures count { result.count ≡ 0 }
    {
        CountedLines {
            output,
            alloc,
            form,
            count: 0,
        }
    }

    /// Returns the number of lines, or 2^64 - 1 if there are more.
    pub fn count(&self) -> u64
        ensures { result ≡ self.now.count }
    {
        self.count
    }
}

impl<O: Lines> LineOutput for CountedLines<'_, O> {
    type Error = O::Error;

    ghost use Rattle.ptdump_engine.specs.private.Counting.{AreCounted};
    ghost use Rattle.ptdump_engine.specs.private.CountingLaws.{counted_nothing, counted_both};

    ghost Lines = { λ old new lines. AreCounted O.puts old new lines };

    ghost nothing = { λ counted. counted_nothing O.puts O.nothing counted };

    ghost parts = { counted_both O.puts O.parts };

    fn write_line<T: ToJson + Display + Drop>(&mut self, item: T) -> Result<(), O::Error> {
        write_as(self.alloc, self.form, item, self.output)?;
        self.count = self.count.saturating_add(1);
        Ok(())
    }
}
