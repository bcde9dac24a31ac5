//! Lines of text of an output.
ghost use Rattle.ptdump_engine.specs.Output.{Puts};
ghost use Rattle.ptdump_engine.specs.private.Puts.{puts_nothing, puts_both};

use crate::destination::Destination;
use crate::output::{Output, OutputError};
use ptdump_json::Lines;
use std::fmt::Display;

impl<W: Destination> Lines for Output<'_, W> {
    type Error = OutputError<W>;

    ghost puts = { λ old new text. Puts W.contents old new text };

    ghost nothing = { λ output. puts_nothing W.contents output };

    ghost parts = { λ before between after front back.
        puts_both W.contents before between after front back };

    fn write_line<D: Display + Drop>(&mut self, text: D) -> Result<(), OutputError<W>> {
        writeln!(self, "{text}")
    }
}
