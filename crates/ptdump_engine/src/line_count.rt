//! Lines that are only counted.
ghost use Rattle.std.specs.Prelude.{◌≡◌};

use crate::line_output::LineOutput;
use ptdump_json::ToJson;
use std::alloc::AllocError;
use std::fmt::Display;

/// A destination of lines that counts them.
#[derive(Drop)]
pub struct LineCount {
    lines: u64,
}

impl LineCount {
    /// Begins to count.
    pub fn new() -> LineCount
        ensures { result.lines ≡ 0 }
    {
        LineCount { lines: 0 }
    }

    /// Returns the number of lines, or 2^64 - 1 if there are more.
    pub fn lines(&self) -> u64
        ensures { result ≡ self.now.lines }
    {
        self.lines
    }
}

impl LineOutput for LineCount {
    type Error = AllocError;

    ghost use Rattle.ptdump_engine.specs.private.LineCounting.{AreAdded};
    ghost use Rattle.ptdump_engine.specs.private.LineCountingLaws.{added_nothing, added_both};

    ghost Lines = { λ old new lines. AreAdded old new lines };

    ghost nothing = { λ count. added_nothing count };

    ghost parts = { λ before between after front back.
        added_both before between after front back };

    fn write_line<T: ToJson + Display + Drop>(&mut self, _item: T) -> Result<(), AllocError> {
        self.lines = self.lines.saturating_add(1);
        Ok(())
    }
}
