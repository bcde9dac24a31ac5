//! The number of findings.
ghost use Rattle.std.specs.Prelude.{Some};
ghost use Rattle.ptdump_check.specs.FindingTexts.{count_text};

use std::fmt::{Display, Formatter, Result as FmtResult, Write};

/// The number of findings, or 2^64 - 1 if there are more.
#[derive(Clone, Copy)]
pub struct FindingCount(pub u64);

impl Display for FindingCount {
    ghost output = { λ findings. Some (count_text findings.0) };

    fn fmt<W: Write>(&self, f: &mut Formatter<W>) -> FmtResult {
        let count = self.0;
        write!(f, "findings: {count}")
    }
}
