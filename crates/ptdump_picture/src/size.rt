//! Sizes and counts as texts.

use std::fmt::{Display, Formatter, Result as FmtResult, Write};
use text::{SizeUnit, unit_of, write_size};

/// A number of bytes, written in the largest of KiB, MiB, GiB and TiB that isn't larger. If the unit doesn't divide it, it has
/// one decimal place, rounded down, unless it is 1000 units or more.
#[derive(Clone, Copy)]
pub struct ShortSize(pub u64);

impl Display for ShortSize {
    ghost use Rattle.std.specs.Prelude.{Some};
    ghost use Rattle.ptdump_picture.specs.ShortSizes.{short_size};

    ghost output = { λ size. Some (short_size size.0) };

    fn fmt<W: Write>(&self, f: &mut Formatter<W>) -> FmtResult {
        let ShortSize(bytes) = *self;
        let SizeUnit { bytes: unit, name } = unit_of(bytes);
        let whole = bytes / unit;
        let rest = bytes % unit;
        if rest == 0 || whole >= 1000 {
            write!(f, "{whole}{name}")
        } else {
            let tenths = rest * 10 / unit;
            write!(f, "{whole}.{tenths}{name}")
        }
    }
}

/// A number of bytes, written exactly.
#[derive(Clone, Copy)]
pub(crate) struct ExactSize(pub u64);

impl Display for ExactSize {
    fn fmt<W: Write>(&self, f: &mut Formatter<W>) -> FmtResult {
        write_size(f, self.0)
    }
}

/// A number of things, with their name.
#[derive(Clone, Copy)]
pub(crate) struct Count {
    count: u64,
    one: &'static str,
    several: &'static str,
}

impl Count {
    /// Creates a number of mappings.
    pub fn mappings(count: u64) -> Count {
        Count {
            count,
            one: "mapping",
            several: "mappings",
        }
    }

    /// Creates a number of regions.
    pub fn regions(count: u64) -> Count {
        Count {
            count,
            one: "region",
            several: "regions",
        }
    }

    /// Creates a number of tables.
    pub fn tables(count: u64) -> Count {
        Count {
            count,
            one: "table",
            several: "tables",
        }
    }
}

impl Display for Count {
    fn fmt<W: Write>(&self, f: &mut Formatter<W>) -> FmtResult {
        let count = self.count;
        let name = if count == 1 { self.one } else { self.several };
        write!(f, "{count} {name}")
    }
}
