//! Columns of fixed widths, as text.
ghost use Rattle.std.specs.Prelude.{◌+◌, Some};
ghost use Rattle.text.specs.Numbers.{hexadecimal};
ghost use Rattle.text.specs.Sizes.{size_text};
ghost use Rattle.ptdump_json.specs.Columns.{at_left, at_right};

use std::fmt::{Display, Formatter, Result as FmtResult, Write};
use text::exact_unit;

/// A number in base 16, after `0x`, at the left of a column.
#[derive(Clone, Copy)]
pub struct NumberColumn {
    /// The number.
    pub number: u64,
    /// The number of digits for which the column has room.
    pub digits: usize,
}

impl Display for NumberColumn {
    ghost output = { λ column. Some (at_left (column.digits + 2) (hexadecimal column.number)) };

    fn fmt<W: Write>(&self, f: &mut Formatter<W>) -> FmtResult {
        let NumberColumn { number, digits } = *self;
        write!(f, "0x{number:<digits$x}")
    }
}

/// A number of bytes in the largest of KiB, MiB, GiB and TiB that divides it, at the right of a column.
#[derive(Clone, Copy)]
pub struct SizeColumn {
    /// The number of bytes.
    pub bytes: u64,
    /// The number of digits for which the column has room.
    pub digits: usize,
}

impl Display for SizeColumn {
    ghost output = { λ column. Some (at_right (column.digits + 3) (size_text column.bytes)) };

    fn fmt<W: Write>(&self, f: &mut Formatter<W>) -> FmtResult {
        let SizeColumn { bytes, digits } = *self;
        let unit = exact_unit(bytes);
        let count = bytes / unit.bytes;
        let name = unit.name;
        write!(f, "{count:>digits$}{name}")
    }
}
