//! What a check looks for.

use std::fmt::{Display, Formatter, Result as FmtResult, Write};
use x86_64_mappings::Selection;

/// The addresses from a first one to a last one, both included. As text these are both, joined by `-`.
#[derive(Clone, Copy)]
pub struct AddressRange {
    /// The first.
    pub first: u64,
    /// The last.
    pub last: u64,
}

impl Display for AddressRange {
    ghost use Rattle.std.specs.Prelude.{◌++◌, Some, codes};
    ghost use Rattle.text.specs.Numbers.{hexadecimal};

    ghost output = { λ range. Some (hexadecimal range.first ++ codes "-" ++ hexadecimal range.last) };

    fn fmt<W: Write>(&self, f: &mut Formatter<W>) -> FmtResult {
        let first = self.first;
        let last = self.last;
        write!(f, "0x{first:x}-0x{last:x}")
    }
}

/// What a check looks for besides what is always a finding.
#[derive(Clone, Copy)]
pub struct Checking {
    /// The number of bits of the processor's physical addresses. More than 52 count as 52.
    pub physical_bits: u8,
    /// The addresses of the kernel's direct map, through which it may write to all of memory. If they are known, a table to which
    /// another writable mapping leads is a finding. A mapping that lies there only in part is such a mapping.
    pub direct_map: Option<AddressRange>,
    /// The regions that are looked at. All tables are.
    pub selection: Selection,
    /// Whether frames are looked for that are mapped with different rights, by the mappings that are selected.
    pub aliases: bool,
}
