//! Addresses with their rights.
ghost use Rattle.std.specs.Prelude.{Some};

use std::fmt::{Display, Formatter, Result as FmtResult, Write};
use text::write_hexadecimal;
use x86_64_tables::page_table::Rights;

/// An address with the rights that are allowed there.
#[derive(Clone, Copy)]
pub struct RightsAt {
    /// The address.
    pub address: u64,
    /// The rights.
    pub rights: Rights,
}

impl Display for RightsAt {
    ghost use Rattle.ptdump_check.specs.FindingTexts.{rights_at_text};

    ghost output = { λ at. Some (rights_at_text at.address at.rights) };

    fn fmt<W: Write>(&self, f: &mut Formatter<W>) -> FmtResult {
        write_hexadecimal(f, self.address)?;
        let rights = self.rights;
        write!(f, " {rights}")
    }
}
