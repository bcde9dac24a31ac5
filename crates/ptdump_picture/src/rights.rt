//! The drawing of rights.
ghost use Rattle.std.specs.Prelude.{◌≡◌, ◌<◌};
ghost use Rattle.ptdump_picture.specs.Colours.{colour_of};

use crate::area::Area;
use std::fmt::{Display, Formatter, Result as FmtResult, Write};
use std::marker::Model;
use x86_64_addr::level_count::LevelCount;
use x86_64_mappings::RegionIn;
use x86_64_tables::page_table::Rights;

/// The number of kinds of rights.
pub(crate) const KIND_COUNT: usize = 8;

/// A kind of rights: which of write, user and execute are allowed. Contracts see it as the rights.
#[derive(Clone, Copy)]
pub(crate) struct Kind {
    rights: Rights,
}

impl Model for Kind {
    ghost use Rattle.std.specs.Prelude.{refl};
    ghost use Rattle.x86_64_model.specs.Mappings.{Rights as Allowed};

    ghost Value = { Allowed };

    ghost view = { λ kind. kind.rights };

    ghost inverse = { λ rights. record { rights = rights } };

    ghost inverse_ok = { λ rights _. refl };
}

impl Kind {
    /// Returns the kind of a region.
    pub fn of<L: LevelCount>(region: &RegionIn<L>) -> Kind {
        Kind {
            rights: region.rights,
        }
    }

    /// Returns the kind with a number. The kinds that user code doesn't have come first.
    pub fn with_number(number: usize) -> Kind {
        Kind {
            rights: Rights {
                write: number % 2 == 1,
                user: number / 4 % 2 == 1,
                execute: number / 2 % 2 == 1,
            },
        }
    }

    /// Returns its number.
    pub fn number(self) -> usize
        ensures { result < KIND_COUNT }
    {
        let rights = self.rights;
        usize::from(rights.write) + 2 * usize::from(rights.execute) + 4 * usize::from(rights.user)
    }

    /// Returns its colour. Whoever can distinguish dark from light, or blue from yellow, can distinguish the colours.
    pub fn colour(self) -> &'static str
        ensures { result.now ≡ colour_of self.write self.execute }
    {
        match (self.rights.write, self.rights.execute) {
            (false, false) => "#a6cee3",
            (true, false) => "#1f6fb4",
            (false, true) => "#f0b132",
            (true, true) => "#a50026",
        }
    }

    /// Returns what it allows, as a text.
    pub fn meaning(self) -> &'static str {
        match (self.rights.write, self.rights.execute) {
            (false, false) => "read",
            (true, false) => "read, write",
            (false, true) => "read, execute",
            (true, true) => "read, write, execute",
        }
    }

    /// Returns who has it, as a text.
    pub fn holder(self) -> &'static str {
        if self.rights.user { "user" } else { "kernel" }
    }

    /// Fills an area with its colour, striped if user code has it.
    pub fn write_filled<W: Write>(self, f: &mut Formatter<W>, area: Area) -> FmtResult {
        area.write_filled(f, self.colour())?;
        if self.rights.user {
            area.write_filled(f, "url(#user)")?;
        }
        Ok(())
    }
}

impl Display for Kind {
    fn fmt<W: Write>(&self, f: &mut Formatter<W>) -> FmtResult {
        let rights = self.rights;
        write!(f, "{rights}")
    }
}
