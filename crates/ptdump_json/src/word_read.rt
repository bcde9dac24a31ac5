//! Words that walks read. They have a text, and so has a missing table.
ghost use Rattle.std.specs.Prelude.{◌≡◌, Some};
ghost use Rattle.ptdump_json.specs.Walks.{read_word};

use std::fmt::{Display, Formatter, Result as FmtResult, Write};
use text::write_hexadecimal;
use x86_64_page::frame::PhysFrame;
use x86_64_page::page::Size4KiB;
use x86_64_tables::phys_memory::Step;

/// A word that a walk reads, with its table and index.
#[derive(Clone, Copy)]
pub struct WordRead {
    /// The level of its table.
    pub level: u64,
    /// The frame of its table.
    pub table: PhysFrame<Size4KiB>,
    /// Its index in the table.
    pub index: usize,
    /// The word.
    pub word: u64,
}

impl WordRead {
    /// Creates the word of a step of a walk.
    pub fn of(step: &Step) -> WordRead
        ensures { result ≡ read_word step.now }
    {
        WordRead {
            level: step.level,
            table: step.frame,
            index: step.index,
            word: step.word,
        }
    }
}

impl Display for WordRead {
    ghost use Rattle.ptdump_json.specs.Walks.{word_text};

    ghost output = { λ read. Some (word_text read) };

    fn fmt<W: Write>(&self, f: &mut Formatter<W>) -> FmtResult {
        let place = Place(*self);
        write!(f, "{place} ")?;
        write_hexadecimal(f, self.word)
    }
}

/// The place of a word that a walk reads.
#[derive(Clone, Copy)]
pub struct Place(pub WordRead);

impl Display for Place {
    ghost use Rattle.ptdump_json.specs.Walks.{word_place_text};

    ghost output = { λ place. Some (word_place_text place.0) };

    #[tactic(auto, unfolding(crate::specs::Walks::word_place_text))]
    fn fmt<W: Write>(&self, f: &mut Formatter<W>) -> FmtResult {
        let level = self.0.level;
        let index = self.0.index;
        write!(f, "level {level} ")?;
        write_hexadecimal(f, self.0.table.start_address().as_u64())?;
        write!(f, "[{index}]")
    }
}

/// The frame of a table that isn't in the dump.
#[derive(Clone, Copy)]
pub struct MissingTable(pub PhysFrame<Size4KiB>);

impl Display for MissingTable {
    ghost use Rattle.ptdump_json.specs.Walks.{missing_text};

    ghost output = { λ table. Some (missing_text table.0) };

    fn fmt<W: Write>(&self, f: &mut Formatter<W>) -> FmtResult {
        f.write_str("table ")?;
        write_hexadecimal(f, self.0.start_address().as_u64())?;
        f.write_str(" is not in the dump")
    }
}
