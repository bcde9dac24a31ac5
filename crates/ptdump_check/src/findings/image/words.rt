//! The texts for the words of a table.
use super::{Fault, Image};
use crate::findings::entry::{Entry, Table};
use std::fmt::{Display, Formatter, Result as FmtResult, Write};

/// The lines of an image for a table: one for each word that isn't 0, except for entries above level one without `PRESENT`.
#[derive(Drop)]
pub struct WordLines<'a> {
    image: &'a Image,
    table: &'a Table,
    words: &'a [u64],
}

impl<'a> WordLines<'a> {
    /// Creates the lines of a table with these words.
    pub(super) fn new(image: &'a Image, table: &'a Table, words: &'a [u64]) -> WordLines<'a> {
        WordLines {
            image,
            table,
            words,
        }
    }
}

impl Display for WordLines<'_> {
    fn fmt<W: Write>(&self, f: &mut Formatter<W>) -> FmtResult {
        let table = self.image.new_address(self.table);
        for (index, word) in self.words.iter().enumerate() {
            let entry = Entry::new(self.table, index, *word);
            if entry.word != 0 && !entry.is_left_out() {
                let word = self.image.renamed(&entry);
                writeln!(f, "word 0x{table:x} {index} 0x{word:x}")?;
            }
        }
        Ok(())
    }
}

/// The lines that say why `pagetab` refuses entries of a table.
#[derive(Drop)]
pub struct Refusals<'a> {
    image: &'a Image,
    table: &'a Table,
    words: &'a [u64],
}

impl<'a> Refusals<'a> {
    /// Creates the refusals of a table with these words.
    pub(super) fn new(image: &'a Image, table: &'a Table, words: &'a [u64]) -> Refusals<'a> {
        Refusals {
            image,
            table,
            words,
        }
    }
}

impl Display for Refusals<'_> {
    fn fmt<W: Write>(&self, f: &mut Formatter<W>) -> FmtResult {
        for (index, word) in self.words.iter().enumerate() {
            let entry = Entry::new(self.table, index, *word);
            if entry.names_table() {
                write_refusals(f, self.image, &entry)?;
            }
        }
        Ok(())
    }
}

/// Writes why `pagetab` refuses an entry that names a table.
fn write_refusals<W: Write>(f: &mut Formatter<W>, image: &Image, entry: &Entry) -> FmtResult {
    if entry.is_huge_above() {
        let level = entry.level;
        writeln!(f, "    {entry} has HUGE_PAGE at level {level}")?;
    }
    match image.fault_of(entry) {
        Some(fault) => writeln!(f, "    {entry} names {fault}"),
        None => Ok(()),
    }
}

impl Display for Fault {
    fn fmt<W: Write>(&self, f: &mut Formatter<W>) -> FmtResult {
        f.write_str(match self {
            Fault::NamesRoot => "the root",
            Fault::NamesRootAgain => "the root, as another of its entries does",
            Fault::NamedBefore => "a table that another entry names",
            Fault::Outside => "a table outside the file",
        })
    }
}
