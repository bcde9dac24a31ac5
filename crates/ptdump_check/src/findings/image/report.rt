//! The report on an image as a whole.
use super::{Image, MOST_PLACES};
use crate::findings::entry::Table;
use std::fmt::{Display, Formatter, Result as FmtResult, Write};

/// The line of a report for a table: its new address, its old address and its level.
#[derive(Drop)]
pub struct Row<'a> {
    image: &'a Image,
    table: &'a Table,
}

impl<'a> Row<'a> {
    /// Creates the line of a table of an image.
    pub(super) fn new(image: &'a Image, table: &'a Table) -> Row<'a> {
        Row { image, table }
    }
}

impl Display for Row<'_> {
    fn fmt<W: Write>(&self, f: &mut Formatter<W>) -> FmtResult {
        let new = self.image.new_address(self.table);
        let old = self.table.frame.start_address().as_u64();
        let level = self.table.level;
        write!(f, "{new:<#12x}{old:<#18x}{level}")
    }
}

/// The lines that end a report: where the root names itself, and how the image is read.
#[derive(Drop)]
pub struct ReportEnd<'a> {
    image: &'a Image,
}

impl<'a> ReportEnd<'a> {
    /// Creates the end of the report of an image.
    pub(super) fn new(image: &'a Image) -> ReportEnd<'a> {
        ReportEnd { image }
    }
}

impl Display for ReportEnd<'_> {
    fn fmt<W: Write>(&self, f: &mut Formatter<W>) -> FmtResult {
        let places = self.image.places();
        if places > MOST_PLACES {
            let most = MOST_PLACES - 1;
            writeln!(
                f,
                "    there are more tables than the {most} that pagetab takes"
            )?;
        }
        if let Some(index) = self.image.self_entry {
            writeln!(f, "the root names itself at the index {index}")?;
        }
        writeln!(f, "places: {places}")?;
        write_command(f, self.image)
    }
}

/// Writes the command line that reads an image.
fn write_command<W: Write>(f: &mut Formatter<W>, image: &Image) -> FmtResult {
    let places = image.places();
    let levels = if image.levels == 5 { "5" } else { "" };
    match image.self_entry {
        Some(index) => writeln!(
            f,
            "run: ./pagetab recursive{levels} {places} {index} < IMAGE"
        ),
        None => writeln!(f, "run: ./pagetab direct{levels} {places} < IMAGE"),
    }
}
