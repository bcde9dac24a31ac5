//! The tables of a level.
use super::Tables;
use super::table_box::TableBox;
use crate::area::{Area, LINE_HEIGHT, Point};
use crate::size::{Count, ExactSize};
use std::alloc::{AllocError, Global};
use std::fmt::{Formatter, Result as FmtResult, Write};
use x86_64_page::frame::PhysFrame;
use x86_64_page::page::Size4KiB;

/// The distance between the boxes of tables.
const BOX_SPACE: u64 = 6;

/// The height that each doubling of the number of tables adds to the one box for all tables.
const DOUBLING_HEIGHT: u64 = 14;

/// The tables of a level.
#[derive(Drop)]
pub(super) struct Level {
    index: usize,
    table_count: u64,
    /// The area of the first box.
    place: Area,
    /// The one box for all tables, unless there are none or they are drawn one by one.
    pub summary: Option<Area>,
    /// The tables, if they are drawn one by one.
    pub boxes: Vec<TableBox>,
}

impl Level {
    /// Creates a level with this number of tables, drawn as one box. The index counts levels from 0 at level one.
    pub fn new(alloc: Global, index: usize, table_count: usize, place: Area) -> Level {
        let table_count = table_count as u64;
        let place = Area {
            top: place.top.saturating_add(2 * LINE_HEIGHT),
            ..place
        };
        let summary = if table_count > 0 {
            Some(summary_area(table_count, place))
        } else {
            None
        };
        Level {
            index,
            table_count,
            place,
            summary,
            boxes: Vec::new(alloc),
        }
    }

    /// Draws the tables one by one, each beside those that it names.
    pub fn push_boxes(
        &mut self,
        tables: Tables<'_>,
        frames: &[PhysFrame<Size4KiB>],
        below: &[TableBox],
    ) -> Result<(), AllocError> {
        self.summary = None;
        let mut free = self.place.top;
        for frame in frames {
            let mut table = TableBox::new(tables, self.index, *frame, self.place);
            table.area.top = table
                .middle_of_named(below, tables.links)
                .unwrap_or(free)
                .max(free);
            free = table.area.bottom().saturating_add(BOX_SPACE);
            self.boxes.push(table)?;
        }
        Ok(())
    }

    /// Returns the distance of its bottom from the top of the picture.
    pub fn bottom(&self) -> u64 {
        let area = self.boxes.last().map_or(self.place, |table| table.area);
        self.summary.unwrap_or(area).bottom()
    }

    /// Writes the level.
    pub fn write<W: Write>(&self, f: &mut Formatter<W>) -> FmtResult {
        self.write_heading(f)?;
        if let Some(area) = self.summary {
            area.write_styled(f, "table")?;
            let middle = Point {
                x: area.centre(),
                y: area.middle().saturating_add(4),
            };
            middle.write_text(f, "middle", Count::tables(self.table_count))?;
        }
        for table in self.boxes.iter() {
            table.write(f)?;
        }
        Ok(())
    }

    /// Writes the number of the level, the number of tables, and how much an entry spans.
    fn write_heading<W: Write>(&self, f: &mut Formatter<W>) -> FmtResult {
        let number = self.index.saturating_add(1);
        let place = Point {
            x: self.place.left,
            y: self.place.top.saturating_sub(20),
        };
        let tables = Count::tables(self.table_count);
        place.write_text(f, "level", format_args!("Level {number}: {tables}"))?;
        let span = ExactSize(entry_span(self.index));
        place
            .below(14)
            .write_text(f, "note", format_args!("{span} an entry"))
    }
}

/// Returns the area of the one box for all tables of a level. The more tables there are, the higher it is.
fn summary_area(table_count: u64, place: Area) -> Area {
    let doublings = u64::from(table_count.max(1).ilog2());
    Area {
        height: place.height.saturating_add(DOUBLING_HEIGHT * doublings),
        ..place
    }
}

/// Returns the number of bytes that an entry of a level spans.
fn entry_span(index: usize) -> u64 {
    match index {
        0 => 1 << 12,
        1 => 1 << 21,
        2 => 1 << 30,
        3 => 1 << 39,
        _ => 1 << 48,
    }
}
