//! The box of a table.
use super::Tables;
use crate::area::{Area, Point};
use crate::links::TableLink;
use std::fmt::{Formatter, Result as FmtResult, Write};
use x86_64_page::frame::PhysFrame;
use x86_64_page::page::Size4KiB;

/// A table, drawn as a box.
#[derive(Clone, Copy)]
pub(super) struct TableBox {
    /// The area of the box.
    pub area: Area,
    index: usize,
    frame: PhysFrame<Size4KiB>,
    name_count: u64,
    last_name: u64,
    is_repeated: bool,
}

impl TableBox {
    /// Creates the box of the table in a frame, at a level whose index counts from 0 at level one.
    pub fn new(
        tables: Tables<'_>,
        index: usize,
        frame: PhysFrame<Size4KiB>,
        area: Area,
    ) -> TableBox {
        let mut table = TableBox {
            area,
            index,
            frame,
            name_count: 0,
            last_name: 0,
            is_repeated: tables.is_elsewhere(index, frame),
        };
        for link in tables.links {
            if table.is_named_by(link) {
                table.name_count = table.name_count.saturating_add(1);
                table.last_name = link.index;
            }
        }
        table
    }

    /// Returns true if the link leads to the table.
    fn is_named_by(&self, link: &TableLink) -> bool {
        link.child == self.frame && link.level == (self.index as u64).saturating_add(2)
    }

    /// Returns true if a link leads from the table to the other table.
    pub fn names(&self, child: &TableBox, links: &[TableLink]) -> bool {
        links.iter().any(|link| link.parent == self.frame && child.is_named_by(link))
    }

    /// Returns the vertical middle of the tables that the table names, or `None` if it names none.
    pub fn middle_of_named(&self, boxes: &[TableBox], links: &[TableLink]) -> Option<u64> {
        let mut first = None;
        let mut last = 0;
        for child in boxes {
            if self.names(child, links) {
                last = child.area.top;
                first = first.or(Some(last));
            }
        }
        first.map(|first: u64| first / 2 + last / 2)
    }

    /// Writes the box.
    pub fn write<W: Write>(&self, f: &mut Formatter<W>) -> FmtResult {
        let class = if self.is_repeated {
            "table repeated"
        } else {
            "table"
        };
        self.area.write_styled(f, class)?;
        let y = self.area.top.saturating_add(14);
        let left = Point {
            x: self.area.left.saturating_add(6),
            y,
        };
        self.write_names(f, left)?;
        let right = Point {
            x: self.area.right().saturating_sub(6),
            y,
        };
        let frame = self.frame.start_address().as_u64();
        right.write_text(f, "code end", format_args!("0x{frame:x}"))
    }

    /// Writes which entries name the table.
    fn write_names<W: Write>(&self, f: &mut Formatter<W>, place: Point) -> FmtResult {
        let index = self.last_name;
        match self.name_count {
            0 => place.write_text(f, "note", "root"),
            1 => place.write_text(f, "note", format_args!("[{index}]")),
            count => place.write_text(f, "note", format_args!("{count}×")),
        }
    }
}
