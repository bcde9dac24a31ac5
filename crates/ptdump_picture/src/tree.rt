//! The tables, drawn as a tree: a column for each level, the root's first.
mod columns;
mod level;
mod table_box;

use crate::area::{LINE_HEIGHT, Line, Point};
use crate::links::TableLink;
use columns::Columns;
use level::Level;
use std::alloc::{AllocError, Global};
use std::fmt::{Formatter, Result as FmtResult, Write};
use table_box::TableBox;
use x86_64_dump::TablesByLevel;
use x86_64_page::frame::PhysFrame;
use x86_64_page::page::Size4KiB;

/// The greatest number of tables that are drawn one by one. A table counts once for each of its levels.
pub const MOST_DRAWN_TABLES: usize = 40;

/// The tables that are drawn.
#[derive(Clone, Copy)]
pub(crate) struct Tables<'a> {
    /// Their frames by level, level one first.
    pub frames: TablesByLevel<'a>,
    /// The links between them.
    pub links: &'a [TableLink],
}

impl Tables<'_> {
    /// Returns true if there are few enough tables to be drawn one by one.
    fn are_few(&self) -> bool {
        let mut count: usize = 0;
        for frames in self.frames {
            count = count.saturating_add(frames.len());
        }
        count <= MOST_DRAWN_TABLES
    }

    /// Returns true if the table in a frame is also at another level than the one with this index.
    fn is_elsewhere(&self, index: usize, frame: PhysFrame<Size4KiB>) -> bool {
        let mut levels = self.frames.iter().enumerate();
        levels.any(|(other, frames)| other != index && frames.contains(&frame))
    }
}

/// The tree of tables.
#[derive(Drop)]
pub(crate) struct Tree {
    place: Point,
    bottom: u64,
    has_boxes: bool,
    levels: Vec<Level>,
    lines: Vec<Line>,
}

impl Tree {
    /// Lays out the tree.
    pub fn new(alloc: Global, tables: Tables<'_>, place: Point) -> Result<Tree, AllocError> {
        let columns = Columns::new(tables.frames, place.y.saturating_add(LINE_HEIGHT));
        let mut tree = Tree {
            place,
            bottom: place.y,
            has_boxes: tables.are_few(),
            levels: Vec::new(alloc),
            lines: Vec::new(alloc),
        };
        for (index, frames) in tables.frames.iter().enumerate() {
            let mut level = Level::new(alloc, index, frames.len(), columns.place(index));
            if tree.has_boxes {
                let below = tree
                    .levels
                    .last()
                    .map_or(&[] as &[TableBox], |below| below.boxes.as_slice());
                level.push_boxes(tables, frames, below)?;
            }
            tree.push(level, tables.links)?;
        }
        Ok(tree)
    }

    /// Adds the next higher level.
    fn push(&mut self, level: Level, links: &[TableLink]) -> Result<(), AllocError> {
        if let Some(below) = self.levels.last() {
            push_lines(&mut self.lines, &level, below, links)?;
        }
        self.bottom = self.bottom.max(level.bottom());
        self.levels.push(level)?;
        Ok(())
    }

    /// Returns the distance of its bottom from the top of the picture.
    pub fn bottom(&self) -> u64 {
        self.bottom
    }

    /// Writes the tree.
    pub fn write<W: Write>(&self, f: &mut Formatter<W>) -> FmtResult {
        self.place.write_text(f, "heading", "Tables by level")?;
        if self.has_boxes {
            let beside = Point {
                x: self.place.x.saturating_add(130),
                ..self.place
            };
            let words =
                "[N]: named by entry N; N×: named by N entries; dashed: stands at several levels";
            beside.write_text(f, "note", words)?;
        }
        for line in self.lines.iter() {
            line.write(f, "link")?;
        }
        for level in self.levels.iter() {
            level.write(f)?;
        }
        Ok(())
    }
}

/// Adds the lines between a level and the one below.
fn push_lines(
    lines: &mut Vec<Line>,
    above: &Level,
    below: &Level,
    links: &[TableLink],
) -> Result<(), AllocError> {
    if let Some(left) = above.summary
        && let Some(right) = below.summary
    {
        lines.push(Line {
            from: left.top_right(),
            to: right.top_left(),
        })?;
        lines.push(Line {
            from: left.bottom_right(),
            to: right.bottom_left(),
        })?;
    }
    for parent in above.boxes.iter() {
        push_lines_from(lines, parent, &below.boxes, links)?;
    }
    Ok(())
}

/// Adds the lines from a table to the tables that it names.
fn push_lines_from(
    lines: &mut Vec<Line>,
    parent: &TableBox,
    boxes: &[TableBox],
    links: &[TableLink],
) -> Result<(), AllocError> {
    for child in boxes {
        if parent.names(child, links) {
            lines.push(Line {
                from: parent.area.middle_right(),
                to: child.area.middle_left(),
            })?;
        }
    }
    Ok(())
}
