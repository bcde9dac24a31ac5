//! Areas, points and lines of the picture, in pixels, and how they are written.
use std::fmt::{Display, Formatter, Result as FmtResult, Write};

/// The width of the picture.
pub(crate) const PICTURE_WIDTH: u64 = 1000;

/// The width of the empty margin.
pub(crate) const MARGIN: u64 = 20;

/// The distance between lines of text.
pub(crate) const LINE_HEIGHT: u64 = 16;

/// A rectangle.
#[derive(Clone, Copy)]
pub(crate) struct Area {
    /// The distance of its left edge from the left edge of the picture.
    pub left: u64,
    /// The distance of its top from the top of the picture.
    pub top: u64,
    /// Its width.
    pub width: u64,
    /// Its height.
    pub height: u64,
}

impl Area {
    /// Returns the distance of its right edge from the left.
    pub fn right(&self) -> u64 {
        self.left.saturating_add(self.width)
    }

    /// Returns the distance of its bottom from the top.
    pub fn bottom(&self) -> u64 {
        self.top.saturating_add(self.height)
    }

    /// Returns the distance of its centre from the left.
    pub fn centre(&self) -> u64 {
        self.left.saturating_add(self.width / 2)
    }

    /// Returns the distance of its centre from the top.
    pub fn middle(&self) -> u64 {
        self.top.saturating_add(self.height / 2)
    }

    /// Returns its upper left corner.
    pub fn top_left(&self) -> Point {
        Point {
            x: self.left,
            y: self.top,
        }
    }

    /// Returns its upper right corner.
    pub fn top_right(&self) -> Point {
        Point {
            x: self.right(),
            y: self.top,
        }
    }

    /// Returns its lower left corner.
    pub fn bottom_left(&self) -> Point {
        Point {
            x: self.left,
            y: self.bottom(),
        }
    }

    /// Returns its lower right corner.
    pub fn bottom_right(&self) -> Point {
        Point {
            x: self.right(),
            y: self.bottom(),
        }
    }

    /// Returns the middle of its left edge.
    pub fn middle_left(&self) -> Point {
        Point {
            x: self.left,
            y: self.middle(),
        }
    }

    /// Returns the middle of its right edge.
    pub fn middle_right(&self) -> Point {
        Point {
            x: self.right(),
            y: self.middle(),
        }
    }

    /// Writes the rectangle, filled.
    pub fn write_filled<W: Write>(&self, f: &mut Formatter<W>, fill: &str) -> FmtResult {
        self.write_ends(f)?;
        write!(f, " fill='{fill}'/>\n")
    }

    /// Writes the rectangle in the style of a class.
    pub fn write_styled<W: Write>(&self, f: &mut Formatter<W>, class: &str) -> FmtResult {
        self.write_ends(f)?;
        write!(f, " class='{class}'/>\n")
    }

    /// Writes the start of the rectangle's element, with its position and size.
    fn write_ends<W: Write>(&self, f: &mut Formatter<W>) -> FmtResult {
        let Area {
            left,
            top,
            width,
            height,
        } = *self;
        write!(
            f,
            "<rect x='{left}' y='{top}' width='{width}' height='{height}'"
        )
    }
}

/// A point.
#[derive(Clone, Copy)]
pub(crate) struct Point {
    /// The distance from the left.
    pub x: u64,
    /// The distance from the top.
    pub y: u64,
}

impl Point {
    /// Returns the point that is lower by this height.
    pub fn below(self, height: u64) -> Point {
        Point {
            y: self.y.saturating_add(height),
            ..self
        }
    }

    /// Writes a text in the style of a class. The style says whether the text begins, ends or has its middle at the point.
    pub fn write_text<W: Write, T: Display + Drop>(
        self,
        f: &mut Formatter<W>,
        class: &str,
        text: T,
    ) -> FmtResult {
        let Point { x, y } = self;
        write!(f, "<text x='{x}' y='{y}' class='{class}'>{text}</text>\n")
    }
}

/// A line from one point to another.
#[derive(Clone, Copy)]
pub(crate) struct Line {
    /// Its start.
    pub from: Point,
    /// Its end.
    pub to: Point,
}

impl Line {
    /// Writes the line in the style of a class.
    pub fn write<W: Write>(&self, f: &mut Formatter<W>, class: &str) -> FmtResult {
        let Point { x, y } = self.from;
        write!(f, "<line x1='{x}' y1='{y}'")?;
        let Point { x, y } = self.to;
        write!(f, " x2='{x}' y2='{y}' class='{class}'/>\n")
    }
}
