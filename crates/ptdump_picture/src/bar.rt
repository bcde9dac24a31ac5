//! A bar: a half of the address space, from its first address at the top to its last one at the bottom.
mod regions;

use crate::area::{Area, LINE_HEIGHT, Line, Point};
use crate::piece::{Piece, pieces_between};
use crate::size::{Count, ExactSize, ShortSize};
use regions::{region_height, write_regions};
use std::alloc::{AllocError, Global};
use std::fmt::{Formatter, Result as FmtResult, Write};
use x86_64_addr::level_count::LevelCount;
use x86_64_mappings::RegionIn;

/// The width of a bar.
pub(crate) const BAR_WIDTH: u64 = 84;

/// The height of a gap, whatever its size.
const GAP_HEIGHT: u64 = 24;

/// The height of the heading above a bar.
const HEADING_HEIGHT: u64 = 2 * LINE_HEIGHT;

/// A half of the address space.
#[derive(Clone, Copy)]
pub(crate) enum Half {
    /// The half of the low addresses.
    Lower,
    /// The half of the high addresses.
    Upper,
}

impl Half {
    /// Returns its first and its last address.
    fn ends<L: LevelCount>(self) -> (u64, u64) {
        let size = L::POSITION_COUNT / 2;
        match self {
            Half::Lower => (0, size.saturating_sub(1)),
            Half::Upper => (0u64.wrapping_sub(size), u64::MAX),
        }
    }

    /// Returns its name.
    fn name(self) -> &'static str {
        match self {
            Half::Lower => "Lower half",
            Half::Upper => "Upper half",
        }
    }
}

/// A part of a bar.
#[derive(Clone, Copy)]
enum Content {
    /// A gap of this number of bytes, in which nothing is mapped.
    Gap(u64),
    /// Regions that are drawn as one box.
    Regions(Piece),
}

impl Content {
    /// Returns its height in the picture.
    fn height(&self) -> u64 {
        match self {
            Content::Gap(_) => GAP_HEIGHT,
            Content::Regions(piece) => region_height(piece),
        }
    }
}

/// A bar.
#[derive(Drop)]
pub(crate) struct Bar {
    half: Half,
    first: u64,
    last: u64,
    region_count: u64,
    mapped: u64,
    area: Area,
    contents: Vec<(Area, Content)>,
}

impl Bar {
    /// Lays out the bar of a half.
    pub fn new<L: LevelCount>(
        alloc: Global,
        half: Half,
        regions: &[RegionIn<L>],
        place: Point,
    ) -> Result<Bar, AllocError> {
        let (first, last) = half.ends::<L>();
        let mut bar = Bar {
            half,
            first,
            last,
            region_count: 0,
            mapped: 0,
            area: Area {
                left: place.x,
                top: place.y.saturating_add(HEADING_HEIGHT),
                width: BAR_WIDTH,
                height: 0,
            },
            contents: Vec::new(alloc),
        };
        let pieces = pieces_between(alloc, regions, first, last)?;
        bar.push_pieces(&pieces)?;
        Ok(bar)
    }

    /// Adds pieces and the gaps between them.
    fn push_pieces(&mut self, pieces: &[Piece]) -> Result<(), AllocError> {
        let mut free = Some(self.first);
        for piece in pieces {
            self.push_gap(free, piece.first)?;
            self.push(Content::Regions(*piece))?;
            self.region_count = self.region_count.saturating_add(piece.region_count);
            self.mapped = self.mapped.saturating_add(piece.shares.sum());
            free = piece.last.checked_add(1);
        }
        match free {
            Some(free) if free <= self.last => {
                self.push(Content::Gap((self.last - free).saturating_add(1)))
            }
            _ => Ok(()),
        }
    }

    /// Adds the gap from one address up to another, if there is one.
    fn push_gap(&mut self, free: Option<u64>, next: u64) -> Result<(), AllocError> {
        match free {
            Some(free) if free < next => self.push(Content::Gap(next - free)),
            _ => Ok(()),
        }
    }

    /// Adds a part at the bottom.
    fn push(&mut self, content: Content) -> Result<(), AllocError> {
        let area = Area {
            top: self.area.bottom(),
            height: content.height(),
            ..self.area
        };
        self.contents.push((area, content))?;
        self.area.height = self.area.height.saturating_add(area.height);
        Ok(())
    }

    /// Returns the distance of its bottom, with the text below, from the top of the picture.
    pub fn bottom(&self) -> u64 {
        self.area.bottom().saturating_add(LINE_HEIGHT)
    }

    /// Writes the bar.
    pub fn write<W: Write>(&self, f: &mut Formatter<W>) -> FmtResult {
        self.write_heading(f)?;
        for (area, content) in self.contents.iter() {
            match content {
                Content::Gap(size) => write_gap(f, *area, *size)?,
                Content::Regions(piece) => write_regions(f, *area, piece)?,
            }
        }
        self.write_ends(f)
    }

    /// Writes the heading above the bar.
    fn write_heading<W: Write>(&self, f: &mut Formatter<W>) -> FmtResult {
        let name = self.half.name();
        let regions = Count::regions(self.region_count);
        let mapped = ShortSize(self.mapped);
        let place = Point {
            x: self.area.left,
            y: self.area.top.saturating_sub(24),
        };
        place.write_text(
            f,
            "heading",
            format_args!("{name}: {regions}, {mapped} mapped"),
        )
    }

    /// Writes the first and the last address at the ends of the bar.
    fn write_ends<W: Write>(&self, f: &mut Formatter<W>) -> FmtResult {
        let Area { left, top, .. } = self.area;
        let bottom = self.area.bottom();
        let first = self.first;
        write_edge(f, self.area, top)?;
        let above = Point {
            x: left,
            y: top.saturating_sub(5),
        };
        above.write_text(f, "code", format_args!("0x{first:x}"))?;
        let last = self.last;
        write_edge(f, self.area, bottom)?;
        let below = Point {
            x: left,
            y: bottom.saturating_add(14),
        };
        below.write_text(f, "code", format_args!("0x{last:x}"))
    }
}

/// Writes the line at an end of a bar.
fn write_edge<W: Write>(f: &mut Formatter<W>, area: Area, y: u64) -> FmtResult {
    let edge = Line {
        from: Point { x: area.left, y },
        to: Point { x: area.right(), y },
    };
    edge.write(f, "edge")
}

/// Returns the start of the text beside a part of a bar.
fn beside(area: Area) -> Point {
    Point {
        x: area.right().saturating_add(6),
        y: area.middle().saturating_add(4),
    }
}

/// Writes a gap and its size.
fn write_gap<W: Write>(f: &mut Formatter<W>, area: Area, size: u64) -> FmtResult {
    let exact = ExactSize(size);
    write!(f, "<g><title>{exact} not mapped</title>\n")?;
    write_break(f, area)?;
    let size = ShortSize(size);
    beside(area).write_text(f, "note", format_args!("{size} not mapped"))?;
    f.write_str("</g>\n")
}

/// Writes the mark of a bar that is drawn shortened.
pub(crate) fn write_break<W: Write>(f: &mut Formatter<W>, area: Area) -> FmtResult {
    let Area {
        left,
        top,
        height,
        ..
    } = area;
    let right = area.right();
    write!(
        f,
        "<path d='M{left},{top}v{height}M{right},{top}v{height}' class='side'/>\n"
    )?;
    write_waves(f, left, area.middle().saturating_sub(6))?;
    write_waves(f, left, area.middle().saturating_sub(1))
}

/// Writes a wavy line across a bar.
fn write_waves<W: Write>(f: &mut Formatter<W>, left: u64, y: u64) -> FmtResult {
    write!(
        f,
        "<path d='M{left},{y}l14,6l14,-6l14,6l14,-6l14,6l14,-6' class='break'/>\n"
    )
}
