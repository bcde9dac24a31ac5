//! The picture.
use crate::area::{MARGIN, PICTURE_WIDTH, Point};
use crate::bar::{Bar, Half};
use crate::legend::{LEGEND_HEIGHT, write_legend};
use crate::links::TableLink;
use crate::size::{Count, ShortSize};
use crate::tree::{Tables, Tree};
use std::alloc::{AllocError, Global};
use std::fmt::{Display, Formatter, Result as FmtResult, Write};
use x86_64_addr::level_count::LevelCount;
use x86_64_dump::TablesByLevel;
use x86_64_mappings::RegionIn;
use x86_64_page::frame::PhysFrame;
use x86_64_page::page::Size4KiB;

/// The distance of the legend from the top.
const LEGEND_TOP: u64 = 80;

/// The distance of the bars from the top.
const BARS_TOP: u64 = LEGEND_TOP + LEGEND_HEIGHT + 36;

/// The distance of the bar of the upper half from the left.
const UPPER_LEFT: u64 = PICTURE_WIDTH / 2 + 10;

/// The distance between the bars and the tree.
const TREE_SPACE: u64 = 44;

/// The styles of the classes, and the stripes for memory that user code may access.
const STYLE: &str =
    "<defs><pattern id='user' width='7' height='7' patternUnits='userSpaceOnUse' patternTransform='rotate(45)'>
<rect width='2' height='7' fill='#fff'/></pattern></defs>
<style>
text{font:12px sans-serif;fill:#222}
.title{font:bold 20px sans-serif}
.counts{font:14px sans-serif}
.heading{font:bold 15px sans-serif}
.level{font:bold 12px sans-serif}
.code{font:12px monospace}
.note{font:11px sans-serif;fill:#555}
.middle{text-anchor:middle}
.end{text-anchor:end}
.box{fill:none;stroke:#333}
.edge{stroke:#333;stroke-width:2}
.side{fill:none;stroke:#999;stroke-dasharray:2 3}
.break{fill:none;stroke:#777}
.link{stroke:#999}
.table{fill:#f4f4f4;stroke:#333}
.repeated{stroke-dasharray:4 3}
</style>
";

/// The contents of a picture: what page tables map, and the tables.
#[derive(Drop)]
pub struct Mapped<'a, L: LevelCount> {
    /// The frame of the root.
    pub root: PhysFrame<Size4KiB>,
    /// The regions, in order.
    pub regions: &'a [RegionIn<L>],
    /// The number of mappings.
    pub mapping_count: u64,
    /// The number of mapped bytes.
    pub mapped: u64,
    /// The number of frames that hold tables.
    pub table_count: u64,
    /// The frames of the tables by level, level one first. A frame may be at several levels.
    pub tables: TablesByLevel<'a>,
    /// The links between the tables. They are used only if there are at most [`MOST_DRAWN_TABLES`](crate::MOST_DRAWN_TABLES)
    /// tables, and may be left out if there are more.
    pub links: &'a [TableLink],
}

/// A picture, laid out and ready to be written as an SVG image.
#[derive(Drop)]
pub struct Picture {
    root: PhysFrame<Size4KiB>,
    level_count: u64,
    mapping_count: u64,
    mapped: u64,
    table_count: u64,
    lower: Bar,
    upper: Bar,
    tree: Tree,
}

impl Picture {
    /// Lays out the picture of what page tables map.
    ///
    /// # Errors
    ///
    /// `AllocError` if memory allocation fails.
    pub fn new<L: LevelCount>(alloc: Global, shown: &Mapped<'_, L>) -> Result<Picture, AllocError> {
        let left = Point {
            x: MARGIN,
            y: BARS_TOP,
        };
        let lower = Bar::new(alloc, Half::Lower, shown.regions, left)?;
        let right = Point {
            x: UPPER_LEFT,
            y: BARS_TOP,
        };
        let upper = Bar::new(alloc, Half::Upper, shown.regions, right)?;
        let tables = Tables {
            frames: shown.tables,
            links: shown.links,
        };
        let bottom = lower.bottom().max(upper.bottom());
        let place = Point {
            x: MARGIN,
            y: bottom.saturating_add(TREE_SPACE),
        };
        let tree = Tree::new(alloc, tables, place)?;
        Ok(Picture {
            root: shown.root,
            level_count: L::LEVELS,
            mapping_count: shown.mapping_count,
            mapped: shown.mapped,
            table_count: shown.table_count,
            lower,
            upper,
            tree,
        })
    }

    /// Writes the title, and the counts below it.
    fn write_heading<W: Write>(&self, f: &mut Formatter<W>) -> FmtResult {
        let root = self.root.start_address().as_u64();
        let title = Point { x: MARGIN, y: 36 };
        title.write_text(f, "title", format_args!("Page tables at 0x{root:x}"))?;
        let level_count = self.level_count;
        let tables = Count::tables(self.table_count);
        let mappings = Count::mappings(self.mapping_count);
        let mapped = ShortSize(self.mapped);
        let counts = format_args!("{level_count} levels, {tables}, {mappings}, {mapped} mapped");
        title.below(24).write_text(f, "counts", counts)
    }
}

impl Display for Picture {
    fn fmt<W: Write>(&self, f: &mut Formatter<W>) -> FmtResult {
        let width = PICTURE_WIDTH;
        let height = self.tree.bottom().saturating_add(MARGIN);
        write!(
            f,
            "<svg xmlns='http://www.w3.org/2000/svg' version='1.1' width='{width}' height='{height}' "
        )?;
        write!(f, "viewBox='0 0 {width} {height}'>\n")?;
        f.write_str(STYLE)?;
        write!(f, "<rect width='{width}' height='{height}' fill='#fff'/>\n")?;
        self.write_heading(f)?;
        write_legend(f, LEGEND_TOP)?;
        self.lower.write(f)?;
        self.upper.write(f)?;
        self.tree.write(f)?;
        f.write_str("</svg>\n")
    }
}
