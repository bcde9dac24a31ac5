//! The columns of the levels.
ghost use Rattle.std.specs.Prelude.{◌≡◌, ◌+◌, ◌≤◌, ◌<◌};

use crate::area::{Area, MARGIN, PICTURE_WIDTH};
use x86_64_dump::TablesByLevel;

/// The height of the box of a table.
const BOX_HEIGHT: u64 = 20;

/// The greatest distance between the boxes of two levels.
const MOST_SPACE: u64 = 120;

/// The width of all columns together.
const TREE_WIDTH: u64 = PICTURE_WIDTH - 2 * MARGIN;

/// The columns of the levels.
#[derive(Clone, Copy)]
pub(super) struct Columns {
    top: u64,
    level_count: u64,
    width: u64,
    ghost narrow: { width ≤ 180 },
}

impl Columns {
    /// Creates the columns for tables by level.
    pub fn new(tables: TablesByLevel<'_>, top: u64) -> Columns {
        Columns {
            top,
            level_count: tables.len() as u64,
            width: box_width(tables),
        }
    }

    /// Returns the area of the first box of a level. The index counts levels from 0 at level one.
    pub fn place(&self, index: usize) -> Area
        ensures { result.left + result.width ≤ PICTURE_WIDTH }
    {
        let spaces = self.level_count.saturating_sub(1);
        let space = (TREE_WIDTH - self.width) / spaces.max(1);
        let pitch = space.min(self.width + MOST_SPACE);
        let before = spaces.saturating_sub(index as u64);
        Area {
            left: MARGIN + pitch.saturating_mul(before).min(TREE_WIDTH - self.width),
            top: self.top,
            width: self.width,
            height: BOX_HEIGHT,
        }
    }
}

/// Returns the width of the boxes, enough for the largest of the addresses.
fn box_width(tables: TablesByLevel<'_>) -> u64
    ensures { result ≤ 180 }
{
    let mut bits = 0;
    for frames in tables {
        for frame in frames.iter() {
            bits |= frame.start_address().as_u64();
        }
    }
    // An address has 52 bits.
    let digits = (u64::from(bits.max(1).ilog2()) / 4 + 1).min(13);
    52 + 29 * (digits + 2) / 4
}
