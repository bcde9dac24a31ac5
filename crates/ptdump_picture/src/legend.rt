//! The legend of the colours.
use crate::area::{Area, MARGIN, Point};
use crate::bar::{BAR_WIDTH, write_break};
use crate::rights::{KIND_COUNT, Kind};
use std::fmt::{Formatter, Result as FmtResult, Write};

/// The height of the legend.
pub(crate) const LEGEND_HEIGHT: u64 = 3 * ENTRY_HEIGHT;

/// The width of an entry.
const ENTRY_WIDTH: u64 = 240;

/// The height of an entry.
const ENTRY_HEIGHT: u64 = 24;

/// Writes the legend.
pub(crate) fn write_legend<W: Write>(f: &mut Formatter<W>, top: u64) -> FmtResult {
    for number in 0..KIND_COUNT {
        let sample = sample(top, number as u64 / 4, number as u64 % 4);
        write_kind(f, sample, Kind::with_number(number))?;
    }
    write_gap(f, sample(top, 2, 0))?;
    write_mixture(f, sample(top, 2, 2))
}

/// Returns the area of the sample of an entry.
fn sample(top: u64, row: u64, column: u64) -> Area {
    Area {
        left: MARGIN.saturating_add(ENTRY_WIDTH.saturating_mul(column)),
        top: top.saturating_add(ENTRY_HEIGHT.saturating_mul(row)),
        width: 32,
        height: 16,
    }
}

/// Returns the start of the text beside a sample.
fn beside(sample: Area) -> Point {
    Point {
        x: sample.right().saturating_add(8),
        y: sample.top.saturating_add(12),
    }
}

/// Writes the meaning of the colour of a kind of rights.
fn write_kind<W: Write>(f: &mut Formatter<W>, sample: Area, kind: Kind) -> FmtResult {
    kind.write_filled(f, sample)?;
    sample.write_styled(f, "box")?;
    let letters = beside(sample);
    letters.write_text(f, "code", kind)?;
    let words = Point {
        x: letters.x.saturating_add(38),
        ..letters
    };
    let holder = kind.holder();
    let meaning = kind.meaning();
    words.write_text(f, "note", format_args!("{holder}: {meaning}"))
}

/// Writes the meaning of a gap.
fn write_gap<W: Write>(f: &mut Formatter<W>, sample: Area) -> FmtResult {
    let gap = Area {
        width: BAR_WIDTH,
        ..sample
    };
    write_break(f, gap)?;
    beside(gap).write_text(f, "note", "not mapped, drawn shortened")
}

/// Writes the meaning of a box with several colours.
fn write_mixture<W: Write>(f: &mut Formatter<W>, sample: Area) -> FmtResult {
    let width = sample.width / 4;
    for number in 0..4 {
        let strip = Area {
            left: sample
                .left
                .saturating_add(width.saturating_mul(number as u64)),
            width,
            ..sample
        };
        Kind::with_number(number).write_filled(f, strip)?;
    }
    sample.write_styled(f, "box")?;
    let words = "small regions drawn as one; heights go by the logarithm of the size";
    beside(sample).write_text(f, "note", words)
}
